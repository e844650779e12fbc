// Comparing two terms without building anything: `conflicts_with` and `can_weaken_to`.
// Kinds and tags are matched by number; the line in kinds.rt says why.
ghost use Rattle.std.specs.Prelude.{◌≡◌, Bool, ◌≤◌, ◌<◌, length, get_or, [], ◌∷◌, Some};
ghost use Rattle.terms.specs.Term.{Term, Parts, sub};
ghost use Rattle.terms.specs.Words.Held.{Held, HeldParts};
ghost use Rattle.terms.specs.Formed.{Formed};
ghost use Rattle.terms.specs.Words.TermsAtPlaces.{FormedAt};
ghost use Rattle.terms.specs.Questions.{among};
ghost use Rattle.terms.specs.Comparison.{conflicts_with, can_weaken_to};
ghost use Rattle.terms.specs.Words.Lent.{PartOf, NotEmpty};
ghost use Rattle.terms.specs.Words.CompareContract.{Rows, Forward, Stepped};

use super::runs::{same_term, skip, term_part, word};
use super::{Part, Tokens};

// Whether a term conflicts with nothing, by the kind of its first token: Inference, Unknown and Error.
#[tactic(auto, unfolding(crate::specs::Questions::among))]
fn yields(kind: u32) -> bool
    ensures { result ≡ among kind (1 ∷ 4 ∷ 5 ∷ []) }
{
    matches!(kind, 1 | 4 | 5)
}

// Whether a term has an access, by the kind of its first token: Reference, Map and Set.
#[tactic(auto, unfolding(crate::specs::Questions::among))]
fn has_access(kind: u32) -> bool
    ensures { result ≡ among kind (2 ∷ 12 ∷ 13 ∷ []) }
{
    matches!(kind, 2 | 12 | 13)
}

// One step through two rows: a number, or a term that yields or a projection as a whole, or a node's head.
fn pair_step(tokens: &Tokens, a: Part, b: Part) -> Option<(usize, usize)>
    requires { NotEmpty tokens.now.kinds.now a × NotEmpty tokens.now.kinds.now b }
    ensures forward { Forward a.from a.end b.from b.end result }
    ensures stepped { (whole : Bool) → Rows tokens.now.kinds.now tokens.now.vals.now a.from a.end b.from b.end whole
        → Stepped tokens.now.kinds.now tokens.now.vals.now a.end b.end whole result }
{
    let k = tokens.kinds[a.from];
    let l = tokens.kinds[b.from];
    if k != 0 && l != 0 {
        return pair_terms(tokens, a, b);
    }
    if k != l || tokens.vals[a.from] != tokens.vals[b.from] {
        return None;
    }
    Some((a.from + 1, b.from + 1))
}

// The same where a term comes next in both rows.
fn pair_terms(tokens: &Tokens, a: Part, b: Part) -> Option<(usize, usize)>
    requires parts { NotEmpty tokens.now.kinds.now a × NotEmpty tokens.now.kinds.now b }
    requires terms { (0 < get_or tokens.now.kinds.now a.from 0) × (0 < get_or tokens.now.kinds.now b.from 0) }
    ensures forward { Forward a.from a.end b.from b.end result }
    ensures stepped { (whole : Bool) → Rows tokens.now.kinds.now tokens.now.vals.now a.from a.end b.from b.end whole
        → Stepped tokens.now.kinds.now tokens.now.vals.now a.end b.end whole result }
{
    let k = tokens.kinds[a.from];
    let l = tokens.kinds[b.from];
    if yields(k) || yields(l) {
        return Some(past(tokens, a, b));
    }
    if k != l {
        return None;
    }
    if k == 20 {
        if !same_term(tokens, a.from, b.from) {
            return None;
        }
        return Some(past(tokens, a, b));
    }
    Some((a.from + 1, b.from + 1))
}

// Past the terms that come next.
fn past(tokens: &Tokens, a: Part, b: Part) -> (usize, usize)
    requires { NotEmpty tokens.now.kinds.now a × NotEmpty tokens.now.kinds.now b }
    ensures forward { Forward a.from a.end b.from b.end (Some result) }
    ensures passed { (t u : Term) (ps qs : Parts)
        → HeldParts tokens.now.kinds.now tokens.now.vals.now a.from a.end (sub t ps)
        → HeldParts tokens.now.kinds.now tokens.now.vals.now b.from b.end (sub u qs)
        → HeldParts tokens.now.kinds.now tokens.now.vals.now result.0 a.end ps × HeldParts tokens.now.kinds.now tokens.now.vals.now result.1 b.end qs }
{
    let n = skip(tokens, a.from, a.end - a.from);
    let m = skip(tokens, b.from, b.end - b.from);
    (a.from + n, b.from + m)
}

// Whether two rows conflict.
fn rows_conflict(tokens: &Tokens, a: Part, b: Part) -> bool
    requires { PartOf tokens.now.kinds.now a × PartOf tokens.now.kinds.now b }
    ensures { (whole : Bool) → Rows tokens.now.kinds.now tokens.now.vals.now a.from a.end b.from b.end whole → result ≡ whole }
{
    let mut x = a;
    let mut y = b;
    // A step goes into a node that both rows have, and past what yields, so it is not from part to part of a row, as a `PairWalk` goes.
    while x.from < x.end {
        if y.end <= y.from {
            return true;
        }
        let Some((k, l)) = pair_step(tokens, x, y) else {
            return true;
        };
        x.from = k;
        y.from = l;
    }
    y.from < y.end
}

// `conflicts_with` of the terms at a and b.
pub fn conflicts_with(tokens: &Tokens, a: usize, b: usize) -> bool
    requires places { (a < length tokens.now.kinds.now) × (b < length tokens.now.kinds.now) }
    requires terms { FormedAt tokens.now.kinds.now tokens.now.vals.now a × FormedAt tokens.now.kinds.now tokens.now.vals.now b }
    ensures { (t u : Term)
        → Held tokens.now.kinds.now tokens.now.vals.now a t
        → Held tokens.now.kinds.now tokens.now.vals.now b u
        → Formed t
        → Formed u
        → result ≡ conflicts_with t u }
{
    rows_conflict(tokens, term_part(tokens, a), term_part(tokens, b))
}

// `can_weaken_to` of the terms at a and b: a Mutable access against one that is not, and the rest does not conflict.
pub fn can_weaken_to(tokens: &Tokens, a: usize, b: usize) -> bool
    requires places { (a < length tokens.now.kinds.now) × (b < length tokens.now.kinds.now) }
    requires terms { FormedAt tokens.now.kinds.now tokens.now.vals.now a × FormedAt tokens.now.kinds.now tokens.now.vals.now b }
    ensures { (t u : Term)
        → Held tokens.now.kinds.now tokens.now.vals.now a t
        → Held tokens.now.kinds.now tokens.now.vals.now b u
        → Formed t
        → Formed u
        → result ≡ can_weaken_to t u }
{
    let k = word(tokens.kinds, a);
    let mut x = term_part(tokens, a);
    let mut y = term_part(tokens, b);
    if k != word(tokens.kinds, b)
        || !has_access(k)
        || x.end - a < 2
        || y.end - b < 2
        || word(tokens.vals, a + 1) != 1
        || word(tokens.vals, b + 1) != 0
    {
        return false;
    }
    x.from = a + 2;
    y.from = b + 2;
    !rows_conflict(tokens, x, y)
}
