// `recover_from`: the holes of a term are filled from another, straight to the output. The recursion goes down both terms together, so it is at most
// as deep as the first has levels; the work is linear in the tokens of both.
// Kinds and tags are matched by number; the line in kinds.rt says why.
// The output and the position in it stand apart: docs/DECISIONS.md, "How are the tokens lent?".
ghost use Rattle.std.specs.Prelude.{◌≡◌, true, false, ◌||◌, ℕ, ◌+◌, ◌-◌, ◌*◌, ◌^◌, ◌≤◌, ◌<◌, eqb, length, [], ◌∷◌};
ghost use Rattle.terms.specs.Result.{pick};
ghost use Rattle.terms.specs.Words.QuestionsContract.{word};
ghost use Rattle.terms.specs.Questions.{among};
ghost use Rattle.terms.specs.Comparison.{recovery};
ghost use Rattle.terms.specs.Term.{Term, Parts, node, end, sub, bytes, part_bytes, Subs};
ghost use Rattle.terms.specs.Words.Held.{Held, HeldParts};
ghost use Rattle.terms.specs.Shape.{Shape, many_terms, nominal, done};
ghost use Rattle.terms.specs.Formed.{Formed, Fit};
ghost use Rattle.terms.specs.Words.TermsAtPlaces.{FormedAt, RecoversAt};
ghost use Rattle.terms.specs.Tree.{row};
ghost use Rattle.terms.specs.Recovery.{recover_from, recover_row, reach, nominal_reach};
ghost use Rattle.terms.specs.Words.Lent.{PartOf, NotEmpty, spelt_in};
ghost use Rattle.terms.specs.Words.RecoverContract.{Put, put_if, upto, alike};

use super::pairs::walk_pair;
use super::questions::{tag_of, word_at};
use super::runs::{skip, term_part, word};
use super::write::put_run;
use super::{PairStep, Part, Tokens};

// The place after the first n terms of a part, at most its end.
fn behind_terms(tokens: &Tokens, a: Part, n: u32) -> usize
    requires { PartOf tokens.now.kinds.now a }
    ensures within { (a.from ≤ result) × (result ≤ a.end) }
    ensures behind { (s : Shape) (ps : Parts)
        → HeldParts tokens.now.kinds.now tokens.now.vals.now a.from a.end ps → Fit (many_terms n s) ps → result ≡ a.from + upto n ps }
{
    let mut p = a.from;
    for _ in 0..n {
        if a.end <= p {
            return p;
        }
        p += skip(tokens, p, a.end - p);
    }
    p
}

// Whether two rows have the same numbers at the same places.
fn alike_rows(tokens: &Tokens, a: Part, b: Part) -> bool
    requires { PartOf tokens.now.kinds.now a × PartOf tokens.now.kinds.now b }
    ensures { (ps qs : Parts)
        → HeldParts tokens.now.kinds.now tokens.now.vals.now a.from a.end ps
        → HeldParts tokens.now.kinds.now tokens.now.vals.now b.from b.end qs
        → result ≡ alike ps qs }
{
    for step in walk_pair(tokens, a, b) {
        match step {
            PairStep::Numbers(i, j) => {
                if tokens.vals[i] != tokens.vals[j] {
                    return false;
                }
            }
            PairStep::Terms(_, _) => {}
            PairStep::Apart => return false,
        }
    }
    true
}

// How far the row of a nominal is recovered from another, as a place.
fn nominal_reach(tokens: &Tokens, a: Part, b: Part) -> usize
    requires { NotEmpty tokens.now.kinds.now a × NotEmpty tokens.now.kinds.now b }
    ensures within { (a.from < result) × (result ≤ a.end) }
    ensures reached { (k j : ℕ) (ps qs : Parts)
        → (k ≡ 1 → ⊥)
        → (j ≡ 1 → ⊥)
        → HeldParts tokens.now.kinds.now tokens.now.vals.now a.from a.end (sub (node k ps) end)
        → HeldParts tokens.now.kinds.now tokens.now.vals.now b.from b.end (sub (node j qs) end)
        → Fit (nominal done) ps
        → Fit (nominal done) qs
        → result ≡ a.from + 1 + upto (nominal_reach ps qs) ps }
{
    let n = word_at(tokens.vals, a.from + 2, a.end);
    if word_at(tokens.vals, a.from + 1, a.end) != word_at(tokens.vals, b.from + 1, b.end)
        || n != word_at(tokens.vals, b.from + 2, b.end)
        || a.end - a.from < 3
        || b.end - b.from < 3
    {
        return a.from + 1;
    }
    let mut x = a;
    let mut y = b;
    x.from += 3;
    y.from += 3;
    x.from = behind_terms(tokens, x, n);
    y.from = behind_terms(tokens, y, n);
    if alike_rows(tokens, x, y) {
        a.end
    } else {
        x.from
    }
}

// How far the row of a term is recovered from another, as a place.
fn reach_end(tokens: &Tokens, a: Part, b: Part) -> usize
    requires { NotEmpty tokens.now.kinds.now a × NotEmpty tokens.now.kinds.now b }
    ensures within { (a.from < result) × (result ≤ a.end) }
    ensures reached { (t u : Term)
        → HeldParts tokens.now.kinds.now tokens.now.vals.now a.from a.end (sub t end)
        → HeldParts tokens.now.kinds.now tokens.now.vals.now b.from b.end (sub u end)
        → Formed t
        → Formed u
        → result ≡ a.from + 1 + upto (reach t u) (row t) }
{
    let k = tag_of(word(tokens.kinds, a.from));
    if k != tag_of(word(tokens.kinds, b.from)) {
        return a.from + 1;
    }
    match k {
        7 | 9 | 10 | 11 => a.end,
        0 | 5 | 6 | 8 => first_reach(tokens.vals, a, b),
        12..=15 => nominal_reach(tokens, a, b),
        _ => a.from + 1,
    }
}

// The whole row where the first numbers agree.
fn first_reach(vals: &[u32], a: Part, b: Part) -> usize
    requires { NotEmpty vals.now a × NotEmpty vals.now b }
    ensures within { (a.from < result) × (result ≤ a.end) }
    ensures told { result ≡ pick (eqb (word vals.now (a.from + 1) a.end) (word vals.now (b.from + 1) b.end)) a.end (a.from + 1) }
{
    if word_at(vals, a.from + 1, a.end) == word_at(vals, b.from + 1, b.end) {
        a.end
    } else {
        a.from + 1
    }
}

// Whether a term is filled from another, by its tag: Unknown and Error.
#[tactic(auto, unfolding(crate::specs::Questions::among))]
fn is_hole(tag: u32) -> bool
    ensures { result ≡ recovery tag }
{
    matches!(tag, 2 | 3)
}

// Whether the first of two terms stays as it is, by their tags: Unknown and Error fill nothing, and Inference is never replaced.
fn stays(k: u32, l: u32) -> bool
    ensures { result ≡ (recovery l || eqb k 1) }
{
    is_hole(l) || k == 1
}

// `put_run` of a part of the lent tokens. With the tokens by one reference all arguments stay in registers: without, order 11 on small terms, which is at the bar
// of twice the Rust's speed, took 1.8 percent more instructions.
fn put_part(tokens: &Tokens, part: Part, out: &mut [u8], at: usize) -> usize
    requires part { PartOf tokens.now.kinds.now part }
    requires room { at + 6 * (part.end - part.from) < 2 ^ 64 }
    ensures next { result ≡ at + length (spelt_in tokens.now.kinds.now tokens.now.vals.now part) }
    ensures put { out.new ≡ put_if out.old at (spelt_in tokens.now.kinds.now tokens.now.vals.now part) }
    ensures bound { (at ≤ result) × (result ≤ at + 6 * (part.end - part.from)) }
{
    put_run(tokens.kinds, tokens.vals, part, out, at)
}

// Writes a term with its holes filled from another where it fits, and returns the position after it.
#[cycle(recovering)]
fn recover_term(tokens: &Tokens, a: Part, b: Part, out: &mut [u8], at: usize) -> usize
    requires places { NotEmpty tokens.now.kinds.now a × NotEmpty tokens.now.kinds.now b }
    requires room { at + 6 * (a.end - a.from) + 6 * (b.end - b.from) < 2 ^ 64 }
    ensures bound { (at ≤ result) × (result ≤ at + 6 * (a.end - a.from) + 6 * (b.end - b.from)) }
    ensures put { (t u : Term)
        → HeldParts tokens.now.kinds.now tokens.now.vals.now a.from a.end (sub t end)
        → HeldParts tokens.now.kinds.now tokens.now.vals.now b.from b.end (sub u end)
        → Formed t
        → Formed u
        → Put out.old out.new at result (bytes (recover_from t u)) }
{
    let k = tag_of(word(tokens.kinds, a.from));
    if stays(k, tag_of(word(tokens.kinds, b.from))) {
        return put_part(tokens, a, out, at);
    }
    if is_hole(k) {
        return put_part(tokens, b, out, at);
    }
    let stop = reach_end(tokens, a, b);
    let head = Part {
        from: a.from,
        end: a.from + 1,
    };
    let next = put_part(tokens, head, out, at);
    let row = Part {
        from: head.end,
        end: a.end,
    };
    let other = Part {
        from: b.from + 1,
        end: b.end,
    };
    recover_row(tokens, row, stop, other, out, next)
}

// The same of a row as far as `stop`, from another row; the rest is written as it stands.
#[cycle(recovering)]
fn recover_row(tokens: &Tokens, a: Part, stop: usize, b: Part, out: &mut [u8], at: usize) -> usize
    requires places { (a.from ≤ stop) × (stop ≤ a.end) × (a.end ≤ length tokens.now.kinds.now) × PartOf tokens.now.kinds.now b }
    requires room { at + 6 * (a.end - a.from) + 6 * (b.end - b.from) < 2 ^ 64 }
    ensures bound { (at ≤ result) × (result ≤ at + 6 * (a.end - a.from) + 6 * (b.end - b.from)) }
    ensures put { (c : ℕ) (ps qs : Parts)
        → HeldParts tokens.now.kinds.now tokens.now.vals.now a.from a.end ps
        → HeldParts tokens.now.kinds.now tokens.now.vals.now b.from b.end qs
        → Subs Formed ps
        → Subs Formed qs
        → stop ≡ a.from + upto c ps
        → Put out.old out.new at result (part_bytes (recover_row ps c qs)) }
{
    let mut rest = a;
    let mut to = at;
    let first = Part {
        from: a.from,
        end: stop,
    };
    for step in walk_pair(tokens, first, b) {
        match step {
            PairStep::Numbers(i, _) => {
                let number = Part {
                    from: i,
                    end: i + 1,
                };
                to = put_part(tokens, number, out, to);
                rest.from = i + 1;
            }
            PairStep::Terms(t, u) => {
                to = recover_term(tokens, t, u, out, to);
                rest.from = t.end;
            }
            PairStep::Apart => {}
        }
    }
    put_part(tokens, rest, out, to)
}

// How many bytes `recover_from` of the terms at a and b has: where writing from 0 on ends, on an output of one byte.
pub fn recovered_len(tokens: &Tokens, a: usize, b: usize) -> usize
    requires places { (a < length tokens.now.kinds.now) × (b < length tokens.now.kinds.now) }
    requires room { 12 * length tokens.now.kinds.now < 2 ^ 64 }
    requires terms { FormedAt tokens.now.kinds.now tokens.now.vals.now a × FormedAt tokens.now.kinds.now tokens.now.vals.now b }
    ensures { (t u : Term)
        → Held tokens.now.kinds.now tokens.now.vals.now a t
        → Held tokens.now.kinds.now tokens.now.vals.now b u
        → Formed t
        → Formed u
        → result ≡ length (bytes (recover_from t u)) }
{
    let x = term_part(tokens, a);
    let y = term_part(tokens, b);
    let mut none = [0u8; 1];
    recover_term(tokens, x, y, &mut none, 0)
}

// Writes `recover_from` of the terms at a and b, for which there is room, and returns the position after it.
pub fn write_recovered(tokens: &Tokens, a: usize, b: usize, out: &mut [u8], at: usize) -> usize
    requires places { (a < length tokens.now.kinds.now) × (b < length tokens.now.kinds.now) }
    requires room { at + 12 * length tokens.now.kinds.now < 2 ^ 64 }
    requires terms { RecoversAt tokens.now.kinds.now tokens.now.vals.now a b out.old at }
    ensures { (t u : Term)
        → Held tokens.now.kinds.now tokens.now.vals.now a t
        → Held tokens.now.kinds.now tokens.now.vals.now b u
        → Formed t
        → Formed u
        → Put out.old out.new at result (bytes (recover_from t u)) }
{
    let x = term_part(tokens, a);
    let y = term_part(tokens, b);
    recover_term(tokens, x, y, out, at)
}
