// What a bound satisfies, on the tokens of bare nominals. Each required member is looked for among the given ones, and the tokens of two terms are
// compared: at most as many steps as members required times members given, and the tokens compared. `satisfies_for` does the same once more for the
// interface of each projection that is not given.
// Kinds and tags are matched by number; the line in kinds.rt says why.
ghost use Rattle.std.specs.Prelude.{◌≡◌, Bool, List, ℕ, ◌+◌, ◌≤◌, ◌<◌, length, get_or};
ghost use Rattle.std.proofs.Math.Option.{Option};
ghost use Rattle.terms.specs.Term.{Term, Parts, node};
ghost use Rattle.terms.specs.Words.Held.{Held};
ghost use Rattle.terms.specs.Shape.{nominal, done};
ghost use Rattle.terms.specs.Formed.{Formed, Fit};
ghost use Rattle.terms.specs.Words.TermsAtPlaces.{BareAt};
ghost use Rattle.terms.specs.Tree.{Nominal, look_up, nominal_of};
ghost use Rattle.terms.specs.Comparison.{same_option, every, satisfies, reflexive, satisfies_for};
ghost use Rattle.terms.specs.Words.SatisfyContract.{Laid, Listed, Lists, Near, Agreed, Headed, Pairs, Inside, Looked, given, Ended};
ghost use Rattle.terms.specs.Words.SatisfyContract.{Satisfied, covers};

use super::Tokens;
use super::runs::{same_term, term_part, word};

// The place of the term of a member, among `count` pairs of a member and a term from p on.
fn member_at(tokens: &Tokens, p: usize, count: usize, member: u32) -> Option<usize>
    requires { p ≤ length tokens.now.kinds.now + 1 }
    ensures within { Inside (length tokens.now.kinds.now) result }
    ensures looked { (e : ℕ) (rest : Parts) (whole : Option Term)
        → Pairs tokens.now.kinds.now tokens.now.vals.now p count e rest (look_up member) whole
        → Looked tokens.now.kinds.now tokens.now.vals.now whole result }
{
    let mut i = p;
    for _ in 0..count {
        if tokens.kinds.len() <= i + 1 {
            return None;
        }
        if tokens.vals[i] == member {
            return Some(i + 1);
        }
        i = term_part(tokens, i + 1).end;
    }
    None
}

// Whether the members listed at x have this one with the term at t: `get(member) == Some(ty)`.
fn gives(tokens: &Tokens, x: usize, member: u32, t: usize) -> bool
    requires { (x ≤ length tokens.now.kinds.now) × (t < length tokens.now.kinds.now) }
    ensures { (e : ℕ) (gs : List ℕ) (hs : List Term) (rest : Parts) (u : Term)
        → Listed tokens.now.kinds.now tokens.now.vals.now x e gs hs rest
        → Held tokens.now.kinds.now tokens.now.vals.now t u
        → result ≡ same_option (look_up member gs hs) u }
{
    let count = word(tokens.vals, x) as usize;
    // By `let`: the line in rewrite.rt says why.
    let same = |i| same_term(tokens, i, t);
    member_at(tokens, x + 1, count, member).is_some_and(same)
}

// The place after `count` required members from p on, where the members listed at x give each of them. `covered` has the same loop with another test: with the
// test as an `impl Fn` the contract would say what it tells of each member, and each of the two would show it, which is longer than the loop. An iterator, for
// these two and `member_at`, would have to tell members that end early from those that are over, and to hand back the place after them.
fn all_given(tokens: &Tokens, x: usize, p: usize, count: usize) -> Option<usize>
    requires { (x ≤ length tokens.now.kinds.now) × (p ≤ length tokens.now.kinds.now + 1) }
    ensures within { Ended (length tokens.now.kinds.now) result }
    ensures given { (d : ℕ) (gs : List ℕ) (hs : List Term) (other : Parts) (e : ℕ) (rest : Parts) (whole : Bool)
        → Listed tokens.now.kinds.now tokens.now.vals.now x d gs hs other
        → Pairs tokens.now.kinds.now tokens.now.vals.now p count e rest (every (given gs hs)) whole
        → Satisfied tokens.now.kinds.now tokens.now.vals.now e rest whole result }
{
    let mut i = p;
    for _ in 0..count {
        if tokens.kinds.len() <= i + 1 || !gives(tokens, x, tokens.vals[i], i + 1) {
            return None;
        }
        i = term_part(tokens, i + 1).end;
    }
    Some(i)
}

// The places after `count` terms from a on and as many from b on, where they are the same.
fn same_terms(tokens: &Tokens, a: usize, b: usize, count: usize) -> Option<(usize, usize)>
    requires { (a ≤ length tokens.now.kinds.now) × (b ≤ length tokens.now.kinds.now) }
    ensures within { Near (length tokens.now.kinds.now) result }
    ensures agreed { (d : ℕ) (rest : Parts) (e : ℕ) (more : Parts) (whole : Bool)
        → Lists tokens.now.kinds.now tokens.now.vals.now count a d rest b e more whole
        → Agreed tokens.now.kinds.now tokens.now.vals.now d rest e more whole result }
{
    let mut i = a;
    let mut j = b;
    for _ in 0..count {
        if tokens.kinds.len() <= i || tokens.kinds.len() <= j || !same_term(tokens, i, j) {
            return None;
        }
        i = term_part(tokens, i).end;
        j = term_part(tokens, j).end;
    }
    Some((i, j))
}

// The places of the members of the nominals whose rows stand at a and b, where their declarations and arguments are the same.
fn heads(tokens: &Tokens, a: usize, b: usize) -> Option<(usize, usize)>
    requires { (a ≤ length tokens.now.kinds.now) × (b ≤ length tokens.now.kinds.now) }
    ensures within { Near (length tokens.now.kinds.now) result }
    ensures headed { (d : ℕ) (n : Nominal) (rest : Parts) (e : ℕ) (m : Nominal) (more : Parts)
        → Laid tokens.now.kinds.now tokens.now.vals.now a d n rest
        → Laid tokens.now.kinds.now tokens.now.vals.now b e m more
        → Headed tokens.now.kinds.now tokens.now.vals.now d n rest e m more result }
{
    let n = word(tokens.vals, a + 1);
    if tokens.kinds.len() <= a + 1
        || tokens.kinds.len() <= b + 1
        || word(tokens.vals, a) != word(tokens.vals, b)
        || n != word(tokens.vals, b + 1)
    {
        return None;
    }
    same_terms(tokens, a + 2, b + 2, n as usize)
}

// Whether the nominal whose row stands at a satisfies the one at b: where it does, the place after that one.
fn satisfies_row(tokens: &Tokens, a: usize, b: usize) -> Option<usize>
    requires { (a ≤ length tokens.now.kinds.now) × (b ≤ length tokens.now.kinds.now) }
    ensures within { Ended (length tokens.now.kinds.now) result }
    ensures satisfied { (d : ℕ) (n : Nominal) (rest : Parts) (e : ℕ) (m : Nominal) (more : Parts)
        → Laid tokens.now.kinds.now tokens.now.vals.now a d n rest
        → Laid tokens.now.kinds.now tokens.now.vals.now b e m more
        → Satisfied tokens.now.kinds.now tokens.now.vals.now e more (satisfies n m) result }
{
    let (x, y) = heads(tokens, a, b)?;
    let count = word(tokens.vals, y) as usize;
    all_given(tokens, x, y + 1, count)
}

// Whether the term at t is the projection of a member of the receiver, without arguments, whose interface the nominal at a satisfies.
fn is_reflexive(tokens: &Tokens, a: usize, receiver: usize, member: u32, t: usize) -> bool
    requires { (a ≤ length tokens.now.kinds.now) × (receiver < length tokens.now.kinds.now) × (t < length tokens.now.kinds.now) }
    ensures { (d : ℕ) (n : Nominal) (rest : Parts) (w u : Term)
        → Laid tokens.now.kinds.now tokens.now.vals.now a d n rest
        → Held tokens.now.kinds.now tokens.now.vals.now receiver w
        → Held tokens.now.kinds.now tokens.now.vals.now t u
        → Formed u
        → result ≡ reflexive n w member u }
{
    if tokens.kinds[t] != 20 || tokens.kinds.len() <= t + 1 || !same_term(tokens, t + 1, receiver) {
        return false;
    }
    let interface = term_part(tokens, t + 1).end;
    let Some(z) = satisfies_row(tokens, a, interface) else {
        return false;
    };
    word(tokens.vals, z) == member && word(tokens.vals, z + 1) == 0
}

// Whether the member whose number stands at i, and its term after it, is given at x, or a reflexive projection for the nominal whose row stands at a.
// A struct of the tokens, a, x and receiver would be made by `satisfies_for` alone. It would say the bounds of these places once, for three contracts, but each
// premise would name the places through it.
fn covers(tokens: &Tokens, a: usize, x: usize, receiver: usize, i: usize) -> bool
    requires { (a ≤ length tokens.now.kinds.now) × (x ≤ length tokens.now.kinds.now) × (receiver < length tokens.now.kinds.now)
        × (i + 1 < length tokens.now.kinds.now) }
    ensures { (d : ℕ) (n : Nominal) (rest : Parts) (w u : Term)
        → Laid tokens.now.kinds.now tokens.now.vals.now a d n rest
        → Listed tokens.now.kinds.now tokens.now.vals.now x d n.members n.values rest
        → Held tokens.now.kinds.now tokens.now.vals.now receiver w
        → Held tokens.now.kinds.now tokens.now.vals.now (i + 1) u
        → Formed u
        → result ≡ covers n w (get_or tokens.now.vals.now i 0) u }
{
    let member = tokens.vals[i];
    gives(tokens, x, member, i + 1) || is_reflexive(tokens, a, receiver, member, i + 1)
}

// Whether each of `count` required members from p on is given at x, or a reflexive projection for the nominal whose row stands at a.
fn covered(tokens: &Tokens, a: usize, x: usize, p: usize, count: usize, receiver: usize) -> bool
    requires { (a ≤ length tokens.now.kinds.now) × (x ≤ length tokens.now.kinds.now) × (p ≤ length tokens.now.kinds.now + 1)
        × (receiver < length tokens.now.kinds.now) }
    ensures { (d : ℕ) (n : Nominal) (rest : Parts) (w : Term) (e : ℕ) (more : Parts) (whole : Bool)
        → Laid tokens.now.kinds.now tokens.now.vals.now a d n rest
        → Listed tokens.now.kinds.now tokens.now.vals.now x d n.members n.values rest
        → Held tokens.now.kinds.now tokens.now.vals.now receiver w
        → Pairs tokens.now.kinds.now tokens.now.vals.now p count e more (every (covers n w)) whole
        → result ≡ whole }
{
    let mut i = p;
    for _ in 0..count {
        if tokens.kinds.len() <= i + 1 || !covers(tokens, a, x, receiver, i) {
            return false;
        }
        i = term_part(tokens, i + 1).end;
    }
    true
}

// `satisfies` of the bare nominals at a and b.
pub fn satisfies(tokens: &Tokens, a: usize, b: usize) -> bool
    requires places { (a < length tokens.now.kinds.now) × (b < length tokens.now.kinds.now) }
    requires nominals { BareAt tokens.now.kinds.now tokens.now.vals.now a × BareAt tokens.now.kinds.now tokens.now.vals.now b }
    ensures { (ps qs : Parts)
        → Held tokens.now.kinds.now tokens.now.vals.now a (node 20 ps)
        → Held tokens.now.kinds.now tokens.now.vals.now b (node 20 qs)
        → Fit (nominal done) ps
        → Fit (nominal done) qs
        → result ≡ satisfies (nominal_of ps) (nominal_of qs) }
{
    satisfies_row(tokens, a + 1, b + 1).is_some()
}

// `satisfies_for` of the bare nominals at a and b, for the receiver that stands at its place.
pub fn satisfies_for(tokens: &Tokens, a: usize, b: usize, receiver: usize) -> bool
    requires places { (a < length tokens.now.kinds.now) × (b < length tokens.now.kinds.now) × (receiver < length tokens.now.kinds.now) }
    requires nominals { BareAt tokens.now.kinds.now tokens.now.vals.now a × BareAt tokens.now.kinds.now tokens.now.vals.now b }
    requires receiver { (t : Term) × Held tokens.now.kinds.now tokens.now.vals.now receiver t }
    ensures { (ps qs : Parts) (t : Term)
        → Held tokens.now.kinds.now tokens.now.vals.now a (node 20 ps)
        → Held tokens.now.kinds.now tokens.now.vals.now b (node 20 qs)
        → Held tokens.now.kinds.now tokens.now.vals.now receiver t
        → Fit (nominal done) ps
        → Fit (nominal done) qs
        → result ≡ satisfies_for (nominal_of ps) (nominal_of qs) t }
{
    let Some((x, y)) = heads(tokens, a + 1, b + 1) else {
        return false;
    };
    let count = word(tokens.vals, y) as usize;
    covered(tokens, a + 1, x, y + 1, count, receiver)
}
