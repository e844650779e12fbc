// Runs of tokens: how long a term is, and whether two are the same.
// Kinds and tags are matched by number; the line in kinds.rt says why.
ghost use Rattle.std.specs.Prelude.{◌≡◌, ◌↔◌, IsTrue, true, false, ◌+◌, ◌-◌, ◌≤◌, ◌<◌, length, get_or};
ghost use Rattle.terms.specs.Words.Lent.{PartOf, NotEmpty, AgreeIn, toks_in};
ghost use Rattle.terms.specs.Term.{Term, items};
ghost use Rattle.terms.specs.Words.Held.{Held, span};
ghost use Rattle.terms.specs.Tree.{same};
ghost use Rattle.terms.specs.Words.FindContract.{stride};

use super::{Part, Token, Tokens};

// The word at i, 0 past the end.
#[inline(always)]
pub fn word(words: &[u32], i: usize) -> u32
    ensures { result ≡ get_or words.now i 0 }
{
    words.get(i).copied().unwrap_or(0)
}

impl<'a> Tokens<'a> {
    // The token at i, a number 0 past the end.
    #[inline(always)]
    pub fn token(&self, i: usize) -> Token
        ensures kind { result.kind ≡ get_or self.now.kinds.now i 0 }
        ensures value { result.value ≡ get_or self.now.vals.now i 0 }
    {
        Token {
            kind: word(self.kinds, i),
            value: word(self.vals, i),
        }
    }
}

impl Token {
    // How many tokens the term has that begins with it, as it says; of a node's head that may be 0.
    #[inline(always)]
    pub fn span(self) -> usize
        ensures { result ≡ span self.kind self.value }
    {
        if self.kind < 2 {
            return 1;
        }
        self.value as usize
    }

    // The same, but at least 1, so that a walk over a row goes on.
    #[inline(always)]
    pub fn step(self) -> usize
        ensures some { (1 ≤ result) × (result < 4294967296) }
        ensures span { 1 ≤ span self.kind self.value → result ≡ span self.kind self.value }
    {
        self.span().max(1)
    }
}

// How many tokens the term at i has, at least 1 and at most `room`.
#[inline(always)]
pub fn skip(tokens: &Tokens, i: usize, room: usize) -> usize
    requires { (i < length tokens.now.kinds.now) × (1 ≤ room) }
    ensures some { (1 ≤ result) × (result ≤ room) }
    ensures span { 1 ≤ span (get_or tokens.now.kinds.now i 0) (get_or tokens.now.vals.now i 0)
        → span (get_or tokens.now.kinds.now i 0) (get_or tokens.now.vals.now i 0) ≤ room
        → result ≡ span (get_or tokens.now.kinds.now i 0) (get_or tokens.now.vals.now i 0) }
    ensures is { result ≡ stride tokens.now.kinds.now tokens.now.vals.now i room }
{
    let head = Token {
        kind: tokens.kinds[i],
        value: tokens.vals[i],
    };
    head.span().clamp(1, room)
}

// How many tokens the term at i has, at least 1 and at most as many as there are from i on.
#[inline(always)]
pub fn width_at(tokens: &Tokens, i: usize) -> usize
    requires { i < length tokens.now.kinds.now }
    ensures some { (1 ≤ result) × (result ≤ length tokens.now.kinds.now - i) }
    ensures span { 1 ≤ span (get_or tokens.now.kinds.now i 0) (get_or tokens.now.vals.now i 0)
        → span (get_or tokens.now.kinds.now i 0) (get_or tokens.now.vals.now i 0) ≤ length tokens.now.kinds.now - i
        → result ≡ span (get_or tokens.now.kinds.now i 0) (get_or tokens.now.vals.now i 0) }
    ensures is { result ≡ stride tokens.now.kinds.now tokens.now.vals.now i (length tokens.now.kinds.now - i) }
{
    skip(tokens, i, tokens.kinds.len() - i)
}

// The tokens of the term at a.
#[inline(always)]
pub fn term_part(tokens: &Tokens, a: usize) -> Part
    requires { a < length tokens.now.kinds.now }
    ensures part { (result.from ≡ a) × NotEmpty tokens.now.kinds.now result }
    ensures ends { result.end ≡ a + stride tokens.now.kinds.now tokens.now.vals.now a (length tokens.now.kinds.now - a) }
    ensures term { (t : Term) → Held tokens.now.kinds.now tokens.now.vals.now a t → result.end ≡ a + length (items t) }
{
    Part {
        from: a,
        end: a + width_at(tokens, a),
    }
}

// Whether two parts have the same words.
fn same_words(words: &[u32], a: Part, b: Part) -> bool
    requires { PartOf words.now a × PartOf words.now b }
    ensures { IsTrue result ↔ AgreeIn words.now a b }
{
    words[a.from..a.end] == words[b.from..b.end]
}

// Whether two parts have the same tokens. Kinds and values are two slices, which need not be as long as one another.
pub fn same_run(kinds: &[u32], vals: &[u32], a: Part, b: Part) -> bool
    requires first { PartOf kinds.now a × PartOf vals.now a }
    requires second { PartOf kinds.now b × PartOf vals.now b }
    ensures yes { result ≡ true → toks_in kinds.now vals.now a ≡ toks_in kinds.now vals.now b }
    ensures no { result ≡ false → toks_in kinds.now vals.now a ≡ toks_in kinds.now vals.now b → ⊥ }
{
    same_words(kinds, a, b) && same_words(vals, a, b)
}

// Whether the terms at a and b are the same.
pub fn same_term(tokens: &Tokens, a: usize, b: usize) -> bool
    requires { (a < length tokens.now.kinds.now) × (b < length tokens.now.kinds.now) }
    ensures { (t u : Term) → Held tokens.now.kinds.now tokens.now.vals.now a t → Held tokens.now.kinds.now tokens.now.vals.now b u → result ≡ same t u }
{
    same_run(
        tokens.kinds,
        tokens.vals,
        term_part(tokens, a),
        term_part(tokens, b),
    )
}
