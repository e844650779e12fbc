// `normalize` and `with_associated_types`: a term is walked and sized, and then written.
// Heads and kids are lent as two slices; the line in rows.rt says why.
// The output and the position in it stand apart: docs/DECISIONS.md, "How are the tokens lent?".
ghost use Rattle.std.specs.Prelude.{◌≡◌, Some, ◌+◌, ◌≤◌, ◌<◌, List, length};
ghost use Rattle.std.proofs.lemmas.List.Edits.{sets};
ghost use Rattle.terms.specs.Words.VirtualTokens.{Sight};
ghost use Rattle.terms.specs.Term.{Term, Parts, node, items, bytes, Held};
ghost use Rattle.terms.specs.Questions.{contains_projection};
ghost use Rattle.terms.specs.Words.Tokens.{area, blank};
ghost use Rattle.terms.specs.Normal.{normalise, levels, visits, most};
ghost use Rattle.terms.specs.Lookup.{Look, Pattern, look_by, Looks, Ruled, HeldGiven, by_patterns, through};
ghost use Rattle.terms.specs.Words.Arena.{RecordRoom};
ghost use Rattle.terms.specs.Words.NormalContract.{Zero, Lends, Stands, Sized, Answers, Leaves, RuledAt, OwnedAt, KeptAt};

use super::rules::source;
use super::store::clear_tokens;
use super::walking::any_projection;
use super::{
    LookUp, Normaliser, Origin, Pass, Ready, Records, Rule, Seen, Tokens, Unfinished, Walked,
};

// Whether the term at p has a projection.
fn has_projection(tokens: &Tokens, p: u32) -> bool
    ensures { (t : Term) → Held tokens.now.kinds.now tokens.now.vals.now p t → result ≡ contains_projection t }
{
    let from = p as usize;
    let end = from + tokens.token(from).step();
    end <= tokens.kinds.len() && any_projection(&tokens.kinds[from..end])
}

impl<'a> Seen<'a> {
    // The term at p as it stands, sized. None where its bytes do not fit from `at` on.
    fn size_up(&self, p: u32, out: &mut [u8], at: usize) -> Option<Ready>
        requires place { at ≤ length out.old }
        ensures out { out.new ≡ out.old }
        ensures sized { Sized self.now.tokens.kinds.now self.now.tokens.vals.now self.now.given p out.old at result }
    {
        let content = source(p);
        let records = Records {
            seen: self,
            heads: &[],
            kids: &[],
        };
        let end = records.show_tree(content, 0, out, at, Pass::Count)?;
        Some(Ready {
            content,
            next: 0,
            size: end - at,
            given: self.given,
        })
    }
}

impl<'a> Normaliser<'a> {
    // Normalises the term at p, whose projections are looked up.
    fn run(
        &self,
        heads: &mut [u32],
        kids: &mut [u32],
        p: u32,
        levels: usize,
        visits: usize,
        most: usize,
        out: &mut [u8],
        at: usize,
    ) -> Result<Ready, Unfinished>
        requires room { RecordRoom self.now.seen.tokens.kinds.now self.now.seen.tokens.vals.now heads.old kids.old self.now.seen.given 0 most }
        requires few { (levels < 4294967295) × (visits < 134217728) }
        requires zero { Zero heads.old most × Zero kids.old most }
        requires place { at ≤ length out.old }
        ensures out { out.new ≡ out.old }
        ensures leaves { Leaves self.now.seen.tokens.kinds.now self.now.seen.tokens.vals.now heads.old kids.old heads.new kids.new most result }
        ensures answers { (t : Term) (look : Look)
            → Held self.now.seen.tokens.kinds.now self.now.seen.tokens.vals.now p t
            → Looks self.now.seen.tokens.kinds.now self.now.seen.tokens.vals.now self.now.lookup look
            → Answers self.now.seen.tokens.kinds.now self.now.seen.tokens.vals.now heads.new kids.new out.old at levels most
            (normalise levels visits (look_by look) t) result }
    {
        if !has_projection(&self.seen.tokens, p) {
            return self.seen.size_up(p, out, at).ok_or(Unfinished::TooLong);
        }
        let walked = self.walk(heads, kids, source(p), 0, levels, visits, most);
        let Some(
            Walked {
                content,
                next,
                size,
                ..
            },
        ) = walked
        else {
            clear_tokens(heads, kids, 0, most);
            return Err(Unfinished::TooMany);
        };
        if out.len() - at < size {
            clear_tokens(heads, kids, 0, next);
            return Err(Unfinished::TooLong);
        }
        Ok(Ready {
            content,
            next,
            size,
            given: self.seen.given,
        })
    }
}

// Depth 0 to 64; 8192 visits; refusal 9 for more children than these.
const LEVELS: usize = 65;

const VISITS: usize = 8192;

const MOST: usize = 8192;

// How many tokens the term at p has, at most `len`.
fn span_at(tokens: &Tokens, p: u32, len: usize) -> usize
    ensures bound { result ≤ len }
    ensures span { (t : Term) → Held tokens.now.kinds.now tokens.now.vals.now p t → length (items t) ≤ len → result ≡ length (items t) }
{
    tokens.token(p as usize).step().min(len)
}

// What order 19 looks up by: the places of a bare nominal and of the owner.
fn given(tokens: &Tokens, interface: u32, owner: u32) -> Origin
    requires { length tokens.now.kinds.now ≤ 32768 }
    ensures sight { Sight tokens.now.kinds.now tokens.now.vals.now (Some result) }
    ensures given { (i : Parts) (o : Term)
        → Held tokens.now.kinds.now tokens.now.vals.now owner o
        → Held tokens.now.kinds.now tokens.now.vals.now interface (node 20 i)
        → HeldGiven tokens.now.kinds.now tokens.now.vals.now result i o }
{
    let len = tokens.kinds.len();
    let row = span_at(tokens, interface, len).saturating_sub(1);
    Origin {
        owner,
        span: span_at(tokens, owner, len) as u32,
        interface,
        row: row as u32,
    }
}

// Order 20, `normalize`: the term at p is walked by the rules and sized.
pub fn normalise<'a>(
    tokens: &Tokens<'a>,
    rules: &'a [Rule],
    heads: &mut [u32],
    kids: &mut [u32],
    p: u32,
    out: &mut [u8],
    at: usize,
) -> Result<Ready, Unfinished>
    requires lends { Lends tokens.now.kinds.now tokens.now.vals.now heads.old kids.old most }
    requires place { at ≤ length out.old }
    requires terms { RuledAt tokens.now.kinds.now tokens.now.vals.now rules.now p }
    ensures out { out.new ≡ out.old }
    ensures leaves { Leaves tokens.now.kinds.now tokens.now.vals.now heads.old kids.old heads.new kids.new most result }
    ensures answers { (t : Term) (rs : List Pattern)
        → Held tokens.now.kinds.now tokens.now.vals.now p t
        → Ruled tokens.now.kinds.now tokens.now.vals.now rules.now rs
        → Answers tokens.now.kinds.now tokens.now.vals.now heads.new kids.new out.old at levels most
        (normalise levels visits (by_patterns rs) t) result }
{
    let seen = Seen {
        tokens: *tokens,
        given: None,
    };
    let by = Normaliser {
        seen,
        lookup: LookUp::Rules(rules),
    };
    by.run(heads, kids, p, LEVELS, VISITS, MOST, out, at)
}

// Order 19, `with_associated_types`: the term at p is walked by the interface and the owner, and sized.
pub fn with_associated_types(
    tokens: &Tokens,
    heads: &mut [u32],
    kids: &mut [u32],
    p: u32,
    interface: u32,
    owner: u32,
    out: &mut [u8],
    at: usize,
) -> Result<Ready, Unfinished>
    requires lends { Lends tokens.now.kinds.now tokens.now.vals.now heads.old kids.old most }
    requires place { at ≤ length out.old }
    requires terms { OwnedAt tokens.now.kinds.now tokens.now.vals.now p interface owner }
    ensures out { out.new ≡ out.old }
    ensures leaves { Leaves tokens.now.kinds.now tokens.now.vals.now heads.old kids.old heads.new kids.new most result }
    ensures answers { (t : Term) (i : Parts) (o : Term)
        → Held tokens.now.kinds.now tokens.now.vals.now p t
        → Held tokens.now.kinds.now tokens.now.vals.now interface (node 20 i)
        → Held tokens.now.kinds.now tokens.now.vals.now owner o
        → Answers tokens.now.kinds.now tokens.now.vals.now heads.new kids.new out.old at levels most
        (normalise levels visits (through i o) t) result }
{
    let g = given(tokens, interface, owner);
    let seen = Seen {
        tokens: *tokens,
        given: Some(g),
    };
    let by = Normaliser {
        seen,
        lookup: LookUp::Given(g),
    };
    by.run(heads, kids, p, LEVELS, VISITS, MOST, out, at)
}

// Writes what `normalise` or `with_associated_types` has kept at a position, clears its records, and returns the position after it.
pub fn write_normalised(
    tokens: &Tokens,
    heads: &mut [u32],
    kids: &mut [u32],
    w: Ready,
    out: &mut [u8],
    at: usize,
) -> usize
    requires sight { Sight tokens.now.kinds.now tokens.now.vals.now w.given }
    requires place { at ≤ length out.old }
    requires kept { KeptAt tokens.now.kinds.now tokens.now.vals.now heads.old kids.old w levels out.old at }
    ensures areas { area heads.new kids.new ≡ blank (area heads.old kids.old) 0 w.next }
    ensures wrote { (u : Term)
        → Stands tokens.now.kinds.now tokens.now.vals.now heads.old kids.old w levels u
        → at + length (bytes u) ≤ length out.old
        → (result ≡ at + length (bytes u)) × (out.new ≡ sets out.old at (bytes u)) }
{
    let seen = Seen {
        tokens: *tokens,
        given: w.given,
    };
    let records = Records {
        seen: &seen,
        heads,
        kids,
    };
    let end = records.show_tree(w.content, LEVELS + 1, out, at, Pass::Write);
    clear_tokens(heads, kids, 0, w.next);
    end.unwrap_or(at)
}
