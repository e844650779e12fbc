// The tokens that normalising sees: the lent ones, Error, and the projections that order 19 may make anew.
// Kinds and tags are matched by number; the line in kinds.rt says why.
ghost use Rattle.terms.specs.Words.Lent.{shown};
ghost use Rattle.std.specs.Prelude.{◌≡◌, ℕ, ◌+◌, ◌≤◌, ◌<◌, get_or, unwrap_or};
ghost use Rattle.terms.specs.Words.VirtualTokens.{copied, Located};

use super::{Origin, Seen, Spot, Token};

// Which lent token stands r-th after the head of the projection for the token t; none where it is the number 0 at the end.
fn copied(g: Origin, r: usize, t: usize) -> Option<usize>
    requires { (1 ≤ r) × (r < 17179869184) }
    ensures { (len : ℕ) → unwrap_or result len ≡ copied g len r t }
{
    let span = g.span as usize;
    let row = g.row as usize;
    if r <= span {
        return Some(g.owner as usize + r - 1);
    }
    if r <= span + row {
        return Some(g.interface as usize + (r - span));
    }
    (r == span + row + 1).then_some(t)
}

// Where the q-th token that is seen is from, with `len` lent ones.
pub fn locate(given: Option<Origin>, len: usize, q: usize) -> Spot
    requires { len < 9223372036854775808 }
    ensures { Located given len q result }
{
    if q < len {
        return Spot::Lent(q);
    }
    if q == len {
        return Spot::Error;
    }
    let Some(g) = given else {
        return Spot::Nowhere;
    };
    let size = g.width();
    let r = (q - (len + 1)) % size;
    let t = (q - (len + 1)) / size;
    if len < t {
        return Spot::Nowhere;
    }
    if r == 0 {
        return Spot::Head(size);
    }
    copied(g, r, t).map_or(Spot::Nowhere, Spot::Lent)
}

impl<'a> Seen<'a> {
    // The token at q, wherever it is from.
    #[inline(always)]
    fn located_token(&self, q: usize) -> Token
        ensures kind { result.kind ≡ get_or (shown self.now).kinds q 0 }
        ensures value { result.value ≡ get_or (shown self.now).vals q 0 }
    {
        let s = locate(self.given, self.tokens.kinds.len(), q);
        match s {
            Spot::Lent(p) => self.tokens.token(p),
            Spot::Error => Token { kind: 5, value: 1 },
            Spot::Head(size) => Token {
                kind: 20,
                value: size as u32,
            },
            Spot::Nowhere => Token { kind: 0, value: 0 },
        }
    }

    // The token at q. Nearly all are lent, and are looked at without the search.
    #[inline(always)]
    pub fn token(&self, q: usize) -> Token
        ensures kind { result.kind ≡ get_or (shown self.now).kinds q 0 }
        ensures value { result.value ≡ get_or (shown self.now).vals q 0 }
    {
        let tokens = self.tokens;
        if q < tokens.kinds.len() {
            return Token {
                kind: tokens.kinds[q],
                value: tokens.vals[q],
            };
        }
        self.located_token(q)
    }
}
