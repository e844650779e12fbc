// The row of a node by place: its numbers, its members' keys, its children.
// Kinds and tags are matched by number; the line in kinds.rt says why.
ghost use Rattle.terms.specs.Words.Lent.{shown, StandsFor, Fetches};
ghost use Rattle.std.specs.Prelude.{◌≡◌, Bool, ℕ, ◌-◌, ◌<◌, get_or};
ghost use Rattle.std.specs.Iterator.{at_most};
ghost use Rattle.std.proofs.Math.ListN.{get_elem?};
ghost use Rattle.terms.specs.Words.VirtualTokens.{view, Sight};
ghost use Rattle.terms.specs.Term.{Term};
ghost use Rattle.terms.specs.Tree.{children};
ghost use Rattle.terms.specs.Words.Arena.{head_of, kids_of, Tree, EndAt, RowAt, NumberAt, ValueAt, KeyOf, Fetched};
ghost use Rattle.terms.specs.Words.RowsContract.{Moves};

use super::runs::word;
use super::{Content, Origin, Part, Records, RowWalk, Seen, Token};

// A place past all tokens.
pub const NOWHERE: usize = 4294967295;

impl<'a> Iterator for RowWalk<'a> {
    type Item = (usize, Token);

    ghost can_next = { λ s. s.end < 4294967296 };

    ghost next_gives = { Moves };

    ghost remaining = { λ s. at_most (s.end - s.at) };

    #[inline(always)]
    #[tactic(auto, unfolding(crate::specs::Words::Held::span))]
    fn next(&mut self) -> Option<(usize, Token)> {
        let at = self.at;
        if self.end <= at {
            return None;
        }
        let token = self.seen.token(at);
        if token.kind == 0 {
            self.at += 1;
        } else {
            self.at += token.step();
        }
        Some((at, token))
    }
}

impl<'a> Seen<'a> {
    // Where the term at p ends, as its first token says. It is cut where no token can stand.
    #[inline(always)]
    pub fn end_at(&self, p: usize) -> usize
        requires { p < 4294967296 }
        ensures { EndAt (shown self.now) p result }
    {
        let end = p + self.token(p).step();
        end.min(NOWHERE)
    }

    // The row of the term whose first token stands at h.
    #[inline(always)]
    pub fn row_of(&self, h: u32) -> Part
        ensures { RowAt (shown self.now) h result.from result.end }
    {
        let p = h as usize;
        Part {
            from: p + 1,
            end: self.end_at(p),
        }
    }

    // The walk over the row of the term whose first token stands at h.
    #[inline(always)]
    pub fn walk_row(&self, h: u32) -> RowWalk<'a>
        ensures row { RowAt (shown self.now) h result.at result.end }
        ensures seen { result.seen ≡ self.now }
    {
        let row = self.row_of(h);
        RowWalk {
            seen: *self,
            at: row.from,
            end: row.end,
        }
    }

    // Where the i-th number of the row stands.
    pub fn number_place(&self, h: u32, i: usize) -> Option<usize>
        ensures { NumberAt (shown self.now) h i result }
    {
        let (place, _) = self.walk_row(h).filter(|(_, x)| x.kind == 0).nth(i)?;
        Some(place)
    }

    // The i-th number of the row, 0 where it has not so many.
    pub fn number_at(&self, h: u32, i: usize) -> usize
        ensures small { result < 4294967296 }
        ensures value { ValueAt (shown self.now) h i result }
    {
        // a match, for the check proves it alone; with `map_or` a law by the cases of the place is wanted
        match self.number_place(h, i) {
            Some(p) => self.token(p).value as usize,
            None => 0,
        }
    }

    // Which number from the third on is x, counted from there.
    pub fn key_at(&self, h: u32, x: u32) -> Option<usize>
        ensures { KeyOf (shown self.now) h x result }
    {
        let mut k = 0;
        // Counted by hand: `filter`, `skip` and `position` would be runs one in another, each with laws as `NthLaws` has them for a filter.
        for (_, y) in self.walk_row(h) {
            if y.kind == 0 {
                if y.value == x && 3 <= k {
                    return Some(k - 3);
                }
                k += 1;
            }
        }
        None
    }
}

// Where heads and kids are written they are lent as two slices: the walk writes them between two looks, so a struct of both would be made for each call, and
// no contract ties their lengths. What only looks is a method of `Records`, but for `child_here`, which the writing loop calls between two writes.
//
// The content of a child that is the i-th of its node, whose child word is c, and stands at q where it is as in the source.
#[inline(always)]
pub fn child_here(heads: &[u32], kids: &[u32], c: u32, q: usize, i: usize) -> Content
    requires { (q < 4294967296) × (i < 4294967296) }
    ensures head { result.head ≡ head_of heads.now c q i }
    ensures kids { result.kids ≡ kids_of kids.now c i }
{
    if c == 0 {
        return Content {
            head: q as u32,
            kids: 0,
        };
    }
    let k = c as usize - 1 + i;
    Content {
        head: word(heads, k),
        kids: word(kids, k),
    }
}

impl<'a> Records<'a> {
    // The content of the i-th child, in byte order.
    pub fn child_at(&self, x: Content, i: usize) -> Option<Content>
        ensures { (S : ℕ → Bool) (t : Term)
            → StandsFor self.now S x t
            → Fetches self.now S (get_elem? (children t) i) result }
    {
        let (place, _) = self
            .seen
            .walk_row(x.head)
            .filter(|(_, y)| y.kind != 0)
            .nth(i)?;
        Some(child_here(self.heads, self.kids, x.kids, place, i))
    }
}
