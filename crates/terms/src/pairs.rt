// Two rows walked at once, part by part, until one of them is over or they go on with different things.
// Kinds and tags are matched by number; the line in kinds.rt says why.
ghost use Rattle.std.specs.Prelude.{◌≡◌, ◌-◌, ◌+◌, ◌≤◌, ◌<◌, get_or};
ghost use Rattle.std.specs.Iterator.{at_most};
ghost use Rattle.terms.specs.Words.Held.{span};
ghost use Rattle.terms.specs.Words.Lent.{PartOf};
ghost use Rattle.terms.specs.Words.PairsContract.{Steps};

use super::runs::skip;
use super::{PairStep, PairWalk, Part, Tokens};

// The term that a row goes on with. Its kind is tested first, by a branch, so that a walk goes on from a variable without waiting for its words: `skip` alone
// picks its width or 1 after reading both. With that, checks of short rows, as in a sheet of 200 levels of Sets, took 5% more instructions and 8% more time.
// It is taken into `next`, as that is into each walk.
#[inline(always)]
fn first_term(tokens: &Tokens, row: Part) -> Part
    requires { PartOf tokens.now.kinds.now row × (row.from < row.end) }
    ensures from { result.from ≡ row.from }
    ensures end { (row.from < result.end) × (result.end ≤ row.end) }
    ensures span { 1 ≤ span (get_or tokens.now.kinds.now row.from 0) (get_or tokens.now.vals.now row.from 0)
        → span (get_or tokens.now.kinds.now row.from 0) (get_or tokens.now.vals.now row.from 0) ≤ row.end - row.from
        → result.end ≡ row.from + span (get_or tokens.now.kinds.now row.from 0) (get_or tokens.now.vals.now row.from 0) }
{
    if tokens.kinds[row.from] < 2 {
        return Part {
            from: row.from,
            end: row.from + 1,
        };
    }
    Part {
        from: row.from,
        end: row.from + skip(tokens, row.from, row.end - row.from),
    }
}

impl<'a> Iterator for PairWalk<'a> {
    type Item = PairStep;

    ghost can_next = { λ s. PartOf s.tokens.kinds.now s.a × PartOf s.tokens.kinds.now s.b };

    ghost next_gives = { Steps };

    ghost remaining = { λ s. at_most ((s.a.end - s.a.from) + (s.b.end - s.b.from)) };

    // The tests stand one in the other. With the ends of both rows and both kinds in one condition each step worked out all of them and put them together, and
    // checks of short rows took 10% more instructions, and as much more time.
    #[inline(always)]
    fn next(&mut self) -> Option<PairStep> {
        let kinds = self.tokens.kinds;
        let (a, b) = (self.a, self.b);
        if a.end <= a.from {
            if b.end <= b.from {
                return None;
            }
        } else if b.from < b.end {
            if kinds[a.from] == 0 {
                if kinds[b.from] == 0 {
                    self.a.from = a.from + 1;
                    self.b.from = b.from + 1;
                    return Some(PairStep::Numbers(a.from, b.from));
                }
            } else if kinds[b.from] != 0 {
                let x = first_term(&self.tokens, a);
                let y = first_term(&self.tokens, b);
                self.a.from = x.end;
                self.b.from = y.end;
                return Some(PairStep::Terms(x, y));
            }
        }
        self.a.from = a.end;
        self.b.from = b.end;
        Some(PairStep::Apart)
    }
}

// The walk over two rows of the same tokens.
#[inline(always)]
pub fn walk_pair<'a>(tokens: &Tokens<'a>, a: Part, b: Part) -> PairWalk<'a>
    ensures tokens { result.tokens ≡ tokens.now }
    ensures rows { (result.a ≡ a) × (result.b ≡ b) }
{
    PairWalk {
        tokens: *tokens,
        a,
        b,
    }
}
