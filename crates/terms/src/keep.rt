// What was read is kept whole, or nothing of it remains.
// Kinds and values that are written are lent as two slices; the lines at the head of store.rt say why.
ghost use Rattle.std.specs.Prelude.{◌≡◌, ◌+◌, ◌-◌, ◌^◌, ◌<◌, length, OnErr};
ghost use Rattle.terms.specs.Words.Tokens.{area};
ghost use Rattle.terms.specs.Term.{size};
ghost use Rattle.terms.specs.Reading.{term, bare};
ghost use Rattle.terms.specs.Words.ReadContract.{Room, answer, kept, contents, Clearable, Cleared};
ghost use Rattle.terms.specs.Words.Outcomes.{step_of};

use super::read::{read_bare, read_term};
use super::store::clear_tokens;
use super::{Place, Refusal};

// Ends a reading that began at `first`, with `left` bytes left. What was read past the limit is cleared, and what a refusal has left; the place is then as it
// was.
pub fn settle(
    kinds: &mut [u32],
    vals: &mut [u32],
    first: Place,
    left: usize,
    outcome: Result<(), Refusal>,
    place: &mut Place,
) -> Result<(), Refusal>
    requires { Clearable first left (step_of outcome place.old) }
    ensures same { step_of result place.new ≡ step_of outcome place.old }
    ensures cleared { Cleared first left (area kinds.old vals.old) (area kinds.new vals.new) (step_of outcome place.old) }
    ensures back { OnErr result (place.new ≡ first) }
{
    match outcome {
        Ok(()) => {
            if place.limit < place.nodes {
                clear_tokens(kinds, vals, first.top, place.top - first.top);
            }
            Ok(())
        }
        Err(refusal) => {
            clear_tokens(kinds, vals, first.top, left + 1);
            *place = first;
            Err(refusal)
        }
    }
}
