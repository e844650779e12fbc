// The words of requests: plain ones, and those of the integer types that hold a range.
ghost use Rattle.std.specs.Prelude.{◌≡◌, true, false, ◌&&◌, ◌+◌, ◌≤◌, ◌<◌};
ghost use Rattle.solver.specs.Families.{at_most, below, holds, requested, request_of};
ghost use Rattle.solver.specs.Words.SessionRepresentation.{request_in};
ghost use Rattle.solver.specs.Words.MethodContract.{bound_of, mask_of, request_held};

use super::{Bound, Builtin, NumberRequest, Range};

impl Bound {
    // Whether a bound is at most another.
    fn at_most(self, other: Bound) -> bool
        ensures { result ≡ at_most (bound_of self) (bound_of other) }
    {
        match (self.minus, other.minus) {
            (true, true) => other.size <= self.size,
            (true, false) => true,
            (false, true) => self.size == 0 && other.size == 0,
            (false, false) => self.size <= other.size,
        }
    }
}

// The bound that is minus this size.
fn below_zero(size: u64) -> Bound
    ensures { (result.minus ≡ true) × (result.size ≡ size) }
{
    Bound { minus: true, size }
}

impl Range {
    // Whether the type with these least and greatest values holds both bounds.
    fn held_by(self, least: Bound, greatest: u64) -> bool
        ensures { result ≡ (below least.minus least.size self.low.minus self.low.size && below self.high.minus self.high.size false greatest) }
    {
        let most = Bound {
            minus: false,
            size: greatest,
        };
        least.at_most(self.low) && self.high.at_most(most)
    }

    // The integer types that hold both bounds, as a mask. With a table the sum would be a loop, whose invariant says of so many types what `mask_of` says
    // here of eight at once.
    fn mask(self) -> u32
        ensures { (result ≡ mask_of (holds (bound_of self.low) (bound_of self.high))) × (result ≤ 255) }
    {
        let zero = Bound {
            minus: false,
            size: 0,
        };
        let a = u32::from(self.held_by(below_zero(1 << 7), i8::MAX as u64));
        let b = u32::from(self.held_by(below_zero(1 << 15), i16::MAX as u64));
        let c = u32::from(self.held_by(below_zero(1 << 31), i32::MAX as u64));
        let d = u32::from(self.held_by(below_zero(1 << 63), i64::MAX as u64));
        let e = u32::from(self.held_by(zero, u8::MAX as u64));
        let f = u32::from(self.held_by(zero, u16::MAX as u64));
        let g = u32::from(self.held_by(zero, u32::MAX as u64));
        let h = u32::from(self.held_by(zero, u64::MAX));
        a + 2 * b + 4 * c + 8 * d + 16 * e + 32 * f + 64 * g + 128 * h
    }
}

// The plain request with this fallback.
pub fn plain_request(fallback: Builtin) -> NumberRequest
    ensures { request_in result.word ≡ requested fallback.code }
{
    NumberRequest {
        word: fallback.code + 1,
    }
}

// The request for the integer types that hold both bounds; none where low is above high, or no type holds them.
pub fn range_request(fallback: Builtin, range: Range) -> Option<NumberRequest>
    ensures { request_held result ≡ request_of fallback.code (bound_of range.low) (bound_of range.high) }
{
    if !range.low.at_most(range.high) {
        return None;
    }
    let mask = range.mask();
    if mask == 0 {
        return None;
    }
    Some(NumberRequest {
        word: 33 + fallback.code + 32 * mask,
    })
}
