// Framing: the orders of a sheet, each a part of it.
ghost use Rattle.std.specs.Prelude.{◌≡◌, ◌+◌, ◌-◌, ◌≤◌, length, take, drop};
ghost use Rattle.sheet.specs.Sheet.{next_order};
ghost use Rattle.std.specs.Iterator.{at_most};
ghost use Rattle.sheet.specs.Entry.{framed_part};
ghost use Rattle.sheet.specs.Words.SplittingContract.{Passes};

use super::Reason;
use solver::{ORDINARY, read_number};

// Where the order whose length stands at a position lies, its first byte and its size; nothing where that length is faulty.
pub fn next_order(s: &[u8], at: usize) -> Option<(usize, usize)>
    ensures { framed_part s.now result ≡ next_order s.now at }
{
    let (size, from) = read_number(s, at, ORDINARY).ok()?;
    if ((s.len() - from) as u64) < size {
        return None;
    }
    Some((from, size as usize))
}

// The order that lies there: that part of the sheet.
pub fn order_at(s: &[u8], from: usize, size: usize) -> &[u8]
    requires { from + size ≤ length s.now }
    ensures { result.now ≡ take size (drop from s.now) }
{
    let end = from + size;
    &s[from..end]
}

// The orders of a sheet from a position on, until it is used up; a length that is faulty is the last that comes.
#[derive(Clone, Copy, Drop)]
pub struct Orders<'a> {
    pub sheet: &'a [u8],
    pub at: usize,
}

impl<'a> Iterator for Orders<'a> {
    type Item = Result<&'a [u8], Reason>;

    ghost can_next = { λ p. p.at ≤ length p.sheet.now };

    ghost next_gives = { Passes };

    ghost remaining = { λ p. at_most (length p.sheet.now - p.at) };

    fn next(&mut self) -> Option<Result<&'a [u8], Reason>> {
        let sheet = self.sheet;
        if sheet.len() <= self.at {
            return None;
        }
        let Some((from, size)) = next_order(sheet, self.at) else {
            self.at = sheet.len();
            return Some(Err(Reason::Length));
        };
        self.at = from + size;
        Some(Ok(order_at(sheet, from, size)))
    }
}
