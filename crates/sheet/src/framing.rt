// Answers in the output: a length, an outcome byte, and on 0 the value. An answer is written whole, and the position after it comes back, or not at
// all: None where it does not fit. `out` and `to` go from hand to hand, and no struct has them both: see `store.rt` of terms.
ghost use Rattle.std.specs.Prelude.{length, [], ◌∷◌};
ghost use Rattle.solver.specs.Terms.Number.{shortest};
ghost use Rattle.sheet.specs.OrderTable.{refusal, outcome};
ghost use Rattle.sheet.specs.Words.FramingContract.{OutputRoom, Framed, Begun, order_refusal};

use super::OrderRefusal;
use solver::{number_len, write_number};

// How many bytes the answer of one byte has: its length, outcome 0 and the byte.
pub const BYTE_ANSWER: usize = 3;

// A refusal, by any code: it promises the bytes of each. What orders are refused with is an `OrderRefusal`, and written by the next.
pub fn write_refusal(out: &mut [u8], to: usize, code: u8) -> Option<usize>
    requires { OutputRoom out.old to }
    ensures { Framed (refusal code) out.old to out.new result }
{
    if out.len() - to < 2 {
        return None;
    }
    out[to] = 1;
    out[to + 1] = code;
    Some(to + 2)
}

// A refusal, by why the order is refused.
pub fn write_order_refusal(out: &mut [u8], to: usize, why: OrderRefusal) -> Option<usize>
    requires { OutputRoom out.old to }
    ensures { Framed (refusal (order_refusal why)) out.old to out.new result }
{
    write_refusal(out, to, u8::from(why))
}

// Outcome 0 and a value of one byte.
pub fn write_byte_answer(out: &mut [u8], to: usize, a: u8) -> Option<usize>
    requires { OutputRoom out.old to }
    ensures { Framed (outcome (a ∷ [])) out.old to out.new result }
{
    write_bytes_answer(out, to, &[a])
}

// The length and outcome 0, where a value of so many bytes fits after them: the position of the value.
pub fn begin_answer(out: &mut [u8], to: usize, size: usize) -> Option<usize>
    requires { OutputRoom out.old to }
    ensures { Begun size out.old to out.new result }
{
    if out.len() - to < size {
        return None;
    }
    let n = number_len(size as u64 + 1);
    if out.len() - to < n + 1 + size {
        return None;
    }
    let i = write_number(out, to, size as u64 + 1);
    out[i] = 0;
    Some(i + 1)
}

// Outcome 0 and no value.
pub fn write_empty_answer(out: &mut [u8], to: usize) -> Option<usize>
    requires { OutputRoom out.old to }
    ensures { Framed (outcome []) out.old to out.new result }
{
    begin_answer(out, to, 0)
}

// A number as the value.
pub fn write_number_answer(out: &mut [u8], to: usize, n: u64) -> Option<usize>
    requires { OutputRoom out.old to }
    ensures { Framed (outcome (shortest n)) out.old to out.new result }
{
    let size = number_len(n);
    let at = begin_answer(out, to, size)?;
    Some(write_number(out, at, n))
}

// Outcome 0 and a value of some bytes.
pub fn write_bytes_answer(out: &mut [u8], to: usize, v: &[u8]) -> Option<usize>
    requires { OutputRoom out.old to }
    ensures { Framed (outcome v.now) out.old to out.new result }
{
    let n = v.len();
    let at = begin_answer(out, to, n)?;
    out[at..at + n].copy_from_slice(v);
    Some(at + n)
}
