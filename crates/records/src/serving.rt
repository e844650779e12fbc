// The orders of a sheet served one by one.
// The areas are lent as slices side by side: see dispatch.rt of sheet.
ghost use Rattle.std.specs.Prelude.{◌≤◌, length};
ghost use Rattle.solver.specs.Session.{fresh};
ghost use Rattle.sheet.specs.Words.SessionInAreas.{areas, RepresentsInAreas, AreasSuffice};

use crate::Tally;
use crate::record::{Seen, VARIABLES};
use frames::all_are;
use sheet::{Orders, lay_fresh, serve_order};
use solver::{Limits, Solver};

// The bytes of a sheet and of its output, at most.
pub const ROOM: usize = 32768;

// The words of an area, and of each half of the third one: the records of normalising, and the table.
const WORDS: usize = 16384;

const HALF: usize = 8192;

// An output and the areas.
#[derive(Drop)]
pub struct Areas {
    out: [u8; ROOM],
    a: [u32; WORDS],
    b: [u32; WORDS],
    records: [u32; HALF],
    table: [u32; HALF],
    d: [u32; WORDS],
}

// Whether an area's words from the first `top` on are 0.
fn blank(area: &[u32], top: usize) -> bool {
    area.get(top..).is_some_and(|rest| all_are(rest, 0))
}

// Looks at the areas after an order.
fn look(
    x: Solver,
    a: &[u32],
    b: &[u32],
    records: &[u32],
    table: &[u32],
    d: &[u32],
    tally: &mut Tally,
) {
    let n = x.standing();
    let seen = Seen {
        kinds: a.get(..n.top).unwrap_or(&[]),
        vals: b.get(..n.top).unwrap_or(&[]),
        table,
        issued: n.issued,
    };
    let good = seen.look(tally)
        && blank(a, n.top)
        && blank(b, n.top)
        && all_are(records, 0)
        && all_are(d, 0);
    tally.orders = tally.orders.saturating_add(1);
    if !good {
        tally.wrong = tally.wrong.saturating_add(1);
        tally.first = tally.first.or(Some(tally.sheets));
    }
}

// Serves orders one after another, until the sheet is used up, a length is faulty or an answer does not fit, as `answer_orders` of sheet does. They are counted
// here since the laws of a run in progress speak of their number.
fn serve_orders(
    first: Solver,
    s: &[u8],
    out: &mut [u8],
    a: &mut [u32],
    b: &mut [u32],
    records: &mut [u32],
    table: &mut [u32],
    d: &mut [u32],
    tally: &mut Tally,
)
    requires held { RepresentsInAreas first (areas a.old b.old records.old table.old d.old) fresh
        × AreasSuffice first (length a.old) (areas a.old b.old records.old table.old d.old) }
    requires room { (length s.now ≤ 16777216) × (length out.old ≤ 16777216) }
{
    let mut x = first;
    let mut to = 0;
    let mut orders: u64 = 0;
    for order in (Orders { sheet: s, at: 0 }) {
        let Ok(bytes) = order else {
            return;
        };
        let r = serve_order(x, bytes, a, b, records, table, d, out, to);
        let Some(next) = r.next else {
            return;
        };
        x = r.solver;
        to = next;
        orders += 1;
        look(x, a, b, records, table, d, tally);
    }
}

impl Areas {
    // Zeros.
    pub fn new() -> Areas {
        Areas {
            out: [0; ROOM],
            a: [0; WORDS],
            b: [0; WORDS],
            records: [0; HALF],
            table: [0; HALF],
            d: [0; WORDS],
        }
    }

    // Serves the orders of a sheet, the first `size` bytes, in a fresh session.
    pub fn serve(&mut self, sheet: &[u8; ROOM], size: usize, tally: &mut Tally) {
        let limits = Limits {
            variables: VARIABLES,
            nodes: 2048,
        };
        let x = lay_fresh(
            limits,
            &mut self.a,
            &mut self.b,
            &mut self.records,
            &mut self.table,
            &mut self.d,
        );
        serve_orders(
            x,
            sheet.get(..size).unwrap_or(&[]),
            &mut self.out,
            &mut self.a,
            &mut self.b,
            &mut self.records,
            &mut self.table,
            &mut self.d,
            tally,
        );
    }
}
