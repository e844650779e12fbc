// The run of a sheet.
// The areas are lent as slices side by side: see dispatch.rt.
ghost use Rattle.std.specs.Prelude.{◌≡◌, ◌≤◌, length, take, drop};
ghost use Rattle.solver.specs.Session.{document_limits, fresh};
ghost use Rattle.solver.specs.Words.SessionRepresentation.{limits_of};
ghost use Rattle.sheet.specs.Sheet.{run_of};
ghost use Rattle.sheet.specs.Words.SessionInAreas.{areas, RepresentsInAreas, AreasSuffice};
ghost use Rattle.solver.specs.Words.SessionsContract.{counters};
ghost use Rattle.solver.specs.Words.Worklist.{Zero};
ghost use Rattle.sheet.specs.Entry.{Ended, Left, sizes_accepted, finished, entry_result, state_after_run, number_of_reason};

use super::dispatch::serve_order;
use super::splitting::Orders;
use super::starting::lay_fresh;
use super::{Closed, Reason, Report};
use solver::{Limits, Solver};

// What a run returns, and the solver that it leaves.
fn closed(reason: Reason, orders: u64, bytes: usize, solver: Solver) -> Closed
    ensures { (result.report.reason ≡ reason) × (result.report.orders ≡ orders) × (result.report.bytes ≡ bytes) × (result.solver ≡ solver) }
{
    Closed {
        report: Report {
            reason,
            orders,
            bytes,
        },
        solver,
    }
}

// Answers orders one after another, until the sheet is used up, a length is faulty or an answer does not fit.
fn answer_orders(
    first: Solver,
    s: &[u8],
    out: &mut [u8],
    a: &mut [u32],
    b: &mut [u32],
    records: &mut [u32],
    table: &mut [u32],
    d: &mut [u32],
) -> Closed
    requires held { RepresentsInAreas first (areas a.old b.old records.old table.old d.old) fresh
        × AreasSuffice first (length a.old) (areas a.old b.old records.old table.old d.old) }
    requires room { (length s.now ≤ 16777216) × (length out.old ≤ 16777216) }
    ensures run { Ended (limits_of first) s.now out.old (number_of_reason result.report.reason) result.report.orders result.report.bytes
        out.new }
    ensures left { Left result.solver (areas a.new b.new records.new table.new d.new) }
{
    let mut x = first;
    let mut to = 0;
    let mut orders: u64 = 0;
    for order in (Orders { sheet: s, at: 0 }) {
        let bytes = match order {
            Ok(bytes) => bytes,
            Err(reason) => return closed(reason, orders, to, x),
        };
        let r = serve_order(x, bytes, a, b, records, table, d, out, to);
        let Some(next) = r.next else {
            return closed(Reason::Room, orders, to, r.solver);
        };
        x = r.solver;
        to = next;
        orders += 1;
    }
    closed(Reason::UsedUp, orders, to, x)
}

// The run in areas of just the words that a session has, within limits; their words are all 0 at the end.
fn run_in(
    limits: Limits,
    half: usize,
    s: &[u8],
    out: &mut [u8],
    a: &mut [u32],
    b: &mut [u32],
    c: &mut [u32],
    d: &mut [u32],
) -> Report
    requires areas { (half ≤ length c.old)
        × AreasSuffice (counters limits) (length a.old) (areas a.old b.old (take half c.old) (drop half c.old) d.old) }
    requires room { (length s.now ≤ 16777216) × (length out.old ≤ 16777216) }
    ensures run { Ended (limits_of (counters limits)) s.now out.old (number_of_reason result.reason) result.orders result.bytes
        out.new }
    ensures clear { Zero a.new × Zero b.new × Zero c.new × Zero d.new }
{
    let (records, table) = c.split_at_mut(half);
    let x = lay_fresh(limits, a, b, records, table, d);
    let r = answer_orders(x, s, out, a, b, records, table, d);
    let y = r.solver;
    y.clear_session(a, b, table);
    r.report
}

// The run in the first `words` words of longer areas, all of whose words are 0 at the end.
fn run_within(
    limits: Limits,
    half: usize,
    words: usize,
    s: &[u8],
    out: &mut [u8],
    a: &mut [u32],
    b: &mut [u32],
    c: &mut [u32],
    d: &mut [u32],
) -> Report
    requires areas { (half ≤ words) × (words ≤ length a.old) × (words ≤ length b.old) × (words ≤ length c.old) × (words ≤ length d.old)
        × AreasSuffice (counters limits) words
        (areas (take words a.old) (take words b.old) (take half (take words c.old)) (drop half (take words c.old)) (take words d.old)) }
    requires room { (length s.now ≤ 16777216) × (length out.old ≤ 16777216) }
    ensures { finished (number_of_reason result.reason) result.orders result.bytes out.new a.new b.new c.new
        d.new ≡ state_after_run (run_of (limits_of (counters limits)) s.now (length out.old)) out.old
        a.old b.old c.old d.old }
{
    let r = run_in(
        limits,
        half,
        s,
        out,
        &mut a[..words],
        &mut b[..words],
        &mut c[..words],
        &mut d[..words],
    );
    a[words..].fill(0);
    b[words..].fill(0);
    c[words..].fill(0);
    d[words..].fill(0);
    r
}

// Whether a sheet, an output and areas of so many bytes and words are taken.
#[tactic(auto, unfolding(crate::specs::Entry::sizes_accepted))]
fn within_bounds(sheet: usize, out: usize, a: usize, b: usize, c: usize, d: usize) -> bool
    ensures { result ≡ sizes_accepted 16384 sheet out a b c d }
{
    sheet <= 16777216 && out <= 16777216 && 16384 <= a && 16384 <= b && 16384 <= c && 16384 <= d
}

// The run of a sheet, in areas of any length: nothing is run where the sheet or the output is too long or an area too short.
pub fn run_sheet(
    sheet: &[u8],
    out: &mut [u8],
    a: &mut [u32],
    b: &mut [u32],
    c: &mut [u32],
    d: &mut [u32],
) -> Report
    ensures { finished (number_of_reason result.reason) result.orders result.bytes out.new a.new b.new c.new
        d.new ≡ entry_result document_limits 16384 sheet.now out.old a.old b.old c.old
        d.old }
{
    if !within_bounds(sheet.len(), out.len(), a.len(), b.len(), c.len(), d.len()) {
        return Report {
            reason: Reason::Sizes,
            orders: 0,
            bytes: 0,
        };
    }
    let limits = Limits {
        variables: 512,
        nodes: 2048,
    };
    run_within(limits, 8192, 16384, sheet, out, a, b, c, d)
}
