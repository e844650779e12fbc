// The areas cleared, and a fresh session laid in them.
// The areas are lent as slices side by side: see dispatch.rt.
ghost use Rattle.std.specs.Prelude.{◌≡◌, length};
ghost use Rattle.solver.specs.Session.{fresh};
ghost use Rattle.solver.specs.Words.SessionsContract.{counters, FreshRoom};
ghost use Rattle.sheet.specs.Words.SessionInAreas.{areas, RepresentsInAreas};

use solver::{Limits, Solver};

// A fresh session, whatever the areas held.
pub fn lay_fresh(
    limits: Limits,
    a: &mut [u32],
    b: &mut [u32],
    records: &mut [u32],
    table: &mut [u32],
    d: &mut [u32],
) -> Solver
    requires { FreshRoom limits.variables (length table.old) }
    ensures { (result ≡ counters limits) × RepresentsInAreas result (areas a.new b.new records.new table.new d.new) fresh }
{
    records.fill(0);
    d.fill(0);
    Solver::fresh(limits, a, b, table)
}
