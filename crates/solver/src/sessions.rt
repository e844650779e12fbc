// A session made and cleared, and the counters that an order is read by.
// Kinds and values that are written are lent as two slices: docs/DECISIONS.md, "How are the tokens lent?".
ghost use Rattle.std.specs.Prelude.{◌≡◌, length, replicate};
ghost use Rattle.solver.specs.Session.{Session, fresh};
ghost use Rattle.solver.specs.Words.SessionsContract.{Holds, counters, FreshRoom};

use super::layout::USED_COLUMNS;
use super::resolving::clear_words;
use super::{Limits, Solver, Standing};

impl Solver {
    // A fresh session, whatever the areas held.
    pub fn fresh(limits: Limits, a: &mut [u32], b: &mut [u32], tables: &mut [u32]) -> Solver
        requires { FreshRoom limits.variables (length tables.old) }
        ensures counters { result ≡ counters limits }
        ensures holds { Holds (counters limits) a.new b.new tables.new fresh }
    {
        a.fill(0);
        b.fill(0);
        tables.fill(0);
        Solver {
            variables: limits.variables,
            nodes: limits.nodes,
            issued: 0,
            revision: 0,
            kept: 0,
            top: 0,
        }
    }

    // Clears the areas that hold a session.
    pub fn clear_session(self, a: &mut [u32], b: &mut [u32], tables: &mut [u32])
        requires { (s : Session) × Holds self a.old b.old tables.old s }
        ensures kinds { a.new ≡ replicate (length a.old) 0 }
        ensures vals { b.new ≡ replicate (length b.old) 0 }
        ensures table { tables.new ≡ replicate (length tables.old) 0 }
    {
        clear_words(a, self.top);
        clear_words(b, self.top);
        clear_words(tables, USED_COLUMNS * self.variables);
    }

    // The counters that an order is read by.
    pub fn standing(self) -> Standing
        ensures { result ≡ record { issued = self.issued; kept = self.kept; top = self.top; nodes = self.nodes } }
    {
        Standing {
            issued: self.issued,
            kept: self.kept,
            top: self.top,
            nodes: self.nodes,
        }
    }
}
