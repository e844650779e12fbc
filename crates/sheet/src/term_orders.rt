// Orders 3, 4 and 5 on what the solver is lent: their terms stand after the tokens of the session. For `out` and `to` see
// `framing.rt`.
// Tokens, table and work area are lent side by side: the lines at the head of store.rt of terms say why.
ghost use Rattle.std.specs.Prelude.{◌≡◌, ◌+◌, take, drop};
ghost use Rattle.solver.specs.Terms.Term.{Term, size};
ghost use Rattle.solver.specs.Session.{Session};
ghost use Rattle.solver.specs.Orders as orders;
ghost use Rattle.solver.specs.Words.Worklist.{Zero};
ghost use Rattle.solver.specs.Words.PendingContract.{strict_of};
ghost use Rattle.solver.specs.Words.ConstrainContract.{Scratch, pending_from};
ghost use Rattle.solver.specs.Words.SessionRepresentation.{limits_of};
ghost use Rattle.sheet.specs.Sheet.{solve};
ghost use Rattle.sheet.specs.Words.FramingContract.{OutputRoom, output_at, written_to};
ghost use Rattle.solver.specs.Words.OrderTerms.{Poses, PosesPair, Frames};
ghost use Rattle.sheet.specs.Words.SessionOrdersContract.{lent, Does, DoesPair};

use super::AfterOrder;
use super::framing::{BYTE_ANSWER, write_byte_answer, write_empty_answer};
use super::plain_orders::resolved;
use solver::{Access, Solver, Subject, Tokens};

// Order 3: the variable that the term after the session's tokens stands for, if it stands for one, is deferred.
pub fn defer_term(
    x: Solver,
    tokens: &Tokens,
    tables: &mut [u32],
    out: &mut [u8],
    to: usize,
) -> AfterOrder
    requires held { (z : Session) × (t : Term) × Poses x tokens.now.kinds.now tokens.now.vals.now tables.old z t }
    requires room { OutputRoom out.old to }
    ensures { (z : Session) (t : Term) → Poses x tokens.now.kinds.now tokens.now.vals.now tables.old z t
        → Does (lent x (take x.top tokens.now.kinds.now) (take x.top tokens.now.vals.now) tables.old) result.solver tables.new z
        (solve (limits_of x) z (orders.defer t)) (output_at out.old to) (written_to out.new result.next) }
{
    let next = write_empty_answer(out, to);
    if next.is_none() {
        return AfterOrder { solver: x, next };
    }
    let y = x.defer_never(tokens, tables);
    AfterOrder { solver: y, next }
}

// Order 5: the term after the session's tokens.
pub fn resolve_term(
    x: Solver,
    tokens: &Tokens,
    tables: &[u32],
    frames: &mut [u32],
    out: &mut [u8],
    to: usize,
) -> AfterOrder
    requires held { (z : Session) × (t : Term) × Poses x tokens.now.kinds.now tokens.now.vals.now tables.now z t }
    requires areas { Frames x frames.old }
    requires room { OutputRoom out.old to }
    ensures clear { Zero frames.new }
    ensures does { (z : Session) (t : Term) → Poses x tokens.now.kinds.now tokens.now.vals.now tables.now z t
        → Does (lent x (take x.top tokens.now.kinds.now) (take x.top tokens.now.vals.now) tables.now) result.solver tables.now z
        (solve (limits_of x) z (orders.resolving t)) (output_at out.old to) (written_to out.new result.next) }
{
    let next = resolved(x, tokens, tables, frames, Subject::Follows, out, to);
    AfterOrder { solver: x, next }
}

// Orders 4 and 22: the two terms after the session's tokens, with k checks; `nodes` counts the kept nodes and theirs.
pub fn constrain_order(
    x: Solver,
    tokens: &Tokens,
    tables: &mut [u32],
    work: &mut [u32],
    q: usize,
    k: u32,
    nodes: usize,
    access: Access,
    out: &mut [u8],
    to: usize,
) -> AfterOrder
    requires held { (z : Session) × (t u : Term) × PosesPair x tokens.now.kinds.now tokens.now.vals.now tables.old z q t u
        × (nodes ≡ z.kept + (size t + size u)) }
    requires areas { Scratch x tokens.now.kinds.now tables.old work.old × Zero (drop (pending_from x) tables.old) }
    requires room { OutputRoom out.old to }
    ensures clear { Zero work.new }
    ensures does { (z : Session) (t u : Term) → PosesPair x tokens.now.kinds.now tokens.now.vals.now tables.old z q t u
        → nodes ≡ z.kept + (size t + size u)
        → DoesPair (lent x tokens.now.kinds.now tokens.now.vals.now tables.old) result.solver tables.new z
        (solve (limits_of x) z (orders.pair (strict_of access) k t u)) (output_at out.old to) (written_to out.new result.next) }
{
    if out.len() - to < BYTE_ANSWER {
        return AfterOrder {
            solver: x,
            next: None,
        };
    }
    let r = x.constrain(tokens, tables, work, q, k, nodes, access);
    let next = write_byte_answer(out, to, u8::from(r.verdict));
    AfterOrder {
        solver: r.solver,
        next,
    }
}
