// An order answered on the session that the areas hold. The four areas are lent as C hands them over, the third as its records and its table: for a
// struct of `&mut` see `store.rt` of terms.
ghost use Rattle.std.specs.Prelude.{◌≡◌, List, ℕ, ◌≤◌, ◌<◌, eqb, ltb, length, get_or};
ghost use Rattle.solver.specs.Session.{Session, issued};
ghost use Rattle.solver.specs.Invariant.{InOrder};
ghost use Rattle.solver.specs.Words.SessionRepresentation.{limits_of};
ghost use Rattle.solver.specs.TermTypes.{Rule};
ghost use Rattle.solver.specs.Terms.Tokens.{area};
ghost use Rattle.sheet.specs.Words.SessionInAreas.{areas, RepresentsInAreas, Served};
ghost use Rattle.sheet.specs.Entry.{AreasReady};
ghost use Rattle.sheet.specs.Words.FramingContract.{OutputRoom, output_at, written_to};
ghost use Rattle.sheet.specs.Words.OrderReaderContract.{RulesRoom};
ghost use Rattle.sheet.specs.Words.DispatchContract.{OrderTaken, Serves, Answered};

use super::framing::write_order_refusal;
use super::operations::operate;
use super::order_reader::{clear_order, read_order};
use super::plain_orders::{termless_of, termless_order};
use super::term_orders::{constrain_order, defer_term, resolve_term};
use super::{AfterOrder, Operation, Order, OrderKind, OrderRefusal, Posed};
use solver::{Refusal, Rule, Solver, Tokens, byte_at};

// An order that was read, by its kind; refusal 7 where it has too many nodes. Orders 9 to 20, operations, leave the session as it was.
fn answer_order<'a>(
    x: Solver,
    s: &'a [u8],
    a: &'a [u32],
    b: &'a [u32],
    records: &mut [u32],
    table: &mut [u32],
    d: &mut [u32],
    rules: &[Rule],
    o: Order,
    out: &mut [u8],
    to: usize,
) -> AfterOrder
    requires taken { (a₀ b₀ : List ℕ) × OrderTaken x s.now (areas a₀ b₀ records.old table.old d.old) (area a.now b.now) rules.now o }
    requires room { OutputRoom out.old to }
    ensures { (a₀ b₀ : List ℕ) → OrderTaken x s.now (areas a₀ b₀ records.old table.old d.old) (area a.now b.now) rules.now o
        → Answered x result.solver s.now (areas a₀ b₀ records.old table.old d.old) (area a.now b.now) o
        records.new table.new d.new (output_at out.old to) (written_to out.new result.next) }
{
    let n = x.standing();
    if n.nodes < o.nodes {
        let next = write_order_refusal(out, to, OrderRefusal::Common(Refusal::Nodes));
        return AfterOrder { solver: x, next };
    }
    let tokens = &Tokens {
        kinds: &a[..o.top],
        vals: &b[..o.top],
    };
    match o.kind {
        OrderKind::Termless(kind) => {
            let what = termless_of(kind, o.fields);
            termless_order(x, what, tokens, table, d, out, to)
        }
        OrderKind::DeferNever => defer_term(x, tokens, table, out, to),
        OrderKind::Constrain(access) => {
            let k = o.fields.first.value as u32;
            let q = o.fields.third.place;
            constrain_order(x, tokens, table, d, q, k, o.nodes, access, out, to)
        }
        OrderKind::Resolve => resolve_term(x, tokens, table, d, out, to),
        OrderKind::Operation(what) => {
            // The whole areas: what an operation asks of its fields says where they are held, and not that each ends before `o.top`.
            let posed = Posed {
                bytes: s,
                tokens: Tokens { kinds: a, vals: b },
                fields: o.fields,
            };
            let next = operate(&posed, what, records, d, rules, out, to);
            AfterOrder { solver: x, next }
        }
    }
}

// Reads an order, with room for its rules, and answers it. That an order is short is a clause of the three `serve_` functions, and that the sheet is of three in
// running.rt. With a struct of bytes that are so few these six would go, but each `ensures` there would say `s.entry.bytes.now` for `s.now`, as a field of a
// struct by value is lent, and `Passes` and four calls would have `.bytes`.
fn serve_with(
    x: Solver,
    s: &[u8],
    a: &mut [u32],
    b: &mut [u32],
    records: &mut [u32],
    table: &mut [u32],
    d: &mut [u32],
    rules: &mut [Rule],
    out: &mut [u8],
    to: usize,
) -> AfterOrder
    requires held { AreasReady x (areas a.old b.old records.old table.old d.old) }
    requires rules { get_or s.now 0 0 ≡ 20 → RulesRoom s.now rules.old 2048 }
    requires room { (length s.now ≤ 16777216) × OutputRoom out.old to }
    ensures { Serves x result.solver s.now (areas a.old b.old records.old table.old d.old)
        (areas a.new b.new records.new table.new d.new) (output_at out.old to) (written_to out.new result.next) }
{
    let n = x.standing();
    let r = read_order(s, a, b, rules, n);
    match r {
        Ok(o) => {
            let w = answer_order(x, s, a, b, records, table, d, rules, o, out, to);
            let y = w.solver;
            let m = y.standing();
            clear_order(a, b, m.top, o);
            w
        }
        Err(refusal) => {
            let next = write_order_refusal(out, to, OrderRefusal::Common(refusal));
            AfterOrder { solver: x, next }
        }
    }
}

// Whether an order may have rules. `read_order` tells which order it is, but the room for the rules has to be there before.
#[tactic(auto, unfolding(crate::specs::Sheet::table, crate::specs::OrderTable::session_orders, crate::specs::OrderTable::row_in, crate::specs::Operations::operations))]
fn has_rules(s: &[u8]) -> bool
    ensures { result ≡ eqb (get_or s.now 0 0) 20 }
{
    let kind = byte_at(s, 0).and_then(OrderKind::try_from);
    kind == Ok(OrderKind::Operation(Operation::Normalise))
}

// Whether the byte that begins the count of rules says fewer than 64. Where there is none the order is refused.
fn few_rules(s: &[u8]) -> bool
    ensures { result ≡ ltb (get_or s.now 1 0) 64 }
{
    s.get(1).is_none_or(|b| *b < 64)
}

// An order that may have rules: fewer than 64, or at most 1,024.
fn serve_rules(
    x: Solver,
    s: &[u8],
    a: &mut [u32],
    b: &mut [u32],
    records: &mut [u32],
    table: &mut [u32],
    d: &mut [u32],
    out: &mut [u8],
    to: usize,
) -> AfterOrder
    requires held { AreasReady x (areas a.old b.old records.old table.old d.old) }
    requires room { (length s.now ≤ 16777216) × OutputRoom out.old to }
    ensures { Serves x result.solver s.now (areas a.old b.old records.old table.old d.old)
        (areas a.new b.new records.new table.new d.new) (output_at out.old to) (written_to out.new result.next) }
{
    if few_rules(s) {
        let mut few = [Rule::default(); 64];
        return serve_with(x, s, a, b, records, table, d, &mut few, out, to);
    }
    let mut rules = [Rule::default(); 1024];
    serve_with(x, s, a, b, records, table, d, &mut rules, out, to)
}

// Reads an order and answers it from `to` on: whole, with its effect on the session, or not at all.
pub fn serve_order(
    x: Solver,
    s: &[u8],
    a: &mut [u32],
    b: &mut [u32],
    records: &mut [u32],
    table: &mut [u32],
    d: &mut [u32],
    out: &mut [u8],
    to: usize,
) -> AfterOrder
    requires held { AreasReady x (areas a.old b.old records.old table.old d.old) }
    requires room { (length s.now ≤ 16777216) × OutputRoom out.old to }
    ensures { (z : Session) → InOrder (issued z) z.solver → RepresentsInAreas x (areas a.old b.old records.old table.old d.old) z
        → Served result.solver (areas a.new b.new records.new table.new d.new) z s.now (output_at out.old to)
        (written_to out.new result.next) x }
{
    if has_rules(s) {
        return serve_rules(x, s, a, b, records, table, d, out, to);
    }
    serve_with(x, s, a, b, records, table, d, &mut [], out, to)
}
