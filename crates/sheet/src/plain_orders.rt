// Orders 0, 1, 2, 6, 7, 8 and 21 on what the solver is lent: the tokens, the table, and the work area, all 0. For `out` and
// `to` see `framing.rt`.
// Tokens, table and work area are lent side by side: the lines at the head of store.rt of terms say why.
ghost use Rattle.std.specs.Prelude.{MatchOption, ◌≡◌, List, ℕ, ◌<◌};
ghost use Rattle.std.proofs.Math.Option.{none, some};
ghost use Rattle.solver.specs.Terms.Term.{Term, var, bytes};
ghost use Rattle.solver.specs.Families.{requested};
ghost use Rattle.solver.specs.Session.{Session, issued};
ghost use Rattle.solver.specs.Invariant.{InOrder};
ghost use Rattle.solver.specs.Orders as orders;
ghost use Rattle.solver.specs.Words.Worklist.{Zero};
ghost use Rattle.solver.specs.Words.SessionRepresentation.{Represents, limits_of};
ghost use Rattle.solver.specs.Words.MethodContract.{Beside, bound_of, request_held, defaults_by};
ghost use Rattle.solver.specs.Words.OrderTerms.{Asked, Frames, resolved_to};
ghost use Rattle.solver.specs.TermTypes.{Rule};
ghost use Rattle.sheet.specs.OrderTable.{outcome, between, asking};
ghost use Rattle.sheet.specs.Sheet.{solve};
ghost use Rattle.sheet.specs.Words.FieldLayout.{spot_bound};
ghost use Rattle.sheet.specs.Words.OrderKinds.{termless_row};
ghost use Rattle.sheet.specs.Words.OperationsContract.{Asks};
ghost use Rattle.sheet.specs.Words.FramingContract.{OutputRoom, output_at, written_to, Framed};
ghost use Rattle.sheet.specs.Words.SessionOrdersContract.{lent, Does, Says, variable_command};
ghost use Rattle.sheet.specs.Words.SessionOrdersContract.{variable_answer, termless_command};

use super::framing::{
    BYTE_ANSWER, begin_answer, write_byte_answer, write_number_answer, write_order_refusal,
};
use super::{
    AfterOrder, FieldSpot, FieldSpots, OrderRefusal, TermlessKind, TermlessOrder, VariableOrder,
};
use solver::{
    Bound, Builtin, Defaulted, NumberRequest, Range, Refusal, Site, Solver, Subject, Tokens,
    plain_request, range_request, variable_len, write_variable,
};

// Order 8.
fn revision_order(x: Solver, out: &mut [u8], to: usize) -> AfterOrder
    requires { OutputRoom out.old to }
    ensures { (ks vs ts : List ℕ) (z : Session) → Represents x ks vs ts z
        → Does (lent x ks vs ts) result.solver ts z (solve (limits_of x) z orders.revision) (output_at out.old to)
        (written_to out.new result.next) }
{
    let n = x.revision();
    let next = write_number_answer(out, to, n as u64);
    AfterOrder { solver: x, next }
}

// Orders 6 and 7.
fn default_order(
    x: Solver,
    which: Defaulted,
    tokens: &Tokens,
    tables: &mut [u32],
    out: &mut [u8],
    to: usize,
) -> AfterOrder
    requires held { (z : Session) × InOrder (issued z) z.solver × Represents x tokens.now.kinds.now tokens.now.vals.now tables.old z }
    requires room { OutputRoom out.old to }
    ensures { (z : Session) → InOrder (issued z) z.solver → Represents x tokens.now.kinds.now tokens.now.vals.now tables.old z
        → Does (lent x tokens.now.kinds.now tokens.now.vals.now tables.old) result.solver tables.new z
        (solve (limits_of x) z (defaults_by which)) (output_at out.old to) (written_to out.new result.next) }
{
    if out.len() - to < BYTE_ANSWER {
        return AfterOrder {
            solver: x,
            next: None,
        };
    }
    let old = x.revision();
    let y = x.apply_defaults(tokens, tables, which);
    let next = write_byte_answer(out, to, u8::from(y.revision() != old));
    AfterOrder { solver: y, next }
}

// A variable as the answer.
fn write_variable_answer(out: &mut [u8], to: usize, v: u32) -> Option<usize>
    requires { OutputRoom out.old to }
    ensures { Framed (outcome (bytes (var v))) out.old to out.new result }
{
    let size = variable_len(v);
    let at = begin_answer(out, to, size)?;
    Some(write_variable(out, at, v))
}

// What a term or a variable resolves to, as the answer.
pub fn resolved(
    x: Solver,
    tokens: &Tokens,
    tables: &[u32],
    frames: &mut [u32],
    what: Subject,
    out: &mut [u8],
    to: usize,
) -> Option<usize>
    requires held { (z : Session) × (t : Term) × Asked x tokens.now.kinds.now tokens.now.vals.now tables.now what z t }
    requires areas { Frames x frames.old }
    requires room { OutputRoom out.old to }
    ensures clear { Zero frames.new }
    ensures term { (z : Session) (t : Term) → Asked x tokens.now.kinds.now tokens.now.vals.now tables.now what z t
        → Framed (outcome (resolved_to z t)) out.old to out.new result }
{
    let size = x.resolved_len(tokens, tables, frames, what, out.len() as u32)?;
    let at = begin_answer(out, to, size)?;
    Some(x.resolve(tokens, tables, frames, what, out, at))
}

// The answer for the variable v: order 0 answers the variable itself, the others what it resolves to.
fn answer_variable(
    x: Solver,
    tokens: &Tokens,
    tables: &[u32],
    frames: &mut [u32],
    wanted: VariableOrder,
    v: u32,
    out: &mut [u8],
    to: usize,
) -> Option<usize>
    requires held { (z : Session) × Represents x tokens.now.kinds.now tokens.now.vals.now tables.now z }
    requires areas { (v < x.variables) × Frames x frames.old }
    requires room { OutputRoom out.old to }
    ensures clear { Zero frames.new }
    ensures term { (z : Session) → Represents x tokens.now.kinds.now tokens.now.vals.now tables.now z
        → Framed (outcome (bytes (variable_answer z wanted v))) out.old to out.new result }
{
    match wanted {
        VariableOrder::Slot(_, _) => write_variable_answer(out, to, v),
        VariableOrder::Number(_, _) | VariableOrder::Hole(_) => {
            resolved(x, tokens, tables, frames, Subject::Id(v), out, to)
        }
    }
}

// The variable is issued, where the place has none; a number variable is requested.
fn issue_variable(x: Solver, tables: &mut [u32], wanted: VariableOrder) -> Solver
    requires { (ks vs : List ℕ) × (z : Session) × InOrder (issued z) z.solver × Represents x ks vs tables.old z }
    ensures held { (ks vs : List ℕ) (z : Session) → InOrder (issued z) z.solver → Represents x ks vs tables.old z
        → Represents result ks vs tables.new (solve (limits_of x) z (variable_command wanted)).session }
    ensures beside { Beside x result tables.old tables.new }
{
    match wanted {
        VariableOrder::Slot(site, slot) => {
            let y = x.variable(tables, site, slot);
            y.solver
        }
        VariableOrder::Number(site, request) => {
            let y = x.numeric_variable(tables, site, request);
            y.solver
        }
        VariableOrder::Hole(site) => {
            let y = x.annotation_hole(tables, site);
            y.solver
        }
    }
}

// Orders 0, 1, 2 and 21.
fn variable_order(
    x: Solver,
    tokens: &Tokens,
    tables: &mut [u32],
    frames: &mut [u32],
    wanted: VariableOrder,
    out: &mut [u8],
    to: usize,
) -> AfterOrder
    requires held { (z : Session) × InOrder (issued z) z.solver × Represents x tokens.now.kinds.now tokens.now.vals.now tables.old z }
    requires areas { Frames x frames.old }
    requires room { OutputRoom out.old to }
    ensures clear { Zero frames.new }
    ensures does { (z : Session) → InOrder (issued z) z.solver → Represents x tokens.now.kinds.now tokens.now.vals.now tables.old z
        → Does (lent x tokens.now.kinds.now tokens.now.vals.now tables.old) result.solver tables.new z
        (solve (limits_of x) z (variable_command wanted)) (output_at out.old to) (written_to out.new result.next) }
{
    let Some(v) = x.id_of(tables, Site::from(wanted)) else {
        let next = write_order_refusal(out, to, OrderRefusal::Common(Refusal::Variables));
        return AfterOrder { solver: x, next };
    };
    let next = answer_variable(x, tokens, tables, frames, wanted, v, out, to);
    if next.is_none() {
        return AfterOrder { solver: x, next };
    }
    let y = issue_variable(x, tables, wanted);
    AfterOrder { solver: y, next }
}

// The bound that a spot has; none where its sign is neither 0 nor 1. `TryFrom` would name an error, which `requested_range` drops.
fn bound_at(spot: FieldSpot) -> Option<Bound>
    ensures { MatchOption result (spot_bound spot ≡ none) (λ bound. spot_bound spot ≡ some (bound_of bound)) }
{
    if 1 < spot.place {
        return None;
    }
    Some(Bound {
        minus: spot.place == 1,
        size: spot.value,
    })
}

// What an order 21 requests, by its fallback and the spots of its bounds; none where it is refused.
fn requested_range(fallback: Builtin, low: FieldSpot, high: FieldSpot) -> Option<NumberRequest>
    ensures { request_held result ≡ between fallback.code (spot_bound low) (spot_bound high) }
{
    let range = Range {
        low: bound_at(low)?,
        high: bound_at(high)?,
    };
    range_request(fallback, range)
}

// An order for the number variable of a site, or the refusal 13.
fn number_order(site: u32, request: Option<NumberRequest>) -> TermlessOrder
    ensures { termless_command result ≡ asking site (request_held request) }
{
    let Some(request) = request else {
        return TermlessOrder::Refused(OrderRefusal::NoType);
    };
    TermlessOrder::Variable(VariableOrder::Number(site, request))
}

// What an order without terms says.
pub fn termless_of(kind: TermlessKind, o: FieldSpots) -> TermlessOrder
    requires { (ks vs s : List ℕ) × (ws : List Rule) × Asks ks vs s ws (termless_row kind) o }
    ensures { (ks vs s : List ℕ) (ws : List Rule) → Says ks vs s ws (termless_row kind) o (termless_command result) }
{
    let first = o.first.value as u32;
    let second = o.second.value as u32;
    match kind {
        TermlessKind::Variable => TermlessOrder::Variable(VariableOrder::Slot(first, second)),
        TermlessKind::NumberVariable => {
            let fallback = Builtin { code: second };
            TermlessOrder::Variable(VariableOrder::Number(first, plain_request(fallback)))
        }
        TermlessKind::AnnotationHole => TermlessOrder::Variable(VariableOrder::Hole(first)),
        TermlessKind::NumericDefaults => TermlessOrder::Defaults(Defaulted::Requested),
        TermlessKind::NeverDefaults => TermlessOrder::Defaults(Defaulted::Deferred),
        TermlessKind::Revision => TermlessOrder::Revision,
        TermlessKind::RangeVariable => {
            let fallback = Builtin { code: second };
            number_order(first, requested_range(fallback, o.third, o.fourth))
        }
    }
}

// Orders 0, 1, 2, 6, 7, 8 and 21.
pub fn termless_order(
    x: Solver,
    what: TermlessOrder,
    tokens: &Tokens,
    tables: &mut [u32],
    frames: &mut [u32],
    out: &mut [u8],
    to: usize,
) -> AfterOrder
    requires held { (z : Session) × InOrder (issued z) z.solver × Represents x tokens.now.kinds.now tokens.now.vals.now tables.old z }
    requires areas { Frames x frames.old }
    requires room { OutputRoom out.old to }
    ensures clear { Zero frames.new }
    ensures does { (z : Session) → InOrder (issued z) z.solver → Represents x tokens.now.kinds.now tokens.now.vals.now tables.old z
        → Does (lent x tokens.now.kinds.now tokens.now.vals.now tables.old) result.solver tables.new z
        (solve (limits_of x) z (termless_command what)) (output_at out.old to) (written_to out.new result.next) }
{
    match what {
        TermlessOrder::Variable(wanted) => {
            variable_order(x, tokens, tables, frames, wanted, out, to)
        }
        TermlessOrder::Defaults(which) => default_order(x, which, tokens, tables, out, to),
        TermlessOrder::Revision => revision_order(x, out, to),
        TermlessOrder::Refused(why) => {
            let next = write_order_refusal(out, to, why);
            AfterOrder { solver: x, next }
        }
    }
}
