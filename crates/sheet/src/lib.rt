// The sheet: orders read, answered and framed; the run.
#![tactic(auto)]

ghost use Rattle.std.specs.Prelude.{◌≤◌, length};

mod dispatch;
mod fields;
mod framing;
mod layout;
mod operations;
mod order_reader;
mod order_table;
mod plain_orders;
mod rules;
mod running;
mod splitting;
mod starting;
mod term_orders;

pub use dispatch::serve_order;
pub use running::run_sheet;
use solver::{Access, Defaulted, NumberRequest, Refusal, Site, Solver, Tokens, refusal_number};
pub use splitting::Orders;
pub use starting::lay_fresh;

// Which order it is, by what answers it; `try_from` of order_table.rt has the numbers. Orders 9 to 20 are operations, which leave the session as it was.
#[derive(Clone, Copy, Debug, PartialEq, Eq)]
pub enum OrderKind {
    Termless(TermlessKind),
    DeferNever,
    Constrain(Access),
    Resolve,
    Operation(Operation),
}

// The orders of the session that have no terms: 0, 1, 2, 6, 7, 8 and 21.
#[derive(Clone, Copy, Debug, PartialEq, Eq)]
pub enum TermlessKind {
    Variable,
    NumberVariable,
    AnnotationHole,
    NumericDefaults,
    NeverDefaults,
    Revision,
    RangeVariable,
}

// The orders that leave the session as it was: 9 to 20.
#[derive(Clone, Copy, Debug, PartialEq, Eq)]
pub enum Operation {
    Conflicts,
    Weakens,
    Recover,
    Instantiate,
    ArgumentContext,
    WithSelf,
    Questions,
    ResolvedIn,
    Satisfied,
    Family,
    WithAssociatedTypes,
    Normalise,
}

// What a field of an order is, as `sort_of` tells it: a number; a builtin's code; a bound of a range; a term; a bare nominal; an owner and a term; or a count
// and so many entries, receivers, parameters, arguments or rules.
#[derive(Clone, Copy, Debug, PartialEq, Eq)]
pub enum Sort {
    Number,
    Code,
    Bound,
    Term,
    Nominal,
    Receiver,
    Entries,
    Receivers,
    Parameters,
    Arguments,
    Rules,
}

// A field of an order: a number or count, the place of its first token (of parameters: their position in the bytes; of a bound: its sign), and the token
// after its last. It is no enum by what it is: what answers an order has the field's sort from the layout, and would match on cases that never come.
#[derive(Clone, Copy, Default)]
pub struct FieldSpot {
    pub value: u64,
    pub place: usize,
    pub end: usize,
}

// The fields of an order, at most five.
// They have names and are no array: with `[FieldSpot; 5]` the 13 lines of `put_spot` would be `o[i] = x`, but 45 places of the code and 21 of the definitions
// (`HeldFields`, `WordsFit`, `rule_from`) would have an index for a name, and those of the definitions a spot besides, for an index past the end.
#[derive(Clone, Copy, Default)]
pub struct FieldSpots {
    pub first: FieldSpot,
    pub second: FieldSpot,
    pub third: FieldSpot,
    pub fourth: FieldSpot,
    pub fifth: FieldSpot,
}

// An order that was read: which it is, its fields, the token after the last one, and the nodes kept with those of the order.
#[derive(Clone, Copy)]
pub struct Order {
    pub kind: OrderKind,
    pub fields: FieldSpots,
    pub top: usize,
    pub nodes: usize,
}

// The fields of an order that was read, with the order's bytes and the tokens, in which they stand.
#[derive(Clone, Copy)]
pub struct Posed<'a> {
    pub bytes: &'a [u8],
    pub tokens: Tokens<'a>,
    pub fields: FieldSpots,
    ghost few: { length tokens.kinds.now ≤ 32768 },
}

// An order for a variable: that of a site and a slot (order 0), a number variable of a site with its request (1 and 21), a hole of a site (2).
#[derive(Clone, Copy, Debug, PartialEq, Eq)]
pub enum VariableOrder {
    Slot(u32, u32),
    Number(u32, NumberRequest),
    Hole(u32),
}

// The place of the variable: that of a number variable is slot 1 of its site.
impl From<VariableOrder> for Site {
    ghost use Rattle.std.specs.Prelude.{◌≡◌};
    ghost use Rattle.sheet.specs.Words.SessionOrdersContract.{site_of};

    ghost from_gives = { λ wanted site. site ≡ site_of wanted };

    fn from(wanted: VariableOrder) -> Site {
        match wanted {
            VariableOrder::Slot(site, slot) => Site::Slot(site, slot),
            VariableOrder::Number(site, _) => Site::Slot(site, 1),
            VariableOrder::Hole(site) => Site::Hole(site),
        }
    }
}

// An order without terms: for a variable (orders 0, 1, 2 and 21), the defaults of numbers (6) or of deferred variables (7), the revision (8); or why it is
// refused.
#[derive(Clone, Copy, Debug, PartialEq, Eq)]
pub enum TermlessOrder {
    Variable(VariableOrder),
    Defaults(Defaulted),
    Revision,
    Refused(OrderRefusal),
}

// Why an order is refused: as the terms and the solver refuse it, or because no type lies within its bounds.
#[derive(Clone, Copy, Debug, PartialEq, Eq)]
pub enum OrderRefusal {
    Common(Refusal),
    NoType,
}

impl From<OrderRefusal> for u8 {
    ghost use Rattle.std.specs.Prelude.{◌≡◌};
    ghost use Rattle.sheet.specs.Words.FramingContract.{order_refusal};

    ghost from_gives = { λ why number. number ≡ order_refusal why };

    fn from(why: OrderRefusal) -> u8 {
        match why {
            OrderRefusal::Common(common) => refusal_number(common),
            OrderRefusal::NoType => 13,
        }
    }
}

// The counters after an order, and the position after its answer: None where it does not fit.
#[derive(Clone, Copy)]
pub struct AfterOrder {
    pub solver: Solver,
    pub next: Option<usize>,
}

// Why a run ended: the sheet is used up; a length is faulty; an answer does not fit; the sheet or the output is too long or an area too short.
#[derive(Clone, Copy, Debug, PartialEq, Eq)]
pub enum Reason {
    UsedUp = 0,
    Length = 10,
    Room = 11,
    Sizes = 12,
}

impl From<Reason> for u32 {
    ghost use Rattle.std.specs.Prelude.{◌≡◌};
    ghost use Rattle.sheet.specs.Entry.{number_of_reason};

    ghost from_gives = { λ reason number. number ≡ number_of_reason reason };

    fn from(reason: Reason) -> u32 {
        reason as u32
    }
}

// What a run returns: why it ended, how many orders it answered, and how many bytes it wrote.
#[derive(Clone, Copy)]
pub struct Report {
    pub reason: Reason,
    pub orders: u64,
    pub bytes: usize,
}

// A run that ended: what it returns, and the solver that it left.
#[derive(Clone, Copy)]
pub struct Closed {
    pub report: Report,
    pub solver: Solver,
}
