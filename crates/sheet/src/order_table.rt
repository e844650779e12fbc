// The table of orders as the code has it, and the fields of an order put in their places.
ghost use Rattle.std.specs.Prelude.{◌≡◌};
ghost use Rattle.sheet.specs.OrderTable.{layout, known};
ghost use Rattle.sheet.specs.Words.OrderKinds.{kind_row, KindTold};
ghost use Rattle.sheet.specs.Words.FieldLayout.{sorts_of, put_spot};

use super::Sort::{
    Arguments, Bound, Code, Entries, Nominal, Number, Parameters, Receiver, Receivers, Rules, Term,
};
use super::{FieldSpot, FieldSpots, Operation, OrderKind, Sort, TermlessKind};
use solver::{Access, Refusal};

// THE NUMBERS OF ORDERS.
impl TryFrom<u8> for OrderKind {
    type Error = Refusal;

    ghost try_from_gives = { KindTold };

    #[tactic(auto, unfolding(crate::specs::Sheet::table, crate::specs::OrderTable::session_orders, crate::specs::OrderTable::row_in, crate::specs::Operations::operations))]
    fn try_from(number: u8) -> Result<Self, Refusal> {
        match number {
            0 => Ok(OrderKind::Termless(TermlessKind::Variable)),
            1 => Ok(OrderKind::Termless(TermlessKind::NumberVariable)),
            2 => Ok(OrderKind::Termless(TermlessKind::AnnotationHole)),
            3 => Ok(OrderKind::DeferNever),
            4 => Ok(OrderKind::Constrain(Access::Ignored)),
            5 => Ok(OrderKind::Resolve),
            6 => Ok(OrderKind::Termless(TermlessKind::NumericDefaults)),
            7 => Ok(OrderKind::Termless(TermlessKind::NeverDefaults)),
            8 => Ok(OrderKind::Termless(TermlessKind::Revision)),
            9 => Ok(OrderKind::Operation(Operation::Conflicts)),
            10 => Ok(OrderKind::Operation(Operation::Weakens)),
            11 => Ok(OrderKind::Operation(Operation::Recover)),
            12 => Ok(OrderKind::Operation(Operation::Instantiate)),
            13 => Ok(OrderKind::Operation(Operation::ArgumentContext)),
            14 => Ok(OrderKind::Operation(Operation::WithSelf)),
            15 => Ok(OrderKind::Operation(Operation::Questions)),
            16 => Ok(OrderKind::Operation(Operation::ResolvedIn)),
            17 => Ok(OrderKind::Operation(Operation::Satisfied)),
            18 => Ok(OrderKind::Operation(Operation::Family)),
            19 => Ok(OrderKind::Operation(Operation::WithAssociatedTypes)),
            20 => Ok(OrderKind::Operation(Operation::Normalise)),
            21 => Ok(OrderKind::Termless(TermlessKind::RangeVariable)),
            22 => Ok(OrderKind::Constrain(Access::Compared)),
            _ => Err(Refusal::Code),
        }
    }
}

// THE LAYOUTS OF ORDERS: the sorts of the fields in their order.
#[tactic(auto, unfolding(crate::specs::OrderTable::layout, crate::specs::Words::FieldLayout::sort_of))]
pub fn layout_of(kind: OrderKind) -> &'static [Sort]
    ensures { sorts_of result.now ≡ layout (kind_row kind) }
{
    match kind {
        OrderKind::Termless(TermlessKind::Variable) => &[Number, Number],
        OrderKind::Termless(TermlessKind::NumberVariable) => &[Number, Code],
        OrderKind::Termless(TermlessKind::AnnotationHole) => &[Number],
        OrderKind::Termless(TermlessKind::NumericDefaults) => &[],
        OrderKind::Termless(TermlessKind::NeverDefaults) => &[],
        OrderKind::Termless(TermlessKind::Revision) => &[],
        OrderKind::Termless(TermlessKind::RangeVariable) => &[Number, Code, Bound, Bound],
        OrderKind::DeferNever => &[Term],
        OrderKind::Constrain(_) => &[Number, Term, Term],
        OrderKind::Resolve => &[Term],
        OrderKind::Operation(Operation::Conflicts) => &[Term, Term],
        OrderKind::Operation(Operation::Weakens) => &[Term, Term],
        OrderKind::Operation(Operation::Recover) => &[Term, Term],
        OrderKind::Operation(Operation::Instantiate) => &[Entries, Receivers, Term],
        OrderKind::Operation(Operation::ArgumentContext) => {
            &[Entries, Receivers, Parameters, Term]
        }
        OrderKind::Operation(Operation::WithSelf) => &[Receiver, Term],
        OrderKind::Operation(Operation::Questions) => &[Term],
        OrderKind::Operation(Operation::ResolvedIn) => &[Parameters, Term],
        OrderKind::Operation(Operation::Satisfied) => &[Nominal, Nominal, Term],
        OrderKind::Operation(Operation::Family) => {
            &[Parameters, Term, Entries, Receivers, Arguments]
        }
        OrderKind::Operation(Operation::WithAssociatedTypes) => &[Term, Nominal, Term],
        OrderKind::Operation(Operation::Normalise) => &[Rules, Term],
    }
}

// Orders of the session name variables that are issued, the others any.
#[tactic(auto, unfolding(crate::specs::OrderTable::known))]
pub fn known_of(kind: OrderKind, issued: u64) -> u64
    ensures { result ≡ known (kind_row kind) issued }
{
    match kind {
        OrderKind::Operation(_) => 4294967296,
        _ => issued,
    }
}

// The fields with another spot for the i-th.
pub fn put_spot(mut o: FieldSpots, i: usize, x: FieldSpot) -> FieldSpots
    ensures { result ≡ put_spot i x o }
{
    match i {
        0 => o.first = x,
        1 => o.second = x,
        2 => o.third = x,
        3 => o.fourth = x,
        4 => o.fifth = x,
        _ => {}
    }
    o
}
