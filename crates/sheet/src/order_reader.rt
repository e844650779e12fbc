// An order read: which it is, and its fields by its layout. The functions that read a field are lent the place and answer
// the field's spot; where they refuse, the place is of no use.
// Kinds and values that are written are lent as two slices: docs/DECISIONS.md, "How are the tokens lent?".
// `Ample` and `Free` are clauses: fields.rt says why.
ghost use Rattle.std.specs.Prelude.{◌≡◌, ◌-◌, ◌<◌, ◌≤◌, length, get_or};
ghost use Rattle.solver.specs.Terms.Tokens.{area, blank};
ghost use Rattle.std.proofs.Math.Option.{some};
ghost use Rattle.sheet.specs.declared.Sort.TheVariants.{Rules};
ghost use Rattle.sheet.specs.Fields.{field};
ghost use Rattle.sheet.specs.OrderTable.{row_in};
ghost use Rattle.sheet.specs.Sheet.{table};
ghost use Rattle.sheet.specs.Words.OrderKinds.{kind_row};
ghost use Rattle.sheet.specs.Words.FieldLayout.{sort_of, Free, Ample, FieldDone};
ghost use Rattle.sheet.specs.Words.FieldsContract.{field_of};
ghost use Rattle.sheet.specs.Words.OrderReaderContract.{OrderRoom, OrderDone};

use super::fields::{PlainField, next_number};
use super::layout::{FieldReader, read_layout};
use super::order_table::{known_of, layout_of};
use super::rules::read_rules;
use super::{FieldSpot, Order, OrderKind, Sort};
use solver::{Place, Refusal, Rule, Standing, byte_at, clear_tokens};

// A count and so many rules.
fn rules_field(
    s: &[u8],
    kinds: &mut [u32],
    vals: &mut [u32],
    rules: &mut [Rule],
    place: &mut Place,
    issued: u64,
) -> Result<FieldSpot, Refusal>
    requires ample { Ample s.now place.old }
    requires free { Free place.old.top (area kinds.old vals.old) }
    ensures { FieldDone s.now rules.new (field s.now issued (sort_of Rules) place.old.at) place.old
        (area kinds.old vals.old) (area kinds.new vals.new) (field_of result place.new) }
{
    let value = next_number(s, place)?;
    let first = place.top;
    read_rules(s, kinds, vals, rules, place, value, issued)?;
    Ok(FieldSpot {
        value,
        place: first,
        end: place.top,
    })
}

// A field of any sort.
pub struct AnyField;

impl FieldReader for AnyField {
    ghost read_as = { sort_of };

    fn read(
        s: &[u8],
        kinds: &mut [u32],
        vals: &mut [u32],
        rules: &mut [Rule],
        place: &mut Place,
        sort: Sort,
        issued: u64,
    ) -> Result<FieldSpot, Refusal> {
        match sort {
            Sort::Rules => rules_field(s, kinds, vals, rules, place, issued),
            _ => PlainField::read(s, kinds, vals, rules, place, sort, issued),
        }
    }
}

// Reads the fields of an order, as `read_order` tells it.
fn read_fields(
    s: &[u8],
    kinds: &mut [u32],
    vals: &mut [u32],
    rules: &mut [Rule],
    kind: OrderKind,
    x: Standing,
) -> Result<Order, Refusal>
    requires room { OrderRoom s.now kinds.old vals.old rules.old x.top x.kept x.nodes }
    requires tagged { 0 < length s.now }
    requires kinded { row_in table (get_or s.now 0 0) ≡ some (kind_row kind) }
    ensures { OrderDone s.now x.issued x.top x.kept x.nodes (area kinds.old vals.old)
        (area kinds.new vals.new) rules.new result }
{
    let mut place = Place {
        at: 1,
        top: x.top,
        nodes: x.kept,
        limit: x.nodes,
    };
    let sorts = layout_of(kind);
    let known = known_of(kind, x.issued as u64);
    let fields = read_layout::<AnyField>(s, kinds, vals, rules, &mut place, sorts, known)?;
    if place.at < s.len() {
        clear_tokens(kinds, vals, x.top, place.top - x.top);
        return Err(Refusal::Length);
    }
    Ok(Order {
        kind,
        fields,
        top: place.top,
        nodes: place.nodes,
    })
}

// Reads an order, which is all of `s`, by the counters of the session. Its tokens stand behind the session's where its nodes with those kept are within the limit,
// and its rules in `rules`. On a refusal nothing of it remains in the areas.
pub fn read_order(
    s: &[u8],
    kinds: &mut [u32],
    vals: &mut [u32],
    rules: &mut [Rule],
    x: Standing,
) -> Result<Order, Refusal>
    requires { OrderRoom s.now kinds.old vals.old rules.old x.top x.kept x.nodes }
    ensures { OrderDone s.now x.issued x.top x.kept x.nodes (area kinds.old vals.old)
        (area kinds.new vals.new) rules.new result }
{
    let kind = OrderKind::try_from(byte_at(s, 0)?)?;
    read_fields(s, kinds, vals, rules, kind, x)
}

// Clears the tokens of an order that was read from `top` on.
pub fn clear_order(kinds: &mut [u32], vals: &mut [u32], top: usize, o: Order)
    requires { top ≤ o.top }
    ensures { area kinds.new vals.new ≡ blank (area kinds.old vals.old) top (o.top - top) }
{
    clear_tokens(kinds, vals, top, o.top - top);
}
