// The fields of an order, rules aside: each is read and its tokens kept. A reading function is lent the place and answers the field's spot; where it refuses,
// the place is of no use.
// The bytes and the place stand apart: what is lent a reader of both changed has to say that its bytes are the same, a clause for each `Ample`. `Free` speaks of
// the areas besides, which are lent changed as two slices (docs/DECISIONS.md, "How are the tokens lent?"). The sort and the variables issued stand apart, too:
// these are the same for all fields of an order, and `RecordRequest` of terms, which has them, tells of no sort.
ghost use Rattle.std.specs.Prelude.{◌≡◌, List, ℕ, ◌≤◌, length};
ghost use Rattle.solver.specs.TermTypes.{Rule};
ghost use Rattle.solver.specs.Terms.Tokens.{area};
ghost use Rattle.solver.specs.Terms.Outcomes.{step_of};
ghost use Rattle.sheet.specs.Fields.{field, ordinary, code, bound, parameters};
ghost use Rattle.sheet.specs.Words.FieldLayout.{plain_of, part_of, listing_of, Free, Ample, PartDone, PlainDone, ReadOnly, list_field};
ghost use Rattle.sheet.specs.Words.FieldsContract.{field_of, NumberRead};

use super::layout::FieldReader;
use super::{FieldSpot, Sort};
use solver::{
    LEVELS, Listing, ORDINARY, Parameters, PartKind, Place, Refusal, Rule, byte_at, keep_list,
    part_at, read_number,
};

// A number of 32 bits; where it is refused the place stays.
pub fn next_number(s: &[u8], place: &mut Place) -> Result<u64, Refusal>
    ensures { NumberRead s.now place.old result place.new }
{
    let (value, next) = read_number(s, place.at, ORDINARY)?;
    place.at = next;
    Ok(value)
}

// The spot of a number.
fn number_spot(value: u64) -> FieldSpot
    ensures { result ≡ record { value = value; place = 0; end = 0 } }
{
    FieldSpot {
        value,
        ..FieldSpot::default()
    }
}

// A number.
fn number_field(s: &[u8], place: &mut Place) -> Result<FieldSpot, Refusal>
    requires { place.old.at ≤ length s.now }
    ensures { ReadOnly s.now (field s.now 0 ordinary place.old.at) place.old (field_of result place.new) }
{
    let value = next_number(s, place)?;
    Ok(number_spot(value))
}

// A builtin's code.
fn code_field(s: &[u8], place: &mut Place) -> Result<FieldSpot, Refusal>
    requires { place.old.at ≤ length s.now }
    ensures { ReadOnly s.now (field s.now 0 code place.old.at) place.old (field_of result place.new) }
{
    let c = byte_at(s, place.at)?;
    if 32 <= c {
        return Err(Refusal::Code);
    }
    place.at += 1;
    Ok(number_spot(u64::from(c)))
}

// A bound of a range: its sign, which may be any byte, and its size.
fn bound_field(s: &[u8], place: &mut Place) -> Result<FieldSpot, Refusal>
    requires { place.old.at ≤ length s.now }
    ensures { ReadOnly s.now (field s.now 0 bound place.old.at) place.old (field_of result place.new) }
{
    let sign = usize::from(byte_at(s, place.at)?);
    place.at += 1;
    let high = next_number(s, place)?;
    let low = next_number(s, place)?;
    Ok(FieldSpot {
        value: high * 4294967296 + low,
        place: sign,
        end: 0,
    })
}

// A count and so many parameters: they stay in the bytes.
fn parameters_field(s: &[u8], place: &mut Place) -> Result<FieldSpot, Refusal>
    requires { place.old.at ≤ length s.now }
    ensures { ReadOnly s.now (field s.now 0 parameters place.old.at) place.old (field_of result place.new) }
{
    let value = next_number(s, place)?;
    let start = place.at;
    let parameters = Parameters {
        bytes: s,
        at: start,
        count: value,
    };
    place.at = parameters.skip()?;
    Ok(FieldSpot {
        value,
        place: start,
        end: 0,
    })
}

// The list that a sort has: entries, arguments, else receivers, as `part_of` of the definition tells it. It is asked of a receiver, of lists and of rules, which
// `PlainField` is not asked for. It is no `From`: of most sorts it is not asked.
fn listing_of(sort: Sort) -> Listing
    ensures { result ≡ listing_of sort }
{
    match sort {
        Sort::Entries => Listing::Entries,
        Sort::Arguments => Listing::Arguments,
        _ => Listing::Receivers,
    }
}

// The tokens of a term, of a nominal, or of `count` entries, receivers or arguments. Terms and nominals share a call, which is taken in: with one for each, order
// 11 on small terms, which is at the bar of twice the Rust's speed, took 1.1% more instructions, and the bar's session 2.6%.
#[inline(never)]
fn keep_part(
    s: &[u8],
    kinds: &mut [u32],
    vals: &mut [u32],
    place: &mut Place,
    sort: Sort,
    issued: u64,
    count: u64,
) -> Result<(), Refusal>
    requires ample { Ample s.now place.old }
    requires free { Free place.old.top (area kinds.old vals.old) }
    ensures { (ws : List Rule)
        → PartDone s.now ws count (part_of s.now issued sort count place.old.at) place.old
        (area kinds.old vals.old) (area kinds.new vals.new) (step_of result place.new) }
{
    let wanted = match sort {
        Sort::Term => PartKind::Term,
        Sort::Nominal => PartKind::BareNominal,
        _ => {
            let listing = listing_of(sort);
            return keep_list(s, kinds, vals, place, listing, LEVELS, issued, count);
        }
    };
    part_at(s, kinds, vals, place, wanted, LEVELS, issued)
}

// What `keep_part` keeps, with its spot.
fn tree_field(
    s: &[u8],
    kinds: &mut [u32],
    vals: &mut [u32],
    place: &mut Place,
    sort: Sort,
    issued: u64,
    count: u64,
) -> Result<FieldSpot, Refusal>
    requires ample { Ample s.now place.old }
    requires free { Free place.old.top (area kinds.old vals.old) }
    ensures { PlainDone s.now (part_of s.now issued sort count place.old.at) place.old
        (area kinds.old vals.old) (area kinds.new vals.new) (field_of result place.new) }
{
    let first = place.top;
    keep_part(s, kinds, vals, place, sort, issued, count)?;
    Ok(FieldSpot {
        value: count,
        place: first,
        end: place.top,
    })
}

// A count and so many entries, receivers or arguments.
fn list_field(
    s: &[u8],
    kinds: &mut [u32],
    vals: &mut [u32],
    place: &mut Place,
    sort: Sort,
    issued: u64,
) -> Result<FieldSpot, Refusal>
    requires ample { Ample s.now place.old }
    requires free { Free place.old.top (area kinds.old vals.old) }
    ensures { PlainDone s.now (list_field s.now issued sort place.old.at) place.old
        (area kinds.old vals.old) (area kinds.new vals.new) (field_of result place.new) }
{
    let count = next_number(s, place)?;
    tree_field(s, kinds, vals, place, sort, issued, count)
}

// A field of a sort other than rules; these would be taken for receivers.
pub fn read_plain(
    s: &[u8],
    kinds: &mut [u32],
    vals: &mut [u32],
    place: &mut Place,
    sort: Sort,
    issued: u64,
) -> Result<FieldSpot, Refusal>
    requires ample { Ample s.now place.old }
    requires free { Free place.old.top (area kinds.old vals.old) }
    ensures { PlainDone s.now (field s.now issued (plain_of sort) place.old.at) place.old
        (area kinds.old vals.old) (area kinds.new vals.new) (field_of result place.new) }
{
    match sort {
        Sort::Number => number_field(s, place),
        Sort::Code => code_field(s, place),
        Sort::Bound => bound_field(s, place),
        Sort::Parameters => parameters_field(s, place),
        Sort::Term | Sort::Nominal | Sort::Receiver => {
            tree_field(s, kinds, vals, place, sort, issued, 1)
        }
        Sort::Entries | Sort::Receivers | Sort::Arguments | Sort::Rules => {
            list_field(s, kinds, vals, place, sort, issued)
        }
    }
}

// A field that `read_plain` reads.
pub struct PlainField;

impl FieldReader for PlainField {
    ghost read_as = { plain_of };

    fn read(
        s: &[u8],
        kinds: &mut [u32],
        vals: &mut [u32],
        rules: &mut [Rule],
        place: &mut Place,
        sort: Sort,
        issued: u64,
    ) -> Result<FieldSpot, Refusal> {
        read_plain(s, kinds, vals, place, sort, issued)
    }
}
