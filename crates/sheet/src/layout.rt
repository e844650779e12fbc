// The fields of a layout, read one after another, in a way that is given.
// `Ample` and `Free` are clauses, and the areas two slices: fields.rt says why.
ghost use Rattle.std.specs.Prelude.{◌≡◌};
ghost use Rattle.solver.specs.Terms.Tokens.{area};
ghost use Rattle.sheet.specs.declared.Sort.{Sort};
ghost use Rattle.sheet.specs.Fields.{FieldSort, field, fields};
ghost use Rattle.sheet.specs.Words.FieldLayout.{Free, Ample, Plain, Plains, IsLayout, sorts_by, FieldDone};
ghost use Rattle.sheet.specs.Words.FieldsContract.{field_of, LayoutDone};

use super::order_table::put_spot;
use super::{FieldSpot, FieldSpots, Sort};
use solver::{Place, Refusal, Rule, clear_tokens};

// A way to read a field by its sort. Rules alone are stored besides.
pub trait FieldReader {
    // What is read for a sort.
    ghost read_as: { Sort → FieldSort };

    fn read(
        s: &[u8],
        kinds: &mut [u32],
        vals: &mut [u32],
        rules: &mut [Rule],
        place: &mut Place,
        sort: Sort,
        issued: u64,
    ) -> Result<FieldSpot, Refusal>
        requires ample { Ample s.now place.old }
        requires free { Free place.old.top (area kinds.old vals.old) }
        ensures done { FieldDone s.now rules.new (field s.now issued (read_as sort) place.old.at) place.old
            (area kinds.old vals.old) (area kinds.new vals.new) (field_of result place.new) }
        ensures same { Plain (read_as sort) → rules.new ≡ rules.old };
}

// The fields of a layout; on a refusal nothing of them remains in the areas. It is taken into its two callers: apart, short scripts took 2% more instructions.
#[inline(always)]
pub fn read_layout<R: FieldReader>(
    s: &[u8],
    kinds: &mut [u32],
    vals: &mut [u32],
    rules: &mut [Rule],
    place: &mut Place,
    sorts: &[Sort],
    issued: u64,
) -> Result<FieldSpots, Refusal>
    requires ample { Ample s.now place.old }
    requires free { Free place.old.top (area kinds.old vals.old) }
    requires layout { IsLayout (sorts_by R.read_as sorts.now) }
    ensures done { LayoutDone s.now rules.new (fields s.now issued (sorts_by R.read_as sorts.now) place.old.at) place.old
        (area kinds.old vals.old) (area kinds.new vals.new) result place.new }
    ensures same { Plains (sorts_by R.read_as sorts.now) → rules.new ≡ rules.old }
{
    let first = place.top;
    let mut o = FieldSpots::default();
    for (i, sort) in sorts.iter().enumerate() {
        let last = place.top;
        match R::read(s, kinds, vals, rules, place, *sort, issued) {
            Ok(spot) => {
                o = put_spot(o, i, spot);
            }
            Err(refusal) => {
                clear_tokens(kinds, vals, first, last - first);
                return Err(refusal);
            }
        }
    }
    Ok(o)
}
