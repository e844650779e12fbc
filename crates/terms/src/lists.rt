// The lists of an order that are stored: entries, receivers and arguments. A term reader goes from record to record; each list is kept whole, or nothing
// of it remains.
// Kinds and values that are written are lent as two slices; the lines at the head of store.rt say why.
// Bytes, levels and variables are passed apart: read.rt says why.
ghost use Rattle.std.specs.Prelude.{◌≡◌, OnErr};
ghost use Rattle.terms.specs.Words.Tokens.{area};
ghost use Rattle.terms.specs.Words.ReadContract.{Room, PartsDone};
ghost use Rattle.terms.specs.Words.Outcomes.{step_of};
ghost use Rattle.terms.specs.Words.ListsContract.{one_at, list_at, ListKept};
ghost use Rattle.terms.specs.Rows.{answer_of, kept_of};

use super::keep::settle;
use super::read::read_term;
use super::values::{DEFINITION, ORDINARY, read_value};
use super::{Listing, Place, RecordRequest, Refusal, TermReader};

// Reads a record: an owner and a position, where the list has them, and a term.
pub fn read_record(
    s: &[u8],
    kinds: &mut [u32],
    vals: &mut [u32],
    place: &mut Place,
    w: RecordRequest,
) -> Result<(), Refusal>
    requires { Room s.now place.old }
    ensures { PartsDone s.now (one_at s.now w place.old.at) place.old
        (area kinds.old vals.old) (area kinds.new vals.new) (step_of result place.new) }
{
    if w.listing.has_owner() {
        read_value(s, kinds, vals, place, DEFINITION, 0)?;
    }
    if w.listing.has_position() {
        read_value(s, kinds, vals, place, ORDINARY, 0)?;
    }
    read_term(s, kinds, vals, place, w.levels, w.issued)
}

// Reads `count` records, by one reader that goes from one to the next.
fn read_records(
    s: &[u8],
    kinds: &mut [u32],
    vals: &mut [u32],
    place: &mut Place,
    w: RecordRequest,
    count: u64,
) -> Result<(), Refusal>
    requires { Room s.now place.old }
    ensures { PartsDone s.now (list_at s.now w count place.old.at) place.old
        (area kinds.old vals.old) (area kinds.new vals.new) (step_of result place.new) }
{
    let start = place.moved();
    let mut reader = TermReader {
        bytes: s,
        place: start,
    };
    for _ in 0..count {
        reader.next_record(kinds, vals, w)?;
    }
    let end = reader.place.moved();
    *place = end;
    Ok(())
}

// Reads `count` records and keeps them. `next_part` of reader.rt does as much for a term; what is found here is a row and no term, so that its answer and what
// is kept are told by `answer_of` and `kept_of`, and the two share `settle`.
fn keep_records(
    s: &[u8],
    kinds: &mut [u32],
    vals: &mut [u32],
    place: &mut Place,
    w: RecordRequest,
    count: u64,
) -> Result<(), Refusal>
    requires { Room s.now place.old }
    ensures answer { step_of result place.new ≡ answer_of (λ ps. ps) place.old (list_at s.now w count place.old.at) }
    ensures areas { area kinds.new vals.new
        ≡ kept_of (λ ps. ps) s.now place.old (list_at s.now w count place.old.at) (area kinds.old vals.old) }
    ensures room { Room s.now place.new }
    ensures back { OnErr result (place.new ≡ place.old) }
{
    let first = place.moved();
    let outcome = read_records(s, kinds, vals, place, w, count);
    settle(kinds, vals, first, s.len() - first.at, outcome, place)
}

// Reads a list of `count` records, whose terms have `levels` levels left and variables below `issued`. Where it is refused the place stays. The request is made
// here: the one that calls it, in the sheet, has its parts and would make it for the call.
pub fn keep_list(
    s: &[u8],
    kinds: &mut [u32],
    vals: &mut [u32],
    place: &mut Place,
    listing: Listing,
    levels: u32,
    issued: u64,
    count: u64,
) -> Result<(), Refusal>
    requires { Room s.now place.old }
    ensures list { ListKept listing s.now issued levels count place.old (area kinds.old vals.old) (area kinds.new vals.new)
        (step_of result place.new) }
    ensures room { Room s.now place.new }
    ensures back { OnErr result (place.new ≡ place.old) }
{
    let w = RecordRequest {
        listing,
        levels,
        issued,
    };
    keep_records(s, kinds, vals, place, w, count)
}
