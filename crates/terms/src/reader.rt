// The term reader, which holds the bytes and the place in them, and what reads by it.
// Kinds and values that are written are lent as two slices; the lines at the head of store.rt say why.
// Bytes, levels and variables are passed apart: read.rt says why.
ghost use Rattle.std.specs.Prelude.{◌≡◌, OnErr};
ghost use Rattle.terms.specs.Words.Tokens.{area};
ghost use Rattle.terms.specs.Words.ReadContract.{Room, PartsDone, answer, kept};
ghost use Rattle.terms.specs.Words.ReaderContract.{Space, part, nodes_of};
ghost use Rattle.terms.specs.Words.ListsContract.{one_at};
ghost use Rattle.terms.specs.Words.Outcomes.{step_of};

use super::keep::settle;
use super::lists::read_record;
use super::read::{read_bare, read_term};
use super::{PartKind, Place, RecordRequest, Refusal, TermReader};

impl<'a> TermReader<'a> {
    // Reads a part of the wanted kind; then the reader stands after it, or where it is refused as it stood.
    #[inline(always)]
    fn next_part(
        &mut self,
        kinds: &mut [u32],
        vals: &mut [u32],
        wanted: PartKind,
        levels: u32,
        issued: u64,
    ) -> Result<(), Refusal>
        requires room { Room self.old.bytes.now self.old.place }
        requires space { Space wanted self.old.bytes.now self.old.place }
        ensures answer { step_of result self.new.place
            ≡ answer self.old.place (part wanted self.old.bytes.now issued levels self.old.place.at) (nodes_of wanted) }
        ensures areas { area kinds.new vals.new
            ≡ kept self.old.bytes.now self.old.place (part wanted self.old.bytes.now issued levels self.old.place.at) (nodes_of wanted)
            (area kinds.old vals.old) }
        ensures room { Room self.old.bytes.now self.new.place }
        ensures back { OnErr result (self.new.place ≡ self.old.place) }
    {
        let (s, first) = (self.bytes, self.place);
        let outcome = match wanted {
            PartKind::Term => read_term(s, kinds, vals, &mut self.place, levels, issued),
            PartKind::BareNominal => read_bare(s, kinds, vals, &mut self.place, levels, issued),
        };
        settle(
            kinds,
            vals,
            first,
            s.len() - first.at,
            outcome,
            &mut self.place,
        )
    }

    // Reads a record of a list; then the reader stands after it, or where it is refused somewhere in it.
    pub fn next_record(
        &mut self,
        kinds: &mut [u32],
        vals: &mut [u32],
        w: RecordRequest,
    ) -> Result<(), Refusal>
        requires { Room self.old.bytes.now self.old.place }
        ensures bytes { self.new.bytes ≡ self.old.bytes }
        ensures done { PartsDone self.old.bytes.now (one_at self.old.bytes.now w self.old.place.at) self.old.place
            (area kinds.old vals.old) (area kinds.new vals.new) (step_of result self.new.place) }
    {
        read_record(self.bytes, kinds, vals, &mut self.place, w)
    }
}

// Reads a term with `levels` levels left, whose variables are below `issued`; or where that is wanted a bare nominal, whose contents have as many left and
// which stands under a head with the tag 20. Where it is refused the place stays.
#[inline(always)]
pub fn part_at(
    s: &[u8],
    kinds: &mut [u32],
    vals: &mut [u32],
    place: &mut Place,
    wanted: PartKind,
    levels: u32,
    issued: u64,
) -> Result<(), Refusal>
    requires room { Room s.now place.old }
    requires space { Space wanted s.now place.old }
    ensures answer { step_of result place.new ≡ answer place.old (part wanted s.now issued levels place.old.at) (nodes_of wanted) }
    ensures areas { area kinds.new vals.new
        ≡ kept s.now place.old (part wanted s.now issued levels place.old.at) (nodes_of wanted) (area kinds.old vals.old) }
    ensures room { Room s.now place.new }
    ensures back { OnErr result (place.new ≡ place.old) }
{
    let mut reader = TermReader {
        bytes: s,
        place: place.moved(),
    };
    let outcome = reader.next_part(kinds, vals, wanted, levels, issued);
    if outcome.is_ok() {
        *place = reader.place.moved_on();
    }
    outcome
}
