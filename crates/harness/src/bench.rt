// A sheet, what it is run in, and the run.
ghost use Rattle.std.specs.Prelude.{◌≡◌, ◌≤◌, ◌%◌, ◌==◌, length, drop, replicate, take};
ghost use Rattle.std.specs.List.{list_all};
ghost use Rattle.sheet.specs.Entry.{document_limits, entry_result, number_of_reason};
ghost use Rattle.harness.specs.Run.{left_in, finish_of, is_left, run_in};

use crate::{Head, ROOM, WORDS};
use frames::{all_are, low_byte, read_part};
use sheet::{Reason, Report, run_sheet};

/// What a run returns, and whether it has left the output after its answers and the areas as it must.
#[derive(Clone, Copy)]
pub struct Outcome {
    pub report: Report,
    pub good: bool,
}

/// A sheet, and the output and the four areas that it is run in.
#[derive(Drop)]
pub struct Bench {
    pub sheet: [u8; ROOM],
    pub out: [u8; ROOM],
    pub a: [u32; WORDS],
    pub b: [u32; WORDS],
    pub c: [u32; WORDS],
    pub d: [u32; WORDS],
}

impl Bench {
    ghost use Rattle.harness.specs.Run.{run_of, is_left};

    /// Zeros.
    pub fn new() -> Bench
        ensures sheet { result.sheet ≡ replicate 32768 0 }
        ensures out { result.out ≡ replicate 32768 0 }
        ensures areas { (result.a ≡ replicate 20000 0) × (result.b ≡ replicate 20000 0) × (result.c ≡ replicate 20000 0) × (result.d ≡ replicate 20000 0) }
    {
        Bench {
            sheet: [0; ROOM],
            out: [0; ROOM],
            a: [0; WORDS],
            b: [0; WORDS],
            c: [0; WORDS],
            d: [0; WORDS],
        }
    }

    /// Reads the sheet of a frame from the input. Returns whether all of it is there. Which bytes these are is the input's choice; the bytes behind them stay.
    pub fn read_sheet(&mut self, head: &Head) -> bool
        ensures sheet { drop head.now.size self.new.sheet ≡ drop head.now.size self.old.sheet }
        ensures others { (self.new.out ≡ self.old.out)
            × (self.new.a ≡ self.old.a) × (self.new.b ≡ self.old.b) × (self.new.c ≡ self.old.c) × (self.new.d ≡ self.old.d) }
    {
        read_part(&mut self.sheet, head.size)
    }

    /// Runs the sheet, in as much of the output and of the areas as the head says, filled with what it says.
    pub fn run(&mut self, head: &Head) -> Outcome
        ensures reason { number_of_reason result.report.reason ≡ (run_of head.now self.old.sheet).reason }
        ensures orders { result.report.orders ≡ (run_of head.now self.old.sheet).orders }
        ensures bytes { result.report.bytes ≡ (run_of head.now self.old.sheet).bytes }
        ensures within { result.report.bytes ≤ head.now.room }
        ensures good { result.good ≡ is_left head.now.fill (run_of head.now self.old.sheet) }
        ensures answers { take head.now.room self.new.out ≡ (run_of head.now self.old.sheet).out }
        ensures sheet { self.new.sheet ≡ self.old.sheet }
    {
        run_part(
            &self.sheet[..head.size],
            &mut self.out,
            &mut self.a,
            &mut self.b,
            &mut self.c,
            &mut self.d,
            head,
        )
    }
}

// What the areas hold after a run: what they were filled with where nothing was run, and else 0.
fn left_in(reason: Reason, fill: u32) -> u32
    ensures { result ≡ left_in (number_of_reason reason) fill }
{
    if reason == Reason::Sizes { fill } else { 0 }
}

// Whether all words of some areas are `x`.
fn areas_are(areas: &[&[u32]], x: u32) -> bool
    ensures { result ≡ list_all (λ area. list_all (λ y. y == x) area.now) areas.now }
{
    areas.iter().all(|area| all_are(area, x))
}

// Runs a sheet. That the answers lie in the output follows by a law: without this function four goals of `run_filled` need the law, and for the one of the
// clause `good` `search` finds no proof even with it. The areas are four slices, as `run_sheet` takes them: the borrow checker does not cover a function that takes
// an array of them apart ("a place is written behind a reference that is lent, in whole or in part").
fn run_inside(
    sheet: &[u8],
    out: &mut [u8],
    a: &mut [u32],
    b: &mut [u32],
    c: &mut [u32],
    d: &mut [u32],
) -> Report
    ensures within { result.bytes ≤ length out.new }
    ensures run { finish_of result out.new a.new b.new c.new d.new
        ≡ entry_result document_limits 16384 sheet.now out.old a.old b.old c.old d.old }
{
    run_sheet(sheet, out, a, b, c, d)
}

// Runs a sheet in an output and areas that it fills. They are slices, since parts of arrays are lent.
fn run_filled(
    sheet: &[u8],
    out: &mut [u8],
    a: &mut [u32],
    b: &mut [u32],
    c: &mut [u32],
    d: &mut [u32],
    fill: u32,
) -> Outcome
    ensures within { result.report.bytes ≤ length out.new }
    ensures run { finish_of result.report out.new a.new b.new c.new d.new
        ≡ entry_result document_limits 16384 sheet.now (replicate (length out.old) (fill % 256)) (replicate (length a.old) fill)
        (replicate (length b.old) fill) (replicate (length c.old) fill) (replicate (length d.old) fill) }
    ensures good { result.good ≡ is_left fill (finish_of result.report out.new a.new b.new c.new d.new) }
{
    out.fill(low_byte(fill));
    a.fill(fill);
    b.fill(fill);
    c.fill(fill);
    d.fill(fill);
    let report = run_inside(sheet, out, a, b, c, d);
    let left = left_in(report.reason, fill);
    let good = all_are(&out[report.bytes..], low_byte(fill)) && areas_are(&[a, b, c, d], left);
    Outcome { report, good }
}

/// Runs a sheet of any length in as much of the output and of the areas as a head says, filled with what it says.
/// These are arrays, lent one by one: with a `&mut Bench` the borrow checker does not cover `&mut self.out[..n]` beside `&mut self.a[..m]` ("a field is lent as
/// `&mut` behind a reference that is lent, whole or another field behind it").
pub fn run_part(
    sheet: &[u8],
    out: &mut [u8; ROOM],
    a: &mut [u32; WORDS],
    b: &mut [u32; WORDS],
    c: &mut [u32; WORDS],
    d: &mut [u32; WORDS],
    head: &Head,
) -> Outcome
    ensures within { result.report.bytes ≤ head.now.room }
    ensures run { finish_of result.report (take head.now.room out.new) (take head.now.words a.new) (take head.now.words b.new)
        (take head.now.words c.new) (take head.now.words d.new) ≡ run_in head.now sheet.now }
    ensures good { result.good ≡ is_left head.now.fill (run_in head.now sheet.now) }
{
    run_filled(
        sheet,
        &mut out[..head.room],
        &mut a[..head.words],
        &mut b[..head.words],
        &mut c[..head.words],
        &mut d[..head.words],
        head.fill,
    )
}
