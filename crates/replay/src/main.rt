// Replays runs whose answers the oracle gave, for the executed cases. Standard input is a run of vectors. A vector is seven numbers of four bytes,
// low byte first: the room of the output, the length of the sheet, the words of each area, what output and areas are filled with before the
// run, and the wanted reason, orders and bytes of answers; then the sheet and the wanted answers. Each sheet is run, and everything is compared: what is
// told, the answers, the output after them, which is as it was, and the areas, which are all 0, or as they were under reason 12. The program
// writes how many vectors there were, how many of them differ, and the index of the first that does, which is the number of vectors where none does.
#![tactic(auto)]

use frames::{number_at, read_part};
use harness::{Bench, Head, ROOM, SHEETS};
use sheet::Report;
use std::io::Write;

// What a run tells, or is wanted to tell.
#[derive(Clone, Copy, PartialEq, Eq)]
struct Told {
    reason: u32,
    orders: u64,
    bytes: usize,
}

impl Told {
    // Reads the numbers of a vector that stand behind its head, or nothing where the input ends before.
    fn read() -> Option<Told> {
        let mut bytes = [0; 12];
        read_part(&mut bytes, 12).then(|| Told {
            reason: number_at(&bytes, 0),
            orders: u64::from(number_at(&bytes, 4)),
            bytes: number_at(&bytes, 8) as usize,
        })
    }
}

impl From<Report> for Told {
    fn from(report: Report) -> Told {
        Told {
            reason: u32::from(report.reason),
            orders: report.orders,
            bytes: report.bytes,
        }
    }
}

// Vectors, those that differ, the index of the first of these.
#[derive(Clone, Copy, Default)]
struct Tally {
    vectors: u32,
    differ: u32,
    first: Option<u32>,
}

impl Tally {
    // Counts one vector more.
    fn count(&mut self, same: bool) {
        if !same {
            self.differ = self.differ.saturating_add(1);
            self.first = self.first.or(Some(self.vectors));
        }
        self.vectors = self.vectors.saturating_add(1);
    }
}

// Replays a vector. Returns whether all is as wanted, or nothing where the input ends before the vector does.
fn replay_vector(bench: &mut Bench, answers: &mut [u8; ROOM]) -> Option<bool> {
    let head = Head::read(&mut [0; 16])?;
    let wanted = Told::read()?;
    let size = wanted.bytes.min(ROOM);
    if !bench.read_sheet(&head) || !read_part(answers, size) {
        return None;
    }
    let ran = bench.run(&head);
    Some(wanted == Told::from(ran.report) && bench.out.starts_with(&answers[..size]) && ran.good)
}

// Replays vectors until the input ends.
fn replay(bench: &mut Bench, answers: &mut [u8; ROOM]) -> Tally {
    let mut tally = Tally::default();
    for _ in 0..SHEETS {
        let Some(same) = replay_vector(bench, answers) else {
            break;
        };
        tally.count(same);
    }
    tally
}

// Writes a name and a number of ten digits. They are put into a line that has just room for them: `println!` takes a runtime, and the program would assume one
// C function more, `os::c::rattle_errno`.
fn write_line(name: &str, n: u32) {
    let mut line = [0; 19];
    let mut rest = &mut line[..];
    let _ = writeln!(rest, "{name:<8}{n:010}");
    io::write_all(1, &line);
}

fn main() {
    let mut bench = Bench::new();
    let mut answers = [0; ROOM];
    let tally = replay(&mut bench, &mut answers);
    write_line("vectors", tally.vectors);
    write_line("differ", tally.differ);
    write_line("first", tally.first.unwrap_or(tally.vectors));
}
