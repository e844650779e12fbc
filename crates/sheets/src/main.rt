// Runs many sheets, for the executed cases and the comparison. Standard input is a run of frames. A frame is four numbers of four bytes, low byte
// first: the room of the output, the length of the sheet, the words of each area, and what output and areas are filled with before the run;
// and then the sheet. For each frame the program writes the reason, a byte; the orders answered and the bytes of answers, four bytes each; a byte that
// is 1 where the output after the answers is as it was, and the areas are all 0, or as they were under reason 12; and the answers.
#![tactic(auto)]

use frames::{low_byte, put_number};
use harness::{Bench, Head, Outcome, SHEETS};

// What is told of a run before its answers.
fn told(ran: &Outcome) -> [u8; 10] {
    let mut told = [0; 10];
    told[0] = low_byte(u32::from(ran.report.reason));
    put_number(&mut told, 1, ran.report.orders);
    put_number(&mut told, 5, ran.report.bytes as u64);
    told[9] = u8::from(ran.good);
    told
}

// Answers a frame. Returns whether there was one.
fn answer_frame(bench: &mut Bench) -> bool {
    let Some(head) = Head::read(&mut [0; 16]) else {
        return false;
    };
    if !bench.read_sheet(&head) {
        return false;
    }
    let ran = bench.run(&head);
    io::write_all(1, &told(&ran));
    io::write_all(1, &bench.out[..ran.report.bytes]);
    true
}

fn main() {
    let mut bench = Bench::new();
    for _ in 0..SHEETS {
        if !answer_frame(&mut bench) {
            break;
        }
    }
}
