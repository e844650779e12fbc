// The record of chains, read out after every order of sheets and worked out afresh. Standard input is a run of frames: the length of a sheet, four bytes with
// the low byte first, and the sheet, of at most 32,768 bytes. The orders of each are served one by one, as a call serves them, with what the last sheet has left
// in the areas; after each the words of the areas are looked at (record.rt). The program writes how many sheets there were, how many orders were served, how
// many chains were looked at, how many of them have a binding, how many tails have the bit, after how many orders something was wrong, and the index of the
// sheet of the first of these, which is the number of sheets where there is none.
#![tactic(auto)]

mod record;
mod serving;

use frames::{number_within, read_part};
use serving::{Areas, ROOM};
use std::io::Write;

// Sheets, at most.
const SHEETS: u32 = 4000000000;

// What was seen of sheets.
#[derive(Clone, Copy, Default)]
pub struct Tally {
    pub sheets: u32,
    pub orders: u32,
    pub chains: u32,
    pub bound: u32,
    pub shared: u32,
    pub wrong: u32,
    pub first: Option<u32>,
}

// Reads a sheet. Returns its length, or nothing where the input ends before.
fn read_sheet(sheet: &mut [u8; ROOM]) -> Option<usize> {
    let mut head = [0; 4];
    if !read_part(&mut head, 4) {
        return None;
    }
    let size = number_within(&head, 0, ROOM);
    read_part(sheet, size).then_some(size)
}

// Writes a name and a number of ten digits, into a line that has just room for them.
fn write_line(name: &str, n: u32) {
    let mut line = [0; 19];
    let mut rest = &mut line[..];
    let _ = writeln!(rest, "{name:<8}{n:010}");
    io::write_all(1, &line);
}

fn main() {
    let mut sheet = [0; ROOM];
    let mut areas = Areas::new();
    let mut tally = Tally::default();
    for _ in 0..SHEETS {
        let Some(size) = read_sheet(&mut sheet) else {
            break;
        };
        areas.serve(&sheet, size, &mut tally);
        tally.sheets = tally.sheets.saturating_add(1);
    }
    write_line("sheets", tally.sheets);
    write_line("orders", tally.orders);
    write_line("chains", tally.chains);
    write_line("bound", tally.bound);
    write_line("shared", tally.shared);
    write_line("wrong", tally.wrong);
    write_line("first", tally.first.unwrap_or(tally.sheets));
}
