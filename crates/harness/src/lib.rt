// A sheet run in an output and areas that are filled before it and looked at after it, as the head of a frame says.
#![tactic(auto)]

mod bench;
mod head;

pub use bench::{Bench, Outcome, run_part};
pub use head::Head;

/// The bytes of a sheet and of its output, at most.
pub const ROOM: usize = 32768;

/// The words of an area, at most.
pub const WORDS: usize = 20000;

/// The sheets that a program runs, at most.
pub const SHEETS: u32 = 4000000000;
