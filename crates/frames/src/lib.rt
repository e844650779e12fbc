// What the programs that run cases share: the numbers of a frame and the bytes after them, and values that are all one.
#![tactic(auto)]

mod input;
mod numbers;
mod values;

pub use input::Input;
pub use numbers::{low_byte, number_at, number_within, put_number, read_part};
pub use values::all_are;
