// What is measured.
#[derive(Clone, Copy, Debug, PartialEq, Eq)]
pub enum Mode {
    Read,
    Write,
    Both,
}

// The mode with this number, and both for any other.
impl From<u8> for Mode {
    fn from(number: u8) -> Mode {
        match number {
            1 => Mode::Read,
            2 => Mode::Write,
            _ => Mode::Both,
        }
    }
}
