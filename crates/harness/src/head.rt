// The head of a frame.
ghost use Rattle.std.specs.Prelude.{◌≡◌, ◌≤◌, min};
ghost use Rattle.frames.specs.Numbers.{number_at};

use crate::{ROOM, WORDS};
use frames::{number_at, number_within, read_part};

/// What the head of a frame says: the bytes of the output, those of the sheet, the words of each area, and what output and areas are filled with.
#[derive(Clone, Copy)]
pub struct Head {
    pub room: usize,
    pub size: usize,
    pub words: usize,
    pub fill: u32,
    ghost room_bound: { room ≤ 32768 },
    ghost size_bound: { size ≤ 32768 },
    ghost words_bound: { words ≤ 20000 },
}

impl From<[u8; 16]> for Head {
    ghost use Rattle.harness.specs.Head.{IsHeadOf};

    ghost from_gives = { λ bytes head. IsHeadOf head bytes };

    fn from(bytes: [u8; 16]) -> Head {
        Head {
            room: number_within(&bytes, 0, ROOM),
            size: number_within(&bytes, 4, ROOM),
            words: number_within(&bytes, 8, WORDS),
            fill: number_at(&bytes, 12),
        }
    }
}

impl Head {
    ghost use Rattle.harness.specs.Head.{HeadRead};

    /// Reads sixteen bytes of the input and hands back the head that they are, or nothing where the input ends before. Which bytes these are is the input's
    /// choice.
    pub fn read(bytes: &mut [u8; 16]) -> Option<Head>
        ensures { HeadRead result bytes.new }
    {
        if !read_part(bytes, 16) {
            return None;
        }
        Some(Head::from(*bytes))
    }
}
