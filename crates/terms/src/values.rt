// Codes and numbers, which are stored as tokens of kind 0, and variables, of kind 1. The place that is lent goes on after what was read; on a refusal
// it stays.
// The bytes and the place stand apart: the lines at `Place` say why.
// Kinds and values that are written are lent as two slices; the lines at the head of store.rt say why.
// Kinds and tags are matched by number; the line in kinds.rt says why.
ghost use Rattle.std.specs.Prelude.{◌≡◌, ◌+◌, ◌≤◌, ◌<◌, ◌^◌, leb, length};
ghost use Rattle.terms.specs.Result.{said};
ghost use Rattle.terms.specs.Words.Tokens.{area, put_if};
ghost use Rattle.terms.specs.Reading.{code, rising, variable};
ghost use Rattle.terms.specs.Words.RowPieces.{fields};
ghost use Rattle.terms.specs.Words.ReadContract.{Within, Room, ValueDone, TermDone, PartsDone};
ghost use Rattle.terms.specs.Words.Outcomes.{step_of, value_of};

use super::numbers::{byte_at, read_number};
use super::store::put_token;
use super::{Fields, Place, Refusal};

// The ceilings of the numbers that name definitions and of the others.
pub const DEFINITION: u64 = 4294967295;

pub const ORDINARY: u64 = 4294967295;

// A code byte below `codes`.
fn code_at(s: &[u8], at: usize, codes: u32) -> Result<(u64, usize), Refusal>
    requires { at ≤ length s.now }
    ensures found { said result ≡ code s.now codes at }
    ensures within { Within s.now at 255 result }
{
    let b = byte_at(s, at)?;
    if u32::from(b) < codes {
        Ok((u64::from(b), at + 1))
    } else {
        Err(Refusal::Code)
    }
}

// A number of `least` to `most`.
fn number_at(s: &[u8], at: usize, most: u64, least: u64) -> Result<(u64, usize), Refusal>
    requires { at ≤ length s.now }
    ensures found { said result ≡ rising s.now most least at }
    ensures within { Within s.now at most result }
{
    let (v, next) = read_number(s, at, most)?;
    if v < least {
        return Err(Refusal::Order);
    }
    Ok((v, next))
}

// Stores a number, which was read, as a token of the kind; reading goes on at `next`.
#[inline(always)]
fn keep_number(
    kinds: &mut [u32],
    vals: &mut [u32],
    place: &mut Place,
    kind: u32,
    v: u64,
    next: usize,
)
    requires narrow { v < 2 ^ 32 }
    requires room { place.old.top + 1 < 2 ^ 64 }
    ensures place { place.new ≡ record place.old { at = next; top = place.old.top + 1 } }
    ensures areas { area kinds.new vals.new
        ≡ put_if (leb place.old.nodes place.old.limit) (area kinds.old vals.old) place.old.top kind v }
{
    if place.within_limit() {
        put_token(kinds, vals, place.top, kind, v as u32);
    }
    place.at = next;
    place.top += 1;
}

// Reads a number of `least` to `most` and stores it.
#[inline(always)]
pub fn read_value(
    s: &[u8],
    kinds: &mut [u32],
    vals: &mut [u32],
    place: &mut Place,
    most: u64,
    least: u64,
) -> Result<u64, Refusal>
    requires room { Room s.now place.old }
    requires narrow { most < 2 ^ 32 }
    ensures { ValueDone most s.now (rising s.now most least place.old.at) place.old
        (area kinds.old vals.old) (area kinds.new vals.new) (value_of result place.new) }
{
    let (v, next) = number_at(s, place.at, most, least)?;
    keep_number(kinds, vals, place, 0, v, next);
    Ok(v)
}

// Reads a code below `codes` and stores it.
#[inline(always)]
fn read_code(
    s: &[u8],
    kinds: &mut [u32],
    vals: &mut [u32],
    place: &mut Place,
    codes: u32,
) -> Result<u64, Refusal>
    requires { Room s.now place.old }
    ensures { ValueDone 255 s.now (code s.now codes place.old.at) place.old
        (area kinds.old vals.old) (area kinds.new vals.new) (value_of result place.new) }
{
    let (v, next) = code_at(s, place.at, codes)?;
    keep_number(kinds, vals, place, 0, v, next);
    Ok(v)
}

// Reads what stands before the terms of a plain row.
#[inline(always)]
pub fn read_fields(
    s: &[u8],
    kinds: &mut [u32],
    vals: &mut [u32],
    place: &mut Place,
    f: Fields,
) -> Result<(), Refusal>
    requires { Room s.now place.old }
    ensures { PartsDone s.now (fields s.now f place.old.at) place.old
        (area kinds.old vals.old) (area kinds.new vals.new) (step_of result place.new) }
{
    if let Some(codes) = f.codes {
        read_code(s, kinds, vals, place, codes)?;
    }
    if f.first {
        read_value(s, kinds, vals, place, DEFINITION, 0)?;
    }
    if f.second {
        read_value(s, kinds, vals, place, ORDINARY, 0)?;
    }
    Ok(())
}

// Reads the id of a variable, whose tag is at the position, and stores it as a token of kind 1.
pub fn read_variable(
    s: &[u8],
    kinds: &mut [u32],
    vals: &mut [u32],
    place: &mut Place,
    issued: u64,
) -> Result<(), Refusal>
    requires room { Room s.now place.old }
    requires tagged { place.old.at < length s.now }
    ensures { TermDone s.now (variable s.now issued (place.old.at + 1)) place.old
        (area kinds.old vals.old) (area kinds.new vals.new) (step_of result place.new) }
{
    let (v, next) = number_at(s, place.at + 1, ORDINARY, 0)?;
    if issued <= v {
        return Err(Refusal::Variable);
    }
    place.nodes += 1;
    keep_number(kinds, vals, place, 1, v, next);
    Ok(())
}
