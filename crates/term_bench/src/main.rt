// Reads or writes one term many times, for a measurement. Standard input is a mode (1 read, 2 write, 3 both), a repeat count of four bytes, low
// byte first, and the bytes of a term. What is printed, the tokens read and the bytes written of all turns, shows that the work was done.
// Kinds and values are lent as two slices: docs/DECISIONS.md, "How are the tokens lent?".
#![tactic(auto)]

ghost use Rattle.std.specs.Prelude.{◌≤◌, length, IfSome};

mod mode;

use frames::{Input, number_at};
use mode::Mode;
use terms::{LEVELS, NODES, Part, PartKind, Place, clear_tokens, part_at, run_len, write_run};

// Reads the term. Returns how many tokens stand in the areas, or nothing where it is refused, or has more than there is space for.
fn read_once(input: Input, kinds: &mut [u32], vals: &mut [u32]) -> Option<usize>
    ensures { IfSome result (λ tokens. (tokens ≤ length kinds.new) × (tokens ≤ length vals.new)) }
{
    let mut place = Place {
        at: 0,
        top: 0,
        nodes: 0,
        limit: NODES,
    };
    part_at(
        input.bytes,
        kinds,
        vals,
        &mut place,
        PartKind::Term,
        LEVELS,
        0,
    )
    .ok()?;
    if kinds.len().min(vals.len()) < place.top {
        return None;
    }
    Some(place.top)
}

// Writes the tokens. Returns how many bytes they have, or nothing where there is no space for them. Kinds and values are two slices, as `run_len` and `write_run`
// take them: each holds as many tokens as were read, and nothing asks that the slices are as long as one another.
fn write_once(kinds: &[u32], vals: &[u32], tokens: usize, out: &mut [u8]) -> Option<usize>
    requires { (tokens ≤ length kinds.now) × (tokens ≤ length vals.now) }
{
    let run = Part {
        from: 0,
        end: tokens,
    };
    let size = run_len(kinds, vals, run);
    if out.len() < size {
        return None;
    }
    Some(write_run(kinds, vals, run, out, 0))
}

// Reads the term `count` times, and clears what was read each time.
fn reads(input: Input, kinds: &mut [u32], vals: &mut [u32], count: u32) -> u64 {
    let mut sum: u64 = 0;
    for _ in 0..count {
        if let Some(tokens) = read_once(input, kinds, vals) {
            clear_tokens(kinds, vals, 0, tokens);
            sum = sum.wrapping_add(tokens as u64);
        }
    }
    sum
}

// Writes the tokens `count` times.
fn writes(kinds: &[u32], vals: &[u32], tokens: usize, out: &mut [u8], count: u32) -> u64
    requires { (tokens ≤ length kinds.now) × (tokens ≤ length vals.now) }
{
    let mut sum: u64 = 0;
    for _ in 0..count {
        if let Some(size) = write_once(kinds, vals, tokens, out) {
            sum = sum.wrapping_add(size as u64);
        }
    }
    sum
}

// The measurement that the input asks for.
fn measure(input: Input, kinds: &mut [u32], vals: &mut [u32], out: &mut [u8]) -> u64 {
    let s = input.bytes;
    if s.len() < 5 {
        return 0;
    }
    let mode = Mode::from(s[0]);
    let count = number_at(s, 1);
    let term = Input { bytes: &s[5..] };
    let read = match mode {
        Mode::Write => 0,
        Mode::Read | Mode::Both => reads(term, kinds, vals, count),
    };
    let Some(tokens) = read_once(term, kinds, vals) else {
        return read;
    };
    let written = match mode {
        Mode::Read => 0,
        Mode::Write | Mode::Both => writes(kinds, vals, tokens, out, count),
    };
    read.wrapping_add(written)
}

fn main() {
    let mut input = [0u8; 32768];
    let mut out = [0u8; 32768];
    let mut kinds = [0u32; 16384];
    let mut vals = [0u32; 16384];
    let n = io::read_full(0, &mut input);
    let input = Input { bytes: &input[..n] };
    let sum = measure(input, &mut kinds, &mut vals, &mut out);
    io::print_decimal(1, sum);
}
