// Tokens are written as they stand: sized first, then written. Kinds and values of a run are two slices, of which nothing asks that they are as long as one
// another: the programs write from such areas.
// Kinds and tags are matched by number; the line in kinds.rt says why.
// The output and the position in it stand apart: docs/DECISIONS.md, "How are the tokens lent?".
ghost use Rattle.std.specs.Prelude.{◌≡◌, ◌+◌, ◌-◌, ◌*◌, ◌^◌, ◌≤◌, ◌<◌, length};
ghost use Rattle.std.proofs.lemmas.List.Edits.{sets};
ghost use Rattle.terms.specs.Words.TokenBytes.{plain};
ghost use Rattle.terms.specs.Words.Lent.{PartOf, spelt_in};
ghost use Rattle.terms.specs.Words.RecoverContract.{put_if};

use super::numbers::{number_len, write_number};
use super::{Part, Token};

// How many bytes a token has.
pub fn token_len(x: Token) -> usize
    ensures { result ≡ length (plain x.kind x.value) }
{
    if x.kind == 0 {
        return number_len(u64::from(x.value));
    }
    if x.kind == 1 {
        return number_len(u64::from(x.value)) + 1;
    }
    1
}

// Writes a token's bytes at a position, and returns the position after them.
pub fn write_token(out: &mut [u8], at: usize, x: Token) -> usize
    requires { at + length (plain x.kind x.value) ≤ length out.old }
    ensures next { result ≡ at + length (plain x.kind x.value) }
    ensures wrote { out.new ≡ sets out.old at (plain x.kind x.value) }
{
    if x.kind == 0 {
        return write_number(out, at, u64::from(x.value));
    }
    if x.kind == 1 {
        out[at] = 1;
        return write_number(out, at + 1, u64::from(x.value));
    }
    out[at] = ((x.kind - 2) % 256) as u8;
    at + 1
}

// How many bytes the tokens of a part have; a token has at most 6.
pub fn run_len(kinds: &[u32], vals: &[u32], run: Part) -> usize
    requires { PartOf kinds.now run × PartOf vals.now run }
    ensures len { result ≡ length (spelt_in kinds.now vals.now run) }
    ensures bound { result ≤ 6 * (run.end - run.from) }
{
    let mut n = 0;
    for p in run.from..run.end {
        let x = Token {
            kind: kinds[p],
            value: vals[p],
        };
        n += token_len(x);
    }
    n
}

// Writes the tokens of a part at a position of `out`, and returns the position after them.
pub fn write_run(kinds: &[u32], vals: &[u32], run: Part, out: &mut [u8], at: usize) -> usize
    requires run { PartOf kinds.now run × PartOf vals.now run }
    requires room { at + length (spelt_in kinds.now vals.now run) ≤ length out.old }
    ensures next { result ≡ at + length (spelt_in kinds.now vals.now run) }
    ensures wrote { out.new ≡ sets out.old at (spelt_in kinds.now vals.now run) }
{
    let mut i = at;
    for p in run.from..run.end {
        let x = Token {
            kind: kinds[p],
            value: vals[p],
        };
        i = write_token(out, i, x);
    }
    i
}

// The same where the tokens fit; else nothing is written. In either case returns the position after them.
pub fn put_run(kinds: &[u32], vals: &[u32], run: Part, out: &mut [u8], at: usize) -> usize
    requires run { PartOf kinds.now run × PartOf vals.now run }
    requires room { at + 6 * (run.end - run.from) < 2 ^ 64 }
    ensures next { result ≡ at + length (spelt_in kinds.now vals.now run) }
    ensures put { out.new ≡ put_if out.old at (spelt_in kinds.now vals.now run) }
    ensures bound { (at ≤ result) × (result ≤ at + 6 * (run.end - run.from)) }
{
    // A token has at most 6 bytes.
    if at + 6 * (run.end - run.from) <= out.len() {
        return write_run(kinds, vals, run, out, at);
    }
    let n = run_len(kinds, vals, run);
    if at + n <= out.len() {
        return write_run(kinds, vals, run, out, at);
    }
    at + n
}
