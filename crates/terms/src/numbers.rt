// Numbers of the byte form: base 128, low group first, shortest form only.
// Bytes and a position in them stand apart: where a caller goes on from it, the position is in a `Place`, and the lines there say why it does not hold the bytes.
ghost use Rattle.std.specs.Prelude.{◌≡◌, ◌+◌, ◌≤◌, ◌<◌, length, get_or, MatchResult};
ghost use Rattle.terms.specs.declared.Refusal.TheVariants.{Length};
ghost use Rattle.std.proofs.lemmas.List.Edits.{sets};
ghost use Rattle.terms.specs.Result.{said};
ghost use Rattle.terms.specs.Number.{number, shortest};

use super::Refusal;

// The byte at a position of s.
#[inline(always)]
pub fn byte_at(s: &[u8], at: usize) -> Result<u8, Refusal>
    ensures { MatchResult result (λ b. (at < length s.now) × (b ≡ get_or s.now at 0)) (λ e. (length s.now ≤ at) × (e ≡ Length)) }
{
    s.get(at).copied().ok_or(Refusal::Length)
}

// The number at a position of s, at most `most`, group by group.
fn read_groups(s: &[u8], at: usize, most: u64) -> Result<(u64, usize), Refusal>
    ensures { said result ≡ number most s.now at }
{
    let mut v: u64 = 0;
    let mut w: u64 = 1;
    for i in at..s.len() {
        let b = u64::from(s[i]);
        if (most - v) / w < b {
            return Err(Refusal::Number);
        }
        if b < 128 {
            if b == 0 && 1 < w {
                return Err(Refusal::Number);
            }
            return Ok((v + b * w, i + 1));
        }
        v += (b - 128) * w;
        w *= 128;
    }
    Err(Refusal::Length)
}

// The number at a position of s, at most `most`. Most numbers have one group.
pub fn read_number(s: &[u8], at: usize, most: u64) -> Result<(u64, usize), Refusal>
    ensures { said result ≡ number most s.now at }
{
    let b = u64::from(byte_at(s, at)?);
    if 128 <= b {
        return read_groups(s, at, most);
    }
    if most < b {
        return Err(Refusal::Number);
    }
    Ok((b, at + 1))
}

// How many bytes the shortest form of a number has.
pub fn number_len(value: u64) -> usize
    ensures { result ≡ length (shortest value) }
{
    let mut v = value;
    let mut n: usize = 1;
    // What is left is divided; how many groups there are is not known.
    while 128 <= v {
        v /= 128;
        n += 1;
    }
    n
}

// Writes the shortest form of a number at a position, and returns the position after it.
pub fn write_number(out: &mut [u8], at: usize, value: u64) -> usize
    requires { at + length (shortest value) ≤ length out.old }
    ensures next { result ≡ at + length (shortest value) }
    ensures wrote { out.new ≡ sets out.old at (shortest value) }
{
    let mut v = value;
    let mut i = at;
    // What is left is divided; how many groups there are is not known.
    while 128 <= v {
        out[i] = (v % 128 + 128) as u8;
        v /= 128;
        i += 1;
    }
    out[i] = (v % 256) as u8;
    i + 1
}
