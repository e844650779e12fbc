// Words as halves, two numbers below 65,536 to a word, the low one first.
ghost use Rattle.std.specs.Prelude.{◌≡◌, ◌<◌, length, get_or, set};
ghost use Rattle.solver.specs.Words.Halves.{halves};

// The half at i, by one shift.
pub fn half_at(words: &[u32], i: usize) -> usize
    requires { i < length (halves words.now) }
    ensures { result ≡ get_or (halves words.now) i 0 }
{
    let word = words[i / 2];
    let moved = word >> (16 * (i % 2) as u32);
    (moved % 65536) as usize
}

// Sets the half at i, which is 0, to x, which is below 65,536. The other half of the word stays, since a sum does.
pub fn fill_half(words: &mut [u32], i: usize, x: usize)
    requires { (i < length (halves words.old)) × (get_or (halves words.old) i 0 ≡ 0) × (x < 65536) }
    ensures { halves words.new ≡ set (halves words.old) i x }
{
    let half = x as u32;
    let added = if i % 2 == 0 { half } else { half * 65536 };
    words[i / 2] += added;
}
