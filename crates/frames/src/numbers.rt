// The numbers of a frame, four bytes each with the low byte first, and the bytes after them.
ghost use Rattle.std.specs.Prelude.{◌≡◌, ◌+◌, ◌%◌, ◌≤◌, min, length, drop};
ghost use Rattle.frames.specs.Numbers.{number_at, put_number};

/// The low byte of a number.
pub fn low_byte(x: u32) -> u8
    ensures { result ≡ x % 256 }
{
    (x % 256) as u8
}

/// The number of four bytes at `i`.
pub fn number_at(s: &[u8], i: usize) -> u32
    requires { i + 4 ≤ length s.now }
    ensures { result ≡ number_at s.now i }
{
    u32::from_le_bytes([s[i], s[i + 1], s[i + 2], s[i + 3]])
}

/// The number of four bytes at `i`, or `most` where it is greater.
pub fn number_within(s: &[u8], i: usize, most: usize) -> usize
    requires { i + 4 ≤ length s.now }
    ensures bound { result ≤ most }
    ensures value { result ≡ min (number_at s.now i) most }
{
    (number_at(s, i) as usize).min(most)
}

/// Puts a number of four bytes at `i`; of a larger one the low part.
pub fn put_number(s: &mut [u8], i: usize, v: u64)
    requires { i + 4 ≤ length s.old }
    ensures { s.new ≡ put_number s.old i v }
{
    s[i..i + 4].copy_from_slice(&v.to_le_bytes()[..4]);
}

/// Reads so many bytes of the input to the start of the part. Returns whether they are all there. Which bytes these are is the input's choice; the bytes
/// behind them stay.
pub fn read_part(part: &mut [u8], size: usize) -> bool
    requires { size ≤ length part.old }
    ensures { drop size part.new ≡ drop size part.old }
{
    io::read_full(0, &mut part[..size]) == size
}
