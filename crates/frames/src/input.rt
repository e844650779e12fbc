// What standard input holds.
ghost use Rattle.std.specs.Prelude.{◌<◌, length};

/// Bytes of the input, which are few: `part_at` of `terms` asks that there is a number of 32 bits for each, and, for a bare nominal, room for a token more.
#[derive(Clone, Copy)]
pub struct Input<'a> {
    pub bytes: &'a [u8],
    ghost few: { length bytes.now < 65536 },
}
