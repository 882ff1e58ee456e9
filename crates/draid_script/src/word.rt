ghost use Rattle.std.specs.Prelude.{◌+◌, ◌^◌, ◌<◌, length};

/// A word of a line.
#[derive(Clone, Copy)]
pub struct Word<'a> {
    pub text: &'a [u8],
    /// The place of its first byte in the line.
    pub at: u64,
    ghost fits: { at + length text.now < 2 ^ 64 },
}
