ghost use Rattle.std.specs.Prelude.{◌≡◌};
ghost use Rattle.draid_names.specs.Numbers as numbers;

/// Writes, transaction groups, passes, leaves and stripes have numbers below this.
pub const NUMBERS: u64 = 1 << 48;

/// The last number of a write, a transaction group, a pass or a leaf.
pub const LAST_NUMBER: u64 = (1 << 48) - 1;

/// Objects have numbers below this.
pub const OBJECTS: u64 = 1 << 32;

/// The most bytes of a block.
pub const LONGEST_BLOCK: u64 = 131_072;

/// The most bytes of a line of a script.
pub const LONGEST_LINE: usize = 300_000;

/// How many blocks and tickets a metaslab may hold, by the version of the pool's format.
pub fn most_held(version: u32) -> usize
    ensures { result ≡ numbers.most_held version }
{
    if version == 1 { 4096 } else { 8192 }
}
