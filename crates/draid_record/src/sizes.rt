//! How many bytes the parts of a metaslab's record take.

ghost use Rattle.std.specs.Prelude.{◌≡◌, ◌+◌, ◌*◌, ◌<◌, ◌^◌, length};

use draid_dtl::Log;

/// Where the number of slots stands, in bytes: behind the front, the metaslab and the group.
pub const SLOT_COUNT_AT: u64 = 20;

/// Where the slots begin, in bytes.
pub const SLOTS_AT: u64 = 22;

/// The bytes of a block.
pub const BLOCK_BYTES: u64 = 72;

/// The bytes of an arm with this log: its kind, its number, its flags, the number of runs, and each of these.
pub fn arm_len(log: &Log) -> u64
    requires { length log.now.runs < 2 ^ 32 }
    ensures { result ≡ 14 + 16 * length log.now.runs }
{
    14 + 16 * log.runs().len() as u64
}
