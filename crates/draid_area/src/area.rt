ghost use Rattle.std.specs.Prelude.{◌≡◌, ◌≤◌, ◌+◌, max, ℕ, Option, OnOk, OnErr, IsErrOf, length, option_map};
ghost use Rattle.draid_area.specs.Area.{Content, Reads, Writes, Counts, OnTold, IsOrderly, IsOfSize, flushes, waits};
ghost use Rattle.draid_area.specs.Moments.{ElapsesTold};

use draid_names::DeviceFault;

/// A list of bytes that can be overwritten and grown, but not shortened.
///
/// A call raises the area's clock before it changes a byte. That is what is trusted of a real device, so
/// that a state in the middle of a write counts as one after it began.
pub trait Area: Drop {
    ghost use Rattle.draid_names.specs.declared.fault.DeviceFault.{DeviceFault};

    /// How many bytes the area has.
    ghost size: { Self → ℕ };

    /// How often the calls have failed. The count stands still at 2^64 - 1.
    ghost faults: { Self → ℕ };

    /// The bytes, which of them are soft, and the clocks, where the area tells it.
    ghost told: { Self → Option Content };

    /// How many bytes the area has.
    fn length(&self) -> u64
        ensures { result ≡ size self.now };

    /// Reads the bytes from `at` on that fill `into`.
    fn read(&mut self, at: u64, into: &mut [u8]) -> Result<(), DeviceFault>
        requires place { at + length into.old ≤ size self.old }
        ensures whole { length into.new ≡ length into.old }
        ensures read { OnOk result (Reads (told self.old) at into.new) }
        ensures told { told self.new ≡ told self.old }
        ensures moments { ElapsesTold (told self.old) (told self.new) }
        ensures size { size self.new ≡ size self.old }
        ensures cause { Counts result (faults self.old) (faults self.new) };

    /// Writes `bytes` from `at` on, also over the end. A failed write leaves other bytes there, but no more. Want of
    /// memory changes nothing but the clock.
    fn write(&mut self, at: u64, bytes: &[u8]) -> Result<(), DeviceFault>
        requires place { at ≤ size self.old }
        ensures told { Writes at bytes.now result (told self.old) (told self.new) }
        ensures moments { ElapsesTold (told self.old) (told self.new) }
        ensures size { OnOk result (size self.new ≡ max (size self.old) (at + length bytes.now)) }
        ensures grown { size self.old ≤ size self.new }
        ensures bounded { size self.new ≤ max (size self.old) (at + length bytes.now) }
        ensures waits { IsErrOf result DeviceFault.NoMemory → told self.new ≡ option_map waits (told self.old) }
        ensures same { IsErrOf result DeviceFault.NoMemory → size self.new ≡ size self.old }
        ensures cause { Counts result (faults self.old) (faults self.new) };

    /// Makes what was written outlast a crash. Where it fails, nothing changes.
    fn flush(&mut self) -> Result<(), DeviceFault>
        ensures ok { OnOk result (told self.new ≡ option_map flushes (told self.old)) }
        ensures err { OnErr result (told self.new ≡ told self.old) }
        ensures moments { ElapsesTold (told self.old) (told self.new) }
        ensures size { size self.new ≡ size self.old }
        ensures cause { Counts result (faults self.old) (faults self.new) };

    /// No byte's clock is later than the area's.
    ghost orderly: { (area : Self) → OnTold (told area) IsOrderly };

    /// The bytes told are as many as the area has, and no more of them are certain to outlast a crash.
    ghost counted: { (area : Self) → OnTold (told area) (IsOfSize (size area)) };
}
