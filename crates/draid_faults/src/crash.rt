ghost use Rattle.std.specs.Prelude.{◌≡◌, ◌-◌, length, map};
ghost use Rattle.draid_faults.specs.Crash.{complement_of, left_by};

/// What a crash leaves of bytes that were written since the last flush.
#[derive(Clone, Copy)]
pub enum CrashRule {
    /// What stood there at the last flush.
    Old,
    /// What was written.
    New,
    /// The complement of what was written.
    Torn,
    /// The first half of what was written, and behind it what stood there at the last flush.
    Half,
}

/// Makes each byte its complement.
pub fn complement(bytes: &mut [u8])
    ensures { bytes.new ≡ complement_of bytes.old }
{
    for i in 0..bytes.len() {
        bytes[i] = 255 - bytes[i];
    }
}

/// Makes what stood there at the last flush what a crash leaves of what was written since.
pub fn leave(rule: CrashRule, was: &mut [u8], written: &[u8])
    requires { length was.old ≡ length written.now }
    ensures { was.new ≡ left_by rule was.old written.now }
{
    match rule {
        CrashRule::Old => {}
        CrashRule::New => was.copy_from_slice(written),
        CrashRule::Torn => {
            was.copy_from_slice(written);
            complement(was);
        }
        CrashRule::Half => {
            let half = written.len() / 2;
            was[..half].copy_from_slice(&written[..half]);
        }
    }
}
