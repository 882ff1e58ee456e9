ghost use Rattle.std.specs.Prelude.{◌≡◌, ◌+◌};
ghost use Rattle.draid_machine.specs.After as after;

use draid_names::LAST_NUMBER;

/// Errors of a pass and some more, which stand still at their last number.
pub fn capped(errors: u64, more: u64) -> u64
    ensures { result ≡ after.capped (errors + more) }
{
    errors.saturating_add(more).min(LAST_NUMBER)
}
