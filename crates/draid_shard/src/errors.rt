ghost use Rattle.std.specs.Prelude.{◌≡◌, ◌+◌};
ghost use Rattle.draid_machine.specs.After.{capped};

use draid_names::LAST_NUMBER;

/// So many errors more. Their number stands still at the last.
pub fn more_errors(errors: u64, more: u64) -> u64
    ensures { result ≡ capped (errors + more) }
{
    errors.saturating_add(more).min(LAST_NUMBER)
}
