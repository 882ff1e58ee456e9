ghost use Rattle.std.specs.Prelude.{◌≡◌};
ghost use Rattle.draid_shard.specs.Fits.{owed_for_pass};
ghost use Rattle.draid_shard.specs.Loans.{owed_for_loan};

use draid_names::PassKind;
use draid_pass::Pass;
use draid_shard::KeptLoan;

/// How many events a pass may still add, besides the landing of its loan.
pub(crate) fn owed_for_pass(pass: &Option<Pass>) -> u64
    ensures { result ≡ owed_for_pass pass.now }
{
    match pass {
        None => 0,
        Some(pass) if matches!(pass.kind, PassKind::Rebuild) && pass.running => 1,
        Some(_) => 2,
    }
}

/// How many its loan may add.
pub(crate) fn owed_for_loan(kept: &Option<KeptLoan>) -> u64
    ensures { result ≡ owed_for_loan kept.now }
{
    match kept {
        None => 0,
        Some(_) => 1,
    }
}
