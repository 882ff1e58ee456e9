//! A stripe of a rebuild or a block of a scrub in one metaslab: it is lent, solved, and lands.
ghost use Rattle.std.specs.Prelude.{◌≡◌, ◌≤◌, ◌^◌, ℕ, IsSomeAnd, false};
ghost use Rattle.draid_names.specs.declared.numbers.TheConstants.{LAST_NUMBER};
ghost use Rattle.draid_names.specs.declared.pass_kind.PassKind.TheVariants.{Heal, Rebuild};
ghost use Rattle.draid_segments.specs.Segments.{Pieces};
ghost use Rattle.draid_shard.specs.Calls.{SameAreas};
ghost use Rattle.draid_shard.specs.Fits.{Valid};
ghost use Rattle.draid_shard.specs.Part.{Part};
ghost use Rattle.draid_mend.specs.Loans.{IsRunningRebuild};
ghost use Rattle.draid_shard.specs.Scrubs.{IsRunningScrub};
ghost use Rattle.draid_session.specs.State.{Metaslab};
ghost use Rattle.draid_pool.specs.Drifts.{KeepsGroups};
ghost use Rattle.draid_pool.specs.Metaslabs.{IsMetaslab};
ghost use Rattle.draid_pool.specs.Shards.{Goes, GoesLater, SameBlocks};
ghost use Rattle.draid_visits.specs.Pieces.{GoesTo};
ghost use Rattle.draid_visits.specs.Steps.{HadContents, IsRunningOf, MovesOn, NextIs, SharesTable, TellsLanding};
ghost use Rattle.draid_visits.specs.Visiting.{IsOnly};

use crate::steps::{Next, end_in};
use draid_area::Area;
use draid_names::PassKind;
use draid_rack::Rack;
use draid_shard::{LendFault, Lent, Shard};

/// A landing rewrites no more columns: there are at most 64, on three arms each.
const MOST_REWRITTEN: u64 = 256;

/// Lends the next stripe or block and lands it; or ends the pass, where nothing is left.
pub(crate) fn unit_in<R: Rack, A: Area>(shard: &mut Shard<R, A>, kind: PassKind) -> Next
    requires valid { Valid R.Rack shard.old }
    requires running { IsSomeAnd shard.old.pass (IsRunningOf kind) }
    ensures valid { Valid R.Rack shard.new }
    ensures table { SharesTable shard.old shard.new }
    ensures groups { KeepsGroups shard.old shard.new }
    ensures areas { SameAreas shard.old shard.new }
    ensures landed { (repaired : ℕ) → result ≡ Next.Landed repaired → MovesOn kind shard.old shard.new × (repaired ≤ 2 ^ 8) }
    ensures tells { (repaired : ℕ) → kind ≡ Heal → result ≡ Next.Landed repaired → TellsLanding R.Rack shard.old shard.new }
    ensures ended { (errors : ℕ) → result ≡ Next.Ended errors → (shard.new.pass ≡ None) × (errors ≤ LAST_NUMBER) }
    ensures never { result ≡ Next.Paused → ⊥ }
    ensures only { IsOnly kind shard.new }
    ensures moves { (part : Part) (pieces : Pieces) (x : Metaslab) → IsMetaslab R.Rack A.Area part pieces shard.old x
        → GoesLater R.Rack A.Area part pieces x shard.new }
    ensures goes { (part : Part) (pieces : Pieces) (x : Metaslab) → IsMetaslab R.Rack A.Area part pieces shard.old x
        → GoesTo R.Rack A.Area part pieces x shard.new (λ holds y. ((kind ≡ Heal → HadContents R.Rack A.Area part shard.old x) → NextIs part kind false result holds) × SameBlocks x y) }
{
    match kind {
        PassKind::Rebuild => stripe_in(shard),
        PassKind::Heal => block_in(shard),
    }
}

/// The next stripe of a rebuild.
fn stripe_in<R: Rack, A: Area>(shard: &mut Shard<R, A>) -> Next
    requires valid { Valid R.Rack shard.old }
    requires running { IsSomeAnd shard.old.pass IsRunningRebuild }
    ensures valid { Valid R.Rack shard.new }
    ensures table { SharesTable shard.old shard.new }
    ensures groups { KeepsGroups shard.old shard.new }
    ensures areas { SameAreas shard.old shard.new }
    ensures landed { (repaired : ℕ) → result ≡ Next.Landed repaired → MovesOn Rebuild shard.old shard.new × (repaired ≡ 0) }
    ensures ended { (errors : ℕ) → result ≡ Next.Ended errors → (shard.new.pass ≡ None) × (errors ≤ LAST_NUMBER) }
    ensures never { result ≡ Next.Paused → ⊥ }
    ensures only { IsOnly Rebuild shard.new }
    ensures goes { (part : Part) (pieces : Pieces) (x : Metaslab) → IsMetaslab R.Rack A.Area part pieces shard.old x
        → Goes R.Rack A.Area part pieces x shard.new (λ holds y. NextIs part Rebuild false result holds × SameBlocks x y) }
{
    match draid_mend::lend(shard) {
        Ok(Lent::Unit) => {
            draid_mend::solve(shard);
            draid_mend::land(shard);
            Next::Landed { repaired: 0 }
        }
        Ok(Lent::End) => Next::Ended {
            errors: end_in(shard),
        },
        Err(LendFault::Worn { .. }) => Next::Worn,
        Err(LendFault::NoMemory) => Next::NoMemory,
    }
}

/// The next block of a scrub. With too little memory to restore it, it stays lent.
fn block_in<R: Rack, A: Area>(shard: &mut Shard<R, A>) -> Next
    requires valid { Valid R.Rack shard.old }
    requires running { IsSomeAnd shard.old.pass IsRunningScrub }
    ensures valid { Valid R.Rack shard.new }
    ensures table { SharesTable shard.old shard.new }
    ensures groups { KeepsGroups shard.old shard.new }
    ensures areas { SameAreas shard.old shard.new }
    ensures landed { (repaired : ℕ) → result ≡ Next.Landed repaired → MovesOn Heal shard.old shard.new × (repaired ≤ 2 ^ 8) }
    ensures tells { (repaired : ℕ) → result ≡ Next.Landed repaired → TellsLanding R.Rack shard.old shard.new }
    ensures ended { (errors : ℕ) → result ≡ Next.Ended errors → (shard.new.pass ≡ None) × (errors ≤ LAST_NUMBER) }
    ensures never { result ≡ Next.Paused → ⊥ }
    ensures only { IsOnly Heal shard.new }
    ensures moves { (part : Part) (pieces : Pieces) (x : Metaslab) → IsMetaslab R.Rack A.Area part pieces shard.old x
        → GoesLater R.Rack A.Area part pieces x shard.new }
    ensures goes { (part : Part) (pieces : Pieces) (x : Metaslab) → IsMetaslab R.Rack A.Area part pieces shard.old x
        → GoesTo R.Rack A.Area part pieces x shard.new (λ holds y. (HadContents R.Rack A.Area part shard.old x → NextIs part Heal false result holds) × SameBlocks x y) }
{
    match draid_restore::lend(shard) {
        Ok(Lent::Unit) => {
            if draid_restore::solve(shard).is_err() {
                return Next::NoMemory;
            }
            Next::Landed {
                repaired: draid_heal::land(shard).min(MOST_REWRITTEN),
            }
        }
        Ok(Lent::End) => Next::Ended {
            errors: end_in(shard),
        },
        Err(LendFault::Worn { .. }) => Next::Worn,
        Err(LendFault::NoMemory) => Next::NoMemory,
    }
}
