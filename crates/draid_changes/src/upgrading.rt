ghost use Rattle.std.specs.Prelude.{◌≡◌, Err, IsErrOf, None, OnOk, Some, length, slice_get, ℕ};
ghost use Rattle.draid_entries.specs.declared.history.ReserveFault.{ReserveFault};
ghost use Rattle.draid_machine.specs.declared.event.Event.TheVariants as event;
ghost use Rattle.draid_shard.specs.declared.shard.Shard.{Shard};
ghost use Rattle.draid_disks.specs.Checks.{Each};
ghost use Rattle.draid_session.specs.Arms.{EventPhase};
ghost use Rattle.draid_session.specs.Phases.{Chain, Went};
ghost use Rattle.draid_session.specs.State.{State};
ghost use Rattle.draid_session.specs.Versions.{Asks};
ghost use Rattle.draid_pool.specs.Carries.{CarriesOut};
ghost use Rattle.draid_pool.specs.Failing.{AreaRose, AreasLater};
ghost use Rattle.draid_pool.specs.Pointers.{SamePointers};
ghost use Rattle.draid_pool.specs.Pools.{Represents};
ghost use Rattle.draid_pool.specs.Syncing.{AreIdle, Phase, end_of};
ghost use Rattle.draid_pool.specs.Whole.{IsWhole};
ghost use Rattle.draid_uber.specs.Uber.{version_of};
ghost use Rattle.draid_changes.specs.Behind.{AllHaveTwo, UpgradeIs};
ghost use Rattle.draid_changes.specs.Upgrading.{MayUpgrade, RaiseDoes, UpgradeDoes, UpgradesIn};
ghost use Rattle.draid_changes.specs.Walks.{ChangedBelow, end_of_reserving};

use crate::need::Need;
use crate::reserving::reserve_all;
use draid_area::Area;
use draid_entries::ReserveFault;
use draid_pool::{Pool, SyncFault};
use draid_rack::Rack;
use draid_shard::Shard;

/// Why a pool wasn't upgraded.
#[derive(Clone, Copy)]
pub enum UpgradeFault {
    /// It has version 2, or the next group is to have it.
    Already,
    /// No group could be committed.
    Sync { why: SyncFault },
}

/// Has the next group of a pool version 2, and commits it. A group that is closing is committed first.
pub fn upgrade<R: Rack, A: Area>(pool: &mut Pool<R, A>) -> Result<u64, UpgradeFault>
    requires whole { IsWhole R.Rack A.Area pool.old }
    ensures whole { IsWhole R.Rack A.Area pool.new }
    ensures same { SamePointers pool.old pool.new }
    ensures later { AreasLater A.faults pool.old pool.new }
    ensures cause { IsErrOf result (UpgradeFault.Sync SyncFault.Shelf) → AreaRose A.faults pool.old pool.new }
    ensures carries { (x : State) → Represents R.Rack A.Area pool.old x
        → CarriesOut R.Rack A.Area pool.new x (UpgradeDoes x result) }
    ensures asked { UpgradeIs result pool.new }
{
    if let Err(why) = pool.finish() {
        return Err(UpgradeFault::Sync { why });
    }
    if pool.metaslabs.shards[0].asked == 2 {
        return Err(UpgradeFault::Already);
    }
    match raise(pool) {
        Ok(group) => Ok(group),
        Err(why) => Err(UpgradeFault::Sync { why }),
    }
}

/// Asks for version 2 where no group is closing, and commits the group that has it.
fn raise<R: Rack, A: Area>(pool: &mut Pool<R, A>) -> Result<u64, SyncFault>
    requires whole { IsWhole R.Rack A.Area pool.old }
    requires idle { AreIdle pool.old.metaslabs.shards.items }
    ensures whole { IsWhole R.Rack A.Area pool.new }
    ensures same { SamePointers pool.old pool.new }
    ensures later { AreasLater A.faults pool.old pool.new }
    ensures cause { IsErrOf result SyncFault.Shelf → AreaRose A.faults pool.old pool.new }
    ensures carries { (x : State) → Represents R.Rack A.Area pool.old x → version_of pool.old.uber ≡ 1
        → CarriesOut R.Rack A.Area pool.new x (RaiseDoes x result) }
    ensures versions { OnOk result (AllHaveTwo pool.new) }
{
    if let Err(fault) = reserve_all(pool, Need::Event) {
        return Err(stopped(fault));
    }
    ask(pool);
    match pool.sync() {
        Ok(synced) => Ok(synced.group),
        Err(why) => Err(why),
    }
}

/// Why no group was committed, where events couldn't be reserved.
pub(crate) fn stopped(fault: ReserveFault) -> SyncFault
    ensures ends { end_of {T = ℕ} (Err result) ≡ end_of_reserving (Err fault) }
    ensures not_shelf { result ≡ SyncFault.Shelf → ⊥ }
{
    match fault {
        ReserveFault::Worn { .. } => SyncFault::Worn,
        ReserveFault::NoMemory => SyncFault::NoMemory,
    }
}

/// Asks for version 2 in each metaslab where it isn't asked for yet, and of the uberblock.
fn ask<R: Rack, A: Area>(pool: &mut Pool<R, A>)
    requires whole { IsWhole R.Rack A.Area pool.old }
    requires ready { (m : ℕ) (shard : Shard R A) → slice_get pool.old.metaslabs.shards.items m ≡ Some shard → MayUpgrade R.Rack shard }
    ensures whole { IsWhole R.Rack A.Area pool.new }
    ensures objects { pool.new.own.objects ≡ pool.old.own.objects }
    ensures later { AreasLater A.faults pool.old pool.new }
    ensures carries { (x : State) → Represents R.Rack A.Area pool.old x → version_of pool.old.uber ≡ 1
        → CarriesOut R.Rack A.Area pool.new x (Phase x (Chain (EventPhase x.geometry x.perms event.Upgrade) Asks) Went) }
    ensures asked { Each (λ (shard : Shard R A). shard.asked ≡ 2) pool.new.metaslabs.shards.items }
{
    ask_all(&mut pool.metaslabs.shards);
    pool.uber.upgrade();
}

/// Asks for version 2 in each metaslab where it isn't asked for yet.
fn ask_all<R: Rack, A: Area>(shards: &mut Vec<Shard<R, A>>)
    requires ready { (m : ℕ) (shard : Shard R A) → slice_get shards.old.items m ≡ Some shard → MayUpgrade R.Rack shard }
    ensures upgrades { ChangedBelow (UpgradesIn R.Rack) (length shards.old.items) shards.old.items shards.new.items }
{
    for metaslab in 0..shards.len() {
        ask_in(&mut shards[metaslab]);
    }
}

/// Asks for version 2 in a metaslab, if it isn't asked for yet.
fn ask_in<R: Rack, A: Area>(shard: &mut Shard<R, A>)
    requires { MayUpgrade R.Rack shard.old }
    ensures { UpgradesIn R.Rack shard.old shard.new }
{
    if shard.asked == 1 {
        draid_disks::upgrade(shard);
    }
}
