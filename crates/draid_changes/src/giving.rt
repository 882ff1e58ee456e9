ghost use Rattle.std.specs.Prelude.{◌+◌, ◌≤◌, [], Contains, OnOk, length, ℕ};
ghost use Rattle.draid_machine.specs.declared.event.Event.TheVariants.{Attach};
ghost use Rattle.draid_machine.specs.declared.names.ArmName.TheVariants as name;
ghost use Rattle.draid_agent.specs.Policy.{IsPolicy, PolicyReturns};
ghost use Rattle.draid_shard.specs.declared.shard.Shard.{Shard};
ghost use Rattle.draid_disks.specs.Checks.{Each};
ghost use Rattle.draid_session.specs.Arms.{EventPhase, ReservePhase};
ghost use Rattle.draid_session.specs.Phases.{Went};
ghost use Rattle.draid_session.specs.State.{State};
ghost use Rattle.draid_pool.specs.Carries.{CarriesOut};
ghost use Rattle.draid_pool.specs.Failing.{AreasLater};
ghost use Rattle.draid_pool.specs.Pointers.{SamePointers};
ghost use Rattle.draid_pool.specs.Pools.{Represents};
ghost use Rattle.draid_pool.specs.Syncing.{AreIdle, Phase};
ghost use Rattle.draid_pool.specs.Whole.{IsWhole};
ghost use Rattle.draid_changes.specs.Balancing.{HasNoPass};
ghost use Rattle.draid_changes.specs.Dues.{AreFree, IsIdleIn};
ghost use Rattle.draid_changes.specs.Giving.{AllGet, AllMayTake, AllReady, AllStay, GaveAll, GaveOne, GivesOne, HaveRoom, SlotsAscend};
ghost use Rattle.draid_changes.specs.Walks.{end_of_reserving};

use crate::attaching::attach_all;
use crate::dues::take_out;
use crate::need::Need;
use crate::reserving::reserve_all;
use draid_agent::{Due, Journal, Policy};
use draid_area::Area;
use draid_entries::ReserveFault;
use draid_names::{ArmKind, Did};
use draid_pool::Pool;
use draid_rack::Rack;

/// Reserves events and memory in each metaslab, of which none has a pass, for so many spares that come one after another.
pub(crate) fn reserve_spares<R: Rack, A: Area>(
    pool: &mut Pool<R, A>,
    count: u32,
) -> Result<(), ReserveFault>
    requires whole { IsWhole R.Rack A.Area pool.old }
    requires idle { AreIdle pool.old.metaslabs.shards.items }
    requires passes { HasNoPass pool.old }
    ensures whole { IsWhole R.Rack A.Area pool.new }
    ensures same { SamePointers pool.old pool.new }
    ensures later { AreasLater A.faults pool.old pool.new }
    ensures idle { OnOk result (AreIdle pool.new.metaslabs.shards.items) }
    ensures passes { HasNoPass pool.new }
    ensures ready { OnOk result (AllReady count pool.new) }
    ensures arms { OnOk result (AllStay pool.old pool.new) }
    ensures carries { (x : State) → Represents R.Rack A.Area pool.old x
        → CarriesOut R.Rack A.Area pool.new x (Phase x (ReservePhase x.geometry x.perms (λ v. count)) (end_of_reserving result)) }
{
    reserve_all(pool, Need::Spares { count })
}

/// Gives a slot a spare in all metaslabs, of which none has a pass, where no rule forbids it and all is reserved for it.
pub(crate) fn give_spare<R: Rack, A: Area>(pool: &mut Pool<R, A>, slot: u32, spare: u32)
    requires whole { IsWhole R.Rack A.Area pool.old }
    requires idle { AreIdle pool.old.metaslabs.shards.items }
    requires ready { AllReady 1 pool.old }
    requires may { AllMayTake slot spare pool.old }
    ensures whole { IsWhole R.Rack A.Area pool.new }
    ensures same { SamePointers pool.old pool.new }
    ensures later { AreasLater A.faults pool.old pool.new }
    ensures idle { AreIdle pool.new.metaslabs.shards.items }
    ensures left { (more : ℕ) → AllReady (more + 1) pool.old → AllReady more pool.new }
    ensures arms { AllGet slot spare pool.old pool.new }
    ensures carries { (x : State) → Represents R.Rack A.Area pool.old x
        → CarriesOut R.Rack A.Area pool.new x (Phase x (EventPhase x.geometry x.perms (Attach slot (name.Spare spare))) Went) }
{
    attach_all(
        &mut pool.metaslabs.shards,
        slot,
        ArmKind::Spare,
        u64::from(spare),
    );
}

/// Gives a slot one of the free spares by the policy, which isn't free any more then, or nothing where none is.
fn give_one<R: Rack, A: Area, P: Fn(u32, u64, &[u32]) -> Option<u32>>(
    pool: &mut Pool<R, A>,
    policy: &Policy<P>,
    due: Due,
    free: &mut Vec<u32>,
) -> Did
    requires policy { IsPolicy P.Fn policy.now }
    requires whole { IsWhole R.Rack A.Area pool.old }
    requires idle { AreIdle pool.old.metaslabs.shards.items }
    requires ready { AllReady 1 pool.old }
    requires may { (spare : ℕ) → Contains free.old.items spare → AllMayTake due.slot spare pool.old }
    ensures whole { IsWhole R.Rack A.Area pool.new }
    ensures same { SamePointers pool.old pool.new }
    ensures later { AreasLater A.faults pool.old pool.new }
    ensures idle { AreIdle pool.new.metaslabs.shards.items }
    ensures left { (more : ℕ) → AllReady (more + 1) pool.old → AllReady more pool.new }
    ensures gave { GaveOne (PolicyReturns P.Fn policy.now) due free.old.items result pool.old pool.new free.new.items }
    ensures carries { (x : State) → Represents R.Rack A.Area pool.old x
        → CarriesOut R.Rack A.Area pool.new x (Phase x (GivesOne x.geometry x.perms result due.slot) Went) }
{
    let Some(spare) = policy.choose(due.slot, due.logged, free.as_slice()) else {
        return Did::NoneFree;
    };
    give_spare(pool, due.slot, spare);
    take_out(free, spare);
    Did::Spared { spare }
}

/// Gives each of the due slots, ascending, one of the free spares by the policy, or nothing where none is free any more, and
/// each an entry of the journal. Events and memory are reserved for all of that.
pub(crate) fn give_all<R: Rack, A: Area, P: Fn(u32, u64, &[u32]) -> Option<u32>>(
    pool: &mut Pool<R, A>,
    policy: &Policy<P>,
    journal: &mut Journal,
    dues: &[Due],
    mut free: Vec<u32>,
)
    requires policy { IsPolicy P.Fn policy.now }
    requires whole { IsWhole R.Rack A.Area pool.old }
    requires idle { AreIdle pool.old.metaslabs.shards.items }
    requires ready { AllReady (length dues.now) pool.old }
    requires room { length dues.now ≤ journal.old.spare }
    requires ascend { SlotsAscend 0 dues.now }
    requires slots { Each (λ (shard : Shard R A). HaveRoom shard.slots dues.now) pool.old.metaslabs.shards.items }
    requires free { Each (λ (shard : Shard R A). AreFree (IsIdleIn shard.slots) [] shard.slots.geometry.spec.spares free.items) pool.old.metaslabs.shards.items }
    ensures whole { IsWhole R.Rack A.Area pool.new }
    ensures same { SamePointers pool.old pool.new }
    ensures later { AreasLater A.faults pool.old pool.new }
    ensures idle { AreIdle pool.new.metaslabs.shards.items }
    ensures passes { HasNoPass pool.new }
    ensures gave { GaveAll R.Rack A.Area (PolicyReturns P.Fn policy.now) dues.now pool.old journal.old.entries pool.new journal.new.entries }
{
    for due in dues {
        let did = give_one(pool, policy, *due, &mut free);
        journal.add(due.slot, due.cause, did);
    }
}
