//! What the repair agent does to the arms of a pool: each slot that is due gets a free spare by a policy, and an entry of the
//! journal.
ghost use Rattle.std.specs.Prelude.{◌≡◌, ◌<◌, ◌^◌, [], Err, OnOk, Some, length, slice_get};
ghost use Rattle.std.specs.List.{list_any};
ghost use Rattle.draid_names.specs.declared.journal.Entry.{Entry as AnEntry};
ghost use Rattle.draid_agent.specs.Policy.{IsPolicy, PolicyReturns};
ghost use Rattle.draid_shard.specs.declared.shard.Shard.{Shard};
ghost use Rattle.draid_disks.specs.Checks.{Each};
ghost use Rattle.draid_session.specs.State.{State};
ghost use Rattle.draid_pool.specs.Carries.{CarriesOut};
ghost use Rattle.draid_pool.specs.Failing.{AreaRose, AreasLater};
ghost use Rattle.draid_pool.specs.Pointers.{SamePointers};
ghost use Rattle.draid_pool.specs.Pools.{Represents};
ghost use Rattle.draid_pool.specs.Syncing.{AreIdle};
ghost use Rattle.draid_pool.specs.Whole.{IsWhole};
ghost use Rattle.draid_changes.specs.Agent.{DueDoes, EntriesAre, GiveDoes};
ghost use Rattle.draid_changes.specs.Balancing.{HasNoPass};
ghost use Rattle.draid_changes.specs.Dues.{AreFree, IsIdleIn};
ghost use Rattle.draid_changes.specs.Giving.{GaveTo, HaveRoom, SlotsAscend, is_spared};

use crate::dues::{due_slots, free_spares};
use crate::giving::{give_all, reserve_spares};
use crate::upgrading::stopped;
use draid_agent::{Due, Journal, Policy};
use draid_area::Area;
use draid_disks::lowest_pass;
use draid_names::{Did, Entry};
use draid_pool::{Pool, SyncFault};
use draid_rack::Rack;
use std::alloc::Global;

/// Why no slot got a spare.
#[derive(Clone, Copy)]
pub enum GiveFault {
    /// This is the lowest metaslab with a pass, and the pass's number.
    PassThere { metaslab: u32, number: u64 },
    /// No slot is due.
    Idle,
    /// A group that was closing couldn't be committed first, or events or memory for all due slots weren't there.
    Stopped { why: SyncFault },
}

/// Gives each slot that is due a free spare by the policy, ascending, or nothing where none is free any more, and each an entry
/// of the journal. Due is a slot whose one arm is a leaf that is offline, or of which at least so many groups are logged over all
/// metaslabs. A group that is closing is committed first. Answers whether a spare came.
pub fn give<R: Rack, A: Area, P: Fn(u32, u64, &[u32]) -> Option<u32>>(
    alloc: Global,
    pool: &mut Pool<R, A>,
    policy: &Policy<P>,
    journal: &mut Journal,
    least: u64,
) -> Result<bool, GiveFault>
    requires policy { IsPolicy P.Fn policy.now }
    requires whole { IsWhole R.Rack A.Area pool.old }
    ensures whole { IsWhole R.Rack A.Area pool.new }
    ensures same { SamePointers pool.old pool.new }
    ensures later { AreasLater A.faults pool.old pool.new }
    ensures cause { result ≡ Err (GiveFault.Stopped SyncFault.Shelf) → AreaRose A.faults pool.old pool.new }
    ensures passes { OnOk result (HasNoPass pool.new) }
    ensures entries { EntriesAre result journal.old.entries journal.new.entries }
    ensures carries { (x : State) → Represents R.Rack A.Area pool.old x
        → CarriesOut R.Rack A.Area pool.new x (GiveDoes x (PolicyReturns P.Fn policy.now) least journal.old.entries result journal.new.entries) }
{
    if let Err(why) = pool.finish() {
        return Err(GiveFault::Stopped { why });
    }
    if let Some((metaslab, number)) = lowest_pass(&pool.metaslabs.shards) {
        return Err(GiveFault::PassThere { metaslab, number });
    }
    give_due(alloc, pool, policy, journal, least)
}

/// The same where no group is closing, and no metaslab has a pass.
fn give_due<R: Rack, A: Area, P: Fn(u32, u64, &[u32]) -> Option<u32>>(
    alloc: Global,
    pool: &mut Pool<R, A>,
    policy: &Policy<P>,
    journal: &mut Journal,
    least: u64,
) -> Result<bool, GiveFault>
    requires policy { IsPolicy P.Fn policy.now }
    requires whole { IsWhole R.Rack A.Area pool.old }
    requires idle { AreIdle pool.old.metaslabs.shards.items }
    requires passes { HasNoPass pool.old }
    ensures whole { IsWhole R.Rack A.Area pool.new }
    ensures same { SamePointers pool.old pool.new }
    ensures later { AreasLater A.faults pool.old pool.new }
    ensures not_shelf { result ≡ Err (GiveFault.Stopped SyncFault.Shelf) → ⊥ }
    ensures passes { HasNoPass pool.new }
    ensures entries { EntriesAre result journal.old.entries journal.new.entries }
    ensures carries { (x : State) → Represents R.Rack A.Area pool.old x
        → CarriesOut R.Rack A.Area pool.new x (DueDoes x (PolicyReturns P.Fn policy.now) least journal.old.entries result journal.new.entries) }
{
    let starved = Err(GiveFault::Stopped {
        why: SyncFault::NoMemory,
    });
    let shards = &pool.metaslabs.shards;
    let Ok(dues) = due_slots(alloc, &shards[0].slots, shards, least) else {
        return starved;
    };
    if dues.is_empty() {
        return Err(GiveFault::Idle);
    }
    let Ok(free) = free_spares(alloc, &shards[0].slots) else {
        return starved;
    };
    match give_to(pool, policy, journal, &dues, free) {
        Ok(came) => Ok(came),
        Err(why) => Err(GiveFault::Stopped { why }),
    }
}

/// Whether a slot got a spare by one of some entries.
fn some_came(entries: &[Entry]) -> bool
    ensures { result ≡ list_any (λ (e : AnEntry). is_spared e.did) entries.now }
{
    entries
        .iter()
        .any(|entry| matches!(entry.did, Did::Spared { .. }))
}

/// Gives the due slots spares by the policy, where events and memory for all of them can be reserved in each metaslab, and room
/// for their entries. Answers whether one came.
fn give_to<R: Rack, A: Area, P: Fn(u32, u64, &[u32]) -> Option<u32>>(
    pool: &mut Pool<R, A>,
    policy: &Policy<P>,
    journal: &mut Journal,
    dues: &[Due],
    free: Vec<u32>,
) -> Result<bool, SyncFault>
    requires policy { IsPolicy P.Fn policy.now }
    requires whole { IsWhole R.Rack A.Area pool.old }
    requires idle { AreIdle pool.old.metaslabs.shards.items }
    requires passes { HasNoPass pool.old }
    requires few { length dues.now < 2 ^ 32 }
    requires ascend { SlotsAscend 0 dues.now }
    requires slots { Each (λ (shard : Shard R A). HaveRoom shard.slots dues.now) pool.old.metaslabs.shards.items }
    requires free { (first : Shard R A) → slice_get pool.old.metaslabs.shards.items 0 ≡ Some first → AreFree (IsIdleIn first.slots) [] first.slots.geometry.spec.spares free.items }
    ensures whole { IsWhole R.Rack A.Area pool.new }
    ensures same { SamePointers pool.old pool.new }
    ensures later { AreasLater A.faults pool.old pool.new }
    ensures not_shelf { result ≡ Err SyncFault.Shelf → ⊥ }
    ensures passes { HasNoPass pool.new }
    ensures gave { GaveTo R.Rack A.Area (PolicyReturns P.Fn policy.now) dues.now pool.old journal.old.entries result pool.new journal.new.entries }
{
    let Ok(()) = journal.room(dues.len() as u64) else {
        return Err(SyncFault::NoMemory);
    };
    if let Err(fault) = reserve_spares(pool, dues.len() as u32) {
        return Err(stopped(fault));
    }
    let first = journal.entries().len();
    give_all(pool, policy, journal, dues, free);
    Ok(some_came(&journal.entries()[first..]))
}
