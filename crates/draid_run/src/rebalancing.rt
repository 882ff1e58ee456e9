//! A slot goes back to its last leaf alone: a sync, a scrub of the whole pool, and then the slot's other arms go.
ghost use Rattle.std.specs.Prelude.{◌≡◌, ◌≢◌, ◌<◌, IfOk, IsErr, IsErrOf, OnOk};
ghost use Rattle.draid_names.specs.declared.pass_kind.PassKind.TheVariants.{Heal};
ghost use Rattle.draid_script.specs.Line.{RebalanceSlot};
ghost use Rattle.draid_session.specs.Balance as balance;
ghost use Rattle.draid_session.specs.Replies.{IsReplyTo};
ghost use Rattle.draid_session.specs.State.{State};
ghost use Rattle.draid_pool.specs.Carries.{CarriesOut};
ghost use Rattle.draid_pool.specs.Failing.{AreaRose, AreasLater};
ghost use Rattle.draid_pool.specs.Pointers.{SamePointers};
ghost use Rattle.draid_pool.specs.Pools.{Represents};
ghost use Rattle.draid_pool.specs.Syncing.{AreIdle};
ghost use Rattle.draid_pool.specs.Whole.{IsWhole};
ghost use Rattle.draid_changes.specs.Behind.{ArmsBehind};
ghost use Rattle.draid_visits.specs.Behind.{PassesBehind};
ghost use Rattle.draid_visits.specs.Rebuilding.{stopped_by};
ghost use Rattle.draid_visits.specs.Visiting.{AreAll, IsOnly, NoPasses};
ghost use Rattle.draid_run.specs.Rebalancing.{IsHalt, PartIs, RebalanceDoes, RebalanceIs, RebalanceSays, SlotIs};

use draid_area::Area;
use draid_changes::detach_others;
use draid_names::{Failed, PassKind, SlotFault};
use draid_pool::{Pool, SyncFault};
use draid_rack::Rack;
use draid_reply::Reply;
use draid_script::CommandName;
use draid_visits::{MendFault, pass_in, scrub};

/// What a rebalance did: the blocks that its scrub lent, the columns that it rewrote, counted by arm, the errors of its
/// passes, and the group that was committed without the other arms, unless all stay.
#[derive(Clone, Copy)]
pub(crate) struct Rebalanced {
    pub blocks: u64,
    pub repaired: u64,
    pub errors: u64,
    pub group: Option<u64>,
}

/// Why a slot wasn't rebalanced, or not to its end.
#[derive(Clone, Copy)]
pub(crate) enum RebalanceFault {
    /// There is no such slot.
    NoSuch,
    /// This is the lowest metaslab with a rebuild, and the rebuild's number.
    PassRunning { metaslab: u32, number: u64 },
    /// A sync was stopped, or the scrub, or the detaching of an arm.
    Stopped { why: SyncFault },
}

/// Commits the open group, scrubs the whole pool, and without an error takes all arms of a slot but the last out of it, if
/// that is a leaf which missed nothing.
fn rebalance<R: Rack, A: Area>(
    pool: &mut Pool<R, A>,
    slot: u32,
) -> Result<Rebalanced, RebalanceFault>
    requires whole { IsWhole R.Rack A.Area pool.old }
    ensures whole { IsWhole R.Rack A.Area pool.new }
    ensures same { SamePointers pool.old pool.new }
    ensures later { AreasLater A.faults pool.old pool.new }
    ensures cause { IsErrOf result (RebalanceFault.Stopped SyncFault.Shelf) → AreaRose A.faults pool.old pool.new }
    ensures carries { (x : State) → Represents R.Rack A.Area pool.old x
        → CarriesOut R.Rack A.Area pool.new x (RebalanceDoes x slot result) }
    ensures passes { RebalanceIs result pool.old pool.new }
    ensures arms { IfOk result (SlotIs slot pool.new) }
{
    if slot >= pool.geometry.spec.children {
        return Err(RebalanceFault::NoSuch);
    }
    if let Some((metaslab, number)) = pass_in(pool, PassKind::Rebuild) {
        return Err(RebalanceFault::PassRunning { metaslab, number });
    }
    match sync_then(pool, slot) {
        Ok(it) => Ok(it),
        Err(why) => Err(RebalanceFault::Stopped { why }),
    }
}

/// Commits the open group, and then scrubs and detaches.
fn sync_then<R: Rack, A: Area>(pool: &mut Pool<R, A>, slot: u32) -> Result<Rebalanced, SyncFault>
    requires whole { IsWhole R.Rack A.Area pool.old }
    requires slot { slot < pool.old.geometry.spec.children }
    requires alone { AreAll pool.old (IsOnly Heal) }
    ensures whole { IsWhole R.Rack A.Area pool.new }
    ensures same { SamePointers pool.old pool.new }
    ensures later { AreasLater A.faults pool.old pool.new }
    ensures cause { IsErrOf result SyncFault.Shelf → AreaRose A.faults pool.old pool.new }
    ensures carries { (x : State) → Represents R.Rack A.Area pool.old x
        → CarriesOut R.Rack A.Area pool.new x (λ holds store. (store ≡ x.store) × PartIs (balance.SyncsThen x.geometry x.perms slot) result holds) }
    ensures passes { OnOk result (NoPasses pool.new) }
    ensures arms { IfOk result (SlotIs slot pool.new) }
{
    match pool.sync() {
        Ok(_) => scrub_then(pool, slot),
        Err(why) => Err(why),
    }
}

/// Scrubs the whole pool, where no group is closing, and then detaches.
fn scrub_then<R: Rack, A: Area>(pool: &mut Pool<R, A>, slot: u32) -> Result<Rebalanced, SyncFault>
    requires whole { IsWhole R.Rack A.Area pool.old }
    requires slot { slot < pool.old.geometry.spec.children }
    requires alone { AreAll pool.old (IsOnly Heal) }
    requires idle { AreIdle pool.old.metaslabs.shards.items }
    ensures whole { IsWhole R.Rack A.Area pool.new }
    ensures same { SamePointers pool.old pool.new }
    ensures later { AreasLater A.faults pool.old pool.new }
    ensures cause { IsErrOf result SyncFault.Shelf → AreaRose A.faults pool.old pool.new }
    ensures carries { (x : State) → Represents R.Rack A.Area pool.old x
        → CarriesOut R.Rack A.Area pool.new x (λ holds store. (store ≡ x.store) × PartIs (balance.ScrubsThen x.geometry x.perms slot) result holds) }
    ensures passes { OnOk result (NoPasses pool.new) }
    ensures arms { IfOk result (SlotIs slot pool.new) }
{
    let mended = match scrub(pool, None) {
        Ok(mended) => mended,
        Err(fault) => return Err(halted_by(fault)),
    };
    match detach_others(pool, slot, mended.errors) {
        Ok(group) => Ok(Rebalanced {
            blocks: mended.units,
            repaired: mended.repaired,
            errors: mended.errors,
            group,
        }),
        Err(why) => Err(why),
    }
}

/// Why a scrub was stopped whose pool has no rebuild. A device's area can't stop one.
fn halted_by(fault: MendFault) -> SyncFault
    requires { IsHalt fault }
    ensures why { fault ≡ stopped_by result }
    ensures not_shelf { result ≢ SyncFault.Shelf }
{
    match fault {
        MendFault::Worn => SyncFault::Worn,
        MendFault::Last => SyncFault::Last,
        MendFault::NoMemory => SyncFault::NoMemory,
        MendFault::Nothing => unreachable!(),
        MendFault::PassThere { .. } => unreachable!(),
        MendFault::Shelf => unreachable!(),
    }
}

/// Has a slot go back to its last leaf alone.
pub(crate) fn reply_to_rebalance<R: Rack, A: Area>(
    pool: &mut Pool<R, A>,
    slot: u32,
) -> Result<Reply, Failed>
    requires whole { IsWhole R.Rack A.Area pool.old }
    ensures whole { IsWhole R.Rack A.Area pool.new }
    ensures same { SamePointers pool.old pool.new }
    ensures later { AreasLater A.faults pool.old pool.new }
    ensures cause { IsErr result → AreaRose A.faults pool.old pool.new }
    ensures fits { IfOk result (IsReplyTo (RebalanceSlot slot)) }
    ensures step { (x : State) → Represents R.Rack A.Area pool.old x
        → CarriesOut R.Rack A.Area pool.new x (RebalanceSays slot result x) }
    ensures arms { IfOk result (λ reply. ArmsBehind (RebalanceSlot slot) reply pool.new) }
    ensures passes { IfOk result (λ reply. PassesBehind (RebalanceSlot slot) reply pool.new) }
{
    match rebalance(pool, slot) {
        Ok(it) => Ok(Reply::Rebalanced {
            slot,
            blocks: it.blocks,
            repaired: it.repaired,
            errors: it.errors,
            group: it.group,
        }),
        Err(RebalanceFault::NoSuch) => Ok(Reply::RebalanceRefused {
            slot,
            why: SlotFault::NoSuch,
        }),
        Err(RebalanceFault::PassRunning { metaslab, number }) => Ok(Reply::RebalanceRefused {
            slot,
            why: SlotFault::PassRunning { metaslab, number },
        }),
        Err(RebalanceFault::Stopped { why }) => match why {
            SyncFault::Worn => Ok(Reply::RebalanceWorn { slot }),
            SyncFault::Last => Ok(Reply::RebalanceLast { slot }),
            SyncFault::NoMemory => Ok(Reply::NoMemory {
                command: CommandName::Rebalance,
            }),
            SyncFault::Shelf => Err(Failed),
        },
    }
}
