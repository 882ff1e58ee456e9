//! The repair agent: the slots that are due get spares, and where one came the pool is rebuilt and scrubbed. And the journal of
//! what it did in a run.
ghost use Rattle.std.specs.Prelude.{◌≡◌, ◌≢◌, ◌≤◌, ℕ, [], Err, IfOk, IsErr, IsErrOf, OnOk, length, vec_capacity, vec_len};
ghost use Rattle.draid_agent.specs.Policy.{IsPolicy, PolicyReturns};
ghost use Rattle.draid_script.specs.Line.{RunAgent, ShowJournal};
ghost use Rattle.draid_session.specs.Replies.{IsReplyTo};
ghost use Rattle.draid_session.specs.State.{State};
ghost use Rattle.draid_pool.specs.Carries.{CarriesOut};
ghost use Rattle.draid_pool.specs.Failing.{AreaRose, AreasLater};
ghost use Rattle.draid_pool.specs.Pointers.{SamePointers};
ghost use Rattle.draid_pool.specs.Pools.{Represents};
ghost use Rattle.draid_pool.specs.Whole.{IsWhole};
ghost use Rattle.draid_visits.specs.Rebuilding.{stopped_by};
ghost use Rattle.draid_visits.specs.Visiting.{NoPasses};
ghost use Rattle.draid_run.specs.Repairing.{AgentSays, EndsBy, HealEnds, IsAgentReply, IsStop, NotesBehind, RebuildEnds, RepairEnds, RepairNotes, ScrubEnds, ShowSays};

use draid_agent::{Journal, Policy};
use draid_area::Area;
use draid_changes::{GiveFault, give};
use draid_names::{Entry, Failed};
use draid_pool::{Pool, SyncFault};
use draid_rack::Rack;
use draid_reply::{AgentErrors, Reply};
use draid_script::CommandName;
use draid_visits::{MendFault, rebuild, scrub};
use std::alloc::Global;

/// A pool has no more slots, so an `agent` no more entries.
const MOST_SLOTS: usize = 64;

/// Why a scrub was stopped that finds no rebuild in its way.
fn stop_of(fault: MendFault) -> SyncFault
    requires { IsStop fault }
    ensures { fault ≡ stopped_by result }
{
    match fault {
        MendFault::Worn => SyncFault::Worn,
        MendFault::Last => SyncFault::Last,
        MendFault::Shelf => SyncFault::Shelf,
        MendFault::NoMemory => SyncFault::NoMemory,
        MendFault::Nothing => unreachable!(),
        MendFault::PassThere { .. } => unreachable!(),
    }
}

/// No errors where there was nothing to rebuild, or why a rebuild was stopped that finds no scrub in its way.
fn ended_by(fault: MendFault) -> Result<u64, SyncFault>
    requires { (metaslab number : ℕ) → fault ≡ MendFault.PassThere metaslab number → ⊥ }
    ensures { EndsBy fault result }
{
    match fault {
        MendFault::Nothing => Ok(0),
        MendFault::Worn => Err(SyncFault::Worn),
        MendFault::Last => Err(SyncFault::Last),
        MendFault::Shelf => Err(SyncFault::Shelf),
        MendFault::NoMemory => Err(SyncFault::NoMemory),
        MendFault::PassThere { .. } => unreachable!(),
    }
}

/// Rebuilds a pool without a pass, and answers the errors.
fn rebuild_all<R: Rack, A: Area>(pool: &mut Pool<R, A>) -> Result<u64, SyncFault>
    requires whole { IsWhole R.Rack A.Area pool.old }
    requires idle { NoPasses pool.old }
    ensures whole { IsWhole R.Rack A.Area pool.new }
    ensures same { SamePointers pool.old pool.new }
    ensures later { AreasLater A.faults pool.old pool.new }
    ensures cause { IsErrOf result SyncFault.Shelf → AreaRose A.faults pool.old pool.new }
    ensures idle { OnOk result (NoPasses pool.new) }
    ensures carries { (x : State) → Represents R.Rack A.Area pool.old x
        → CarriesOut R.Rack A.Area pool.new x (λ holds store. (store ≡ x.store) × RebuildEnds x.geometry x.perms result holds) }
{
    match rebuild(pool, None) {
        Ok(mended) => Ok(mended.errors),
        Err(fault) => ended_by(fault),
    }
}

/// Scrubs a pool without a pass, and answers the errors.
fn scrub_all<R: Rack, A: Area>(pool: &mut Pool<R, A>) -> Result<u64, SyncFault>
    requires whole { IsWhole R.Rack A.Area pool.old }
    requires idle { NoPasses pool.old }
    ensures whole { IsWhole R.Rack A.Area pool.new }
    ensures same { SamePointers pool.old pool.new }
    ensures later { AreasLater A.faults pool.old pool.new }
    ensures not_shelf { result ≢ Err SyncFault.Shelf }
    ensures carries { (x : State) → Represents R.Rack A.Area pool.old x
        → CarriesOut R.Rack A.Area pool.new x (λ holds store. (store ≡ x.store) × ScrubEnds x.geometry x.perms result holds) }
{
    match scrub(pool, None) {
        Ok(mended) => Ok(mended.errors),
        Err(fault) => Err(stop_of(fault)),
    }
}

/// Rebuilds and scrubs a pool without a pass.
fn heal<R: Rack, A: Area>(pool: &mut Pool<R, A>) -> Result<AgentErrors, SyncFault>
    requires whole { IsWhole R.Rack A.Area pool.old }
    requires idle { NoPasses pool.old }
    ensures whole { IsWhole R.Rack A.Area pool.new }
    ensures same { SamePointers pool.old pool.new }
    ensures later { AreasLater A.faults pool.old pool.new }
    ensures cause { IsErrOf result SyncFault.Shelf → AreaRose A.faults pool.old pool.new }
    ensures carries { (x : State) → Represents R.Rack A.Area pool.old x
        → CarriesOut R.Rack A.Area pool.new x (λ holds store. (store ≡ x.store) × HealEnds x.geometry x.perms result holds) }
{
    let errors = match rebuild_all(pool) {
        Ok(errors) => errors,
        Err(why) => return Err(why),
    };
    match scrub_all(pool) {
        Ok(scrub) => Ok(AgentErrors {
            rebuild: errors,
            scrub,
        }),
        Err(why) => Err(why),
    }
}

/// Gives each slot that is due a free spare by the policy, and an entry of the journal. Where a spare came the pool is rebuilt
/// and scrubbed, and the errors of both are answered.
fn repair<R: Rack, A: Area, P: Fn(u32, u64, &[u32]) -> Option<u32>>(
    alloc: Global,
    pool: &mut Pool<R, A>,
    policy: &Policy<P>,
    journal: &mut Journal,
    least: u64,
) -> Result<Option<AgentErrors>, GiveFault>
    requires policy { IsPolicy P.Fn policy.now }
    requires whole { IsWhole R.Rack A.Area pool.old }
    ensures whole { IsWhole R.Rack A.Area pool.new }
    ensures same { SamePointers pool.old pool.new }
    ensures later { AreasLater A.faults pool.old pool.new }
    ensures cause { result ≡ Err (GiveFault.Stopped SyncFault.Shelf) → AreaRose A.faults pool.old pool.new }
    ensures entries { RepairNotes result journal.old.entries journal.new.entries }
    ensures carries { (x : State) → Represents R.Rack A.Area pool.old x
        → CarriesOut R.Rack A.Area pool.new x (λ holds store. (store ≡ x.store)
        × RepairEnds x.geometry x.perms (PolicyReturns P.Fn policy.now) least journal.old.entries result journal.new.entries holds) }
{
    match give(alloc, pool, policy, journal, least) {
        Ok(true) => match heal(pool) {
            Ok(errors) => Ok(Some(errors)),
            Err(why) => Err(GiveFault::Stopped { why }),
        },
        Ok(false) => Ok(None),
        Err(fault) => Err(fault),
    }
}

/// Some entries in a list that has room for them.
fn copied(mut list: Vec<Entry>, entries: &[Entry]) -> Vec<Entry>
    requires empty { list.items ≡ [] }
    requires len { vec_len list ≡ 0 }
    requires room { length entries.now ≤ vec_capacity list }
    ensures { result.items ≡ entries.now }
{
    let Ok(()) = list.extend_from_slice(entries) else {
        unreachable!()
    };
    list
}

/// The reply of an agent, by what came of it, or that a device of the pool failed.
fn reply_of(
    parity: u32,
    entries: Vec<Entry>,
    answer: Result<Option<AgentErrors>, GiveFault>,
) -> Result<Reply, Failed>
    ensures { IsAgentReply parity entries answer result }
{
    let command = CommandName::Agent;
    match answer {
        Ok(errors) => Ok(Reply::Acted {
            parity,
            entries,
            errors,
        }),
        Err(GiveFault::Idle) => Ok(Reply::AgentIdle),
        Err(GiveFault::PassThere { metaslab, number }) => Ok(Reply::PassThere {
            command,
            metaslab,
            number,
        }),
        Err(GiveFault::Stopped { why }) => match why {
            SyncFault::Worn => Ok(Reply::Worn { command }),
            SyncFault::Last => Ok(Reply::Last { command }),
            SyncFault::NoMemory => Ok(Reply::NoMemory { command }),
            SyncFault::Shelf => Err(Failed),
        },
    }
}

/// Has the agent give spares to the slots that are due, and rebuild and scrub the pool where one came. The list of the reply is
/// made before anything is changed.
pub(crate) fn reply_to_agent<R: Rack, A: Area, P: Fn(u32, u64, &[u32]) -> Option<u32>>(
    alloc: Global,
    pool: &mut Pool<R, A>,
    policy: &Policy<P>,
    journal: &mut Journal,
    least: u64,
) -> Result<Reply, Failed>
    requires policy { IsPolicy P.Fn policy.now }
    requires whole { IsWhole R.Rack A.Area pool.old }
    ensures whole { IsWhole R.Rack A.Area pool.new }
    ensures same { SamePointers pool.old pool.new }
    ensures cause { IsErr result → AreaRose A.faults pool.old pool.new }
    ensures fits { IfOk result (IsReplyTo (RunAgent least)) }
    ensures notes { IfOk result (λ reply. NotesBehind journal.old.entries reply journal.new.entries) }
    ensures step { (x : State) → Represents R.Rack A.Area pool.old x
        → CarriesOut R.Rack A.Area pool.new x (AgentSays x (PolicyReturns P.Fn policy.now) least journal.old.entries result journal.new.entries) }
{
    let Ok(list) = Vec::with_capacity(alloc, MOST_SLOTS) else {
        return Ok(Reply::NoMemory {
            command: CommandName::Agent,
        });
    };
    let parity = pool.geometry.spec.parity;
    let first = journal.entries().len();
    let answer = repair(alloc, pool, policy, journal, least);
    let entries = copied(list, &journal.entries()[first..]);
    reply_of(parity, entries, answer)
}

/// The journal of the run.
pub(crate) fn reply_to_journal<R: Rack, A: Area>(
    alloc: Global,
    pool: &Pool<R, A>,
    journal: &Journal,
) -> Reply
    ensures fits { IsReplyTo ShowJournal result }
    ensures shows { ShowSays pool.now.geometry.spec.parity journal.now.entries result }
{
    match Vec::from_slice(alloc, journal.entries()) {
        Ok(entries) => Reply::Journal {
            parity: pool.geometry.spec.parity,
            entries,
        },
        Err(_) => Reply::NoMemory {
            command: CommandName::Agent,
        },
    }
}
