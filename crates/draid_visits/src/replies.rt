//! What the commands on the passes of a pool reply.
ghost use Rattle.std.specs.Prelude.{IfOk, IsErr, Option, ℕ};
ghost use Rattle.draid_script.specs.Line.{CancelPasses, RebuildPool, ScrubPool};
ghost use Rattle.draid_session.specs.Replies.{IsReplyTo};
ghost use Rattle.draid_session.specs.State.{State};
ghost use Rattle.draid_pool.specs.Carries.{CarriesOut};
ghost use Rattle.draid_pool.specs.Failing.{AreaRose, AreasLater};
ghost use Rattle.draid_pool.specs.Pointers.{SamePointers};
ghost use Rattle.draid_pool.specs.Pools.{Represents};
ghost use Rattle.draid_pool.specs.Whole.{IsWhole};
ghost use Rattle.draid_visits.specs.Behind.{PassesBehind};
ghost use Rattle.draid_visits.specs.Says.{CancelSays, RebuildSays, ScrubSays};

use crate::cancelling::cancel;
use crate::rebuilding::{MendFault, rebuild, scrub};
use draid_area::Area;
use draid_names::Failed;
use draid_pool::Pool;
use draid_rack::Rack;
use draid_reply::Reply;
use draid_script::CommandName;

/// Ends all passes.
pub fn reply_to_cancel<R: Rack, A: Area>(pool: &mut Pool<R, A>) -> Reply
    requires whole { IsWhole R.Rack A.Area pool.old }
    ensures whole { IsWhole R.Rack A.Area pool.new }
    ensures same { SamePointers pool.old pool.new }
    ensures later { AreasLater A.faults pool.old pool.new }
    ensures fits { IsReplyTo CancelPasses result }
    ensures step { (x : State) → Represents R.Rack A.Area pool.old x → CarriesOut R.Rack A.Area pool.new x (CancelSays result x) }
    ensures passes { PassesBehind CancelPasses result pool.new }
{
    let passes = cancel(pool);
    Reply::Cancelled { passes }
}

/// Rebuilds what needs it, and lends at most so many stripes.
pub fn reply_to_rebuild<R: Rack, A: Area>(
    pool: &mut Pool<R, A>,
    limit: Option<u64>,
) -> Result<Reply, Failed>
    requires whole { IsWhole R.Rack A.Area pool.old }
    ensures whole { IsWhole R.Rack A.Area pool.new }
    ensures same { SamePointers pool.old pool.new }
    ensures later { AreasLater A.faults pool.old pool.new }
    ensures cause { IsErr result → AreaRose A.faults pool.old pool.new }
    ensures fits { IfOk result (IsReplyTo (RebuildPool limit)) }
    ensures step { (x : State) → Represents R.Rack A.Area pool.old x
        → CarriesOut R.Rack A.Area pool.new x (RebuildSays limit result x) }
    ensures passes { IfOk result (λ reply. PassesBehind (RebuildPool limit) reply pool.new) }
{
    let command = CommandName::Rebuild;
    match rebuild(pool, limit) {
        Ok(it) => Ok(Reply::Rebuilt {
            from: it.from,
            stripes: it.units,
            errors: it.errors,
            paused: it.paused,
        }),
        Err(MendFault::Nothing) => Ok(Reply::RebuildNothing),
        Err(MendFault::PassThere { metaslab, number }) => Ok(Reply::PassThere {
            command,
            metaslab,
            number,
        }),
        Err(MendFault::Worn) => Ok(Reply::Worn { command }),
        Err(MendFault::Last) => Ok(Reply::Last { command }),
        Err(MendFault::NoMemory) => Ok(Reply::NoMemory { command }),
        Err(MendFault::Shelf) => Err(Failed),
    }
}

/// Scrubs from the first metaslab with a scrub on, or all, and lends at most so many blocks.
pub fn reply_to_scrub<R: Rack, A: Area>(pool: &mut Pool<R, A>, limit: Option<u64>) -> Reply
    requires whole { IsWhole R.Rack A.Area pool.old }
    ensures whole { IsWhole R.Rack A.Area pool.new }
    ensures same { SamePointers pool.old pool.new }
    ensures later { AreasLater A.faults pool.old pool.new }
    ensures fits { IsReplyTo (ScrubPool limit) result }
    ensures step { (x : State) → Represents R.Rack A.Area pool.old x → CarriesOut R.Rack A.Area pool.new x (ScrubSays limit result x) }
    ensures passes { PassesBehind (ScrubPool limit) result pool.new }
{
    let command = CommandName::Scrub;
    match scrub(pool, limit) {
        Ok(it) => Reply::Scrubbed {
            from: it.from,
            blocks: it.units,
            repaired: it.repaired,
            errors: it.errors,
            paused: it.paused,
        },
        Err(MendFault::PassThere { metaslab, number }) => Reply::PassThere {
            command,
            metaslab,
            number,
        },
        Err(MendFault::Worn) => Reply::Worn { command },
        Err(MendFault::Last) => Reply::Last { command },
        Err(MendFault::NoMemory) => Reply::NoMemory { command },
        Err(MendFault::Nothing) => unreachable!(),
        Err(MendFault::Shelf) => unreachable!(),
    }
}
