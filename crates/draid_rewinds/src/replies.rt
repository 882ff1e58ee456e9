//! What the commands on the checkpoint reply.
ghost use Rattle.std.specs.Prelude.{◌≡◌, IfOk, IsErr, Ok};
ghost use Rattle.draid_script.specs.Line.{DiscardCheckpoint, RewindPool, TakeCheckpoint};
ghost use Rattle.draid_session.specs.Replies.{IsReplyTo};
ghost use Rattle.draid_session.specs.State.{State};
ghost use Rattle.draid_pool.specs.Carries.{CarriesOut};
ghost use Rattle.draid_pool.specs.Failing.{AreaRose, AreasLater};
ghost use Rattle.draid_pool.specs.Pointers.{SamePointers};
ghost use Rattle.draid_pool.specs.Pools.{Represents};
ghost use Rattle.draid_pool.specs.Whole.{IsWhole};
ghost use Rattle.draid_rewinds.specs.Says.{DiscardSays, IsStoppedBy, RewindSays, TakeSays};

use crate::fault::{BackFault, Discarded, Rewound, TakeFault};
use crate::rewinding::{discard, rewind};
use crate::taking::checkpoint;
use draid_area::Area;
use draid_names::Failed;
use draid_pool::{Pool, SyncFault};
use draid_rack::Rack;
use draid_reply::Reply;
use draid_script::CommandName;

/// What a command replies whose sync was stopped, or that a device failed.
fn stopped(command: CommandName, why: SyncFault) -> Result<Reply, Failed>
    ensures says { IsStoppedBy command why result }
{
    match why {
        SyncFault::Worn => Ok(Reply::Worn { command }),
        SyncFault::Last => Ok(Reply::Last { command }),
        SyncFault::NoMemory => Ok(Reply::NoMemory { command }),
        SyncFault::Shelf => Err(Failed),
    }
}

/// Makes a checkpoint.
pub fn reply_to_checkpoint<R: Rack, A: Area>(pool: &mut Pool<R, A>) -> Result<Reply, Failed>
    requires whole { IsWhole R.Rack A.Area pool.old }
    ensures whole { IsWhole R.Rack A.Area pool.new }
    ensures same { SamePointers pool.old pool.new }
    ensures later { AreasLater A.faults pool.old pool.new }
    ensures cause { IsErr result → AreaRose A.faults pool.old pool.new }
    ensures fits { IfOk result (IsReplyTo TakeCheckpoint) }
    ensures step { (x : State) → Represents R.Rack A.Area pool.old x
        → CarriesOut R.Rack A.Area pool.new x (TakeSays result x) }
{
    let command = CommandName::Checkpoint;
    match checkpoint(pool) {
        Ok(group) => Ok(Reply::Checkpointed { group }),
        Err(TakeFault::Exists { group }) => Ok(Reply::CheckpointThere { group }),
        Err(TakeFault::NoMemory) => Ok(Reply::NoMemory { command }),
        Err(TakeFault::Sync { why }) => stopped(command, why),
    }
}

/// Goes back to the checkpoint.
pub fn reply_to_rewind<R: Rack, A: Area>(pool: &mut Pool<R, A>) -> Result<Reply, Failed>
    requires whole { IsWhole R.Rack A.Area pool.old }
    ensures whole { IsWhole R.Rack A.Area pool.new }
    ensures later { AreasLater A.faults pool.old pool.new }
    ensures cause { IsErr result → AreaRose A.faults pool.old pool.new }
    ensures fits { IfOk result (IsReplyTo RewindPool) }
    ensures none { result ≡ Ok (Reply.NoCheckpoint CommandName.Rewind) → SamePointers pool.old pool.new }
    ensures step { (x : State) → Represents R.Rack A.Area pool.old x
        → CarriesOut R.Rack A.Area pool.new x (RewindSays result x) }
{
    let command = CommandName::Rewind;
    match rewind(pool) {
        Ok(Rewound { group, objects }) => Ok(Reply::Rewound { group, objects }),
        Err(BackFault::Nothing) => Ok(Reply::NoCheckpoint { command }),
        Err(BackFault::NoMemory) => Ok(Reply::NoMemory { command }),
        Err(BackFault::Sync { why }) => stopped(command, why),
    }
}

/// Gives up the checkpoint.
pub fn reply_to_discard<R: Rack, A: Area>(pool: &mut Pool<R, A>) -> Result<Reply, Failed>
    requires whole { IsWhole R.Rack A.Area pool.old }
    ensures whole { IsWhole R.Rack A.Area pool.new }
    ensures same { SamePointers pool.old pool.new }
    ensures later { AreasLater A.faults pool.old pool.new }
    ensures cause { IsErr result → AreaRose A.faults pool.old pool.new }
    ensures fits { IfOk result (IsReplyTo DiscardCheckpoint) }
    ensures step { (x : State) → Represents R.Rack A.Area pool.old x
        → CarriesOut R.Rack A.Area pool.new x (DiscardSays result x) }
{
    let command = CommandName::Discard;
    match discard(pool) {
        Ok(Discarded { freed, group }) => Ok(Reply::Discarded { freed, group }),
        Err(BackFault::Nothing) => Ok(Reply::NoCheckpoint { command }),
        Err(BackFault::NoMemory) => Ok(Reply::NoMemory { command }),
        Err(BackFault::Sync { why }) => stopped(command, why),
    }
}
