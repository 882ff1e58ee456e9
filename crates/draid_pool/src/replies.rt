//! What a sync replies.
ghost use Rattle.std.specs.Prelude.{◌≡◌, ℕ, IfOk, IsErr, Ok};
ghost use Rattle.draid_script.specs.Line.{SyncPool};
ghost use Rattle.draid_session.specs.Replies.{IsReplyTo};
ghost use Rattle.draid_session.specs.State.{State};
ghost use Rattle.draid_pool.specs.Carries.{CarriesOut};
ghost use Rattle.draid_pool.specs.Failing.{AreaRose, AreasLater};
ghost use Rattle.draid_pool.specs.Pointers.{SamePointers};
ghost use Rattle.draid_pool.specs.Pools.{Represents, group_in};
ghost use Rattle.draid_pool.specs.Says.{SyncSays};
ghost use Rattle.draid_pool.specs.Whole.{IsWhole};

use crate::fault::{SyncFault, Synced};
use crate::pool::Pool;
use draid_area::Area;
use draid_names::Failed;
use draid_rack::Rack;
use draid_reply::Reply;
use draid_script::CommandName;

/// Commits the group that is open.
pub fn reply_to_sync<R: Rack, A: Area>(pool: &mut Pool<R, A>) -> Result<Reply, Failed>
    requires whole { IsWhole R.Rack A.Area pool.old }
    ensures whole { IsWhole R.Rack A.Area pool.new }
    ensures same { SamePointers pool.old pool.new }
    ensures later { AreasLater A.faults pool.old pool.new }
    ensures cause { IsErr result → AreaRose A.faults pool.old pool.new }
    ensures fits { IfOk result (IsReplyTo SyncPool) }
    ensures names { (group thin : ℕ) → result ≡ Ok (Reply.Synced group thin) → group ≡ group_in pool.new }
    ensures step { (x : State) → Represents R.Rack A.Area pool.old x
        → CarriesOut R.Rack A.Area pool.new x (SyncSays result x) }
{
    let command = CommandName::Sync;
    match pool.sync() {
        Ok(Synced { group, thin }) => Ok(Reply::Synced { group, thin }),
        Err(SyncFault::Worn) => Ok(Reply::Worn { command }),
        Err(SyncFault::Last) => Ok(Reply::Last { command }),
        Err(SyncFault::NoMemory) => Ok(Reply::NoMemory { command }),
        Err(SyncFault::Shelf) => Err(Failed),
    }
}
