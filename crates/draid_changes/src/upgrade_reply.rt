ghost use Rattle.std.specs.Prelude.{IfOk, IsErr};
ghost use Rattle.draid_script.specs.Line.{UpgradePool};
ghost use Rattle.draid_session.specs.Replies.{IsReplyTo};
ghost use Rattle.draid_session.specs.State.{State};
ghost use Rattle.draid_pool.specs.Carries.{CarriesOut};
ghost use Rattle.draid_pool.specs.Failing.{AreaRose, AreasLater};
ghost use Rattle.draid_pool.specs.Pointers.{SamePointers};
ghost use Rattle.draid_pool.specs.Pools.{Represents};
ghost use Rattle.draid_pool.specs.Whole.{IsWhole};
ghost use Rattle.draid_changes.specs.Behind.{ArmsBehind};
ghost use Rattle.draid_changes.specs.UpgradeSays.{UpgradeSays};

use crate::upgrading::{UpgradeFault, upgrade};
use draid_area::Area;
use draid_names::Failed;
use draid_pool::{Pool, SyncFault};
use draid_rack::Rack;
use draid_reply::Reply;
use draid_script::CommandName;

/// Upgrades a pool to version 2.
pub fn reply_to_upgrade<R: Rack, A: Area>(pool: &mut Pool<R, A>) -> Result<Reply, Failed>
    requires whole { IsWhole R.Rack A.Area pool.old }
    ensures whole { IsWhole R.Rack A.Area pool.new }
    ensures same { SamePointers pool.old pool.new }
    ensures later { AreasLater A.faults pool.old pool.new }
    ensures cause { IsErr result → AreaRose A.faults pool.old pool.new }
    ensures fits { IfOk result (IsReplyTo UpgradePool) }
    ensures step { (x : State) → Represents R.Rack A.Area pool.old x
        → CarriesOut R.Rack A.Area pool.new x (UpgradeSays result x) }
    ensures arms { IfOk result (λ reply. ArmsBehind UpgradePool reply pool.new) }
{
    let command = CommandName::Upgrade;
    match upgrade(pool) {
        Ok(group) => Ok(Reply::Upgraded { group }),
        Err(UpgradeFault::Already) => Ok(Reply::UpgradeAlready),
        Err(UpgradeFault::Sync { why }) => match why {
            SyncFault::Worn => Ok(Reply::Worn { command }),
            SyncFault::Last => Ok(Reply::Last { command }),
            SyncFault::NoMemory => Ok(Reply::NoMemory { command }),
            SyncFault::Shelf => Err(Failed),
        },
    }
}
