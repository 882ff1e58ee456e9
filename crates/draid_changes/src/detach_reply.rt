ghost use Rattle.std.specs.Prelude.{◌≡◌, IfOk, IsErr};
ghost use Rattle.draid_script.specs.Line.{DetachArm};
ghost use Rattle.draid_session.specs.Arms.{arm_of};
ghost use Rattle.draid_session.specs.Replies.{IsReplyTo};
ghost use Rattle.draid_session.specs.State.{State};
ghost use Rattle.draid_pool.specs.Carries.{CarriesOut};
ghost use Rattle.draid_pool.specs.Failing.{AreaRose, AreasLater};
ghost use Rattle.draid_pool.specs.Pointers.{SamePointers};
ghost use Rattle.draid_pool.specs.Pools.{Represents};
ghost use Rattle.draid_pool.specs.Whole.{IsWhole};
ghost use Rattle.draid_changes.specs.Behind.{ArmsBehind};
ghost use Rattle.draid_changes.specs.DetachSays.{DetachSays};

use crate::detaching::{DetachFault, detach};
use draid_area::Area;
use draid_machine::ArmName;
use draid_names::Failed;
use draid_pool::{Pool, SyncFault};
use draid_rack::Rack;
use draid_reply::Reply;
use draid_script::{ArmArgument, CommandName};

/// Takes an arm out of its slot.
pub fn reply_to_detach<R: Rack, A: Area>(
    pool: &mut Pool<R, A>,
    arm: ArmArgument,
) -> Result<Reply, Failed>
    requires whole { IsWhole R.Rack A.Area pool.old }
    ensures whole { IsWhole R.Rack A.Area pool.new }
    ensures same { SamePointers pool.old pool.new }
    ensures later { AreasLater A.faults pool.old pool.new }
    ensures cause { IsErr result → AreaRose A.faults pool.old pool.new }
    ensures fits { IfOk result (IsReplyTo (DetachArm arm)) }
    ensures step { (x : State) → Represents R.Rack A.Area pool.old x
        → CarriesOut R.Rack A.Area pool.new x (DetachSays arm result x) }
    ensures arms { IfOk result (λ reply. ArmsBehind (DetachArm arm) reply pool.new) }
{
    match detach(pool, named(arm)) {
        Ok(group) => Ok(Reply::Detached { arm, group }),
        Err(DetachFault::Slot { why }) => Ok(Reply::DetachRefused { arm, why }),
        Err(DetachFault::Sync { why }) => match why {
            SyncFault::Worn => Ok(Reply::DetachWorn { arm }),
            SyncFault::Last => Ok(Reply::DetachLast { arm }),
            SyncFault::NoMemory => Ok(Reply::NoMemory {
                command: CommandName::Detach,
            }),
            SyncFault::Shelf => Err(Failed),
        },
    }
}

/// The arm that a line names. The parity of a spare isn't compared.
fn named(arm: ArmArgument) -> ArmName
    ensures { result ≡ arm_of arm }
{
    match arm {
        ArmArgument::Leaf { leaf } => ArmName::Leaf { leaf },
        ArmArgument::Spare { spare, .. } => ArmName::Spare { spare },
    }
}
