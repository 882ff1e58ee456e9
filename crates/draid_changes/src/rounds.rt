//! What a change of a leaf does to all metaslabs, which it holds one at a time, in ascending order.
ghost use Rattle.std.specs.Prelude.{◌≡◌, true, OnOk};
ghost use Rattle.draid_shard.specs.Fits.{Valid};
ghost use Rattle.draid_pool.specs.Drifts.{groups_number};
ghost use Rattle.draid_pool.specs.Rounds.{EachIs};
ghost use Rattle.draid_changes.specs.Behind.{IsSwitched};
ghost use Rattle.draid_changes.specs.Switching.{HasReserved, ReservesEach, SwitchesEach};
ghost use Rattle.draid_changes.specs.Walks.{MaySwitch};
ghost use Rattle.draid_shard.specs.declared.shard.Shard.{Shard};

use crate::holding::{ReserveOp, SwitchOp};
use draid_area::Area;
use draid_entries::ReserveFault;
use draid_pool::Metaslabs;
use draid_rack::Rack;

/// Reserves an event in each of so many metaslabs, for a change of its arms.
pub(crate) fn reserve_each<R: Rack, A: Area, M: Metaslabs<R, A>>(
    metaslabs: &mut M,
    count: u32,
) -> Result<(), ReserveFault>
    requires fits { M.fits metaslabs.old }
    requires own { M.owns metaslabs.old groups_number ≡ true }
    requires valid { EachIs count (Valid R.Rack) (M.last metaslabs.old) }
    ensures fits { M.fits metaslabs.new }
    ensures locks { M.locks metaslabs.new ≡ M.locks metaslabs.old }
    ensures owns { M.owns metaslabs.new ≡ M.owns metaslabs.old }
    ensures next { OnOk result (EachIs count (HasReserved R.Rack) (M.last metaslabs.new)) }
    ensures reserves { ReservesEach R.Rack A.Area M.last M.went M.shared (M.owns metaslabs.old) count metaslabs.old result metaslabs.new }
{
    for metaslab in 0..count {
        let op = metaslabs.hold(metaslab, ReserveOp { out: None });
        let Some(reserved) = op.out else {
            unreachable!()
        };
        match reserved {
            Ok(()) => {}
            Err(fault) => return Err(fault),
        }
    }
    Ok(())
}

/// Takes a leaf that is an arm offline or online in each of so many metaslabs, for which an event is reserved there.
pub(crate) fn switch_each<R: Rack, A: Area, M: Metaslabs<R, A>>(
    metaslabs: &mut M,
    count: u32,
    leaf: u64,
    offline: bool,
)
    requires fits { M.fits metaslabs.old }
    requires own { M.owns metaslabs.old groups_number ≡ true }
    requires ready { EachIs count (MaySwitch R.Rack leaf) (M.last metaslabs.old) }
    ensures fits { M.fits metaslabs.new }
    ensures locks { M.locks metaslabs.new ≡ M.locks metaslabs.old }
    ensures owns { M.owns metaslabs.new ≡ M.owns metaslabs.old }
    ensures switched { EachIs count (λ (shard : Shard R A). IsSwitched shard.slots leaf offline) (M.last metaslabs.new) }
    ensures switches { SwitchesEach R.Rack A.Area M.last M.went M.shared (M.owns metaslabs.old) count leaf offline metaslabs.old metaslabs.new }
{
    for metaslab in 0..count {
        metaslabs.hold(metaslab, SwitchOp { leaf, offline });
    }
}
