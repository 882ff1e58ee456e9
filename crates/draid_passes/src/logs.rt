ghost use Rattle.std.specs.Prelude.{◌≡◌, ◌<◌, true, OnOk};
ghost use Rattle.draid_machine.specs.After as after;
ghost use Rattle.draid_machine.specs.Names.{has_name, name_eq};
ghost use Rattle.draid_machine.specs.declared.names.ArmName.{ArmName};
ghost use Rattle.draid_passes.specs.Logs.{changed_at};
ghost use Rattle.draid_world.specs.World.{arm_in, arm_of};

use draid_machine::ArmName;
use draid_names::{NUMBERS, NoMemory};
use draid_world::Arm;
use std::collections::BTreeMap;

/// Makes the log of an arm that of the groups from 1 to `last`.
fn fill(arm: &mut Arm, last: u64) -> Result<(), NoMemory>
    requires last { last < NUMBERS }
    ensures { OnOk result (arm_of arm.new ≡ after.fill_if true last (arm_of arm.old)) }
{
    arm.log.reserve(1)?;
    arm.log.fill(last);
    Ok(())
}

/// Fills the log of an arm, if there is one of that name.
fn fill_at(arms: &mut BTreeMap<ArmName, Arm>, name: ArmName, last: u64) -> Result<(), NoMemory>
    requires last { last < NUMBERS }
    ensures { OnOk result ((n : ArmName) → arm_in arms.new.entries n ≡ changed_at (name_eq name n) (after.fill_if true last) (arm_in arms.old.entries n)) }
{
    if let Some(arm) = arms.get_mut(&name) {
        fill(arm, last)?;
    }
    Ok(())
}

/// Fills the logs of some arms.
pub(crate) fn fill_logs(
    arms: &mut BTreeMap<ArmName, Arm>,
    names: &[ArmName],
    last: u64,
) -> Result<(), NoMemory>
    requires last { last < NUMBERS }
    ensures { OnOk result ((n : ArmName) → arm_in arms.new.entries n ≡ after.map_arm (after.fill_if (has_name names.now n) last) (arm_in arms.old.entries n)) }
{
    for name in names {
        fill_at(arms, *name, last)?;
    }
    Ok(())
}

/// Takes the groups up to `upto` out of an arm's log.
fn excise(arm: &mut Arm, upto: u64)
    requires upto { upto < NUMBERS }
    ensures { arm_of arm.new ≡ after.excise_if true upto (arm_of arm.old) }
{
    arm.log.excise(upto);
    arm.fresh = false;
}

/// Takes the groups up to `upto` out of the log of an arm, if there is one of that name.
fn excise_at(arms: &mut BTreeMap<ArmName, Arm>, name: ArmName, upto: u64)
    requires upto { upto < NUMBERS }
    ensures { (n : ArmName) → arm_in arms.new.entries n ≡ changed_at (name_eq name n) (after.excise_if true upto) (arm_in arms.old.entries n) }
{
    if let Some(arm) = arms.get_mut(&name) {
        excise(arm, upto);
    }
}

/// Takes the groups up to `upto` out of the logs of some arms.
pub(crate) fn excise_logs(arms: &mut BTreeMap<ArmName, Arm>, names: &[ArmName], upto: u64)
    requires upto { upto < NUMBERS }
    ensures { (n : ArmName) → arm_in arms.new.entries n ≡ after.map_arm (after.excise_if (has_name names.now n) upto) (arm_in arms.old.entries n) }
{
    for name in names {
        excise_at(arms, *name, upto);
    }
}
