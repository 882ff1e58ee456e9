ghost use Rattle.std.specs.Prelude.{◌<◌, ◌^◌, All, None};
ghost use Rattle.draid_names.specs.declared.arm.ArmAt.{ArmAt};
ghost use Rattle.draid_slots.specs.States.{AscendBehind};
ghost use Rattle.draid_slots.specs.Table.{IsThere, is_at, room_at};
ghost use Rattle.draid_plans.specs.Logs.{Excises, Fills, has_place};

use draid_names::ArmAt;
use draid_slots::Slots;

/// Makes the logs of the listed arms those of the groups from 1 to `upto`.
pub(crate) fn fill_logs(slots: &mut Slots, targets: &[ArmAt], upto: u64)
    requires range { upto < 2 ^ 48 }
    requires there { All (IsThere slots.old) targets.now }
    requires ascending { AscendBehind None targets.now }
    requires room { (at : ArmAt) → IsThere slots.old at → 0 < room_at slots.old at }
    ensures { Fills slots.old slots.new (has_place targets.now) upto }
{
    for target in targets {
        slots.fill(*target, upto);
    }
}

/// The groups up to `upto` leave the log of an arm, which isn't fresh any more.
fn excise(slots: &mut Slots, at: ArmAt, upto: u64)
    requires range { upto < 2 ^ 48 }
    requires there { IsThere slots.old at }
    ensures { Excises slots.old slots.new (is_at at) upto }
{
    slots.excise(at, upto);
    slots.set_fresh(at, false);
}

/// The same of the listed arms.
pub(crate) fn excise_logs(slots: &mut Slots, targets: &[ArmAt], upto: u64)
    requires range { upto < 2 ^ 48 }
    requires there { All (IsThere slots.old) targets.now }
    ensures { Excises slots.old slots.new (has_place targets.now) upto }
{
    for target in targets {
        excise(slots, *target, upto);
    }
}
