ghost use Rattle.std.specs.Prelude.{◌<◌, ◌^◌, true};
ghost use Rattle.draid_shard.specs.Rows.{HasRoomFor, MissesAt};
ghost use Rattle.draid_slots.specs.Table.{IsThere};

use draid_names::ArmAt;
use draid_slots::Slots;

/// Notes in the log of an arm that a block born in this group isn't whole there.
pub fn miss(slots: &mut Slots, at: ArmAt, birth: u64)
    requires there { IsThere slots.old at }
    requires birth { birth < 2 ^ 48 }
    requires room { HasRoomFor slots.old birth }
    ensures { MissesAt slots.old slots.new at birth true }
{
    if !slots.log(at).contains(birth) {
        slots.dirty(at, birth);
    }
}
