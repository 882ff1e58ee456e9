ghost use Rattle.std.specs.Prelude.{◌≡◌, ◌<◌, None, IfErr, OnErr, OnOk};
ghost use Rattle.draid_entries.specs.History.{reserved_of};
ghost use Rattle.draid_machine.specs.declared.event.Event.TheVariants.{Detach};
ghost use Rattle.draid_segments.specs.Segments.{Pieces};
ghost use Rattle.draid_shard.specs.Calls.{ActsOn, SameKit};
ghost use Rattle.draid_shard.specs.Changes.{KeepsBlocks};
ghost use Rattle.draid_shard.specs.Fits.{Valid};
ghost use Rattle.draid_shard.specs.States.{Does};
ghost use Rattle.draid_slots.specs.Faults.{IsDetachRefused};
ghost use Rattle.draid_disks.specs.Disks.{HasArmRoom, HasDetached, IsNamed, KeepsLeafLogs, Uses};

use crate::attaching::last_missed;
use crate::renewing::renew;
use draid_area::Area;
use draid_machine::{ArmName, Event};
use draid_names::{ArmAt, SlotFault};
use draid_rack::Rack;
use draid_shard::Shard;

/// Takes an arm out of its slot, while no pass runs. One event is reserved for it, and room in memory.
pub fn detach<R: Rack, A: Area>(
    shard: &mut Shard<R, A>,
    at: ArmAt,
    arm: ArmName,
) -> Result<(), SlotFault>
    requires valid { Valid R.Rack shard.old }
    requires reserved { 0 < reserved_of shard.old.history }
    requires room { HasArmRoom shard.old }
    requires pass { shard.old.pass ≡ None }
    requires there { IsNamed shard.old.slots at arm }
    ensures valid { Valid R.Rack shard.new }
    ensures kit { SameKit shard.old shard.new }
    ensures event { OnOk result (Does shard.old shard.new (Detach at.slot arm)) }
    ensures acts { OnOk result ((pieces : Pieces) → ActsOn R.Rack shard.old shard.new (Detach at.slot arm) pieces) }
    ensures reserve { OnOk result (Uses shard.old.history shard.new.history 1) }
    ensures arms { OnOk result (HasDetached shard.old.slots shard.new.slots at shard.old.open_group) }
    ensures logs { OnOk result (KeepsLeafLogs shard.old.slots shard.new.slots at) }
    ensures pass { shard.new.pass ≡ shard.old.pass }
    ensures keeps { KeepsBlocks shard.old shard.new }
    ensures refused { IfErr result (IsDetachRefused shard.old.slots at) }
    ensures same { OnErr result (shard.new ≡ shard.old) }
{
    let upto = last_missed(shard);
    let moved = shard.slots.detach(at, shard.open_group)?;
    renew(&mut shard.slots, &moved, shard.geometry.spec.spares, upto);
    shard
        .history
        .add_reserved(Event::Detach { slot: at.slot, arm }, 0);
    Ok(())
}
