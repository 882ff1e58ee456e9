ghost use Rattle.std.specs.Prelude.{◌≡◌, ◌↔◌, IfOk, IsTrue, OnErr, Some, is_err, max};
ghost use Rattle.draid_machine.specs.declared.event.Event.TheVariants.{Free};
ghost use Rattle.draid_machine.specs.declared.names.Stage.TheVariants.{Freed};
ghost use Rattle.draid_entries.specs.Maps.{key_of, staged};
ghost use Rattle.draid_shard.specs.Fits.{IsFloor, Valid};
ghost use Rattle.draid_shard.specs.Looks.{IsLive};
ghost use Rattle.draid_shard.specs.Calls.{SameKit, SameReserve};
ghost use Rattle.draid_shard.specs.Changes.{SetsBlock};
ghost use Rattle.draid_shard.specs.States.{Does};

use crate::fault::NotLive;
use draid_area::Area;
use draid_entries::key_of;
use draid_machine::{Event, Stage};
use draid_names::Pointer;
use draid_rack::Rack;
use draid_shard::Shard;

/// Frees a live block in a transaction group, which is the answer: the open one, or `floor` where that is the next
/// one. Its stripes stay taken until that group is committed.
pub fn free<R: Rack, A: Area>(
    shard: &mut Shard<R, A>,
    pointer: &Pointer,
    floor: u64,
) -> Result<u64, NotLive>
    requires valid { Valid R.Rack shard.old }
    requires floor { IsFloor shard.old floor }
    ensures valid { Valid R.Rack shard.new }
    ensures kit { SameKit shard.old shard.new }
    ensures not_live { IsTrue (is_err result) ↔ (IsLive shard.old pointer.now → ⊥) }
    ensures event { IfOk result (λ group. (group ≡ max shard.old.open_group floor) × Does shard.old shard.new (Free (key_of pointer.now) group)) }
    ensures sets { IfOk result (λ group. SetsBlock shard.old shard.new pointer.now (Some (staged (Freed group) pointer.now))) }
    ensures same { OnErr result (shard.new ≡ shard.old) }
    ensures reserve { SameReserve shard.old shard.new }
    ensures pass { shard.new.pass ≡ shard.old.pass }
{
    if !shard.is_live(pointer) {
        return Err(NotLive);
    }
    let group = shard.open_group.max(floor);
    shard.entries.turn(pointer, Stage::Freed { group });
    let event = Event::Free {
        key: key_of(pointer),
        group,
    };
    shard.history.add(event, 1);
    Ok(group)
}
