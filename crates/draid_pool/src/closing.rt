ghost use Rattle.std.specs.Prelude.{◌≡◌, None, IfErr, OnErr, OnOk, ◌<◌};
ghost use Rattle.draid_names.specs.declared.numbers.TheConstants.{LAST_NUMBER};
ghost use Rattle.draid_machine.specs.declared.event.Event.TheVariants.{Close};
ghost use Rattle.draid_entries.specs.History.{Passes};
ghost use Rattle.draid_shard.specs.Alike.{KeepsArms};
ghost use Rattle.draid_shard.specs.Calls.{SameKit, SameReserve};
ghost use Rattle.draid_shard.specs.Changes.{DoesNothing};
ghost use Rattle.draid_shard.specs.Fits.{Valid};
ghost use Rattle.draid_shard.specs.States.{Does};
ghost use Rattle.draid_pool.specs.Changes.{ClosesGroup};
ghost use Rattle.draid_pool.specs.Groups.{CloseRefused, group_events};
ghost use Rattle.draid_pool.specs.Syncing.{KeepsShard};

use crate::fault::CloseFault;
use draid_area::Area;
use draid_entries::ReserveFault;
use draid_machine::Event;
use draid_names::LAST_NUMBER;
use draid_rack::Rack;
use draid_shard::Shard;

/// In how many groups blocks may be born at a time: a closing one, the open one, and the next, to which a caller may
/// have come.
pub const BIRTH_GROUPS: u32 = 3;

/// The changes of a log for which a closing makes room: the end of a rebuild takes these groups out of its targets' logs
/// once more.
const LOG_CHANGES: u32 = 2 * BIRTH_GROUPS;

/// A group's closing, sealing and committing are three events.
const GROUP_EVENTS: u64 = 3;

/// Closes the open group: from now on blocks are born in the next one.
pub fn close_group<R: Rack, A: Area>(shard: &mut Shard<R, A>, group: u64) -> Result<(), CloseFault>
    requires valid { Valid R.Rack shard.old }
    requires group { group ≡ shard.old.open_group }
    requires idle { shard.old.closing ≡ None }
    ensures valid { Valid R.Rack shard.new }
    ensures kit { SameKit shard.old shard.new }
    ensures event { OnOk result (Does shard.old shard.new (Close group)) }
    ensures not_worn { OnOk result ((Passes shard.old.history group_events 0 → ⊥) × (group < LAST_NUMBER)) }
    ensures closes { OnOk result (ClosesGroup shard.old shard.new group) }
    ensures none { OnErr result (DoesNothing shard.old shard.new) }
    ensures slots { KeepsArms shard.old.slots shard.new.slots }
    ensures refused { IfErr result (CloseRefused shard.old group) }
    ensures reserve { SameReserve shard.old shard.new }
    ensures stays { KeepsShard R.faults shard.old shard.new }
{
    match shard.history.ask_for_group(GROUP_EVENTS) {
        Ok(()) => {}
        Err(ReserveFault::Worn { events }) => return Err(CloseFault::Worn { events }),
        Err(ReserveFault::NoMemory) => return Err(CloseFault::NoMemory),
    }
    if group == LAST_NUMBER {
        return Err(CloseFault::Last);
    }
    let Ok(()) = shard.slots.reserve(shard.alloc, LOG_CHANGES, 0) else {
        return Err(CloseFault::NoMemory);
    };
    shard.closing = Some(group);
    shard.open_group = group + 1;
    shard
        .history
        .add_asked(Event::Close { group }, GROUP_EVENTS);
    Ok(())
}
