ghost use Rattle.std.specs.Prelude.{◌≡◌, ◌<◌, ◌+◌, Some, is_err};
ghost use Rattle.draid_spec.specs.Geometry.{metaslab_sectors};
ghost use Rattle.draid_machine.specs.declared.event.Event.TheVariants.{Damage};
ghost use Rattle.draid_rack.specs.Rack.{Counts};
ghost use Rattle.draid_segments.specs.Segments.{Pieces};
ghost use Rattle.draid_entries.specs.History.{limit_in, reserved_of};
ghost use Rattle.draid_shard.specs.Calls.{ActsOn, SameAreas};
ghost use Rattle.draid_shard.specs.Alike.{KeepsArms};
ghost use Rattle.draid_shard.specs.Changes.{KeepsBlocks};
ghost use Rattle.draid_shard.specs.Fits.{IsLeaf, Valid};
ghost use Rattle.draid_shard.specs.States.{Does};

use draid_area::Area;
use draid_machine::Event;
use draid_names::Failed;
use draid_rack::Rack;
use draid_shard::Shard;

/// Makes each byte of a sector of the metaslab its complement, and the sector harmed. One event is reserved for it.
pub fn damage<R: Rack, A: Area>(
    shard: &mut Shard<R, A>,
    leaf: u64,
    sector: u64,
) -> Result<(), Failed>
    requires valid { Valid R.Rack shard.old }
    requires reserved { 0 < reserved_of shard.old.history }
    requires leaf { IsLeaf shard.old.slots leaf }
    requires sector { sector < metaslab_sectors shard.old.geometry }
    ensures valid { Valid R.Rack shard.new }
    ensures areas { SameAreas shard.old shard.new }
    ensures event { Does shard.old shard.new (Damage leaf sector (is_err result)) }
    ensures acts { (pieces : Pieces) → ActsOn R.Rack shard.old shard.new (Damage leaf sector (is_err result)) pieces }
    ensures keeps { KeepsBlocks shard.old shard.new }
    ensures slots { KeepsArms shard.old.slots shard.new.slots }
    ensures cause { Counts (Some leaf) result (R.faults shard.old.rack) (R.faults shard.new.rack) }
    ensures reserve { reserved_of shard.new.history + 1 ≡ reserved_of shard.old.history }
    ensures limit { limit_in shard.new.history ≡ limit_in shard.old.history }
{
    let done = shard.rack.damage(leaf, sector);
    let failed = done.is_err();
    let event = Event::Damage {
        leaf,
        sector,
        failed,
    };
    shard.history.add_reserved(event, 0);
    done
}
