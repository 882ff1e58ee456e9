ghost use Rattle.std.specs.Prelude.{◌≡◌, IsSome, None};
ghost use Rattle.draid_machine.specs.declared.event.Event.TheVariants.{Cancel};
ghost use Rattle.draid_segments.specs.Segments.{Pieces};
ghost use Rattle.draid_shard.specs.Calls.{ActsOn, SameKit, SameReserve};
ghost use Rattle.draid_shard.specs.Changes.{KeepsBlocks};
ghost use Rattle.draid_shard.specs.Fits.{Valid};
ghost use Rattle.draid_shard.specs.States.{Does};

use crate::owing::{owed_for_loan, owed_for_pass};
use draid_area::Area;
use draid_machine::Event;
use draid_rack::Rack;
use draid_shard::Shard;

/// Ends the pass that there is before its work is done. The logs of its targets stay, and its loan doesn't count any more.
pub fn cancel<R: Rack, A: Area>(shard: &mut Shard<R, A>)
    requires valid { Valid R.Rack shard.old }
    requires pass { IsSome shard.old.pass }
    ensures valid { Valid R.Rack shard.new }
    ensures kit { SameKit shard.old shard.new }
    ensures event { Does shard.old shard.new Cancel }
    ensures acts { (pieces : Pieces) → ActsOn R.Rack shard.old shard.new Cancel pieces }
    ensures keeps { KeepsBlocks shard.old shard.new }
    ensures slots { shard.new.slots ≡ shard.old.slots }
    ensures none { shard.new.pass ≡ None }
    ensures reserve { SameReserve shard.old shard.new }
{
    let used = owed_for_pass(&shard.pass) + owed_for_loan(&shard.kept);
    shard.pass = None;
    shard.kept = None;
    shard.space.enable();
    shard.history.add(Event::Cancel, used);
}
