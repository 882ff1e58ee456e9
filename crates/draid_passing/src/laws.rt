ghost use Rattle.std.specs.Prelude.{◌≡◌, ◌↔◌, []};
ghost use Rattle.draid_machine.specs.Arms.{targets_of};
ghost use Rattle.draid_machine.specs.State as machine;
ghost use Rattle.draid_names.specs.declared.pass_kind.PassKind.TheVariants.{Rebuild};
ghost use Rattle.draid_passing.specs.Passing.{LacksTarget};
ghost use Rattle.draid_shard.specs.Fits.{Valid};
ghost use Rattle.draid_shard.specs.States.{IsIn, layout_by};
ghost use Rattle.draid_shard.specs.declared.shard.Shard.{Shard};

use draid_area::Area;
use draid_rack::Rack;

/// Law: a rebuild that a plan would give no target has none in each state for which the shard stands, and no other.
pub fn lacking_targets_are_told<R: Rack, A: Area>()
    ensures { (shard : Shard R A) (w : machine.State) → Valid R.Rack shard → IsIn shard w
        → LacksTarget shard.slots Rebuild ↔ (targets_of (layout_by shard) w.core Rebuild ≡ []) }
{}
