ghost use Rattle.std.specs.Prelude.{◌≡◌, ◌||◌, ℕ, MatchOption, Vec};
ghost use Rattle.std.specs.declared.alloc.Global.{Global};
ghost use Rattle.draid_machine.specs.declared.names.Segment.{Segment};
ghost use Rattle.draid_machine.specs.After.{reopen_state};
ghost use Rattle.draid_machine.specs.Created.{IsReached};
ghost use Rattle.draid_machine.specs.Images.{IsImage};
ghost use Rattle.draid_machine.specs.Names.{has_segment};
ghost use Rattle.draid_machine.specs.State as machine;
ghost use Rattle.draid_segments.specs.Segments.{Firm, Pieces};
ghost use Rattle.draid_shelf.specs.declared.kit.Kit.{Kit};
ghost use Rattle.draid_stable.specs.Images.{LeavesBelow};
ghost use Rattle.draid_stable.specs.Stable.{HasRecord};
ghost use Rattle.draid_shard.specs.Part.{IsPart};
ghost use Rattle.draid_shard.specs.Stands.{StandsFor};
ghost use Rattle.draid_shard.specs.States.{layout_by, part_of};
ghost use Rattle.draid_shard.specs.declared.shard.Shard.{Shard};
ghost use Rattle.draid_import.specs.Reopening.{Opens, area_of_kit};
ghost use Rattle.draid_pool.specs.Groups.{at_version};

use draid_area::Area;
use draid_rack::Rack;

/// Law: a metaslab that was opened from the record of a state's image, over a rack on which that image is firm but for
/// what is in doubt, stands for the state that the opening from that image gives.
pub fn opened_shards_stand<R: Rack, A: Area>()
    ensures { (kit : Kit R A) (shard : Shard R A) (group next : ℕ) (w : machine.State) (image : machine.Image)
        (doubtful : Vec Segment Global) (pieces : Pieces) → Opens R.Rack A.told kit group next shard
        → IsPart (part_of shard) → IsReached (layout_by shard) w → IsImage w image → image.group ≡ group
        → image.version ≡ shard.geometry.props.version → LeavesBelow next image
        → MatchOption (A.told (area_of_kit kit group)) ⊥
        (HasRecord (at_version image.version shard.geometry) shard.number image)
        → MatchOption (R.told kit.rack) ⊥
        (Firm (layout_by shard) pieces image (λ s. w.aside s || has_segment doubtful.items s))
        → StandsFor R.Rack shard (reopen_state (layout_by shard) w image doubtful.items) pieces }
{}
