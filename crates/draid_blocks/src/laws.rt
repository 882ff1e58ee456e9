ghost use Rattle.std.specs.Prelude.{◌≡◌, ◌⊎◌, ℕ, List, Some};
ghost use Rattle.draid_block.specs.Blocks.{AreColumns, IsContent, cut_of};
ghost use Rattle.draid_block.specs.Solving.{IsReadable};
ghost use Rattle.draid_block.specs.declared.solve.Fetched.{Fetched};
ghost use Rattle.draid_names.specs.declared.pointer.Pointer.{Pointer};
ghost use Rattle.draid_rack.specs.Rack.{OnTold};
ghost use Rattle.draid_machine.specs.declared.names.Held.{Held};
ghost use Rattle.draid_machine.specs.State as machine;
ghost use Rattle.draid_entries.specs.Maps.{key_of};
ghost use Rattle.draid_segments.specs.Reads.{MoreBad};
ghost use Rattle.draid_segments.specs.Segments.{Pieces};
ghost use Rattle.draid_blocks.specs.Fetching.{Fetches};
ghost use Rattle.draid_shard.specs.Columns.{ArePieces};
ghost use Rattle.draid_shard.specs.Fits.{Valid};
ghost use Rattle.draid_shard.specs.Stands.{StandsFor};
ghost use Rattle.draid_shard.specs.States.{layout_by};
ghost use Rattle.draid_shard.specs.declared.shard.Shard.{Shard};

use draid_area::Area;
use draid_rack::Rack;

/// Law: a block that was fetched is readable, but for its bad columns, or more columns are bad than there are parity
/// columns.
pub fn fetched_blocks_are_readable<R: Rack, A: Area>()
    ensures { (old new : Shard R A) (pointer : Pointer) (fetched : Fetched) (w : machine.State) (h : Held) (pieces : Pieces)
        (bytes : List ℕ) (columns : List (List ℕ)) (fetches : Fetches R.Rack old new pointer fetched)
        → Valid R.Rack old → StandsFor R.Rack old w pieces → w.core.held (key_of pointer) ≡ Some h
        → IsContent pointer bytes → AreColumns (cut_of old.geometry) bytes columns
        → ArePieces old.geometry.props.sector old.geometry.g pointer.stripes columns (key_of pointer) pieces
        → OnTold (R.told old.rack) (λ x. ((bad : List ℕ) × IsReadable (cut_of old.geometry) fetched bytes bad)
        ⊎ MoreBad (layout_by old) w x.harmed (key_of pointer) h fetches.failed.items) }
{}
