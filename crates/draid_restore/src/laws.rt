ghost use Rattle.std.specs.Prelude.{◌≡◌, ◌⊎◌, ℕ, List, Some};
ghost use Rattle.draid_block.specs.Blocks.{AreColumns, IsContent, cut_of};
ghost use Rattle.draid_block.specs.Solving.{IsReadable};
ghost use Rattle.draid_rack.specs.Rack.{OnTold};
ghost use Rattle.draid_machine.specs.declared.names.Held.{Held};
ghost use Rattle.draid_machine.specs.State as machine;
ghost use Rattle.draid_entries.specs.Maps.{key_of};
ghost use Rattle.draid_segments.specs.Reads.{MoreBad};
ghost use Rattle.draid_segments.specs.Segments.{Pieces};
ghost use Rattle.draid_shard.specs.Columns.{ArePieces};
ghost use Rattle.draid_shard.specs.Fits.{Valid};
ghost use Rattle.draid_shard.specs.Stands.{StandsFor};
ghost use Rattle.draid_shard.specs.States.{layout_by};
ghost use Rattle.draid_shard.specs.declared.shard.Shard.{Shard};
ghost use Rattle.draid_restore.specs.Loans.{LendsBlock};
ghost use Rattle.draid_restore.specs.Restoring.{fetched_of};

use draid_area::Area;
use draid_rack::Rack;

/// Law: what was read of a block as it was lent is readable, but for its bad columns, or more columns are bad than
/// there are parity columns.
pub fn lent_blocks_are_readable<R: Rack, A: Area>()
    ensures { (old new : Shard R A) (w : machine.State) (h : Held) (pieces : Pieces) (bytes : List ℕ) (columns : List (List ℕ))
        (lends : LendsBlock R.Rack old new) → Valid R.Rack old → Valid R.Rack new → StandsFor R.Rack old w pieces
        → w.core.held (key_of lends.lent.pointer) ≡ Some h
        → IsContent lends.lent.pointer bytes → AreColumns (cut_of old.geometry) bytes columns
        → ArePieces old.geometry.props.sector old.geometry.g lends.lent.pointer.stripes columns (key_of lends.lent.pointer) pieces
        → OnTold (R.told old.rack) (λ x. ((bad : List ℕ) × IsReadable (cut_of old.geometry) (fetched_of lends.lent) bytes bad)
        ⊎ MoreBad (layout_by old) w x.harmed (key_of lends.lent.pointer) h lends.failed.items) }
{}
