ghost use Rattle.std.specs.Prelude.{◌≡◌, ◌⊎◌, ℕ, List, Option, Some, true};
ghost use Rattle.draid_block.specs.Columns.{Cut};
ghost use Rattle.draid_block.specs.Solving.{IsReadable};
ghost use Rattle.draid_block.specs.declared.solve.Fetched.{Fetched};
ghost use Rattle.draid_rack.specs.Rack.{OnTold, Told};
ghost use Rattle.draid_machine.specs.Created.{IsReached};
ghost use Rattle.draid_machine.specs.Names.{is_block};
ghost use Rattle.draid_machine.specs.State as machine;
ghost use Rattle.draid_machine.specs.declared.names.Held.{Held};
ghost use Rattle.draid_machine.specs.declared.names.Key.{Key};
ghost use Rattle.draid_segments.specs.Reads.{MoreBad};
ghost use Rattle.draid_segments.specs.Segments.{Backed, Pieces};
ghost use Rattle.draid_readable.specs.Fetched.{AreFetched, IsFetchedOf};

/// Law: a block whose columns were read is readable, but for its bad columns, or more columns are bad than there
/// are parity columns.
pub fn read_blocks_are_readable()
    ensures { (l : machine.Layout) (cut : Cut) (w : machine.State) (key : Key) (h : Held) (pieces : Pieces) (fetched : Fetched)
        (bytes : List ℕ) (failed : List ℕ) (told : Option Told)
        → machine.IsLayout l → IsReached l w → w.core.held key ≡ Some h → is_block h.stage ≡ true
        → IsFetchedOf l cut h key pieces fetched bytes → AreFetched l w h cut.sector failed fetched.columns.items told
        → OnTold told (Backed l pieces w)
        → OnTold told (λ x. ((bad : List ℕ) × IsReadable cut fetched bytes bad) ⊎ MoreBad l w x.harmed key h failed) }
{}
