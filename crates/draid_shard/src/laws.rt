ghost use Rattle.std.specs.Prelude.{◌≡◌, ◌+◌, ◌↔◌, ℕ};
ghost use Rattle.draid_machine.specs.declared.event.Event.{Event};
ghost use Rattle.draid_machine.specs.State as machine;
ghost use Rattle.draid_machine.specs.Step.{Step};
ghost use Rattle.draid_entries.specs.History.{owed_of, reserved_of};
ghost use Rattle.draid_entries.specs.Owed.{IsOwed};
ghost use Rattle.draid_segments.specs.Acts.{WritesPieces, pieces_after};
ghost use Rattle.draid_segments.specs.Segments.{Pieces};
ghost use Rattle.draid_shard.specs.Calls.{ActsOn};
ghost use Rattle.draid_shard.specs.Fits.{Valid};
ghost use Rattle.draid_shard.specs.Part.{IsPart};
ghost use Rattle.draid_shard.specs.Stands.{StandsFor};
ghost use Rattle.draid_shard.specs.States.{Does, DoesNone, IsIn, layout_by, part_of};
ghost use Rattle.draid_shard.specs.declared.shard.Shard.{Shard};

use draid_area::Area;
use draid_rack::Rack;

/// Law: where a call did an event, and its rack did what that event's call does to it, a shard that stood for a state
/// stands for the one behind the event, and its rack has what that says. A call without an event, and without a change
/// of what the rack tells, leaves it so.
pub fn calls_keep_what_stands<R: Rack, A: Area>()
    ensures event { (old new : Shard R A) (e : Event) (w : machine.State) (pieces written : Pieces)
        → IsPart (part_of old) → Does old new e
        → ActsOn R.Rack old new e written → StandsFor R.Rack old w pieces
        → ((v : machine.State) (step : Step (layout_by old) w e v) → WritesPieces (layout_by old) w e v step pieces written)
        → (v : machine.State) × (step : Step (layout_by old) w e v)
        × StandsFor R.Rack new v (pieces_after (layout_by old) w e v step pieces written) }
    ensures none { (old new : Shard R A) (w : machine.State) (pieces : Pieces) → DoesNone old new
        → R.told new.rack ≡ R.told old.rack → StandsFor R.Rack old w pieces → StandsFor R.Rack new w pieces }
{}

/// Law: what the history owes, without what is reserved, is what is owed in each state for which the shard stands.
pub fn worn_is_what_is_owed<R: Rack, A: Area>()
    ensures { (shard : Shard R A) (w : machine.State) (owed : ℕ) → Valid R.Rack shard → IsIn shard w
        → (IsOwed shard.geometry.g w owed ↔ (owed + reserved_of shard.history ≡ owed_of shard.history)) }
{}

/// Law: a valid shard stands for some state of its metaslab.
pub fn valid_shards_have_states<R: Rack, A: Area>()
    ensures { (shard : Shard R A) → Valid R.Rack shard → (w : machine.State) × IsIn shard w }
{}
