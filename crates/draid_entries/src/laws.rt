ghost use Rattle.std.specs.Prelude.{◌≡◌, ◌<◌, ◌↔◌, ℕ};
ghost use Rattle.draid_machine.specs.declared.names.Key.{Key};
ghost use Rattle.draid_machine.specs.State.{Core};
ghost use Rattle.draid_machine.specs.Step.{HoldsFewer};
ghost use Rattle.draid_entries.specs.declared.entries.Entries.{Entries};
ghost use Rattle.draid_entries.specs.Entries.{count_of, held_in, owed_by};
ghost use Rattle.draid_entries.specs.Owed.{OwedByBlocks};

/// Law: a state with the blocks and tickets of a table holds as many.
pub fn entries_are_few()
    ensures { (t : Entries) (q : Core) (limit : ℕ) → ((key : Key) → q.held key ≡ held_in t key)
        → (HoldsFewer q limit ↔ count_of t < limit) }
{}

/// Law: what the blocks and tickets of a state owe is what those of its table do.
pub fn entries_owe()
    ensures { (t : Entries) (q : Core) (columns owed : ℕ) → ((key : Key) → q.held key ≡ held_in t key)
        → (OwedByBlocks columns q owed ↔ (owed ≡ owed_by columns t)) }
{}
