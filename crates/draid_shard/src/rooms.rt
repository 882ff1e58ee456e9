ghost use Rattle.std.specs.Prelude.{◌≡◌, ◌+◌, ◌↔◌, Some, IfNone, IfSome, IsTrue, OnErr, OnOk, is_some, max};
ghost use Rattle.draid_names.specs.Numbers as numbers;
ghost use Rattle.draid_names.specs.declared.pass_kind.PassKind.TheVariants.{Rebuild};
ghost use Rattle.draid_entries.specs.Entries.{count_of};
ghost use Rattle.draid_entries.specs.History.{AskIs, IsAsked, IsReserved, left_for_groups, limit_in, reserved_of};
ghost use Rattle.draid_machine.specs.Step.{HoldsFewer, IsEnabled};
ghost use Rattle.draid_machine.specs.State as machine;
ghost use Rattle.draid_shard.specs.Rooms.{IsRoom, ShutBy};
ghost use Rattle.draid_shard.specs.Calls.{SameKit};
ghost use Rattle.draid_shard.specs.Alike.{KeepsArms};
ghost use Rattle.draid_shard.specs.Changes.{KeepsBlocks};
ghost use Rattle.draid_shard.specs.Fits.{Valid, is_rebuild};
ghost use Rattle.draid_shard.specs.States.{DoesNone, IsIn, stored_in};

use crate::fault::Shut;
use crate::shard::Shard;
use draid_area::Area;
use draid_entries::ReserveFault;
use draid_machine::Event;
use draid_names::{PassKind, Room, most_held};
use draid_pass::Pass;
use draid_rack::Rack;

impl<R: Rack, A: Area> Shard<R, A> {
    /// What was done since the opening, in order.
    pub fn events(&self) -> &[Event]
        ensures { result.now ≡ stored_in self.now }
    {
        self.history.events()
    }

    /// How many events the write of a block asks for: its own, one for each column, one for its end, and one for the
    /// freeing of the block.
    pub fn block_events(&self) -> u64
        ensures { result ≡ self.now.geometry.g + 3 }
    {
        u64::from(self.geometry.g) + 3
    }

    /// Whether it holds as many blocks and open writes as it may.
    pub fn is_full(&self) -> bool
        requires valid { Valid R.Rack self.now }
        ensures count { IsTrue result ↔ (count_of self.now.entries ≡ numbers.most_held self.now.version) }
        ensures held { (w : machine.State) → IsIn self.now w → IsTrue result ↔ (HoldsFewer w.core (numbers.most_held w.version) → ⊥) }
    {
        self.entries.count() == most_held(self.version)
    }

    /// The rebuild that has the metaslab.
    pub fn rebuild(&self) -> Option<u64>
        ensures some { (w : machine.State) → IsIn self.now w → IfSome result (λ number. (p : machine.Pass) × (w.core.pass ≡ Some p) × (p.kind ≡ Rebuild) × (number ≡ p.number)) }
        ensures none { (w : machine.State) → IsIn self.now w → IfNone result (IsEnabled w.core) }
        ensures is { IsTrue (is_some result) ↔ IsTrue (is_rebuild self.now.pass) }
    {
        match &self.pass {
            Some(pass) if matches!(pass.kind, PassKind::Rebuild) => Some(pass.number),
            _ => None,
        }
    }

    /// Why the metaslab takes no new block; None where it takes one.
    pub fn shut(&self) -> Option<Shut>
        requires valid { Valid R.Rack self.now }
        ensures { (w : machine.State) → IsIn self.now w → ShutBy self.now w result }
    {
        if self.rebuild().is_some() {
            return Some(Shut::Disabled);
        }
        if self.is_full() {
            return Some(Shut::Full);
        }
        if self.history.is_worn(self.block_events()) {
            return Some(Shut::Worn);
        }
        None
    }

    /// The room for a block of `need` stripes: the longest run of free stripes within one group, none where the
    /// metaslab takes no block.
    pub fn room(&self, need: u64) -> Room
        requires valid { Valid R.Rack self.now }
        ensures named { (result.metaslab ≡ self.now.number) × (result.need ≡ need) }
        ensures run { (w : machine.State) → IsIn self.now w → IsRoom self.now w result.run }
    {
        Room {
            metaslab: self.number,
            run: self.longest_run(),
            need,
        }
    }

    /// The longest run of free stripes within one group, none where the metaslab takes no block.
    fn longest_run(&self) -> u64
        requires valid { Valid R.Rack self.now }
        ensures { (w : machine.State) → IsIn self.now w → IsRoom self.now w result }
    {
        match self.shut() {
            Some(_) => 0,
            None => self.space.largest(),
        }
    }

    /// Reserves so many events, less those that are reserved.
    pub fn reserve(&mut self, events: u32) -> Result<(), ReserveFault>
        requires valid { Valid R.Rack self.old }
        ensures valid { Valid R.Rack self.new }
        ensures kit { SameKit self.old self.new }
        ensures none { DoesNone self.old self.new }
        ensures keeps { KeepsBlocks self.old self.new }
        ensures slots { KeepsArms self.old.slots self.new.slots }
        ensures answer { IsReserved self.old.history events result }
        ensures reserved { OnOk result (reserved_of self.new.history ≡ max events (reserved_of self.old.history)) }
        ensures same { OnErr result (reserved_of self.new.history ≡ reserved_of self.old.history) }
        ensures limit { limit_in self.new.history ≡ limit_in self.old.history }
    {
        self.history.reserve(u64::from(events))
    }

    /// Asks for so many events: there is room for them then, beside those that are owed.
    pub fn ask(&mut self, events: u64) -> Result<(), ReserveFault>
        requires valid { Valid R.Rack self.old }
        ensures valid { Valid R.Rack self.new }
        ensures kit { SameKit self.old self.new }
        ensures none { DoesNone self.old self.new }
        ensures keeps { KeepsBlocks self.old self.new }
        ensures slots { KeepsArms self.old.slots self.new.slots }
        ensures answer { AskIs self.old.history events left_for_groups result }
        ensures asked { OnOk result (IsAsked self.new.history events) }
        ensures same { reserved_of self.new.history ≡ reserved_of self.old.history }
        ensures limit { limit_in self.new.history ≡ limit_in self.old.history }
    {
        self.history.ask(events)
    }
}
