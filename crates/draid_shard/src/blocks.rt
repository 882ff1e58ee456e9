ghost use Rattle.std.specs.Prelude.{◌≡◌, ◌≤◌, ◌+◌, ◌↔◌, ℕ, IfNone, IfSome, IsTrue, None, Some};
ghost use Rattle.draid_entries.specs.Entries.{IsEntered, SetsEntry, count_of, entry_at};
ghost use Rattle.draid_shard.specs.Fits.{AreFitting, Tables};
ghost use Rattle.draid_shard.specs.Looks.{IsLive, IsNextHeld};
ghost use Rattle.draid_spec.specs.declared.layout.Geometry.{Geometry};

use crate::shard::Shard;
use draid_area::Area;
use draid_entries::{Entries, Entry};
use draid_machine::Stage;
use draid_metaslab::Space;
use draid_names::Pointer;
use draid_rack::Rack;

impl<R: Rack, A: Area> Shard<R, A> {
    /// Whether the pointer is that of a live block here.
    pub fn is_live(&self, pointer: &Pointer) -> bool
        ensures { IsTrue result ↔ IsLive self.now pointer.now }
    {
        let live = Entry {
            pointer: *pointer,
            stage: Stage::Live,
        };
        self.entries.at(pointer.first) == Some(live)
    }

    /// The first block or open write that begins at a stripe or behind it.
    pub fn next_held(&self, from: u64) -> Option<Pointer>
        ensures some { IfSome result (IsNextHeld self.now from) }
        ensures none { IfNone result ((first : ℕ) → from ≤ first → entry_at self.now.entries first ≡ None) }
    {
        let entry = self.entries.first_from(from)?;
        Some(entry.pointer)
    }

    /// The byte of the first block in the record from which the metaslab was opened, behind which the others follow, each
    /// of 72 bytes; 0 in a new one.
    pub fn blocks_at(&self) -> u64
        ensures { result ≡ self.now.blocks_at }
    {
        self.blocks_at
    }
}

/// Ends an open write without a block: its stripes are free again.
pub fn release(space: &mut Space, entries: &mut Entries, pointer: &Pointer)
    requires tables { AreFitting space.old entries.old }
    requires there { IsEntered entries.old pointer.now }
    ensures tables { (geometry : Geometry) (open_group : ℕ) → Tables geometry open_group space.old entries.old
        → Tables geometry open_group space.new entries.new }
    ensures gone { SetsEntry entries.old entries.new pointer.now None }
    ensures count { count_of entries.new + 1 ≡ count_of entries.old }
    ensures disabled { space.new.disabled ≡ space.old.disabled }
{
    entries.remove(pointer);
    space.release(pointer.first, u64::from(pointer.stripes));
}
