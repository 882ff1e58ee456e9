ghost use Rattle.std.specs.Prelude.{◌≡◌, ◌+◌, ◌<◌, ◌≤◌, ◌^◌, true, false, ℕ, Some, IfNone, IfSome};
ghost use Rattle.draid_machine.specs.Step.{Fits};
ghost use Rattle.draid_machine.specs.declared.names.Key.{Key};
ghost use Rattle.draid_steps.specs.Room.{meets};
ghost use Rattle.draid_world.specs.World.{AreLow, core_of, held_in, site_layout};

use draid_machine::{Held, Key};
use draid_names::NUMBERS;
use draid_world::{Site, Tables};
use std::collections::BTreeMap;

/// Whether a block or a ticket has a stripe of a run.
fn is_meeting(held: &Held, first: u64, stripes: u32) -> bool
    requires held { held.now.first < NUMBERS }
    requires first { first < NUMBERS }
    ensures { result ≡ meets first stripes held.now }
{
    held.first < first + u64::from(stripes)
        && first < held.first + u64::from(held.stripes)
        && held.stripes > 0
}

/// A block or a ticket that has a stripe of a run.
fn meeting(held: &BTreeMap<Key, Held>, first: u64, stripes: u32) -> Option<Held>
    requires low { (k : Key) (h : Held) → held_in held.now.entries k ≡ Some h → h.first < NUMBERS }
    requires first { first < NUMBERS }
    ensures some { IfSome result (λ h. (k : Key) × (held_in held.now.entries k ≡ Some h) × (meets first stripes h ≡ true)) }
    ensures none { IfNone result ((k : Key) (h : Held) → held_in held.now.entries k ≡ Some h → meets first stripes h ≡ false) }
{
    for (_, found) in held.iter() {
        if is_meeting(found, first, stripes) {
            return Some(*found);
        }
    }
    None
}

/// The lowest place from one on at which a run may fit: that place itself exactly if the run fits there, else the end of its group or of
/// what stands in its way.
fn next_place(site: &Site, tables: &Tables, first: u64, stripes: u32) -> u64
    requires low { AreLow (core_of tables.now) }
    requires some { 0 < stripes }
    requires first { first < NUMBERS }
    ensures from { first ≤ result }
    ensures upto { result < 2 ^ 49 }
    ensures fits { result ≡ first → Fits (site_layout site.now) (core_of tables.now) first stripes }
    ensures before { (x : ℕ) → first ≤ x → x < result → Fits (site_layout site.now) (core_of tables.now) x stripes → ⊥ }
{
    let height = u64::from(site.geometry.props.height);
    let run = u64::from(stripes);
    let end = first + run;
    if run > height || end > site.stripes() {
        return NUMBERS;
    }
    let group_end = first - first % height + height;
    if end > group_end {
        return group_end;
    }
    match meeting(&tables.held, first, stripes) {
        Some(held) => held.first + u64::from(held.stripes),
        None => first,
    }
}

/// Whether a place is the lowest at which a run fits. The places in between are passed by leaps.
pub fn is_lowest(site: &Site, tables: &Tables, first: u64, stripes: u32) -> bool
    requires low { AreLow (core_of tables.now) }
    requires some { 0 < stripes }
    requires first { first < NUMBERS }
    ensures fits { result ≡ true → Fits (site_layout site.now) (core_of tables.now) first stripes }
    ensures lowest { result ≡ true → (x : ℕ) → x < first → Fits (site_layout site.now) (core_of tables.now) x stripes → ⊥ }
    ensures no { result ≡ false → Fits (site_layout site.now) (core_of tables.now) first stripes
        → ((x : ℕ) → x < first → Fits (site_layout site.now) (core_of tables.now) x stripes → ⊥) → ⊥ }
{
    let mut next = 0;
    while next < first {
        let found = next_place(site, tables, next, stripes);
        if found == next {
            return false;
        }
        next = found;
    }
    next == first && next_place(site, tables, first, stripes) == first
}
