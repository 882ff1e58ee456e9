ghost use Rattle.std.specs.Prelude.{◌≡◌, ◌<◌, ◌≤◌, ◌^◌, ◌↔◌, IsTrue, true, false};
ghost use Rattle.draid_names.specs.declared.numbers.TheConstants.{NUMBERS};
ghost use Rattle.draid_spec.specs.Geometry.{metaslab_stripes};
ghost use Rattle.draid_machine.specs.Created.{IsReached};
ghost use Rattle.draid_machine.specs.Names.{is_block, is_freed_by};
ghost use Rattle.draid_machine.specs.State.{State};
ghost use Rattle.draid_entries.specs.Thin.{ThinIs};
ghost use Rattle.draid_slots.specs.States.{HasSlots};
ghost use Rattle.draid_slots.specs.Table.{IsTable};
ghost use Rattle.draid_marks.specs.Counting.{BeginBelow, CountIs, HasEntries, IsBornIn, IsOpenUpto, IsThinIn, LacksClean, NoneClean};
ghost use Rattle.draid_marks.specs.Layout.{layout_with};

use draid_entries::{Entries, Entry};
use draid_machine::Stage;
use draid_map::place;
use draid_names::Pointer;
use draid_slots::Slots;

/// How many open writes were begun up to a group.
pub fn tickets_upto(entries: &Entries, group: u64) -> u32
    requires below { BeginBelow entries.now (2 ^ 28) }
    ensures { CountIs entries.now (IsOpenUpto group) result }
{
    let mut tickets = 0;
    let mut stripe = 0;
    while let Some(entry) = entries.first_from(stripe) {
        if is_open_upto(&entry, group) {
            tickets += 1;
        }
        stripe = entry.pointer.first + 1;
    }
    tickets
}

/// How many blocks that were born in a group, and aren't freed up to it, have a column of which no arm that answers
/// is clean.
pub fn thin(slots: &Slots, entries: &Entries, group: u64) -> u64
    requires table { IsTable slots.now }
    requires below { BeginBelow entries.now (metaslab_stripes slots.now.geometry) }
    ensures low { result ≤ NUMBERS }
    ensures counts { CountIs entries.now (IsThinIn slots.now group) result }
    ensures is { (w : State) → IsReached (layout_with slots.now) w → HasSlots slots.now w.core → HasEntries entries.now w.core
        → ThinIs (layout_with slots.now) w.core group result }
{
    let mut thin = 0;
    let mut stripe = 0;
    while let Some(entry) = entries.first_from(stripe) {
        if is_thin(slots, &entry, group) {
            thin += 1;
        }
        stripe = entry.pointer.first + 1;
    }
    thin
}

/// Whether an entry is such a block.
fn is_thin(slots: &Slots, entry: &Entry, group: u64) -> bool
    requires begins { entry.now.pointer.first < metaslab_stripes slots.now.geometry }
    ensures { IsTrue result ↔ IsThinIn slots.now group entry.now }
{
    is_born_in(entry, group) && lacks_clean(slots, &entry.pointer)
}

/// Whether a column of a block has no arm that answers and is clean.
fn lacks_clean(slots: &Slots, pointer: &Pointer) -> bool
    requires begins { pointer.now.first < metaslab_stripes slots.now.geometry }
    ensures { IsTrue result ↔ LacksClean slots.now pointer.now slots.now.geometry.g }
{
    for column in 0..slots.geometry().g {
        if has_no_clean(slots, pointer, column) {
            return true;
        }
    }
    false
}

/// Whether this column has none.
fn has_no_clean(slots: &Slots, pointer: &Pointer, column: u32) -> bool
    requires begins { pointer.now.first < metaslab_stripes slots.now.geometry }
    requires column { column < slots.now.geometry.g }
    ensures { IsTrue result ↔ NoneClean slots.now pointer.now column }
{
    let geometry = slots.geometry();
    let before = u64::from(slots.metaslab()) * geometry.metaslab_stripes();
    let slot = place(geometry, slots.perms(), before + pointer.first, column).child;
    let slice = pointer.first / (u64::from(geometry.props.height) * u64::from(geometry.ngroups));
    match slots.reading_arm(slot, slice, pointer.birth) {
        Some(read) => !read.clean,
        None => true,
    }
}

/// Whether an entry is an open write that was begun up to a group.
fn is_open_upto(entry: &Entry, group: u64) -> bool
    ensures { IsTrue result ↔ IsOpenUpto group entry.now }
{
    matches!(entry.stage, Stage::Writing { .. }) && entry.pointer.birth <= group
}

/// Whether an entry is a block that was born in a group and isn't freed up to it.
fn is_born_in(entry: &Entry, group: u64) -> bool
    ensures { IsTrue result ↔ IsBornIn group entry.now }
{
    entry.pointer.birth == group && stays_at(entry.stage, group)
}

/// Whether this is the stage of a block that isn't freed up to a group.
fn stays_at(stage: Stage, group: u64) -> bool
    ensures { IsTrue result ↔ (is_block stage ≡ true) × (is_freed_by group stage ≡ false) }
{
    match stage {
        Stage::Writing { .. } => false,
        Stage::Live => true,
        Stage::Freed { group: freed } => freed > group,
    }
}
