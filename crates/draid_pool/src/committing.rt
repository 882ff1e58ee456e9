ghost use Rattle.std.specs.Prelude.{◌≡◌, ◌==◌, ◌≤◌, ◌+◌, ◌&&◌, ◌↔◌, ℕ, None, Some, IsTrue, true, false, if◌then◌else◌};
ghost use Rattle.std.specs.List.{list_any};
ghost use Rattle.draid_machine.specs.declared.event.Event.TheVariants.{Commit};
ghost use Rattle.draid_machine.specs.Names as names;
ghost use Rattle.draid_segments.specs.Segments.{Pieces};
ghost use Rattle.draid_spec.specs.declared.layout.Geometry.{Geometry};
ghost use Rattle.draid_entries.specs.Entries.{entry_at};
ghost use Rattle.draid_entries.specs.History.{events_of, limit_in, owed_of, reserved_of};
ghost use Rattle.draid_shard.specs.Loans.{owed_for_loan};
ghost use Rattle.draid_slots.specs.declared.slot.Detached.{Detached};
ghost use Rattle.draid_slots.specs.Changes.{Commits};
ghost use Rattle.draid_slots.specs.Table.{is_leaf_kind};
ghost use Rattle.draid_shard.specs.Calls.{ActsOn, SameAreas, SameReserve};
ghost use Rattle.draid_shard.specs.Fits.{Tables, Valid, AreFitting};
ghost use Rattle.draid_shard.specs.States.{Does};
ghost use Rattle.draid_pool.specs.Changes.{CommitsGroup};
ghost use Rattle.draid_pool.specs.Committing.{DropsFreed, DropsListed, DropsOne, DropsSome, KeepsLoan, StaysLeaf, is_freed_entry, later_than};
ghost use Rattle.draid_pool.specs.Groups.{DropsDetached};
ghost use Rattle.draid_pool.specs.Syncing.{KeepsShard};

use draid_area::Area;
use draid_entries::{Entries, Entry, History};
use draid_machine::{Event, Stage};
use draid_metaslab::Space;
use draid_names::ArmKind;
use draid_rack::Rack;
use draid_shard::{KeptLoan, Shard, drop_loan, release};
use draid_slots::{Detached, Slots};

/// Commits the sealed group: what was freed and detached up to it goes, and its stripes are free.
pub fn commit<R: Rack, A: Area>(shard: &mut Shard<R, A>, group: u64)
    requires valid { Valid R.Rack shard.old }
    requires sealed { (shard.old.closing ≡ Some group) × (shard.old.sealed ≡ true) }
    ensures valid { Valid R.Rack shard.new }
    ensures areas { SameAreas shard.old shard.new }
    ensures event { Does shard.old shard.new (Commit group) }
    ensures commits { CommitsGroup shard.old shard.new group }
    ensures acts { (pieces : Pieces) → ActsOn R.Rack shard.old shard.new (Commit group) pieces }
    // Of the leaves those alone go that were detached up to the group and are no arms.
    ensures leaves { DropsDetached R.Rack shard.old shard.new group }
    ensures slots { Commits shard.old.slots shard.new.slots group }
    ensures reserve { SameReserve shard.old shard.new }
    ensures stays { KeepsShard R.faults shard.old shard.new }
    ensures version { shard.new.version ≡ shard.new.asked }
{
    let freed = lends_freed(shard, group);
    drop_if(freed, &mut shard.kept, &mut shard.history);
    release_freed(&mut shard.space, &mut shard.entries, group);
    drop_detached(&mut shard.rack, &shard.slots, group);
    shard.slots.commit(group);
    shard.committed = group;
    shard.closing = None;
    shard.sealed = false;
    shard.version = shard.asked;
    shard.history.add(Event::Commit { group }, 1);
}

/// Whether the block of the loan that counts was freed up to a group.
fn lends_freed<R: Rack, A: Area>(shard: &Shard<R, A>, group: u64) -> bool
    requires valid { Valid R.Rack shard.now }
    ensures { KeepsLoan shard.now group result }
{
    let Some(kept) = &shard.kept else {
        return false;
    };
    match shard.entries.last_upto(kept.stripe()) {
        Some(entry) => is_freed_by(entry.stage, group),
        None => false,
    }
}

/// Drops the loan whose block was freed.
fn drop_if(freed: bool, kept: &mut Option<KeptLoan>, history: &mut History)
    requires owed { owed_for_loan kept.old + reserved_of history.old ≤ owed_of history.old }
    ensures kept { kept.new ≡ (if freed then None else kept.old) }
    ensures stored { events_of history.new ≡ events_of history.old }
    ensures owed { owed_of history.new + owed_for_loan kept.old ≡ owed_of history.old + owed_for_loan kept.new }
    ensures reserved { reserved_of history.new ≡ reserved_of history.old }
    ensures limit { limit_in history.new ≡ limit_in history.old }
{
    if freed {
        drop_loan(kept, history);
    }
}

/// Gives back the stripes of all that was freed up to a group.
fn release_freed(space: &mut Space, entries: &mut Entries, group: u64)
    requires tables { AreFitting space.old entries.old }
    ensures tables { (geometry : Geometry) (open_group : ℕ) → Tables geometry open_group space.old entries.old
        → Tables geometry open_group space.new entries.new }
    ensures drops { DropsFreed group entries.old entries.new }
    ensures disabled { space.new.disabled ≡ space.old.disabled }
{
    let mut stripe = 0;
    while let Some(entry) = entries.first_from(stripe) {
        release_if_freed(space, entries, &entry, group);
        stripe = entry.pointer.first + 1;
    }
}

/// Gives back the stripes of a block if it was freed up to a group.
fn release_if_freed(space: &mut Space, entries: &mut Entries, entry: &Entry, group: u64)
    requires tables { AreFitting space.old entries.old }
    requires there { entry_at entries.old entry.now.pointer.first ≡ Some entry.now }
    ensures tables { (geometry : Geometry) (open_group : ℕ) → Tables geometry open_group space.old entries.old
        → Tables geometry open_group space.new entries.new }
    ensures drops { DropsSome group entries.old entries.new }
    ensures here { is_freed_entry group (entry_at entries.new entry.now.pointer.first) ≡ false }
    ensures disabled { space.new.disabled ≡ space.old.disabled }
{
    if is_freed_by(entry.stage, group) {
        release(space, entries, &entry.pointer);
    }
}

/// Whether a block at this stage was freed up to a group.
fn is_freed_by(stage: Stage, group: u64) -> bool
    ensures { result ≡ names.is_freed_by group stage }
{
    match stage {
        Stage::Freed { group: freed } => freed <= group,
        _ => false,
    }
}

/// Gives up the leaves that were detached up to a group, but for those that stay.
fn drop_detached<R: Rack>(rack: &mut R, slots: &Slots, group: u64)
    ensures { DropsListed R.Rack slots.now group slots.now.detached rack.old rack.new }
{
    for gone in slots.detached() {
        drop_if_gone(rack, slots, gone, group);
    }
}

/// Gives up what was detached up to a group, if it is a leaf that doesn't stay.
fn drop_if_gone<R: Rack>(rack: &mut R, slots: &Slots, gone: &Detached, group: u64)
    ensures { DropsOne R.Rack slots.now group gone.now rack.old rack.new }
{
    if matches!(gone.kind, ArmKind::Leaf)
        && gone.group <= group
        && !stays(slots, gone.number, group)
    {
        rack.drop_leaf(gone.number);
    }
}

/// Whether a leaf is an arm, or was one until a group after this one.
fn stays(slots: &Slots, leaf: u64, group: u64) -> bool
    ensures { IsTrue result ↔ StaysLeaf slots.now group leaf }
{
    slots.find(ArmKind::Leaf, leaf).is_some() || leaves_later(slots.detached(), leaf, group)
}

/// Whether a leaf was detached after a group.
fn leaves_later(detached: &[Detached], leaf: u64, group: u64) -> bool
    ensures { result ≡ list_any (λ (gone : Detached). is_leaf_kind gone.kind && (gone.number == leaf)) (later_than group detached.now) }
{
    detached.iter().filter(|gone| gone.group > group).any(|gone| matches!(gone.kind, ArmKind::Leaf)
        && gone.number == leaf)
}
