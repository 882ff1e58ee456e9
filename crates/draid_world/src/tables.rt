ghost use Rattle.std.specs.Prelude.{◌≡◌, ◌&&◌, not, Some, None, IsSome, OnOk};
ghost use Rattle.draid_machine.specs.After.{not_kept, set_held};
ghost use Rattle.draid_machine.specs.Names.{has_segment, key_eq};
ghost use Rattle.draid_machine.specs.declared.names.Key.{Key};
ghost use Rattle.draid_machine.specs.declared.names.Segment.{Segment};
ghost use Rattle.draid_world.specs.World.{held_in, kept_in};

use draid_machine::{Held, Key, Segment};
use draid_names::NoMemory;
use std::collections::{BTreeMap, BTreeSet};

/// The block or ticket of a key.
pub fn find(held: &BTreeMap<Key, Held>, key: Key) -> Option<Held>
    ensures { result ≡ held_in held.now.entries key }
{
    held.get(&key).copied()
}

/// Changes the entry of a key that is there.
pub fn change(held: &mut BTreeMap<Key, Held>, key: Key, value: Held)
    requires there { IsSome (held_in held.old.entries key) }
    ensures { (k : Key) → held_in held.new.entries k ≡ set_held (held_in held.old.entries) key (Some value) k }
{
    if let Some(place) = held.get_mut(&key) {
        *place = value;
    }
}

/// Makes an entry for a key.
pub fn enter(held: &mut BTreeMap<Key, Held>, key: Key, value: Held) -> Result<(), NoMemory>
    ensures { OnOk result ((k : Key) → held_in held.new.entries k ≡ set_held (held_in held.old.entries) key (Some value) k) }
{
    held.insert(key, value)?;
    Ok(())
}

/// Takes the entry of a key away.
pub fn forget(held: &mut BTreeMap<Key, Held>, key: Key)
    ensures { (k : Key) → held_in held.new.entries k ≡ set_held (held_in held.old.entries) key None k }
{
    held.remove(&key);
}

/// Takes the segments of a key away.
pub fn forget_segments(segments: &mut BTreeSet<Segment>, key: Key)
    ensures { (s : Segment) → has_segment segments.new.keys s ≡ (has_segment segments.old.keys s && not (key_eq key s.key)) }
{
    segments.retain(|segment| segment.key != key);
}

/// Forgets for which group segments of a key are kept.
pub fn forget_kept(kept: &mut BTreeMap<Segment, u64>, key: Key)
    ensures { (s : Segment) → kept_in kept.new.entries s ≡ not_kept key (kept_in kept.old.entries) s }
{
    kept.retain(|segment, _| segment.key != key);
}

/// The group for which a segment is kept.
pub fn kept_for(kept: &BTreeMap<Segment, u64>, segment: Segment) -> Option<u64>
    ensures { result ≡ kept_in kept.now.entries segment }
{
    kept.get(&segment).copied()
}
