ghost use Rattle.std.specs.Prelude.{◌≡◌, ◌<◌, ◌&&◌, ◌||◌, Some, IfOk, OnOk, is_some, if◌then◌else◌};
ghost use Rattle.draid_arms.specs.Moves as moves;
ghost use Rattle.draid_machine.specs.Claims as claims;
ghost use Rattle.draid_machine.specs.Names.{has_segment, segment_eq};
ghost use Rattle.draid_machine.specs.declared.names.Segment.{Segment};
ghost use Rattle.draid_world.specs.World.{AreLow, core_of, kept_in, names_at, site_layout};

use draid_machine::{ArmName, Segment};
use draid_names::NoMemory;
use draid_world::sets::add_segment;
use draid_world::tables::kept_for;
use draid_world::{Site, Tables};
use std::alloc::Global;
use std::collections::{BTreeMap, BTreeSet};

/// Whether a segment was at a place before and isn't now.
fn is_lost(site: &Site, before: &[Vec<ArmName>], tables: &Tables, segment: &Segment) -> bool
    requires low { AreLow (core_of tables.now) }
    ensures { result ≡ moves.is_lost (site_layout site.now) (names_at before.now) (core_of tables.now) segment.now }
{
    site.is_at_place(before, &tables.held, segment)
        && !site.is_at_place(&tables.order, &tables.held, segment)
}

/// A segment is kept for a group.
fn keep(kept: &mut BTreeMap<Segment, u64>, segment: Segment, group: u64) -> Result<(), NoMemory>
    ensures { OnOk result ((s : Segment) → kept_in kept.new.entries s ≡ (if segment_eq segment s then Some group else kept_in kept.old.entries s)) }
{
    kept.insert(segment, group)?;
    Ok(())
}

/// A segment is kept for a group, if it has lost its place.
fn keep_if_lost(
    site: &Site,
    before: &[Vec<ArmName>],
    tables: &Tables,
    kept: &mut BTreeMap<Segment, u64>,
    segment: Segment,
    group: u64,
) -> Result<(), NoMemory>
    requires low { AreLow (core_of tables.now) }
    ensures { OnOk result ((s : Segment) → kept_in kept.new.entries s
        ≡ (if segment_eq segment s && moves.is_lost (site_layout site.now) (names_at before.now) (core_of tables.now) s then Some group else kept_in kept.old.entries s)) }
{
    if !is_lost(site, before, tables, &segment) {
        return Ok(());
    }
    keep(kept, segment, group)
}

/// The segments of a set that have lost their place are kept for a group.
pub(crate) fn keep_lost(
    site: &Site,
    before: &[Vec<ArmName>],
    tables: &Tables,
    kept: &mut BTreeMap<Segment, u64>,
    segments: &BTreeSet<Segment>,
    group: u64,
) -> Result<(), NoMemory>
    requires low { AreLow (core_of tables.now) }
    ensures { OnOk result ((s : Segment) → kept_in kept.new.entries s
        ≡ (if has_segment segments.now.keys s && moves.is_lost (site_layout site.now) (names_at before.now) (core_of tables.now) s then Some group
        else kept_in kept.old.entries s)) }
{
    for segment in segments.iter() {
        keep_if_lost(site, before, tables, kept, *segment, group)?;
    }
    Ok(())
}

/// Whether a segment is at a place or kept.
fn is_held(site: &Site, tables: &Tables, kept: &BTreeMap<Segment, u64>, segment: &Segment) -> bool
    requires low { AreLow (core_of tables.now) }
    ensures { result ≡ (claims.is_at (site_layout site.now) (core_of tables.now) segment.now || is_some (kept_in kept.now.entries segment.now)) }
{
    site.is_at_place(&tables.order, &tables.held, segment) || kept_for(kept, *segment).is_some()
}

/// A segment joins a set, if it is at a place or kept.
fn add_held(
    site: &Site,
    tables: &Tables,
    kept: &BTreeMap<Segment, u64>,
    set: &mut BTreeSet<Segment>,
    segment: Segment,
) -> Result<(), NoMemory>
    requires low { AreLow (core_of tables.now) }
    ensures { OnOk result ((s : Segment) → has_segment set.new.keys s
        ≡ ((segment_eq segment s && (claims.is_at (site_layout site.now) (core_of tables.now) s || is_some (kept_in kept.now.entries s))) || has_segment set.old.keys s)) }
{
    if !is_held(site, tables, kept, &segment) {
        return Ok(());
    }
    add_segment(set, segment)
}

/// The segments of a set that are at a place or kept.
pub(crate) fn held_of(
    alloc: Global,
    site: &Site,
    tables: &Tables,
    kept: &BTreeMap<Segment, u64>,
    segments: &BTreeSet<Segment>,
) -> Result<BTreeSet<Segment>, NoMemory>
    requires low { AreLow (core_of tables.now) }
    ensures { IfOk result (λ left. (s : Segment) → has_segment left.keys s
        ≡ (has_segment segments.now.keys s && (claims.is_at (site_layout site.now) (core_of tables.now) s || is_some (kept_in kept.now.entries s)))) }
{
    let mut left = BTreeSet::new(alloc);
    for segment in segments.iter() {
        add_held(site, tables, kept, &mut left, *segment)?;
    }
    Ok(left)
}
