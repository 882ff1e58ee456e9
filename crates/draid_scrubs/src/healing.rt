ghost use Rattle.std.specs.Prelude.{◌≡◌, ◌<◌, ◌&&◌, IfOk};
ghost use Rattle.draid_machine.specs.After as after;
ghost use Rattle.draid_machine.specs.Names.{has_segment, key_eq};
ghost use Rattle.draid_machine.specs.declared.names.Segment.{Segment};
ghost use Rattle.draid_scrubs.specs.Healing.{is_dubious};
ghost use Rattle.draid_world.specs.World.{core_of};

use crate::patches::{has_landed, was_written};
use draid_machine::{Key, Patched, Segment};
use draid_names::NoMemory;
use draid_world::Tables;
use std::alloc::Global;
use std::collections::BTreeSet;

/// The segments of a list that landed.
pub(crate) fn landed(
    alloc: Global,
    patched: &[Patched],
    all: &[Segment],
) -> Result<Vec<Segment>, NoMemory>
    ensures { IfOk result (λ out. (s : Segment) → has_segment out.items s ≡ (has_segment all.now s && after.has_landed patched.now s.column s.arm s.row)) }
{
    let mut out = Vec::new(alloc);
    for segment in all {
        if has_landed(patched, segment.column, segment.arm, segment.row) {
            out.push(*segment)?;
        }
    }
    Ok(out)
}

/// The segments of a list that were written.
pub(crate) fn written(
    alloc: Global,
    patched: &[Patched],
    all: &[Segment],
) -> Result<Vec<Segment>, NoMemory>
    ensures { IfOk result (λ out. (s : Segment) → has_segment out.items s ≡ (has_segment all.now s && after.was_written patched.now s.column s.arm s.row)) }
{
    let mut out = Vec::new(alloc);
    for segment in all {
        if was_written(patched, segment.column, segment.arm, segment.row) {
            out.push(*segment)?;
        }
    }
    Ok(out)
}

/// Whether a segment is in doubt after a whole landing: it is on an arm that isn't clean, and didn't land.
fn is_in_doubt(tables: &Tables, birth: u64, patched: &[Patched], segment: Segment) -> bool
    ensures { result ≡ is_dubious (core_of tables.now) birth patched.now segment }
{
    tables.is_logged(segment.arm, birth)
        && !has_landed(patched, segment.column, segment.arm, segment.row)
}

/// The segments of a list that are in doubt after a whole landing.
pub(crate) fn doubted(
    alloc: Global,
    tables: &Tables,
    birth: u64,
    patched: &[Patched],
    all: &[Segment],
) -> Result<Vec<Segment>, NoMemory>
    ensures { IfOk result (λ out. (s : Segment) → has_segment out.items s ≡ (has_segment all.now s && is_dubious (core_of tables.now) birth patched.now s)) }
{
    let mut out = Vec::new(alloc);
    for segment in all {
        if is_in_doubt(tables, birth, patched, *segment) {
            out.push(*segment)?;
        }
    }
    Ok(out)
}

/// Whether a segment is of a block.
fn is_of(key: Key, segment: Segment) -> bool
    ensures { result ≡ key_eq key segment.key }
{
    segment.key == key
}

/// The segments of a set that are of a block.
pub(crate) fn of_block(
    alloc: Global,
    present: &BTreeSet<Segment>,
    key: Key,
) -> Result<Vec<Segment>, NoMemory>
    ensures { IfOk result (λ out. (s : Segment) → has_segment out.items s ≡ (has_segment present.now.keys s && key_eq key s.key)) }
{
    let mut out = Vec::new(alloc);
    for segment in present {
        if is_of(key, *segment) {
            out.push(*segment)?;
        }
    }
    Ok(out)
}
