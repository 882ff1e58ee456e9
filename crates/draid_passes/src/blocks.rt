ghost use Rattle.std.specs.Prelude.{◌≡◌, ◌+◌, ◌&&◌, ◌<◌, OnOk, IfOk};
ghost use Rattle.draid_machine.specs.Claims.{is_on};
ghost use Rattle.draid_machine.specs.Names.{has_segment, key_eq};
ghost use Rattle.draid_machine.specs.declared.names.Segment.{Segment};
ghost use Rattle.draid_passes.specs.Blocks.{Adds, OnArm, OnColumn, OnNames};
ghost use Rattle.draid_world.specs.World.{core_of, site_layout};

use draid_machine::{ArmName, Held, Key, Segment};
use draid_names::{NUMBERS, NoMemory};
use draid_world::arms::names_of;
use draid_world::{Site, Tables};
use std::alloc::Global;

/// A column of a block.
#[derive(Clone, Copy)]
struct BlockColumn {
    key: Key,
    held: Held,
    column: u32,
}

/// Adds the segment of a column on an arm in a row, where the arm keeps it on a leaf.
fn add_row(
    site: &Site,
    tables: &Tables,
    part: BlockColumn,
    name: ArmName,
    row: u32,
    out: &mut Vec<Segment>,
) -> Result<(), NoMemory>
    requires short { part.held.first + part.held.stripes < NUMBERS }
    requires row { row < part.held.stripes }
    ensures { OnOk result (Adds (λ s. OnArm (site_layout site.now) (core_of tables.now).order part.key part.held part.column name s × (s.row ≡ row)) out.old.items out.new.items) }
{
    let Some(leaf) = site.leaf_at(&tables.order, name, part.held.first + u64::from(row)) else {
        return Ok(());
    };
    out.push(Segment {
        key: part.key,
        column: part.column,
        arm: name,
        leaf,
        row,
    })?;
    Ok(())
}

/// Adds the segments of a column on an arm.
fn add_rows(
    site: &Site,
    tables: &Tables,
    part: BlockColumn,
    name: ArmName,
    out: &mut Vec<Segment>,
) -> Result<(), NoMemory>
    requires short { part.held.first + part.held.stripes < NUMBERS }
    ensures { OnOk result (Adds (OnArm (site_layout site.now) (core_of tables.now).order part.key part.held part.column name) out.old.items out.new.items) }
{
    for row in 0..part.held.stripes {
        add_row(site, tables, part, name, row, out)?;
    }
    Ok(())
}

/// Adds the segments of a column on the arms of a list.
fn add_names(
    site: &Site,
    tables: &Tables,
    part: BlockColumn,
    names: &[ArmName],
    out: &mut Vec<Segment>,
) -> Result<(), NoMemory>
    requires short { part.held.first + part.held.stripes < NUMBERS }
    ensures { OnOk result (Adds (OnNames (site_layout site.now) (core_of tables.now).order part.key part.held part.column names.now) out.old.items out.new.items) }
{
    for name in names {
        add_rows(site, tables, part, *name, out)?;
    }
    Ok(())
}

/// Adds the segments of a column on the arms of its slot.
fn add_column(
    site: &Site,
    tables: &Tables,
    part: BlockColumn,
    out: &mut Vec<Segment>,
) -> Result<(), NoMemory>
    requires short { part.held.first + part.held.stripes < NUMBERS }
    requires column { part.column < site.now.geometry.g }
    ensures { OnOk result (Adds (OnColumn (site_layout site.now) (core_of tables.now).order part.key part.held part.column) out.old.items out.new.items) }
{
    let slot = site.slot_of(part.held.first, part.column);
    add_names(
        site,
        tables,
        part,
        names_of(&tables.order, slot as usize),
        out,
    )
}

/// The segments of a block on the arms of its slots.
pub fn block_segments(
    alloc: Global,
    site: &Site,
    tables: &Tables,
    key: Key,
    held: Held,
) -> Result<Vec<Segment>, NoMemory>
    requires short { held.first + held.stripes < NUMBERS }
    ensures { IfOk result (λ segments. (s : Segment) → has_segment segments.items s ≡ (key_eq key s.key && is_on (site_layout site.now) (core_of tables.now).order s held)) }
{
    let mut out = Vec::new(alloc);
    for column in 0..site.geometry.g {
        add_column(site, tables, BlockColumn { key, held, column }, &mut out)?;
    }
    Ok(out)
}
