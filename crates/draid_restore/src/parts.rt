//! Room for what is noted of the arms of a block as it lands.
ghost use Rattle.std.specs.Prelude.{◌≡◌, ◌≤◌, IfOk, OnOk, length};
ghost use Rattle.draid_shard.specs.Loans.{AreRooms, IsRowRoom};

use draid_machine::{ArmName, Patched};
use draid_names::NoMemory;
use std::alloc::Global;

/// Room for what is noted of so many arms, or of more.
pub(crate) fn parts_for(
    alloc: Global,
    arms: usize,
    rows: usize,
    mut parts: Vec<Patched>,
) -> Result<Vec<Patched>, NoMemory>
    ensures many { IfOk result (λ parts. arms ≤ length parts.items) }
    ensures rooms { IfOk result (λ parts. AreRooms rows parts.items) }
{
    empty_parts(&mut parts, rows)?;
    for _arm in parts.len()..arms {
        let part = part_for(alloc, rows)?;
        parts.push(part)?;
    }
    Ok(parts)
}

/// Empties them, with room for so many rows.
fn empty_parts(parts: &mut Vec<Patched>, rows: usize) -> Result<(), NoMemory>
    ensures { OnOk result (AreRooms rows parts.new.items) }
{
    for i in 0..parts.len() {
        empty_part(&mut parts[i], rows)?;
    }
    Ok(())
}

/// Empties one.
fn empty_part(part: &mut Patched, rows: usize) -> Result<(), NoMemory>
    ensures { OnOk result (IsRowRoom rows part.new) }
{
    part.written.clear();
    part.written.reserve(rows)?;
    part.landed.clear();
    part.landed.reserve(rows)?;
    Ok(())
}

/// Room for what is noted of one.
fn part_for(alloc: Global, rows: usize) -> Result<Patched, NoMemory>
    ensures { IfOk result (IsRowRoom rows) }
{
    let written = Vec::with_capacity(alloc, rows)?;
    let landed = Vec::with_capacity(alloc, rows)?;
    Ok(Patched {
        column: 0,
        arm: ArmName::Leaf { leaf: 0 },
        written,
        landed,
    })
}
