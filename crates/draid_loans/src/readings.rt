ghost use Rattle.std.specs.Prelude.{◌≡◌, ◌<◌, ◌&&◌, not, filter, IfOk};
ghost use Rattle.draid_machine.specs.Arms as arms;
ghost use Rattle.draid_machine.specs.Step as step;
ghost use Rattle.draid_loans.specs.Lending.{AreReadings};
ghost use Rattle.draid_world.specs.World.{core_of, pass_of, site_layout};

use crate::sources::chosen;
use draid_machine::{ArmName, Held};
use draid_names::{NUMBERS, NoMemory};
use draid_passes::is_heal;
use draid_world::arms::names_of;
use draid_world::{Site, Tables, WorldPass};
use std::alloc::Global;

/// What a loan reads: for each column the arms, and the one that it is taken from.
#[derive(Drop)]
pub(crate) struct Columns {
    pub(crate) read: Vec<Vec<ArmName>>,
    pub(crate) chosen: Vec<Option<ArmName>>,
}

/// Whether an arm answers at a stripe and its leaf didn't fail.
fn is_answering(site: &Site, tables: &Tables, failed: &[u64], name: ArmName, stripe: u64) -> bool
    requires stripe { stripe < NUMBERS }
    ensures { result ≡ (arms.answers (site_layout site.now) (core_of tables.now) name stripe
        && not (arms.fails (site_layout site.now) (core_of tables.now) failed.now name stripe)) }
{
    site.answers(tables, name, stripe) && !site.fails(tables, failed, name, stripe)
}

/// The arms of a list that answer at a stripe and whose leaves didn't fail.
fn answering(
    alloc: Global,
    site: &Site,
    tables: &Tables,
    names: &[ArmName],
    stripe: u64,
    failed: &[u64],
) -> Result<Vec<ArmName>, NoMemory>
    requires stripe { stripe < NUMBERS }
    ensures { IfOk result (λ found. found.items ≡ filter (λ n. arms.answers (site_layout site.now) (core_of tables.now) n stripe && not (arms.fails (site_layout site.now) (core_of tables.now) failed.now n stripe)) names.now) }
{
    let mut found = Vec::new(alloc);
    for name in names {
        if is_answering(site, tables, failed, *name, stripe) {
            found.push(*name)?;
        }
    }
    Ok(found)
}

/// A list of one arm, or of none.
fn only(alloc: Global, name: Option<ArmName>) -> Result<Vec<ArmName>, NoMemory>
    ensures { IfOk result (λ names. names.items ≡ step.to_list name) }
{
    let mut names = Vec::new(alloc);
    match name {
        Some(name) => {
            names.push(name)?;
            Ok(names)
        }
        None => Ok(names),
    }
}

/// The arms that are read for a column of which one was chosen.
fn read_for(
    alloc: Global,
    site: &Site,
    tables: &Tables,
    pass: &WorldPass,
    held: Held,
    stripe: u64,
    failed: &[u64],
    column: u32,
    name: Option<ArmName>,
) -> Result<Vec<ArmName>, NoMemory>
    requires first { held.first < NUMBERS }
    requires stripe { stripe < NUMBERS }
    requires column { column < site.now.geometry.g }
    ensures { IfOk result (λ read. read.items ≡ step.arms_read (site_layout site.now) (core_of tables.now) (pass_of pass.now) held stripe failed.now column name) }
{
    if !is_heal(pass.kind) {
        return only(alloc, name);
    }
    let names = names_of(&tables.order, site.slot_of(held.first, column) as usize);
    answering(alloc, site, tables, names, stripe, failed)
}

/// What a pass reads of a stripe of a block.
pub(crate) fn read_columns(
    alloc: Global,
    site: &Site,
    tables: &Tables,
    pass: &WorldPass,
    held: Held,
    stripe: u64,
    failed: &[u64],
) -> Result<Columns, NoMemory>
    requires first { held.first < NUMBERS }
    requires stripe { stripe < NUMBERS }
    ensures { IfOk result (λ columns. AreReadings (site_layout site.now) (core_of tables.now) (pass_of pass.now) held stripe failed.now site.now.geometry.g columns.read.items columns.chosen.items) }
{
    let mut read = Vec::new(alloc);
    let mut names = Vec::new(alloc);
    for column in 0..site.geometry.g {
        let name = chosen(site, tables, pass, held, stripe, column, failed);
        read.push(read_for(
            alloc, site, tables, pass, held, stripe, failed, column, name,
        )?)?;
        names.push(name)?;
    }
    Ok(Columns {
        read,
        chosen: names,
    })
}
