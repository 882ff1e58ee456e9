ghost use Rattle.std.specs.Prelude.{◌≡◌, ◌<◌, ◌&&◌, ◌||◌, true, IfOk, OnOk};
ghost use Rattle.draid_arms.specs.Moves.{core_before, moved_at};
ghost use Rattle.draid_machine.specs.After as after;
ghost use Rattle.draid_machine.specs.Arms as arms;
ghost use Rattle.draid_machine.specs.Names.{has_name, name_eq};
ghost use Rattle.draid_machine.specs.declared.names.ArmName.{ArmName};
ghost use Rattle.draid_machine.specs.declared.names.ArmName.TheVariants.{Spare};
ghost use Rattle.draid_passes.specs.Logs.{changed_at};
ghost use Rattle.draid_world.specs.World.{arm_in, arm_of, core_of, names_at, site_layout};

use draid_machine::ArmName;
use draid_names::{NUMBERS, NoMemory};
use draid_world::{Arm, Site, Tables};
use std::alloc::Global;
use std::collections::BTreeMap;

/// Whether two leaves, where there are any, are one.
fn is_same_leaf(one: Option<u64>, other: Option<u64>) -> bool
    ensures { result ≡ arms.same_leaf one other }
{
    match (one, other) {
        (Some(a), Some(b)) => a == b,
        (None, None) => true,
        _ => false,
    }
}

/// Whether an arm keeps a stripe, of which its slot has a column, on another leaf than before.
fn moves_at(
    site: &Site,
    before: &[Vec<ArmName>],
    tables: &Tables,
    name: ArmName,
    stripe: u64,
) -> bool
    requires stripe { stripe < NUMBERS }
    ensures { result ≡ moved_at (site_layout site.now) (names_at before.now) (core_of tables.now) name stripe }
{
    if !site.has_column(tables, name, stripe) {
        return false;
    }
    let was = site.leaf_at(before, name, stripe);
    !is_same_leaf(was, site.leaf_at(&tables.order, name, stripe))
}

/// Whether a spare has come to lie elsewhere. It keeps the stripes of one height together.
fn has_moved(site: &Site, before: &[Vec<ArmName>], tables: &Tables, spare: u32) -> bool
    ensures { result ≡ arms.has_moved (site_layout site.now) (core_before tables.now before.now) (core_of tables.now) (Spare spare) }
{
    let end = site.stripes();
    let height = u64::from(site.geometry.props.height);
    let mut stripe = 0;
    while stripe < end {
        if moves_at(site, before, tables, ArmName::Spare { spare }, stripe) {
            return true;
        }
        stripe += height;
    }
    false
}

/// A spare joins a list, if it has come to lie elsewhere.
fn add_moved(
    site: &Site,
    before: &[Vec<ArmName>],
    tables: &Tables,
    spare: u32,
    moved: &mut Vec<ArmName>,
) -> Result<(), NoMemory>
    ensures { OnOk result ((n : ArmName) → has_name moved.new.items n
        ≡ (has_name moved.old.items n || (name_eq (Spare spare) n && arms.has_moved (site_layout site.now) (core_before tables.now before.now) (core_of tables.now) (Spare spare)))) }
{
    if has_moved(site, before, tables, spare) {
        moved.push(ArmName::Spare { spare })?;
    }
    Ok(())
}

/// The spares that have come to lie elsewhere.
pub(crate) fn moved_of(
    alloc: Global,
    site: &Site,
    before: &[Vec<ArmName>],
    tables: &Tables,
) -> Result<Vec<ArmName>, NoMemory>
    ensures { IfOk result (λ moved. (n : ArmName) → has_name moved.items n
        ≡ arms.has_moved (site_layout site.now) (core_before tables.now before.now) (core_of tables.now) n) }
{
    let mut moved = Vec::new(alloc);
    for spare in 0..site.geometry.spec.spares {
        add_moved(site, before, tables, spare, &mut moved)?;
    }
    Ok(moved)
}

/// An arm is fresh, and may have missed each group up to one.
fn renew(arm: &mut Arm, last: u64) -> Result<(), NoMemory>
    requires last { last < NUMBERS }
    ensures { OnOk result (arm_of arm.new ≡ after.renew_if true last (arm_of arm.old)) }
{
    arm.log.reserve(1)?;
    arm.log.fill(last);
    arm.fresh = true;
    Ok(())
}

/// Renews the arm of a name, if there is one.
fn renew_at(arms: &mut BTreeMap<ArmName, Arm>, name: ArmName, last: u64) -> Result<(), NoMemory>
    requires last { last < NUMBERS }
    ensures { OnOk result ((n : ArmName) → arm_in arms.new.entries n ≡ changed_at (name_eq name n) (after.renew_if true last) (arm_in arms.old.entries n)) }
{
    if let Some(arm) = arms.get_mut(&name) {
        renew(arm, last)?;
    }
    Ok(())
}

/// Renews some arms.
pub(crate) fn renew_arms(
    arms: &mut BTreeMap<ArmName, Arm>,
    names: &[ArmName],
    last: u64,
) -> Result<(), NoMemory>
    requires last { last < NUMBERS }
    ensures { OnOk result ((n : ArmName) → arm_in arms.new.entries n ≡ after.map_arm (after.renew_if (has_name names.now n) last) (arm_in arms.old.entries n)) }
{
    for name in names {
        renew_at(arms, *name, last)?;
    }
    Ok(())
}
