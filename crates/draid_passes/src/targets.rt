ghost use Rattle.std.specs.Prelude.{◌≡◌, ◌<◌, ◌++◌, IfOk, OnOk, filter};
ghost use Rattle.draid_machine.specs.Arms as arms;
ghost use Rattle.draid_world.specs.World.{arm_in, core_of, names_at, site_layout};

use draid_machine::ArmName;
use draid_names::{NoMemory, PassKind};
use draid_world::arms::names_of;
use draid_world::{Site, Tables};
use std::alloc::Global;

/// Whether no pass has made an arm good since it was attached.
fn is_fresh(tables: &Tables, name: ArmName) -> bool
    ensures { result ≡ arms.is_fresh (arm_in tables.now.arms.entries name) }
{
    match tables.arms.get(&name) {
        Some(arm) => arm.fresh,
        None => false,
    }
}

/// Whether a pass of a kind takes an arm as its target.
fn is_target(site: &Site, tables: &Tables, kind: PassKind, name: ArmName) -> bool
    ensures { result ≡ arms.is_target (site_layout site.now) (core_of tables.now) kind name }
{
    match kind {
        PassKind::Heal => !site.lies_on_silent(tables, &[], name),
        PassKind::Rebuild => match name {
            ArmName::Leaf { leaf } => is_fresh(tables, name) && tables.leaf_answers(leaf),
            ArmName::Spare { .. } => is_fresh(tables, name),
        },
    }
}

/// Adds the targets that a pass takes in a slot.
fn add_targets(
    site: &Site,
    tables: &Tables,
    kind: PassKind,
    slot: usize,
    targets: &mut Vec<ArmName>,
) -> Result<(), NoMemory>
    ensures { OnOk result (targets.new.items ≡ targets.old.items ++ filter (arms.is_target (site_layout site.now) (core_of tables.now) kind) (names_at tables.now.order.items slot)) }
{
    let names = names_of(&tables.order, slot);
    for name in names {
        if is_target(site, tables, kind, *name) {
            targets.push(*name)?;
        }
    }
    Ok(())
}

/// The targets of a pass of a kind, in the order of slots.
pub(crate) fn targets_of(
    alloc: Global,
    site: &Site,
    tables: &Tables,
    kind: PassKind,
) -> Result<Vec<ArmName>, NoMemory>
    ensures { IfOk result (λ targets. targets.items ≡ arms.targets_of (site_layout site.now) (core_of tables.now) kind) }
{
    let mut targets = Vec::new(alloc);
    for slot in 0..site.geometry.spec.children {
        add_targets(site, tables, kind, slot as usize, &mut targets)?;
    }
    Ok(targets)
}
