ghost use Rattle.std.specs.Prelude.{◌≡◌, ◌<◌, true, false};
ghost use Rattle.std.specs.List.{list_any};
ghost use Rattle.draid_machine.specs.Names.{is_leaf};
ghost use Rattle.draid_machine.specs.Step.{IsArmName, MayReplan};
ghost use Rattle.draid_arms.specs.Rules.{IsLeafLeft, IsOtherClean, MayAttach, MayDetach, is_other_leaf};
ghost use Rattle.draid_world.specs.World.{core_of, site_layout, state_of};

use draid_machine::ArmName;
use draid_names::{LAST_NUMBER, PassKind};
use draid_world::arms::{is_among, is_same, names_of};
use draid_world::{Site, Tables, World};

/// Whether an arm is a leaf other than a given one.
fn is_leaf_beside(name: ArmName, other: ArmName) -> bool
    ensures { result ≡ is_other_leaf name other }
{
    match other {
        ArmName::Leaf { .. } => !is_same(name, other),
        ArmName::Spare { .. } => false,
    }
}

/// Whether a list has a leaf other than an arm.
fn has_leaf_beside(names: &[ArmName], name: ArmName) -> bool
    ensures { result ≡ list_any (is_other_leaf name) names.now }
{
    for other in names {
        if is_leaf_beside(name, *other) {
            return true;
        }
    }
    false
}

/// Whether an arm is a leaf.
fn is_disk(name: ArmName) -> bool
    ensures { result ≡ is_leaf name }
{
    match name {
        ArmName::Leaf { .. } => true,
        ArmName::Spare { .. } => false,
    }
}

/// Whether an arm of a list other than a given one has an empty log.
fn is_other_clean(tables: &Tables, names: &[ArmName], name: ArmName) -> bool
    ensures yes { result ≡ true → IsOtherClean (core_of tables.now) names.now name }
    ensures no { result ≡ false → IsOtherClean (core_of tables.now) names.now name → ⊥ }
{
    for other in names {
        if !is_same(name, *other) && tables.has_empty_log(*other) {
            return true;
        }
    }
    false
}

/// Whether a list, of which an arm is taken that is a leaf, has another leaf.
fn leaves_leaf(names: &[ArmName], name: ArmName) -> bool
    ensures yes { result ≡ true → IsLeafLeft names.now name }
    ensures no { result ≡ false → IsLeafLeft names.now name → ⊥ }
{
    if !is_disk(name) {
        return true;
    }
    has_leaf_beside(names, name)
}

/// Whether no rule is broken where an arm leaves its slot.
pub(crate) fn may_detach(tables: &Tables, slot: usize, name: ArmName) -> bool
    ensures yes { result ≡ true → MayDetach (core_of tables.now) slot name }
    ensures no { result ≡ false → MayDetach (core_of tables.now) slot name → ⊥ }
{
    let names = names_of(&tables.order, slot);
    if !is_among(names, name) || !tables.is_known(name) || tables.pass.is_some() {
        return false;
    }
    leaves_leaf(names, name) && is_other_clean(tables, names, name)
}

/// Whether an arm is a leaf, or a spare that is there.
fn is_arm_name(site: &Site, name: ArmName) -> bool
    ensures yes { result ≡ true → IsArmName (site_layout site.now) name }
    ensures no { result ≡ false → IsArmName (site_layout site.now) name → ⊥ }
{
    match name {
        ArmName::Leaf { .. } => true,
        ArmName::Spare { spare } => spare < site.geometry.spec.spares,
    }
}

/// Whether no rule is broken where an arm joins a slot.
pub(crate) fn may_attach(site: &Site, tables: &Tables, slot: u32, name: ArmName) -> bool
    ensures yes { result ≡ true → MayAttach (site_layout site.now) (core_of tables.now) slot name }
    ensures no { result ≡ false → MayAttach (site_layout site.now) (core_of tables.now) slot name → ⊥ }
{
    if slot >= site.geometry.spec.children || !is_arm_name(site, name) {
        return false;
    }
    if tables.is_known(name) {
        return false;
    }
    names_of(&tables.order, slot as usize).len() < 3
}

/// Whether a rebuild, if there is one, can be planned again.
pub(crate) fn may_replan(world: &World) -> bool
    ensures yes { result ≡ true → MayReplan (state_of world.now) }
    ensures no { result ≡ false → MayReplan (state_of world.now) → ⊥ }
{
    let Some(pass) = &world.tables.pass else {
        return true;
    };
    match pass.kind {
        PassKind::Heal => true,
        PassKind::Rebuild => { world.tables.last < LAST_NUMBER && world.open_group < LAST_NUMBER }
    }
}
