ghost use Rattle.std.specs.Prelude.{◌≡◌, ◌+◌, ◌<◌, ◌&&◌, not, true, false, Some, IfOk, OnOk, count_by, filter, is_some, option_map};
ghost use Rattle.std.specs.List.{list_all};
ghost use Rattle.draid_images.specs.Seals.{is_early, is_written};
ghost use Rattle.draid_machine.specs.After as after;
ghost use Rattle.draid_machine.specs.Arms as arms;
ghost use Rattle.draid_machine.specs.Names as names;
ghost use Rattle.draid_machine.specs.State.{State};
ghost use Rattle.draid_machine.specs.Step.{SealStep};
ghost use Rattle.draid_machine.specs.declared.names.ArmName.{ArmName};
ghost use Rattle.draid_machine.specs.declared.names.ArmName.TheVariants.{Leaf};
ghost use Rattle.draid_machine.specs.declared.names.Held.{Held};
ghost use Rattle.draid_machine.specs.declared.names.Key.{Key};
ghost use Rattle.draid_world.specs.World.{arm_in, core_of, held_in, pass_of, site_layout, state_of};

use crate::copies::{Copying, copy_tables};
use draid_machine::{ArmName, Held, Key, Stage};
use draid_names::{NUMBERS, NoMemory, PassKind};
use draid_passes::is_block;
use draid_steps::columns::log_missed;
use draid_world::{Image, Site, Tables, World, WorldPass, capped};
use std::alloc::Global;
use std::collections::BTreeMap;

/// Whether it is a ticket that was born up to a group.
fn is_early_ticket(held: &Held, group: u64) -> bool
    ensures { result ≡ is_early group held.now }
{
    !is_block(held.stage) && held.birth <= group
}

/// Whether some ticket was born up to a group.
fn has_early_ticket(held: &BTreeMap<Key, Held>, group: u64) -> bool
    ensures yes { result ≡ true → (k : Key) × (h : Held) × (held_in held.now.entries k ≡ Some h) × (is_early group h ≡ true) }
    ensures no { result ≡ false → (k : Key) (h : Held) → held_in held.now.entries k ≡ Some h → is_early group h ≡ false }
{
    for (_, found) in held.iter() {
        if is_early_ticket(found, group) {
            return true;
        }
    }
    false
}

/// Whether it is a block that was born in a group and isn't freed up to it.
fn is_written_block(held: &Held, group: u64) -> bool
    ensures { result ≡ is_written group held.now }
{
    match held.stage {
        Stage::Writing { .. } => false,
        Stage::Live => held.birth == group,
        Stage::Freed { group: freed } => held.birth == group && freed > group,
    }
}

/// Whether some block was born in a group and isn't freed up to it.
fn has_written(held: &BTreeMap<Key, Held>, group: u64) -> bool
    ensures yes { result ≡ true → (k : Key) × (h : Held) × (held_in held.now.entries k ≡ Some h) × (is_written group h ≡ true) }
    ensures no { result ≡ false → (k : Key) (h : Held) → held_in held.now.entries k ≡ Some h → is_written group h ≡ false }
{
    for (_, found) in held.iter() {
        if is_written_block(found, group) {
            return true;
        }
    }
    false
}

/// Whether a leaf is known and isn't offline.
fn is_online(tables: &Tables, leaf: u64) -> bool
    ensures { result ≡ arms.online (arm_in tables.now.arms.entries (Leaf leaf)) }
{
    match tables.arms.get(&ArmName::Leaf { leaf }) {
        Some(arm) => !arm.offline,
        None => false,
    }
}

/// Whether each leaf of a list is known and isn't offline.
fn are_online(tables: &Tables, leaves: &[u64]) -> bool
    ensures { result ≡ list_all (λ leaf. arms.online (arm_in tables.now.arms.entries (Leaf leaf))) leaves.now }
{
    for leaf in leaves {
        if !is_online(tables, *leaf) {
            return false;
        }
    }
    true
}

/// The arms that lie on a silent leaf.
fn silent_arms(
    alloc: Global,
    site: &Site,
    tables: &Tables,
    failed: &[u64],
) -> Result<Vec<ArmName>, NoMemory>
    ensures { IfOk result (λ silent. (n : ArmName) → names.has_name silent.items n
        ≡ (is_some (arm_in tables.now.arms.entries n) && arms.lies_on (site_layout site.now) (core_of tables.now) (arms.is_silent (core_of tables.now) failed.now) n)) }
{
    let mut silent = Vec::new(alloc);
    for (name, _) in tables.arms.iter() {
        if site.lies_on_silent(tables, failed, *name) {
            silent.push(*name)?;
        }
    }
    Ok(silent)
}

/// Logs a group for the arms that lie on a silent leaf, where a block was written in it.
fn log_silent(
    alloc: Global,
    site: &Site,
    tables: &mut Tables,
    failed: &[u64],
    group: u64,
    wrote: bool,
) -> Result<(), NoMemory>
    requires group { group < NUMBERS }
    ensures logs { OnOk result ((n : ArmName) → arm_in tables.new.arms.entries n
        ≡ after.each_arm (λ m. after.log_if (wrote && arms.lies_on (site_layout site.now) (core_of tables.old) (arms.is_silent (core_of tables.old) failed.now) m) group) (arm_in tables.old.arms.entries) n) }
    ensures rest { tables.new ≡ record tables.old { arms = tables.new.arms } }
{
    if !wrote {
        return Ok(());
    }
    let silent = silent_arms(alloc, site, tables, failed)?;
    log_missed(&mut tables.arms, &silent, &[], group)
}

/// How many arms of a list lie on a silent leaf.
fn count_silent(site: &Site, tables: &Tables, failed: &[u64], names: &[ArmName]) -> u64
    ensures { result ≡ count_by (arms.lies_on (site_layout site.now) (core_of tables.now) (arms.is_silent (core_of tables.now) failed.now)) names.now }
{
    let mut count = 0;
    for name in names {
        if site.lies_on_silent(tables, failed, *name) {
            count += 1;
        }
    }
    count
}

/// The errors that a pass counts for the targets that it loses.
fn lost_errors(site: &Site, tables: &Tables, failed: &[u64], pass: &WorldPass) -> u64
    ensures { result ≡ after.lost_errors pass.now.kind (arms.lies_on (site_layout site.now) (core_of tables.now) (arms.is_silent (core_of tables.now) failed.now)) pass.now.targets.items }
{
    match pass.kind {
        PassKind::Rebuild => count_silent(site, tables, failed, &pass.targets),
        PassKind::Heal => 0,
    }
}

/// The arms of a list that don't lie on a silent leaf.
fn kept_targets(
    alloc: Global,
    site: &Site,
    tables: &Tables,
    failed: &[u64],
    targets: &[ArmName],
) -> Result<Vec<ArmName>, NoMemory>
    ensures { IfOk result (λ kept. kept.items
        ≡ filter (λ n. not (arms.lies_on (site_layout site.now) (core_of tables.now) (arms.is_silent (core_of tables.now) failed.now) n)) targets.now) }
{
    let mut kept = Vec::new(alloc);
    for target in targets {
        if !site.lies_on_silent(tables, failed, *target) {
            kept.push(*target)?;
        }
    }
    Ok(kept)
}

/// The pass without the targets that lie on a silent leaf.
fn lost_pass(
    alloc: Global,
    site: &Site,
    tables: &Tables,
    failed: &[u64],
) -> Result<Option<WorldPass>, NoMemory>
    ensures { IfOk result (λ pass. option_map pass_of pass
        ≡ after.map_pass (after.lose_some (arms.lies_on (site_layout site.now) (core_of tables.now) (arms.is_silent (core_of tables.now) failed.now))) (option_map pass_of tables.now.pass)) }
{
    let Some(pass) = &tables.pass else {
        return Ok(None);
    };
    let more = lost_errors(site, tables, failed, pass);
    let targets = kept_targets(alloc, site, tables, failed, &pass.targets)?;
    Ok(Some(WorldPass {
        number: pass.number,
        kind: pass.kind,
        targets,
        max: pass.max,
        next: pass.next,
        errors: capped(pass.errors, more),
        running: pass.running,
    }))
}

/// Logs a group and drops targets at a seal.
fn seal_tables(
    alloc: Global,
    site: &Site,
    tables: &mut Tables,
    failed: &[u64],
    group: u64,
    wrote: bool,
) -> Result<(), NoMemory>
    requires group { group < NUMBERS }
    ensures { OnOk result (core_of tables.new ≡ after.sealed_core (site_layout site.now) (core_of tables.old) group failed.now wrote) }
{
    let pass = lost_pass(alloc, site, tables, failed)?;
    log_silent(alloc, site, tables, failed, group, wrote)?;
    tables.pass = pass;
    Ok(())
}

/// Seals the closing group, where that is legal.
pub fn seal(
    alloc: Global,
    site: &Site,
    world: &mut World,
    group: u64,
    failed: &[u64],
) -> Result<bool, NoMemory>
    requires group { group < NUMBERS }
    ensures legal { IfOk result (λ b. b ≡ true → SealStep (site_layout site.now) (state_of world.old) group failed.now (state_of world.new)) }
    ensures illegal { IfOk result (λ b. b ≡ false → (new : State) → SealStep (site_layout site.now) (state_of world.old) group failed.now new → ⊥) }
{
    if world.closing != Some(group) || world.sealed.is_some() {
        return Ok(false);
    }
    if has_early_ticket(&world.tables.held, group) {
        return Ok(false);
    }
    if !are_online(&world.tables, failed) {
        return Ok(false);
    }
    let wrote = has_written(&world.tables.held, group);
    seal_tables(alloc, site, &mut world.tables, failed, group, wrote)?;
    let tables = copy_tables(&world.tables, Copying::Sealing { group }, alloc)?;
    world.sealed = Some(Image {
        group,
        version: world.asked,
        tables,
    });
    Ok(true)
}
