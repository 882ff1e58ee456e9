ghost use Rattle.std.specs.Prelude.{◌≡◌, ◌==◌, ◌<◌, ℕ, true, false, count_by, IfSome};
ghost use Rattle.draid_machine.specs.After as after;
ghost use Rattle.draid_machine.specs.Arms as arms;
ghost use Rattle.draid_machine.specs.Names.{has_name, has_number};
ghost use Rattle.draid_machine.specs.State.{State};
ghost use Rattle.draid_machine.specs.Step.{CancelStep, DoneStep, FlushesThere};
ghost use Rattle.draid_machine.specs.declared.names.ArmName.{ArmName};
ghost use Rattle.draid_passes.specs.Ends.{MayEnd};
ghost use Rattle.draid_passes.specs.Left.{AreShort};
ghost use Rattle.draid_world.specs.declared.world.WorldPass.{WorldPass};
ghost use Rattle.draid_world.specs.World.{core_of, held_in, pass_of, site_layout, state_of};

use crate::left::{is_heal, next_stripe};
use crate::logs::excise_logs;
use draid_machine::ArmName;
use draid_names::NUMBERS;
use draid_world::{Site, Tables, World, WorldPass};

/// Whether some arm of a list lies on a leaf.
fn any_lies_on(site: &Site, tables: &Tables, names: &[ArmName], leaf: u64) -> bool
    ensures yes { result ≡ true → (arm : ArmName) × (has_name names.now arm ≡ true) × (arms.lies_on (site_layout site.now) (core_of tables.now) (λ m. m == leaf) arm ≡ true) }
    ensures no { result ≡ false → (arm : ArmName) → has_name names.now arm ≡ true → arms.lies_on (site_layout site.now) (core_of tables.now) (λ m. m == leaf) arm ≡ true → ⊥ }
{
    for name in names {
        if site.lies_on(tables, leaf, *name) {
            return true;
        }
    }
    false
}

/// Whether a pass flushes a leaf at its end: a rebuild those of its targets that answer.
fn is_flushed(site: &Site, tables: &Tables, pass: &WorldPass, leaf: u64) -> bool
    ensures yes { result ≡ true → FlushesThere (site_layout site.now) (core_of tables.now) (pass_of pass.now) leaf }
    ensures no { result ≡ false → FlushesThere (site_layout site.now) (core_of tables.now) (pass_of pass.now) leaf → ⊥ }
{
    !is_heal(pass.kind)
        && tables.leaf_answers(leaf)
        && any_lies_on(site, tables, &pass.targets, leaf)
}

/// Whether a pass flushes each leaf of a list.
fn are_flushed(site: &Site, tables: &Tables, pass: &WorldPass, leaves: &[u64]) -> bool
    ensures yes { result ≡ true → (leaf : ℕ) → has_number leaves.now leaf ≡ true → FlushesThere (site_layout site.now) (core_of tables.now) (pass_of pass.now) leaf }
    ensures no { result ≡ false → ((leaf : ℕ) → has_number leaves.now leaf ≡ true → FlushesThere (site_layout site.now) (core_of tables.now) (pass_of pass.now) leaf) → ⊥ }
{
    for leaf in leaves {
        if !is_flushed(site, tables, pass, *leaf) {
            return false;
        }
    }
    true
}

/// Whether the pass runs, with nothing left and no loan that counts, and flushes the leaves on which calls failed.
fn may_end(site: &Site, world: &World, failed: &[u64]) -> bool
    requires short { AreShort (held_in world.now.tables.held.entries) }
    ensures yes { result ≡ true → MayEnd (site_layout site.now) (state_of world.now) failed.now }
    ensures no { result ≡ false → MayEnd (site_layout site.now) (state_of world.now) failed.now → ⊥ }
{
    let Some(pass) = &world.tables.pass else {
        return false;
    };
    if !pass.running || world.loan.is_some() {
        return false;
    }
    if next_stripe(&world.tables.held, pass).is_some() {
        return false;
    }
    are_flushed(site, &world.tables, pass, failed)
}

/// Whether no arm of a list lies on a silent leaf.
fn none_lies_on_silent(site: &Site, tables: &Tables, names: &[ArmName], failed: &[u64]) -> bool
    ensures { result ≡ (count_by (arms.lies_on (site_layout site.now) (core_of tables.now) (arms.is_silent (core_of tables.now) failed.now)) names.now == 0) }
{
    for name in names {
        if site.lies_on_silent(tables, failed, *name) {
            return false;
        }
    }
    true
}

/// Whether a pass ends without errors.
fn ends_clean(site: &Site, tables: &Tables, pass: &WorldPass, failed: &[u64]) -> bool
    ensures { result ≡ ((after.ended_pass (site_layout site.now) (core_of tables.now) (pass_of pass.now) failed.now).errors == 0) }
{
    if is_heal(pass.kind) {
        return pass.errors == 0;
    }
    pass.errors == 0 && none_lies_on_silent(site, tables, &pass.targets, failed)
}

/// Ends a pass with nothing left to lend, where that is legal.
pub fn done(site: &Site, world: &mut World, failed: &[u64]) -> bool
    requires short { AreShort (held_in world.old.tables.held.entries) }
    requires max { IfSome world.old.tables.pass (λ pass. pass.max < NUMBERS) }
    ensures legal { result ≡ true → DoneStep (site_layout site.now) (state_of world.old) failed.now (state_of world.new) }
    ensures illegal { result ≡ false → (new : State) → DoneStep (site_layout site.now) (state_of world.old) failed.now new → ⊥ }
{
    if !may_end(site, world, failed) {
        return false;
    }
    let Some(pass) = world.tables.pass.take() else {
        return false;
    };
    if ends_clean(site, &world.tables, &pass, failed) {
        excise_logs(&mut world.tables.arms, &pass.targets, pass.max);
        return true;
    }
    true
}

/// Ends the pass, if there is one.
pub fn cancel(world: &mut World) -> bool
    ensures legal { result ≡ true → CancelStep (state_of world.old) (state_of world.new) }
    ensures illegal { result ≡ false → (new : State) → CancelStep (state_of world.old) new → ⊥ }
{
    if world.tables.pass.is_none() {
        return false;
    }
    world.tables.pass = None;
    world.loan = None;
    true
}
