ghost use Rattle.std.specs.Prelude.{◌≡◌, ◌<◌, true, false, not, filter, IfSome, IfNone, IfOk};
ghost use Rattle.draid_machine.specs.After as after;
ghost use Rattle.draid_machine.specs.declared.names.Held.{Held};
ghost use Rattle.draid_passes.specs.Landings.{IsAnswering, Lands};
ghost use Rattle.draid_world.specs.World.{core_of, site_layout, state_of};

use draid_machine::{ArmName, Held};
use draid_names::{NUMBERS, NoMemory, PassKind};
use draid_world::tables::find;
use draid_world::{Site, Tables, World};
use std::alloc::Global;

/// The block of a loan of a pass of this kind that counts under these numbers.
pub fn landing(world: &World, kind: PassKind, pass: u64, serial: u64) -> Option<Held>
    ensures some { IfSome result (λ h. Lands (state_of world.now) kind pass serial h) }
    ensures none { IfNone result ((h : Held) → Lands (state_of world.now) kind pass serial h → ⊥) }
{
    let Some(found) = &world.tables.pass else {
        return None;
    };
    let Some(loan) = &world.loan else {
        return None;
    };
    if found.kind != kind || found.number != pass || loan.serial != serial {
        return None;
    }
    find(&world.tables.held, loan.key)
}

/// Whether some arm of a list answers at a stripe from a leaf.
pub fn any_answers(site: &Site, tables: &Tables, names: &[ArmName], stripe: u64, leaf: u64) -> bool
    requires stripe { stripe < NUMBERS }
    ensures yes { result ≡ true → IsAnswering (site_layout site.now) (core_of tables.now) names.now stripe leaf }
    ensures no { result ≡ false → IsAnswering (site_layout site.now) (core_of tables.now) names.now stripe leaf → ⊥ }
{
    if !tables.leaf_answers(leaf) {
        return false;
    }
    for name in names {
        if site.lies_at(tables, *name, stripe, leaf) {
            return true;
        }
    }
    false
}

/// Whether an arm has a column of a stripe, and doesn't answer there or a call on it failed.
fn misses(site: &Site, tables: &Tables, failed: &[u64], name: ArmName, stripe: u64) -> bool
    requires stripe { stripe < NUMBERS }
    ensures { result ≡ after.misses_stripe (site_layout site.now) (core_of tables.now) stripe failed.now name }
{
    site.has_column(tables, name, stripe)
        && (!site.answers(tables, name, stripe) || site.fails(tables, failed, name, stripe))
}

/// The arms of a list that don't miss a stripe.
pub fn kept(
    alloc: Global,
    site: &Site,
    tables: &Tables,
    names: &[ArmName],
    stripe: u64,
    failed: &[u64],
) -> Result<Vec<ArmName>, NoMemory>
    requires stripe { stripe < NUMBERS }
    ensures { IfOk result (λ out. out.items ≡ filter (λ n. not (after.misses_stripe (site_layout site.now) (core_of tables.now) stripe failed.now n)) names.now) }
{
    let mut out = Vec::new(alloc);
    for name in names {
        if !misses(site, tables, failed, *name, stripe) {
            out.push(*name)?;
        }
    }
    Ok(out)
}
