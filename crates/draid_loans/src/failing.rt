ghost use Rattle.std.specs.Prelude.{◌≡◌, ◌<◌, ◌+◌, Some, true, false, IfSome, IfNone};
ghost use Rattle.draid_machine.specs.Arms as arms;
ghost use Rattle.draid_machine.specs.Step.{ReadsThere};
ghost use Rattle.draid_machine.specs.declared.names.Held.{Held};
ghost use Rattle.draid_machine.specs.declared.names.Key.{Key};
ghost use Rattle.draid_loans.specs.Lending.{AllRead, MayLend, ReadsAt};
ghost use Rattle.draid_passes.specs.Left.{AreShort};
ghost use Rattle.draid_world.specs.World.{core_of, held_in, pass_of, site_layout};

use crate::sources::source;
use draid_machine::{Held, Key};
use draid_names::NUMBERS;
use draid_passes::{any_answers, is_heal, is_lent};
use draid_world::arms::names_of;
use draid_world::{Site, Tables, WorldPass};

/// Whether a pass reads a column from a leaf.
fn reads_at(
    site: &Site,
    tables: &Tables,
    pass: &WorldPass,
    held: Held,
    stripe: u64,
    column: u32,
    leaf: u64,
) -> bool
    requires first { held.first < NUMBERS }
    requires stripe { stripe < NUMBERS }
    requires column { column < site.now.geometry.g }
    ensures yes { result ≡ true → ReadsAt (site_layout site.now) (core_of tables.now) (pass_of pass.now) held stripe column leaf }
    ensures no { result ≡ false → ReadsAt (site_layout site.now) (core_of tables.now) (pass_of pass.now) held stripe column leaf → ⊥ }
{
    if is_heal(pass.kind) {
        let names = names_of(&tables.order, site.slot_of(held.first, column) as usize);
        return any_answers(site, tables, names, stripe, leaf);
    }
    match source(site, tables, stripe, column) {
        Some(name) => site.lies_at(tables, name, stripe, leaf),
        None => false,
    }
}

/// Whether a pass reads some column of a stripe from a leaf.
fn reads_there(
    site: &Site,
    tables: &Tables,
    pass: &WorldPass,
    held: Held,
    stripe: u64,
    leaf: u64,
) -> bool
    requires first { held.first < NUMBERS }
    requires stripe { stripe < NUMBERS }
    ensures yes { result ≡ true → ReadsThere (site_layout site.now) (core_of tables.now) (pass_of pass.now) held stripe leaf }
    ensures no { result ≡ false → ReadsThere (site_layout site.now) (core_of tables.now) (pass_of pass.now) held stripe leaf → ⊥ }
{
    for column in 0..site.geometry.g {
        if reads_at(site, tables, pass, held, stripe, column, leaf) {
            return true;
        }
    }
    false
}

/// Whether a pass reads a stripe from each leaf of a list.
fn reads_all(
    site: &Site,
    tables: &Tables,
    pass: &WorldPass,
    held: Held,
    stripe: u64,
    leaves: &[u64],
) -> bool
    requires first { held.first < NUMBERS }
    requires stripe { stripe < NUMBERS }
    ensures yes { result ≡ true → AllRead (site_layout site.now) (core_of tables.now) (pass_of pass.now) held stripe leaves.now }
    ensures no { result ≡ false → AllRead (site_layout site.now) (core_of tables.now) (pass_of pass.now) held stripe leaves.now → ⊥ }
{
    for leaf in leaves {
        if !reads_there(site, tables, pass, held, stripe, *leaf) {
            return false;
        }
    }
    true
}

/// Whether a pass may lend a stripe of a block while calls fail on these leaves.
fn may_lend(
    site: &Site,
    tables: &Tables,
    pass: &WorldPass,
    held: Held,
    stripe: u64,
    failed: &[u64],
) -> bool
    requires short { held.first + held.stripes < NUMBERS }
    ensures yes { result ≡ true → MayLend (site_layout site.now) (core_of tables.now) (pass_of pass.now) stripe failed.now held }
    ensures no { result ≡ false → MayLend (site_layout site.now) (core_of tables.now) (pass_of pass.now) stripe failed.now held → ⊥ }
{
    if stripe < held.first || stripe >= held.first + u64::from(held.stripes) {
        return false;
    }
    is_lent(pass, held) && reads_all(site, tables, pass, held, stripe, failed)
}

/// A block that has a stripe, from which a pass may lend it while calls fail on these leaves.
pub(crate) fn lendable(
    site: &Site,
    tables: &Tables,
    pass: &WorldPass,
    stripe: u64,
    failed: &[u64],
) -> Option<(Key, Held)>
    requires short { AreShort (held_in tables.now.held.entries) }
    ensures found { IfSome result (λ e. held_in tables.now.held.entries e.0 ≡ Some e.1) }
    ensures some { IfSome result (λ e. MayLend (site_layout site.now) (core_of tables.now) (pass_of pass.now) stripe failed.now e.1) }
    ensures none { IfNone result ((k : Key) (h : Held) → held_in tables.now.held.entries k ≡ Some h → MayLend (site_layout site.now) (core_of tables.now) (pass_of pass.now) stripe failed.now h → ⊥) }
{
    for (key, block) in &tables.held {
        if may_lend(site, tables, pass, *block, stripe, failed) {
            return Some((*key, *block));
        }
    }
    None
}
