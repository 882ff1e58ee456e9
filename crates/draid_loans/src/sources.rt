ghost use Rattle.std.specs.Prelude.{◌≡◌, ◌<◌, Some, true, false};
ghost use Rattle.draid_machine.specs.Arms as arms;
ghost use Rattle.draid_machine.specs.Step.{IsChosen};
ghost use Rattle.draid_loans.specs.Lending.{IsFrom, IsReady};
ghost use Rattle.draid_world.specs.World.{core_of, pass_of, site_layout};

use draid_machine::{ArmName, Held};
use draid_names::NUMBERS;
use draid_passes::is_heal;
use draid_world::arms::names_of;
use draid_world::{Site, Tables, WorldPass};

/// Whether an arm answers at a stripe and its log is empty.
fn is_ready(site: &Site, tables: &Tables, name: ArmName, stripe: u64) -> bool
    requires stripe { stripe < NUMBERS }
    ensures yes { result ≡ true → IsReady (site_layout site.now) (core_of tables.now) stripe name }
    ensures no { result ≡ false → IsReady (site_layout site.now) (core_of tables.now) stripe name → ⊥ }
{
    site.answers(tables, name, stripe) && tables.has_empty_log(name)
}

/// The first arm of a list that answers at a stripe and whose log is empty.
fn first_ready(site: &Site, tables: &Tables, names: &[ArmName], stripe: u64) -> Option<ArmName>
    requires stripe { stripe < NUMBERS }
    ensures { arms.IsFirst (IsReady (site_layout site.now) (core_of tables.now) stripe) names.now result }
{
    for name in names {
        if is_ready(site, tables, *name, stripe) {
            return Some(*name);
        }
    }
    None
}

/// The source of a column of a stripe in a rebuild.
pub(crate) fn source(site: &Site, tables: &Tables, stripe: u64, column: u32) -> Option<ArmName>
    requires stripe { stripe < NUMBERS }
    requires column { column < site.now.geometry.g }
    ensures { arms.IsSource (site_layout site.now) (core_of tables.now) stripe column result }
{
    let names = names_of(&tables.order, site.slot_of(stripe, column) as usize);
    first_ready(site, tables, names, stripe)
}

/// The arm from which a pass takes a column.
fn from(
    site: &Site,
    tables: &Tables,
    pass: &WorldPass,
    held: Held,
    stripe: u64,
    column: u32,
) -> Option<ArmName>
    requires first { held.first < NUMBERS }
    requires stripe { stripe < NUMBERS }
    requires column { column < site.now.geometry.g }
    ensures { IsFrom (site_layout site.now) (core_of tables.now) (pass_of pass.now) held stripe column result }
{
    if is_heal(pass.kind) {
        return site.reading(tables, held, column);
    }
    source(site, tables, stripe, column)
}

/// The arm that a column is taken from, unless its leaf failed.
pub(crate) fn chosen(
    site: &Site,
    tables: &Tables,
    pass: &WorldPass,
    held: Held,
    stripe: u64,
    column: u32,
    failed: &[u64],
) -> Option<ArmName>
    requires first { held.first < NUMBERS }
    requires stripe { stripe < NUMBERS }
    requires column { column < site.now.geometry.g }
    ensures { IsChosen (site_layout site.now) (core_of tables.now) (pass_of pass.now) held stripe failed.now column result }
{
    let name = from(site, tables, pass, held, stripe, column)?;
    (!site.fails(tables, failed, name, stripe)).then_some(name)
}
