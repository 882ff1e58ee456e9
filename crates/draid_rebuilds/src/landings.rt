ghost use Rattle.std.specs.Prelude.{◌≡◌, ◌+◌, ◌<◌, ℕ, true, false};
ghost use Rattle.draid_machine.specs.After as after;
ghost use Rattle.draid_machine.specs.Names.{has_number};
ghost use Rattle.draid_machine.specs.Step.{MendsThere};
ghost use Rattle.draid_rebuilds.specs.Landings.{Keeps, MayMend};
ghost use Rattle.draid_world.specs.World.{core_of, loan_of, name_at, pass_of, site_layout};

use draid_machine::ArmName;
use draid_names::NUMBERS;
use draid_world::{Lent, Site, Tables, WorldPass};

/// The arm that a column of a loan is taken from.
pub(crate) fn taken_from(loan: &Lent, column: u32) -> Option<ArmName>
    ensures { result ≡ name_at loan.now.chosen.items column }
{
    let at = column as usize;
    if at < loan.chosen.len() {
        loan.chosen[at]
    } else {
        None
    }
}

/// How many columns of a loan are taken from no arm.
pub(crate) fn unsourced(site: &Site, loan: &Lent) -> u32
    ensures { result ≡ after.unsourced (site_layout site.now) (loan_of loan.now) }
{
    let mut count = 0;
    for column in 0..site.geometry.g {
        if taken_from(loan, column).is_none() {
            count += 1;
        }
    }
    count
}

/// Whether an arm has a column of a stripe, and keeps it on a leaf.
fn keeps(site: &Site, tables: &Tables, name: ArmName, stripe: u64, leaf: u64) -> bool
    requires stripe { stripe < NUMBERS }
    ensures yes { result ≡ true → Keeps (site_layout site.now) (core_of tables.now) stripe leaf name }
    ensures no { result ≡ false → Keeps (site_layout site.now) (core_of tables.now) stripe leaf name → ⊥ }
{
    site.has_column(tables, name, stripe) && site.lies_at(tables, name, stripe, leaf)
}

/// Whether a target that has a column of a stripe answers from a leaf.
fn mends_there(site: &Site, tables: &Tables, pass: &WorldPass, stripe: u64, leaf: u64) -> bool
    requires stripe { stripe < NUMBERS }
    ensures yes { result ≡ true → MendsThere (site_layout site.now) (core_of tables.now) (pass_of pass.now) stripe leaf }
    ensures no { result ≡ false → MendsThere (site_layout site.now) (core_of tables.now) (pass_of pass.now) stripe leaf → ⊥ }
{
    if !tables.leaf_answers(leaf) {
        return false;
    }
    for at in 0..pass.targets.len() {
        if keeps(site, tables, pass.targets[at], stripe, leaf) {
            return true;
        }
    }
    false
}

/// Whether the landing of a stripe writes to a leaf.
fn may_mend(site: &Site, tables: &Tables, pass: &WorldPass, loan: &Lent, leaf: u64) -> bool
    requires stripe { loan.now.stripe < NUMBERS }
    ensures yes { result ≡ true → MayMend (site_layout site.now) (core_of tables.now) (pass_of pass.now) (loan_of loan.now) leaf }
    ensures no { result ≡ false → MayMend (site_layout site.now) (core_of tables.now) (pass_of pass.now) (loan_of loan.now) leaf → ⊥ }
{
    unsourced(site, loan) <= site.geometry.spec.parity
        && mends_there(site, tables, pass, loan.stripe, leaf)
}

/// Whether the landing of a stripe writes to each leaf of a list.
pub(crate) fn may_mend_all(
    site: &Site,
    tables: &Tables,
    pass: &WorldPass,
    loan: &Lent,
    leaves: &[u64],
) -> bool
    requires stripe { loan.now.stripe < NUMBERS }
    ensures yes { result ≡ true → (leaf : ℕ) → has_number leaves.now leaf ≡ true → MayMend (site_layout site.now) (core_of tables.now) (pass_of pass.now) (loan_of loan.now) leaf }
    ensures no { result ≡ false → ((leaf : ℕ) → has_number leaves.now leaf ≡ true → MayMend (site_layout site.now) (core_of tables.now) (pass_of pass.now) (loan_of loan.now) leaf) → ⊥ }
{
    for leaf in leaves {
        if !may_mend(site, tables, pass, loan, *leaf) {
            return false;
        }
    }
    true
}
