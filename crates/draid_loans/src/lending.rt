ghost use Rattle.std.specs.Prelude.{◌≡◌, ◌+◌, ◌-◌, ◌<◌, ◌^◌, Ok, Some, None, true, false, MatchOption, IfOk};
ghost use Rattle.draid_machine.specs.After as after;
ghost use Rattle.draid_machine.specs.State.{Loan, State};
ghost use Rattle.draid_machine.specs.Step.{LendStep};
ghost use Rattle.draid_loans.specs.Lending.{IsLoan};
ghost use Rattle.draid_passes.specs.Left.{AreShort};
ghost use Rattle.draid_world.specs.World.{held_in, loan_of, site_layout, state_of};

use crate::failing::lendable;
use crate::readings::read_columns;
use draid_names::{NoMemory, PassKind};
use draid_passes::next_stripe;
use draid_world::{Lent, Site, World, WorldPass, capped};
use std::alloc::Global;

/// The errors of a lend in which these calls failed.
fn lend_errors(kind: PassKind, failed: &[u64]) -> u64
    ensures { result ≡ after.lend_errors kind failed.now }
{
    match kind {
        PassKind::Rebuild => 0,
        PassKind::Heal => failed.len() as u64,
    }
}

/// The next loan of the pass, if it runs, something is left, and calls failed on leaves alone that it reads.
fn next_loan(
    alloc: Global,
    site: &Site,
    world: &World,
    failed: &[u64],
) -> Result<Option<Lent>, NoMemory>
    requires short { AreShort (held_in world.now.tables.held.entries) }
    requires serial { world.now.serial < 2 ^ 64 - 1 }
    ensures { IfOk result (λ found. MatchOption found ((n : Loan) → IsLoan (site_layout site.now) (state_of world.now) failed.now n → ⊥)
        (λ n. IsLoan (site_layout site.now) (state_of world.now) failed.now (loan_of n))) }
{
    let Some(pass) = &world.tables.pass else {
        return Ok(None);
    };
    if !pass.running {
        return Ok(None);
    }
    let Some(stripe) = next_stripe(&world.tables.held, pass) else {
        return Ok(None);
    };
    let Some((key, held)) = lendable(site, &world.tables, pass, stripe, failed) else {
        return Ok(None);
    };
    let columns = read_columns(alloc, site, &world.tables, pass, held, stripe, failed)?;
    Ok(Some(Lent {
        key,
        stripe,
        serial: world.serial + 1,
        read: columns.read,
        chosen: columns.chosen,
    }))
}

/// Lends the next stripe, or the next block, of the pass, where that is legal.
pub fn lend(alloc: Global, site: &Site, world: &mut World, failed: &[u64]) -> Result<bool, NoMemory>
    requires short { AreShort (held_in world.old.tables.held.entries) }
    requires serial { world.old.serial < 2 ^ 64 - 1 }
    ensures legal { result ≡ Ok true → LendStep (site_layout site.now) (state_of world.old) failed.now (state_of world.new) }
    ensures illegal { result ≡ Ok false → (new : State) → LendStep (site_layout site.now) (state_of world.old) failed.now new → ⊥ }
{
    let Some(loan) = next_loan(alloc, site, world, failed)? else {
        return Ok(false);
    };
    let Some(pass) = world.tables.pass.take() else {
        return Ok(false);
    };
    world.tables.pass = Some(WorldPass {
        errors: capped(pass.errors, lend_errors(pass.kind, failed)),
        ..pass
    });
    world.serial += 1;
    world.loan = Some(loan);
    Ok(true)
}
