//! A rebuild's loan comes back: its stripe lands on the targets of the pass.
ghost use Rattle.std.specs.Prelude.{◌≡◌, ◌+◌, ◌≤◌, ◌<◌, [], All, IsSome, IsSomeAnd, None, length};
ghost use Rattle.draid_machine.specs.After.{capped};
ghost use Rattle.draid_shard.specs.Calls.{SameAreas, SameReserve};
ghost use Rattle.draid_shard.specs.Changes.{KeepsBlocks};
ghost use Rattle.draid_shard.specs.Fits.{Valid};
ghost use Rattle.draid_slots.specs.Table.{IsThere};
ghost use Rattle.draid_mend.specs.Lands.{IsLaid, IsSolvable, LandsKept, LandsSolved, LandsUnit, MayLand, MovesOver};
ghost use Rattle.draid_mend.specs.Loans.{IsRunningRebuild};

use crate::columns::land_columns;
use crate::loans::unit_of;
use crate::losing::lose_missed;
use crate::solving::count_missing;
use draid_area::Area;
use draid_machine::Event;
use draid_names::LAST_NUMBER;
use draid_pass::Pass;
use draid_rack::Rack;
use draid_shard::{KeptLoan, LentStripe, Shard, taken_out};

/// Writes the stripe that is lent to the targets of the pass: each column to the targets of its slot that answer. A target that
/// doesn't answer, or on whose leaf a call failed, is lost, an error each. Where more columns are missing than the parity solves
/// nothing is written, and one error is counted.
pub fn land<R: Rack, A: Area>(shard: &mut Shard<R, A>)
    requires valid { Valid R.Rack shard.old }
    requires running { IsSomeAnd shard.old.pass IsRunningRebuild }
    requires kept { IsSome shard.old.kept }
    ensures valid { Valid R.Rack shard.new }
    ensures areas { SameAreas shard.old shard.new }
    ensures lands { LandsUnit R.Rack shard.old shard.new }
    ensures keeps { KeepsBlocks shard.old shard.new }
    ensures slots { shard.new.slots ≡ shard.old.slots }
    ensures moves { MovesOver shard.old.kept shard.old.pass shard.new.pass }
    ensures none { shard.new.kept ≡ None }
    ensures reserve { SameReserve shard.old shard.new }
{
    let Some(mut pass) = shard.pass.take() else {
        unreachable!()
    };
    let Some(KeptLoan::Stripe(mut kept)) = shard.kept.take() else {
        unreachable!()
    };
    land_kept(shard, &mut pass, &mut kept);
    pass.at = kept.stripe + 1;
    let event = Event::LandStripe {
        pass: pass.number,
        serial: kept.serial,
        failed: taken_out(&mut kept.failed, shard.alloc),
    };
    shard.pass = Some(pass);
    shard.idle = Some(KeptLoan::Stripe(kept));
    shard.history.add(event, 1);
}

/// Writes what is kept of a loan, unless too many of its columns are missing.
fn land_kept<R: Rack, A: Area>(shard: &mut Shard<R, A>, pass: &mut Pass, kept: &mut LentStripe)
    requires laid { IsLaid R.Rack shard.old }
    requires there { All (IsThere shard.old.slots) pass.old.targets.items }
    requires may { MayLand shard.old.geometry pass.old kept.old }
    ensures lands { LandsKept R.Rack shard.old shard.new pass.old pass.new kept.old kept.new }
{
    kept.failed.clear();
    let missing = count_missing(&kept.chosen, shard.geometry.g);
    if missing > shard.geometry.spec.parity as usize {
        pass.errors = one_more(pass.errors);
        return;
    }
    land_solved(shard, pass, kept);
}

/// Writes it, and the pass loses the targets that miss it.
fn land_solved<R: Rack, A: Area>(shard: &mut Shard<R, A>, pass: &mut Pass, kept: &mut LentStripe)
    requires laid { IsLaid R.Rack shard.old }
    requires there { All (IsThere shard.old.slots) pass.old.targets.items }
    requires may { MayLand shard.old.geometry pass.old kept.old }
    requires none { kept.old.failed.items ≡ [] }
    ensures rest { kept.new ≡ record kept.old { failed = kept.new.failed } }
    ensures lands { LandsSolved R.Rack shard.old shard.new pass.old pass.new kept.old kept.new.failed.items }
{
    let unit = unit_of(&kept.pointer, kept.stripe);
    let answered = land_columns(
        shard,
        &unit,
        &pass.targets,
        &kept.chosen,
        &kept.columns,
        &mut kept.failed,
    );
    lose_missed(shard, pass, &unit, &kept.failed, answered);
}

/// One error more. Their number stands still at the last.
fn one_more(errors: u64) -> u64
    ensures { result ≡ capped (errors + 1) }
{
    errors.saturating_add(1).min(LAST_NUMBER)
}
