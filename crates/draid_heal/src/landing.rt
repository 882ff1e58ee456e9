//! A scrub's loan comes back: the block lands on its arms that answer.
ghost use Rattle.std.specs.Prelude.{◌≡◌, IsSomeAnd, None, Option, Some};
ghost use Rattle.draid_shard.specs.Calls.{SameAreas, SameReserve};
ghost use Rattle.draid_shard.specs.Changes.{KeepsBlocks};
ghost use Rattle.draid_shard.specs.Fits.{Valid};
ghost use Rattle.draid_shard.specs.declared.loan.KeptLoan.TheVariants.{Block};
ghost use Rattle.draid_heal.specs.Lands.{IsBlockLoan, LandsUnit, MovesBehind};
ghost use Rattle.draid_shard.specs.Scrubs.{IsLentHere, IsRunningScrub};

use crate::kept::land_kept;
use draid_area::Area;
use draid_machine::Event;
use draid_rack::Rack;
use draid_shard::{KeptLoan, LentBlock, Shard, taken_out};

/// Puts the block that is lent right on each of its arms that answers, and flushes their leaves: sectors that read otherwise
/// are written, and on an arm that isn't clean all. Where all arms that are clean for the block answered, and no call on one failed,
/// the harm of its sectors ends. A failed call is an error, and a target that doesn't answer or on which one failed is lost. Of a
/// block that can't be restored nothing is written, and one error is counted. The answer is on how many arms a sector landed.
pub fn land<R: Rack, A: Area>(shard: &mut Shard<R, A>) -> u64
    requires valid { Valid R.Rack shard.old }
    requires running { IsSomeAnd shard.old.pass IsRunningScrub }
    requires here { IsLentHere shard.old }
    ensures valid { Valid R.Rack shard.new }
    ensures areas { SameAreas shard.old shard.new }
    ensures lands { LandsUnit R.Rack shard.old shard.new result }
    ensures keeps { KeepsBlocks shard.old shard.new }
    ensures slots { shard.new.slots ≡ shard.old.slots }
    ensures moves { MovesBehind shard.old.kept shard.old.pass shard.new.pass }
    ensures none { shard.new.kept ≡ None }
    ensures reserve { SameReserve shard.old shard.new }
{
    let Some(mut pass) = shard.pass.take() else {
        unreachable!()
    };
    let mut lent = block_in(shard.kept.take());
    let rewritten = land_kept(shard, &mut pass, &mut lent);
    pass.at = lent.pointer.first + u64::from(lent.pointer.stripes);
    let event = Event::LandBlock {
        pass: pass.number,
        serial: lent.serial,
        failed: taken_out(&mut lent.room.failed, shard.alloc),
        patched: taken_out(&mut lent.room.patched, shard.alloc),
        unreadable: lent.restored.is_none(),
    };
    shard.pass = Some(pass);
    shard.idle = Some(KeptLoan::Block(lent));
    shard.history.add(event, 1);
    rewritten
}

/// The block of a loan.
fn block_in(kept: Option<KeptLoan>) -> LentBlock
    requires { IsSomeAnd kept IsBlockLoan }
    ensures { kept ≡ Some (Block result) }
{
    match kept {
        Some(KeptLoan::Block(lent)) => lent,
        Some(KeptLoan::Stripe(_)) => unreachable!(),
        None => unreachable!(),
    }
}
