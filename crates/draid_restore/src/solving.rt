//! The block that a scrub has lent is restored from its readings.
ghost use Rattle.std.specs.Prelude.{◌≡◌, ℕ, IfSome, IsSome, List, None, OnErr, OnOk};
ghost use Rattle.draid_block.specs.Blocks.{cut_of};
ghost use Rattle.draid_block.specs.Solving.{IsFetched, IsReadable};
ghost use Rattle.draid_shard.specs.Fits.{Valid};
ghost use Rattle.draid_shard.specs.States.{DoesNone};
ghost use Rattle.draid_spec.specs.Geometry.{IsGeometry};
ghost use Rattle.draid_restore.specs.Restoring.{AnswersBlock, HasColumnsOf, RestoresLoan, StaysLent, fetched_of};

use draid_area::Area;
use draid_block::{Encoded, Fetched, SolveFault, restore};
use draid_names::NoMemory;
use draid_rack::Rack;
use draid_shard::{KeptLoan, LentBlock, Shard};
use draid_spec::Geometry;
use std::alloc::Global;

/// Restores the block of the loan that counts, known by its digest, or finds that no columns restore it.
pub fn solve<R: Rack, A: Area>(shard: &mut Shard<R, A>) -> Result<(), NoMemory>
    requires valid { Valid R.Rack shard.old }
    ensures valid { Valid R.Rack shard.new }
    ensures only { shard.new ≡ record shard.old { kept = shard.new.kept } }
    ensures none { DoesNone shard.old shard.new }
    ensures solves { OnOk result (RestoresLoan shard.old.geometry shard.old.kept shard.new.kept) }
    ensures stays { OnErr result (StaysLent shard.old.kept shard.new.kept) }
{
    match shard.kept.take() {
        None => Ok(()),
        Some(KeptLoan::Stripe(lent)) => {
            shard.kept = Some(KeptLoan::Stripe(lent));
            Ok(())
        }
        Some(KeptLoan::Block(mut lent)) => {
            let solved = restore_lent(shard.alloc, &shard.geometry, &mut lent);
            shard.kept = Some(KeptLoan::Block(lent));
            solved
        }
    }
}

/// Restores it from what was read.
fn restore_lent(alloc: Global, geometry: &Geometry, lent: &mut LentBlock) -> Result<(), NoMemory>
    requires geometry { IsGeometry geometry.now }
    requires fetched { IsFetched (cut_of geometry.now) (fetched_of lent.old) }
    ensures rest { lent.new ≡ record lent.old { restored = lent.new.restored } }
    ensures answers { OnOk result (AnswersBlock geometry.now (fetched_of lent.old) lent.new.restored) }
    ensures readable { OnOk result ((w bad : List ℕ) → IsReadable (cut_of geometry.now) (fetched_of lent.old) w bad → IsSome lent.new.restored) }
    ensures cut { OnOk result (IfSome lent.new.restored HasColumnsOf) }
    ensures none { OnErr result (lent.new.restored ≡ None) }
{
    let fetched = Fetched {
        pointer: lent.pointer,
        columns: std::mem::replace(&mut lent.columns, Vec::new(alloc)),
    };
    let restored = restore(alloc, geometry, &fetched);
    let Fetched { columns, .. } = fetched;
    lent.columns = columns;
    lent.restored = None;
    match restored {
        Ok(block) => {
            tell_columns(&block);
            lent.restored = Some(block);
            Ok(())
        }
        Err(fault) => match fault {
            SolveFault::Unreadable { .. } => Ok(()),
            SolveFault::NoMemory => Err(NoMemory),
        },
    }
}

/// The columns of a restored block are those of its bytes.
fn tell_columns(block: &Encoded)
    ensures { HasColumnsOf block.now }
{
    block.digest();
}
