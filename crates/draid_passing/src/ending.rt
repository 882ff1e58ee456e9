ghost use Rattle.std.specs.Prelude.{◌≡◌, ◌*◌, ◌≤◌, [], ℕ, All, IsSomeAnd, None, true, vec_capacity};
ghost use Rattle.draid_pass.specs.declared.pass.Pass.{Pass};
ghost use Rattle.draid_shard.specs.Alike.{ShareArms};
ghost use Rattle.draid_shard.specs.Calls.{SameAreas, SameReserve};
ghost use Rattle.draid_shard.specs.Changes.{KeepsBlocks};
ghost use Rattle.draid_shard.specs.Fits.{HasLeaves, IsLeaf, Valid};
ghost use Rattle.draid_shard.specs.Left.{HasNothingLeft};
ghost use Rattle.draid_slots.specs.Table.{IsThere};
ghost use Rattle.draid_passing.specs.Ending.{Ends, FirmsBy, IsEnded, last_good};

use crate::flushing::flush_targets;
use crate::owing::{owed_for_loan, owed_for_pass};
use draid_area::Area;
use draid_machine::Event;
use draid_marks::silent_marks;
use draid_names::{LAST_NUMBER, PassKind};
use draid_pass::Pass;
use draid_plans::{end, lose_marked};
use draid_rack::Rack;
use draid_shard::Shard;
use draid_slots::Slots;

/// How a pass ended: with so many errors, and so many arms whose logs lost the groups that it made good.
#[derive(Clone, Copy)]
pub struct Ended {
    pub errors: u64,
    pub excised: u64,
}

/// Ends the pass, of which nothing is left to lend. A rebuild flushes the leaves on which its targets lie, and loses the
/// targets on a leaf that is offline or whose flush failed. Without errors the groups that it makes good leave its
/// targets' logs.
pub fn done<R: Rack, A: Area>(shard: &mut Shard<R, A>) -> Ended
    requires valid { Valid R.Rack shard.old }
    requires running { IsSomeAnd shard.old.pass (λ (p : Pass). p.running ≡ true) }
    requires left { HasNothingLeft shard.old }
    ensures valid { Valid R.Rack shard.new }
    ensures areas { SameAreas shard.old shard.new }
    ensures ends { Ends R.Rack shard.old shard.new result }
    ensures keeps { KeepsBlocks shard.old shard.new }
    ensures arms { ShareArms shard.old.slots shard.new.slots }
    ensures leaves { (leaf : ℕ) → IsLeaf shard.new.slots leaf → IsLeaf shard.old.slots leaf }
    ensures over { shard.new.pass ≡ None }
    ensures reserve { SameReserve shard.old shard.new }
{
    let used = owed_for_pass(&shard.pass) + owed_for_loan(&shard.kept);
    let Some(mut pass) = shard.pass.take() else {
        unreachable!()
    };
    let mut failed = std::mem::replace(&mut shard.flushed, Vec::new(shard.alloc));
    failed.clear();
    firm_targets(&mut shard.rack, &shard.slots, &mut pass, &mut failed);
    pass.max = last_good(&pass, shard.committed);
    let ended = ended_by(&pass);
    end(&mut shard.slots, &pass);
    shard.kept = None;
    shard.space.enable();
    shard.history.add(Event::Done { failed }, used);
    ended
}

/// The leaves on which the targets of a rebuild lie are flushed, and it loses the targets on a silent one.
fn firm_targets<R: Rack>(rack: &mut R, slots: &Slots, pass: &mut Pass, failed: &mut Vec<u64>)
    requires leaves { HasLeaves (R.shape rack.old) slots.now.geometry slots.now }
    requires there { All (IsThere slots.now) pass.old.targets.items }
    requires none { failed.old.items ≡ [] }
    requires room { 3 * slots.now.geometry.spec.children ≤ vec_capacity failed.old }
    ensures firms { FirmsBy pass.old.kind R.Rack slots.now pass.old pass.new failed.new.items rack.old rack.new }
{
    match pass.kind {
        PassKind::Rebuild => {
            flush_targets(rack, slots, &pass.targets, failed);
            let marks = silent_marks(slots, failed);
            lose_marked(pass, &marks);
        }
        PassKind::Heal => {}
    }
}

/// The last group that a pass makes good. A group's number has 48 bits, and a scrub's isn't behind the committed one.
fn last_good(pass: &Pass, committed: u64) -> u64
    ensures { result ≡ last_good pass.now committed }
{
    match pass.kind {
        PassKind::Rebuild => pass.max.min(LAST_NUMBER),
        PassKind::Heal => pass.max.min(committed),
    }
}

/// What is told of a pass that ends.
fn ended_by(pass: &Pass) -> Ended
    ensures { IsEnded pass.now result }
{
    let excised = if pass.errors == 0 {
        pass.targets.len() as u64
    } else {
        0
    };
    Ended {
        errors: pass.errors,
        excised,
    }
}
