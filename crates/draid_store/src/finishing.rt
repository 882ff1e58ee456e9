ghost use Rattle.std.specs.Prelude.{◌≡◌, ◌+◌, ℕ, IfOk, Option, true};
ghost use Rattle.draid_entries.specs.Maps.{key_of};
ghost use Rattle.draid_names.specs.declared.pointer.Pointer.{Pointer};
ghost use Rattle.draid_pool.specs.Threads.{AllStay, IsWholeBut, all_of, but};
ghost use Rattle.draid_store.specs.Putting.{CarriesAt, EndSays, EndsWhole};

use draid_area::Area;
use draid_block::Encoded;
use draid_blocks::{Missed, Ticket};
use draid_names::Pointer;
use draid_pool::Metaslabs;
use draid_rack::Rack;
use draid_shard::Shard;
use draid_turn::Act;

/// The end of a write whose columns are all put.
#[derive(Drop)]
pub struct FinishOp<'a> {
    pub ticket: Ticket,
    pub block: &'a Encoded,
    pub out: Option<Result<Pointer, Missed>>,
}

impl<'a, R: Rack, A: Area> Act<Shard<R, A>> for FinishOp<'a> {
    ghost use Rattle.std.specs.Prelude.{Some, MatchOption};
    ghost use Rattle.draid_store.specs.Writing.{FinishesShard, MayFinishIn};

    ghost needs = { λ o s. MayFinishIn R.Rack s o.ticket o.block.now };

    ghost relates = { λ o s o' s'. MatchOption o'.out ⊥ (λ result. FinishesShard R.Rack s o.ticket o.block.now result s') };

    ghost concerns = { λ o. Some o.ticket.pointer.object };

    fn concerned(&self) -> Option<u64> {
        Some(self.ticket.pointer.object)
    }

    fn act(&mut self, shard: &mut Shard<R, A>) {
        let ticket = Ticket {
            pointer: self.ticket.pointer,
            next: self.ticket.next,
            missed: self.ticket.missed,
        };
        self.out = Some(draid_blocks::finish(shard, ticket));
    }
}

/// Ends a write whose columns are all put, in a hold.
pub fn end_write<R: Rack, A: Area, M: Metaslabs<R, A>>(
    metaslabs: &mut M,
    metaslab: u32,
    columns: u32,
    ticket: Ticket,
    block: &Encoded,
) -> Result<Pointer, Missed>
    requires fits { M.fits metaslabs.old }
    requires own { M.owns metaslabs.old ticket.pointer.object ≡ true }
    requires carries { CarriesAt R.Rack (M.last metaslabs.old) metaslab columns ticket block.now }
    requires all { ticket.next ≡ columns }
    ensures fits { M.fits metaslabs.new }
    ensures locks { M.locks metaslabs.new ≡ M.locks metaslabs.old }
    ensures owns { M.owns metaslabs.new ≡ M.owns metaslabs.old }
    ensures pointer { IfOk result (λ p. p ≡ ticket.pointer) }
    ensures stay { AllStay (M.owns metaslabs.old) (M.last metaslabs.old) (M.last metaslabs.new) }
    ensures whole { (table : ℕ → Option Pointer) (seq floor : ℕ) → ticket.pointer.seq ≡ seq + 1 → ticket.pointer.metaslab ≡ metaslab
        → IsWholeBut R.Rack (M.owns metaslabs.old) (but metaslab (key_of ticket.pointer) (all_of (M.owns metaslabs.old))) (M.last metaslabs.old) table seq floor
        → EndsWhole R.Rack (M.owns metaslabs.old) (M.last metaslabs.new) table seq floor ticket.pointer.object result }
    ensures says { EndSays R.Rack A.Area M.went M.shared (M.owns metaslabs.old) (M.owns metaslabs.new) (M.last metaslabs.old) (M.last metaslabs.new) metaslabs.old metaslabs.new metaslab ticket block.now result }
{
    let op = metaslabs.hold(
        metaslab,
        FinishOp {
            ticket,
            block,
            out: None,
        },
    );
    let Some(result) = op.out else { unreachable!() };
    result
}
