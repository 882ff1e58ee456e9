ghost use Rattle.std.specs.Prelude.{◌≡◌, true};
ghost use Rattle.draid_entries.specs.Maps.{key_of};
ghost use Rattle.draid_pool.specs.Threads.{AllStay, KeepsWhole, all_of, but};
ghost use Rattle.draid_store.specs.Putting.{CarriesAt, PutsBy};

use draid_area::Area;
use draid_block::Encoded;
use draid_blocks::Ticket;
use draid_pool::Metaslabs;
use draid_rack::Rack;
use draid_shard::Shard;
use draid_turn::Act;

/// The next column of a write that is under way.
#[derive(Drop)]
pub struct PutOp<'a> {
    pub ticket: Ticket,
    pub block: &'a Encoded,
}

impl<'a, R: Rack, A: Area> Act<Shard<R, A>> for PutOp<'a> {
    ghost use Rattle.std.specs.Prelude.{◌≡◌, Some};
    ghost use Rattle.draid_store.specs.Writing.{MayPutIn, PutsShard};

    ghost needs = { λ o s. MayPutIn R.Rack s o.ticket o.block.now };

    ghost relates = { λ o s o' s'. PutsShard R.Rack s o.ticket o.block.now o'.ticket s' × (o'.block.now ≡ o.block.now) };

    ghost concerns = { λ o. Some o.ticket.pointer.object };

    fn concerned(&self) -> Option<u64> {
        Some(self.ticket.pointer.object)
    }

    fn act(&mut self, shard: &mut Shard<R, A>) {
        draid_blocks::put(shard, &mut self.ticket, self.block);
    }
}

/// Puts all columns of a write that has begun, each in a hold of its own.
pub fn put_all<R: Rack, A: Area, M: Metaslabs<R, A>>(
    metaslabs: &mut M,
    metaslab: u32,
    columns: u32,
    ticket: Ticket,
    block: &Encoded,
) -> Ticket
    requires fits { M.fits metaslabs.old }
    requires own { M.owns metaslabs.old ticket.pointer.object ≡ true }
    requires carries { CarriesAt R.Rack (M.last metaslabs.old) metaslab columns ticket block.now }
    requires fresh { ticket.next ≡ 0 }
    ensures fits { M.fits metaslabs.new }
    ensures locks { M.locks metaslabs.new ≡ M.locks metaslabs.old }
    ensures owns { M.owns metaslabs.new ≡ M.owns metaslabs.old }
    ensures carries { CarriesAt R.Rack (M.last metaslabs.new) metaslab columns result block.now }
    ensures all { result.next ≡ columns }
    ensures pointer { result.pointer ≡ ticket.pointer }
    ensures stay { AllStay (M.owns metaslabs.old) (M.last metaslabs.old) (M.last metaslabs.new) }
    ensures whole { KeepsWhole R.Rack (M.owns metaslabs.old) (but metaslab (key_of ticket.pointer) (all_of (M.owns metaslabs.old))) (M.last metaslabs.old) (M.last metaslabs.new) }
    ensures step { PutsBy R.Rack A.Area M.went M.shared (M.owns metaslabs.old) (M.owns metaslabs.new) (M.last metaslabs.old) (M.last metaslabs.new) metaslabs.old metaslabs.new metaslab ticket result block.now columns }
{
    let mut op = PutOp { ticket, block };
    'columns: for _column in 0..columns {
        op = metaslabs.hold(metaslab, op);
    }
    let PutOp { ticket, block: _ } = op;
    ticket
}
