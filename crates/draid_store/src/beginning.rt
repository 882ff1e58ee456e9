ghost use Rattle.std.specs.Prelude.{◌≡◌, ℕ, Option, None, true};
ghost use Rattle.draid_names.specs.declared.pointer.Pointer.{Pointer};
ghost use Rattle.draid_pool.specs.Drifts.{groups_number};
ghost use Rattle.draid_pool.specs.Threads.{AllStay, IsWholeBy};
ghost use Rattle.draid_store.specs.Putting.{BeginRefusedBy, BeginSays, BeginsWhole, MayStart};

use draid_area::Area;
use draid_block::Encoded;
use draid_blocks::{BeginFault, Ticket};
use draid_pool::{Metaslabs, Own};
use draid_rack::Rack;
use draid_shard::Shard;
use draid_turn::Act;

/// The begin of a write, where the metaslab has come to the group before its floor.
#[derive(Drop)]
pub struct BeginOp<'a> {
    pub object: u64,
    pub seq: u64,
    pub floor: u64,
    pub block: &'a Encoded,
    /// The ticket or why there is none, or nothing where it is to be tried again.
    pub out: Option<Result<Ticket, BeginFault>>,
}

impl<'a, R: Rack, A: Area> Act<Shard<R, A>> for BeginOp<'a> {
    ghost use Rattle.std.specs.Prelude.{◌≡◌, Some};
    ghost use Rattle.draid_store.specs.Writing.{BeginsShard, MayBeginIn};

    ghost needs = { λ o s. MayBeginIn R.Rack s o.object o.seq o.floor o.block.now };

    ghost relates = { λ o s o' s'. BeginsShard R.Rack s o.object o.seq o.floor o.block.now o'.out s' };

    ghost concerns = { λ o. Some o.object };

    fn concerned(&self) -> Option<u64> {
        Some(self.object)
    }

    fn act(&mut self, shard: &mut Shard<R, A>) {
        self.out = None;
        if self.floor > shard.open_group + 1 {
            return;
        }
        self.out = Some(draid_blocks::begin(shard, self.object, self.seq, self.block, self.floor));
    }
}

/// Begins a write of an object in a hold. Nothing where the metaslab hasn't come to the group before the floor.
pub fn begin_write<R: Rack, A: Area, M: Metaslabs<R, A>>(
    metaslabs: &mut M,
    own: &Own,
    metaslab: u32,
    columns: u32,
    object: u64,
    block: &Encoded,
) -> Option<Result<Ticket, BeginFault>>
    requires fits { M.fits metaslabs.old }
    requires own { M.owns metaslabs.old object ≡ true }
    requires may { MayStart R.Rack (M.owns metaslabs.old) (M.last metaslabs.old) metaslab columns object own.now.seq own.now.floor block.now }
    ensures fits { M.fits metaslabs.new }
    ensures locks { M.locks metaslabs.new ≡ M.locks metaslabs.old }
    ensures owns { M.owns metaslabs.new ≡ M.owns metaslabs.old }
    ensures stay { AllStay (M.owns metaslabs.old) (M.last metaslabs.old) (M.last metaslabs.new) }
    ensures whole { (table : ℕ → Option Pointer) → IsWholeBy R.Rack (M.owns metaslabs.old) (M.last metaslabs.old) table own.now.seq own.now.floor
        → BeginsWhole R.Rack (M.owns metaslabs.old) (M.last metaslabs.new) table own.now.seq own.now.floor metaslab result }
    ensures says { BeginSays R.Rack A.Area M.went M.shared (M.owns metaslabs.old) (M.owns metaslabs.new) (M.last metaslabs.old) (M.last metaslabs.new) metaslabs.old metaslabs.new metaslab columns object own.now.seq own.now.floor block.now result }
    ensures refused { BeginRefusedBy R.Rack A.Area M.shared (M.owns metaslabs.old) (M.last metaslabs.old) metaslab block.now result }
    // Who alone closes groups never has to try again.
    ensures served { M.owns metaslabs.old groups_number ≡ true → result ≡ None → ⊥ }
{
    let op = metaslabs.hold(
        metaslab,
        BeginOp {
            object,
            seq: own.seq + 1,
            floor: own.floor,
            block,
            out: None,
        },
    );
    op.out
}
