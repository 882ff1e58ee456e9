ghost use Rattle.std.specs.Prelude.{◌≡◌, ℕ, IfOk, Option, nat_eq, true};
ghost use Rattle.std.specs.HashMap.{get};
ghost use Rattle.draid_block.specs.Blocks.{cut_of};
ghost use Rattle.draid_block.specs.Solving.{IsFetched};
ghost use Rattle.draid_session.specs.State.{State};
ghost use Rattle.draid_spec.specs.declared.layout.Geometry.{Geometry};
ghost use Rattle.draid_pool.specs.Threads.{AllStay, CarriesBy, HaveLayout, IsWholeBy, Knows};
ghost use Rattle.draid_store.specs.Answers.{FetchDoes};
ghost use Rattle.draid_store.specs.Fetching.{FetchesShard, MayFetchIn};
ghost use Rattle.draid_store.specs.Pointers.{FetchFinds};

use draid_area::Area;
use draid_block::Fetched;
use draid_blocks::FetchFault;
use draid_names::{ObjectFault, Pointer};
use draid_pool::{Metaslabs, Own};
use draid_rack::Rack;
use draid_shard::Shard;
use draid_turn::Act;

/// Reads the columns of a live block of a shard.
fn fetch_in<R: Rack, A: Area>(
    shard: &mut Shard<R, A>,
    pointer: &Pointer,
) -> Result<Fetched, ObjectFault>
    requires { MayFetchIn R.Rack shard.old pointer.now }
    ensures { FetchesShard R.Rack shard.old pointer.now result shard.new }
{
    match draid_blocks::fetch(shard, pointer) {
        Ok(fetched) => Ok(fetched),
        Err(FetchFault::NotLive) => unreachable!(),
        Err(FetchFault::Worn { .. }) => Err(ObjectFault::Worn),
        Err(FetchFault::NoMemory) => Err(ObjectFault::NoMemory),
    }
}

/// The fetching of a block's columns.
#[derive(Drop)]
pub struct FetchOp {
    pub pointer: Pointer,
    /// The columns, or why there are none.
    pub out: Option<Result<Fetched, ObjectFault>>,
}

impl<R: Rack, A: Area> Act<Shard<R, A>> for FetchOp {
    ghost use Rattle.std.specs.Prelude.{None, MatchOption};
    ghost use Rattle.draid_store.specs.Fetching.{FetchesShard, MayFetchIn};

    ghost needs = { λ o s. MayFetchIn R.Rack s o.pointer };

    ghost relates = { λ o s o' s'. MatchOption o'.out ⊥ (λ result. FetchesShard R.Rack s o.pointer result s') };

    ghost concerns = { λ _. None };

    fn concerned(&self) -> Option<u64> {
        None
    }

    fn act(&mut self, shard: &mut Shard<R, A>) {
        self.out = Some(fetch_in(shard, &self.pointer));
    }
}

/// Reads the columns of the block of a thread's own object, in a hold.
pub fn fetch_object<R: Rack, A: Area, M: Metaslabs<R, A>>(
    metaslabs: &mut M,
    own: &Own,
    object: u64,
) -> Result<Fetched, ObjectFault>
    requires fits { M.fits metaslabs.old }
    requires own { M.owns metaslabs.old object ≡ true }
    requires whole { IsWholeBy R.Rack (M.owns metaslabs.old) (M.last metaslabs.old) (λ o. get nat_eq own.now.objects o) own.now.seq own.now.floor }
    ensures fits { M.fits metaslabs.new }
    ensures locks { M.locks metaslabs.new ≡ M.locks metaslabs.old }
    ensures owns { M.owns metaslabs.new ≡ M.owns metaslabs.old }
    ensures stay { AllStay (M.owns metaslabs.old) (M.last metaslabs.old) (M.last metaslabs.new) }
    ensures whole { IsWholeBy R.Rack (M.owns metaslabs.old) (M.last metaslabs.new) (λ o. get nat_eq own.now.objects o) own.now.seq own.now.floor }
    ensures found { FetchFinds (get nat_eq own.now.objects object) result }
    ensures fetched { (geometry : Geometry) → HaveLayout geometry (M.last metaslabs.old) → IfOk result (IsFetched (cut_of geometry)) }
    ensures step { (x : State) → Knows R.Rack A.Area (M.owns metaslabs.old) (M.last metaslabs.old) (λ o. get nat_eq own.now.objects o) own.now.seq own.now.floor x
        → CarriesBy R.Rack A.Area M.went M.shared (M.owns metaslabs.old) (M.last metaslabs.new) (λ o. get nat_eq own.now.objects o) own.now.seq own.now.floor metaslabs.old metaslabs.new x (FetchDoes x object result) }
{
    let Some(found) = own.objects.get(&object) else {
        return Err(ObjectFault::NoObject);
    };
    let pointer = *found;
    let op = metaslabs.hold(pointer.metaslab, FetchOp { pointer, out: None });
    let Some(result) = op.out else { unreachable!() };
    result
}
