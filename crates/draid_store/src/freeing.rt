ghost use Rattle.std.specs.Prelude.{◌≡◌, ◌≤◌, ◌+◌, ⊤, ℕ, Ok, Option, None, Some, false, max, nat_eq, true};
ghost use Rattle.std.specs.HashMap.{get};
ghost use Rattle.draid_names.specs.declared.numbers.TheConstants.{LAST_NUMBER};
ghost use Rattle.draid_machine.specs.declared.names.Stage.TheVariants.{Freed};
ghost use Rattle.draid_segments.specs.Segments.{Pieces};
ghost use Rattle.draid_entries.specs.Maps.{staged};
ghost use Rattle.draid_shard.specs.Calls.{SameAreas, SameReserve};
ghost use Rattle.draid_shard.specs.Looks.{IsLive};
ghost use Rattle.draid_shard.specs.Changes.{SetsBlock};
ghost use Rattle.draid_shard.specs.Fits.{Valid};
ghost use Rattle.draid_shard.specs.Part.{Part};
ghost use Rattle.draid_shard.specs.States.{part_of};
ghost use Rattle.draid_session.specs.State.{Metaslab, State};
ghost use Rattle.draid_pool.specs.Metaslabs.{IsMetaslab};
ghost use Rattle.draid_pool.specs.Shards.{FreesIn, Goes};
ghost use Rattle.draid_store.specs.Answers.{FreeDoes};
ghost use Rattle.draid_names.specs.declared.pointer.Pointer.{Pointer};
ghost use Rattle.draid_objects.specs.Changes.{Write};
ghost use Rattle.draid_store.specs.Freeing.{DropsEarlier, EarlierSays, EarlierWhole, HasLoose, IsApart, IsWholeBeside, KeptIs, RepresentsBut};
ghost use Rattle.draid_session.specs.Points.{KeepsBirth};
ghost use Rattle.draid_checkpoint.specs.Check.{holds_birth};
ghost use Rattle.draid_uber.specs.Uber.{point_of};
ghost use Rattle.draid_store.specs.Open.{KnowsEarlier};
ghost use Rattle.draid_store.specs.Frees.{FreesShard, MayFreeIn, TriesFree};
ghost use Rattle.draid_pool.specs.Carries.{CarriesOut};
ghost use Rattle.draid_pool.specs.Drifts.{groups_number};
ghost use Rattle.draid_store.specs.Pointers.{FreeTakes, TriesTake};
ghost use Rattle.draid_pool.specs.Pools.{Represents};
ghost use Rattle.draid_pool.specs.Threads.{AllStay, CarriesBy, HasPointer, IsWholeBy, Knows};
ghost use Rattle.draid_pool.specs.Whole.{IsWhole};

use crate::fault::FreeFault;
use draid_area::Area;
use draid_names::Pointer;
use draid_pool::{Metaslabs, Own, Pool};
use draid_rack::Rack;
use draid_shard::Shard;
use draid_turn::Act;

/// Frees a live block of a shard, and gives the group: the open one, or `floor` where that is the next one.
pub(crate) fn free_block<R: Rack, A: Area>(
    shard: &mut Shard<R, A>,
    pointer: &Pointer,
    floor: u64,
) -> u64
    requires valid { Valid R.Rack shard.old }
    requires live { IsLive shard.old pointer.now }
    requires floor { floor ≤ shard.old.open_group + 1 }
    requires last { floor ≤ LAST_NUMBER }
    ensures valid { Valid R.Rack shard.new }
    ensures part { part_of shard.new ≡ part_of shard.old }
    ensures group { result ≡ max shard.old.open_group floor }
    ensures sets { SetsBlock shard.old shard.new pointer.now (Some (staged (Freed result) pointer.now)) }
    ensures reserve { SameReserve shard.old shard.new }
    ensures pass { shard.new.pass ≡ shard.old.pass }
    ensures areas { SameAreas shard.old shard.new }
    ensures frees { (part : Part) (pieces : Pieces) (x : Metaslab) → IsMetaslab R.Rack A.Area part pieces shard.old x
        → Goes R.Rack A.Area part pieces x shard.new (FreesIn part.number pointer.now floor result x) }
{
    let Ok(group) = draid_blocks::free(shard, pointer, floor) else {
        unreachable!()
    };
    group
}

/// Frees a live block, where the metaslab has come to the group before `floor`.
fn free_in<R: Rack, A: Area>(shard: &mut Shard<R, A>, pointer: &Pointer, floor: u64) -> Option<u64>
    requires { MayFreeIn R.Rack shard.old pointer.now floor }
    ensures { FreesShard R.Rack A.Area shard.old pointer.now floor result shard.new }
{
    if floor > shard.open_group + 1 {
        return None;
    }
    Some(free_block(shard, pointer, floor))
}

/// The freeing of a block, where the metaslab has come to the group before its floor.
#[derive(Drop)]
pub struct FreeOp {
    pub pointer: Pointer,
    pub floor: u64,
    /// The group, or nothing where it is to be tried again.
    pub out: Option<u64>,
}

impl<R: Rack, A: Area> Act<Shard<R, A>> for FreeOp {
    ghost use Rattle.std.specs.Prelude.{Some};
    ghost use Rattle.draid_store.specs.Frees.{FreesShard, MayFreeIn};

    ghost needs = { λ o s. MayFreeIn R.Rack s o.pointer o.floor };

    ghost relates = { λ o s o' s'. FreesShard R.Rack A.Area s o.pointer o.floor o'.out s' };

    ghost concerns = { λ o. Some o.pointer.object };

    fn concerned(&self) -> Option<u64> {
        Some(self.pointer.object)
    }

    fn act(&mut self, shard: &mut Shard<R, A>) {
        self.out = free_in(shard, &self.pointer, self.floor);
    }
}

/// Frees an object of a thread's own. Nothing where its metaslab hasn't come to the group before the floor, so that it is
/// to be tried again.
pub fn free_object<R: Rack, A: Area, M: Metaslabs<R, A>>(
    metaslabs: &mut M,
    own: &mut Own,
    object: u64,
) -> Option<Result<(), FreeFault>>
    requires fits { M.fits metaslabs.old }
    requires own { M.owns metaslabs.old object ≡ true }
    requires whole { IsWholeBy R.Rack (M.owns metaslabs.old) (M.last metaslabs.old) (λ o. get nat_eq own.old.objects o) own.old.seq own.old.floor }
    ensures fits { M.fits metaslabs.new }
    ensures locks { M.locks metaslabs.new ≡ M.locks metaslabs.old }
    ensures owns { M.owns metaslabs.new ≡ M.owns metaslabs.old }
    ensures whole { IsWholeBy R.Rack (M.owns metaslabs.new) (M.last metaslabs.new) (λ o. get nat_eq own.new.objects o) own.new.seq own.new.floor }
    ensures stay { AllStay (M.owns metaslabs.old) (M.last metaslabs.old) (M.last metaslabs.new) }
    ensures number { own.new.seq ≡ own.old.seq }
    ensures takes { TriesTake object (λ o. get nat_eq own.old.objects o) (λ o. get nat_eq own.new.objects o) result }
    // Where the checkpoint keeps its block it is to be dropped in place of this.
    ensures step { (x : State) → HasLoose x.store object → Knows R.Rack A.Area (M.owns metaslabs.old) (M.last metaslabs.old) (λ o. get nat_eq own.old.objects o) own.old.seq own.old.floor x
        → CarriesBy R.Rack A.Area M.went M.shared (M.owns metaslabs.new) (M.last metaslabs.new) (λ o. get nat_eq own.new.objects o) own.new.seq own.new.floor metaslabs.old metaslabs.new x (TriesFree x object result) }
    // Who alone closes groups never has to try again.
    ensures served { M.owns metaslabs.old groups_number ≡ true → result ≡ None → ⊥ }
{
    let Some(found) = own.objects.get(&object) else {
        return Some(Err(FreeFault::NoObject));
    };
    let pointer = *found;
    let op = metaslabs.hold(
        pointer.metaslab,
        FreeOp {
            pointer,
            floor: own.floor,
            out: None,
        },
    );
    let group = op.out?;
    own.objects.remove(&object);
    own.floor = group;
    Some(Ok(()))
}

/// Frees the block that an object had before, in a hold. Nothing where it is to be tried again.
pub fn free_earlier<R: Rack, A: Area, M: Metaslabs<R, A>>(
    metaslabs: &mut M,
    pointer: Pointer,
    floor: u64,
) -> Option<u64>
    requires fits { M.fits metaslabs.old }
    requires has { HasPointer (M.last metaslabs.old) R.Rack (M.owns metaslabs.old) pointer.object pointer }
    requires low { floor ≤ LAST_NUMBER }
    ensures fits { M.fits metaslabs.new }
    ensures locks { M.locks metaslabs.new ≡ M.locks metaslabs.old }
    ensures owns { M.owns metaslabs.new ≡ M.owns metaslabs.old }
    ensures stay { AllStay (M.owns metaslabs.old) (M.last metaslabs.old) (M.last metaslabs.new) }
    ensures whole { (table : ℕ → Option Pointer) (seq : ℕ) → IsWholeBy R.Rack (M.owns metaslabs.old) (M.last metaslabs.old) table seq floor → IsApart table pointer
        → EarlierWhole R.Rack (M.owns metaslabs.old) (M.last metaslabs.new) table seq floor result }
    // Where it is to be tried again the block is live yet.
    ensures has { result ≡ None → HasPointer (M.last metaslabs.new) R.Rack (M.owns metaslabs.old) pointer.object pointer }
    // Where the checkpoint keeps it, it is to be dropped in place of this.
    ensures says { (table : ℕ → Option Pointer) (seq : ℕ) (x : State) (we : Write) → (KeepsBirth x.store.marks we.birth → ⊥) → KnowsEarlier R.Rack A.Area (M.owns metaslabs.old) (M.last metaslabs.old) table seq floor pointer we x
        → EarlierSays R.Rack A.Area M.went M.shared (M.owns metaslabs.old) (M.owns metaslabs.new) (M.last metaslabs.old) (M.last metaslabs.new) metaslabs.old metaslabs.new pointer table table seq floor x we result }
    // Who alone closes groups never has to try again.
    ensures served { (table : ℕ → Option Pointer) (seq : ℕ) → IsWholeBy R.Rack (M.owns metaslabs.old) (M.last metaslabs.old) table seq floor
        → M.owns metaslabs.old groups_number ≡ true → result ≡ None → ⊥ }
{
    let op = metaslabs.hold(
        pointer.metaslab,
        FreeOp {
            pointer,
            floor,
            out: None,
        },
    );
    op.out
}

/// The group that is open in a metaslab, or the floor where that is the next one: a block that the checkpoint keeps is
/// dropped in it.
#[derive(Drop)]
pub struct DropOp {
    pub floor: u64,
    pub out: u64,
}

impl<R: Rack, A: Area> Act<Shard<R, A>> for DropOp {
    ghost use Rattle.std.specs.Prelude.{None, max};
    ghost use Rattle.draid_shard.specs.Fits.{Valid};

    ghost needs = { λ _ s. Valid R.Rack s };

    ghost relates = { λ o s o' s'. (o'.out ≡ max s.open_group o.floor) × (s' ≡ s) };

    ghost concerns = { λ _. None };

    fn concerned(&self) -> Option<u64> {
        None
    }

    fn act(&mut self, shard: &mut Shard<R, A>) {
        self.out = shard.open_group.max(self.floor);
    }
}

/// Drops a block that an object had to the checkpoint, which keeps it, in the group in which it would be freed.
pub(crate) fn drop_earlier<R: Rack, A: Area>(pool: &mut Pool<R, A>, pointer: Pointer)
    requires whole { IsWholeBeside R.Rack A.Area pool.old pointer }
    requires kept { holds_birth (point_of pool.old.uber).group pointer.birth ≡ true }
    ensures whole { IsWhole R.Rack A.Area pool.new }
    ensures same { (object : ℕ) → get nat_eq pool.new.own.objects object ≡ get nat_eq pool.old.own.objects object }
    ensures step { (x : State) (we : Write) → RepresentsBut R.Rack A.Area pool.old pointer we x
        → CarriesOut R.Rack A.Area pool.new x (DropsEarlier x we x.store.floor) }
{
    let op = pool.metaslabs.hold(
        pointer.metaslab,
        DropOp {
            floor: pool.own.floor,
            out: 0,
        },
    );
    pool.uber.drop_block(pointer.object, pointer.seq, op.out);
    pool.own.floor = op.out;
}

/// Drops the block of an object to the checkpoint, which keeps it, in the group in which it would be freed. The object has
/// no bytes then.
fn drop_object<R: Rack, A: Area>(pool: &mut Pool<R, A>, object: u64, pointer: Pointer)
    requires whole { IsWhole R.Rack A.Area pool.old }
    requires has { get nat_eq pool.old.own.objects object ≡ Some pointer }
    requires kept { holds_birth (point_of pool.old.uber).group pointer.birth ≡ true }
    ensures whole { IsWhole R.Rack A.Area pool.new }
    ensures frees { FreeTakes object pool.old pool.new (Ok tt) }
    ensures step { (x : State) → Represents R.Rack A.Area pool.old x
        → CarriesOut R.Rack A.Area pool.new x (FreeDoes x object (Ok tt)) }
{
    let op = pool.metaslabs.hold(
        pointer.metaslab,
        DropOp {
            floor: pool.own.floor,
            out: 0,
        },
    );
    pool.uber.drop_block(pointer.object, pointer.seq, op.out);
    pool.own.floor = op.out;
    pool.own.objects.remove(&object);
}

/// The pointer of an object whose block the checkpoint keeps.
fn kept_pointer<R: Rack, A: Area>(pool: &Pool<R, A>, object: u64) -> Option<Pointer>
    ensures { KeptIs (point_of pool.now.uber).group (get nat_eq pool.now.own.objects object) result }
{
    match pool.own.objects.get(&object) {
        Some(found) if pool.uber.holds(found.birth) => Some(*found),
        _ => None,
    }
}

/// Frees an object, which has no bytes then. Their block keeps its stripes until its group is committed, and is still
/// counted in its metaslab. A block that the checkpoint keeps is dropped to it, and stays.
pub fn free<R: Rack, A: Area>(pool: &mut Pool<R, A>, object: u64) -> Result<(), FreeFault>
    requires whole { IsWhole R.Rack A.Area pool.old }
    ensures whole { IsWhole R.Rack A.Area pool.new }
    ensures frees { FreeTakes object pool.old pool.new result }
    ensures step { (x : State) → Represents R.Rack A.Area pool.old x
        → CarriesOut R.Rack A.Area pool.new x (FreeDoes x object result) }
{
    if let Some(pointer) = kept_pointer(pool, object) {
        drop_object(pool, object, pointer);
        return Ok(());
    }
    match free_object(&mut pool.metaslabs, &mut pool.own, object) {
        Some(result) => result,
        None => unreachable!(),
    }
}
