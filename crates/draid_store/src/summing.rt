//! Sums of many objects: their blocks are fetched and solved in batches.
ghost use Rattle.std.specs.Prelude.{◌≡◌, ◌≤◌, ◌<◌, ◌+◌, ⊤, ℕ, All, IfOk, MatchOption, None, Option, length, nat_eq};
ghost use Rattle.std.specs.HashMap.{get};
ghost use Rattle.draid_block.specs.Blocks.{cut_of};
ghost use Rattle.draid_block.specs.Solving.{IsFetched};
ghost use Rattle.draid_session.specs.State.{State};
ghost use Rattle.draid_spec.specs.Geometry.{IsGeometry};
ghost use Rattle.draid_spec.specs.declared.layout.Geometry.{Geometry};
ghost use Rattle.draid_store.specs.Answers.{SumDoes};
ghost use Rattle.draid_store.specs.Batches.{AddTries, FeedIs, FetchesBatch, SumTries};
ghost use Rattle.draid_store.specs.Fetching.{OwnsFrom};
ghost use Rattle.draid_pool.specs.Carries.{CarriesOut};
ghost use Rattle.draid_store.specs.PointerSums.{AddFinds, BlocksOf, StopsFor, SumFinds};
ghost use Rattle.draid_pool.specs.Pointers.{SamePointers, pointer_in};
ghost use Rattle.draid_pool.specs.Pools.{Represents};
ghost use Rattle.draid_pool.specs.Threads.{AllStay, CarriesBy, HaveLayout, IsWholeBy, Knows};
ghost use Rattle.draid_pool.specs.Whole.{IsWhole};

use crate::fault::SumFault;
use crate::fetching::fetch_object;
use draid_area::Area;
use draid_block::{Fetched, Solve, solve_many};
use draid_names::{OBJECTS, ObjectFault};
use draid_pool::{Metaslabs, Own, Pool};
use draid_rack::Rack;
use draid_spec::Geometry;
use sha2::{Digest, Sha256};
use std::alloc::Global;
use std::thread::Threads;

/// A batch takes a further block only while those in it have fewer bytes.
const BATCH_BYTES: u64 = 1 << 20;

/// Blocks of objects that follow one another.
#[derive(Drop)]
pub(crate) struct Batch {
    blocks: Vec<Fetched>,
    /// Why the object behind them gave no block, where the batch ends there.
    fault: Option<ObjectFault>,
}

/// Fetches the blocks of a thread's own objects from `first` on, at most `count`, until they have bytes enough or an
/// object gives none.
fn fetch_batch<R: Rack, A: Area, M: Metaslabs<R, A>>(
    alloc: Global,
    metaslabs: &mut M,
    own: &Own,
    first: u64,
    count: u64,
) -> Batch
    requires fits { M.fits metaslabs.old }
    requires own { OwnsFrom (M.owns metaslabs.old) first count }
    requires some { 1 ≤ count }
    requires range { first + count ≤ OBJECTS }
    requires whole { IsWholeBy R.Rack (M.owns metaslabs.old) (M.last metaslabs.old) (λ o. get nat_eq own.now.objects o) own.now.seq own.now.floor }
    ensures fits { M.fits metaslabs.new }
    ensures locks { M.locks metaslabs.new ≡ M.locks metaslabs.old }
    ensures owns { M.owns metaslabs.new ≡ M.owns metaslabs.old }
    ensures stay { AllStay (M.owns metaslabs.old) (M.last metaslabs.old) (M.last metaslabs.new) }
    ensures whole { IsWholeBy R.Rack (M.owns metaslabs.old) (M.last metaslabs.new) (λ o. get nat_eq own.now.objects o) own.now.seq own.now.floor }
    ensures fetched { (geometry : Geometry) → HaveLayout geometry (M.last metaslabs.old) → All (IsFetched (cut_of geometry)) result.blocks.items }
    ensures some { result.fault ≡ None → 1 ≤ length result.blocks.items }
    ensures few { length result.blocks.items ≤ count }
    ensures found { BlocksOf (λ o. get nat_eq own.now.objects o) first result.blocks.items }
    ensures stops { MatchOption result.fault ⊤ (λ why. (length result.blocks.items < count)
        × StopsFor (get nat_eq own.now.objects (first + length result.blocks.items)) why) }
    ensures step { (x : State) → Knows R.Rack A.Area (M.owns metaslabs.old) (M.last metaslabs.old) (λ o. get nat_eq own.now.objects o) own.now.seq own.now.floor x
        → CarriesBy R.Rack A.Area M.went M.shared (M.owns metaslabs.old) (M.last metaslabs.new) (λ o. get nat_eq own.now.objects o) own.now.seq own.now.floor metaslabs.old metaslabs.new x (FetchesBatch x first count result) }
{
    let mut blocks = Vec::new(alloc);
    let mut bytes = 0;
    for object in first..first + count {
        let fetched = match fetch_object(metaslabs, own, object) {
            Ok(fetched) => fetched,
            Err(why) => {
                return Batch {
                    blocks,
                    fault: Some(why),
                };
            }
        };
        bytes += u64::from(fetched.pointer.len);
        let Ok(()) = blocks.push(fetched) else {
            return Batch {
                blocks,
                fault: Some(ObjectFault::NoMemory),
            };
        };
        if bytes >= BATCH_BYTES {
            break;
        }
    }
    Batch {
        blocks,
        fault: None,
    }
}

/// Feeds the bytes of the objects from `first` on to a hasher, up to the first that can't be read.
fn feed(hasher: &mut Sha256, first: u64, solves: &[Solve]) -> Result<(), SumFault>
    requires range { first + length solves.now ≤ OBJECTS }
    ensures { FeedIs first solves.now hasher.old hasher.new result }
{
    let mut object = first;
    for solve in solves {
        match solve {
            Solve::Bytes(bytes) => hasher.update(bytes),
            Solve::Unreadable { absent, tried } => {
                let why = ObjectFault::Unreadable {
                    absent: *absent,
                    tried: *tried,
                };
                return Err(SumFault { object, why });
            }
        }
        object += 1;
    }
    Ok(())
}

/// Adds the bytes of a thread's own objects from `first` on, at least one and at most `count`, to what a hasher holds,
/// and gives their number.
fn add_batch<R: Rack, A: Area, M: Metaslabs<R, A>>(
    rt: &(impl Threads + Sync),
    alloc: Global,
    metaslabs: &mut M,
    own: &Own,
    geometry: &Geometry,
    hasher: &mut Sha256,
    first: u64,
    count: u64,
) -> Result<u64, SumFault>
    requires fits { M.fits metaslabs.old }
    requires own { OwnsFrom (M.owns metaslabs.old) first count }
    requires geometry { IsGeometry geometry.now }
    requires layout { HaveLayout geometry.now (M.last metaslabs.old) }
    requires some { 1 ≤ count }
    requires range { first + count ≤ OBJECTS }
    requires whole { IsWholeBy R.Rack (M.owns metaslabs.old) (M.last metaslabs.old) (λ o. get nat_eq own.now.objects o) own.now.seq own.now.floor }
    ensures fits { M.fits metaslabs.new }
    ensures locks { M.locks metaslabs.new ≡ M.locks metaslabs.old }
    ensures owns { M.owns metaslabs.new ≡ M.owns metaslabs.old }
    ensures stay { AllStay (M.owns metaslabs.old) (M.last metaslabs.old) (M.last metaslabs.new) }
    ensures whole { IsWholeBy R.Rack (M.owns metaslabs.old) (M.last metaslabs.new) (λ o. get nat_eq own.now.objects o) own.now.seq own.now.floor }
    ensures added { IfOk result (λ added. (1 ≤ added) × (added ≤ count)) }
    ensures adds { AddFinds (λ o. get nat_eq own.now.objects o) first count hasher.old hasher.new result }
    ensures step { (x : State) → x.geometry ≡ geometry.now → Knows R.Rack A.Area (M.owns metaslabs.old) (M.last metaslabs.old) (λ o. get nat_eq own.now.objects o) own.now.seq own.now.floor x
        → CarriesBy R.Rack A.Area M.went M.shared (M.owns metaslabs.old) (M.last metaslabs.new) (λ o. get nat_eq own.now.objects o) own.now.seq own.now.floor metaslabs.old metaslabs.new x (AddTries x first count hasher.old hasher.new result) }
{
    let batch = fetch_batch(alloc, metaslabs, own, first, count);
    let Ok(solves) = solve_many(rt, alloc, geometry, &batch.blocks) else {
        return Err(SumFault {
            object: first,
            why: ObjectFault::NoMemory,
        });
    };
    feed(hasher, first, &solves)?;
    let added = batch.blocks.len() as u64;
    match batch.fault {
        None => Ok(added),
        Some(why) => Err(SumFault {
            object: first + added,
            why,
        }),
    }
}

/// Gives the SHA-256 digest (FIPS 180-4) of the bytes of `count` objects of a thread's own from `first` on, one after
/// another, where all metaslabs have this layout.
pub fn sum_objects<R: Rack, A: Area, M: Metaslabs<R, A>>(
    rt: &(impl Threads + Sync),
    alloc: Global,
    metaslabs: &mut M,
    own: &Own,
    geometry: &Geometry,
    first: u64,
    count: u64,
) -> Result<[u8; 32], SumFault>
    requires fits { M.fits metaslabs.old }
    requires own { OwnsFrom (M.owns metaslabs.old) first count }
    requires geometry { IsGeometry geometry.now }
    requires layout { HaveLayout geometry.now (M.last metaslabs.old) }
    requires range { first + count ≤ OBJECTS }
    requires whole { IsWholeBy R.Rack (M.owns metaslabs.old) (M.last metaslabs.old) (λ o. get nat_eq own.now.objects o) own.now.seq own.now.floor }
    ensures fits { M.fits metaslabs.new }
    ensures locks { M.locks metaslabs.new ≡ M.locks metaslabs.old }
    ensures owns { M.owns metaslabs.new ≡ M.owns metaslabs.old }
    ensures stay { AllStay (M.owns metaslabs.old) (M.last metaslabs.old) (M.last metaslabs.new) }
    ensures whole { IsWholeBy R.Rack (M.owns metaslabs.old) (M.last metaslabs.new) (λ o. get nat_eq own.now.objects o) own.now.seq own.now.floor }
    ensures sums { SumFinds (λ o. get nat_eq own.now.objects o) first count result }
    ensures step { (x : State) → x.geometry ≡ geometry.now → Knows R.Rack A.Area (M.owns metaslabs.old) (M.last metaslabs.old) (λ o. get nat_eq own.now.objects o) own.now.seq own.now.floor x
        → CarriesBy R.Rack A.Area M.went M.shared (M.owns metaslabs.old) (M.last metaslabs.new) (λ o. get nat_eq own.now.objects o) own.now.seq own.now.floor metaslabs.old metaslabs.new x (SumTries x first count result) }
{
    let mut hasher = Sha256::new();
    let mut summed = 0;
    while summed < count {
        summed += add_batch(
            rt,
            alloc,
            metaslabs,
            own,
            geometry,
            &mut hasher,
            first + summed,
            count - summed,
        )?;
    }
    Ok(hasher.finalize())
}

/// Gives the SHA-256 digest (FIPS 180-4) of the bytes of `count` objects from `first` on, one after another.
pub fn sum<R: Rack, A: Area>(
    rt: &(impl Threads + Sync),
    pool: &mut Pool<R, A>,
    first: u64,
    count: u64,
) -> Result<[u8; 32], SumFault>
    requires range { first + count ≤ OBJECTS }
    requires whole { IsWhole R.Rack A.Area pool.old }
    ensures whole { IsWhole R.Rack A.Area pool.new }
    ensures same { SamePointers pool.old pool.new }
    ensures sums { SumFinds (pointer_in pool.old) first count result }
    ensures step { (x : State) → Represents R.Rack A.Area pool.old x
        → CarriesOut R.Rack A.Area pool.new x (SumDoes x first count result) }
{
    sum_objects(
        rt,
        pool.alloc,
        &mut pool.metaslabs,
        &pool.own,
        &pool.geometry,
        first,
        count,
    )
}
