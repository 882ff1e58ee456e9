ghost use Rattle.std.specs.Prelude.{◌≡◌, ℕ, Option, nat_eq, true};
ghost use Rattle.std.specs.HashMap.{get};
ghost use Rattle.draid_session.specs.State.{State};
ghost use Rattle.draid_spec.specs.Geometry.{IsGeometry};
ghost use Rattle.draid_store.specs.Answers.{ReadDoes};
ghost use Rattle.draid_pool.specs.Carries.{CarriesOut};
ghost use Rattle.draid_store.specs.Pointers.{ReadFinds};
ghost use Rattle.draid_pool.specs.Pointers.{SamePointers, pointer_in};
ghost use Rattle.draid_pool.specs.Pools.{Represents};
ghost use Rattle.draid_pool.specs.Threads.{AllStay, CarriesBy, HaveLayout, IsWholeBy, Knows};
ghost use Rattle.draid_pool.specs.Whole.{IsWhole};

use crate::fetching::fetch_object;
use draid_area::Area;
use draid_block::{SolveFault, solve_block};
use draid_names::ObjectFault;
use draid_pool::{Metaslabs, Own, Pool};
use draid_rack::Rack;
use draid_spec::Geometry;
use std::alloc::Global;

/// Reads the bytes last written to a thread's own object, where all metaslabs have this layout.
pub fn read_object<R: Rack, A: Area, M: Metaslabs<R, A>>(
    alloc: Global,
    metaslabs: &mut M,
    own: &Own,
    geometry: &Geometry,
    object: u64,
) -> Result<Vec<u8>, ObjectFault>
    requires fits { M.fits metaslabs.old }
    requires own { M.owns metaslabs.old object ≡ true }
    requires geometry { IsGeometry geometry.now }
    requires layout { HaveLayout geometry.now (M.last metaslabs.old) }
    requires whole { IsWholeBy R.Rack (M.owns metaslabs.old) (M.last metaslabs.old) (λ o. get nat_eq own.now.objects o) own.now.seq own.now.floor }
    ensures fits { M.fits metaslabs.new }
    ensures locks { M.locks metaslabs.new ≡ M.locks metaslabs.old }
    ensures owns { M.owns metaslabs.new ≡ M.owns metaslabs.old }
    ensures stay { AllStay (M.owns metaslabs.old) (M.last metaslabs.old) (M.last metaslabs.new) }
    ensures whole { IsWholeBy R.Rack (M.owns metaslabs.old) (M.last metaslabs.new) (λ o. get nat_eq own.now.objects o) own.now.seq own.now.floor }
    ensures read { ReadFinds (get nat_eq own.now.objects object) result }
    ensures step { (x : State) → x.geometry ≡ geometry.now → Knows R.Rack A.Area (M.owns metaslabs.old) (M.last metaslabs.old) (λ o. get nat_eq own.now.objects o) own.now.seq own.now.floor x
        → CarriesBy R.Rack A.Area M.went M.shared (M.owns metaslabs.old) (M.last metaslabs.new) (λ o. get nat_eq own.now.objects o) own.now.seq own.now.floor metaslabs.old metaslabs.new x (ReadDoes x object result) }
{
    let fetched = fetch_object(metaslabs, own, object)?;
    match solve_block(alloc, geometry, &fetched) {
        Ok(bytes) => Ok(bytes),
        Err(SolveFault::Unreadable { absent, tried }) => {
            Err(ObjectFault::Unreadable { absent, tried })
        }
        Err(SolveFault::NoMemory) => Err(ObjectFault::NoMemory),
    }
}

/// Reads the bytes last written to an object.
pub fn read<R: Rack, A: Area>(pool: &mut Pool<R, A>, object: u64) -> Result<Vec<u8>, ObjectFault>
    requires whole { IsWhole R.Rack A.Area pool.old }
    ensures whole { IsWhole R.Rack A.Area pool.new }
    ensures same { SamePointers pool.old pool.new }
    ensures read { ReadFinds (pointer_in pool.old object) result }
    ensures step { (x : State) → Represents R.Rack A.Area pool.old x
        → CarriesOut R.Rack A.Area pool.new x (ReadDoes x object result) }
{
    read_object(
        pool.alloc,
        &mut pool.metaslabs,
        &pool.own,
        &pool.geometry,
        object,
    )
}
