//! A block of a lane's object is written, as soon as a metaslab that has room takes it.
ghost use Rattle.std.specs.Prelude.{◌≡◌, ◌≤◌, ◌<◌, ℕ, None, Ok, Option, Some, length, nat_eq, true};
ghost use Rattle.std.specs.Fn.{FnReturnsAt};
ghost use Rattle.std.specs.HashMap.{get};
ghost use Rattle.draid_choose.specs.Rooms.{IsChooser};
ghost use Rattle.draid_names.specs.declared.numbers.TheConstants.{LAST_NUMBER, OBJECTS};
ghost use Rattle.draid_names.specs.declared.pointer.Pointer.{Pointer};
ghost use Rattle.draid_spec.specs.Geometry.{IsGeometry};
ghost use Rattle.draid_block.specs.Blocks.{cut_of};
ghost use Rattle.draid_objects.specs.Changes.{Write};
ghost use Rattle.draid_objects.specs.Marks.{check_by};
ghost use Rattle.draid_session.specs.Points.{KeepsBirth};
ghost use Rattle.draid_session.specs.State.{State};
ghost use Rattle.draid_pool.specs.Looking.{HasMany};
ghost use Rattle.draid_pool.specs.Threads.{AllStay, CarriesBy, HasPointer, HaveLayout, IsWholeBy, Knows};
ghost use Rattle.draid_store.specs.Answers.{WriteDoes};
ghost use Rattle.draid_store.specs.Freeing.{IsApart};
ghost use Rattle.draid_store.specs.Open.{KnowsEarlier};
ghost use Rattle.draid_store.specs.Storing.{ComesBack, StoreSetsTable};
ghost use Rattle.draid_works.specs.Waiting.{FreesRest, LooksBut, StoresThrough, WriteSetsTable};

use draid_area::Area;
use draid_block::Encoded;
use draid_choose::Chooser;
use draid_names::{LONGEST_BLOCK, OBJECTS, Pointer, Room, WriteFault};
use draid_pool::{Metaslabs, Own};
use draid_rack::Rack;
use draid_spec::Geometry;
use draid_store::{free_earlier, write_encoded};
use std::alloc::Global;
use std::sync::Wait;
use std::thread;

/// Writes an object of a thread's own, where no checkpoint stands, and tries again until it is served. No metaslab is held
/// while it waits.
pub fn write_through<R: Rack, A: Area, M: Metaslabs<R, A>, F: Fn(&[Room]) -> Option<u32>, W: Wait>(
    rt: &W,
    alloc: Global,
    metaslabs: &mut M,
    own: &mut Own,
    geometry: &Geometry,
    chooser: &Chooser<F>,
    object: u64,
    bytes: &[u8],
) -> Result<(), WriteFault>
    requires chooser { IsChooser F.Fn chooser.now }
    requires fits { M.fits metaslabs.old }
    requires own { M.owns metaslabs.old object ≡ true }
    requires geometry { IsGeometry geometry.now }
    requires layout { HaveLayout geometry.now (M.last metaslabs.old) }
    requires many { HasMany R.Rack geometry.now.props.metaslabs (M.last metaslabs.old) }
    requires object { object < OBJECTS }
    requires some { 1 ≤ length bytes.now }
    requires short { length bytes.now ≤ LONGEST_BLOCK }
    requires whole { IsWholeBy R.Rack (M.owns metaslabs.old) (M.last metaslabs.old) (λ o. get nat_eq own.old.objects o) own.old.seq own.old.floor }
    ensures fits { M.fits metaslabs.new }
    ensures locks { M.locks metaslabs.new ≡ M.locks metaslabs.old }
    ensures owns { M.owns metaslabs.new ≡ M.owns metaslabs.old }
    ensures stay { AllStay (M.owns metaslabs.old) (M.last metaslabs.old) (M.last metaslabs.new) }
    ensures whole { IsWholeBy R.Rack (M.owns metaslabs.old) (M.last metaslabs.new) (λ o. get nat_eq own.new.objects o) own.new.seq own.new.floor }
    ensures sets { WriteSetsTable object bytes.now (λ o. get nat_eq own.old.objects o) (λ o. get nat_eq own.new.objects o) result }
    ensures step { (x : State) → x.geometry ≡ geometry.now → check_by x.store.marks ≡ None → Knows R.Rack A.Area (M.owns metaslabs.old) (M.last metaslabs.old) (λ o. get nat_eq own.old.objects o) own.old.seq own.old.floor x
        → CarriesBy R.Rack A.Area M.went M.shared (M.owns metaslabs.old) (M.last metaslabs.new) (λ o. get nat_eq own.new.objects o) own.new.seq own.new.floor metaslabs.old metaslabs.new x (LooksBut (WriteDoes x (FnReturnsAt F.Fn chooser.now) object bytes.now result)) }
{
    let Ok(block) = Encoded::of(alloc, geometry, bytes) else {
        return Err(WriteFault::NoMemory);
    };
    match store_through(rt, alloc, metaslabs, own, geometry, chooser, object, &block) {
        Ok(None) => Ok(()),
        Ok(Some(earlier)) => {
            own.floor = free_rest(rt, metaslabs, earlier, own.floor);
            Ok(())
        }
        Err(why) => Err(why),
    }
}

/// Writes a block of a thread's own object, and tries again until a metaslab takes it. Where the block that it had is yet
/// to be freed its pointer comes back.
fn store_through<R: Rack, A: Area, M: Metaslabs<R, A>, F: Fn(&[Room]) -> Option<u32>, W: Wait>(
    rt: &W,
    alloc: Global,
    metaslabs: &mut M,
    own: &mut Own,
    geometry: &Geometry,
    chooser: &Chooser<F>,
    object: u64,
    block: &Encoded,
) -> Result<Option<Pointer>, WriteFault>
    requires chooser { IsChooser F.Fn chooser.now }
    requires fits { M.fits metaslabs.old }
    requires own { M.owns metaslabs.old object ≡ true }
    requires geometry { IsGeometry geometry.now }
    requires layout { HaveLayout geometry.now (M.last metaslabs.old) }
    requires many { HasMany R.Rack geometry.now.props.metaslabs (M.last metaslabs.old) }
    requires object { object < OBJECTS }
    requires cut { block.now.cut ≡ cut_of geometry.now }
    requires whole { IsWholeBy R.Rack (M.owns metaslabs.old) (M.last metaslabs.old) (λ o. get nat_eq own.old.objects o) own.old.seq own.old.floor }
    ensures fits { M.fits metaslabs.new }
    ensures locks { M.locks metaslabs.new ≡ M.locks metaslabs.old }
    ensures owns { M.owns metaslabs.new ≡ M.owns metaslabs.old }
    ensures stay { AllStay (M.owns metaslabs.old) (M.last metaslabs.old) (M.last metaslabs.new) }
    ensures whole { IsWholeBy R.Rack (M.owns metaslabs.old) (M.last metaslabs.new) (λ o. get nat_eq own.new.objects o) own.new.seq own.new.floor }
    ensures sets { StoreSetsTable object block.now.bytes (λ o. get nat_eq own.old.objects o) (λ o. get nat_eq own.new.objects o) (Some result) }
    // The pointer that comes back is that of a live block, which the table has no more.
    ensures earlier { (p : Pointer) → result ≡ Ok (Some p) → ComesBack R.Rack (M.owns metaslabs.old) (M.last metaslabs.new) (λ o. get nat_eq own.new.objects o) object p }
    ensures step { (x : State) → x.geometry ≡ geometry.now → check_by x.store.marks ≡ None → Knows R.Rack A.Area (M.owns metaslabs.old) (M.last metaslabs.old) (λ o. get nat_eq own.old.objects o) own.old.seq own.old.floor x
        → StoresThrough R.Rack A.Area M.went M.shared (M.owns metaslabs.old) (M.last metaslabs.new) metaslabs.old metaslabs.new (FnReturnsAt F.Fn chooser.now) object block.now.bytes (λ o. get nat_eq own.new.objects o) own.new.seq own.new.floor x result }
{
    for _ in rt.forever() {
        if let Some(stored) = write_encoded(
            alloc, metaslabs, own, geometry, None, chooser, object, block,
        ) {
            return stored;
        }
        thread::yield_now();
    }
    unreachable!()
}

/// Frees the block that an object had before, as soon as its metaslab has come to the group before `floor`, and gives the
/// group. No metaslab is held while it waits.
fn free_rest<R: Rack, A: Area, M: Metaslabs<R, A>, W: Wait>(
    rt: &W,
    metaslabs: &mut M,
    pointer: Pointer,
    floor: u64,
) -> u64
    requires fits { M.fits metaslabs.old }
    requires has { HasPointer (M.last metaslabs.old) R.Rack (M.owns metaslabs.old) pointer.object pointer }
    requires low { floor ≤ LAST_NUMBER }
    ensures fits { M.fits metaslabs.new }
    ensures locks { M.locks metaslabs.new ≡ M.locks metaslabs.old }
    ensures owns { M.owns metaslabs.new ≡ M.owns metaslabs.old }
    ensures stay { AllStay (M.owns metaslabs.old) (M.last metaslabs.old) (M.last metaslabs.new) }
    ensures whole { (table : ℕ → Option Pointer) (seq : ℕ) → IsWholeBy R.Rack (M.owns metaslabs.old) (M.last metaslabs.old) table seq floor → IsApart table pointer
        → IsWholeBy R.Rack (M.owns metaslabs.old) (M.last metaslabs.new) table seq result }
    ensures says { (table : ℕ → Option Pointer) (seq : ℕ) (x : State) (we : Write) → (KeepsBirth x.store.marks we.birth → ⊥) → KnowsEarlier R.Rack A.Area (M.owns metaslabs.old) (M.last metaslabs.old) table seq floor pointer we x
        → CarriesBy R.Rack A.Area M.went M.shared (M.owns metaslabs.old) (M.last metaslabs.new) table seq result metaslabs.old metaslabs.new x (LooksBut (FreesRest x we floor result)) }
{
    for _ in rt.forever() {
        if let Some(group) = free_earlier(metaslabs, pointer, floor) {
            return group;
        }
        thread::yield_now();
    }
    unreachable!()
}
