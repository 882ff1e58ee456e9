ghost use Rattle.std.specs.Prelude.{◌≡◌, ◌<◌, ◌≤◌, ◌+◌, ℕ, Ok, Option, Some, false, length, nat_eq, true};
ghost use Rattle.std.specs.Fn.{FnReturnsAt};
ghost use Rattle.std.specs.HashMap.{get, spare};
ghost use Rattle.draid_choose.specs.Rooms.{IsChooser};
ghost use Rattle.draid_names.specs.declared.numbers.TheConstants.{NUMBERS, OBJECTS};
ghost use Rattle.draid_names.specs.declared.pointer.Pointer.{Pointer};
ghost use Rattle.draid_spec.specs.Geometry.{IsGeometry};
ghost use Rattle.draid_block.specs.Blocks.{cut_of};
ghost use Rattle.draid_checkpoint.specs.Check.{holds_birth};
ghost use Rattle.draid_session.specs.Rooms.{longest};
ghost use Rattle.draid_session.specs.State.{State};
ghost use Rattle.draid_store.specs.Answers.{WriteDoes};
ghost use Rattle.draid_pool.specs.Looking.{HasMany};
ghost use Rattle.draid_store.specs.Putting.{Takes};
ghost use Rattle.draid_store.specs.Storing.{ComesBack, IsAnswerTo, IsServedBut, StoreRefusedBy, StoreSetsTable, StoresNew, WriteSays, WritesBy};
ghost use Rattle.draid_session.specs.Points.{IsPointOf};
ghost use Rattle.draid_pool.specs.Carries.{CarriesOut};
ghost use Rattle.draid_store.specs.Pointers.{WriteSets};
ghost use Rattle.draid_pool.specs.Drifts.{groups_number};
ghost use Rattle.draid_pool.specs.Pools.{Represents};
ghost use Rattle.draid_pool.specs.Threads.{AllStay, HaveLayout, IsWholeBy, Knows};
ghost use Rattle.draid_pool.specs.Whole.{IsWhole};

use crate::fault::StoreFault;
use crate::freeing::{drop_earlier, free_earlier};
use crate::store::store_block;
use draid_area::Area;
use draid_block::Encoded;
use draid_blocks::{BeginFault, Missed};
use draid_choose::Chooser;
use draid_names::{LAST_NUMBER, LONGEST_BLOCK, OBJECTS, Pointer, Room, WriteFault};
use draid_pool::{Metaslabs, Own, Pool, SeenRooms, look_for_room};
use draid_rack::Rack;
use draid_spec::Geometry;
use std::alloc::Global;

/// Writes 1 to 131,072 bytes to an object below 2^32, in the metaslab that the chooser names. The block that it had is
/// freed then, or dropped to the checkpoint where that keeps it. After any refusal the object has its earlier bytes.
pub fn write<R: Rack, A: Area, F: Fn(&[Room]) -> Option<u32>>(
    pool: &mut Pool<R, A>,
    chooser: &Chooser<F>,
    object: u64,
    bytes: &[u8],
) -> Result<(), WriteFault>
    requires chooser { IsChooser F.Fn chooser.now }
    requires object { object < OBJECTS }
    requires some { 1 ≤ length bytes.now }
    requires short { length bytes.now ≤ LONGEST_BLOCK }
    requires whole { IsWhole R.Rack A.Area pool.old }
    ensures whole { IsWhole R.Rack A.Area pool.new }
    ensures writes { WriteSets object bytes.now pool.old pool.new result }
    ensures step { (x : State) → Represents R.Rack A.Area pool.old x
        → CarriesOut R.Rack A.Area pool.new x (WriteDoes x (FnReturnsAt F.Fn chooser.now) object bytes.now result) }
{
    match write_object(
        pool.alloc,
        &mut pool.metaslabs,
        &mut pool.own,
        &pool.geometry,
        pool.uber.point().group(),
        chooser,
        object,
        bytes,
    ) {
        Some(Ok(None)) => Ok(()),
        Some(Err(why)) => Err(why),
        Some(Ok(Some(earlier))) => {
            drop_earlier(pool, earlier);
            Ok(())
        }
        None => unreachable!(),
    }
}

/// Writes 1 to 131,072 bytes to a thread's own object below 2^32, in the metaslab that the chooser names, where all
/// metaslabs have this layout. After any refusal the object has its earlier bytes. Where the block that it had is yet to
/// be freed its pointer comes back, and so it does where the checkpoint of this group keeps that. Nothing where the write is
/// to be tried again.
pub fn write_object<R: Rack, A: Area, M: Metaslabs<R, A>, F: Fn(&[Room]) -> Option<u32>>(
    alloc: Global,
    metaslabs: &mut M,
    own: &mut Own,
    geometry: &Geometry,
    point: Option<u64>,
    chooser: &Chooser<F>,
    object: u64,
    bytes: &[u8],
) -> Option<Result<Option<Pointer>, WriteFault>>
    requires chooser { IsChooser F.Fn chooser.now }
    requires fits { M.fits metaslabs.old }
    requires own { M.owns metaslabs.old object ≡ true }
    requires geometry { IsGeometry geometry.now }
    requires layout { HaveLayout geometry.now (M.last metaslabs.old) }
    requires many { HasMany R.Rack geometry.now.props.metaslabs (M.last metaslabs.old) }
    requires object { object < OBJECTS }
    requires some { 1 ≤ length bytes.now }
    requires short { length bytes.now ≤ LONGEST_BLOCK }
    requires whole { IsWholeBy R.Rack (M.owns metaslabs.old) (M.last metaslabs.old) (λ o. get nat_eq own.old.objects o) own.old.seq own.old.floor }
    ensures fits { M.fits metaslabs.new }
    ensures locks { M.locks metaslabs.new ≡ M.locks metaslabs.old }
    ensures owns { M.owns metaslabs.new ≡ M.owns metaslabs.old }
    ensures stay { AllStay (M.owns metaslabs.old) (M.last metaslabs.old) (M.last metaslabs.new) }
    ensures whole { IsWholeBy R.Rack (M.owns metaslabs.old) (M.last metaslabs.new) (λ o. get nat_eq own.new.objects o) own.new.seq own.new.floor }
    ensures sets { StoreSetsTable object bytes.now (λ o. get nat_eq own.old.objects o) (λ o. get nat_eq own.new.objects o) result }
    // The pointer that comes back is that of a live block, which the table has no more.
    ensures earlier { (p : Pointer) → result ≡ Some (Ok (Some p)) → ComesBack R.Rack (M.owns metaslabs.old) (M.last metaslabs.new) (λ o. get nat_eq own.new.objects o) object p }
    // Where a block was stored the object has a new pointer, and the one that comes back was its own.
    ensures new { M.owns metaslabs.old groups_number ≡ true → StoresNew (M.last metaslabs.old) object own.old.seq (λ o. get nat_eq own.old.objects o) (λ o. get nat_eq own.new.objects o) result }
    ensures later { own.old.seq ≤ own.new.seq }
    ensures step { (x : State) → x.geometry ≡ geometry.now → IsPointOf x.store.marks point → Knows R.Rack A.Area (M.owns metaslabs.old) (M.last metaslabs.old) (λ o. get nat_eq own.old.objects o) own.old.seq own.old.floor x
        → WritesBy R.Rack A.Area M.went M.shared (M.owns metaslabs.old) (M.last metaslabs.new) metaslabs.old metaslabs.new point (FnReturnsAt F.Fn chooser.now) object bytes.now (λ o. get nat_eq own.new.objects o) own.new.seq own.new.floor x result }
    // Who alone closes groups, with nobody between its holds, never has to try again. What the checkpoint keeps is to be dropped.
    ensures served { M.owns metaslabs.old groups_number ≡ true → M.shared ≡ false → IsServedBut point result }
{
    let Ok(block) = Encoded::of(alloc, geometry, bytes) else {
        return Some(Err(WriteFault::NoMemory));
    };
    write_encoded(
        alloc, metaslabs, own, geometry, point, chooser, object, &block,
    )
}

/// The same of a block that is encoded.
pub fn write_encoded<R: Rack, A: Area, M: Metaslabs<R, A>, F: Fn(&[Room]) -> Option<u32>>(
    alloc: Global,
    metaslabs: &mut M,
    own: &mut Own,
    geometry: &Geometry,
    point: Option<u64>,
    chooser: &Chooser<F>,
    object: u64,
    block: &Encoded,
) -> Option<Result<Option<Pointer>, WriteFault>>
    requires chooser { IsChooser F.Fn chooser.now }
    requires fits { M.fits metaslabs.old }
    requires own { M.owns metaslabs.old object ≡ true }
    requires geometry { IsGeometry geometry.now }
    requires layout { HaveLayout geometry.now (M.last metaslabs.old) }
    requires many { HasMany R.Rack geometry.now.props.metaslabs (M.last metaslabs.old) }
    requires object { object < OBJECTS }
    requires cut { block.now.cut ≡ cut_of geometry.now }
    requires whole { IsWholeBy R.Rack (M.owns metaslabs.old) (M.last metaslabs.old) (λ o. get nat_eq own.old.objects o) own.old.seq own.old.floor }
    ensures fits { M.fits metaslabs.new }
    ensures locks { M.locks metaslabs.new ≡ M.locks metaslabs.old }
    ensures owns { M.owns metaslabs.new ≡ M.owns metaslabs.old }
    ensures stay { AllStay (M.owns metaslabs.old) (M.last metaslabs.old) (M.last metaslabs.new) }
    ensures whole { IsWholeBy R.Rack (M.owns metaslabs.old) (M.last metaslabs.new) (λ o. get nat_eq own.new.objects o) own.new.seq own.new.floor }
    ensures sets { StoreSetsTable object block.now.bytes (λ o. get nat_eq own.old.objects o) (λ o. get nat_eq own.new.objects o) result }
    // The pointer that comes back is that of a live block, which the table has no more.
    ensures earlier { (p : Pointer) → result ≡ Some (Ok (Some p)) → ComesBack R.Rack (M.owns metaslabs.old) (M.last metaslabs.new) (λ o. get nat_eq own.new.objects o) object p }
    // Where a block was stored the object has a new pointer, and the one that comes back was its own.
    ensures new { M.owns metaslabs.old groups_number ≡ true → StoresNew (M.last metaslabs.old) object own.old.seq (λ o. get nat_eq own.old.objects o) (λ o. get nat_eq own.new.objects o) result }
    ensures later { own.old.seq ≤ own.new.seq }
    ensures step { (x : State) → x.geometry ≡ geometry.now → IsPointOf x.store.marks point → Knows R.Rack A.Area (M.owns metaslabs.old) (M.last metaslabs.old) (λ o. get nat_eq own.old.objects o) own.old.seq own.old.floor x
        → WritesBy R.Rack A.Area M.went M.shared (M.owns metaslabs.old) (M.last metaslabs.new) metaslabs.old metaslabs.new point (FnReturnsAt F.Fn chooser.now) object block.now.bytes (λ o. get nat_eq own.new.objects o) own.new.seq own.new.floor x result }
    // Who alone closes groups, with nobody between its holds, never has to try again. What the checkpoint keeps is to be dropped.
    ensures served { M.owns metaslabs.old groups_number ≡ true → M.shared ≡ false → IsServedBut point result }
{
    let need = u64::from(block.stripes());
    let Ok(seen) = look_for_room(alloc, metaslabs, geometry.props.metaslabs, need) else {
        return Some(Err(WriteFault::NoMemory));
    };
    let Some(metaslab) = chooser.pick(&seen.rooms) else {
        return Some(Err(no_space(&seen)));
    };
    if own.seq >= LAST_NUMBER {
        return Some(Err(WriteFault::Last));
    }
    if own.objects.reserve(1).is_err() {
        return Some(Err(WriteFault::NoMemory));
    }
    match write_block(metaslabs, own, metaslab, geometry.g, point, object, block) {
        Some(stored) => written_as(stored),
        None => None,
    }
}

/// The answer of a write in the metaslab that was named. Nothing where that had no room any more.
fn written_as(
    stored: Result<Option<Pointer>, StoreFault>,
) -> Option<Result<Option<Pointer>, WriteFault>>
    ensures { IsAnswerTo stored result }
{
    match stored {
        Ok(earlier) => Some(Ok(earlier)),
        Err(StoreFault::Missed(Missed { columns })) => Some(Err(WriteFault::Missed { columns })),
        Err(StoreFault::Refused(BeginFault::NoMemory)) => Some(Err(WriteFault::NoMemory)),
        Err(StoreFault::Refused(_)) => None,
    }
}

/// Why no metaslab took a block, where these are the rooms.
fn no_space(seen: &SeenRooms) -> WriteFault
    ensures { result ≡ WriteFault.NoSpace (longest seen.now.rooms.items) seen.now.disabled seen.now.full seen.now.worn }
{
    WriteFault::NoSpace {
        run: longest_run(&seen.rooms),
        disabled: seen.disabled,
        full: seen.full,
        worn: seen.worn,
    }
}

/// Writes a block of an object in a metaslab, and frees the one that the object had. Where that is to be tried again its
/// pointer comes back, and so it does where the checkpoint of this group keeps that: it is to be dropped. Nothing where the
/// write itself is to be tried again.
pub fn write_block<R: Rack, A: Area, M: Metaslabs<R, A>>(
    metaslabs: &mut M,
    own: &mut Own,
    metaslab: u32,
    columns: u32,
    point: Option<u64>,
    object: u64,
    block: &Encoded,
) -> Option<Result<Option<Pointer>, StoreFault>>
    requires fits { M.fits metaslabs.old }
    requires own { M.owns metaslabs.old object ≡ true }
    requires object { object < OBJECTS }
    requires last { own.old.seq + 1 < NUMBERS }
    requires takes { Takes (M.last metaslabs.old) metaslab columns block.now }
    requires room { 0 < spare own.old.objects }
    requires whole { IsWholeBy R.Rack (M.owns metaslabs.old) (M.last metaslabs.old) (λ o. get nat_eq own.old.objects o) own.old.seq own.old.floor }
    ensures fits { M.fits metaslabs.new }
    ensures locks { M.locks metaslabs.new ≡ M.locks metaslabs.old }
    ensures owns { M.owns metaslabs.new ≡ M.owns metaslabs.old }
    ensures stay { AllStay (M.owns metaslabs.old) (M.last metaslabs.old) (M.last metaslabs.new) }
    ensures whole { IsWholeBy R.Rack (M.owns metaslabs.old) (M.last metaslabs.new) (λ o. get nat_eq own.new.objects o) own.new.seq own.new.floor }
    ensures sets { StoreSetsTable object block.now.bytes (λ o. get nat_eq own.old.objects o) (λ o. get nat_eq own.new.objects o) result }
    // The pointer that comes back is that of a live block, which the table has no more.
    ensures earlier { (p : Pointer) → result ≡ Some (Ok (Some p)) → ComesBack R.Rack (M.owns metaslabs.old) (M.last metaslabs.new) (λ o. get nat_eq own.new.objects o) object p }
    // Where a block was stored the object has a new pointer, and the one that comes back was its own.
    ensures new { StoresNew (M.last metaslabs.old) object own.old.seq (λ o. get nat_eq own.old.objects o) (λ o. get nat_eq own.new.objects o) result }
    ensures later { own.old.seq ≤ own.new.seq }
    ensures says { WriteSays R.Rack A.Area M.went M.shared (M.owns metaslabs.old) (M.owns metaslabs.new) (M.last metaslabs.old) (M.last metaslabs.new) metaslabs.old metaslabs.new metaslab columns point object
        (λ o. get nat_eq own.old.objects o) (λ o. get nat_eq own.new.objects o) own.old.seq own.old.floor own.new.seq own.new.floor block.now result }
    ensures refused { StoreRefusedBy R.Rack A.Area M.shared (M.owns metaslabs.old) (M.last metaslabs.old) metaslab block.now result }
    // Who alone closes groups never has to try again. What the checkpoint keeps is to be dropped.
    ensures served { M.owns metaslabs.old groups_number ≡ true → IsServedBut point result }
{
    let earlier = match store_block(metaslabs, own, metaslab, columns, object, block) {
        Some(Ok(Some(earlier))) => earlier,
        Some(Ok(None)) => return Some(Ok(None)),
        Some(Err(why)) => return Some(Err(why)),
        None => return None,
    };
    if keeps(point, earlier.birth) {
        return Some(Ok(Some(earlier)));
    }
    let Some(group) = free_earlier(metaslabs, earlier, own.floor) else {
        return Some(Ok(Some(earlier)));
    };
    own.floor = group;
    Some(Ok(None))
}

/// Whether the checkpoint of this group keeps what was born then.
fn keeps(point: Option<u64>, birth: u64) -> bool
    ensures { result ≡ holds_birth point birth }
{
    match point {
        Some(group) => birth <= group,
        None => false,
    }
}

/// The longest run of some rooms.
fn longest_run(rooms: &[Room]) -> u64
    ensures { result ≡ longest rooms.now }
{
    let mut run = 0;
    for room in rooms {
        run = run.max(room.run);
    }
    run
}
