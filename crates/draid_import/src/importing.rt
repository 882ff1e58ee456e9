//! A pool is imported from what was given back to a shelf: its uberblock is found, each metaslab is opened from the
//! record of the group that it names, the check record of the group is read, and of each object the block with the greatest
//! number counts that wasn't dropped to the checkpoint.
ghost use Rattle.std.specs.Prelude.{◌≡◌, ◌<◌, ◌≤◌, ◌+◌, ◌⊎◌, ◌↔◌, ℕ, None, Some, Err, Ok, IfErr, IfOk, IsErrOf, IsSome, IsSomeAnd, IsTrue, OnErr, OnOk, is_some, length, nat_eq, slice_get, Option};
ghost use Rattle.std.specs.HashMap.{get};
ghost use Rattle.draid_record.specs.declared.fault.RecordFaultKind.{RecordFaultKind};
ghost use Rattle.draid_names.specs.Faults.{Rose};
ghost use Rattle.draid_names.specs.declared.numbers.TheConstants.{LAST_NUMBER};
ghost use Rattle.draid_area.specs.Area.{IsOfSize, OnTold};
ghost use Rattle.draid_rack.specs.Rack.{Shape};
ghost use Rattle.draid_map.specs.Place.{IsLayout};
ghost use Rattle.draid_spec.specs.declared.layout.Geometry.{Geometry};
ghost use Rattle.draid_shelf.specs.Kits.{Held, KitCounts, OnHeld, takes_kit};
ghost use Rattle.draid_shelf.specs.Shelf.{SameOthers};
ghost use Rattle.draid_shard.specs.Looks.{IsLive};
ghost use Rattle.draid_shard.specs.Fits.{Valid};
ghost use Rattle.draid_shard.specs.declared.shard.Shard.{Shard};
ghost use Rattle.draid_uber.specs.Slots.{group_of};
ghost use Rattle.draid_uber.specs.Uber.{Valid as IsValidUber, changed_of, count_of, kept_of, layout_of, next_leaf_of, point_of};
ghost use Rattle.draid_segments.specs.Segments.{Pieces};
ghost use Rattle.draid_session.specs.State.{State, limit_of};
ghost use Rattle.draid_import.specs.Checking.{CheckIsBad, HoldsCheck, IsBadCheck, KeepsUber, NoCheck, OwnCheck};
ghost use Rattle.draid_record.specs.Checks.{CheckTold};
ghost use Rattle.draid_pool.specs.Ubers.{check_told};
ghost use Rattle.draid_import.specs.Faulty.{HoldsNoGroup, IsUnread, OneIsUnread, RecordIsBad, TellsBody, UberIsBad};
ghost use Rattle.draid_import.specs.Findings.{IsMadeOf, IsReadPool, LeavesAll};
ghost use Rattle.draid_import.specs.Imported.{AreLeft, HasPointers, IsFoundOf, IsLastIn};
ghost use Rattle.draid_import.specs.Points.{IsFoundBeside};
ghost use Rattle.draid_import.specs.Importing.{ImportIs, ImportsPool, LeavesMade, RestsThere};
ghost use Rattle.draid_pool.specs.Shelves.{count_on};
ghost use Rattle.draid_pool.specs.Taking.{HoldsMade, IsAsBefore, TakesFirst, takes_areas};
ghost use Rattle.draid_import.specs.Found.{AnyRecordsRose, AreFreed, AreReopened, CountsLater, FreesIfOlder, FreesOlder, HasOnly, HaveLowLeaves, HasRisen, IsFoundUber, IsRecovered, IsReopened, IsShardFault, KeepsFound, KeepsFoundAt, KeepsKnown, LeavesShards, LeavesUber, NoRecord, OpensAllOver, OpensOver, RecordsRose, StaysHeld, shelf_fault_of, uber_fault_of, open_fault_of};
ghost use Rattle.draid_found.specs.Found.{AllLive, AreFound, AreReady};
ghost use Rattle.draid_found.specs.Together.{AreApart, AreTogether};
ghost use Rattle.draid_pool.specs.Whole.{IsWhole, PointFits};
ghost use Rattle.draid_found.specs.declared.finding.Found.{Found};

use crate::checking::check_blocks;
use crate::fault::{ImportFault, OpenFault, OpenRefused};
use crate::pointing::{count_beside, keep_point};
use crate::reopening::reopen;
use draid_area::Area;
use draid_blocks::free;
use draid_found::{Found, FoundFault};
use draid_names::{DeviceFault, NoMemory, Pointer};
use draid_perm::Perms;
use draid_pool::{EVENTS, Own, Owned, Pool, give_areas, give_back, take_areas};
use draid_rack::Rack;
use draid_shard::Shard;
use draid_shelf::Shelf;
use draid_uber::{Uber, UberFault, UberRefused};
use std::alloc::Global;
use std::collections::HashMap;

/// Why an uberblock gave no pool.
fn uber_fault(why: UberFault) -> ImportFault
    ensures is { result ≡ uber_fault_of why }
    ensures area { result ≡ ImportFault.Shelf → why ≡ UberFault.Area }
{
    match why {
        UberFault::Area => ImportFault::Shelf,
        UberFault::NoMemory => ImportFault::NoMemory,
        UberFault::Empty => ImportFault::NoPool,
        UberFault::Record { at, kind } => ImportFault::Record {
            metaslab: None,
            at,
            kind,
        },
    }
}

/// Why a metaslab wasn't opened.
fn open_fault(number: u32, why: OpenFault) -> ImportFault
    ensures is { result ≡ open_fault_of number why }
    ensures area { result ≡ ImportFault.Shelf → why ≡ OpenFault.Area }
    ensures fault { IsShardFault result }
{
    match why {
        OpenFault::Area => ImportFault::Shelf,
        OpenFault::NoMemory => ImportFault::NoMemory,
        OpenFault::Record { at, kind } => ImportFault::Record {
            metaslab: Some(number),
            at,
            kind,
        },
    }
}

/// Why a call on the shelf gave nothing.
fn shelf_fault(why: DeviceFault) -> ImportFault
    ensures is { result ≡ shelf_fault_of why }
    ensures failed { result ≡ ImportFault.Shelf → why ≡ DeviceFault.Failed }
    ensures fault { IsShardFault result }
{
    match why {
        DeviceFault::Failed => ImportFault::Shelf,
        DeviceFault::NoMemory => ImportFault::NoMemory,
    }
}

/// Law: an area that tells has the length that it tells.
fn has_length_told<A: Area>(area: &A)
    ensures { OnTold (A.told area.now) (IsOfSize (A.size area.now)) }
{}

/// Takes the pool's own areas, and finds the uberblock there. After a refusal the areas are on the shelf.
fn find_uber<H: Shelf>(alloc: Global, shelf: &mut H) -> Result<Uber<H::A>, ImportFault>
    ensures found { IfOk result (IsFoundUber H.A.Area) }
    ensures recovered { IfOk result (IsRecovered H.A.Area (H.told shelf.old) (count_on H.Shelf shelf.old)) }
    ensures changed { IfOk result (λ uber. changed_of uber ≡ 0) }
    ensures told { OnOk result (H.told shelf.new ≡ takes_areas (H.told shelf.old)) }
    ensures body { IfOk result (TellsBody (H.told shelf.old)) }
    ensures empty { IsErrOf result ImportFault.NoPool → HoldsNoGroup (H.told shelf.old) }
    ensures back { OnErr result (LeavesUber (H.told shelf.old) (H.told shelf.new) (count_on H.Shelf shelf.old) (count_on H.Shelf shelf.new)) }
    ensures import { (x : State) (pieces : ℕ → Pieces)
        → RestsThere x pieces (H.told shelf.old) (H.leaves shelf.old) (H.counts shelf.old) (count_on H.Shelf shelf.old)
        → IfErr result (λ why. ImportIs H.R.Rack H.A.Area x pieces (H.told shelf.new) (H.leaves shelf.new) (H.counts shelf.new) (count_on H.Shelf shelf.new) (Err why)) }
    ensures leaves { (m : ℕ) → H.leaves shelf.new m ≡ H.leaves shelf.old m }
    ensures faulty { (metaslab : Option ℕ) (place : ℕ) (kind : RecordFaultKind) → IsErrOf result (ImportFault.Record metaslab place kind) → UberIsBad (H.told shelf.old) metaslab place kind }
    ensures check { NoCheck result }
    ensures none { OnHeld (H.told shelf.old) (λ held. held.uber ≡ None → IsErrOf result ImportFault.NoPool
        × IsAsBefore (H.told shelf.old) (H.told shelf.new) (H.counts shelf.old) (H.counts shelf.new)
        (record { uber = H.uber_count shelf.old; checks = H.check_counts shelf.old })
        (record { uber = H.uber_count shelf.new; checks = H.check_counts shelf.new })) }
    ensures made { (geometry : Geometry) → IsSomeAnd (H.told shelf.old) (HoldsMade geometry)
        → LeavesMade geometry result (H.told shelf.new) (H.counts shelf.old) (H.counts shelf.new)
        (record { uber = H.uber_count shelf.old; checks = H.check_counts shelf.old })
        (record { uber = H.uber_count shelf.new; checks = H.check_counts shelf.new }) }
    ensures counts { (m : ℕ) → H.counts shelf.new m ≡ H.counts shelf.old m }
    ensures later { H.faults shelf.old ≤ H.faults shelf.new }
    ensures cause { IsErrOf result ImportFault.Shelf → Rose (H.faults shelf.old) (H.faults shelf.new) ⊎ Rose (count_on H.Shelf shelf.old) (count_on H.Shelf shelf.new) }
{
    if !shelf.has_pool() {
        return Err(ImportFault::NoPool);
    }
    let areas = match take_areas(shelf) {
        Ok(areas) => areas,
        Err(why) => return Err(shelf_fault(why)),
    };
    has_length_told(&areas.uber);
    match Uber::recover(alloc, areas) {
        Ok(uber) => Ok(uber),
        Err(UberRefused { areas, why }) => {
            give_areas(shelf, areas);
            Err(uber_fault(why))
        }
    }
}

/// Takes the devices of a metaslab, and opens it from the record of the group that the uberblock names. After a refusal
/// they are on the shelf.
fn reopen_shard<H: Shelf>(
    alloc: Global,
    shelf: &mut H,
    uber: &Uber<H::A>,
    perms: Perms,
    number: u32,
) -> Result<Shard<H::R, H::A>, ImportFault>
    requires uber { IsFoundUber H.A.Area uber.now }
    requires layout { IsLayout (layout_of uber.now) perms }
    requires number { number < (layout_of uber.now).props.metaslabs }
    ensures reopened { IfOk result (IsReopened H.R.Rack (record { geometry = layout_of uber.now; perms = perms; number = number }) (group_of (kept_of uber.now))) }
    ensures over { IfOk result (OpensOver H.R.Rack H.A.Area (limit_of (layout_of uber.now)) (group_of (kept_of uber.now)) (next_leaf_of uber.now) number (H.told shelf.old) (H.leaves shelf.old number) (H.counts shelf.old number)) }
    ensures told { OnOk result (H.told shelf.new ≡ takes_kit number (H.told shelf.old)) }
    ensures back { OnErr result (StaysHeld (H.told shelf.old) (H.told shelf.new)) }
    ensures tells { OnErr result (OnHeld (H.told shelf.old) (λ held. IsSome (H.told shelf.new))) }
    ensures leaves { SameOthers number (H.leaves shelf.old) (H.leaves shelf.new) }
    ensures known { OnErr result (KeepsKnown (H.leaves shelf.old number) (H.leaves shelf.new number)) }
    ensures fault { IfErr result IsShardFault }
    ensures faulty { (metaslab : Option ℕ) (place : ℕ) (kind : RecordFaultKind) → IsErrOf result (ImportFault.Record metaslab place kind)
        → IsUnread H.R.Rack H.A.Area (layout_of uber.now) (group_of (kept_of uber.now)) (next_leaf_of uber.now) number (H.told shelf.old) (H.leaves shelf.old number) (H.counts shelf.old number) metaslab place kind }
    // No record of a pool that rests on a shelf has a fault.
    ensures opens { (x : State) (pieces : ℕ → Pieces) (held : Option Held) (leaves : ℕ → Option Shape) (counts : ℕ → KitCounts) (count : ℕ)
        → RestsThere x pieces held leaves counts count → IsRecovered H.A.Area held count uber.now → TakesFirst number (takes_areas held) (H.told shelf.old)
        → H.leaves shelf.old number ≡ leaves number → NoRecord result }
    ensures back_counts { OnErr result (CountsLater (H.counts shelf.old number) (H.counts shelf.new number)) }
    ensures counts { SameOthers number (H.counts shelf.old) (H.counts shelf.new) }
    ensures later { H.faults shelf.old ≤ H.faults shelf.new }
    ensures cause { IsErrOf result ImportFault.Shelf → Rose (H.faults shelf.old) (H.faults shelf.new) ⊎ RecordsRose (H.counts shelf.old number) (H.counts shelf.new number) }
{
    let layout = *uber.geometry();
    let kit = match shelf.take(number, &layout) {
        Ok(kit) => kit,
        Err(why) => return Err(shelf_fault(why)),
    };
    let events = EVENTS / u64::from(layout.props.metaslabs);
    let group = uber.committed();
    match reopen(
        alloc,
        number,
        layout,
        perms,
        kit,
        events,
        group,
        uber.next_leaf(),
    ) {
        Ok(shard) => Ok(shard),
        Err(OpenRefused { kit, why }) => {
            shelf.give(number, kit);
            Err(open_fault(number, why))
        }
    }
}

/// Opens all metaslabs. After a refusal all their devices are on the shelf.
fn reopen_shards<H: Shelf>(
    alloc: Global,
    shelf: &mut H,
    uber: &Uber<H::A>,
) -> Result<Vec<Shard<H::R, H::A>>, ImportFault>
    requires uber { IsFoundUber H.A.Area uber.now }
    ensures opens { (x : State) (pieces : ℕ → Pieces) (held : Option Held) (counts : ℕ → KitCounts) (count : ℕ)
        → RestsThere x pieces held (H.leaves shelf.old) counts count → IsRecovered H.A.Area held count uber.now → H.told shelf.old ≡ takes_areas held → NoRecord result }
    ensures reopened { IfOk result (λ shards. AreReopened H.R.Rack (layout_of uber.now) (group_of (kept_of uber.now)) shards.items) }
    ensures over { IfOk result (λ shards. OpensAllOver H.R.Rack H.A.Area (limit_of (layout_of uber.now)) (group_of (kept_of uber.now)) (next_leaf_of uber.now) (H.told shelf.old) (H.leaves shelf.old) (H.counts shelf.old) shards.items) }
    ensures told { OnOk result (TakesFirst (layout_of uber.now).props.metaslabs (H.told shelf.old) (H.told shelf.new)) }
    ensures left { OnOk result ((m : ℕ) → (layout_of uber.now).props.metaslabs ≤ m → (H.counts shelf.new m ≡ H.counts shelf.old m) × (H.leaves shelf.new m ≡ H.leaves shelf.old m)) }
    ensures back { OnErr result (LeavesShards H.R.Rack H.A.Area (layout_of uber.now) (group_of (kept_of uber.now)) (next_leaf_of uber.now) (H.told shelf.old) (H.told shelf.new) (H.counts shelf.old) (H.counts shelf.new)
        (H.leaves shelf.old) (H.leaves shelf.new)) }
    ensures faulty { (metaslab : Option ℕ) (place : ℕ) (kind : RecordFaultKind) → IsErrOf result (ImportFault.Record metaslab place kind)
        → OneIsUnread H.R.Rack H.A.Area (layout_of uber.now) (group_of (kept_of uber.now)) (next_leaf_of uber.now) (H.told shelf.old) (H.leaves shelf.old) (H.counts shelf.old) metaslab place kind }
    ensures fault { IfErr result IsShardFault }
    ensures later { H.faults shelf.old ≤ H.faults shelf.new }
    ensures cause { IsErrOf result ImportFault.Shelf → Rose (H.faults shelf.old) (H.faults shelf.new) ⊎ AnyRecordsRose (layout_of uber.now).props.metaslabs (H.counts shelf.old) (H.counts shelf.new) }
{
    let layout = *uber.geometry();
    let perms = Perms::new(layout.spec.children, layout.props.seed);
    let Ok(mut shards) = Vec::with_capacity(alloc, layout.props.metaslabs as usize) else {
        return Err(ImportFault::NoMemory);
    };
    for number in 0..layout.props.metaslabs {
        match reopen_shard(alloc, shelf, uber, perms, number) {
            Ok(shard) => shards.push_reserved(shard),
            Err(fault) => {
                give_back(shelf, shards);
                return Err(fault);
            }
        }
    }
    Ok(shards)
}

/// What the records of all metaslabs say of the objects.
fn find_blocks<R: Rack, A: Area>(
    alloc: Global,
    shards: &[Shard<R, A>],
) -> Result<Found, ImportFault>
    requires ready { AreReady R.Rack shards.now }
    ensures found { IfOk result (λ found. AreFound shards.now (get nat_eq found.newest) found.seq) }
    ensures together { OnOk result (AreTogether shards.now (length shards.now)) }
    ensures faulty { (metaslab : Option ℕ) (place : ℕ) (kind : RecordFaultKind) → IsErrOf result (ImportFault.Record metaslab place kind) → AreApart shards.now metaslab place kind }
    ensures no_device { IsErrOf result ImportFault.Shelf → ⊥ }
    ensures fault { IfErr result IsShardFault }
{
    match draid_found::find_blocks(alloc, shards) {
        Ok(found) => Ok(found),
        Err(FoundFault::Record { metaslab, at, kind }) => Err(ImportFault::Record {
            metaslab: Some(metaslab),
            at,
            kind,
        }),
        Err(FoundFault::NoMemory) => Err(ImportFault::NoMemory),
    }
}

/// What the records of all metaslabs say of the objects beside the check record, where that goes with them. The uberblock keeps
/// the checkpoint from then on, and the older blocks that it keeps are dropped to it.
fn find_all<R: Rack, A: Area>(
    alloc: Global,
    shards: &[Shard<R, A>],
    uber: &mut Uber<A>,
) -> Result<Found, ImportFault>
    requires ready { AreReady R.Rack shards.now }
    requires valid { IsValidUber A.size uber.old }
    requires low { group_of (kept_of uber.old) < LAST_NUMBER }
    ensures same { KeepsUber A.Area uber.old uber.new }
    ensures found { IfOk result (λ found. IsFoundBeside (OwnCheck A.Area uber.old) shards.now (group_of (kept_of uber.old)) (changed_of uber.old) (get nat_eq found.newest) found.seq uber.new) }
    ensures together { OnOk result (AreTogether shards.now (length shards.now)) }
    ensures faulty { (metaslab : Option ℕ) (place : ℕ) (kind : RecordFaultKind) → IsErrOf result (ImportFault.Record metaslab place kind) → AreApart shards.now metaslab place kind }
    ensures check { (place : ℕ) (kind : RecordFaultKind) → IsErrOf result (ImportFault.Check place kind)
        → AreTogether shards.now (length shards.now) × IsBadCheck (OwnCheck A.Area uber.old) shards.now place kind }
    ensures cause { IsErrOf result ImportFault.Shelf → Rose (count_of A.faults uber.old) (count_of A.faults uber.new) }
    // No check record of a pool that rests on a shelf has a fault, where its metaslabs were opened from there.
    ensures none { (x : State) (pieces : ℕ → Pieces) (held : Option Held) (leaves known : ℕ → Option Shape) (counts now : ℕ → KitCounts) (count : ℕ)
        → RestsThere x pieces held leaves counts count → IsFoundUber A.Area uber.old → IsRecovered A.Area held count uber.old → ((m : ℕ) → now m ≡ counts m)
        → AreReopened R.Rack (layout_of uber.old) (group_of (kept_of uber.old)) shards.now
        → OpensAllOver R.Rack A.Area (limit_of (layout_of uber.old)) (group_of (kept_of uber.old)) (next_leaf_of uber.old) (takes_areas held) known now shards.now → NoCheck result }
    // What its check record says is what became of its checkpoint.
    ensures told { (x : State) (pieces : ℕ → Pieces) (held : Option Held) (leaves : ℕ → Option Shape) (counts : ℕ → KitCounts) (count : ℕ)
        → RestsThere x pieces held leaves counts count → IsFoundUber A.Area uber.old → IsRecovered A.Area held count uber.old
        → (value : CheckTold) → HoldsCheck (group_of (kept_of uber.old)) held (Ok value) → value ≡ check_told x.store.marks (group_of (kept_of uber.old)) }
    ensures some { IsErrOf result ImportFault.NoPool → ⊥ }
{
    let mut found = match find_blocks(alloc, shards) {
        Ok(found) => found,
        Err(fault) => return Err(fault),
    };
    let check = match check_blocks(alloc, shards, uber) {
        Ok(check) => check,
        Err(fault) => return Err(fault),
    };
    match count_beside(alloc, shards, &mut found, &check.drops) {
        Ok(()) => {}
        Err(NoMemory) => return Err(ImportFault::NoMemory),
    }
    match keep_point(alloc, shards, &found.newest, &check, uber) {
        Ok(()) => Ok(found),
        Err(NoMemory) => Err(ImportFault::NoMemory),
    }
}

/// Whether this is the newest block of its object.
fn is_newest(newest: &HashMap<u64, Pointer>, pointer: &Pointer) -> bool
    ensures { IsTrue result ↔ (get nat_eq newest.now pointer.now.object ≡ Some pointer.now) }
{
    newest.get(&pointer.object) == Some(pointer)
}

/// Frees a live block that isn't the newest of its object, unless the checkpoint keeps it.
fn free_if_older<R: Rack, A: Area>(
    shard: &mut Shard<R, A>,
    newest: &HashMap<u64, Pointer>,
    uber: &Uber<A>,
    pointer: &Pointer,
    floor: u64,
)
    requires valid { Valid R.Rack shard.old }
    requires live { IsLive shard.old pointer.now }
    requires floor { floor ≤ shard.old.open_group + 1 }
    requires last { floor ≤ LAST_NUMBER }
    ensures frees { FreesIfOlder R.Rack A.Area (get nat_eq newest.now) (point_of uber.now).group pointer.now floor shard.old shard.new }
{
    if is_newest(newest, pointer) {
        return;
    }
    if uber.holds(pointer.birth) {
        return;
    }
    let Ok(_group) = free(shard, pointer, floor) else {
        unreachable!()
    };
}

/// Frees the blocks of a metaslab that aren't the newest of their objects, and that the checkpoint doesn't keep.
fn free_older<R: Rack, A: Area>(
    shard: &mut Shard<R, A>,
    newest: &HashMap<u64, Pointer>,
    uber: &Uber<A>,
    floor: u64,
)
    requires valid { Valid R.Rack shard.old }
    requires live { AllLive shard.old }
    requires floor { floor ≤ shard.old.open_group + 1 }
    requires last { floor ≤ LAST_NUMBER }
    ensures frees { FreesOlder R.Rack (get nat_eq newest.now) (point_of uber.now).group shard.old shard.new }
    ensures only { HasOnly (get nat_eq newest.now) (point_of uber.now).group shard.new }
    ensures keeps { KeepsFoundAt R.Rack A.Area (get nat_eq newest.now) (point_of uber.now).group floor shard.old shard.new }
{
    let mut from = 0;
    while let Some(pointer) = shard.next_held(from) {
        free_if_older(shard, newest, uber, &pointer, floor);
        from = pointer.first + 1;
    }
}

/// Frees the blocks of all metaslabs that aren't the newest of their objects, and that the checkpoint doesn't keep.
fn free_all<R: Rack, A: Area>(
    shards: &mut Vec<Shard<R, A>>,
    newest: &HashMap<u64, Pointer>,
    uber: &Uber<A>,
    floor: u64,
)
    requires ready { AreReady R.Rack shards.old.items }
    requires floor { (m : ℕ) (shard : Shard R A) → slice_get shards.old.items m ≡ Some shard → floor ≤ shard.open_group + 1 }
    requires last { floor ≤ LAST_NUMBER }
    ensures freed { AreFreed R.Rack (get nat_eq newest.now) (point_of uber.now).group shards.old.items shards.new.items }
    ensures only { AreLeft shards.new.items (get nat_eq newest.now) (point_of uber.now).group }
    ensures keeps { KeepsFound R.Rack A.Area (get nat_eq newest.now) (point_of uber.now).group floor shards.old.items shards.new.items }
{
    for number in 0..shards.len() {
        free_older(&mut shards[number], newest, uber, floor);
    }
}

/// The pool of these metaslabs, in which each object has its newest block.
fn pool_of<R: Rack, A: Area>(
    alloc: Global,
    shards: Vec<Shard<R, A>>,
    uber: Uber<A>,
    found: Found,
) -> Pool<R, A>
    requires uber { IsFoundUber A.Area uber }
    requires shards { AreReopened R.Rack (layout_of uber) (group_of (kept_of uber)) shards.items }
    requires pointers { HasPointers shards.items (get nat_eq found.newest) }
    requires last { IsLastIn shards.items found.seq }
    requires fits { PointFits 0 (point_of uber) (get nat_eq found.newest) found.seq }
    requires early { (own : ℕ) → (point_of uber).group ≡ Some own → own ≤ group_of (kept_of uber) }
    requires together { AreTogether shards.items (length shards.items) }
    requires low { HaveLowLeaves (next_leaf_of uber) shards.items }
    ensures whole { IsWhole R.Rack A.Area result }
    ensures made { IsMadeOf R.Rack shards.items uber (get nat_eq found.newest) found.seq result }
    ensures imports { (x : State) (pieces : ℕ → Pieces) → IsFoundOf R.Rack A.Area x uber pieces (get nat_eq found.newest) found.seq shards.items → ImportsPool R.Rack A.Area x result }
{
    let floor = uber.committed() + 1;
    let mut shards = shards;
    free_all(&mut shards, &found.newest, &uber, floor);
    Pool {
        geometry: *uber.geometry(),
        metaslabs: Owned { shards },
        uber,
        own: Own {
            objects: found.newest,
            seq: found.seq,
            floor,
        },
        alloc,
    }
}

/// Imports the pool that was given back to the shelf. A refusal gives back all that was taken.
pub fn import<H: Shelf>(alloc: Global, shelf: &mut H) -> Result<Pool<H::R, H::A>, ImportFault>
    ensures whole { IfOk result (IsWhole H.R.Rack H.A.Area) }
    ensures none { OnHeld (H.told shelf.old) (λ held. held.uber ≡ None → IsErrOf result ImportFault.NoPool
        × IsAsBefore (H.told shelf.old) (H.told shelf.new) (H.counts shelf.old) (H.counts shelf.new)
        (record { uber = H.uber_count shelf.old; checks = H.check_counts shelf.old })
        (record { uber = H.uber_count shelf.new; checks = H.check_counts shelf.new })) }
    ensures made { (geometry : Geometry) → IsSomeAnd (H.told shelf.old) (HoldsMade geometry)
        → LeavesMade geometry result (H.told shelf.new) (H.counts shelf.old) (H.counts shelf.new)
        (record { uber = H.uber_count shelf.old; checks = H.check_counts shelf.old })
        (record { uber = H.uber_count shelf.new; checks = H.check_counts shelf.new }) }
    // What is found of a pool that rests there is that pool, and a refusal leaves it there.
    ensures import { (x : State) (pieces : ℕ → Pieces)
        → RestsThere x pieces (H.told shelf.old) (H.leaves shelf.old) (H.counts shelf.old) (count_on H.Shelf shelf.old)
        → ImportIs H.R.Rack H.A.Area x pieces (H.told shelf.new) (H.leaves shelf.new) (H.counts shelf.new) (count_on H.Shelf shelf.new) result }
    // The answer by what the shelf held: the pool that was read, no group, or the first fault.
    ensures read { IfOk result (IsReadPool H.R.Rack H.A.Area (H.told shelf.old) (H.leaves shelf.old) (H.counts shelf.old) (count_on H.Shelf shelf.old)) }
    ensures empty { IsErrOf result ImportFault.NoPool → HoldsNoGroup (H.told shelf.old) }
    ensures faulty { (metaslab : Option ℕ) (place : ℕ) (kind : RecordFaultKind) → IsErrOf result (ImportFault.Record metaslab place kind)
        → RecordIsBad H.R.Rack H.A.Area (H.told shelf.old) (H.leaves shelf.old) (H.counts shelf.old) metaslab place kind }
    ensures check { (place : ℕ) (kind : RecordFaultKind) → IsErrOf result (ImportFault.Check place kind)
        → CheckIsBad H.R.Rack H.A.Area (H.told shelf.old) (H.leaves shelf.old) (H.counts shelf.old) place kind }
    ensures back { OnErr result (LeavesAll H.A.Area (H.told shelf.old) (H.told shelf.new) (H.counts shelf.old) (H.counts shelf.new) (count_on H.Shelf shelf.old) (count_on H.Shelf shelf.new)) }
    ensures tells { OnOk result (is_some (H.told shelf.new) ≡ is_some (H.told shelf.old)) }
    ensures later { H.faults shelf.old ≤ H.faults shelf.new }
    ensures cause { IsErrOf result ImportFault.Shelf → HasRisen H.A.Area (H.told shelf.old) (H.faults shelf.old) (H.faults shelf.new) (count_on H.Shelf shelf.old) (count_on H.Shelf shelf.new) (H.counts shelf.old) (H.counts shelf.new) }
{
    let mut uber = find_uber(alloc, shelf)?;
    let shards = match reopen_shards(alloc, shelf, &uber) {
        Ok(shards) => shards,
        Err(fault) => {
            give_areas(shelf, uber.into_areas());
            return Err(fault);
        }
    };
    match find_all(alloc, &shards, &mut uber) {
        Ok(found) => Ok(pool_of(alloc, shards, uber, found)),
        Err(fault) => {
            give_back(shelf, shards);
            give_areas(shelf, uber.into_areas());
            Err(fault)
        }
    }
}
