ghost use Rattle.std.specs.Prelude.{◌≡◌, ◌<◌, IfOk};
ghost use Rattle.draid_shelf.specs.Failing.{IsPlace};
ghost use Rattle.draid_spec.specs.Geometry.{IsGeometry};

use draid_area::Area;
use draid_faults::CrashRule;
use draid_names::Failed;
use draid_rack::Rack;
use draid_shelf::{MemoryShelf, Place, Shelf};
use draid_spec::{Geometry, Props, Spec, SpecFault, geometry};
use std::alloc::Global;

/// Four children, two metaslabs of three slices of eight sectors on each child.
pub(crate) fn small_geometry() -> Result<Geometry, SpecFault>
    ensures { IfOk result IsGeometry }
{
    let spec = Spec {
        parity: 1,
        ndata: 2,
        children: 4,
        spares: 1,
    };
    let props = Props {
        sector: 512,
        height: 8,
        metaslabs: 2,
        slices: 3,
        seed: 1,
        version: 1,
    };
    geometry(spec, props)
}

/// Writes a sector of leaf 0, where it is there.
fn write<R: Rack>(rack: &mut R, sector: u64, byte: u8) -> Result<(), Failed>
    requires { (R.shape rack.old).bytes ≡ 512 }
    ensures { (R.shape rack.new).bytes ≡ 512 }
{
    match rack.sectors(0) {
        Some(sectors) if sector < sectors => rack.write(0, sector, &[byte; 512]),
        _ => Err(Failed),
    }
}

/// The first byte of a sector of leaf 0, where it is there.
fn read<R: Rack>(rack: &mut R, sector: u64) -> Result<u8, Failed>
    requires { (R.shape rack.old).bytes ≡ 512 }
    ensures { (R.shape rack.new).bytes ≡ 512 }
{
    let mut bytes = [9; 512];
    match rack.sectors(0) {
        Some(sectors) if sector < sectors => rack.read(0, sector, &mut bytes)?,
        _ => return Err(Failed),
    }
    Ok(bytes[0])
}

/// Lets the calls with these numbers fail at one place.
fn fail(shelf: &mut MemoryShelf, alloc: Global, place: Place, calls: &[u64]) -> bool
    requires { IsPlace place }
{
    match Vec::from_slice(alloc, calls) {
        Ok(calls) => {
            shelf.fail(place, calls);
            true
        }
        Err(_) => false,
    }
}

/// Flushes leaf 0, where it is there.
fn flush<R: Rack>(rack: &mut R) -> Result<(), Failed>
    ensures { R.shape rack.new ≡ R.shape rack.old }
{
    match rack.sectors(0) {
        Some(_) => rack.flush(0),
        None => Err(Failed),
    }
}

/// Writes two sectors, of which the first is flushed.
fn use_rack<R: Rack>(rack: &mut R) -> Result<(), Failed>
    requires { (R.shape rack.old).bytes ≡ 512 }
{
    write(rack, 23, 7)?;
    flush(rack)?;
    write(rack, 22, 8)
}

/// The same in metaslab 1, and writes a record of it; whether all was done.
pub(crate) fn use_devices<H: Shelf>(shelf: &mut H, geometry: &Geometry) -> bool
    requires { geometry.now.props.sector ≡ 512 }
{
    match shelf.take(1, geometry) {
        Ok(mut kit) => {
            let used = use_rack(&mut kit.rack).is_ok() && kit.odd.write(0, &[1, 2, 3]).is_ok();
            shelf.give(1, kit);
            used
        }
        Err(_) => false,
    }
}

/// What those two sectors read.
fn read_both<R: Rack>(rack: &mut R) -> Result<[u8; 2], Failed>
    requires { (R.shape rack.old).bytes ≡ 512 }
{
    Ok([read(rack, 23)?, read(rack, 22)?])
}

/// Whether the shelf has the devices of metaslab 1, the two sectors read so, and the record is so long.
pub(crate) fn has_left<H: Shelf>(
    shelf: &mut H,
    geometry: &Geometry,
    sectors: [u8; 2],
    record: u64,
) -> bool
    requires { geometry.now.props.sector ≡ 512 }
{
    match shelf.take(1, geometry) {
        Ok(mut kit) => read_both(&mut kit.rack) == Ok(sectors) && kit.odd.length() == record,
        Err(_) => false,
    }
}

/// Makes a pool and uses it; whether it is there then, and not before.
fn make_and_use(shelf: &mut MemoryShelf, alloc: Global, geometry: &Geometry) -> bool
    requires geometry { IsGeometry geometry.now }
    requires sector { geometry.now.props.sector ≡ 512 }
{
    if shelf.has_pool() || Shelf::make(shelf, alloc, geometry).is_err() {
        return false;
    }
    shelf.has_pool() && use_devices(shelf, geometry)
}

/// Whether a crash leaves that of it, which is there once.
fn has_after(
    shelf: &mut MemoryShelf,
    alloc: Global,
    geometry: &Geometry,
    sectors: [u8; 2],
    record: u64,
) -> bool
    requires geometry { IsGeometry geometry.now }
    requires sector { geometry.now.props.sector ≡ 512 }
{
    if !make_and_use(shelf, alloc, geometry) {
        return false;
    }
    shelf.crash();
    has_left(shelf, geometry, sectors, record) && shelf.take(1, geometry).is_err()
}

/// Flushes two areas one after another, twice; which of these calls failed.
fn flush_in_turn<A: Area>(first: &mut A, second: &mut A) -> [bool; 4] {
    [
        first.flush().is_err(),
        second.flush().is_err(),
        first.flush().is_err(),
        second.flush().is_err(),
    ]
}

/// Takes the area of the uberblock and one of metaslab 0, and does so.
fn flush_both<H: Shelf>(shelf: &mut H, geometry: &Geometry) -> Option<[bool; 4]> {
    let mut uber = shelf.take_uber().ok()?;
    let mut kit = shelf.take(0, geometry).ok()?;
    let failed = flush_in_turn(&mut uber, &mut kit.even);
    shelf.give_uber(uber);
    shelf.give(0, kit);
    Some(failed)
}

/// Whether the last of four flushes fails behind a fuse of three calls, and none after a crash.
fn is_fused(shelf: &mut MemoryShelf, alloc: Global, geometry: &Geometry) -> bool
    requires { IsGeometry geometry.now }
{
    if Shelf::make(shelf, alloc, geometry).is_err() || shelf.put_fuse(alloc, 3).is_err() {
        return false;
    }
    let behind = flush_both(shelf, geometry);
    shelf.crash();
    behind == Some([false, false, false, true]) && flush_both(shelf, geometry) == Some([false; 4])
}

/// Which of two calls that make the devices and three that take the area of the uberblock are done.
fn made_and_taken<H: Shelf>(shelf: &mut H, alloc: Global, geometry: &Geometry) -> [bool; 5]
    requires { IsGeometry geometry.now }
{
    [
        shelf.make(alloc, geometry).is_ok(),
        shelf.make(alloc, geometry).is_ok(),
        shelf.take_uber().is_ok(),
        shelf.take_uber().is_ok(),
        shelf.take_uber().is_ok(),
    ]
}

/// Whether the first, the third and the last of them fail where the shelf's own calls 0 and 2 do.
fn own_fail(shelf: &mut MemoryShelf, alloc: Global, geometry: &Geometry) -> bool
    requires { IsGeometry geometry.now }
{
    fail(shelf, alloc, Place::Own, &[0, 2])
        && made_and_taken(shelf, alloc, geometry) == [false, true, false, true, false]
}

/// Flushes leaf 0 and the records of metaslab 0; which of these calls failed.
fn flush_kit<H: Shelf>(shelf: &mut H, geometry: &Geometry) -> Option<[bool; 3]> {
    match shelf.take(0, geometry) {
        Ok(mut kit) => {
            let failed = [
                flush(&mut kit.rack).is_err(),
                kit.even.flush().is_err(),
                kit.odd.flush().is_err(),
            ];
            shelf.give(0, kit);
            Some(failed)
        }
        Err(_) => None,
    }
}

/// The same of the check records.
fn flush_checks<H: Shelf>(shelf: &mut H) -> Option<[bool; 2]> {
    match shelf.take_check() {
        Ok((mut even, mut odd)) => {
            let failed = [even.flush().is_err(), odd.flush().is_err()];
            shelf.give_check(even, odd);
            Some(failed)
        }
        Err(_) => None,
    }
}

/// The same of the uberblock.
fn flush_uber<H: Shelf>(shelf: &mut H) -> Option<bool> {
    match shelf.take_uber() {
        Ok(mut uber) => {
            let failed = uber.flush().is_err();
            shelf.give_uber(uber);
            Some(failed)
        }
        Err(_) => None,
    }
}

/// The same of all of these.
fn flush_all<H: Shelf>(shelf: &mut H, geometry: &Geometry) -> Option<[bool; 6]> {
    let [rack, even, odd] = flush_kit(shelf, geometry)?;
    let [check_even, check_odd] = flush_checks(shelf)?;
    let uber = flush_uber(shelf)?;
    Some([rack, even, odd, check_even, check_odd, uber])
}

/// Whether just these calls fail in a new pool where the first one at this place does, and none when made again.
fn just_fail(
    shelf: &mut MemoryShelf,
    alloc: Global,
    geometry: &Geometry,
    place: Place,
    wanted: [bool; 6],
) -> bool
    requires geometry { IsGeometry geometry.now }
    requires place { IsPlace place }
{
    if !fail(shelf, alloc, place, &[0]) || Shelf::make(shelf, alloc, geometry).is_err() {
        return false;
    }
    flush_all(shelf, geometry) == Some(wanted) && flush_all(shelf, geometry) == Some([false; 6])
}

/// The places in the order of those calls, and one of another metaslab.
fn place_of(call: usize) -> Place
    ensures { IsPlace result }
{
    match call {
        0 => Place::Rack(0),
        1 => Place::Even(0),
        2 => Place::Odd(0),
        3 => Place::CheckEven,
        4 => Place::CheckOdd,
        5 => Place::Uber,
        _ => Place::Even(1),
    }
}

/// Whether just that call fails where the first one at its place does; no call at the place of another metaslab.
fn fails_alone(shelf: &mut MemoryShelf, alloc: Global, geometry: &Geometry, call: usize) -> bool
    requires { IsGeometry geometry.now }
{
    let mut wanted = [false; 6];
    if call < 6 {
        wanted[call] = true;
    }
    just_fail(shelf, alloc, geometry, place_of(call), wanted)
}

/// Writes a check record that isn't flushed.
fn write_check(shelf: &mut MemoryShelf) -> bool {
    match shelf.take_check() {
        Ok((even, mut odd)) => {
            let written = odd.write(0, &[1, 2, 3]).is_ok();
            shelf.give_check(even, odd);
            written
        }
        Err(_) => false,
    }
}

/// How long the areas of check records are.
fn check_lengths(shelf: &mut MemoryShelf) -> Option<[u64; 2]> {
    match shelf.take_check() {
        Ok((even, odd)) => Some([even.length(), odd.length()]),
        Err(_) => None,
    }
}

/// How long they are behind that and a crash, where they aren't there a second time.
fn checks_left(shelf: &mut MemoryShelf, alloc: Global, geometry: &Geometry) -> Option<[u64; 2]>
    requires { IsGeometry geometry.now }
{
    if Shelf::make(shelf, alloc, geometry).is_err() || !write_check(shelf) {
        return None;
    }
    shelf.crash();
    let lengths = check_lengths(shelf);
    if shelf.take_check().is_ok() {
        return None;
    }
    lengths
}

/// What is tried on a new shelf.
#[derive(Clone, Copy)]
enum Trial {
    /// A crash by its rule leaves two sectors so, and a record of this length.
    Crash { sectors: [u8; 2], record: u64 },
    Fuse,
    Own,
    /// The first of these calls fails at its place.
    Place { call: usize },
    /// A crash by its rule leaves the check record of an odd group so long.
    Checks { odd: u64 },
}

/// Whether a shelf does as it has to in a trial.
fn stands(shelf: &mut MemoryShelf, alloc: Global, geometry: &Geometry, trial: Trial) -> bool
    requires geometry { IsGeometry geometry.now }
    requires sector { geometry.now.props.sector ≡ 512 }
{
    match trial {
        Trial::Crash { sectors, record } => has_after(shelf, alloc, geometry, sectors, record),
        Trial::Fuse => is_fused(shelf, alloc, geometry),
        Trial::Own => own_fail(shelf, alloc, geometry),
        Trial::Place { call } => fails_alone(shelf, alloc, geometry, call),
        Trial::Checks { odd } => checks_left(shelf, alloc, geometry) == Some([0, odd]),
    }
}

/// Whether a new shelf does, which a crash leaves by this rule.
fn stand_by(alloc: Global, geometry: &Geometry, rule: CrashRule, trial: Trial) -> bool
    requires geometry { IsGeometry geometry.now }
    requires sector { geometry.now.props.sector ≡ 512 }
{
    let mut shelf = MemoryShelf::new(alloc, CrashRule::Torn);
    shelf.crash_by(rule);
    stands(&mut shelf, alloc, geometry, trial)
}

/// The same of a small pool.
fn stand(alloc: Global, rule: CrashRule, trial: Trial) -> bool {
    match small_geometry() {
        Ok(geometry) if geometry.props.sector == 512 => stand_by(alloc, &geometry, rule, trial),
        _ => false,
    }
}

/// What is tried, by which rule a crash goes, and what that shows.
static TRIALS: [(Trial, CrashRule, &str); 13] = [
    (
        Trial::Crash {
            sectors: [7, 0],
            record: 0,
        },
        CrashRule::Old,
        "a crash reaches all that was given back",
    ),
    (
        Trial::Crash {
            sectors: [7, 8],
            record: 3,
        },
        CrashRule::New,
        "a crash leaves all that was given back",
    ),
    (
        Trial::Fuse,
        CrashRule::New,
        "the devices share a fuse that a crash takes out",
    ),
    (
        Trial::Own,
        CrashRule::New,
        "the shelf fails by its list and for what it does not hold",
    ),
    (
        Trial::Place { call: 0 },
        CrashRule::New,
        "the rack fails by its own list",
    ),
    (
        Trial::Place { call: 1 },
        CrashRule::New,
        "the even records do",
    ),
    (
        Trial::Place { call: 2 },
        CrashRule::New,
        "the odd records do",
    ),
    (
        Trial::Place { call: 3 },
        CrashRule::New,
        "the even check records do",
    ),
    (
        Trial::Place { call: 4 },
        CrashRule::New,
        "the odd check records do",
    ),
    (
        Trial::Place { call: 5 },
        CrashRule::New,
        "the uberblock does",
    ),
    (
        Trial::Place { call: 6 },
        CrashRule::New,
        "no other place does",
    ),
    (
        Trial::Checks { odd: 0 },
        CrashRule::Old,
        "check records are given, taken and crash",
    ),
    (
        Trial::Checks { odd: 3 },
        CrashRule::New,
        "check records are left",
    ),
];

#[test]
fn shelves_do_as_they_have_to(rt: HostRuntime) {
    for (trial, rule, shown) in TRIALS.iter() {
        assert!(rt; stand(rt.alloc(), *rule, *trial), "{shown}");
    }
}
