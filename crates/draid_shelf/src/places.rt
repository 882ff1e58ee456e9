ghost use Rattle.std.specs.Prelude.{◌≡◌, ◌<◌, ◌≤◌, ◌==◌, ℕ, List, Option, Some, None, false, IfOk, OnOk, OnErr, if◌then◌else◌, is_some, slice_index_or, replicate};
ghost use Rattle.draid_spec.specs.Geometry.{IsGeometry};
ghost use Rattle.draid_spec.specs.declared.layout.Geometry.{Geometry};
ghost use Rattle.draid_shelf.specs.Memory.{AreEmpty, AreMade, CrashedArea, CrashesAll, CrashesAreas, CrashesRacks, FusedArea, FusesAll, FusesAreas, FusesRacks, IsMade, IsMadeArea, KeepsAll, KeepsArea, KeepsAreas, KeepsRacks, MakesAll, list_at, list_of};

use crate::devices::Devices;
use crate::plan::{Numbers, Plan};
use draid_area::MemoryArea;
use draid_faults::{CrashRule, Fuse};
use draid_names::NoMemory;
use draid_rack::MemoryRack;
use draid_spec::Geometry;
use std::alloc::{AllocError, Global};

/// How many bytes the area of the uberblock has.
const UBER: usize = 1024;

/// Nothing on any of these places.
pub(crate) fn empty_places<T: Drop>() -> [Option<T>; 64]
    ensures { (m : ℕ) → slice_index_or result m None ≡ None }
{
    Default::default()
}

/// Takes what is held on a place.
pub(crate) fn take_from<T: Drop>(places: &mut [Option<T>; 64], place: usize) -> Option<T>
    requires { place < 64 }
    ensures taken { result ≡ slice_index_or places.old place None }
    ensures left { (q : ℕ) → slice_index_or places.new q None
        ≡ (if q == place then None else slice_index_or places.old q None) }
{
    places[place].take()
}

/// Puts something on a place.
pub(crate) fn put_on<T: Drop>(places: &mut [Option<T>; 64], place: usize, item: T)
    requires { place < 64 }
    ensures { (q : ℕ) → slice_index_or places.new q None
        ≡ (if q == place then Some item else slice_index_or places.old q None) }
{
    places[place] = Some(item);
}

/// The numbers of a list.
fn numbers(alloc: Global, list: &Numbers) -> Result<Vec<u64>, AllocError>
    ensures { IfOk result (λ numbers. numbers.items ≡ list_of list.now) }
{
    match list {
        Some(numbers) => numbers.clone(),
        None => Ok(Vec::new(alloc)),
    }
}

/// Gives a rack that was made the fuse, if there is one.
fn fuse_new_rack(rack: &mut MemoryRack, fuse: &Option<Fuse>) -> Result<(), AllocError>
    ensures { OnOk result ((geometry : Geometry) (list : List ℕ) → IsMade geometry list false rack.old
        → IsMade geometry list (is_some fuse.now) rack.new) }
{
    let Some(fuse) = fuse else {
        return Ok(());
    };
    rack.put_fuse(fuse.share()?);
    Ok(())
}

/// Gives an area that was made the fuse, if there is one.
fn fuse_new_area(area: &mut MemoryArea, fuse: &Option<Fuse>) -> Result<(), AllocError>
    ensures { OnOk result ((bytes list : List ℕ) → IsMadeArea bytes list false area.old
        → IsMadeArea bytes list (is_some fuse.now) area.new) }
{
    let Some(fuse) = fuse else {
        return Ok(());
    };
    area.put_fuse(fuse.share()?);
    Ok(())
}

/// A rack for one metaslab.
fn rack_of(
    alloc: Global,
    geometry: &Geometry,
    list: &Numbers,
    fuse: &Option<Fuse>,
) -> Result<MemoryRack, NoMemory>
    requires { IsGeometry geometry.now }
    ensures { IfOk result (IsMade geometry.now (list_of list.now) (is_some fuse.now)) }
{
    let mut rack = MemoryRack::new(
        alloc,
        geometry.spec.children,
        geometry.metaslab_sectors(),
        geometry.props.sector,
        numbers(alloc, list)?,
    )?;
    fuse_new_rack(&mut rack, fuse)?;
    Ok(rack)
}

/// A rack for each metaslab.
pub(crate) fn racks_of(
    alloc: Global,
    geometry: &Geometry,
    lists: &[Numbers; 64],
    fuse: &Option<Fuse>,
) -> Result<[Option<MemoryRack>; 64], NoMemory>
    requires { IsGeometry geometry.now }
    ensures { IfOk result (AreMade geometry.now (list_at lists.now) (is_some fuse.now) geometry.now.props.metaslabs) }
{
    let mut racks = empty_places();
    for metaslab in 0..geometry.props.metaslabs {
        let place = metaslab as usize;
        racks[place] = Some(rack_of(alloc, geometry, &lists[place], fuse)?);
    }
    Ok(racks)
}

/// An area of so many zero bytes.
fn area_of(
    alloc: Global,
    bytes: usize,
    list: &Numbers,
    fuse: &Option<Fuse>,
) -> Result<MemoryArea, NoMemory>
    ensures { IfOk result (IsMadeArea (replicate bytes 0) (list_of list.now) (is_some fuse.now)) }
{
    let zeros = vec![in alloc; 0; bytes]?;
    let mut area = MemoryArea::new(alloc, zeros, numbers(alloc, list)?)?;
    fuse_new_area(&mut area, fuse)?;
    Ok(area)
}

/// An empty area for each metaslab.
fn areas_of(
    alloc: Global,
    metaslabs: u32,
    lists: &[Numbers; 64],
    fuse: &Option<Fuse>,
) -> Result<[Option<MemoryArea>; 64], NoMemory>
    requires { metaslabs < 65 }
    ensures { IfOk result (AreEmpty (list_at lists.now) (is_some fuse.now) metaslabs) }
{
    let mut areas = empty_places();
    for metaslab in 0..metaslabs {
        let place = metaslab as usize;
        areas[place] = Some(area_of(alloc, 0, &lists[place], fuse)?);
    }
    Ok(areas)
}

/// Gives each rack a crash.
fn crash_racks(racks: &mut [Option<MemoryRack>; 64], rule: CrashRule)
    ensures { CrashesRacks rule 64 racks.old racks.new }
{
    for place in 0..64 {
        if let Some(rack) = &mut racks[place] {
            rack.crash(rule);
        }
    }
}

/// Gives an area a crash, if it is there.
fn crash_area(area: &mut Option<MemoryArea>, rule: CrashRule)
    ensures { CrashedArea rule area.old area.new }
{
    if let Some(area) = area {
        area.crash(rule);
    }
}

/// Gives each area a crash.
fn crash_areas(areas: &mut [Option<MemoryArea>; 64], rule: CrashRule)
    ensures { CrashesAreas rule 64 areas.old areas.new }
{
    for place in 0..64 {
        if let Some(area) = &mut areas[place] {
            area.crash(rule);
        }
    }
}

/// Gives each rack a fuse that they share. Where that fails, those on the first places have it.
fn fuse_racks(racks: &mut [Option<MemoryRack>; 64], fuse: &Fuse) -> Result<(), AllocError>
    ensures ok { OnOk result (FusesRacks 64 racks.old racks.new) }
    ensures kept { KeepsRacks racks.old racks.new }
{
    for place in 0..64 {
        if let Some(rack) = &mut racks[place] {
            rack.put_fuse(fuse.share()?);
        }
    }
    Ok(())
}

/// Gives an area a fuse, if it is there.
fn fuse_area(area: &mut Option<MemoryArea>, fuse: &Fuse) -> Result<(), AllocError>
    ensures ok { OnOk result (FusedArea area.old area.new) }
    ensures kept { KeepsArea area.old area.new }
{
    if let Some(area) = area {
        area.put_fuse(fuse.share()?);
    }
    Ok(())
}

/// Gives each area a fuse that they share. Where that fails, those on the first places have it.
fn fuse_areas(areas: &mut [Option<MemoryArea>; 64], fuse: &Fuse) -> Result<(), AllocError>
    ensures ok { OnOk result (FusesAreas 64 areas.old areas.new) }
    ensures kept { KeepsAreas areas.old areas.new }
{
    for place in 0..64 {
        if let Some(area) = &mut areas[place] {
            area.put_fuse(fuse.share()?);
        }
    }
    Ok(())
}

/// Gives all devices a fuse that they share. Where that fails, some of them have it.
pub(crate) fn fuse_all(devices: &mut Devices, fuse: &Fuse) -> Result<(), AllocError>
    ensures ok { OnOk result (FusesAll devices.old devices.new) }
    ensures kept { KeepsAll devices.old devices.new }
{
    fuse_racks(&mut devices.racks, fuse)?;
    fuse_areas(&mut devices.evens, fuse)?;
    fuse_areas(&mut devices.odds, fuse)?;
    fuse_area(&mut devices.check_even, fuse)?;
    fuse_area(&mut devices.check_odd, fuse)?;
    fuse_area(&mut devices.uber, fuse)
}

/// Gives all devices a crash.
pub(crate) fn crash_all(devices: &mut Devices, rule: CrashRule)
    ensures { CrashesAll rule devices.old devices.new }
{
    crash_racks(&mut devices.racks, rule);
    crash_areas(&mut devices.evens, rule);
    crash_areas(&mut devices.odds, rule);
    crash_area(&mut devices.check_even, rule);
    crash_area(&mut devices.check_odd, rule);
    crash_area(&mut devices.uber, rule);
}

/// The devices of a new pool.
pub(crate) fn devices_of(
    alloc: Global,
    geometry: &Geometry,
    plan: &Plan,
) -> Result<Devices, NoMemory>
    requires { IsGeometry geometry.now }
    ensures { IfOk result (MakesAll geometry.now (list_at plan.now.racks) (list_at plan.now.evens)
        (list_at plan.now.odds) (list_of plan.now.check_even) (list_of plan.now.check_odd)
        (list_of plan.now.uber) (is_some plan.now.fuse)) }
{
    let metaslabs = geometry.props.metaslabs;
    let racks = racks_of(alloc, geometry, &plan.racks, &plan.fuse)?;
    let evens = areas_of(alloc, metaslabs, &plan.evens, &plan.fuse)?;
    let odds = areas_of(alloc, metaslabs, &plan.odds, &plan.fuse)?;
    let check_even = area_of(alloc, 0, &plan.check_even, &plan.fuse)?;
    let check_odd = area_of(alloc, 0, &plan.check_odd, &plan.fuse)?;
    let uber = area_of(alloc, UBER, &plan.uber, &plan.fuse)?;
    Ok(Devices {
        racks,
        evens,
        odds,
        check_even: Some(check_even),
        check_odd: Some(check_odd),
        uber: Some(uber),
    })
}
