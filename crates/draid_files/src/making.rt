//! The files of a new pool as devices.
ghost use Rattle.std.specs.Prelude.{◌≡◌, ◌<◌, IfOk, OnOk, Some, if◌then◌else◌, ◌==◌, ℕ};
ghost use Rattle.draid_spec.specs.Geometry.{IsGeometry};
ghost use Rattle.draid_files.specs.Racks.{AreLeaves, leaf_at};
ghost use Rattle.draid_files.specs.Shelves.{AreEmpty, AreMade, IsMade, IsMadeArea, IsMadeKit, MakesAll};

use crate::area::{FileArea, make_area};
use crate::devices::{Devices, Kits, no_kits, put_on};
use crate::folder::Folder;
use crate::leaf::{FileLeaf, make_leaf};
use crate::name::{FileName, Groups};
use crate::rack::FileRack;
use draid_names::{DeviceFault, NoMemory};
use draid_shelf::Kit;
use draid_spec::Geometry;
use std::collections::BTreeMap;

/// How many bytes the area of the uberblock has.
const UBER: u64 = 1024;

/// Removes the files of an earlier pool, that of its uberblock first.
fn clear(folder: &Folder, files: &[FileName]) -> Result<(), DeviceFault> {
    if folder.may_have(FileName::Uber) {
        folder.remove(FileName::Uber)?;
        folder.sync()?;
    }
    for name in files {
        if !matches!(name, FileName::Uber) {
            folder.remove(*name)?;
        }
    }
    folder.sync()
}

/// Puts a leaf in.
pub(crate) fn add(
    leaves: &mut BTreeMap<u64, FileLeaf>,
    leaf: u64,
    new: FileLeaf,
) -> Result<(), NoMemory>
    ensures { OnOk result
        ((l : ℕ) → leaf_at leaves.new l ≡ (if l == leaf then Some new else leaf_at leaves.old l)) }
{
    leaves.insert(leaf, new)?;
    Ok(())
}

/// Makes the first leaves of a metaslab.
#[tactic(auto, using(crate::proofs::Made::leaves_more))]
fn make_leaves(
    folder: &Folder,
    metaslab: u32,
    count: u32,
    sectors: u64,
    bytes: u32,
) -> Result<BTreeMap<u64, FileLeaf>, DeviceFault>
    ensures { IfOk result (AreLeaves count sectors) }
{
    let mut leaves = BTreeMap::new(folder.alloc());
    for leaf in 0..u64::from(count) {
        let new = make_leaf(folder, FileName::Leaf { metaslab, leaf }, sectors, bytes)?;
        add(&mut leaves, leaf, new)?;
    }
    Ok(leaves)
}

/// Makes the leaves of a metaslab as a rack.
fn make_rack(folder: &Folder, geometry: &Geometry, metaslab: u32) -> Result<FileRack, DeviceFault>
    requires { IsGeometry geometry.now }
    ensures { IfOk result (IsMade geometry.now) }
{
    let bytes = geometry.props.sector;
    let sectors = geometry.metaslab_sectors();
    let leaves = make_leaves(folder, metaslab, geometry.spec.children, sectors, bytes)?;
    Ok(FileRack {
        folder: folder.share()?,
        metaslab,
        bytes,
        leaves,
        own_faults: 0,
    })
}

/// Makes an empty area of a metaslab's records.
fn make_records(folder: &Folder, metaslab: u32, groups: Groups) -> Result<FileArea, DeviceFault>
    ensures { IfOk result (IsMadeArea 0) }
{
    make_area(folder, FileName::Records { metaslab, groups }, 0)
}

/// Makes the devices of a metaslab.
fn make_kit(
    folder: &Folder,
    geometry: &Geometry,
    metaslab: u32,
) -> Result<Kit<FileRack, FileArea>, DeviceFault>
    requires { IsGeometry geometry.now }
    ensures { IfOk result (IsMadeKit geometry.now) }
{
    let rack = make_rack(folder, geometry, metaslab)?;
    let even = make_records(folder, metaslab, Groups::Even)?;
    let odd = make_records(folder, metaslab, Groups::Odd)?;
    Ok(Kit { rack, even, odd })
}

/// Makes the devices of each metaslab.
#[tactic(auto, using(crate::proofs::Made::kits_more))]
fn make_kits(folder: &Folder, geometry: &Geometry) -> Result<Kits, DeviceFault>
    requires { IsGeometry geometry.now }
    ensures { IfOk result (AreMade geometry.now geometry.now.props.metaslabs) }
{
    let mut kits = no_kits();
    for metaslab in 0..geometry.props.metaslabs {
        let kit = make_kit(folder, geometry, metaslab)?;
        put_on(&mut kits, metaslab as usize, kit);
    }
    Ok(kits)
}

/// Makes an empty area of check records.
pub(crate) fn make_check(folder: &Folder, groups: Groups) -> Result<FileArea, DeviceFault>
    ensures { IfOk result (IsMadeArea 0) }
{
    make_area(folder, FileName::Check { groups }, 0)
}

/// Makes the areas of the check records.
fn make_checks(folder: &Folder) -> Result<(FileArea, FileArea), DeviceFault>
    ensures { IfOk result AreEmpty }
{
    let even = make_check(folder, Groups::Even)?;
    let odd = make_check(folder, Groups::Odd)?;
    Ok((even, odd))
}

/// Makes the devices of a new pool in place of the files that are there. The area of the uberblock comes last: until the disk
/// has all others, the folder has no pool.
pub(crate) fn make_devices(
    folder: &Folder,
    files: &[FileName],
    geometry: &Geometry,
) -> Result<Devices, DeviceFault>
    requires { IsGeometry geometry.now }
    ensures { IfOk result (MakesAll geometry.now) }
{
    clear(folder, files)?;
    let kits = make_kits(folder, geometry)?;
    let checks = make_checks(folder)?;
    folder.sync()?;
    let uber = make_area(folder, FileName::Uber, UBER)?;
    folder.sync()?;
    Ok(Devices {
        kits,
        checks: Some(checks),
        uber: Some(uber),
    })
}
