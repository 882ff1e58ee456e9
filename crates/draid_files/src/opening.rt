//! The files of a pool that is there as devices.
ghost use Rattle.std.specs.Prelude.{◌≡◌, ℕ, Option, IfOk};
ghost use Rattle.draid_files.specs.Racks.{AreUncounted, faults_of, shape_of};
ghost use Rattle.draid_files.specs.Shelves as shelves;

use crate::area::{FileArea, open_area};
use crate::folder::Folder;
use crate::leaf::{FileLeaf, open_leaf};
use crate::making::{add, make_check};
use crate::name::{FileName, Groups};
use crate::rack::FileRack;
use draid_names::DeviceFault;
use draid_shelf::Kit;
use std::collections::BTreeMap;

/// The leaves of a metaslab that are there.
fn leaves_there(folder: &Folder, metaslab: u32) -> Result<Vec<u64>, DeviceFault> {
    let mut leaves = Vec::new(folder.alloc());
    for name in folder.files()? {
        match name {
            FileName::Leaf { metaslab: of, leaf } if of == metaslab => leaves.push(leaf)?,
            _ => {}
        }
    }
    Ok(leaves)
}

/// Opens these leaves of a metaslab.
#[tactic(auto, using(crate::proofs::Made::uncounted_more))]
fn open_leaves(
    folder: &Folder,
    metaslab: u32,
    numbers: &[u64],
    bytes: u32,
) -> Result<BTreeMap<u64, FileLeaf>, DeviceFault>
    ensures { IfOk result AreUncounted }
{
    let mut leaves = BTreeMap::new(folder.alloc());
    for number in numbers {
        let leaf = *number;
        let new = open_leaf(folder, FileName::Leaf { metaslab, leaf }, bytes)?;
        add(&mut leaves, leaf, new)?;
    }
    Ok(leaves)
}

/// Opens the leaves of a metaslab that are there as a rack, with sectors of this length.
fn open_rack(folder: &Folder, metaslab: u32, bytes: u32) -> Result<FileRack, DeviceFault>
    ensures bytes { IfOk result (λ rack. (shape_of rack).bytes ≡ bytes) }
    ensures counts { IfOk result (λ rack. (who : Option ℕ) → faults_of rack who ≡ 0) }
{
    let numbers = leaves_there(folder, metaslab)?;
    let leaves = open_leaves(folder, metaslab, &numbers, bytes)?;
    Ok(FileRack {
        folder: folder.share()?,
        metaslab,
        bytes,
        leaves,
        own_faults: 0,
    })
}

/// Opens the area of a metaslab's records.
fn open_records(folder: &Folder, metaslab: u32, groups: Groups) -> Result<FileArea, DeviceFault>
    ensures { IfOk result (λ area. area.file.faults ≡ 0) }
{
    open_area(folder, FileName::Records { metaslab, groups })
}

/// Opens the devices of a metaslab, with sectors of this length.
pub(crate) fn open_kit(
    folder: &Folder,
    metaslab: u32,
    bytes: u32,
) -> Result<Kit<FileRack, FileArea>, DeviceFault>
    ensures { IfOk result (shelves.IsOpened bytes) }
{
    let rack = open_rack(folder, metaslab, bytes)?;
    let even = open_records(folder, metaslab, Groups::Even)?;
    let odd = open_records(folder, metaslab, Groups::Odd)?;
    Ok(Kit { rack, even, odd })
}

/// Opens an area of check records, and makes it where none is there.
fn open_check(folder: &Folder, groups: Groups) -> Result<FileArea, DeviceFault>
    ensures { IfOk result (λ area. area.file.faults ≡ 0) }
{
    let name = FileName::Check { groups };
    if folder.may_have(name) {
        return open_area(folder, name);
    }
    let area = make_check(folder, groups)?;
    folder.sync()?;
    Ok(area)
}

/// Opens the areas of the check records of even and of odd groups.
pub(crate) fn open_checks(folder: &Folder) -> Result<(FileArea, FileArea), DeviceFault>
    ensures { IfOk result shelves.AreUncounted }
{
    let even = open_check(folder, Groups::Even)?;
    let odd = open_check(folder, Groups::Odd)?;
    Ok((even, odd))
}
