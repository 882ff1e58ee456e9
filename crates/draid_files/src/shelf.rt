ghost use Rattle.std.specs.Prelude.{◌≡◌, ◌<◌, IfOk, OnErr, OnOk, Some, None, IsSome, option_map, string_bytes};
ghost use Rattle.draid_spec.specs.Geometry.{IsGeometry};
ghost use Rattle.draid_shelf.specs.Kits.{ShelfCounts};
ghost use Rattle.draid_files.specs.Shelves.{AreUncounted, IsOpened, MakesAll, PutsKit, Takes, kit_at};

use crate::area::{FileArea, open_uber};
use crate::devices::{Devices, no_kits, take_from};
use crate::folder::Folder;
use crate::making::make_devices;
use crate::name::FileName;
use crate::opening::{open_checks, open_kit};
use crate::rack::FileRack;
use draid_names::DeviceFault;
use draid_shelf::{Kit, METASLABS};
use draid_spec::Geometry;
use std::fs::File;

/// A folder as a shelf. It tells nothing of its files, keeps the folder locked from its first use on, and keeps the devices
/// open that are given back.
#[derive(Drop)]
pub struct FileShelf {
    folder: Folder,
    lock: Option<File>,
    pub(crate) devices: Devices,
    pub(crate) faults: u64,
}

impl FileShelf {
    ghost use Rattle.draid_files.specs.Folders.{path_of};

    /// The shelf of the folder of this name. It touches no file before it is used.
    pub fn new(rt: &HostRuntime, path: String) -> FileShelf
        ensures { path_of result ≡ string_bytes path }
    {
        FileShelf {
            folder: Folder::new(*rt, path),
            lock: None,
            devices: Devices {
                kits: no_kits(),
                checks: None,
                uber: None,
            },
            faults: 0,
        }
    }

    /// Counts a failure.
    pub(crate) fn counted<T: Drop>(
        &mut self,
        done: Result<T, DeviceFault>,
    ) -> Result<T, DeviceFault>
        ensures same { result ≡ done }
        ensures devices { self.new.devices ≡ self.old.devices }
        ensures cause { ShelfCounts result self.old.faults self.new.faults }
    {
        if let Err(DeviceFault::Failed) = &done {
            self.faults = self.faults.saturating_add(1);
        }
        done
    }

    /// Locks the folder, where this shelf hasn't yet.
    fn lock(&mut self) -> Result<(), DeviceFault>
        ensures devices { self.new.devices ≡ self.old.devices }
        ensures faults { self.new.faults ≡ self.old.faults }
    {
        if self.lock.is_none() {
            self.lock = Some(self.folder.lock()?);
        }
        Ok(())
    }

    /// Whether the folder may have a pool: false only where it has no file of an uberblock.
    pub(crate) fn is_there(&self) -> bool {
        self.folder.may_have(FileName::Uber)
    }

    /// Makes the devices of a new pool.
    pub(crate) fn made(&mut self, geometry: &Geometry) -> Result<Devices, DeviceFault>
        requires { IsGeometry geometry.now }
        ensures made { IfOk result (MakesAll geometry.now) }
        ensures devices { self.new.devices ≡ self.old.devices }
        ensures faults { self.new.faults ≡ self.old.faults }
    {
        self.lock()?;
        let files = self.folder.files()?;
        match make_devices(&self.folder, &files, geometry) {
            Ok(devices) => Ok(devices),
            // Files of the earlier pool may be gone by then, so want of memory is a failure too.
            Err(_) => Err(DeviceFault::Failed),
        }
    }

    /// Opens the area of the uberblock.
    pub(crate) fn opened_uber(&mut self) -> Result<FileArea, DeviceFault>
        ensures opened { IfOk result (λ area. area.file.faults ≡ 0) }
        ensures devices { self.new.devices ≡ self.old.devices }
        ensures faults { self.new.faults ≡ self.old.faults }
    {
        self.lock()?;
        open_uber(&self.folder)
    }

    /// Opens the areas of the check records.
    pub(crate) fn opened_checks(&mut self) -> Result<(FileArea, FileArea), DeviceFault>
        ensures opened { IfOk result AreUncounted }
        ensures devices { self.new.devices ≡ self.old.devices }
        ensures faults { self.new.faults ≡ self.old.faults }
    {
        self.lock()?;
        open_checks(&self.folder)
    }

    /// Opens the devices of a metaslab, with sectors of this length.
    fn opened_kit(
        &mut self,
        metaslab: u32,
        bytes: u32,
    ) -> Result<Kit<FileRack, FileArea>, DeviceFault>
        ensures opened { IfOk result (IsOpened bytes) }
        ensures devices { self.new.devices ≡ self.old.devices }
        ensures faults { self.new.faults ≡ self.old.faults }
    {
        self.lock()?;
        open_kit(&self.folder, metaslab, bytes)
    }

    /// Takes the devices of a metaslab that are kept, or else opens them. Those that are kept are to have sectors of this length.
    pub(crate) fn taken(
        &mut self,
        metaslab: u32,
        bytes: u32,
    ) -> Result<Kit<FileRack, FileArea>, DeviceFault>
        ensures taken { IfOk result (Takes metaslab bytes self.old.devices self.new.devices) }
        ensures kept { OnErr result (self.new.devices ≡ self.old.devices) }
        ensures faults { self.new.faults ≡ self.old.faults }
    {
        if metaslab >= METASLABS {
            return Err(DeviceFault::Failed);
        }
        match self.sector_of(metaslab) {
            None => self.opened_kit(metaslab, bytes),
            Some(kept) if kept != bytes => Err(DeviceFault::Failed),
            Some(_) => Ok(self.take_kept(metaslab)),
        }
    }

    /// The length of a sector of a metaslab whose devices are kept.
    fn sector_of(&self, metaslab: u32) -> Option<u32>
        requires { metaslab < 64 }
        ensures { result ≡ option_map (λ kit. kit.rack.bytes) (kit_at self.now.devices metaslab) }
    {
        match &self.devices.kits[metaslab as usize] {
            Some(kit) => Some(kit.rack.bytes),
            None => None,
        }
    }

    /// Takes the devices of a metaslab that are kept.
    fn take_kept(&mut self, metaslab: u32) -> Kit<FileRack, FileArea>
        requires place { metaslab < 64 }
        requires kept { IsSome (kit_at self.old.devices metaslab) }
        ensures taken { kit_at self.old.devices metaslab ≡ Some result }
        ensures left { PutsKit metaslab None self.old.devices self.new.devices }
        ensures faults { self.new.faults ≡ self.old.faults }
    {
        match take_from(&mut self.devices.kits, metaslab as usize) {
            Some(kit) => kit,
            None => unreachable!(),
        }
    }
}
