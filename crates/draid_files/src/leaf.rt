ghost use Rattle.std.specs.Prelude.{◌≡◌, IfOk, length};
ghost use Rattle.draid_names.specs.Faults.{HasCause};
ghost use Rattle.draid_files.specs.Racks.{IsNewLeaf};

use crate::device::DeviceFile;
use crate::folder::Folder;
use crate::name::FileName;
use draid_names::{DeviceFault, Failed};

/// The longest sector in bytes.
const LONGEST: usize = 4096;

/// A leaf's file. Sector x is at byte x times the length of a sector.
#[derive(Drop)]
pub(crate) struct FileLeaf {
    pub file: DeviceFile,
    pub sectors: u64,
}

/// Makes a leaf of so many sectors of this length.
pub(crate) fn make_leaf(
    folder: &Folder,
    name: FileName,
    sectors: u64,
    bytes: u32,
) -> Result<FileLeaf, DeviceFault>
    ensures { IfOk result (IsNewLeaf sectors) }
{
    let Some(length) = sectors.checked_mul(u64::from(bytes)) else {
        return Err(DeviceFault::Failed);
    };
    let file = folder.make(name, length)?;
    Ok(FileLeaf { file, sectors })
}

/// Opens a leaf with sectors of this length.
pub(crate) fn open_leaf(
    folder: &Folder,
    name: FileName,
    bytes: u32,
) -> Result<FileLeaf, DeviceFault>
    ensures { IfOk result (λ leaf. leaf.file.faults ≡ 0) }
{
    let file = folder.open(name)?;
    let Ok(length) = file.length() else {
        return Err(DeviceFault::Failed);
    };
    match length.checked_div(u64::from(bytes)) {
        Some(sectors) => Ok(FileLeaf { file, sectors }),
        None => Err(DeviceFault::Failed),
    }
}

impl FileLeaf {
    /// Fills `into` with a sector.
    pub(crate) fn read(&mut self, sector: u64, into: &mut [u8]) -> Result<(), Failed>
        ensures whole { length into.new ≡ length into.old }
        ensures sectors { self.new.sectors ≡ self.old.sectors }
        ensures cause { HasCause self.old.file.faults self.new.file.faults result }
    {
        match sector.checked_mul(into.len() as u64) {
            Some(at) => self.file.read(at, into),
            None => Err(self.file.refuse()),
        }
    }

    /// Writes a sector.
    pub(crate) fn write(&mut self, sector: u64, bytes: &[u8]) -> Result<(), Failed>
        ensures sectors { self.new.sectors ≡ self.old.sectors }
        ensures cause { HasCause self.old.file.faults self.new.file.faults result }
    {
        match sector.checked_mul(bytes.len() as u64) {
            Some(at) => self.file.write(at, bytes),
            None => Err(self.file.refuse()),
        }
    }

    /// Has the disk take what was written.
    pub(crate) fn flush(&mut self) -> Result<(), Failed>
        ensures sectors { self.new.sectors ≡ self.old.sectors }
        ensures cause { HasCause self.old.file.faults self.new.file.faults result }
    {
        self.file.sync()
    }

    /// Makes each byte of a sector of this length its complement.
    pub(crate) fn damage(&mut self, sector: u64, bytes: u32) -> Result<(), Failed>
        ensures sectors { self.new.sectors ≡ self.old.sectors }
        ensures cause { HasCause self.old.file.faults self.new.file.faults result }
    {
        let mut room = [0; LONGEST];
        let Some(room) = room.get_mut(..bytes as usize) else {
            return Err(self.file.refuse());
        };
        match self.read(sector, room) {
            Ok(()) => {}
            Err(fault) => return Err(fault),
        }
        for byte in room.iter_mut() {
            *byte = 255 - *byte;
        }
        self.write(sector, room)
    }
}
