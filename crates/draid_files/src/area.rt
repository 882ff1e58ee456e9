ghost use Rattle.std.specs.Prelude.{◌≡◌, None, IfOk};
ghost use Rattle.draid_files.specs.Shelves.{IsMadeArea};

use crate::device::DeviceFile;
use crate::folder::Folder;
use crate::name::FileName;
use draid_area::Area;
use draid_names::{DeviceFault, Failed};

/// A file as an area, whose bytes are the file's. It tells nothing of them.
#[derive(Drop)]
pub struct FileArea {
    pub(crate) file: DeviceFile,
    /// How many bytes it has.
    pub(crate) size: u64,
}

/// Makes an area of so many zero bytes.
pub(crate) fn make_area(
    folder: &Folder,
    name: FileName,
    bytes: u64,
) -> Result<FileArea, DeviceFault>
    ensures { IfOk result (IsMadeArea bytes) }
{
    let file = folder.make(name, bytes)?;
    Ok(FileArea { file, size: bytes })
}

/// Opens an area.
pub(crate) fn open_area(folder: &Folder, name: FileName) -> Result<FileArea, DeviceFault>
    ensures { IfOk result (λ area. area.file.faults ≡ 0) }
{
    let file = folder.open(name)?;
    as_area(file)
}

/// Opens the area of the uberblock.
pub(crate) fn open_uber(folder: &Folder) -> Result<FileArea, DeviceFault>
    ensures { IfOk result (λ area. area.file.faults ≡ 0) }
{
    let file = folder.open_uber()?;
    as_area(file)
}

/// A file with all its bytes as an area.
fn as_area(file: DeviceFile) -> Result<FileArea, DeviceFault>
    ensures { IfOk result (λ area. area.file ≡ file) }
{
    match file.length() {
        Ok(size) => Ok(FileArea { file, size }),
        Err(_) => Err(DeviceFault::Failed),
    }
}

impl Area for FileArea {
    ghost size = { λ area. area.size };

    ghost faults = { λ area. area.file.faults };

    ghost told = { λ _. None };

    ghost orderly = { λ _. tt };

    ghost counted = { λ _. tt };

    fn length(&self) -> u64 {
        self.size
    }

    fn read(&mut self, at: u64, into: &mut [u8]) -> Result<(), DeviceFault> {
        match self.file.read(at, into) {
            Ok(()) => Ok(()),
            Err(Failed) => Err(DeviceFault::Failed),
        }
    }

    fn write(&mut self, at: u64, bytes: &[u8]) -> Result<(), DeviceFault> {
        let Some(end) = at.checked_add(bytes.len() as u64) else {
            self.file.refuse();
            return Err(DeviceFault::Failed);
        };
        match self.file.write(at, bytes) {
            Ok(()) => {
                self.size = self.size.max(end);
                Ok(())
            }
            Err(Failed) => Err(DeviceFault::Failed),
        }
    }

    fn flush(&mut self) -> Result<(), DeviceFault> {
        match self.file.sync() {
            Ok(()) => Ok(()),
            Err(Failed) => Err(DeviceFault::Failed),
        }
    }
}
