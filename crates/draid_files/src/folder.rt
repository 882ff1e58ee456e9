//! The folder of a pool, as the system has it. What the system makes, opens, lists, removes and locks by a name is trusted,
//! and no clause says it.
ghost use Rattle.std.specs.Prelude.{◌≡◌, IfOk};

use crate::device::DeviceFile;
use crate::name::FileName;
use draid_names::DeviceFault;
use std::alloc::{AllocError, Global};
use std::fs::{self, File, OpenOptions};
use std::io::{self, ErrorKind};

/// A folder, of which only the files of a pool are used.
#[derive(Drop)]
pub(crate) struct Folder {
    rt: HostRuntime,
    path: String,
}

impl Folder {
    pub(crate) fn new(rt: HostRuntime, path: String) -> Folder
        ensures { result.path ≡ path }
    {
        Folder { rt, path }
    }

    /// The same folder once more.
    pub(crate) fn share(&self) -> Result<Folder, AllocError> {
        Ok(Folder {
            rt: self.rt,
            path: self.path.clone()?,
        })
    }

    pub(crate) fn alloc(&self) -> Global {
        self.rt.alloc()
    }

    fn path_of(&self, name: FileName) -> Result<String, AllocError> {
        let folder = self.path.as_str();
        let name = name.text(self.alloc())?;
        format!(in self.alloc(); "{folder}/{name}")
    }

    /// Whether a file may have this name: false only where the system says that none has.
    pub(crate) fn may_have(&self, name: FileName) -> bool {
        match self.path_of(name) {
            Ok(path) => match fs::symlink_metadata(&self.rt, path.as_str()) {
                Ok(_) => true,
                Err(error) => !matches!(
                    error.kind(),
                    ErrorKind::NotFound | ErrorKind::NotADirectory
                ),
            },
            Err(_) => true,
        }
    }

    /// Makes a file of so many zero bytes, where none has this name, and has the disk take it.
    pub(crate) fn make(&self, name: FileName, bytes: u64) -> Result<DeviceFile, DeviceFault>
        ensures { IfOk result (λ file. file.faults ≡ 0) }
    {
        let path = self.path_of(name)?;
        let opened = OpenOptions::new()
            .read(true)
            .write(true)
            .create_new(true)
            .open(&self.rt, path.as_str());
        let file = DeviceFile::new(answered(opened)?);
        answered(file.lengthen(bytes))?;
        Ok(file)
    }

    /// Opens a file, and has the disk take it.
    pub(crate) fn open(&self, name: FileName) -> Result<DeviceFile, DeviceFault>
        ensures { IfOk result (λ file. file.faults ≡ 0) }
    {
        let path = self.path_of(name)?;
        let opened = OpenOptions::new()
            .read(true)
            .write(true)
            .open(&self.rt, path.as_str());
        let file = DeviceFile::new(answered(opened)?);
        answered(file.settle())?;
        Ok(file)
    }

    /// Opens the file of the uberblock's area, and has the disk take it as it is read, whatever became of an earlier run: a
    /// copy that the disk has takes its place. Where no copy can be made, as on a full disk, its bytes are written again where
    /// they are.
    pub(crate) fn open_uber(&self) -> Result<DeviceFile, DeviceFault>
        ensures { IfOk result (λ file. file.faults ≡ 0) }
    {
        let file = self.open(FileName::Uber)?;
        let bytes = answered(file.content(self.alloc()))?;
        match self.make_copy(&bytes) {
            Ok(copy) => {
                self.put_copy()?;
                Ok(copy)
            }
            Err(DeviceFault::Failed) => {
                self.remove_copy()?;
                answered(file.renew(&bytes))?;
                Ok(file)
            }
            Err(DeviceFault::NoMemory) => Err(DeviceFault::NoMemory),
        }
    }

    /// Makes a copy of the uberblock's area with these bytes, in place of one that a killed run left.
    fn make_copy(&self, bytes: &[u8]) -> Result<DeviceFile, DeviceFault>
        ensures { IfOk result (λ file. file.faults ≡ 0) }
    {
        self.remove_copy()?;
        let copy = self.make(FileName::UberCopy, 0)?;
        answered(copy.renew(bytes))?;
        Ok(copy)
    }

    /// Removes such a copy, where one is there.
    fn remove_copy(&self) -> Result<(), DeviceFault> {
        if self.may_have(FileName::UberCopy) {
            self.remove(FileName::UberCopy)?;
        }
        Ok(())
    }

    /// Puts the copy of the uberblock's area in its place.
    fn put_copy(&self) -> Result<(), DeviceFault> {
        let copy = self.path_of(FileName::UberCopy)?;
        let uber = self.path_of(FileName::Uber)?;
        answered(fs::rename(&self.rt, copy.as_str(), uber.as_str()))?;
        self.sync()
    }

    /// Removes a file.
    pub(crate) fn remove(&self, name: FileName) -> Result<(), DeviceFault> {
        let path = self.path_of(name)?;
        answered(fs::remove_file(&self.rt, path.as_str()))
    }

    /// Has the disk take which files there are.
    pub(crate) fn sync(&self) -> Result<(), DeviceFault> {
        let folder = answered(fs::open(&self.rt, self.path.as_str()))?;
        answered(folder.sync_all())
    }

    /// Locks the folder until the answer is dropped, where nobody has locked it, and has the disk take which files there are.
    pub(crate) fn lock(&self) -> Result<File, DeviceFault> {
        let folder = answered(fs::open(&self.rt, self.path.as_str()))?;
        if folder.try_lock().is_err() {
            return Err(DeviceFault::Failed);
        }
        answered(folder.sync_all())?;
        Ok(folder)
    }

    /// The files of a pool that are there.
    pub(crate) fn files(&self) -> Result<Vec<FileName>, DeviceFault> {
        let mut files = Vec::new(self.alloc());
        for entry in answered(fs::read_dir(&self.rt, self.path.as_str()))? {
            match entry {
                Ok(entry) => {
                    if let Some(name) = FileName::of(self.alloc(), entry.file_name())? {
                        files.push(name)?;
                    }
                }
                // A name that is no text is none of a pool's.
                Err(error) if error.kind() == ErrorKind::InvalidFilename => {}
                Err(error) => return answered(Err(error)),
            }
        }
        Ok(files)
    }
}

/// What the system answered, as a device's answer.
fn answered<T: Drop>(answer: io::Result<T>) -> Result<T, DeviceFault> {
    match answer {
        Ok(value) => Ok(value),
        Err(error) if error.kind() == ErrorKind::OutOfMemory => Err(DeviceFault::NoMemory),
        Err(_) => Err(DeviceFault::Failed),
    }
}
