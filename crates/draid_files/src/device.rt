//! One open file, as the system gives it. What it holds is trusted, and no clause says it.
ghost use Rattle.std.specs.Prelude.{◌≡◌, ◌≤◌, length};
ghost use Rattle.draid_names.specs.Faults.{HasCause, Rose};

use draid_names::Failed;
use std::alloc::Global;
use std::fs::File;
use std::io;
use std::os::unix::fs::FileExt;

/// An open file, and how often calls on it have failed.
#[derive(Drop)]
pub(crate) struct DeviceFile {
    file: File,
    /// Whether it was written since the last sync.
    is_soft: bool,
    /// Whether a sync has failed. The system may have let go of what was written, so that a later sync would succeed and
    /// show nothing.
    is_lost: bool,
    /// The count stands still at 2^64 - 1.
    pub faults: u64,
}

impl DeviceFile {
    /// A file on which no call has failed.
    pub(crate) fn new(file: File) -> DeviceFile
        ensures { result.faults ≡ 0 }
    {
        DeviceFile {
            file,
            is_soft: false,
            is_lost: false,
            faults: 0,
        }
    }

    /// How many bytes it has.
    pub(crate) fn length(&self) -> io::Result<u64> {
        Ok(self.file.metadata()?.len())
    }

    /// Gives it so many bytes, of which new ones are zero, and has the disk take that.
    pub(crate) fn lengthen(&self, bytes: u64) -> io::Result<()> {
        self.file.set_len(bytes)?;
        self.file.sync_all()
    }

    /// Has the disk take what an earlier run wrote.
    pub(crate) fn settle(&self) -> io::Result<()> {
        self.file.sync_all()
    }

    /// All its bytes. After a sync that failed in an earlier run the system may have some of them in memory alone, and take
    /// them for written.
    pub(crate) fn content(&self, alloc: Global) -> io::Result<Vec<u8>> {
        let mut bytes = vec![in alloc; 0; self.length()? as usize]?;
        self.file.read_exact_at(&mut bytes, 0)?;
        Ok(bytes)
    }

    /// Writes these as its bytes, and has the disk take them.
    pub(crate) fn renew(&self, bytes: &[u8]) -> io::Result<()> {
        self.file.write_all_at(bytes, 0)?;
        self.file.sync_all()
    }

    /// Fills `into` with the bytes from there on.
    pub(crate) fn read(&mut self, at: u64, into: &mut [u8]) -> Result<(), Failed>
        ensures whole { length into.new ≡ length into.old }
        ensures cause { HasCause self.old.faults self.new.faults result }
    {
        let done = self.file.read_exact_at(into, at);
        self.counted(done)
    }

    /// Writes bytes from there on.
    pub(crate) fn write(&mut self, at: u64, bytes: &[u8]) -> Result<(), Failed>
        ensures { HasCause self.old.faults self.new.faults result }
    {
        self.is_soft = true;
        let done = self.file.write_all_at(bytes, at);
        self.counted(done)
    }

    /// Has the disk take what was written since the last sync. Where that fails once, it fails from then on.
    pub(crate) fn sync(&mut self) -> Result<(), Failed>
        ensures { HasCause self.old.faults self.new.faults result }
    {
        if self.is_lost {
            return Err(self.refuse());
        }
        if !self.is_soft {
            return Ok(());
        }
        let done = self.file.sync_data();
        self.is_soft = false;
        self.is_lost = done.is_err();
        self.counted(done)
    }

    /// Counts a failure of a call for which the system isn't asked.
    pub(crate) fn refuse(&mut self) -> Failed
        ensures rose { Rose self.old.faults self.new.faults }
        ensures later { self.old.faults ≤ self.new.faults }
    {
        self.faults = self.faults.saturating_add(1);
        Failed
    }

    /// Counts a failure, where there was one.
    fn counted(&mut self, done: io::Result<()>) -> Result<(), Failed>
        ensures { HasCause self.old.faults self.new.faults result }
    {
        match done {
            Ok(()) => Ok(()),
            Err(_) => Err(self.refuse()),
        }
    }
}
