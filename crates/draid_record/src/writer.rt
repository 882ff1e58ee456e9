ghost use Rattle.std.specs.Prelude.{◌≡◌, ◌≤◌, ◌<◌, Some, [], IfOk};
ghost use Rattle.byteorder.specs.Endian.{big_bytes};
ghost use Rattle.draid_record.specs.Writer.{Writes, text_of};

use draid_names::NoMemory;
use std::alloc::Global;

/// Bytes that are written one behind the other, as long as there is memory.
#[derive(Drop)]
pub(crate) struct Writer {
    bytes: Vec<u8>,
    is_short: bool,
}

impl Writer {
    pub(crate) fn new(alloc: Global) -> Writer
        ensures { text_of result ≡ Some [] }
    {
        Writer {
            bytes: Vec::new(alloc),
            is_short: false,
        }
    }

    /// A writer with room for so many bytes.
    pub(crate) fn with_room(alloc: Global, room: usize) -> Result<Writer, NoMemory>
        ensures { IfOk result (λ writer. text_of writer ≡ Some []) }
    {
        Ok(Writer {
            bytes: Vec::with_capacity(alloc, room)?,
            is_short: false,
        })
    }

    pub(crate) fn add(&mut self, bytes: &[u8])
        ensures { Writes (text_of self.old) (text_of self.new) bytes.now }
    {
        if self.is_short {
            return;
        }
        self.is_short = self.bytes.extend_from_slice(bytes).is_err();
    }

    /// Adds the lowest bytes of a number, the highest of them first.
    pub(crate) fn put(&mut self, width: usize, number: u64)
        requires { (1 ≤ width) × (width ≤ 8) }
        ensures { Writes (text_of self.old) (text_of self.new) (big_bytes width number) }
    {
        let bytes = number.to_be_bytes();
        self.add(&bytes[8 - width..]);
    }

    /// What was written.
    pub(crate) fn done(self) -> Result<Vec<u8>, NoMemory>
        ensures { IfOk result (λ bytes. text_of self ≡ Some bytes.items) }
    {
        if self.is_short {
            return Err(NoMemory);
        }
        Ok(self.bytes)
    }
}
