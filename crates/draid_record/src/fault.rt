ghost use Rattle.std.specs.Prelude.{◌≡◌};
ghost use Rattle.draid_record.specs.Reading.{placed};

use thiserror::Error;

/// What is wrong with a record or an uberblock, with its number in brackets. A reader tells the first three; the others are
/// those of a record that was read, to the rack and beside the records of other metaslabs.
#[derive(Clone, Copy, Debug, PartialEq, Eq, Error)]
pub enum RecordFaultKind {
    /// Fewer bytes are left than the field is wide (1).
    #[error("a field that is cut")]
    Cut,
    /// The field is out of its range, or a test blames it (2).
    #[error("a field out of its range")]
    Range,
    /// The record's length goes on behind the last field (3).
    #[error("bytes behind the last field")]
    Trailing,
    /// The arms aren't those of the first metaslab (4).
    #[error("other arms than the first metaslab's")]
    Arms,
    /// A block before this one has its object and number (5).
    #[error("a block that stands twice")]
    Twice,
    /// The rack lacks the leaf, or has it with another number of sectors (6).
    #[error("a leaf that isn't there")]
    Leaf,
}

impl RecordFaultKind {
    ghost use Rattle.draid_record.specs.Kind.{kind_number};

    /// The number by which it is printed.
    pub fn number(self) -> u8
        ensures { result ≡ kind_number self }
    {
        match self {
            RecordFaultKind::Cut => 1,
            RecordFaultKind::Range => 2,
            RecordFaultKind::Trailing => 3,
            RecordFaultKind::Arms => 4,
            RecordFaultKind::Twice => 5,
            RecordFaultKind::Leaf => 6,
        }
    }
}

/// Why a record or an uberblock wasn't read.
#[derive(Clone, Copy, Debug, PartialEq, Eq, Error)]
pub enum RecordFault {
    /// The first field that has a fault begins at byte `at`; where bytes are left behind the last field, they begin there.
    #[error("{kind}, at byte {at}")]
    Bad { at: u64, kind: RecordFaultKind },
    #[error("no memory")]
    NoMemory,
}

/// A fault of a field: how many bytes are left from the field on, and its kind.
#[derive(Clone, Copy)]
pub(crate) struct Fault {
    pub left: usize,
    pub kind: RecordFaultKind,
}

impl Fault {
    /// The fault in a text of so many bytes.
    pub(crate) fn within(self, len: usize) -> RecordFault
        ensures { result ≡ placed len self }
    {
        RecordFault::Bad {
            at: len.saturating_sub(self.left) as u64,
            kind: self.kind,
        }
    }
}
