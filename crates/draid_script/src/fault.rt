ghost use Rattle.std.specs.Prelude.{◌≡◌};
ghost use Rattle.draid_script.specs.declared.fault.ParseFault.TheVariants.{NoMemory as no_memory};

use draid_names::NoMemory;
use std::alloc::{AllocError, AllocFailed};
use thiserror::Error;

/// What is wrong with a line, with its number in brackets.
#[derive(Clone, Copy, Debug, PartialEq, Eq, Error)]
pub enum LineFaultKind {
    /// The first word is that of no command (1).
    #[error("unknown command")]
    Unknown,
    /// There are too few or too many words (2).
    #[error("wrong number of words")]
    Count,
    /// A word is no number, no `key=value` or no name (3).
    #[error("no number, no setting or no name")]
    Number,
    /// A word is no hex (4).
    #[error("no hex")]
    Hex,
    /// A number is out of its range (5).
    #[error("number out of range")]
    Range,
    /// The line may not stand there (6).
    #[error("not allowed here")]
    Lane,
}

impl LineFaultKind {
    ghost use Rattle.draid_script.specs.Fault.{kind_number};

    /// The number by which it is printed.
    pub fn number(self) -> u8
        ensures { result ≡ kind_number self }
    {
        match self {
            LineFaultKind::Unknown => 1,
            LineFaultKind::Count => 2,
            LineFaultKind::Number => 3,
            LineFaultKind::Hex => 4,
            LineFaultKind::Range => 5,
            LineFaultKind::Lane => 6,
        }
    }
}

/// Why a text is no line.
#[derive(Clone, Copy, Debug, Error)]
#[error("{kind} at byte {at}")]
pub struct LineFault {
    pub kind: LineFaultKind,
    /// The place in the line, from 0 on: of the first byte of the word; for a wrong count the line's length; for a word
    /// that is no hex that of the byte which is no hex digit, else the line's length.
    pub at: u64,
}

/// Why no line was read.
#[derive(Clone, Copy, Debug, Error)]
pub enum ParseFault {
    /// The first fault of the line.
    #[error(transparent)]
    Line(LineFault),
    /// Want of memory.
    #[error("no memory")]
    NoMemory,
}

impl ParseFault {
    ghost use Rattle.draid_script.specs.declared.fault.ParseFault.TheVariants.{Line};
    ghost use Rattle.draid_script.specs.Fault.{fault};

    /// A fault of the line.
    pub(crate) fn line(kind: LineFaultKind, at: u64) -> ParseFault
        ensures { result ≡ Line (fault kind at) }
    {
        ParseFault::Line(LineFault { kind, at })
    }
}

impl From<NoMemory> for ParseFault {
    ghost from_gives = { λ _ fault. fault ≡ no_memory };

    fn from(_error: NoMemory) -> ParseFault {
        ParseFault::NoMemory
    }
}

impl From<AllocError> for ParseFault {
    ghost from_gives = { λ _ fault. fault ≡ no_memory };

    fn from(_error: AllocError) -> ParseFault {
        ParseFault::NoMemory
    }
}

impl<T: Drop> From<AllocFailed<T>> for ParseFault {
    ghost from_gives = { λ _ fault. fault ≡ no_memory };

    fn from(_error: AllocFailed<T>) -> ParseFault {
        ParseFault::NoMemory
    }
}
