ghost use Rattle.std.specs.Prelude.{◌≡◌, IfOk, IfSome, IfNone, string_bytes};
ghost use Rattle.draid_exits.specs.Status.{HasNumber, fixed_text, last_text};

use draid_record::RecordFaultKind;
use draid_script::LineFaultKind;
use std::alloc::{AllocError, Global};

/// Which record has a fault to an import.
#[derive(Clone, Copy, PartialEq, Eq)]
pub enum RecordName {
    /// The slot of the uberblock.
    Uber,
    /// The record of this metaslab.
    Metaslab(u32),
    /// The check record.
    Check,
}

/// What a run came to, with the program's exit status in brackets.
#[derive(Clone, Copy, PartialEq, Eq)]
pub enum Status {
    /// The script was read to its end (0).
    Done,
    /// The words don't ask for a session (1).
    Usage,
    /// This line, counted from 1, has its first fault at this place (2).
    Line {
        line: u64,
        kind: LineFaultKind,
        at: u64,
    },
    /// The source failed (3).
    SourceFault,
    /// The sink failed (4).
    SinkFault,
    /// The words, a line or the text of a reply could not be held for want of memory (5).
    NoMemory,
    /// This line has more than 300,000 bytes, or is more than the 1,048,576 lines of a script (6).
    TooLong {
        line: u64,
    },
    /// A call of the shelf, or on an area of a pool, failed (7).
    ShelfFault,
    /// What has the first fault begins at byte `at` of this record (8).
    Record {
        name: RecordName,
        at: u64,
        kind: RecordFaultKind,
    },
}

impl Status {
    ghost use Rattle.draid_exits.specs.Status.{code_of};

    /// The program's exit status.
    pub fn code(&self) -> u8
        ensures { result ≡ code_of self.now }
    {
        match self {
            Status::Done => 0,
            Status::Usage => 1,
            Status::Line { .. } => 2,
            Status::SourceFault => 3,
            Status::SinkFault => 4,
            Status::NoMemory => 5,
            Status::TooLong { .. } => 6,
            Status::ShelfFault => 7,
            Status::Record { .. } => 8,
        }
    }
}

/// The line that is printed last where a line of the script can't be run.
fn line_refused(
    alloc: Global,
    line: u64,
    kind: LineFaultKind,
    at: u64,
) -> Result<String, AllocError>
    ensures { IfOk result (λ text. string_bytes text ≡ last_text (Status.Line line kind at)) }
{
    let number = kind.number();
    format!(in alloc; "line {line} fault={number} at={at}\n")
}

/// The line that is printed last where a line of the script is too long.
fn line_too_long(alloc: Global, line: u64) -> Result<String, AllocError>
    ensures { IfOk result (λ text. string_bytes text ≡ last_text (Status.TooLong line)) }
{
    format!(in alloc; "line {line} too long\n")
}

/// The line that is printed last where the record of a metaslab has a fault.
fn metaslab_refused(
    alloc: Global,
    metaslab: u32,
    at: u64,
    kind: RecordFaultKind,
) -> Result<String, AllocError>
    ensures { IfOk result (λ text. string_bytes text ≡ last_text (Status.Record (RecordName.Metaslab metaslab) at kind)) }
{
    let number = kind.number();
    format!(in alloc; "record metaslab={metaslab} at={at} kind={number}\n")
}

/// The line that is printed last where the uberblock's slot has a fault.
fn uber_refused(alloc: Global, at: u64, kind: RecordFaultKind) -> Result<String, AllocError>
    ensures { IfOk result (λ text. string_bytes text ≡ last_text (Status.Record RecordName.Uber at kind)) }
{
    let number = kind.number();
    format!(in alloc; "record uber at={at} kind={number}\n")
}

/// The line that is printed last where the check record has a fault.
fn check_refused(alloc: Global, at: u64, kind: RecordFaultKind) -> Result<String, AllocError>
    ensures { IfOk result (λ text. string_bytes text ≡ last_text (Status.Record RecordName.Check at kind)) }
{
    let number = kind.number();
    format!(in alloc; "record check at={at} kind={number}\n")
}

/// The line that is printed last where a record has a fault.
fn record_refused(
    alloc: Global,
    name: RecordName,
    at: u64,
    kind: RecordFaultKind,
) -> Result<String, AllocError>
    ensures { IfOk result (λ text. string_bytes text ≡ last_text (Status.Record name at kind)) }
{
    match name {
        RecordName::Uber => uber_refused(alloc, at, kind),
        RecordName::Metaslab(metaslab) => metaslab_refused(alloc, metaslab, at, kind),
        RecordName::Check => check_refused(alloc, at, kind),
    }
}

/// The line that is printed last, its end included, where it names a number.
pub fn numbered_line(alloc: Global, status: Status) -> Option<Result<String, AllocError>>
    ensures some { IfSome result (λ line. IfOk line (λ text. string_bytes text ≡ last_text status)) }
    ensures number { IfSome result (λ line. HasNumber status) }
    ensures none { IfNone result (last_text status ≡ fixed_text status) }
{
    match status {
        Status::Line { line, kind, at } => Some(line_refused(alloc, line, kind, at)),
        Status::TooLong { line } => Some(line_too_long(alloc, line)),
        Status::Record { name, at, kind } => Some(record_refused(alloc, name, at, kind)),
        _ => None,
    }
}

/// The line that is printed last, its end included, where it names no number; nothing where none is printed.
pub fn fixed_line(status: Status) -> &'static str
    ensures { result.now ≡ fixed_text status }
{
    match status {
        Status::Usage => "usage: dzpool session [--dir DIR] or dzpool workload NUMBER\n",
        Status::SourceFault => "source fault\n",
        Status::NoMemory => "no memory\n",
        Status::ShelfFault => "shelf fault\n",
        _ => "",
    }
}
