use draid_area::Area;
use draid_rack::Rack;
use draid_record::RecordFaultKind;
use draid_shelf::Kit;

/// Why no pool was imported.
#[derive(Clone, Copy)]
pub enum ImportFault {
    /// The shelf has no pool, or no gate of its uberblock is open.
    NoPool,
    /// What has the first fault begins at byte `at`: of a metaslab's record, or of the uberblock's slot.
    Record {
        metaslab: Option<u32>,
        at: u64,
        kind: RecordFaultKind,
    },
    /// The check record of the group has its first fault at byte `at`: that of a field, or a block that it names and no metaslab
    /// has, born up to the checkpoint.
    Check {
        at: u64,
        kind: RecordFaultKind,
    },
    /// The shelf failed.
    Shelf,
    NoMemory,
}

/// A metaslab wasn't opened; its devices come back.
#[derive(Drop)]
pub struct OpenRefused<R: Rack, A: Area> {
    pub kit: Kit<R, A>,
    pub why: OpenFault,
}

/// Why a metaslab isn't opened.
#[derive(Clone, Copy, PartialEq, Eq)]
pub enum OpenFault {
    /// A call on the area of the group's record failed.
    Area,
    /// The first fault of the record, at this byte: that of a field, or bytes behind the last one; else the number of a leaf
    /// arm that the rack doesn't have with the metaslab's sectors; else a block whose object and seq a block before it has.
    Record { at: u64, kind: RecordFaultKind },
    NoMemory,
}
