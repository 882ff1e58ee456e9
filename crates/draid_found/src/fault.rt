use draid_record::RecordFaultKind;

/// Why the blocks of some metaslabs aren't those of one pool.
#[derive(Clone, Copy)]
pub enum FoundFault {
    /// What begins at byte `at` of a metaslab's record doesn't go with the records before it.
    Record {
        metaslab: u32,
        at: u64,
        kind: RecordFaultKind,
    },
    NoMemory,
}
