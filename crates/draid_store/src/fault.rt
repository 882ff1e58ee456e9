use draid_blocks::{BeginFault, Missed};
use draid_names::ObjectFault;

/// Why no object was freed.
#[derive(Clone, Copy)]
pub enum FreeFault {
    /// It has no bytes.
    NoObject,
}

/// Why a block wasn't stored.
#[derive(Clone, Copy)]
pub enum StoreFault {
    /// No write was begun.
    Refused(BeginFault),
    /// Too many of its columns landed on no leaf.
    Missed(Missed),
}

/// The first of some objects that gives no bytes, and why.
#[derive(Clone, Copy)]
pub struct SumFault {
    pub object: u64,
    pub why: ObjectFault,
}

/// Why no sector was damaged.
#[derive(Clone, Copy)]
pub enum DamageFault {
    /// There is no such leaf, or it has no such sector.
    NoSuch,
    /// Its metaslab has too many events.
    Worn,
    /// The leaf failed.
    Failed,
    NoMemory,
}
