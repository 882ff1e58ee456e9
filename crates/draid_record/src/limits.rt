/// What the ranges of a record's fields go by.
#[derive(Clone, Copy)]
pub struct Limits {
    /// The version of the uberblock.
    pub version: u32,
    pub children: u32,
    pub spares: u64,
    /// The number of the next new leaf.
    pub next_leaf: u64,
    pub metaslab: u32,
    pub group: u64,
    /// The stripes of the metaslab.
    pub stripes: u64,
    pub height: u64,
    /// The bytes of a sector.
    pub sector: u64,
    pub ndata: u64,
}
