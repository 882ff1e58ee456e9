/// The longest run of stripes that a metaslab has for a new block, and what the block needs.
#[derive(Clone, Copy)]
pub struct Room {
    pub metaslab: u32,
    /// The longest run of free stripes within one group; 0 where the metaslab takes no new block.
    pub run: u64,
    /// How many consecutive stripes the block takes.
    pub need: u64,
}
