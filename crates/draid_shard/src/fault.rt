/// Why a metaslab takes no new block.
#[derive(Clone, Copy, PartialEq, Eq)]
pub enum Shut {
    /// A rebuild has it.
    Disabled,
    /// It holds as many blocks and open writes as it may.
    Full,
    /// Its limit of events leaves none for a block.
    Worn,
}
