/// What an arm of a child slot is.
#[derive(Clone, Copy)]
pub enum ArmKind {
    /// A disk.
    Leaf,
    /// A distributed spare.
    Spare,
}

/// A disk or a distributed spare that keeps the columns of a child slot.
#[derive(Clone, Copy)]
pub struct Arm {
    pub kind: ArmKind,
    /// The leaf's number below 2^48, or that of the spare.
    pub number: u64,
    /// Whether the leaf is offline. False for a spare, whose leaves answer for it.
    pub offline: bool,
    /// Whether no pass has ended without error since the attachment with this arm among its targets.
    pub fresh: bool,
}

/// An arm by its slot and its place in the order of attachment there.
#[derive(Clone, Copy, PartialEq, Eq)]
pub struct ArmAt {
    pub slot: u32,
    pub arm: u32,
}

/// A sector of a leaf.
#[derive(Clone, Copy, PartialEq, Eq)]
pub struct At {
    pub leaf: u64,
    pub sector: u64,
}
