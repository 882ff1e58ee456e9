use draid_names::{Arm, PassKind};

/// What `status` tells of a pool.
#[derive(Drop)]
pub struct View {
    /// The pool's name.
    pub name: String,
    /// The committed group.
    pub group: u64,
    /// The greatest of the metaslabs' open groups.
    pub open_group: u64,
    /// How many objects the pool holds.
    pub objects: u64,
    /// The arms of each child slot, in the order of attachment.
    pub slots: Vec<Vec<ArmView>>,
    /// The metaslabs by number.
    pub metaslabs: Vec<MetaslabView>,
}

/// An arm of a child slot.
#[derive(Drop)]
pub struct ArmView {
    pub arm: Arm,
    /// The name of a spare; empty for a leaf.
    pub spare_name: String,
    /// How many groups stand in the arm's logs, summed over the metaslabs.
    pub logged: u64,
}

/// A metaslab.
#[derive(Clone, Copy)]
pub struct MetaslabView {
    /// How many stripes are free.
    pub free: u64,
    /// How many blocks are live.
    pub blocks: u64,
    /// The pass that runs or waits here.
    pub pass: Option<PassView>,
}

/// A pass over a metaslab.
#[derive(Clone, Copy)]
pub struct PassView {
    pub number: u64,
    pub kind: PassKind,
    /// The stripe that comes next, counted within the metaslab.
    pub at: u64,
    pub errors: u64,
}
