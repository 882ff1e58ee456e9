use draid_names::{ArmAt, PassKind};

/// A pass over one metaslab: a sequential rebuild or a scrub.
#[derive(Drop)]
pub struct Pass {
    /// The number of the pass in its metaslab, 1 to 2^48 - 1.
    pub number: u64,
    pub kind: PassKind,
    /// The arms that it brings up to date and hasn't lost, ascending by slot and place.
    pub targets: Vec<ArmAt>,
    /// The last transaction group that it makes good, below 2^48.
    pub max: u64,
    /// The stripe of the metaslab at which it goes on.
    pub at: u64,
    /// What went wrong so far; it stands still at 2^48 - 1.
    pub errors: u64,
    /// False for a rebuild that is planned and waits.
    pub running: bool,
}
