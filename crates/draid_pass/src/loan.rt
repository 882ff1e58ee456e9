use draid_names::{ArmAt, Pointer};

/// What was read of one column on one arm.
#[derive(Drop)]
pub struct Reading {
    pub at: ArmAt,
    /// The column, from 0.
    pub column: u32,
    /// One sector for a stripe, one sector for each stripe of a block.
    pub bytes: Vec<u8>,
    /// Whether the column is taken from this arm.
    pub chosen: bool,
}

/// A stripe (rebuild) or a block (scrub) that a pass lends out.
#[derive(Drop)]
pub struct Loan {
    /// The number of the pass.
    pub pass: u64,
    /// The number of the loan since the metaslab was opened, from 1. The last one counts.
    pub serial: u64,
    /// The stripe, or the block's first stripe at or above the place where the pass stands.
    pub stripe: u64,
    /// The block, exactly where the pass is a scrub.
    pub pointer: Option<Pointer>,
    /// What was read. A reading that failed isn't listed.
    pub readings: Vec<Reading>,
}

/// A loan with the columns that were restored from its readings.
#[derive(Drop)]
pub struct Solved {
    pub loan: Loan,
    /// All columns of the stripe or the block; None exactly where they can't be restored.
    pub columns: Option<Vec<Vec<u8>>>,
}
