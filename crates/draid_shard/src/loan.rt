ghost use Rattle.std.specs.Prelude.{◌≡◌};
ghost use Rattle.draid_shard.specs.Loans.{loan_in};

use draid_block::Encoded;
use draid_machine::{ArmName, Patched};
use draid_names::Pointer;
use draid_parity::Stripe;
use std::alloc::Global;

/// An arm from which a column was taken, and the leaf on which it keeps that.
#[derive(Clone, Copy)]
pub struct Source {
    pub arm: ArmName,
    pub leaf: u64,
}

/// What a pass has lent out, and what was read of it: a rebuild a stripe, a scrub a block.
#[derive(Drop)]
pub enum KeptLoan {
    Stripe(LentStripe),
    Block(LentBlock),
}

/// A stripe of a block that a rebuild has lent out: what was read of it, and what was solved of that.
#[derive(Drop)]
pub struct LentStripe {
    /// The number of the loan since the opening.
    pub serial: u64,
    /// The stripe of the metaslab.
    pub stripe: u64,
    /// The block that has it.
    pub pointer: Pointer,
    /// Of each column the arm from which it was taken. None where it is missing.
    pub chosen: Vec<Option<Source>>,
    /// The columns that were taken, and the missing ones once they are solved.
    pub columns: Stripe,
    /// Room for the leaves on which the landing fails.
    pub failed: Vec<u64>,
    /// Room for the leaves on which the reading of a later stripe fails.
    pub faults: Vec<u64>,
}

/// A block that a scrub has lent out: what was read of it, and what was restored of that.
#[derive(Drop)]
pub struct LentBlock {
    /// The number of the loan since the opening.
    pub serial: u64,
    /// The stripe of the metaslab at which it was lent.
    pub stripe: u64,
    pub pointer: Pointer,
    /// The arms that were read, column by column.
    pub read: Vec<ReadArm>,
    /// Of each column the arm whose reading counts. None where it is missing.
    pub chosen: Vec<Option<ArmName>>,
    /// The readings that count.
    pub columns: Vec<Option<Vec<u8>>>,
    /// The block as it was restored. None until then, and where it can't be read.
    pub restored: Option<Encoded>,
    /// Room for the landing.
    pub room: LandingRoom,
    /// What the reading left, for the next loan.
    pub aside: ReadingRoom,
}

/// An arm from which a column was read.
#[derive(Clone, Copy)]
pub struct ReadArm {
    pub column: u32,
    pub arm: ArmName,
}

/// An arm of a block that answers: which column it keeps, on which leaf and from which sector on, and whether it is clean for
/// the block.
#[derive(Clone, Copy)]
pub struct Spot {
    pub column: u32,
    pub arm: ArmName,
    pub leaf: u64,
    pub first: u64,
    pub clean: bool,
}

/// What the reading of a block wants of memory besides what is kept of it.
#[derive(Drop)]
pub struct ReadingRoom {
    /// A buffer for readings that don't count.
    pub spare: Vec<u8>,
    /// Buffers that no column uses.
    pub buffers: Vec<Vec<u8>>,
    /// Room for the leaves on which calls fail.
    pub failed: Vec<u64>,
}

/// What the landing of a block wants of memory.
#[derive(Drop)]
pub struct LandingRoom {
    /// Room for the arms of the block.
    pub spots: Vec<Spot>,
    /// A sector.
    pub sector: Vec<u8>,
    /// For each arm room for its rows.
    pub parts: Vec<Patched>,
    /// Room for the arms that are noted.
    pub patched: Vec<Patched>,
    /// Room for the leaves on which calls fail.
    pub failed: Vec<u64>,
}

impl KeptLoan {
    /// The stripe of the metaslab at which it was lent.
    pub fn stripe(&self) -> u64
        ensures { result ≡ (loan_in self.now).stripe }
    {
        match self {
            KeptLoan::Stripe(lent) => lent.stripe,
            KeptLoan::Block(lent) => lent.stripe,
        }
    }
}

/// Takes out what is listed. The room of an empty list stays.
pub fn taken_out<T: Drop>(list: &mut Vec<T>, alloc: Global) -> Vec<T>
    ensures { result.items ≡ list.old.items }
{
    if list.is_empty() {
        return Vec::new(alloc);
    }
    std::mem::replace(list, Vec::new(alloc))
}

/// What a lend comes to: a stripe or a block was lent, or none is left.
#[derive(Clone, Copy, PartialEq, Eq)]
pub enum Lent {
    Unit,
    End,
}

/// Why none is lent, though one is left.
#[derive(Clone, Copy, PartialEq, Eq)]
pub enum LendFault {
    /// The limit leaves too few events; so many are stored or owed.
    Worn { events: u64 },
    NoMemory,
}
