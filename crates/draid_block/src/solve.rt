//! The bytes of a block from the columns that were read of it.
ghost use Rattle.std.specs.Prelude.{◌≡◌, ℕ, List};
ghost use Rattle.draid_spec.specs.Geometry.{IsGeometry};
ghost use Rattle.draid_block.specs.Blocks.{cut_of};
ghost use Rattle.draid_block.specs.Solving.{AnswersDigest, IsAnswered, IsFetched, IsReadable, SolvesBlock};

use crate::search::{absent_of, solve_absent};
use draid_names::Pointer;
use draid_spec::Geometry;
use std::alloc::{AllocError, Global};

/// What was read of a block: its pointer, and each column's bytes, or nothing where it is absent.
#[derive(Drop)]
pub struct Fetched {
    pub pointer: Pointer,
    pub columns: Vec<Option<Vec<u8>>>,
}

/// Why a block has no answer.
#[derive(Clone, Copy, PartialEq, Eq)]
pub enum SolveFault {
    /// No set of missing columns restores bytes with the block's digest.
    Unreadable {
        /// How many columns are absent.
        absent: u32,
        /// How many sets of missing columns were tried.
        tried: u64,
    },
    NoMemory,
}

impl From<AllocError> for SolveFault {
    ghost use Rattle.draid_block.specs.declared.solve.SolveFault.TheVariants.{NoMemory};

    ghost from_gives = { λ _ fault. fault ≡ NoMemory };

    fn from(_error: AllocError) -> SolveFault {
        SolveFault::NoMemory
    }
}

/// The bytes of a block, known by the digest of its pointer: those that the first set of missing
/// columns restores that has this digest. The sets have all absent columns and at most as many
/// members as there are parity columns; they are taken by size and then in lexicographic order.
#[tactic(auto, using(crate::proofs::Solves::few_columns, crate::proofs::Solves::has_digest))]
pub fn solve_block(
    alloc: Global,
    geometry: &Geometry,
    fetched: &Fetched,
) -> Result<Vec<u8>, SolveFault>
    requires geometry { IsGeometry geometry.now }
    requires fetched { IsFetched (cut_of geometry.now) fetched.now }
    ensures solves { SolvesBlock (cut_of geometry.now) fetched.now result }
    ensures digest { AnswersDigest fetched.now result }
    ensures readable { (w bad : List ℕ) → IsReadable (cut_of geometry.now) fetched.now w bad
        → IsAnswered result }
{
    let absent = absent_of(alloc, &fetched.columns)?;
    solve_absent(alloc, geometry, fetched, &absent)
}
