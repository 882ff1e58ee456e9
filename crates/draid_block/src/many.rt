//! The bytes of many blocks, solved side by side.
ghost use Rattle.std.specs.Prelude.{All, IfOk};
ghost use Rattle.std.specs.List.{AllZip};
ghost use Rattle.draid_spec.specs.Geometry.{IsGeometry};
ghost use Rattle.draid_block.specs.Blocks.{cut_of};
ghost use Rattle.draid_block.specs.Many.{IsSolved};
ghost use Rattle.draid_block.specs.Solving.{IsFetched};

use crate::solve::{Fetched, SolveFault, solve_block};
use draid_names::NoMemory;
use draid_spec::Geometry;
use rayon::prelude::*;
use std::alloc::Global;
use std::thread::Threads;

/// The answer for a block.
#[derive(Drop, PartialEq, Eq)]
pub enum Solve {
    Bytes(Vec<u8>),
    /// No set of missing columns restores bytes with the block's digest.
    Unreadable {
        /// How many columns are absent.
        absent: u32,
        /// How many sets of missing columns were tried.
        tried: u64,
    },
}

/// The answer of `solve_block`.
fn solve_one(alloc: Global, geometry: &Geometry, fetched: &Fetched) -> Result<Solve, NoMemory>
    requires geometry { IsGeometry geometry.now }
    requires fetched { IsFetched (cut_of geometry.now) fetched.now }
    ensures { IfOk result (IsSolved (cut_of geometry.now) fetched.now) }
{
    match solve_block(alloc, geometry, fetched) {
        Ok(bytes) => Ok(Solve::Bytes(bytes)),
        Err(SolveFault::Unreadable { absent, tried }) => Ok(Solve::Unreadable { absent, tried }),
        Err(SolveFault::NoMemory) => Err(NoMemory),
    }
}

/// The answers of `solve_block` for these blocks, in order, from as many threads as there are
/// processors.
pub fn solve_many(
    rt: &(impl Threads + Sync),
    alloc: Global,
    geometry: &Geometry,
    fetched: &[Fetched],
) -> Result<Vec<Solve>, NoMemory>
    requires geometry { IsGeometry geometry.now }
    requires fetched { All (IsFetched (cut_of geometry.now)) fetched.now }
    ensures answers { IfOk result (λ v. AllZip (IsSolved (cut_of geometry.now))
        fetched.now v.items) }
{
    // A block is worth a thread of its own.
    fetched
        .par_iter()
        .with_min_len(1)
        .map(
            |block: &Fetched| -> Result<Solve, NoMemory>
                requires geometry { IsGeometry geometry.now }
                requires fetched { IsFetched (cut_of geometry.now) block.now }
                ensures { IfOk result (IsSolved (cut_of geometry.entry.now) block.now) }
            { solve_one(alloc, geometry, block) },
        )
        .collect::<Result<Vec<Solve>, NoMemory>>(rt, alloc)?
}
