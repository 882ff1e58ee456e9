//! A block is restored from the columns that were read of it.
ghost use Rattle.std.specs.Prelude.{◌≡◌, ℕ, Err, List};
ghost use Rattle.draid_spec.specs.Geometry.{IsGeometry};
ghost use Rattle.draid_block.specs.Blocks.{cut_of};
ghost use Rattle.draid_block.specs.Solving.{IsFetched, IsReadable, RestoresBlock};

use crate::encoded::Encoded;
use crate::solve::{Fetched, SolveFault, solve_block};
use draid_names::NoMemory;
use draid_spec::Geometry;
use std::alloc::Global;

/// All columns of the block that `solve_block` finds. Its digest isn't computed again.
pub fn restore(alloc: Global, geometry: &Geometry, fetched: &Fetched) -> Result<Encoded, SolveFault>
    requires geometry { IsGeometry geometry.now }
    requires fetched { IsFetched (cut_of geometry.now) fetched.now }
    ensures restores { RestoresBlock (cut_of geometry.now) fetched.now result }
    ensures readable { (w bad : List ℕ) → IsReadable (cut_of geometry.now) fetched.now w bad
        → (absent tried : ℕ) → result ≡ Err (SolveFault.Unreadable absent tried) → ⊥ }
{
    match solve_block(alloc, geometry, fetched) {
        Ok(bytes) => {
            let digest = fetched.pointer.digest;
            match Encoded::with_digest(alloc, geometry, &bytes, digest) {
                Ok(block) => Ok(block),
                Err(NoMemory) => Err(SolveFault::NoMemory),
            }
        }
        Err(fault) => Err(fault),
    }
}
