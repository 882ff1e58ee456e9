ghost use Rattle.std.specs.Prelude.{◌≡◌};
ghost use Rattle.draid_entries.specs.Maps.{key_of};

use draid_machine::{Key, Stage};
use draid_names::Pointer;

/// A block or an open write, and how far it is.
#[derive(Clone, Copy, PartialEq, Eq)]
pub struct Entry {
    pub pointer: Pointer,
    pub stage: Stage,
}

/// By what a pointer's block is known in its metaslab.
pub fn key_of(pointer: &Pointer) -> Key
    ensures { result ≡ key_of pointer.now }
{
    Key {
        object: pointer.object,
        seq: pointer.seq,
    }
}
