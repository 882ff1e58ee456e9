ghost use Rattle.std.specs.BTreeMap.{IsOrdered};
ghost use Rattle.std.proofs.Props.{props};
ghost use Rattle.draid_entries.specs.Maps.{Agree};

use crate::entry::Entry;
use draid_machine::Key;
use std::collections::BTreeMap;

/// The blocks and the open writes of a metaslab, each at its first stripe, and found by its key too.
#[derive(Drop)]
pub struct Entries {
    pub(crate) firsts: BTreeMap<u64, Entry>,
    pub(crate) keys: BTreeMap<Key, u64>,
    ghost agree: { Agree firsts keys },
    ghost ordered: { IsOrdered ⟦<Key as Ord>⟧.cmp keys } by { Prim.hlevel props },
}
