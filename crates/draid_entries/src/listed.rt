ghost use Rattle.std.specs.Prelude.{◌≡◌, ◌++◌, ℕ, All, IfOk, Some};
ghost use Rattle.std.specs.BTreeMap.{IsOrdered};
ghost use Rattle.std.specs.Ordering.{nat_cmp};
ghost use Rattle.draid_entries.specs.Listed.{ListsBlocks, stays_at, staying};
ghost use Rattle.draid_entries.specs.Maps.{entry_in};

use crate::entries::Entries;
use crate::entry::Entry;
use draid_machine::Stage;
use draid_names::{NoMemory, Pointer};
use std::alloc::Global;
use std::collections::BTreeMap;

impl Entries {
    /// The blocks that were born up to a group and weren't freed up to it, ascending by first stripe.
    pub fn blocks_at(&self, alloc: Global, group: u64) -> Result<Vec<Pointer>, NoMemory>
        ensures { IfOk result (λ blocks. ListsBlocks self.now group blocks.items) }
    {
        staying(alloc, &self.firsts, group)
    }
}

/// Whether an entry is a block that was born up to a group and wasn't freed up to it.
fn stays_at(entry: &Entry, group: u64) -> bool
    ensures { result ≡ stays_at group entry.now }
{
    match entry.stage {
        Stage::Writing { .. } => false,
        Stage::Live => entry.pointer.birth <= group,
        Stage::Freed { group: freed } => entry.pointer.birth <= group && freed > group,
    }
}

/// The pointers of those entries, in their order.
fn staying(
    alloc: Global,
    firsts: &BTreeMap<u64, Entry>,
    group: u64,
) -> Result<Vec<Pointer>, NoMemory>
    ensures are { IfOk result (λ blocks. blocks.items ≡ staying group firsts.now.entries) }
    ensures ordered { IfOk result (λ blocks. IsOrdered nat_cmp firsts.now) }
    ensures found { IfOk result (λ blocks. All (λ e. entry_in firsts.now e.0 ≡ Some e.1) firsts.now.entries) }
{
    let mut blocks = Vec::new(alloc);
    for (_, entry) in firsts.iter() {
        if stays_at(entry, group) {
            blocks.push(entry.pointer)?;
        }
    }
    Ok(blocks)
}
