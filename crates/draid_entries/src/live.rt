ghost use Rattle.std.specs.Prelude.{◌≡◌, ◌+◌, ◌<◌, All, IfErr, IfOk, None, OnOk, Some, is_some};
ghost use Rattle.draid_names.specs.declared.numbers.TheConstants.{NUMBERS};
ghost use Rattle.draid_machine.specs.declared.names.Stage.TheVariants.{Live};
ghost use Rattle.draid_entries.specs.Entries.{SetsEntry, count_of, entry_at, held_in};
ghost use Rattle.draid_entries.specs.Listed.{AscendFrom};
ghost use Rattle.draid_entries.specs.Live.{HasLive, ListRefused, first_twice};
ghost use Rattle.draid_entries.specs.Maps.{key_of, staged};

use crate::entries::Entries;
use crate::entry::key_of;
use draid_machine::Stage;
use draid_names::{NoMemory, Pointer};
use std::alloc::Global;

/// Why no table is made of a list of blocks.
#[derive(Clone, Copy)]
pub enum ListFault {
    /// The block at this place of the list is the first whose object and seq a block before it has.
    Twice { place: usize },
    NoMemory,
}

impl From<NoMemory> for ListFault {
    ghost use Rattle.draid_entries.specs.declared.live.ListFault.TheVariants.{NoMemory};

    ghost from_gives = { λ _ fault. fault ≡ NoMemory };

    fn from(_error: NoMemory) -> ListFault {
        ListFault::NoMemory
    }
}

impl Entries {
    /// The table of these blocks, each live. They ascend by their stripes.
    pub fn of(alloc: Global, blocks: &[Pointer]) -> Result<Entries, ListFault>
        requires ascending { AscendFrom 0 blocks.now }
        requires low { All (λ b. b.first < NUMBERS) blocks.now }
        ensures live { IfOk result (λ table. HasLive table blocks.now) }
        ensures once { OnOk result (first_twice blocks.now ≡ None) }
        ensures refused { IfErr result (ListRefused blocks.now) }
    {
        let mut table = Entries::new(alloc);
        for place in 0..blocks.len() {
            let block = blocks[place];
            if table.has(&block) {
                return Err(ListFault::Twice { place });
            }
            table.enter(block)?;
        }
        Ok(table)
    }

    /// Whether there is a block or an open write of a pointer's key.
    fn has(&self, pointer: &Pointer) -> bool
        ensures { result ≡ is_some (held_in self.now (key_of pointer.now)) }
    {
        self.keys.contains_key(&key_of(pointer))
    }

    /// A live block comes at the pointer's stripes.
    fn enter(&mut self, pointer: Pointer) -> Result<(), NoMemory>
        requires low { pointer.first < NUMBERS }
        requires free { entry_at self.old pointer.first ≡ None }
        requires unused { held_in self.old (key_of pointer) ≡ None }
        ensures entered { OnOk result (SetsEntry self.old self.new pointer (Some (staged Live pointer))) }
        ensures count { OnOk result (count_of self.new ≡ count_of self.old + 1) }
    {
        self.begin(pointer)?;
        self.turn(&pointer, Stage::Live);
        Ok(())
    }
}
