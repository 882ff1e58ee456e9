//! Of each object the newest of the blocks that a check record doesn't name.
ghost use Rattle.std.specs.Prelude.{◌≡◌, ◌↔◌, IfOk, IsTrue, OnOk, nat_eq};
ghost use Rattle.std.specs.HashMap.{get};
ghost use Rattle.draid_shard.specs.Fits.{Valid};
ghost use Rattle.draid_found.specs.Drops.{AreJustNamed, AreNewestBeside, NotesBeside, NotesNamed, NotesOneBeside, key_in};
ghost use Rattle.draid_found.specs.Found.{AllLive, AreReady};
ghost use Rattle.draid_found.specs.Together.{noted_in};

use crate::finding::keep_newer;
use draid_area::Area;
use draid_names::{NoMemory, Pointer};
use draid_rack::Rack;
use draid_record::Dropped;
use draid_shard::Shard;
use std::alloc::Global;
use std::collections::{HashMap, HashSet};

/// Notes a block that is named.
fn note_named(keys: &mut HashSet<(u64, u64)>, block: &Dropped) -> Result<(), NoMemory>
    ensures { OnOk result (NotesNamed (key_in block.now) (noted_in keys.old) (noted_in keys.new)) }
{
    keys.insert((block.object, block.seq))?;
    Ok(())
}

/// The object and the number of each block that is named.
pub(crate) fn named(alloc: Global, drops: &[Dropped]) -> Result<HashSet<(u64, u64)>, NoMemory>
    ensures { IfOk result (λ keys. AreJustNamed drops.now (noted_in keys)) }
{
    let mut keys = HashSet::new(alloc);
    for block in drops {
        match note_named(&mut keys, block) {
            Ok(()) => {}
            Err(NoMemory) => return Err(NoMemory),
        }
    }
    Ok(keys)
}

/// Keeps a block in mind that isn't among these, unless one of its object was noted that is as new.
fn note_beside(
    newest: &mut HashMap<u64, Pointer>,
    keys: &HashSet<(u64, u64)>,
    pointer: Pointer,
) -> Result<(), NoMemory>
    ensures { OnOk result (NotesOneBeside (noted_in keys.now) pointer (get nat_eq newest.old) (get nat_eq newest.new)) }
{
    if keys.contains(&(pointer.object, pointer.seq)) {
        return Ok(());
    }
    keep_newer(newest, pointer)
}

/// The same of all blocks of a metaslab.
fn note_all_beside<R: Rack, A: Area>(
    newest: &mut HashMap<u64, Pointer>,
    keys: &HashSet<(u64, u64)>,
    shard: &Shard<R, A>,
) -> Result<(), NoMemory>
    requires valid { Valid R.Rack shard.now }
    requires live { AllLive shard.now }
    ensures { OnOk result (NotesBeside (noted_in keys.now) shard.now (get nat_eq newest.old) (get nat_eq newest.new)) }
{
    let mut from = 0;
    while let Some(pointer) = shard.next_held(from) {
        match note_beside(newest, keys, pointer) {
            Ok(()) => {}
            Err(NoMemory) => return Err(NoMemory),
        }
        from = pointer.first + 1;
    }
    Ok(())
}

/// Of each object the newest of the blocks that aren't among these, which a check record names.
pub fn newest_beside<R: Rack, A: Area>(
    alloc: Global,
    shards: &[Shard<R, A>],
    drops: &[Dropped],
) -> Result<HashMap<u64, Pointer>, NoMemory>
    requires ready { AreReady R.Rack shards.now }
    ensures { IfOk result (λ newest. AreNewestBeside shards.now drops.now (get nat_eq newest)) }
{
    let keys = named(alloc, drops)?;
    let mut newest = HashMap::new(alloc);
    for shard in shards {
        match note_all_beside(&mut newest, &keys, shard) {
            Ok(()) => {}
            Err(NoMemory) => return Err(NoMemory),
        }
    }
    Ok(newest)
}
