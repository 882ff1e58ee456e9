//! What the objects had at a checkpoint, by its blocks.
ghost use Rattle.std.specs.Prelude.{◌≡◌, IfOk, OnOk, nat_eq};
ghost use Rattle.std.specs.HashMap.{get};
ghost use Rattle.draid_shard.specs.Fits.{Valid};
ghost use Rattle.draid_rewinds.specs.Tables.{AreNewestBorn, AreValid, NotesBorn, NotesBornIn};

use draid_area::Area;
use draid_found::keep_newer;
use draid_names::{NoMemory, Pointer};
use draid_rack::Rack;
use draid_shard::Shard;
use std::alloc::Global;
use std::collections::HashMap;

/// Keeps a live block in mind that was born up to a group, unless one of its object was noted that is as new.
fn keep_born<R: Rack, A: Area>(
    newest: &mut HashMap<u64, Pointer>,
    shard: &Shard<R, A>,
    pointer: Pointer,
    group: u64,
) -> Result<(), NoMemory>
    ensures { OnOk result (NotesBorn shard.now group pointer (get nat_eq newest.old) (get nat_eq newest.new)) }
{
    if group < pointer.birth {
        return Ok(());
    }
    if !shard.is_live(&pointer) {
        return Ok(());
    }
    keep_newer(newest, pointer)
}

/// The same of all blocks of a metaslab.
fn keep_born_in<R: Rack, A: Area>(
    newest: &mut HashMap<u64, Pointer>,
    shard: &Shard<R, A>,
    group: u64,
) -> Result<(), NoMemory>
    requires valid { Valid R.Rack shard.now }
    ensures { OnOk result (NotesBornIn shard.now group (get nat_eq newest.old) (get nat_eq newest.new)) }
{
    let mut from = 0;
    while let Some(pointer) = shard.next_held(from) {
        match keep_born(newest, shard, pointer, group) {
            Ok(()) => {}
            Err(NoMemory) => return Err(NoMemory),
        }
        from = pointer.first + 1;
    }
    Ok(())
}

/// Of each object the newest of the live blocks that were born up to a group.
pub(crate) fn newest_born<R: Rack, A: Area>(
    alloc: Global,
    shards: &[Shard<R, A>],
    group: u64,
) -> Result<HashMap<u64, Pointer>, NoMemory>
    requires valid { AreValid R.Rack shards.now }
    ensures { IfOk result (λ newest. AreNewestBorn shards.now group (get nat_eq newest)) }
{
    let mut newest = HashMap::new(alloc);
    for shard in shards {
        match keep_born_in(&mut newest, shard, group) {
            Ok(()) => {}
            Err(NoMemory) => return Err(NoMemory),
        }
    }
    Ok(newest)
}
