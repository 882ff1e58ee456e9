//! The blocks that a check record names, looked for in the metaslabs that an import opened.
ghost use Rattle.std.specs.Prelude.{◌≤◌, ◌^◌, IfNone, IfOk, IfSome, OnOk};
ghost use Rattle.draid_shard.specs.Fits.{Valid};
ghost use Rattle.draid_found.specs.Drops.{AreBornIn, AreNoted, HaveNamed, IsUnnotedAt, LackNamed, NotesBorn, NotesBornOf};
ghost use Rattle.draid_found.specs.Found.{AreReady};
ghost use Rattle.draid_found.specs.Together.{noted_in};

use draid_area::Area;
use draid_names::{NoMemory, Pointer};
use draid_rack::Rack;
use draid_record::Dropped;
use draid_shard::Shard;
use std::alloc::Global;
use std::collections::HashSet;

/// Notes a block that was born up to a group.
fn note_born(keys: &mut HashSet<(u64, u64)>, pointer: &Pointer, upto: u64) -> Result<(), NoMemory>
    ensures { OnOk result (NotesBorn upto pointer.now (noted_in keys.old) (noted_in keys.new)) }
{
    if upto < pointer.birth {
        return Ok(());
    }
    keys.insert((pointer.object, pointer.seq))?;
    Ok(())
}

/// Notes the blocks of a metaslab that were born up to a group.
fn note_all_born<R: Rack, A: Area>(
    keys: &mut HashSet<(u64, u64)>,
    shard: &Shard<R, A>,
    upto: u64,
) -> Result<(), NoMemory>
    requires valid { Valid R.Rack shard.now }
    ensures { OnOk result (NotesBornOf shard.now upto (noted_in keys.old) (noted_in keys.new)) }
{
    let mut from = 0;
    while let Some(pointer) = shard.next_held(from) {
        match note_born(keys, &pointer, upto) {
            Ok(()) => {}
            Err(NoMemory) => return Err(NoMemory),
        }
        from = pointer.first + 1;
    }
    Ok(())
}

/// The object and the number of each block that was born up to a group.
fn born_upto<R: Rack, A: Area>(
    alloc: Global,
    shards: &[Shard<R, A>],
    upto: u64,
) -> Result<HashSet<(u64, u64)>, NoMemory>
    requires ready { AreReady R.Rack shards.now }
    ensures { IfOk result (λ keys. AreBornIn shards.now upto (noted_in keys)) }
{
    let mut keys = HashSet::new(alloc);
    for shard in shards {
        match note_all_born(&mut keys, shard, upto) {
            Ok(()) => {}
            Err(NoMemory) => return Err(NoMemory),
        }
    }
    Ok(keys)
}

/// The first block that isn't among these.
fn first_out(keys: &HashSet<(u64, u64)>, drops: &[Dropped]) -> Option<u64>
    ensures none { IfNone result (AreNoted (noted_in keys.now) drops.now) }
    ensures some { IfSome result (IsUnnotedAt (noted_in keys.now) drops.now) }
    ensures low { IfSome result (λ at. at ≤ 2 ^ 59) }
{
    for at in 0..drops.len() {
        let named = drops[at];
        if !keys.contains(&(named.object, named.seq)) {
            return Some(at as u64);
        }
    }
    None
}

/// The first of the blocks that a check record names which isn't in these metaslabs, or was born behind the checkpoint.
pub fn first_lack<R: Rack, A: Area>(
    alloc: Global,
    shards: &[Shard<R, A>],
    upto: u64,
    drops: &[Dropped],
) -> Result<Option<u64>, NoMemory>
    requires ready { AreReady R.Rack shards.now }
    ensures none { IfOk result (λ at. IfNone at (HaveNamed shards.now upto drops.now)) }
    ensures some { IfOk result (λ at. IfSome at (LackNamed shards.now upto drops.now)) }
    ensures low { IfOk result (λ at. IfSome at (λ i. i ≤ 2 ^ 59)) }
{
    if drops.is_empty() {
        return Ok(None);
    }
    let keys = born_upto(alloc, shards, upto)?;
    Ok(first_out(&keys, drops))
}
