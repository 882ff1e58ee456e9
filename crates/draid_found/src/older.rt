//! The blocks that a checkpoint keeps and that aren't the newest of their objects.
ghost use Rattle.std.specs.Prelude.{◌≡◌, ◌↔◌, [], List, IfOk, IsTrue, OnOk, nat_eq};
ghost use Rattle.std.specs.HashMap.{get};
ghost use Rattle.draid_shard.specs.Fits.{Valid};
ghost use Rattle.draid_record.specs.declared.checks.Dropped.{Dropped};
ghost use Rattle.draid_found.specs.Older.{IsInTable, ListsIfOlder, ListsOf, ListsOlder, ListsOne};
ghost use Rattle.draid_found.specs.Found.{AreReady};
ghost use Rattle.draid_found.specs.Together.{noted_in};

use crate::beside::named;
use draid_area::Area;
use draid_names::{NoMemory, Pointer};
use draid_rack::Rack;
use draid_record::Dropped;
use draid_shard::Shard;
use std::alloc::Global;
use std::collections::{HashMap, HashSet};

/// Whether a table has this block, by its number.
fn is_in(newest: &HashMap<u64, Pointer>, pointer: &Pointer) -> bool
    ensures { IsTrue result ↔ IsInTable (get nat_eq newest.now) pointer.now }
{
    match newest.get(&pointer.object) {
        Some(own) => own.seq == pointer.seq,
        None => false,
    }
}

/// Lists a block, unless it was noted.
fn list_one(
    list: &mut Vec<Dropped>,
    keys: &mut HashSet<(u64, u64)>,
    pointer: &Pointer,
) -> Result<(), NoMemory>
    ensures { OnOk result (ListsOne pointer.now list.old.items (noted_in keys.old) list.new.items (noted_in keys.new)) }
{
    if !keys.insert((pointer.object, pointer.seq))? {
        return Ok(());
    }
    list.push(Dropped {
        object: pointer.object,
        seq: pointer.seq,
    })?;
    Ok(())
}

/// Lists a block that was born up to a group, unless a table has it, or it was noted.
fn list_if_older(
    list: &mut Vec<Dropped>,
    keys: &mut HashSet<(u64, u64)>,
    newest: &HashMap<u64, Pointer>,
    pointer: &Pointer,
    upto: u64,
) -> Result<(), NoMemory>
    ensures { OnOk result (ListsIfOlder (get nat_eq newest.now) upto pointer.now list.old.items (noted_in keys.old) list.new.items (noted_in keys.new)) }
{
    if upto < pointer.birth {
        return Ok(());
    }
    if is_in(newest, pointer) {
        return Ok(());
    }
    list_one(list, keys, pointer)
}

/// The same of all blocks of a metaslab.
fn list_of<R: Rack, A: Area>(
    list: &mut Vec<Dropped>,
    keys: &mut HashSet<(u64, u64)>,
    newest: &HashMap<u64, Pointer>,
    shard: &Shard<R, A>,
    upto: u64,
) -> Result<(), NoMemory>
    requires valid { Valid R.Rack shard.now }
    ensures { OnOk result (ListsOf shard.now (get nat_eq newest.now) upto list.old.items (noted_in keys.old) list.new.items (noted_in keys.new)) }
{
    let mut from = 0;
    while let Some(pointer) = shard.next_held(from) {
        match list_if_older(list, keys, newest, &pointer, upto) {
            Ok(()) => {}
            Err(NoMemory) => return Err(NoMemory),
        }
        from = pointer.first + 1;
    }
    Ok(())
}

/// The blocks that were born up to a group, but for those of a table and those that a check record names.
pub fn older_blocks<R: Rack, A: Area>(
    alloc: Global,
    shards: &[Shard<R, A>],
    newest: &HashMap<u64, Pointer>,
    drops: &[Dropped],
    upto: u64,
) -> Result<Vec<Dropped>, NoMemory>
    requires ready { AreReady R.Rack shards.now }
    ensures { IfOk result (λ list. ListsOlder shards.now (get nat_eq newest.now) drops.now upto list.items) }
{
    let mut keys = named(alloc, drops)?;
    let mut list = Vec::new(alloc);
    for shard in shards {
        match list_of(&mut list, &mut keys, newest, shard, upto) {
            Ok(()) => {}
            Err(NoMemory) => return Err(NoMemory),
        }
    }
    Ok(list)
}
