//! The checkpoint that a check record tells is kept, and the older blocks that it keeps are dropped to it.
ghost use Rattle.std.specs.Prelude.{◌≡◌, ◌≤◌, ◌<◌, ◌+◌, ◌++◌, IfSome, OnOk, length, map, nat_eq};
ghost use Rattle.std.specs.HashMap.{get};
ghost use Rattle.draid_found.specs.Drops.{AreNewestBeside};
ghost use Rattle.draid_found.specs.Found.{AreFound, AreReady};
ghost use Rattle.draid_import.specs.Checking.{KeepsUber};
ghost use Rattle.draid_import.specs.Points.{AreOthers, HasRoom, KeepsPoint, changed_by};
ghost use Rattle.draid_names.specs.declared.numbers.TheConstants.{LAST_NUMBER};
ghost use Rattle.draid_record.specs.Checks.{IsCheck, told_check};
ghost use Rattle.draid_uber.specs.Points.{block_of, dropped_in};
ghost use Rattle.draid_uber.specs.Slots.{group_of};
ghost use Rattle.draid_uber.specs.Uber.{Valid, areas_of, changed_of, kept_of, layout_of, next_leaf_of, point_of, version_of};

use draid_area::Area;
use draid_found::{Found, newest_beside, older_blocks};
use draid_names::{NoMemory, Pointer};
use draid_rack::Rack;
use draid_record::{CheckBody, Dropped, MOST_DROPS};
use draid_shard::Shard;
use draid_uber::Uber;
use std::alloc::Global;
use std::collections::HashMap;

/// Has of each object the newest block count that a check record doesn't name.
pub(crate) fn count_beside<R: Rack, A: Area>(
    alloc: Global,
    shards: &[Shard<R, A>],
    found: &mut Found,
    drops: &[Dropped],
) -> Result<(), NoMemory>
    requires ready { AreReady R.Rack shards.now }
    requires found { AreFound shards.now (get nat_eq found.old.newest) found.old.seq }
    ensures newest { OnOk result (AreNewestBeside shards.now drops.now (get nat_eq found.new.newest)) }
    ensures seq { found.new.seq ≡ found.old.seq }
{
    if drops.is_empty() {
        return Ok(());
    }
    match newest_beside(alloc, shards, drops) {
        Ok(newest) => {
            found.newest = newest;
            Ok(())
        }
        Err(NoMemory) => Err(NoMemory),
    }
}

/// From a group on the checkpoint alone keeps these blocks.
fn drop_all<A: Area>(uber: &mut Uber<A>, blocks: &[Dropped], group: u64)
    requires room { length blocks.now ≤ (point_of uber.old).spare }
    requires few { length (point_of uber.old).drops + length blocks.now ≤ 524_288 }
    requires other { AreOthers (map block_of (point_of uber.old).drops) blocks.now }
    requires valid { Valid A.size uber.old }
    ensures valid { Valid A.size uber.new }
    ensures group { (point_of uber.new).group ≡ (point_of uber.old).group }
    ensures drops { (point_of uber.new).drops ≡ (point_of uber.old).drops ++ map (dropped_in group) blocks.now }
    ensures room { (point_of uber.old).spare ≤ (point_of uber.new).spare + length blocks.now }
    ensures changed { changed_of uber.new ≡ changed_by blocks.now group (changed_of uber.old) }
    ensures areas { areas_of uber.new ≡ areas_of uber.old }
    ensures kept { kept_of uber.new ≡ kept_of uber.old }
    ensures layout { layout_of uber.new ≡ layout_of uber.old }
    ensures version { version_of uber.new ≡ version_of uber.old }
    ensures leaf { next_leaf_of uber.new ≡ next_leaf_of uber.old }
{
    for block in blocks {
        uber.drop_block(block.object, block.seq, group);
    }
}

/// How many blocks a checkpoint keeps alone at most, of so many that it is told to, so many that are dropped to it, and so
/// many objects. There is no answer where a check record can't name them all.
fn most_kept(named: usize, older: usize, objects: usize) -> Option<u64>
    ensures { IfSome result (λ more. (more ≡ older + objects) × (named + more ≤ 524_288)) }
{
    let more = older.saturating_add(objects);
    if MOST_DROPS < named.saturating_add(more) {
        return None;
    }
    Some(more as u64)
}

/// Keeps the checkpoint that the check record of the committed group tells, with room for the blocks of all objects, and drops
/// the older blocks to it that it keeps, in the group behind the committed one.
pub(crate) fn keep_point<R: Rack, A: Area>(
    alloc: Global,
    shards: &[Shard<R, A>],
    newest: &HashMap<u64, Pointer>,
    check: &CheckBody,
    uber: &mut Uber<A>,
) -> Result<(), NoMemory>
    requires ready { AreReady R.Rack shards.now }
    requires valid { Valid A.size uber.old }
    requires range { IsCheck (group_of (kept_of uber.old)) (told_check check.now) }
    requires low { group_of (kept_of uber.old) < LAST_NUMBER }
    ensures same { KeepsUber A.Area uber.old uber.new }
    ensures keeps { OnOk result (KeepsPoint (group_of (kept_of uber.old)) (told_check check.now) shards.now (get nat_eq newest.now) (changed_of uber.old) uber.new) }
    ensures room { OnOk result (HasRoom (get nat_eq newest.now) (point_of uber.new)) }
{
    if check.group == 0 {
        return uber.keep_check(check, 0);
    }
    let older = match older_blocks(alloc, shards, newest, &check.drops, check.group) {
        Ok(older) => older,
        Err(NoMemory) => return Err(NoMemory),
    };
    let Some(more) = most_kept(check.drops.len(), older.len(), newest.len()) else {
        return Err(NoMemory);
    };
    match uber.keep_check(check, more) {
        Ok(()) => {
            let group = uber.committed() + 1;
            drop_all(uber, &older, group);
            Ok(())
        }
        Err(NoMemory) => Err(NoMemory),
    }
}
