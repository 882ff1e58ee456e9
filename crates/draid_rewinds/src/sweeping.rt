//! Live blocks to which no object's pointer leads are freed.
ghost use Rattle.std.specs.Prelude.{◌≡◌, ◌↔◌, ◌≤◌, ℕ, IsTrue, Some, length, nat_eq, slice_get};
ghost use Rattle.std.specs.HashMap.{get};
ghost use Rattle.draid_names.specs.declared.numbers.TheConstants.{LAST_NUMBER};
ghost use Rattle.draid_shard.specs.Fits.{Valid};
ghost use Rattle.draid_shard.specs.declared.shard.Shard.{Shard};
ghost use Rattle.draid_rewinds.specs.Sweeps.{FreesIfOther, FreesOthers, FreesOthersIn, IsOpenIn};

use draid_area::Area;
use draid_blocks::free;
use draid_names::Pointer;
use draid_rack::Rack;
use draid_shard::Shard;
use std::collections::HashMap;

/// Whether this is the block of its object.
fn is_own(objects: &HashMap<u64, Pointer>, pointer: &Pointer) -> bool
    ensures { IsTrue result ↔ (get nat_eq objects.now pointer.now.object ≡ Some pointer.now) }
{
    objects.get(&pointer.object) == Some(pointer)
}

/// Frees a block in the open group, if it is live and not that of its object. The answer is how many were freed, one or none.
fn free_if_other<R: Rack, A: Area>(
    shard: &mut Shard<R, A>,
    objects: &HashMap<u64, Pointer>,
    pointer: &Pointer,
    group: u64,
) -> u64
    requires ready { IsOpenIn R.Rack group shard.old }
    ensures frees { FreesIfOther R.Rack A.Area (get nat_eq objects.now) pointer.now group shard.old result shard.new }
{
    if !shard.is_live(pointer) {
        return 0;
    }
    if is_own(objects, pointer) {
        return 0;
    }
    let Ok(_group) = free(shard, pointer, group) else {
        unreachable!()
    };
    1
}

/// Frees the live blocks of a metaslab that aren't those of their objects, and counts them.
fn free_others_in<R: Rack, A: Area>(
    shard: &mut Shard<R, A>,
    objects: &HashMap<u64, Pointer>,
    group: u64,
) -> u64
    requires ready { IsOpenIn R.Rack group shard.old }
    ensures frees { FreesOthersIn R.Rack A.Area (get nat_eq objects.now) group shard.old result shard.new }
{
    let mut from = 0;
    let mut freed = 0;
    while let Some(pointer) = shard.next_held(from) {
        freed += free_if_other(shard, objects, &pointer, group);
        from = pointer.first + 1;
    }
    freed
}

/// Frees the live blocks of all metaslabs that aren't those of their objects, and counts them.
pub(crate) fn free_others<R: Rack, A: Area>(
    shards: &mut Vec<Shard<R, A>>,
    objects: &HashMap<u64, Pointer>,
    group: u64,
) -> u64
    requires ready { (m : ℕ) (shard : Shard R A) → slice_get shards.old.items m ≡ Some shard → IsOpenIn R.Rack group shard }
    requires few { length shards.old.items ≤ 64 }
    ensures frees { FreesOthers R.Rack A.Area (get nat_eq objects.now) group shards.old.items result shards.new.items }
{
    let mut freed = 0;
    for number in 0..shards.len() {
        freed += free_others_in(&mut shards[number], objects, group);
    }
    freed
}
