ghost use Rattle.std.specs.Prelude.{◌≡◌, Some, length, slice_get, ℕ};
ghost use Rattle.draid_shard.specs.declared.shard.Shard.{Shard};
ghost use Rattle.draid_changes.specs.Attaching.{Attaches, MayCome};
ghost use Rattle.draid_changes.specs.Walks.{ChangedBelow};

use draid_area::Area;
use draid_disks::attach;
use draid_names::ArmKind;
use draid_rack::Rack;
use draid_shard::Shard;

/// Gives a slot of each metaslab one more arm, which no rule forbids there, and for which events and room are reserved.
pub(crate) fn attach_all<R: Rack, A: Area>(
    shards: &mut Vec<Shard<R, A>>,
    slot: u32,
    kind: ArmKind,
    number: u64,
)
    requires ready { (m : ℕ) (shard : Shard R A) → slice_get shards.old.items m ≡ Some shard → MayCome R.Rack slot kind number shard }
    ensures attaches { ChangedBelow (Attaches R.Rack slot kind number) (length shards.old.items) shards.old.items shards.new.items }
{
    for metaslab in 0..shards.len() {
        attach_in(&mut shards[metaslab], slot, kind, number);
    }
}

/// Gives a slot of a metaslab one more arm.
fn attach_in<R: Rack, A: Area>(shard: &mut Shard<R, A>, slot: u32, kind: ArmKind, number: u64)
    requires { MayCome R.Rack slot kind number shard.old }
    ensures { Attaches R.Rack slot kind number shard.old shard.new }
{
    match attach(shard, slot, kind, number) {
        Ok(()) => {}
        Err(_) => unreachable!(),
    }
}
