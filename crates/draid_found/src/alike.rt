ghost use Rattle.std.specs.Prelude.{◌≡◌, ◌↔◌, IsTrue};
ghost use Rattle.draid_shard.specs.Alike.{AreSameArms, HaveSameArms, IsSameArm};

use draid_area::Area;
use draid_names::Arm;
use draid_rack::Rack;
use draid_shard::Shard;

/// Whether two arms are one, but for whether a pass has made it good.
fn is_same_arm(one: &Arm, other: &Arm) -> bool
    ensures { IsTrue result ↔ IsSameArm one.now other.now }
{
    one.kind == other.kind && one.number == other.number && one.offline == other.offline
}

/// Whether two slots have the same arms.
fn have_same_arms(one: &[Arm], other: &[Arm]) -> bool
    ensures { IsTrue result ↔ AreSameArms one.now other.now }
{
    if one.len() != other.len() {
        return false;
    }
    for place in 0..one.len() {
        if !is_same_arm(&one[place], &other[place]) {
            return false;
        }
    }
    true
}

/// Whether two metaslabs have the same arms in each slot.
pub(crate) fn are_alike<R: Rack, A: Area>(one: &Shard<R, A>, other: &Shard<R, A>) -> bool
    ensures { IsTrue result ↔ HaveSameArms one.now.slots other.now.slots }
{
    let children = one.slots.children();
    if other.slots.children() != children {
        return false;
    }
    for slot in 0..children {
        if !have_same_arms(one.slots.arms(slot), other.slots.arms(slot)) {
            return false;
        }
    }
    true
}
