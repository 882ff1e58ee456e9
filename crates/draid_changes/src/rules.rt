ghost use Rattle.std.specs.Prelude.{◌≡◌, IfErr, IfNone, IfSome, OnOk};
ghost use Rattle.draid_names.specs.declared.arm.ArmKind.TheVariants as kind;
ghost use Rattle.draid_disks.specs.Disks.{arm_called};
ghost use Rattle.draid_changes.specs.Attaching.{IsBarred, IsReplaceBarred, IsSmallFor, IsTooSmall, MayComeAll, MayReplace};

use draid_area::Area;
use draid_disks::can_replan_all;
use draid_names::{Arm, ArmKind, LAST_NUMBER, SlotFault};
use draid_rack::Rack;
use draid_shard::Shard;
use draid_slots::Slots;

/// Whether no rule forbids an arm in a pool: neither these slots, whose arms all its metaslabs have, nor a rebuild.
pub(crate) fn may_come<R: Rack, A: Area>(
    slots: &Slots,
    shards: &[Shard<R, A>],
    slot: u32,
    arm: Arm,
) -> Result<(), SlotFault>
    ensures may { OnOk result (MayComeAll slots.now shards.now slot arm) }
    ensures refused { IfErr result (IsBarred slots.now shards.now slot arm) }
{
    match slots.may_attach(slot, arm) {
        Ok(()) if can_replan_all(shards) => Ok(()),
        Ok(()) => Err(SlotFault::Last),
        Err(why) => Err(why),
    }
}

/// Whether no rule forbids a new disk of so many sectors, if that is said, as a leaf of this number.
pub(crate) fn may_replace<R: Rack, A: Area>(
    slots: &Slots,
    shards: &[Shard<R, A>],
    slot: u32,
    leaf: u64,
    sectors: Option<u64>,
) -> Result<(), SlotFault>
    ensures may { OnOk result (MayReplace slots.now shards.now slot leaf sectors) }
    ensures refused { IfErr result (IsReplaceBarred slots.now shards.now slot leaf sectors) }
{
    if let Err(why) = slots.may_attach(slot, leaf_arm(leaf)) {
        return Err(why);
    }
    if let Some(why) = too_small(slots, sectors) {
        return Err(why);
    }
    if leaf >= LAST_NUMBER || !can_replan_all(shards) {
        return Err(SlotFault::Last);
    }
    Ok(())
}

/// Why a disk of so many sectors is too small, where it is.
fn too_small(slots: &Slots, sectors: Option<u64>) -> Option<SlotFault>
    ensures some { IfSome result (λ why. IsSmallFor slots.now sectors why) }
    ensures none { IfNone result (IsTooSmall slots.now sectors → ⊥) }
{
    let need = slots.geometry().child_sectors();
    match sectors {
        Some(have) if have < need => Some(SlotFault::TooSmall { need, have }),
        _ => None,
    }
}

/// A leaf as an arm that comes.
fn leaf_arm(leaf: u64) -> Arm
    ensures { result ≡ arm_called kind.Leaf leaf }
{
    Arm {
        kind: ArmKind::Leaf,
        number: leaf,
        offline: false,
        fresh: false,
    }
}
