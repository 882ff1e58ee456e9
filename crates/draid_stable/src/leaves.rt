ghost use Rattle.std.specs.Prelude.{◌≡◌, ◌+◌, ◌<◌, ◌≤◌, ◌*◌, ◌^◌, not, ℕ, All, None, false, length, true};
ghost use Rattle.draid_rack.specs.Moments.{LeavesTold};
ghost use Rattle.draid_record.specs.Record.{told_slot, told_slots};
ghost use Rattle.draid_record.specs.declared.sizes.TheConstants.{SLOTS_AT};
ghost use Rattle.draid_stable.specs.Opening as spec;
ghost use Rattle.draid_stable.specs.Opening.{KeepsCounts};

use draid_dtl::Log;
use draid_names::{Arm, ArmKind};
use draid_rack::Rack;
use draid_record::{SLOTS_AT, arm_len};
use draid_slots::Slots;

/// Whether the rack has a leaf with so many sectors.
fn has_leaf<R: Rack>(rack: &R, sectors: u64, leaf: u64) -> bool
    ensures { result ≡ spec.has_leaf (R.shape rack.now) sectors leaf }
{
    match rack.sectors(leaf) {
        Some(count) => count == sectors,
        None => false,
    }
}

/// Whether an arm is a leaf that the rack doesn't have so.
fn is_lacking<R: Rack>(rack: &R, sectors: u64, arm: &Arm) -> bool
    ensures { result ≡ spec.is_lacking (spec.has_leaf (R.shape rack.now) sectors) arm.now }
{
    arm.kind == ArmKind::Leaf && !has_leaf(rack, sectors, arm.number)
}

/// The bytes of the arms of a slot.
fn arms_len(list: &[(Arm, Log)]) -> u64
    requires few { length list.now ≤ 3 }
    requires short { All (λ pair. length pair.1.runs < 2 ^ 32) list.now }
    ensures len { result ≡ spec.arms_len (told_slot list.now) }
    ensures most { result ≤ 3 * 2 ^ 37 }
{
    let mut len = 0;
    for (_, log) in list {
        len += arm_len(log);
    }
    len
}

/// The place of the number of a slot's first arm that is a leaf which the rack doesn't have so.
fn lacking_in<R: Rack>(rack: &R, sectors: u64, list: &[(Arm, Log)], from: u64) -> Option<u64>
    requires few { length list.now ≤ 3 }
    requires short { All (λ pair. length pair.1.runs < 2 ^ 32) list.now }
    requires low { from < 2 ^ 60 }
    ensures { result ≡ spec.lacking_in (spec.has_leaf (R.shape rack.now) sectors) from (told_slot list.now) }
{
    let mut place = from;
    for (arm, log) in list {
        if is_lacking(rack, sectors, arm) {
            return Some(place + 1);
        }
        place += arm_len(log);
    }
    None
}

/// The place in a record of the number of the first arm that is a leaf which the rack doesn't have with so many
/// sectors.
pub(crate) fn lacking<R: Rack>(rack: &R, sectors: u64, lists: &[Vec<(Arm, Log)>]) -> Option<u64>
    requires count { length lists.now < 2 ^ 16 }
    requires few { All (λ list. length list.items ≤ 3) lists.now }
    requires short { All (λ list. All (λ pair. length pair.1.runs < 2 ^ 32) list.items) lists.now }
    ensures { result ≡ spec.lacking_from (spec.has_leaf (R.shape rack.now) sectors) SLOTS_AT (told_slots lists.now) }
{
    let mut place = SLOTS_AT;
    for list in lists {
        if let Some(found) = lacking_in(rack, sectors, list, place + 1) {
            return Some(found);
        }
        place += 1 + arms_len(list);
    }
    None
}

/// Gives up the leaves of a rack that are no arm of some slots.
pub fn keep_arms<R: Rack>(rack: &mut R, slots: &Slots)
    ensures told { LeavesTold (λ leaf sector. not (spec.has_leaf_arm slots.now leaf)) (R.told rack.old) (R.told rack.new) }
    ensures bytes { (R.shape rack.new).bytes ≡ (R.shape rack.old).bytes }
    ensures kept { (leaf : ℕ) → spec.has_leaf_arm slots.now leaf ≡ true
        → (R.shape rack.new).leaves leaf ≡ (R.shape rack.old).leaves leaf }
    ensures gone { (leaf : ℕ) → leaf < 2 ^ 64 → spec.has_leaf_arm slots.now leaf ≡ false
        → (R.shape rack.new).leaves leaf ≡ None }
    ensures later { KeepsCounts slots.now (R.faults rack.old) (R.faults rack.new) }
{
    let mut from = 0;
    while let Some(leaf) = rack.leaf_from(from) {
        drop_other(rack, slots, leaf);
        let Some(next) = leaf.checked_add(1) else {
            break;
        };
        from = next;
    }
}

/// Gives up a leaf that is no arm of some slots.
fn drop_other<R: Rack>(rack: &mut R, slots: &Slots, leaf: u64)
    ensures told { LeavesTold (λ leaf sector. not (spec.has_leaf_arm slots.now leaf)) (R.told rack.old) (R.told rack.new) }
    ensures bytes { (R.shape rack.new).bytes ≡ (R.shape rack.old).bytes }
    ensures kept { (other : ℕ) → spec.has_leaf_arm slots.now other ≡ true
        → (R.shape rack.new).leaves other ≡ (R.shape rack.old).leaves other }
    ensures none { (other : ℕ) → (R.shape rack.old).leaves other ≡ None → (R.shape rack.new).leaves other ≡ None }
    ensures gone { spec.has_leaf_arm slots.now leaf ≡ false → (R.shape rack.new).leaves leaf ≡ None }
    ensures later { KeepsCounts slots.now (R.faults rack.old) (R.faults rack.new) }
{
    if slots.find(ArmKind::Leaf, leaf).is_none() {
        rack.drop_leaf(leaf);
    }
}
