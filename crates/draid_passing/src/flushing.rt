ghost use Rattle.std.specs.Prelude.{◌≡◌, ◌*◌, ◌+◌, ◌<◌, ◌≤◌, [], ℕ, All, Option, Some, option_map, length, vec_capacity, vec_len};
ghost use Rattle.draid_columns.specs.Flushes.{CountsFailed, FlushesBut};
ghost use Rattle.draid_rack.specs.Rack.{OnBothTold, Told};
ghost use Rattle.draid_shard.specs.Fits.{HasLeaves};
ghost use Rattle.draid_slots.specs.Table.{IsTable, IsThere, arm_at};
ghost use Rattle.draid_passing.specs.Flushing.{bears_target, due_below, due_leaf, due_leaves, place_no};

use draid_marks::lies_on;
use draid_names::{ArmAt, ArmKind};
use draid_rack::Rack;
use draid_slots::Slots;

/// Flushes each leaf that is an arm, isn't offline, and on which a target lies, and lists those on which that fails.
pub(crate) fn flush_targets<R: Rack>(
    rack: &mut R,
    slots: &Slots,
    targets: &[ArmAt],
    failed: &mut Vec<u64>,
)
    requires leaves { HasLeaves (R.shape rack.old) slots.now.geometry slots.now }
    requires there { All (IsThere slots.now) targets.now }
    requires none { failed.old.items ≡ [] }
    requires room { 3 * slots.now.geometry.spec.children ≤ vec_capacity failed.old }
    ensures told { OnBothTold (R.told rack.old) (R.told rack.new) (FlushesBut (due_leaves slots.now targets.now) failed.new.items) }
    ensures cause { CountsFailed (due_leaves slots.now targets.now) failed.new.items (R.faults rack.old) (R.faults rack.new) }
    ensures shape { R.shape rack.new ≡ R.shape rack.old }
{
    for place in 0..3 * slots.children() {
        flush_next(rack, slots, targets, place, failed);
    }
}

/// Flushes the leaf at the next place, if it is such a one.
fn flush_next<R: Rack>(
    rack: &mut R,
    slots: &Slots,
    targets: &[ArmAt],
    place: u32,
    failed: &mut Vec<u64>,
)
    requires table { IsTable slots.now }
    requires leaves { HasLeaves (R.shape rack.old) slots.now.geometry slots.now }
    requires there { All (IsThere slots.now) targets.now }
    requires place { place < 3 * slots.now.geometry.spec.children }
    requires room { vec_len failed.old < vec_capacity failed.old }
    ensures told { (start : Option Told) → OnBothTold start (R.told rack.old) (FlushesBut (due_below slots.now targets.now place) failed.old.items)
        → OnBothTold start (R.told rack.new) (FlushesBut (due_below slots.now targets.now (place + 1)) failed.new.items) }
    ensures cause { (start : Option ℕ → ℕ) → CountsFailed (due_below slots.now targets.now place) failed.old.items start (R.faults rack.old)
        → CountsFailed (due_below slots.now targets.now (place + 1)) failed.new.items start (R.faults rack.new) }
    ensures shape { R.shape rack.new ≡ R.shape rack.old }
    ensures few { length failed.new.items ≤ length failed.old.items + 1 }
    ensures room { vec_capacity failed.new ≡ vec_capacity failed.old }
{
    let at = ArmAt {
        slot: place / 3,
        arm: place % 3,
    };
    let Some(leaf) = due_leaf(slots, targets, at) else {
        return;
    };
    if rack.flush(leaf).is_err() {
        failed.push_reserved(leaf);
    }
}

/// The leaf at a place, if it is such a one.
fn due_leaf(slots: &Slots, targets: &[ArmAt], at: ArmAt) -> Option<u64>
    requires table { IsTable slots.now }
    requires slot { at.slot < slots.now.geometry.spec.children }
    requires there { All (IsThere slots.now) targets.now }
    ensures { result ≡ due_leaf slots.now targets.now (arm_at slots.now at) }
{
    let arm = *slots.arms(at.slot).get(at.arm as usize)?;
    if matches!(arm.kind, ArmKind::Leaf)
        && !arm.offline
        && bears_target(slots, targets, arm.number)
    {
        Some(arm.number)
    } else {
        None
    }
}

/// Whether a target lies on a leaf.
fn bears_target(slots: &Slots, targets: &[ArmAt], leaf: u64) -> bool
    requires table { IsTable slots.now }
    requires there { All (IsThere slots.now) targets.now }
    ensures { result ≡ bears_target slots.now targets.now leaf }
{
    for target in targets {
        if lies_on(slots, *target, leaf) {
            return true;
        }
    }
    false
}
