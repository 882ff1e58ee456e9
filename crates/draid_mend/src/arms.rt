//! Whether an arm of a slot answers, and the leaf on which it keeps a sector. A leaf says so itself.
ghost use Rattle.std.specs.Prelude.{◌≡◌, ◌<◌, IsSomeAnd};
ghost use Rattle.draid_spec.specs.Geometry.{metaslab_sectors, slice_at};
ghost use Rattle.draid_slots.specs.Reading.{answers, holder};
ghost use Rattle.draid_slots.specs.Table.{IsThere};

use draid_names::{ArmAt, ArmKind};
use draid_slots::Slots;

/// Whether an arm answers in a slice: a leaf unless it is offline, and a spare as the leaf does that keeps the slice for it.
pub(crate) fn answers_in(slots: &Slots, at: ArmAt, slice: u64) -> bool
    requires slot { at.slot < slots.now.geometry.spec.children }
    requires there { IsThere slots.now at }
    requires slice { slice < slots.now.geometry.props.slices }
    ensures { result ≡ answers slots.now at slice }
{
    let arm = slots.arms(at.slot)[at.arm as usize];
    match arm.kind {
        ArmKind::Leaf => !arm.offline,
        ArmKind::Spare => slots.answers(at, slice),
    }
}

/// The leaf on which an arm keeps a sector of its slot.
pub(crate) fn leaf_at(slots: &Slots, at: ArmAt, sector: u64) -> u64
    requires slot { at.slot < slots.now.geometry.spec.children }
    requires there { IsThere slots.now at }
    requires sector { sector < metaslab_sectors slots.now.geometry }
    ensures { IsSomeAnd (holder slots.now at (slice_at slots.now.geometry sector)) (λ leaf. leaf.number ≡ result) }
{
    let arm = slots.arms(at.slot)[at.arm as usize];
    match arm.kind {
        ArmKind::Leaf => arm.number,
        ArmKind::Spare => slots.place(at, sector).leaf,
    }
}
