ghost use Rattle.std.specs.Prelude.{◌≡◌, ◌<◌, ◌≤◌, ◌^◌, All, IfOk, None, OnOk, length, vec_capacity};
ghost use Rattle.draid_machine.specs.Names.{is_heal};
ghost use Rattle.draid_slots.specs.Changes.{HasRoom, IsRoomier, Keeps};
ghost use Rattle.draid_slots.specs.States.{AscendBehind, HoldsPass};
ghost use Rattle.draid_slots.specs.Table.{IsThere};
ghost use Rattle.draid_plans.specs.Logs.{Fills};
ghost use Rattle.draid_plans.specs.Plans.{HasLogRoom, IsPlanned, PlansAll, is_filled};
ghost use Rattle.draid_plans.specs.Targets.{HasTargetRoom};

use crate::logs::fill_logs;
use crate::targets::list_targets;
use draid_names::{ArmAt, NoMemory, PassKind};
use draid_pass::Pass;
use draid_slots::{Marks, Slots};
use std::alloc::Global;

/// Makes the room that a pass wants: for so many changes of each log, and a list for its targets.
pub fn room(alloc: Global, slots: &mut Slots, changes: u32) -> Result<Vec<ArmAt>, NoMemory>
    ensures kept { Keeps slots.old slots.new }
    ensures roomier { IsRoomier slots.old slots.new }
    ensures logs { OnOk result (HasRoom slots.new changes 0) }
    ensures targets { IfOk result (HasTargetRoom slots.new) }
{
    slots.reserve(alloc, changes, 0)?;
    let targets = Vec::with_capacity(alloc, 3 * slots.children() as usize)?;
    Ok(targets)
}

/// Plans a pass of a kind that makes good the groups up to `max`, with its targets in a list that has room for them. A
/// rebuild's targets have their logs filled. It takes no memory.
pub fn plan(
    slots: &mut Slots,
    marks: &[Marks],
    kind: PassKind,
    number: u64,
    max: u64,
    mut targets: Vec<ArmAt>,
) -> Pass
    requires range { max < 2 ^ 48 }
    requires some_max { 1 ≤ max }
    requires count { slots.old.geometry.spec.children ≤ length marks.now }
    requires targets { HasTargetRoom slots.old targets }
    requires logs { HasLogRoom slots.old kind }
    ensures pass { IsPlanned slots.old marks.now kind number max result }
    ensures logs { Fills slots.old slots.new (is_filled kind result.targets.items) max }
    ensures holds { HoldsPass slots.new number result }
    ensures state { PlansAll slots.old slots.new marks.now kind result }
{
    list_targets(slots, marks, kind, &mut targets);
    fill_for(slots, kind, &targets, max);
    Pass {
        number,
        kind,
        targets,
        max,
        at: 0,
        errors: 0,
        running: runs_at_once(kind),
    }
}

/// The targets of a rebuild have their logs filled.
fn fill_for(slots: &mut Slots, kind: PassKind, targets: &[ArmAt], max: u64)
    requires range { max < 2 ^ 48 }
    requires there { All (IsThere slots.old) targets.now }
    requires ascending { AscendBehind None targets.now }
    requires logs { HasLogRoom slots.old kind }
    ensures { Fills slots.old slots.new (is_filled kind targets.now) max }
{
    match kind {
        PassKind::Rebuild => fill_logs(slots, targets, max),
        PassKind::Heal => {}
    }
}

/// Whether a pass of a kind waits for nothing.
fn runs_at_once(kind: PassKind) -> bool
    ensures { result ≡ is_heal kind }
{
    matches!(kind, PassKind::Heal)
}
