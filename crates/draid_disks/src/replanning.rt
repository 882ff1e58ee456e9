ghost use Rattle.std.specs.Prelude.{◌≡◌, ◌+◌, ◌<◌, IfSome, None, true};
ghost use Rattle.draid_names.specs.declared.numbers.TheConstants.{LAST_NUMBER};
ghost use Rattle.draid_plans.specs.Targets.{HasTargetRoom};
ghost use Rattle.draid_shard.specs.Fits.{is_rebuild, owed_for_pass};
ghost use Rattle.draid_slots.specs.States.{HoldsPass};
ghost use Rattle.draid_disks.specs.Replanning.{LogsHaveOne, MayReplan, NoReplan, Relogs, ReplansAll, attach_events};

use crate::marking::marks_of;
use draid_names::PassKind;
use draid_pass::Pass;
use draid_plans::{lose_marked, plan};
use draid_slots::{Moved, Slots};

/// Goes on with the pass that there may be where an arm has come: a rebuild is planned again over the slots as they are
/// now, and a scrub loses the targets that came to lie elsewhere. It takes no memory.
pub(crate) fn replan(
    slots: &mut Slots,
    pass: &mut Option<Pass>,
    last: &mut u64,
    open_group: u64,
    moved: &Moved,
)
    requires pass { IfSome pass.old (HoldsPass slots.old last.old) }
    requires may { MayReplan pass.old last.old open_group }
    requires targets { IfSome pass.old (λ p. HasTargetRoom slots.old p.targets) }
    requires logs { LogsHaveOne slots.old }
    ensures slots { Relogs slots.old slots.new }
    ensures none { pass.old ≡ None → NoReplan slots.old slots.new pass.new }
    ensures pass { IfSome pass.new (HoldsPass slots.new last.new) }
    ensures kind { is_rebuild pass.new ≡ is_rebuild pass.old }
    ensures owed { owed_for_pass pass.new + 1 ≡ owed_for_pass pass.old + attach_events pass.old }
    ensures state { ReplansAll moved.now open_group slots.old pass.old last.old slots.new pass.new last.new }
{
    if let Some(before) = pass.take() {
        let now = replanned(slots, before, open_group, moved);
        *last = now.number;
        *pass = Some(now);
    }
}

/// The same of a pass that there is.
fn replanned(slots: &mut Slots, mut pass: Pass, open_group: u64, moved: &Moved) -> Pass
    requires pass { HoldsPass slots.old pass.number pass }
    requires may { MayReplan (Some pass) pass.number open_group }
    requires targets { HasTargetRoom slots.old pass.targets }
    requires logs { LogsHaveOne slots.old }
    ensures slots { Relogs slots.old slots.new }
    ensures pass { HoldsPass slots.new result.number result }
    ensures kind { result.kind ≡ pass.kind }
    ensures owed { owed_for_pass (Some result) + 1 ≡ owed_for_pass (Some pass) + attach_events (Some pass) }
    ensures state { ReplansAll moved.now open_group slots.old (Some pass) pass.number slots.new (Some result) result.number }
{
    let marks = marks_of(slots, moved);
    match pass.kind {
        PassKind::Rebuild => {
            let number = pass.number + 1;
            let max = open_group + 1;
            plan(slots, &marks, PassKind::Rebuild, number, max, pass.targets)
        }
        PassKind::Heal => {
            lose_marked(&mut pass, &marks);
            pass
        }
    }
}
