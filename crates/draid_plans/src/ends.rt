ghost use Rattle.std.specs.Prelude.{◌<◌, ◌^◌, All};
ghost use Rattle.draid_slots.specs.Table.{IsThere};
ghost use Rattle.draid_plans.specs.Ends.{EndsAll, is_good};
ghost use Rattle.draid_plans.specs.Logs.{Excises};

use crate::logs::excise_logs;
use draid_pass::Pass;
use draid_slots::Slots;

/// Ends a pass: without errors the groups up to its max leave its targets' logs, and they aren't fresh any more. It takes no
/// memory.
pub fn end(slots: &mut Slots, pass: &Pass)
    requires range { pass.now.max < 2 ^ 48 }
    requires there { All (IsThere slots.old) pass.now.targets.items }
    ensures logs { Excises slots.old slots.new (is_good pass.now) pass.now.max }
    ensures state { EndsAll slots.old slots.new pass.now }
{
    if pass.errors == 0 {
        excise_logs(slots, &pass.targets, pass.max);
    }
}
