ghost use Rattle.std.specs.Prelude.{◌≡◌, ◌+◌, ◌<◌, true, false};
ghost use Rattle.draid_machine.specs.State.{State};
ghost use Rattle.draid_machine.specs.Step.{CloseStep, UpgradeStep};
ghost use Rattle.draid_world.specs.World.{state_of};

use draid_names::{LAST_NUMBER, NUMBERS};
use draid_world::World;

/// Asks for version 2 from the next group on, where that is legal.
pub fn upgrade(world: &mut World) -> bool
    ensures legal { result ≡ true → UpgradeStep (state_of world.old) (state_of world.new) }
    ensures illegal { result ≡ false → (new : State) → UpgradeStep (state_of world.old) new → ⊥ }
{
    if world.asked != 1 || world.closing.is_some() {
        return false;
    }
    world.asked = 2;
    true
}

/// Closes the open group, where that is legal.
pub fn close(world: &mut World, group: u64) -> bool
    requires group { world.old.open_group < NUMBERS }
    ensures legal { result ≡ true → CloseStep (state_of world.old) group (state_of world.new) }
    ensures illegal { result ≡ false → (new : State) → CloseStep (state_of world.old) group new → ⊥ }
{
    if world.open_group != group || group >= LAST_NUMBER || world.closing.is_some() {
        return false;
    }
    world.closing = Some(group);
    world.open_group = group + 1;
    true
}
