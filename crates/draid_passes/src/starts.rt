ghost use Rattle.std.specs.Prelude.{◌≡◌, Some, true, false};
ghost use Rattle.draid_machine.specs.Names as names;
ghost use Rattle.draid_machine.specs.State.{State};
ghost use Rattle.draid_machine.specs.Step.{ReadyStep};
ghost use Rattle.draid_passes.specs.Left.{AreSettled, MayRun};
ghost use Rattle.draid_world.specs.World.{held_in, state_of};

use crate::left::is_block;
use draid_machine::{Held, Key};
use draid_names::PassKind;
use draid_world::{World, WorldPass};
use std::collections::BTreeMap;

/// Whether there is no ticket, and no birth above a group.
fn are_settled(held: &BTreeMap<Key, Held>, group: u64) -> bool
    ensures yes { result ≡ true → AreSettled (held_in held.now.entries) group }
    ensures no { result ≡ false → AreSettled (held_in held.now.entries) group → ⊥ }
{
    for (_, block) in held {
        if !is_block(block.stage) || block.birth > group {
            return false;
        }
    }
    true
}

/// Whether the pass is a planned rebuild that may run.
fn may_run(world: &World) -> bool
    ensures yes { result ≡ true → MayRun (state_of world.now) }
    ensures no { result ≡ false → MayRun (state_of world.now) → ⊥ }
{
    let Some(pass) = &world.tables.pass else {
        return false;
    };
    pass.kind == PassKind::Rebuild
        && !pass.running
        && pass.max <= world.committed.saturating_add(1)
        && are_settled(&world.tables.held, world.committed)
}

/// Lets a planned rebuild run, where that is legal.
pub fn ready(world: &mut World) -> bool
    ensures legal { result ≡ true → ReadyStep (state_of world.old) (state_of world.new) }
    ensures illegal { result ≡ false → (new : State) → ReadyStep (state_of world.old) new → ⊥ }
{
    if !may_run(world) {
        return false;
    }
    let Some(pass) = world.tables.pass.take() else {
        return false;
    };
    world.tables.pass = Some(WorldPass {
        running: true,
        ..pass
    });
    true
}
