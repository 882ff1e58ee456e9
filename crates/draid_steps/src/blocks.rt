ghost use Rattle.std.specs.Prelude.{◌≡◌, ◌<◌, IsSome, true, false};
ghost use Rattle.draid_machine.specs.After.{gone_state, live_state};
ghost use Rattle.draid_machine.specs.State.{State};
ghost use Rattle.draid_machine.specs.Step.{AbortStep, FinishStep, FreeStep};
ghost use Rattle.draid_machine.specs.declared.names.Stage.TheVariants.{Live};
ghost use Rattle.draid_world.specs.World.{held_in, site_layout, state_of};

use crate::tickets::is_due;
use draid_machine::{Held, Key, Stage};
use draid_names::NUMBERS;
use draid_world::tables::{change, find, forget, forget_kept, forget_segments};
use draid_world::{Site, World};

/// Whether it is a block that isn't freed.
pub(crate) fn is_live(stage: Stage) -> bool
    ensures yes { result ≡ true → stage ≡ Live }
    ensures no { result ≡ false → stage ≡ Live → ⊥ }
{
    match stage {
        Stage::Live => true,
        Stage::Writing { .. } | Stage::Freed { .. } => false,
    }
}

/// Frees a live block in a group, where that is legal.
pub fn free(world: &mut World, key: Key, group: u64) -> bool
    requires group { world.old.open_group < NUMBERS }
    ensures legal { result ≡ true → FreeStep (state_of world.old) key group (state_of world.new) }
    ensures illegal { result ≡ false → (new : State) → FreeStep (state_of world.old) key group new → ⊥ }
{
    let Some(held) = find(&world.tables.held, key) else {
        return false;
    };
    if !is_live(held.stage) || !is_due(world, group) {
        return false;
    }
    let freed = Held {
        stage: Stage::Freed { group },
        ..held
    };
    change(&mut world.tables.held, key, freed);
    true
}

/// A ticket goes, with its segments.
fn drop_ticket(world: &mut World, key: Key)
    ensures { state_of world.new ≡ gone_state (state_of world.old) key }
{
    forget(&mut world.tables.held, key);
    forget_segments(&mut world.present, key);
    forget_segments(&mut world.aside, key);
    forget_kept(&mut world.kept, key);
}

/// A ticket is a block from now on.
fn make_live(world: &mut World, key: Key, held: Held)
    requires there { IsSome (held_in world.old.tables.held.entries key) }
    ensures { state_of world.new ≡ live_state (state_of world.old) key held }
{
    let live = Held {
        stage: Stage::Live,
        ..held
    };
    change(&mut world.tables.held, key, live);
}

/// Gives a ticket up, where there is one.
pub fn abort(world: &mut World, key: Key) -> bool
    ensures legal { result ≡ true → AbortStep (state_of world.old) key (state_of world.new) }
    ensures illegal { result ≡ false → (new : State) → AbortStep (state_of world.old) key new → ⊥ }
{
    let Some(held) = find(&world.tables.held, key) else {
        return false;
    };
    match held.stage {
        Stage::Writing { .. } => {}
        _ => return false,
    }
    drop_ticket(world, key);
    true
}

/// Ends a ticket with all columns put: as a block, or missed where too many columns landed nowhere.
pub fn finish(site: &Site, world: &mut World, key: Key) -> bool
    ensures legal { result ≡ true → FinishStep (site_layout site.now) (state_of world.old) key (state_of world.new) }
    ensures illegal { result ≡ false → (new : State) → FinishStep (site_layout site.now) (state_of world.old) key new → ⊥ }
{
    let Some(held) = find(&world.tables.held, key) else {
        return false;
    };
    let Stage::Writing { columns, missed } = held.stage else {
        return false;
    };
    if columns != site.geometry.g {
        return false;
    }
    if missed > site.geometry.spec.parity {
        drop_ticket(world, key);
        return true;
    }
    make_live(world, key, held);
    true
}
