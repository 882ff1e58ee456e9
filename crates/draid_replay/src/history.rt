ghost use Rattle.std.specs.Prelude.{◌≡◌, ◌+◌, ◌-◌, ◌<◌, ◌^◌, ℕ, All, Err, IfOk, length};
ghost use Rattle.draid_machine.specs.Created.{IsReached};
ghost use Rattle.draid_machine.specs.Step.{Run};
ghost use Rattle.draid_replay.specs.declared.history.ReplayFault.TheVariants.{NotLegal};
ghost use Rattle.draid_replay.specs.History.{IsFirstIllegal};
ghost use Rattle.draid_replay.specs.Within.{IsSmallEvent, IsWithin};
ghost use Rattle.draid_world.specs.World.{site_layout, state_of};

use crate::events::advance;
use draid_machine::Event;
use draid_world::{Site, World};
use std::alloc::Global;

/// Why a history isn't gone over to its end.
#[derive(Clone, Copy, PartialEq, Eq)]
pub enum ReplayFault {
    /// The event at this place isn't legal in the state that those before it give.
    NotLegal { at: u64 },
    NoMemory,
}

/// Goes over a history: the state that it gives, or the first event that isn't legal.
pub fn replay(
    alloc: Global,
    site: &Site,
    start: World,
    events: &[Event],
) -> Result<World, ReplayFault>
    requires within { IsWithin (state_of start) }
    requires serial { start.serial + length events.now < 2 ^ 64 - 1 }
    requires small { All IsSmallEvent events.now }
    ensures ok { IfOk result (λ world. Run (site_layout site.now) (state_of start) events.now (state_of world)) }
    ensures reached { IsReached (site_layout site.now) (state_of start)
        → IfOk result (λ world. IsReached (site_layout site.now) (state_of world)) }
    ensures not_legal { (at : ℕ) → result ≡ Err (NotLegal at) → IsFirstIllegal (site_layout site.now) (state_of start) events.now at }
{
    let mut world = start;
    for at in 0..events.len() {
        match advance(alloc, site, &mut world, &events[at]) {
            Ok(true) => {}
            Ok(false) => return Err(ReplayFault::NotLegal { at: at as u64 }),
            Err(_) => return Err(ReplayFault::NoMemory),
        }
    }
    Ok(world)
}
