ghost use Rattle.std.specs.Prelude.{◌≡◌, ◌<◌, ◌^◌, ◌-◌, true, false, Ok};
ghost use Rattle.draid_machine.specs.Step.{Step};
ghost use Rattle.draid_machine.specs.State.{State};
ghost use Rattle.draid_replay.specs.Kinds.{is_begin, is_landing};
ghost use Rattle.draid_replay.specs.Within.{IsSmallEvent, IsWithin};
ghost use Rattle.draid_world.specs.World.{site_layout, state_of};

use draid_arms::{attach, detach};
use draid_images::{reopen, seal};
use draid_loans::lend;
use draid_machine::{Event, Held, Stage};
use draid_names::NoMemory;
use draid_passes::{cancel, done, plan, ready};
use draid_rebuilds::land_stripe;
use draid_scrubs::land_block;
use draid_steps::blocks::{abort, finish, free};
use draid_steps::columns::put;
use draid_steps::commits::commit;
use draid_steps::fetch::may_fetch;
use draid_steps::groups::{close, upgrade};
use draid_steps::leaves::{may_damage, switch};
use draid_steps::tickets::begin;
use draid_world::{Site, World};
use std::alloc::Global;

/// Opens the ticket that an event tells of, where that is legal.
#[tactic(auto, using(crate::proofs::Needs::low))]
fn open_ticket(site: &Site, world: &mut World, event: &Event) -> Result<bool, NoMemory>
    requires within { IsWithin (state_of world.old) }
    requires small { IsSmallEvent event.now }
    requires kind { is_begin event.now ≡ true }
    ensures legal { result ≡ Ok true → Step (site_layout site.now) (state_of world.old) event.now (state_of world.new) }
    ensures illegal { result ≡ Ok false → (new : State) → Step (site_layout site.now) (state_of world.old) event.now new → ⊥ }
{
    let Event::Begin {
        key,
        first,
        stripes,
        len,
        birth,
        digest,
    } = event
    else {
        return Ok(false);
    };
    let held = Held {
        first: *first,
        stripes: *stripes,
        len: *len,
        birth: *birth,
        digest: *digest,
        stage: Stage::Writing {
            columns: 0,
            missed: 0,
        },
    };
    begin(site, world, *key, held)
}

/// Lands the loan that an event tells of, where that is legal.
#[tactic(auto, using(crate::proofs::Needs::short, crate::proofs::Needs::stripe_small))]
fn land(alloc: Global, site: &Site, world: &mut World, event: &Event) -> Result<bool, NoMemory>
    requires within { IsWithin (state_of world.old) }
    requires kind { is_landing event.now ≡ true }
    ensures legal { result ≡ Ok true → Step (site_layout site.now) (state_of world.old) event.now (state_of world.new) }
    ensures illegal { result ≡ Ok false → (new : State) → Step (site_layout site.now) (state_of world.old) event.now new → ⊥ }
{
    match event {
        Event::LandStripe {
            pass,
            serial,
            failed,
        } => land_stripe(alloc, site, world, *pass, *serial, failed),
        Event::LandBlock {
            pass,
            serial,
            failed,
            patched,
            unreadable,
        } => {
            land_block(
                alloc,
                site,
                world,
                *pass,
                *serial,
                failed,
                patched,
                *unreadable,
            )
        }
        _ => Ok(false),
    }
}

/// Does what an event says, where that is legal.
#[tactic(auto, using(crate::proofs::Needs::low, crate::proofs::Needs::counted, crate::proofs::Needs::short, crate::proofs::Needs::image_low, crate::proofs::Needs::sealed_low, crate::proofs::Needs::max_small))]
pub fn advance(
    alloc: Global,
    site: &Site,
    world: &mut World,
    event: &Event,
) -> Result<bool, NoMemory>
    requires within { IsWithin (state_of world.old) }
    requires serial { world.old.serial < 2 ^ 64 - 1 }
    requires small { IsSmallEvent event.now }
    ensures legal { result ≡ Ok true → Step (site_layout site.now) (state_of world.old) event.now (state_of world.new) }
    ensures illegal { result ≡ Ok false → (new : State) → Step (site_layout site.now) (state_of world.old) event.now new → ⊥ }
{
    match event {
        Event::Begin { .. } => open_ticket(site, world, event),
        Event::Put {
            key,
            landed,
            failed,
        } => put(site, world, *key, landed.as_slice(), failed.as_slice()),
        Event::Finish { key } => Ok(finish(site, world, *key)),
        Event::Abort { key } => Ok(abort(world, *key)),
        Event::Free { key, group } => Ok(free(world, *key, *group)),
        Event::Fetch { key, failed } => Ok(may_fetch(site, world, *key, failed)),
        Event::Damage { leaf, sector, .. } => Ok(may_damage(site, world, *leaf, *sector)),
        Event::Offline { leaf } => Ok(switch(world, *leaf, true)),
        Event::Online { leaf } => Ok(switch(world, *leaf, false)),
        Event::Attach { slot, arm } => attach(alloc, site, world, *slot, *arm),
        Event::Detach { slot, arm } => detach(alloc, site, world, *slot, *arm),
        Event::Upgrade => Ok(upgrade(world)),
        Event::Close { group } => Ok(close(world, *group)),
        Event::Seal { group, failed } => seal(alloc, site, world, *group, failed),
        Event::Commit { group } => commit(alloc, site, world, *group),
        Event::Plan { kind } => plan(alloc, site, world, *kind),
        Event::Ready => Ok(ready(world)),
        Event::Lend { failed } => lend(alloc, site, world, failed),
        Event::LandStripe { .. } | Event::LandBlock { .. } => land(alloc, site, world, event),
        Event::Done { failed } => Ok(done(site, world, failed)),
        Event::Cancel => Ok(cancel(world)),
        Event::Reopen { group, doubtful } => reopen(alloc, site, world, *group, doubtful),
    }
}
