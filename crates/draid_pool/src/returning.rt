ghost use Rattle.std.specs.Prelude.{◌≡◌, ◌≤◌, ℕ, None, IfOk, IsSome, MatchOption, OnErr, OnOk, length, true, ⊤};
ghost use Rattle.draid_session.specs.State.{State};
ghost use Rattle.draid_shelf.specs.Kits.{NeedsUber, OnHeld, ShelfCounts};
ghost use Rattle.draid_uber.specs.Checks.{told_by};
ghost use Rattle.draid_shelf.specs.Shelf.{most_metaslabs};
ghost use Rattle.draid_pool.specs.Returning.{GivesBack, IsFirm, Returns, ReturnsLeaves, AreaFailed, RackFailed};
ghost use Rattle.draid_pool.specs.Taking.{AreSilent, TellsAreas, gives_areas, takes_areas};
ghost use Rattle.draid_pool.specs.Failing.{AreaFails, RackFails};
ghost use Rattle.draid_pool.specs.Pools.{Represents};
ghost use Rattle.draid_pool.specs.Whole.{IsWhole};

use crate::pool::Pool;
use draid_area::Area;
use draid_names::DeviceFault;
use draid_rack::Rack;
use draid_shard::Shard;
use draid_shelf::{Kit, Shelf};
use draid_uber::Areas;

/// Gives the devices of the shards back to the shelf, each as those of its place.
pub fn give_back<H: Shelf>(shelf: &mut H, shards: Vec<Shard<H::R, H::A>>)
    requires few { length shards.items ≤ most_metaslabs }
    ensures returns { Returns H.R.Rack H.A.Area shards.items (H.told shelf.old) (H.told shelf.new) (H.counts shelf.old) (H.counts shelf.new) }
    ensures leaves { ReturnsLeaves H.R.Rack shards.items (H.leaves shelf.old) (H.leaves shelf.new) }
    ensures uber { H.uber_count shelf.new ≡ H.uber_count shelf.old }
    ensures checks { H.check_counts shelf.new ≡ H.check_counts shelf.old }
    ensures faults { H.faults shelf.new ≡ H.faults shelf.old }
{
    let mut left = shards;
    while let Some(shard) = left.pop() {
        shelf.give(left.len() as u32, into_kit(shard));
    }
}

/// Takes the areas of a pool that aren't a metaslab's. After a refusal they are on the shelf, if they were.
pub fn take_areas<H: Shelf>(shelf: &mut H) -> Result<Areas<H::A>, DeviceFault>
    ensures areas { IfOk result (λ areas. OnHeld (H.told shelf.old) (TellsAreas (told_by H.A.told areas))) }
    ensures untold { IfOk result (λ areas. H.told shelf.old ≡ None → AreSilent (told_by H.A.told areas)) }
    ensures told { OnOk result (H.told shelf.new ≡ takes_areas (H.told shelf.old)) }
    ensures size { IfOk result (λ areas. MatchOption (H.uber_size shelf.old) ⊤ (λ n. H.A.size areas.uber ≡ n)) }
    ensures count { IfOk result (λ areas. (H.A.faults areas.uber ≡ H.uber_count shelf.old)
        × (H.A.faults areas.even ≡ (H.check_counts shelf.old).even) × (H.A.faults areas.odd ≡ (H.check_counts shelf.old).odd)) }
    ensures leaves { (m : ℕ) → H.leaves shelf.new m ≡ H.leaves shelf.old m }
    ensures counts { (m : ℕ) → H.counts shelf.new m ≡ H.counts shelf.old m }
    ensures needs { NeedsUber result (H.told shelf.old) }
    ensures some { OnOk result (OnHeld (H.told shelf.old) (λ held. IsSome held.checks)) }
    ensures back { OnErr result (H.told shelf.new ≡ H.told shelf.old) }
    ensures back_count { OnErr result ((H.uber_count shelf.new ≡ H.uber_count shelf.old) × (H.check_counts shelf.new ≡ H.check_counts shelf.old)) }
    ensures cause { ShelfCounts result (H.faults shelf.old) (H.faults shelf.new) }
{
    let uber = shelf.take_uber()?;
    match shelf.take_check() {
        Ok((even, odd)) => Ok(Areas { uber, even, odd }),
        Err(fault) => {
            shelf.give_uber(uber);
            Err(fault)
        }
    }
}

/// Gives the areas of a pool that aren't a metaslab's back to the shelf.
pub fn give_areas<H: Shelf>(shelf: &mut H, areas: Areas<H::A>)
    ensures told { H.told shelf.new ≡ gives_areas (told_by H.A.told areas) (H.told shelf.old) }
    ensures uber { H.uber_count shelf.new ≡ H.A.faults areas.uber }
    ensures checks { H.check_counts shelf.new ≡ record { even = H.A.faults areas.even; odd = H.A.faults areas.odd } }
    ensures leaves { (m : ℕ) → H.leaves shelf.new m ≡ H.leaves shelf.old m }
    ensures counts { (m : ℕ) → H.counts shelf.new m ≡ H.counts shelf.old m }
    ensures faults { H.faults shelf.new ≡ H.faults shelf.old }
{
    let Areas { uber, even, odd } = areas;
    shelf.give_uber(uber);
    shelf.give_check(even, odd);
}

/// Gives the devices of all metaslabs and the pool's own areas back to the shelf, without a sync, and all that it holds
/// a crash, where one is asked for.
pub fn close<H: Shelf>(pool: Pool<H::R, H::A>, shelf: &mut H, crash: bool)
    requires whole { IsWhole H.R.Rack H.A.Area pool }
    ensures back { (x : State) → Represents H.R.Rack H.A.Area pool x
        → GivesBack x crash (H.told shelf.new) (H.leaves shelf.new) (H.counts shelf.new)
        (record { uber = H.uber_count shelf.new; checks = H.check_counts shelf.new }) }
    // Behind a crash nothing that the shelf tells is soft.
    ensures crash { crash ≡ true → OnHeld (H.told shelf.new) IsFirm }
    // What has failed on an area of the pool, or on a rack as a whole, shows on the shelf.
    ensures failed { AreaFails H.A.faults pool → AreaFailed (H.counts shelf.new)
        (record { uber = H.uber_count shelf.new; checks = H.check_counts shelf.new }) }
    ensures racks { RackFails H.R.faults pool → RackFailed (H.counts shelf.new) }
    ensures faults { H.faults shelf.new ≡ H.faults shelf.old }
{
    give_back(shelf, pool.metaslabs.shards);
    give_areas(shelf, pool.uber.into_areas());
    if crash {
        shelf.crash();
    }
}

/// Gives the devices back.
pub fn into_kit<R: Rack, A: Area>(shard: Shard<R, A>) -> Kit<R, A>
    ensures { result ≡ record { rack = shard.rack; even = shard.even; odd = shard.odd } }
{
    Kit {
        rack: shard.rack,
        even: shard.even,
        odd: shard.odd,
    }
}
