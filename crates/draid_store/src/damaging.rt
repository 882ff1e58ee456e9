ghost use Rattle.std.specs.Prelude.{◌≡◌, ◌<◌};
ghost use Rattle.draid_spec.specs.Geometry.{metaslab_sectors};
ghost use Rattle.draid_segments.specs.Segments.{Pieces};
ghost use Rattle.draid_shard.specs.Alike.{KeepsArms};
ghost use Rattle.draid_shard.specs.Changes.{KeepsBlocks};
ghost use Rattle.draid_shard.specs.Fits.{Valid};
ghost use Rattle.draid_shard.specs.Part.{Part};
ghost use Rattle.draid_shard.specs.States.{part_of};
ghost use Rattle.draid_session.specs.State.{Metaslab, State};
ghost use Rattle.draid_pool.specs.Metaslabs.{IsMetaslab};
ghost use Rattle.draid_pool.specs.Pointers.{SamePointers};
ghost use Rattle.draid_pool.specs.Shards.{Goes, SameBlocks};
ghost use Rattle.draid_store.specs.Shards.{SectorDoes};
ghost use Rattle.draid_store.specs.Answers.{DamageDoes};
ghost use Rattle.draid_pool.specs.Carries.{CarriesOut};
ghost use Rattle.draid_pool.specs.Pools.{Represents};
ghost use Rattle.draid_pool.specs.Whole.{IsWhole};

use crate::fault::DamageFault;
use draid_area::Area;
use draid_entries::ReserveFault;
use draid_pool::Pool;
use draid_rack::Rack;
use draid_shard::Shard;

/// Damages a sector of a shard, for which an event is reserved first.
fn damage_sector<R: Rack, A: Area>(
    shard: &mut Shard<R, A>,
    leaf: u64,
    sector: u64,
) -> Result<(), DamageFault>
    requires valid { Valid R.Rack shard.old }
    requires sector { sector < metaslab_sectors shard.old.geometry }
    ensures valid { Valid R.Rack shard.new }
    ensures part { part_of shard.new ≡ part_of shard.old }
    ensures keeps { KeepsBlocks shard.old shard.new }
    ensures slots { KeepsArms shard.old.slots shard.new.slots }
    ensures damages { (part : Part) (pieces : Pieces) (x : Metaslab) → IsMetaslab R.Rack A.Area part pieces shard.old x
        → Goes R.Rack A.Area part pieces x shard.new (λ holds y. SectorDoes part leaf sector x result holds × SameBlocks x y) }
{
    if !shard.has_leaf(leaf) {
        return Err(DamageFault::NoSuch);
    }
    match shard.reserve(1) {
        Ok(()) => {}
        Err(ReserveFault::Worn { .. }) => return Err(DamageFault::Worn),
        Err(ReserveFault::NoMemory) => return Err(DamageFault::NoMemory),
    }
    match draid_blocks::damage(shard, leaf, sector) {
        Ok(()) => Ok(()),
        Err(_) => Err(DamageFault::Failed),
    }
}

/// Makes each byte of a sector of a leaf its complement, and the sector harmed. It is counted through the metaslabs.
pub fn damage<R: Rack, A: Area>(
    pool: &mut Pool<R, A>,
    leaf: u64,
    sector: u64,
) -> Result<(), DamageFault>
    requires whole { IsWhole R.Rack A.Area pool.old }
    ensures whole { IsWhole R.Rack A.Area pool.new }
    ensures same { SamePointers pool.old pool.new }
    ensures step { (x : State) → Represents R.Rack A.Area pool.old x
        → CarriesOut R.Rack A.Area pool.new x (DamageDoes x leaf sector result) }
{
    let sectors = pool.geometry.metaslab_sectors();
    let metaslab = sector / sectors;
    if metaslab >= u64::from(pool.geometry.props.metaslabs) {
        return Err(DamageFault::NoSuch);
    }
    damage_sector(
        &mut pool.metaslabs.shards[metaslab as usize],
        leaf,
        sector % sectors,
    )
}
