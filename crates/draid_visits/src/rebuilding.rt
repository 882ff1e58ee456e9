//! A rebuild and a scrub of a pool, whose metaslabs and uberblock nobody else holds.
ghost use Rattle.std.specs.Prelude.{◌≡◌, IfOk, IsErrOf, Option};
ghost use Rattle.draid_session.specs.Replies.{IsWithin};
ghost use Rattle.draid_session.specs.State.{State};
ghost use Rattle.draid_pool.specs.Carries.{CarriesOut};
ghost use Rattle.draid_pool.specs.Failing.{AreaRose, AreasLater};
ghost use Rattle.draid_pool.specs.Pointers.{SamePointers};
ghost use Rattle.draid_pool.specs.Pools.{Represents};
ghost use Rattle.draid_pool.specs.Syncing.{AreIdle};
ghost use Rattle.draid_pool.specs.Whole.{IsWhole};
ghost use Rattle.draid_visits.specs.Rebuilding.{RebuildDoes, RebuildIs, ScrubDoes, ScrubIs};

use crate::mending::{begin_rebuild, begin_scrub, go_on};
use crate::readying::Alone;
use draid_area::Area;
use draid_pool::Pool;
use draid_rack::Rack;

/// What a rebuild or a scrub did: the pool's stripe at which its first pass went on, the stripes or blocks that it lent, the
/// columns that it rewrote, counted by arm, the errors of the passes that it ended, and whether it stopped at its limit.
#[derive(Clone, Copy)]
pub struct Mended {
    pub from: u64,
    pub units: u64,
    pub repaired: u64,
    pub errors: u64,
    pub paused: bool,
}

/// Why a pool wasn't rebuilt or scrubbed, or not to its end.
#[derive(Clone, Copy)]
pub enum MendFault {
    /// No metaslab has a rebuild, nor an arm that one would make good.
    Nothing,
    /// This is the lowest metaslab with a pass of the other kind, and the pass's number.
    PassThere { metaslab: u32, number: u64 },
    /// A metaslab has too many events.
    Worn,
    /// No number is left for a pass or a group.
    Last,
    /// The area of a metaslab's records or that of the uberblock failed.
    Shelf,
    NoMemory,
}

/// Rebuilds the metaslabs that need it, one after another, and lends at most so many stripes.
pub fn rebuild<R: Rack, A: Area>(
    pool: &mut Pool<R, A>,
    limit: Option<u64>,
) -> Result<Mended, MendFault>
    requires whole { IsWhole R.Rack A.Area pool.old }
    ensures whole { IsWhole R.Rack A.Area pool.new }
    ensures same { SamePointers pool.old pool.new }
    ensures later { AreasLater A.faults pool.old pool.new }
    ensures cause { IsErrOf result MendFault.Shelf → AreaRose A.faults pool.old pool.new }
    ensures within { IfOk result (λ it. IsWithin limit it.units it.paused) }
    ensures carries { (x : State) → Represents R.Rack A.Area pool.old x
        → CarriesOut R.Rack A.Area pool.new x (RebuildDoes x limit result) }
    ensures passes { RebuildIs result pool.old pool.new }
{
    let geometry = pool.geometry;
    let mut mending = match begin_rebuild(&mut pool.metaslabs, geometry.props.metaslabs, limit) {
        Ok(mending) => mending,
        Err(fault) => return Err(fault),
    };
    match go_on(
        &Alone,
        &mut pool.metaslabs,
        &mut pool.uber,
        &geometry,
        &mut mending,
    ) {
        Some(answer) => answer,
        None => unreachable!(),
    }
}

/// Scrubs the metaslabs from the first that has a scrub on, or all, one after another, and lends at most so many blocks.
pub fn scrub<R: Rack, A: Area>(
    pool: &mut Pool<R, A>,
    limit: Option<u64>,
) -> Result<Mended, MendFault>
    requires whole { IsWhole R.Rack A.Area pool.old }
    ensures whole { IsWhole R.Rack A.Area pool.new }
    ensures same { SamePointers pool.old pool.new }
    ensures geometry { pool.new.geometry ≡ pool.old.geometry }
    ensures later { AreasLater A.faults pool.old pool.new }
    ensures within { IfOk result (λ it. IsWithin limit it.units it.paused) }
    ensures carries { (x : State) → Represents R.Rack A.Area pool.old x
        → CarriesOut R.Rack A.Area pool.new x (ScrubDoes x limit result) }
    ensures passes { ScrubIs result pool.old pool.new }
    // No group comes to close behind it.
    ensures idle { AreIdle pool.old.metaslabs.shards.items → AreIdle pool.new.metaslabs.shards.items }
{
    let geometry = pool.geometry;
    let mut mending = match begin_scrub(&mut pool.metaslabs, geometry.props.metaslabs, limit) {
        Ok(mending) => mending,
        Err(fault) => return Err(fault),
    };
    match go_on(
        &Alone,
        &mut pool.metaslabs,
        &mut pool.uber,
        &geometry,
        &mut mending,
    ) {
        Some(answer) => answer,
        None => unreachable!(),
    }
}
