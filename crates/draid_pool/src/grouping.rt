//! What a sync does to one metaslab in a hold.
ghost use Rattle.draid_pool.specs.Grouping.{ClosesIn, ClosesNext, SealsIn, SealsNext};

use crate::closing::close_group;
use crate::committing::commit;
use crate::fault::{CloseFault, SealFault, SyncFault};
use crate::sealing::seal;
use draid_area::Area;
use draid_rack::Rack;
use draid_shard::Shard;
use draid_turn::Act;

/// The number that a hold concerns which changes the groups of a metaslab, its arms or its reserved events; it is no object's.
pub const GROUPS: u64 = 4_294_967_312;

/// The number that a hold concerns which changes the pass of a metaslab; it is no object's.
pub const PASSES: u64 = 4_294_967_313;

/// Closes a group in a shard where it isn't closing already.
fn close_in<R: Rack, A: Area>(shard: &mut Shard<R, A>, group: u64) -> Result<(), SyncFault>
    requires { ClosesNext R.Rack group shard.old }
    ensures { ClosesIn R.Rack A.Area group shard.old result shard.new }
{
    if shard.closing().is_some() {
        return Ok(());
    }
    match close_group(shard, group) {
        Ok(()) => Ok(()),
        Err(CloseFault::Worn { .. }) => Err(SyncFault::Worn),
        Err(CloseFault::Last) => Err(SyncFault::Last),
        Err(CloseFault::NoMemory) => Err(SyncFault::NoMemory),
    }
}

/// Seals a group in a shard where it isn't sealed already, and counts the blocks that are thin. Nothing where open writes
/// that were begun up to the group are in the way.
fn seal_in<R: Rack, A: Area>(shard: &mut Shard<R, A>, group: u64) -> Option<Result<u64, SyncFault>>
    requires { SealsNext R.Rack group shard.old }
    ensures { SealsIn R.Rack A.Area group shard.old result shard.new }
{
    if shard.sealed() {
        return Some(Ok(0));
    }
    match seal(shard, group) {
        Ok(sealed) => Some(Ok(sealed.thin)),
        Err(SealFault::NotYet { .. }) => None,
        Err(SealFault::Area) => Some(Err(SyncFault::Shelf)),
        Err(SealFault::NoMemory) => Some(Err(SyncFault::NoMemory)),
    }
}

/// The closing of a group in a metaslab where it isn't closing already.
#[derive(Drop)]
pub(crate) struct CloseOp {
    pub group: u64,
    pub out: Option<Result<(), SyncFault>>,
}

impl<R: Rack, A: Area> Act<Shard<R, A>> for CloseOp {
    ghost use Rattle.std.specs.Prelude.{Some, MatchOption};
    ghost use Rattle.draid_pool.specs.Drifts.{groups_number};
    ghost use Rattle.draid_pool.specs.Grouping.{ClosesIn, ClosesNext};

    ghost needs = { λ o s. ClosesNext R.Rack o.group s };

    ghost relates = { λ o s o' s'. MatchOption o'.out ⊥ (λ result. ClosesIn R.Rack A.Area o.group s result s') };

    ghost concerns = { λ _. Some groups_number };

    fn concerned(&self) -> Option<u64> {
        Some(GROUPS)
    }

    fn act(&mut self, shard: &mut Shard<R, A>) {
        self.out = Some(close_in(shard, self.group));
    }
}

/// The sealing of a group in a metaslab where it isn't sealed already.
#[derive(Drop)]
pub(crate) struct SealOp {
    pub group: u64,
    /// How many blocks are thin, or nothing where open writes are in the way.
    pub out: Option<Result<u64, SyncFault>>,
}

impl<R: Rack, A: Area> Act<Shard<R, A>> for SealOp {
    ghost use Rattle.std.specs.Prelude.{Some};
    ghost use Rattle.draid_pool.specs.Drifts.{groups_number};
    ghost use Rattle.draid_pool.specs.Grouping.{SealsIn, SealsNext};

    ghost needs = { λ o s. SealsNext R.Rack o.group s };

    ghost relates = { λ o s o' s'. SealsIn R.Rack A.Area o.group s o'.out s' };

    ghost concerns = { λ _. Some groups_number };

    fn concerned(&self) -> Option<u64> {
        Some(GROUPS)
    }

    fn act(&mut self, shard: &mut Shard<R, A>) {
        self.out = seal_in(shard, self.group);
    }
}

/// The commit of a group in a metaslab where it is sealed.
#[derive(Drop)]
pub(crate) struct CommitOp {
    pub group: u64,
}

impl<R: Rack, A: Area> Act<Shard<R, A>> for CommitOp {
    ghost use Rattle.std.specs.Prelude.{Some};
    ghost use Rattle.draid_pool.specs.Drifts.{groups_number};
    ghost use Rattle.draid_pool.specs.Grouping.{CommitsNext};
    ghost use Rattle.draid_pool.specs.Syncing.{Commits};

    ghost needs = { λ o s. CommitsNext R.Rack o.group s };

    ghost relates = { λ o s o' s'. Commits R.Rack o.group s s' };

    ghost concerns = { λ _. Some groups_number };

    fn concerned(&self) -> Option<u64> {
        Some(GROUPS)
    }

    fn act(&mut self, shard: &mut Shard<R, A>) {
        commit(shard, self.group);
    }
}

/// A look at which group is closing in a metaslab.
#[derive(Drop)]
pub(crate) struct ClosingOp {
    pub out: Option<u64>,
}

impl<R: Rack, A: Area> Act<Shard<R, A>> for ClosingOp {
    ghost use Rattle.std.specs.Prelude.{None};
    ghost use Rattle.draid_shard.specs.Fits.{Valid};
    ghost use Rattle.draid_pool.specs.Grouping.{SeesClosing};

    ghost needs = { λ _ s. Valid R.Rack s };

    ghost relates = { λ o s o' s'. SeesClosing o'.out s s' };

    ghost concerns = { λ _. None };

    fn concerned(&self) -> Option<u64> {
        None
    }

    fn act(&mut self, shard: &mut Shard<R, A>) {
        self.out = shard.closing();
    }
}
