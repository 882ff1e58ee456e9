//! What a sync does to all metaslabs, which it holds one at a time, in ascending order.
ghost use Rattle.std.specs.Prelude.{◌≡◌, ◌≤◌, true, None, IfSome, OnOk};
ghost use Rattle.draid_pool.specs.Drifts.{groups_number};
ghost use Rattle.draid_pool.specs.GoingOn.{SealsRest, StandsIn};
ghost use Rattle.draid_pool.specs.Grouping.{ClosesEach, ClosesNext, CommitsEach, CommitsNext, SealsNext};
ghost use Rattle.draid_pool.specs.Rounds.{EachIs};

use crate::fault::{SyncFault, Syncing};
use crate::grouping::{CloseOp, CommitOp, SealOp};
use crate::metaslabs::Metaslabs;
use draid_area::Area;
use draid_rack::Rack;

/// Closes a group in each of so many metaslabs, where it isn't closing already.
pub fn close_each<R: Rack, A: Area, M: Metaslabs<R, A>>(
    metaslabs: &mut M,
    count: u32,
    group: u64,
) -> Result<(), SyncFault>
    requires fits { M.fits metaslabs.old }
    requires own { M.owns metaslabs.old groups_number ≡ true }
    requires next { EachIs count (ClosesNext R.Rack group) (M.last metaslabs.old) }
    ensures fits { M.fits metaslabs.new }
    ensures locks { M.locks metaslabs.new ≡ M.locks metaslabs.old }
    ensures owns { M.owns metaslabs.new ≡ M.owns metaslabs.old }
    ensures next { OnOk result (EachIs count (SealsNext R.Rack group) (M.last metaslabs.new)) }
    ensures closes { ClosesEach R.Rack A.Area M.last M.went M.shared (M.owns metaslabs.old) group count metaslabs.old result metaslabs.new }
{
    for metaslab in 0..count {
        let op = metaslabs.hold(metaslab, CloseOp { group, out: None });
        let Some(closed) = op.out else { unreachable!() };
        match closed {
            Ok(()) => {}
            Err(fault) => return Err(fault),
        }
    }
    Ok(())
}

/// Seals the group of a sync in the metaslabs from its next one on, where it isn't sealed already, and counts the blocks that
/// are thin. Nothing where open writes of others are in the way: that metaslab is the next one then, and the sync may go on.
pub(crate) fn seal_rest<R: Rack, A: Area, M: Metaslabs<R, A>>(
    metaslabs: &mut M,
    count: u32,
    syncing: &mut Syncing,
) -> Option<Result<(), SyncFault>>
    requires fits { M.fits metaslabs.old }
    requires few { count ≤ 64 }
    requires own { M.owns metaslabs.old groups_number ≡ true }
    requires stands { StandsIn R.Rack count syncing.old (M.last metaslabs.old) }
    ensures fits { M.fits metaslabs.new }
    ensures locks { M.locks metaslabs.new ≡ M.locks metaslabs.old }
    ensures owns { M.owns metaslabs.new ≡ M.owns metaslabs.old }
    ensures stands { result ≡ None → StandsIn R.Rack count syncing.new (M.last metaslabs.new) }
    ensures next { IfSome result (λ sealed. OnOk sealed (EachIs count (CommitsNext R.Rack syncing.old.group) (M.last metaslabs.new))) }
    ensures seals { SealsRest R.Rack A.Area M.last M.went M.shared (M.owns metaslabs.old) count metaslabs.old syncing.old result metaslabs.new syncing.new }
{
    let group = syncing.group;
    for metaslab in syncing.next..count {
        let op = metaslabs.hold(metaslab, SealOp { group, out: None });
        let Some(sealed) = op.out else {
            return None;
        };
        match sealed {
            Ok(more) => syncing.thin += more,
            Err(fault) => return Some(Err(fault)),
        }
        syncing.next = metaslab + 1;
    }
    Some(Ok(()))
}

/// Commits a group in each of so many metaslabs, where it is sealed.
pub(crate) fn commit_each<R: Rack, A: Area, M: Metaslabs<R, A>>(
    metaslabs: &mut M,
    count: u32,
    group: u64,
)
    requires fits { M.fits metaslabs.old }
    requires own { M.owns metaslabs.old groups_number ≡ true }
    requires next { EachIs count (CommitsNext R.Rack group) (M.last metaslabs.old) }
    ensures fits { M.fits metaslabs.new }
    ensures locks { M.locks metaslabs.new ≡ M.locks metaslabs.old }
    ensures owns { M.owns metaslabs.new ≡ M.owns metaslabs.old }
    ensures commits { CommitsEach R.Rack A.Area M.last M.went M.shared (M.owns metaslabs.old) group count metaslabs.old metaslabs.new }
{
    for metaslab in 0..count {
        metaslabs.hold(metaslab, CommitOp { group });
    }
}
