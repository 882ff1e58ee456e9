//! Groups of metaslabs that are held one at a time: one is closed in all and sealed in all, then the uberblock names it,
//! and then it is committed in all. Who has the uberblock has the groups, so that nobody else changes these.
ghost use Rattle.std.specs.Prelude.{◌≡◌, ◌≤◌, ◌<◌, ◌+◌, true, None, IfOk, IfSome};
ghost use Rattle.draid_shard.specs.Fits.{Valid};
ghost use Rattle.draid_uber.specs.Held.{IsNext};
ghost use Rattle.draid_uber.specs.Slots.{group_of};
ghost use Rattle.draid_uber.specs.Uber as ubers;
ghost use Rattle.draid_pool.specs.Drifts.{groups_number};
ghost use Rattle.draid_pool.specs.GoingOn.{BeginsIn, GoesOnIn, MayGoOn, StandsIn};
ghost use Rattle.draid_pool.specs.Grouping.{ClosesNext, CommitsIn, FindsClosing, FinishesIn, SyncsIn, UberNames};
ghost use Rattle.draid_pool.specs.Rounds.{EachIs, NoneBeyond};
ghost use Rattle.draid_pool.specs.Threads.{KeepsWhole, all_of};

use crate::fault::{SyncFault, Synced, Syncing};
use crate::grouping::ClosingOp;
use crate::metaslabs::Metaslabs;
use crate::rounds::{close_each, commit_each, seal_rest};
use draid_area::Area;
use draid_names::DeviceFault;
use draid_rack::Rack;
use draid_uber::Uber;

/// Commits the group that is open in so many metaslabs. One that is closing is finished first. A sync that was stopped may
/// be made again; so is one where open writes of others are in the way, which answers nothing.
pub fn sync_groups<R: Rack, A: Area, M: Metaslabs<R, A>>(
    metaslabs: &mut M,
    uber: &mut Uber<A>,
    count: u32,
) -> Option<Result<Synced, SyncFault>>
    requires fits { M.fits metaslabs.old }
    requires some { 0 < count }
    requires few { count ≤ 64 }
    requires own { M.owns metaslabs.old groups_number ≡ true }
    requires valid { ubers.Valid A.size uber.old }
    requires ready { EachIs count (ClosesNext R.Rack (group_of (ubers.kept_of uber.old) + 1)) (M.last metaslabs.old) }
    requires beyond { NoneBeyond count (M.last metaslabs.old) }
    ensures fits { M.fits metaslabs.new }
    ensures locks { M.locks metaslabs.new ≡ M.locks metaslabs.old }
    ensures owns { M.owns metaslabs.new ≡ M.owns metaslabs.old }
    ensures valid { ubers.Valid A.size uber.new }
    ensures ready { EachIs count (ClosesNext R.Rack (group_of (ubers.kept_of uber.new) + 1)) (M.last metaslabs.new) }
    ensures beyond { NoneBeyond count (M.last metaslabs.new) }
    ensures whole { KeepsWhole R.Rack (M.owns metaslabs.old) (all_of (M.owns metaslabs.old)) (M.last metaslabs.old) (M.last metaslabs.new) }
    ensures syncs { SyncsIn R.Rack A.Area M.last M.went M.shared (M.owns metaslabs.old) count metaslabs.old uber.old result metaslabs.new uber.new }
{
    let Some(begun) = begin_sync(metaslabs, uber, count) else {
        return None;
    };
    match begun {
        Ok(begun) => {
            let mut syncing = begun;
            go_on_sync(metaslabs, uber, count, &mut syncing)
        }
        Err(fault) => Some(Err(fault)),
    }
}

/// Finishes a group that is closing in one of so many metaslabs, if there is one, and closes the next one in all. Nothing
/// where open writes of others are in the way of the first: so it may be tried again.
pub fn begin_sync<R: Rack, A: Area, M: Metaslabs<R, A>>(
    metaslabs: &mut M,
    uber: &mut Uber<A>,
    count: u32,
) -> Option<Result<Syncing, SyncFault>>
    requires fits { M.fits metaslabs.old }
    requires some { 0 < count }
    requires few { count ≤ 64 }
    requires own { M.owns metaslabs.old groups_number ≡ true }
    requires valid { ubers.Valid A.size uber.old }
    requires ready { EachIs count (ClosesNext R.Rack (group_of (ubers.kept_of uber.old) + 1)) (M.last metaslabs.old) }
    requires beyond { NoneBeyond count (M.last metaslabs.old) }
    ensures fits { M.fits metaslabs.new }
    ensures locks { M.locks metaslabs.new ≡ M.locks metaslabs.old }
    ensures owns { M.owns metaslabs.new ≡ M.owns metaslabs.old }
    ensures valid { ubers.Valid A.size uber.new }
    ensures ready { EachIs count (ClosesNext R.Rack (group_of (ubers.kept_of uber.new) + 1)) (M.last metaslabs.new) }
    ensures beyond { NoneBeyond count (M.last metaslabs.new) }
    ensures whole { KeepsWhole R.Rack (M.owns metaslabs.old) (all_of (M.owns metaslabs.old)) (M.last metaslabs.old) (M.last metaslabs.new) }
    ensures may { IfSome result (λ begun. IfOk begun (λ syncing. MayGoOn R.Rack count syncing uber.new (M.last metaslabs.new))) }
    ensures begins { BeginsIn R.Rack A.Area M.last M.went M.shared (M.owns metaslabs.old) count metaslabs.old uber.old result metaslabs.new uber.new }
{
    let Some(finished) = finish_group(metaslabs, uber, count) else {
        return None;
    };
    match finished {
        Ok(()) => {}
        Err(fault) => return Some(Err(fault)),
    }
    let group = uber.committed() + 1;
    match close_each(metaslabs, count, group) {
        Ok(()) => Some(Ok(Syncing {
            group,
            next: 0,
            thin: 0,
        })),
        Err(fault) => Some(Err(fault)),
    }
}

/// Goes on with a sync: seals its group in the metaslabs that are left, has the uberblock name it and commits it in all.
/// Nothing where open writes of others are in the way: then it may go on again, and where it stands is what it was told.
pub fn go_on_sync<R: Rack, A: Area, M: Metaslabs<R, A>>(
    metaslabs: &mut M,
    uber: &mut Uber<A>,
    count: u32,
    syncing: &mut Syncing,
) -> Option<Result<Synced, SyncFault>>
    requires fits { M.fits metaslabs.old }
    requires some { 0 < count }
    requires few { count ≤ 64 }
    requires own { M.owns metaslabs.old groups_number ≡ true }
    requires valid { ubers.Valid A.size uber.old }
    requires may { MayGoOn R.Rack count syncing.old uber.old (M.last metaslabs.old) }
    requires beyond { NoneBeyond count (M.last metaslabs.old) }
    ensures fits { M.fits metaslabs.new }
    ensures locks { M.locks metaslabs.new ≡ M.locks metaslabs.old }
    ensures owns { M.owns metaslabs.new ≡ M.owns metaslabs.old }
    ensures valid { ubers.Valid A.size uber.new }
    ensures ready { EachIs count (ClosesNext R.Rack (group_of (ubers.kept_of uber.new) + 1)) (M.last metaslabs.new) }
    ensures beyond { NoneBeyond count (M.last metaslabs.new) }
    ensures whole { KeepsWhole R.Rack (M.owns metaslabs.old) (all_of (M.owns metaslabs.old)) (M.last metaslabs.old) (M.last metaslabs.new) }
    ensures may { result ≡ None → MayGoOn R.Rack count syncing.new uber.new (M.last metaslabs.new) }
    ensures goes { GoesOnIn R.Rack A.Area M.last M.went M.shared (M.owns metaslabs.old) count metaslabs.old syncing.old uber.old result metaslabs.new syncing.new uber.new }
{
    seal_and_commit(metaslabs, uber, count, syncing)
}

/// The same, whatever other metaslabs there are.
fn seal_and_commit<R: Rack, A: Area, M: Metaslabs<R, A>>(
    metaslabs: &mut M,
    uber: &mut Uber<A>,
    count: u32,
    syncing: &mut Syncing,
) -> Option<Result<Synced, SyncFault>>
    requires fits { M.fits metaslabs.old }
    requires some { 0 < count }
    requires few { count ≤ 64 }
    requires own { M.owns metaslabs.old groups_number ≡ true }
    requires valid { ubers.Valid A.size uber.old }
    requires may { MayGoOn R.Rack count syncing.old uber.old (M.last metaslabs.old) }
    ensures fits { M.fits metaslabs.new }
    ensures locks { M.locks metaslabs.new ≡ M.locks metaslabs.old }
    ensures owns { M.owns metaslabs.new ≡ M.owns metaslabs.old }
    ensures valid { ubers.Valid A.size uber.new }
    ensures stands { result ≡ None → StandsIn R.Rack count syncing.new (M.last metaslabs.new) }
    ensures goes { GoesOnIn R.Rack A.Area M.last M.went M.shared (M.owns metaslabs.old) count metaslabs.old syncing.old uber.old result metaslabs.new syncing.new uber.new }
{
    let group = syncing.group;
    let Some(sealed) = seal_rest(metaslabs, count, syncing) else {
        return None;
    };
    match sealed {
        Ok(()) => {}
        Err(fault) => return Some(Err(fault)),
    }
    if let Err(fault) = name_group(uber, group) {
        return Some(Err(fault));
    }
    commit_each(metaslabs, count, group);
    Some(Ok(Synced {
        group,
        thin: syncing.thin,
    }))
}

/// Commits a group that is closing in one of so many metaslabs, if there is one.
pub fn finish_group<R: Rack, A: Area, M: Metaslabs<R, A>>(
    metaslabs: &mut M,
    uber: &mut Uber<A>,
    count: u32,
) -> Option<Result<(), SyncFault>>
    requires fits { M.fits metaslabs.old }
    requires some { 0 < count }
    requires few { count ≤ 64 }
    requires own { M.owns metaslabs.old groups_number ≡ true }
    requires valid { ubers.Valid A.size uber.old }
    requires ready { EachIs count (ClosesNext R.Rack (group_of (ubers.kept_of uber.old) + 1)) (M.last metaslabs.old) }
    requires beyond { NoneBeyond count (M.last metaslabs.old) }
    ensures fits { M.fits metaslabs.new }
    ensures locks { M.locks metaslabs.new ≡ M.locks metaslabs.old }
    ensures owns { M.owns metaslabs.new ≡ M.owns metaslabs.old }
    ensures valid { ubers.Valid A.size uber.new }
    ensures ready { EachIs count (ClosesNext R.Rack (group_of (ubers.kept_of uber.new) + 1)) (M.last metaslabs.new) }
    ensures beyond { NoneBeyond count (M.last metaslabs.new) }
    ensures whole { KeepsWhole R.Rack (M.owns metaslabs.old) (all_of (M.owns metaslabs.old)) (M.last metaslabs.old) (M.last metaslabs.new) }
    ensures finishes { FinishesIn R.Rack A.Area M.last M.went M.shared (M.owns metaslabs.old) count metaslabs.old uber.old result metaslabs.new uber.new }
{
    let Some(group) = find_closing(metaslabs, count) else {
        return Some(Ok(()));
    };
    let Some(came) = commit_group(metaslabs, uber, count, group) else {
        return None;
    };
    match came {
        Ok(_) => Some(Ok(())),
        Err(fault) => Some(Err(fault)),
    }
}

/// The group that is closing in the first of so many metaslabs that has one.
fn find_closing<R: Rack, A: Area, M: Metaslabs<R, A>>(metaslabs: &mut M, count: u32) -> Option<u64>
    requires fits { M.fits metaslabs.old }
    requires each { EachIs count (Valid R.Rack) (M.last metaslabs.old) }
    ensures fits { M.fits metaslabs.new }
    ensures locks { M.locks metaslabs.new ≡ M.locks metaslabs.old }
    ensures owns { M.owns metaslabs.new ≡ M.owns metaslabs.old }
    ensures found { FindsClosing R.Rack A.Area M.last M.went M.shared (M.owns metaslabs.old) count metaslabs.old result metaslabs.new }
{
    for metaslab in 0..count {
        let op = metaslabs.hold(metaslab, ClosingOp { out: None });
        if let Some(group) = op.out {
            return Some(group);
        }
    }
    None
}

/// Commits a group, the one behind the committed one, from where it stands in each of so many metaslabs.
fn commit_group<R: Rack, A: Area, M: Metaslabs<R, A>>(
    metaslabs: &mut M,
    uber: &mut Uber<A>,
    count: u32,
    group: u64,
) -> Option<Result<u64, SyncFault>>
    requires fits { M.fits metaslabs.old }
    requires some { 0 < count }
    requires few { count ≤ 64 }
    requires own { M.owns metaslabs.old groups_number ≡ true }
    requires valid { ubers.Valid A.size uber.old }
    requires next { group ≡ group_of (ubers.kept_of uber.old) + 1 }
    requires ready { EachIs count (ClosesNext R.Rack group) (M.last metaslabs.old) }
    ensures fits { M.fits metaslabs.new }
    ensures locks { M.locks metaslabs.new ≡ M.locks metaslabs.old }
    ensures owns { M.owns metaslabs.new ≡ M.owns metaslabs.old }
    ensures valid { ubers.Valid A.size uber.new }
    ensures commits { CommitsIn R.Rack A.Area M.last M.went M.shared (M.owns metaslabs.old) group count metaslabs.old uber.old result metaslabs.new uber.new }
{
    if let Err(fault) = close_each(metaslabs, count, group) {
        return Some(Err(fault));
    }
    let mut syncing = Syncing {
        group,
        next: 0,
        thin: 0,
    };
    let Some(came) = seal_and_commit(metaslabs, uber, count, &mut syncing) else {
        return None;
    };
    match came {
        Ok(done) => Some(Ok(done.thin)),
        Err(fault) => Some(Err(fault)),
    }
}

/// Has the uberblock name a group, the one behind the committed one, of which each metaslab has its record; its check record
/// is written before.
fn name_group<A: Area>(uber: &mut Uber<A>, group: u64) -> Result<(), SyncFault>
    requires next { IsNext (ubers.kept_of uber.old) group }
    requires valid { ubers.Valid A.size uber.old }
    ensures valid { ubers.Valid A.size uber.new }
    ensures names { UberNames A.Area group uber.old result uber.new }
{
    match uber.commit_with_check(group) {
        Ok(()) => Ok(()),
        Err(DeviceFault::Failed) => Err(SyncFault::Shelf),
        Err(DeviceFault::NoMemory) => Err(SyncFault::NoMemory),
    }
}
