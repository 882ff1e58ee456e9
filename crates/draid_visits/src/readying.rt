//! The rebuild of a metaslab is made to run, in holds.
ghost use Rattle.std.specs.Prelude.{◌≡◌, ◌<◌, ◌≤◌, ◌+◌, true};
ghost use Rattle.draid_names.specs.declared.pass_kind.PassKind.TheVariants.{Rebuild};
ghost use Rattle.draid_uber.specs.Slots.{group_of};
ghost use Rattle.draid_uber.specs.Uber as ubers;
ghost use Rattle.draid_pool.specs.Drifts.{groups_number, passes_number};
ghost use Rattle.draid_pool.specs.Grouping.{ClosesNext};
ghost use Rattle.draid_pool.specs.Rounds.{EachIs, NoneBeyond};
ghost use Rattle.draid_pool.specs.Threads.{KeepsWhole, all_of};
ghost use Rattle.draid_visits.specs.Readies.{AllKeptFor, MayReadyIn, ReadiesBy};
ghost use Rattle.draid_visits.specs.Starts.{LeftSo};

use crate::holding::ReadyOp;
use draid_area::Area;
use draid_pool::{Metaslabs, SyncFault, Synced, sync_groups};
use draid_rack::Rack;
use draid_uber::Uber;

/// How the groups are committed for which a rebuild waits.
pub trait Syncs<R: Rack, A: Area, M: Metaslabs<R, A>> {
    ghost use Rattle.std.specs.Prelude.{◌≡◌, ◌<◌, ◌≤◌, ◌+◌, ℕ, Bool, Ok, Option, Result, Some, true};
    ghost use Rattle.draid_uber.specs.Slots.{group_of};
    ghost use Rattle.draid_uber.specs.Uber as ubers;
    ghost use Rattle.draid_uber.specs.declared.uber.Uber.{Uber};
    ghost use Rattle.draid_pool.specs.Drifts.{groups_number, passes_number};
    ghost use Rattle.draid_pool.specs.Grouping.{ClosesNext};
    ghost use Rattle.draid_pool.specs.Rounds.{EachIs, NoneBeyond};
    ghost use Rattle.draid_pool.specs.Threads.{KeepsWhole, all_of};
    ghost use Rattle.draid_pool.specs.declared.fault.SyncFault.{SyncFault};
    ghost use Rattle.draid_pool.specs.declared.fault.Synced.{Synced};
    ghost use Rattle.draid_visits.specs.Readies.{KeepsParts};

    /// What became of so many metaslabs and of the uberblock, by who owns these numbers.
    ghost relates: { (ℕ → Bool) → ℕ → M → Uber A → Option (Result Synced SyncFault) → M → Uber A → Type 0 };

    /// Commits the group that is open in so many metaslabs. Where it gives up there is no answer.
    fn sync(
        &self,
        metaslabs: &mut M,
        uber: &mut Uber<A>,
        count: u32,
    ) -> Option<Result<Synced, SyncFault>>
        requires fits { M.fits metaslabs.old }
        requires some { 0 < count }
        requires few { count ≤ 64 }
        requires own { M.owns metaslabs.old groups_number ≡ true }
        requires passes { M.owns metaslabs.old passes_number ≡ true }
        requires valid { ubers.Valid A.size uber.old }
        requires ready { EachIs count (ClosesNext R.Rack (group_of (ubers.kept_of uber.old) + 1)) (M.last metaslabs.old) }
        requires beyond { NoneBeyond count (M.last metaslabs.old) }
        ensures fits { M.fits metaslabs.new }
        ensures locks { M.locks metaslabs.new ≡ M.locks metaslabs.old }
        ensures owns { M.owns metaslabs.new ≡ M.owns metaslabs.old }
        ensures valid { ubers.Valid A.size uber.new }
        ensures ready { EachIs count (ClosesNext R.Rack (group_of (ubers.kept_of uber.new) + 1)) (M.last metaslabs.new) }
        ensures beyond { NoneBeyond count (M.last metaslabs.new) }
        ensures whole { KeepsWhole R.Rack (M.owns metaslabs.old) (all_of (M.owns metaslabs.old)) (M.last metaslabs.old) (M.last metaslabs.new) }
        ensures keeps { KeepsParts (M.last metaslabs.old) (M.last metaslabs.new) }
        ensures rises { (it : Synced) → result ≡ Some (Ok it) → group_of (ubers.kept_of uber.old) < group_of (ubers.kept_of uber.new) }
        ensures syncs { relates (M.owns metaslabs.old) count metaslabs.old uber.old result metaslabs.new uber.new };
}

/// The groups of metaslabs that nobody else holds.
pub(crate) struct Alone;

impl<R: Rack, A: Area, M: Metaslabs<R, A>> Syncs<R, A, M> for Alone {
    ghost use Rattle.draid_pool.specs.Grouping.{SyncsIn};

    ghost relates = { λ owns count a u out b v. SyncsIn R.Rack A.Area M.last M.went M.shared owns count a u out b v };

    fn sync(
        &self,
        metaslabs: &mut M,
        uber: &mut Uber<A>,
        count: u32,
    ) -> Option<Result<Synced, SyncFault>> {
        sync_groups(metaslabs, uber, count)
    }
}

/// Makes the rebuild of a metaslab run: groups are committed as long as it has to wait. Where a sync gives up there is no answer.
pub(crate) fn make_ready<R: Rack, A: Area, M: Metaslabs<R, A>, S: Syncs<R, A, M>>(
    by: &S,
    metaslabs: &mut M,
    uber: &mut Uber<A>,
    count: u32,
    metaslab: u32,
) -> Option<Result<(), SyncFault>>
    requires fits { M.fits metaslabs.old }
    requires below { metaslab < count }
    requires few { count ≤ 64 }
    requires own { M.owns metaslabs.old groups_number ≡ true }
    requires passes { M.owns metaslabs.old passes_number ≡ true }
    requires valid { ubers.Valid A.size uber.old }
    requires ready { EachIs count (ClosesNext R.Rack (group_of (ubers.kept_of uber.old) + 1)) (M.last metaslabs.old) }
    requires beyond { NoneBeyond count (M.last metaslabs.old) }
    requires rebuild { LeftSo metaslab (MayReadyIn R.Rack) (M.last metaslabs.old) }
    ensures fits { M.fits metaslabs.new }
    ensures locks { M.locks metaslabs.new ≡ M.locks metaslabs.old }
    ensures owns { M.owns metaslabs.new ≡ M.owns metaslabs.old }
    ensures valid { ubers.Valid A.size uber.new }
    ensures ready { EachIs count (ClosesNext R.Rack (group_of (ubers.kept_of uber.new) + 1)) (M.last metaslabs.new) }
    ensures beyond { NoneBeyond count (M.last metaslabs.new) }
    ensures whole { KeepsWhole R.Rack (M.owns metaslabs.old) (all_of (M.owns metaslabs.old)) (M.last metaslabs.old) (M.last metaslabs.new) }
    ensures kept { AllKeptFor Rebuild (M.last metaslabs.old) (M.last metaslabs.new) }
    ensures readies { ReadiesBy R.Rack A.Area M.last M.went M.shared (M.owns metaslabs.old) (S.relates (M.owns metaslabs.old) count) metaslab metaslabs.old uber.old result metaslabs.new uber.new }
{
    'waits: loop {
        let op = metaslabs.hold(metaslab, ReadyOp { out: false });
        if op.out {
            return Some(Ok(()));
        }
        let Some(came) = by.sync(metaslabs, uber, count) else {
            return None;
        };
        match came {
            Ok(_) => {}
            Err(why) => return Some(Err(why)),
        }
    }
}
