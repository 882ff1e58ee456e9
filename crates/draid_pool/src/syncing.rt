//! Groups of a pool, whose metaslabs and uberblock nobody else holds.
ghost use Rattle.std.specs.Prelude.{◌≡◌, ◌<◌, ◌≤◌, IfOk, IsErrOf, OnOk};
ghost use Rattle.draid_session.specs.Groups as groups;
ghost use Rattle.draid_session.specs.State.{State};
ghost use Rattle.draid_pool.specs.Syncing.{SyncDoes, AreIdle, Phase, end_of};
ghost use Rattle.draid_pool.specs.Carries.{CarriesOut};
ghost use Rattle.draid_pool.specs.Failing.{AreaRose, AreasLater, RacksLater};
ghost use Rattle.draid_pool.specs.Keeping.{AllArmsStay, AllAskedStay, AllHaveAsked};
ghost use Rattle.draid_pool.specs.Passes.{KeepsPasses};
ghost use Rattle.draid_pool.specs.Pointers.{SamePointers};
ghost use Rattle.draid_pool.specs.Pools.{Represents, group_in};
ghost use Rattle.draid_pool.specs.Whole.{IsWhole};

use crate::fault::{SyncFault, Synced};
use crate::phases::{finish_group, sync_groups};
use crate::pool::Pool;
use draid_area::Area;
use draid_rack::Rack;

impl<R: Rack, A: Area> Pool<R, A> {
    /// Commits the group that is open. One that is closing is finished first. A sync that was stopped may be made again.
    pub fn sync(&mut self) -> Result<Synced, SyncFault>
        requires whole { IsWhole R.Rack A.Area self.old }
        ensures whole { IsWhole R.Rack A.Area self.new }
        ensures same { SamePointers self.old self.new }
        ensures later { AreasLater A.faults self.old self.new }
        ensures passes { KeepsPasses self.old self.new }
        ensures racks { RacksLater R.faults self.old self.new }
        ensures arms { AllArmsStay self.old self.new }
        ensures asked { AllAskedStay self.old self.new }
        ensures versions { OnOk result (AllHaveAsked self.new) }
        ensures rises { OnOk result (group_in self.old < group_in self.new) }
        ensures names { IfOk result (λ synced. synced.group ≡ group_in self.new) }
        ensures idle { OnOk result (AreIdle self.new.metaslabs.shards.items) }
        ensures cause { IsErrOf result SyncFault.Shelf → AreaRose A.faults self.old self.new }
        ensures carries { (x : State) → Represents R.Rack A.Area self.old x
            → CarriesOut R.Rack A.Area self.new x (SyncDoes x result) }
    {
        let count = self.geometry.props.metaslabs;
        match sync_groups(&mut self.metaslabs, &mut self.uber, count) {
            Some(result) => result,
            None => unreachable!(),
        }
    }

    /// Commits a group that is closing in a metaslab, if there is one.
    pub fn finish(&mut self) -> Result<(), SyncFault>
        requires whole { IsWhole R.Rack A.Area self.old }
        ensures whole { IsWhole R.Rack A.Area self.new }
        ensures objects { self.new.own.objects ≡ self.old.own.objects }
        ensures later { AreasLater A.faults self.old self.new }
        ensures passes { KeepsPasses self.old self.new }
        ensures racks { RacksLater R.faults self.old self.new }
        ensures arms { AllArmsStay self.old self.new }
        ensures asked { AllAskedStay self.old self.new }
        ensures grows { group_in self.old ≤ group_in self.new }
        ensures cause { IsErrOf result SyncFault.Shelf → AreaRose A.faults self.old self.new }
        // A group that closes has a number below the last.
        ensures not_last { IsErrOf result SyncFault.Last → ⊥ }
        ensures idle { OnOk result (AreIdle self.new.metaslabs.shards.items) }
        ensures carries { (x : State) → Represents R.Rack A.Area self.old x
            → CarriesOut R.Rack A.Area self.new x (Phase x (groups.Finishes x.geometry x.perms) (end_of result)) }
    {
        let count = self.geometry.props.metaslabs;
        match finish_group(&mut self.metaslabs, &mut self.uber, count) {
            Some(result) => result,
            None => unreachable!(),
        }
    }
}
