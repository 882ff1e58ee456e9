ghost use Rattle.std.specs.Prelude.{◌≡◌, ◌<◌, ◌≤◌, ◌↔◌, ◌+◌, ◌-◌, ◌^◌, min, ℕ, Option, Some, None, IsTrue, IfOk, IsSomeAnd, OnOk, OnErr, false, true};
ghost use Rattle.draid_names.specs.Faults.{Rose};
ghost use Rattle.draid_faults.specs.Calls.{is_fused, next_call};
ghost use Rattle.draid_spec.specs.Geometry.{IsGeometry};
ghost use Rattle.draid_rack.specs.Memory.{faults_of_memory, shape_of_memory, told_by_memory};
ghost use Rattle.draid_shelf.specs.Shelf.{HasLeavesOf, IsKnown, SameOthers, TellsCalm, TellsZeros, most_metaslabs};
ghost use Rattle.draid_shelf.specs.Memory.{AreMade, FusesAll, HoldsKit, HoldsNothing, area_count, check_counts, counts_at, held_at, held_by, kit_counts, list_at, rack_at, shape_at};

use crate::devices::Devices;
use crate::place::Place;
use crate::places::{empty_places, fuse_all, put_on, racks_of};
use crate::plan::Plan;
use crate::shelf::METASLABS;
use draid_faults::{Calls, CrashRule, Fuse};
use draid_names::{DeviceFault, NoMemory};
use draid_rack::MemoryRack;
use draid_spec::Geometry;
use std::alloc::{AllocError, Global};

/// A shelf in memory, which makes racks and areas in memory. Of its own calls making and taking can fail; they are
/// numbered from 0, and those that its list names fail.
#[derive(Drop)]
pub struct MemoryShelf {
    pub(crate) devices: Devices,
    pub(crate) plan: Plan,
    pub(crate) calls: Calls,
    /// How often making and taking has failed.
    pub(crate) faults: u64,
    /// What a crash leaves of what wasn't flushed.
    pub(crate) rule: CrashRule,
    ghost unfused: { is_fused calls ≡ false },
}

impl MemoryShelf {
    ghost use Rattle.draid_names.specs.declared.fault.DeviceFault.{DeviceFault};
    ghost use Rattle.draid_shelf.specs.Failing.{IsPlace, KeepsPlan, calls_of, fails_at, held_by_memory, is_planned, lists_of, next_at, no_lists, rule_of, shelf_faults, uber_size_of};

    /// An empty shelf, of which no call fails. By the rule a crash leaves what wasn't flushed.
    pub fn new(alloc: Global, rule: CrashRule) -> MemoryShelf
        ensures nothing { HoldsNothing result.devices }
        ensures empty { (m : ℕ) → held_by_memory result m ≡ None }
        ensures faults { shelf_faults result ≡ 0 }
        ensures next { next_call (calls_of result) ≡ 0 }
        ensures lists { lists_of result ≡ no_lists }
        ensures fuse { is_planned result ≡ false }
        ensures rule { rule_of result ≡ rule }
    {
        MemoryShelf {
            devices: Devices {
                racks: empty_places(),
                evens: empty_places(),
                odds: empty_places(),
                check_even: None,
                check_odd: None,
                uber: None,
            },
            plan: Plan {
                racks: empty_places(),
                evens: empty_places(),
                odds: empty_places(),
                check_even: None,
                check_odd: None,
                uber: None,
                fuse: None,
            },
            calls: Calls::new(Vec::new(alloc)),
            faults: 0,
            rule,
        }
    }

    /// At this place the calls with these numbers fail: of the shelf itself from its next call on, of a device
    /// once it is made.
    pub fn fail(&mut self, place: Place, calls: Vec<u64>)
        requires { IsPlace place }
        ensures devices { self.new.devices ≡ self.old.devices }
        ensures lists { lists_of self.new ≡ fails_at place calls.items (lists_of self.old) }
        ensures next { next_call (calls_of self.new) ≡ next_at place (next_call (calls_of self.old)) }
        ensures faults { shelf_faults self.new ≡ shelf_faults self.old }
        ensures rule { rule_of self.new ≡ rule_of self.old }
        ensures fuse { is_planned self.new ≡ is_planned self.old }
    {
        match place {
            Place::Own => self.calls = Calls::new(calls),
            Place::Rack(metaslab) => put_on(&mut self.plan.racks, metaslab as usize, calls),
            Place::Even(metaslab) => put_on(&mut self.plan.evens, metaslab as usize, calls),
            Place::Odd(metaslab) => put_on(&mut self.plan.odds, metaslab as usize, calls),
            Place::CheckEven => self.plan.check_even = Some(calls),
            Place::CheckOdd => self.plan.check_odd = Some(calls),
            Place::Uber => self.plan.uber = Some(calls),
        }
    }

    /// By this rule a crash leaves what wasn't flushed.
    pub fn crash_by(&mut self, rule: CrashRule)
        ensures devices { self.new.devices ≡ self.old.devices }
        ensures rule { rule_of self.new ≡ rule }
        ensures lists { lists_of self.new ≡ lists_of self.old }
        ensures next { next_call (calls_of self.new) ≡ next_call (calls_of self.old) }
        ensures faults { shelf_faults self.new ≡ shelf_faults self.old }
        ensures fuse { is_planned self.new ≡ is_planned self.old }
    {
        self.rule = rule;
    }

    /// Gives the racks and areas that are held or made from now on a fuse of so many calls, which they share.
    pub fn put_fuse(&mut self, alloc: Global, calls: u64) -> Result<(), AllocError>
        ensures all { OnOk result (FusesAll self.old.devices self.new.devices) }
        ensures fuse { OnOk result (is_planned self.new ≡ true) }
        ensures told { held_by self.new.devices ≡ held_by self.old.devices }
        ensures leaves { (m : ℕ) → shape_at self.new.devices.racks m ≡ shape_at self.old.devices.racks m }
        ensures uber { uber_size_of self.new ≡ uber_size_of self.old }
        ensures counts { (m : ℕ) → kit_counts self.new.devices m ≡ kit_counts self.old.devices m }
        ensures check_counts { check_counts self.new.devices ≡ check_counts self.old.devices }
        ensures uber_count { area_count self.new.devices.uber ≡ area_count self.old.devices.uber }
        ensures faults { shelf_faults self.new ≡ shelf_faults self.old }
        ensures next { next_call (calls_of self.new) ≡ next_call (calls_of self.old) }
        ensures lists { lists_of self.new ≡ lists_of self.old }
        ensures rule { rule_of self.new ≡ rule_of self.old }
    {
        let fuse = Fuse::new(alloc, calls)?;
        fuse_all(&mut self.devices, &fuse)?;
        self.plan.fuse = Some(fuse);
        Ok(())
    }

    /// Counts a failure of the shelf itself.
    pub(crate) fn failed(&mut self) -> DeviceFault
        ensures fault { result ≡ DeviceFault.Failed }
        ensures rose { Rose self.old.faults self.new.faults }
        ensures later { self.old.faults ≤ self.new.faults }
        ensures risen { self.new.faults ≡ min (self.old.faults + 1) (2 ^ 64 - 1) }
        ensures devices { self.new.devices ≡ self.old.devices }
        ensures calls { self.new.calls ≡ self.old.calls }
        ensures plan { self.new.plan ≡ self.old.plan }
        ensures rule { self.new.rule ≡ self.old.rule }
    {
        self.faults = self.faults.saturating_add(1);
        DeviceFault::Failed
    }

    /// Whether the devices of a metaslab are held, with sectors of this length.
    pub(crate) fn holds(&self, metaslab: u32, sector: u32) -> bool
        ensures { IsTrue result ↔ HoldsKit self.now.devices metaslab sector }
    {
        if metaslab >= METASLABS {
            return false;
        }
        let place = metaslab as usize;
        match &self.devices.racks[place] {
            Some(rack) => {
                rack.sector_bytes() == sector
                    && self.devices.evens[place].is_some()
                    && self.devices.odds[place].is_some()
            }
            None => false,
        }
    }
}
