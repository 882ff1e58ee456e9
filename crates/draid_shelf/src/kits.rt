ghost use Rattle.std.specs.Prelude.{◌≡◌, ◌<◌, ⊤, ℕ, Option, Some, None, false, IfOk, IsErr, IsErrOf, IsSome, IsSomeAnd, MatchOption, OnOk, OnErr, refl};
ghost use Rattle.draid_spec.specs.Geometry.{IsGeometry};
ghost use Rattle.draid_rack.specs.Memory.{faults_of_memory, shape_of_memory, told_by_memory};
ghost use Rattle.draid_area.specs.Memory.{size_of_memory};
ghost use Rattle.draid_area.specs.Memory as device;
ghost use Rattle.draid_faults.specs.Calls.{CountsJust};
ghost use Rattle.draid_shelf.specs.Shelf.{HasLeavesOf, IsKnown, SameOthers, most_metaslabs};
ghost use Rattle.draid_shelf.specs.Kits.{Both, CrashedHeld, FailsJust, IsNewPool, IsUncounted, NeedsChecks, NeedsKit, NeedsUber, ShelfCounts, checks_of, gives_checks, gives_kit, gives_uber, kit_of, takes_checks, takes_kit, takes_uber, uber_bytes};
ghost use Rattle.draid_shelf.specs.Memory.{CrashesAll, HoldsChecks, HoldsKit, PutsAreas, PutsKit, area_at, area_count, check_counts, content_of, held_by, kit_counts, rack_at, shape_at};

use crate::kit::Kit;
use crate::memory::MemoryShelf;
use crate::places::{crash_all, devices_of, put_on, take_from};
use crate::shelf::{METASLABS, Shelf};
use draid_area::MemoryArea;
use draid_names::DeviceFault;
use draid_rack::MemoryRack;
use draid_spec::Geometry;
use std::alloc::Global;

impl Shelf for MemoryShelf {
    ghost use Rattle.draid_names.specs.declared.fault.DeviceFault.{DeviceFault};
    ghost use Rattle.draid_shelf.specs.Failing.{KeepsPlan, MakesBy, calls_of, is_planned, lists_of, rule_of, told_of, uber_size_of};

    type R = MemoryRack;

    type A = MemoryArea;

    ghost told = { told_of };

    ghost faults = { λ shelf. shelf.faults };

    ghost counts = { λ shelf. kit_counts shelf.devices };

    ghost check_counts = { λ shelf. check_counts shelf.devices };

    ghost uber_count = { λ shelf. area_count shelf.devices.uber };

    ghost leaves = { λ shelf. shape_at shelf.devices.racks };

    ghost uber_size = { uber_size_of };

    ghost steady = { λ x y. refl };

    fn has_pool(&self) -> bool {
        self.devices.uber.is_some()
    }

    fn make(&mut self, alloc: Global, geometry: &Geometry) -> Result<(), DeviceFault>
        requires { IsGeometry geometry.now }
        ensures told { OnOk result (IsNewPool geometry.now (held_by self.new.devices)) }
        ensures leaves { OnOk result ((m : ℕ) → m < geometry.now.props.metaslabs
            → IsSomeAnd (shape_at self.new.devices.racks m) (HasLeavesOf geometry.now)) }
        ensures uber { OnOk result (uber_size_of self.new ≡ Some uber_bytes) }
        ensures counts { OnOk result ((m : ℕ) → m < geometry.now.props.metaslabs
            → IsUncounted (kit_counts self.new.devices m)) }
        ensures check_counts { OnOk result (check_counts self.new.devices ≡ record { even = 0; odd = 0 }) }
        ensures uber_count { OnOk result (area_count self.new.devices.uber ≡ 0) }
        ensures err { OnErr result (told_of self.new ≡ told_of self.old) }
        ensures err_leaves { OnErr result
            ((m : ℕ) → shape_at self.new.devices.racks m ≡ shape_at self.old.devices.racks m) }
        ensures err_uber { OnErr result (uber_size_of self.new ≡ uber_size_of self.old) }
        ensures err_counts { OnErr result
            ((m : ℕ) → kit_counts self.new.devices m ≡ kit_counts self.old.devices m) }
        ensures err_check_counts { OnErr result
            (check_counts self.new.devices ≡ check_counts self.old.devices) }
        ensures err_uber_count { OnErr result
            (area_count self.new.devices.uber ≡ area_count self.old.devices.uber) }
        ensures all { OnOk result
            (MakesBy geometry.now (lists_of self.old) (is_planned self.old) self.new.devices) }
        ensures kept { OnErr result (self.new.devices ≡ self.old.devices) }
        ensures plan { KeepsPlan self.old self.new }
        ensures cause { ShelfCounts result self.old.faults self.new.faults }
        ensures risen { CountsJust (IsErrOf result DeviceFault.Failed) self.old.faults self.new.faults }
        ensures exact { FailsJust ⊤ (IsErrOf result DeviceFault.Failed) (calls_of self.old) (calls_of self.new) }
    {
        if self.calls.fails() {
            return Err(self.failed());
        }
        let metaslabs = geometry.props.metaslabs;
        let devices = devices_of(alloc, geometry, &self.plan)?;
        self.devices = devices;
        Ok(())
    }

    fn take_uber(&mut self) -> Result<MemoryArea, DeviceFault>
        ensures area { IfOk result (λ area. device.told_by_memory area ≡ content_of self.old.devices.uber) }
        ensures told { OnOk result (told_of self.new ≡ takes_uber (told_of self.old)) }
        ensures size { IfOk result (λ area. MatchOption (uber_size_of self.old) ⊤ (λ n. size_of_memory area ≡ n)) }
        ensures count { IfOk result (λ area. device.faults_of_memory area ≡ area_count self.old.devices.uber) }
        ensures leaves { (m : ℕ) → shape_at self.new.devices.racks m ≡ shape_at self.old.devices.racks m }
        ensures counts { (m : ℕ) → kit_counts self.new.devices m ≡ kit_counts self.old.devices m }
        ensures check_counts { check_counts self.new.devices ≡ check_counts self.old.devices }
        ensures err { OnErr result (told_of self.new ≡ told_of self.old) }
        ensures err_size { OnErr result (uber_size_of self.new ≡ uber_size_of self.old) }
        ensures err_count { OnErr result (area_count self.new.devices.uber ≡ area_count self.old.devices.uber) }
        ensures moved { IfOk result (λ area. (self.old.devices.uber ≡ Some area)
            × PutsAreas self.old.devices.check_even self.old.devices.check_odd None self.old.devices self.new.devices) }
        ensures kept { OnErr result (self.new.devices ≡ self.old.devices) }
        ensures plan { KeepsPlan self.old self.new }
        ensures needs { NeedsUber result (told_of self.old) }
        ensures cause { ShelfCounts result self.old.faults self.new.faults }
        ensures device { IsErr result → IsErrOf result DeviceFault.Failed }
        ensures risen { CountsJust (IsErrOf result DeviceFault.Failed) self.old.faults self.new.faults }
        ensures exact { FailsJust (IsSome self.old.devices.uber) (IsErrOf result DeviceFault.Failed) (calls_of self.old)
            (calls_of self.new) }
    {
        let is_missing = self.devices.uber.is_none();
        if self.calls.fails() || is_missing {
            return Err(self.failed());
        }
        match self.devices.uber.take() {
            Some(area) => Ok(area),
            None => unreachable!(),
        }
    }

    fn take(
        &mut self,
        metaslab: u32,
        geometry: &Geometry,
    ) -> Result<Kit<MemoryRack, MemoryArea>, DeviceFault>
        ensures sectors { IfOk result (λ kit. (shape_of_memory kit.rack).bytes ≡ geometry.now.props.sector) }
        ensures leaves { IfOk result (λ kit.
            IsKnown (shape_at self.old.devices.racks metaslab) (shape_of_memory kit.rack)) }
        ensures kit { IfOk result (λ kit.
            kit_of (told_by_memory kit.rack) (device.told_by_memory kit.even) (device.told_by_memory kit.odd)
            ≡ (held_by self.old.devices).kits metaslab) }
        ensures told { OnOk result (told_of self.new ≡ takes_kit metaslab (told_of self.old)) }
        ensures rack_count { IfOk result (λ kit. (who : Option ℕ)
            → faults_of_memory kit.rack who ≡ (kit_counts self.old.devices metaslab).rack who) }
        ensures even_count { IfOk result (λ kit.
            device.faults_of_memory kit.even ≡ (kit_counts self.old.devices metaslab).even) }
        ensures odd_count { IfOk result (λ kit.
            device.faults_of_memory kit.odd ≡ (kit_counts self.old.devices metaslab).odd) }
        ensures others { SameOthers metaslab (shape_at self.old.devices.racks) (shape_at self.new.devices.racks) }
        ensures counts { SameOthers metaslab (kit_counts self.old.devices) (kit_counts self.new.devices) }
        ensures uber { uber_size_of self.new ≡ uber_size_of self.old }
        ensures uber_count { area_count self.new.devices.uber ≡ area_count self.old.devices.uber }
        ensures check_counts { check_counts self.new.devices ≡ check_counts self.old.devices }
        ensures err { OnErr result (told_of self.new ≡ told_of self.old) }
        ensures err_leaves { OnErr result
            (shape_at self.new.devices.racks metaslab ≡ shape_at self.old.devices.racks metaslab) }
        ensures err_counts { OnErr result
            (kit_counts self.new.devices metaslab ≡ kit_counts self.old.devices metaslab) }
        ensures moved { IfOk result (λ kit. (rack_at self.old.devices.racks metaslab ≡ Some kit.rack)
            × (area_at self.old.devices.evens metaslab ≡ Some kit.even)
            × (area_at self.old.devices.odds metaslab ≡ Some kit.odd)
            × PutsKit metaslab None None None self.old.devices self.new.devices) }
        ensures kept { OnErr result (self.new.devices ≡ self.old.devices) }
        ensures plan { KeepsPlan self.old self.new }
        ensures needs { NeedsKit metaslab result (told_of self.old) }
        ensures cause { ShelfCounts result self.old.faults self.new.faults }
        ensures device { IsErr result → IsErrOf result DeviceFault.Failed }
        ensures risen { CountsJust (IsErrOf result DeviceFault.Failed) self.old.faults self.new.faults }
        ensures exact { FailsJust (HoldsKit self.old.devices metaslab geometry.now.props.sector)
            (IsErrOf result DeviceFault.Failed) (calls_of self.old) (calls_of self.new) }
    {
        if self.calls.fails() || !self.holds(metaslab, geometry.props.sector) {
            return Err(self.failed());
        }
        let place = metaslab as usize;
        let rack = take_from(&mut self.devices.racks, place);
        let even = take_from(&mut self.devices.evens, place);
        let odd = take_from(&mut self.devices.odds, place);
        match (rack, even, odd) {
            (Some(rack), Some(even), Some(odd)) => Ok(Kit { rack, even, odd }),
            _ => unreachable!(),
        }
    }

    fn take_check(&mut self) -> Result<(MemoryArea, MemoryArea), DeviceFault>
        ensures areas { IfOk result (λ areas. checks_of (device.told_by_memory areas.0) (device.told_by_memory areas.1)
            ≡ (held_by self.old.devices).checks) }
        ensures told { OnOk result (told_of self.new ≡ takes_checks (told_of self.old)) }
        ensures even_count { IfOk result (λ areas. device.faults_of_memory areas.0
            ≡ (check_counts self.old.devices).even) }
        ensures odd_count { IfOk result (λ areas. device.faults_of_memory areas.1
            ≡ (check_counts self.old.devices).odd) }
        ensures leaves { (m : ℕ) → shape_at self.new.devices.racks m ≡ shape_at self.old.devices.racks m }
        ensures counts { (m : ℕ) → kit_counts self.new.devices m ≡ kit_counts self.old.devices m }
        ensures uber { uber_size_of self.new ≡ uber_size_of self.old }
        ensures uber_count { area_count self.new.devices.uber ≡ area_count self.old.devices.uber }
        ensures needs { NeedsChecks result (told_of self.old) }
        ensures err { OnErr result (told_of self.new ≡ told_of self.old) }
        ensures err_counts { OnErr result (check_counts self.new.devices ≡ check_counts self.old.devices) }
        ensures moved { IfOk result (λ areas. (self.old.devices.check_even ≡ Some areas.0)
            × (self.old.devices.check_odd ≡ Some areas.1)
            × PutsAreas None None self.old.devices.uber self.old.devices self.new.devices) }
        ensures kept { OnErr result (self.new.devices ≡ self.old.devices) }
        ensures plan { KeepsPlan self.old self.new }
        ensures cause { ShelfCounts result self.old.faults self.new.faults }
        ensures device { IsErr result → IsErrOf result DeviceFault.Failed }
        ensures risen { CountsJust (IsErrOf result DeviceFault.Failed) self.old.faults self.new.faults }
        ensures exact { FailsJust (HoldsChecks self.old.devices) (IsErrOf result DeviceFault.Failed)
            (calls_of self.old) (calls_of self.new) }
    {
        let is_missing = self.devices.check_even.is_none() || self.devices.check_odd.is_none();
        if self.calls.fails() || is_missing {
            return Err(self.failed());
        }
        match (
            self.devices.check_even.take(),
            self.devices.check_odd.take(),
        ) {
            (Some(even), Some(odd)) => Ok((even, odd)),
            _ => unreachable!(),
        }
    }

    fn give_uber(&mut self, area: MemoryArea)
        ensures told { told_of self.new ≡ gives_uber (device.told_by_memory area) (told_of self.old) }
        ensures count { area_count self.new.devices.uber ≡ device.faults_of_memory area }
        ensures leaves { (m : ℕ) → shape_at self.new.devices.racks m ≡ shape_at self.old.devices.racks m }
        ensures counts { (m : ℕ) → kit_counts self.new.devices m ≡ kit_counts self.old.devices m }
        ensures check_counts { check_counts self.new.devices ≡ check_counts self.old.devices }
        ensures faults { self.new.faults ≡ self.old.faults }
        ensures moved { PutsAreas self.old.devices.check_even self.old.devices.check_odd (Some area)
            self.old.devices self.new.devices }
        ensures plan { KeepsPlan self.old self.new }
        ensures calls { calls_of self.new ≡ calls_of self.old }
    {
        self.devices.uber = Some(area);
    }

    fn give(&mut self, metaslab: u32, kit: Kit<MemoryRack, MemoryArea>)
        requires { metaslab < most_metaslabs }
        ensures told { told_of self.new ≡ gives_kit metaslab
            (kit_of (told_by_memory kit.rack) (device.told_by_memory kit.even) (device.told_by_memory kit.odd))
            (told_of self.old) }
        ensures rack_count { (who : Option ℕ)
            → (kit_counts self.new.devices metaslab).rack who ≡ faults_of_memory kit.rack who }
        ensures even_count { (kit_counts self.new.devices metaslab).even ≡ device.faults_of_memory kit.even }
        ensures odd_count { (kit_counts self.new.devices metaslab).odd ≡ device.faults_of_memory kit.odd }
        ensures leaves { shape_at self.new.devices.racks metaslab ≡ Some (shape_of_memory kit.rack) }
        ensures others { SameOthers metaslab (shape_at self.old.devices.racks)
            (shape_at self.new.devices.racks) }
        ensures counts { SameOthers metaslab (kit_counts self.old.devices) (kit_counts self.new.devices) }
        ensures uber { uber_size_of self.new ≡ uber_size_of self.old }
        ensures uber_count { area_count self.new.devices.uber ≡ area_count self.old.devices.uber }
        ensures check_counts { check_counts self.new.devices ≡ check_counts self.old.devices }
        ensures faults { self.new.faults ≡ self.old.faults }
        ensures moved { PutsKit metaslab (Some kit.rack) (Some kit.even) (Some kit.odd) self.old.devices
            self.new.devices }
        ensures plan { KeepsPlan self.old self.new }
        ensures calls { calls_of self.new ≡ calls_of self.old }
    {
        let place = metaslab as usize;
        let Kit { rack, even, odd } = kit;
        put_on(&mut self.devices.racks, place, rack);
        put_on(&mut self.devices.evens, place, even);
        put_on(&mut self.devices.odds, place, odd);
    }

    fn give_check(&mut self, even: MemoryArea, odd: MemoryArea)
        ensures told { told_of self.new ≡ gives_checks (checks_of (device.told_by_memory even)
            (device.told_by_memory odd)) (told_of self.old) }
        ensures counts { check_counts self.new.devices
            ≡ record { even = device.faults_of_memory even; odd = device.faults_of_memory odd } }
        ensures leaves { (m : ℕ) → shape_at self.new.devices.racks m ≡ shape_at self.old.devices.racks m }
        ensures kits { (m : ℕ) → kit_counts self.new.devices m ≡ kit_counts self.old.devices m }
        ensures uber { uber_size_of self.new ≡ uber_size_of self.old }
        ensures uber_count { area_count self.new.devices.uber ≡ area_count self.old.devices.uber }
        ensures faults { self.new.faults ≡ self.old.faults }
        ensures moved { PutsAreas (Some even) (Some odd) self.old.devices.uber self.old.devices self.new.devices }
        ensures plan { KeepsPlan self.old self.new }
        ensures calls { calls_of self.new ≡ calls_of self.old }
    {
        self.devices.check_even = Some(even);
        self.devices.check_odd = Some(odd);
    }

    fn crash(&mut self)
        ensures told { Both CrashedHeld (told_of self.old) (told_of self.new) }
        ensures leaves { (m : ℕ) → shape_at self.new.devices.racks m ≡ shape_at self.old.devices.racks m }
        ensures counts { (m : ℕ) → kit_counts self.new.devices m ≡ kit_counts self.old.devices m }
        ensures check_counts { check_counts self.new.devices ≡ check_counts self.old.devices }
        ensures uber_count { area_count self.new.devices.uber ≡ area_count self.old.devices.uber }
        ensures faults { self.new.faults ≡ self.old.faults }
        ensures exact { CrashesAll (rule_of self.old) self.old.devices self.new.devices }
        ensures rule { rule_of self.new ≡ rule_of self.old }
        ensures lists { lists_of self.new ≡ lists_of self.old }
        ensures fuse { is_planned self.new ≡ false }
        ensures calls { calls_of self.new ≡ calls_of self.old }
    {
        crash_all(&mut self.devices, self.rule);
        self.plan.fuse = None;
    }
}
