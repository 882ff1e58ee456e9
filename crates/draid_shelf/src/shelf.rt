ghost use Rattle.std.specs.Prelude.{◌≡◌, ◌<◌, ◌↔◌, ℕ, Option, None, Some, IfOk, IsSome, IsSomeAnd, IsTrue, MatchOption, OnOk, OnErr, is_some, ⊤};
ghost use Rattle.draid_spec.specs.Geometry.{IsGeometry};
ghost use Rattle.draid_rack.specs.Rack.{Shape};
ghost use Rattle.draid_shelf.specs.Shelf.{HasLeavesOf, IsKnown, SameOthers, most_metaslabs};
ghost use Rattle.draid_shelf.specs.Kits.{Both, CheckCounts, CrashedHeld, Held, IsNewPool, IsUncounted, KitCounts, NeedsChecks, NeedsKit, NeedsUber, OnHeld, ShelfCounts, checks_of, gives_checks, gives_kit, gives_uber, kit_of, takes_checks, takes_kit, takes_uber, uber_bytes};

use crate::kit::Kit;
use draid_area::Area;
use draid_names::DeviceFault;
use draid_rack::Rack;
use draid_spec::Geometry;
use std::alloc::Global;

/// How many metaslabs a shelf has places for.
pub const METASLABS: u32 = 64;

/// A shelf of devices: the area of the uberblock, those of the check records, and a kit for each metaslab. A pool takes them for a run, and gives
/// them back.
pub trait Shelf {
    type R: Rack + Send;

    type A: Area + Send;

    /// What is held, where the shelf tells it.
    ghost told: { Self → Option Held };

    /// How often making and taking has failed. The count stands still at 2^64 - 1.
    ghost faults: { Self → ℕ };

    /// How often calls on the devices of each metaslab have failed, those on the areas of the check records, and those
    /// on the area of the uberblock.
    ghost counts: { Self → ℕ → KitCounts };

    ghost check_counts: { Self → CheckCounts };

    ghost uber_count: { Self → ℕ };

    /// The leaves of each metaslab's rack, and the length of the area of the uberblock, where they are known.
    ghost leaves: { Self → ℕ → Option Shape };

    ghost uber_size: { Self → Option ℕ };

    /// Whether a pool is held.
    fn has_pool(&self) -> bool
        ensures { OnHeld (told self.now) (λ held. IsTrue result ↔ IsSome held.uber) };

    /// Makes the devices of a new pool: leaves of zeros, empty areas of records and of check records, and the area of the
    /// uberblock, of 1,024 zero bytes. An earlier pool is given up, where it succeeds.
    fn make(&mut self, alloc: Global, geometry: &Geometry) -> Result<(), DeviceFault>
        requires { IsGeometry geometry.now }
        ensures told { OnOk result (OnHeld (told self.new) (IsNewPool geometry.now)) }
        ensures leaves { OnOk result ((m : ℕ) → m < geometry.now.props.metaslabs
            → IsSomeAnd (leaves self.new m) (HasLeavesOf geometry.now)) }
        ensures uber { OnOk result (uber_size self.new ≡ Some uber_bytes) }
        ensures counts { OnOk result
            ((m : ℕ) → m < geometry.now.props.metaslabs → IsUncounted (counts self.new m)) }
        ensures check_counts { OnOk result (check_counts self.new ≡ record { even = 0; odd = 0 }) }
        ensures uber_count { OnOk result (uber_count self.new ≡ 0) }
        ensures err { OnErr result (told self.new ≡ told self.old) }
        ensures err_leaves { OnErr result ((m : ℕ) → leaves self.new m ≡ leaves self.old m) }
        ensures err_uber { OnErr result (uber_size self.new ≡ uber_size self.old) }
        ensures err_counts { OnErr result ((m : ℕ) → counts self.new m ≡ counts self.old m) }
        ensures err_check_counts { OnErr result (check_counts self.new ≡ check_counts self.old) }
        ensures err_uber_count { OnErr result (uber_count self.new ≡ uber_count self.old) }
        ensures cause { ShelfCounts result (faults self.old) (faults self.new) };

    /// Takes the area of the uberblock.
    fn take_uber(&mut self) -> Result<Self::A, DeviceFault>
        ensures area { IfOk result (λ area. OnHeld (told self.old) (λ held. Self.A.told area ≡ held.uber)) }
        ensures untold { IfOk result (λ area. told self.old ≡ None → Self.A.told area ≡ None) }
        ensures told { OnOk result (told self.new ≡ takes_uber (told self.old)) }
        ensures size { IfOk result (λ area. MatchOption (uber_size self.old) ⊤ (λ n. Self.A.size area ≡ n)) }
        ensures count { IfOk result (λ area. Self.A.faults area ≡ uber_count self.old) }
        ensures leaves { (m : ℕ) → leaves self.new m ≡ leaves self.old m }
        ensures counts { (m : ℕ) → counts self.new m ≡ counts self.old m }
        ensures check_counts { check_counts self.new ≡ check_counts self.old }
        ensures needs { NeedsUber result (told self.old) }
        ensures err { OnErr result (told self.new ≡ told self.old) }
        ensures err_size { OnErr result (uber_size self.new ≡ uber_size self.old) }
        ensures err_count { OnErr result (uber_count self.new ≡ uber_count self.old) }
        ensures cause { ShelfCounts result (faults self.old) (faults self.new) };

    /// Takes the devices of a metaslab, whose sectors have the geometry's length.
    fn take(
        &mut self,
        metaslab: u32,
        geometry: &Geometry,
    ) -> Result<Kit<Self::R, Self::A>, DeviceFault>
        ensures sectors { IfOk result (λ kit. (Self.R.shape kit.rack).bytes ≡ geometry.now.props.sector) }
        ensures leaves { IfOk result (λ kit. IsKnown (leaves self.old metaslab) (Self.R.shape kit.rack)) }
        ensures kit { IfOk result (λ kit. OnHeld (told self.old) (λ held.
            kit_of (Self.R.told kit.rack) (Self.A.told kit.even) (Self.A.told kit.odd) ≡ held.kits metaslab)) }
        ensures told { OnOk result (told self.new ≡ takes_kit metaslab (told self.old)) }
        ensures rack_count { IfOk result (λ kit.
            (who : Option ℕ) → Self.R.faults kit.rack who ≡ (counts self.old metaslab).rack who) }
        ensures even_count { IfOk result (λ kit. Self.A.faults kit.even ≡ (counts self.old metaslab).even) }
        ensures odd_count { IfOk result (λ kit. Self.A.faults kit.odd ≡ (counts self.old metaslab).odd) }
        ensures others { SameOthers metaslab (leaves self.old) (leaves self.new) }
        ensures counts { SameOthers metaslab (counts self.old) (counts self.new) }
        ensures uber { uber_size self.new ≡ uber_size self.old }
        ensures uber_count { uber_count self.new ≡ uber_count self.old }
        ensures check_counts { check_counts self.new ≡ check_counts self.old }
        ensures needs { NeedsKit metaslab result (told self.old) }
        ensures err { OnErr result (told self.new ≡ told self.old) }
        ensures err_leaves { OnErr result (leaves self.new metaslab ≡ leaves self.old metaslab) }
        ensures err_counts { OnErr result (counts self.new metaslab ≡ counts self.old metaslab) }
        ensures cause { ShelfCounts result (faults self.old) (faults self.new) };

    /// Takes the areas of the check records of even and of odd groups.
    fn take_check(&mut self) -> Result<(Self::A, Self::A), DeviceFault>
        ensures areas { IfOk result (λ areas. OnHeld (told self.old) (λ held.
            checks_of (Self.A.told areas.0) (Self.A.told areas.1) ≡ held.checks)) }
        ensures untold { IfOk result (λ areas. told self.old ≡ None → (Self.A.told areas.0 ≡ None) × (Self.A.told areas.1 ≡ None)) }
        ensures told { OnOk result (told self.new ≡ takes_checks (told self.old)) }
        ensures even_count { IfOk result (λ areas. Self.A.faults areas.0 ≡ (check_counts self.old).even) }
        ensures odd_count { IfOk result (λ areas. Self.A.faults areas.1 ≡ (check_counts self.old).odd) }
        ensures leaves { (m : ℕ) → leaves self.new m ≡ leaves self.old m }
        ensures counts { (m : ℕ) → counts self.new m ≡ counts self.old m }
        ensures uber { uber_size self.new ≡ uber_size self.old }
        ensures uber_count { uber_count self.new ≡ uber_count self.old }
        ensures needs { NeedsChecks result (told self.old) }
        ensures err { OnErr result (told self.new ≡ told self.old) }
        ensures err_counts { OnErr result (check_counts self.new ≡ check_counts self.old) }
        ensures cause { ShelfCounts result (faults self.old) (faults self.new) };

    /// Puts the area of the uberblock back, in place of one that is held.
    fn give_uber(&mut self, area: Self::A)
        ensures told { told self.new ≡ gives_uber (Self.A.told area) (told self.old) }
        ensures count { uber_count self.new ≡ Self.A.faults area }
        ensures leaves { (m : ℕ) → leaves self.new m ≡ leaves self.old m }
        ensures counts { (m : ℕ) → counts self.new m ≡ counts self.old m }
        ensures check_counts { check_counts self.new ≡ check_counts self.old }
        ensures faults { faults self.new ≡ faults self.old };

    /// Puts the devices of a metaslab back, in place of those that are held.
    fn give(&mut self, metaslab: u32, kit: Kit<Self::R, Self::A>)
        requires { metaslab < most_metaslabs }
        ensures told { told self.new ≡ gives_kit metaslab
            (kit_of (Self.R.told kit.rack) (Self.A.told kit.even) (Self.A.told kit.odd)) (told self.old) }
        ensures rack_count { (who : Option ℕ) → (counts self.new metaslab).rack who
            ≡ Self.R.faults kit.rack who }
        ensures even_count { (counts self.new metaslab).even ≡ Self.A.faults kit.even }
        ensures odd_count { (counts self.new metaslab).odd ≡ Self.A.faults kit.odd }
        ensures leaves { leaves self.new metaslab ≡ Some (Self.R.shape kit.rack) }
        ensures others { SameOthers metaslab (leaves self.old) (leaves self.new) }
        ensures counts { SameOthers metaslab (counts self.old) (counts self.new) }
        ensures uber { uber_size self.new ≡ uber_size self.old }
        ensures uber_count { uber_count self.new ≡ uber_count self.old }
        ensures check_counts { check_counts self.new ≡ check_counts self.old }
        ensures faults { faults self.new ≡ faults self.old };

    /// Puts the areas of the check records back, in place of those that are held.
    fn give_check(&mut self, even: Self::A, odd: Self::A)
        ensures told { told self.new ≡ gives_checks (checks_of (Self.A.told even) (Self.A.told odd)) (told self.old) }
        ensures counts { check_counts self.new ≡ record { even = Self.A.faults even; odd = Self.A.faults odd } }
        ensures leaves { (m : ℕ) → leaves self.new m ≡ leaves self.old m }
        ensures kits { (m : ℕ) → counts self.new m ≡ counts self.old m }
        ensures uber { uber_size self.new ≡ uber_size self.old }
        ensures uber_count { uber_count self.new ≡ uber_count self.old }
        ensures faults { faults self.new ≡ faults self.old };

    /// Gives all that is held a crash.
    fn crash(&mut self)
        ensures told { Both CrashedHeld (told self.old) (told self.new) }
        ensures leaves { (m : ℕ) → leaves self.new m ≡ leaves self.old m }
        ensures counts { (m : ℕ) → counts self.new m ≡ counts self.old m }
        ensures check_counts { check_counts self.new ≡ check_counts self.old }
        ensures uber_count { uber_count self.new ≡ uber_count self.old }
        ensures faults { faults self.new ≡ faults self.old };

    /// Each shelf of this kind tells what it holds, or none does.
    ghost steady: { (x y : Self) → is_some (told y) ≡ is_some (told x) };
}
