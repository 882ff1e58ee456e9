ghost use Rattle.std.specs.Prelude.{◌≡◌, ◌<◌, ⊤, ℕ, Option, Some, None, IfOk, IsSomeAnd, MatchOption, OnErr, OnOk, refl};
ghost use Rattle.draid_spec.specs.Geometry.{IsGeometry};
ghost use Rattle.draid_shelf.specs.Shelf.{HasLeavesOf, IsKnown, SameOthers, most_metaslabs};
ghost use Rattle.draid_shelf.specs.Kits.{IsUncounted, ShelfCounts, uber_bytes};
ghost use Rattle.draid_files.specs.Racks.{faults_of, shape_of};
ghost use Rattle.draid_files.specs.Shelves.{area_count, check_counts, counts_at, shape_at, uber_size_of};

use crate::area::FileArea;
use crate::devices::put_on;
use crate::rack::FileRack;
use crate::shelf::FileShelf;
use draid_names::DeviceFault;
use draid_shelf::{Kit, Shelf};
use draid_spec::Geometry;
use std::alloc::Global;

impl Shelf for FileShelf {
    type R = FileRack;

    type A = FileArea;

    ghost told = { λ _. None };

    ghost steady = { λ x y. refl };

    ghost faults = { λ shelf. shelf.faults };

    ghost counts = { λ shelf. counts_at shelf.devices };

    ghost check_counts = { λ shelf. check_counts shelf.devices };

    ghost uber_count = { λ shelf. area_count shelf.devices.uber };

    ghost leaves = { λ shelf. shape_at shelf.devices };

    ghost uber_size = { λ shelf. uber_size_of shelf.devices };

    fn has_pool(&self) -> bool {
        self.devices.uber.is_some() || self.is_there()
    }

    #[tactic(auto, using(crate::proofs::Counts::uncounted))]
    fn make(&mut self, _alloc: Global, geometry: &Geometry) -> Result<(), DeviceFault> {
        let made = self.made(geometry);
        self.devices = self.counted(made)?;
        Ok(())
    }

    fn take_uber(&mut self) -> Result<FileArea, DeviceFault> {
        if let Some(area) = self.devices.uber.take() {
            return Ok(area);
        }
        let opened = self.opened_uber();
        self.counted(opened)
    }

    fn take(
        &mut self,
        metaslab: u32,
        geometry: &Geometry,
    ) -> Result<Kit<FileRack, FileArea>, DeviceFault> {
        let taken = self.taken(metaslab, geometry.props.sector);
        self.counted(taken)
    }

    fn take_check(&mut self) -> Result<(FileArea, FileArea), DeviceFault> {
        if let Some(areas) = self.devices.checks.take() {
            return Ok(areas);
        }
        let opened = self.opened_checks();
        self.counted(opened)
    }

    fn give_uber(&mut self, area: FileArea) {
        self.devices.uber = Some(area);
    }

    fn give(&mut self, metaslab: u32, kit: Kit<FileRack, FileArea>)
        requires { metaslab < most_metaslabs }
        ensures rack_count { (who : Option ℕ) → (counts_at self.new.devices metaslab).rack who ≡ faults_of kit.rack who }
        ensures even_count { (counts_at self.new.devices metaslab).even ≡ kit.even.file.faults }
        ensures odd_count { (counts_at self.new.devices metaslab).odd ≡ kit.odd.file.faults }
        ensures leaves { shape_at self.new.devices metaslab ≡ Some (shape_of kit.rack) }
        ensures others { SameOthers metaslab (shape_at self.old.devices) (shape_at self.new.devices) }
        ensures counts { SameOthers metaslab (counts_at self.old.devices) (counts_at self.new.devices) }
        ensures uber { uber_size_of self.new.devices ≡ uber_size_of self.old.devices }
        ensures uber_count { area_count self.new.devices.uber ≡ area_count self.old.devices.uber }
        ensures check_counts { check_counts self.new.devices ≡ check_counts self.old.devices }
        ensures faults { self.new.faults ≡ self.old.faults }
    {
        put_on(&mut self.devices.kits, metaslab as usize, kit);
    }

    fn give_check(&mut self, even: FileArea, odd: FileArea) {
        self.devices.checks = Some((even, odd));
    }

    fn crash(&mut self) {}
}
