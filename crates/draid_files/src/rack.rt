ghost use Rattle.std.specs.Prelude.{◌≡◌, None, IfOk};
ghost use Rattle.draid_files.specs.Racks.{IsNewLeaf};

use crate::folder::Folder;
use crate::leaf::{FileLeaf, make_leaf};
use crate::name::FileName;
use draid_names::{At, DeviceFault, Failed};
use draid_rack::Rack;
use std::collections::BTreeMap;

/// The leaves of a metaslab as files of a folder. They tell nothing of their bytes.
#[derive(Drop)]
pub struct FileRack {
    pub(crate) folder: Folder,
    pub(crate) metaslab: u32,
    /// The length of a sector.
    pub(crate) bytes: u32,
    pub(crate) leaves: BTreeMap<u64, FileLeaf>,
    /// How often adding and dropping a leaf has failed.
    pub(crate) own_faults: u64,
}

impl FileRack {
    fn name_of(&self, leaf: u64) -> FileName {
        FileName::Leaf {
            metaslab: self.metaslab,
            leaf,
        }
    }

    /// Makes the file of a leaf, in place of one that is there, and has the folder keep its name.
    fn make_leaf(&self, leaf: u64, sectors: u64) -> Result<FileLeaf, DeviceFault>
        ensures { IfOk result (IsNewLeaf sectors) }
    {
        let name = self.name_of(leaf);
        if self.folder.may_have(name) {
            self.folder.remove(name)?;
        }
        let new = make_leaf(&self.folder, name, sectors, self.bytes)?;
        self.folder.sync()?;
        Ok(new)
    }
}

impl Rack for FileRack {
    ghost use Rattle.draid_files.specs.Racks.{faults_of, shape_of};

    ghost shape = { shape_of };

    ghost faults = { faults_of };

    ghost told = { λ _. None };

    ghost orderly = { λ _. tt };

    ghost shaped = { λ _. tt };

    fn read(&mut self, leaf: u64, sector: u64, into: &mut [u8]) -> Result<(), Failed> {
        match self.leaves.get_mut(&leaf) {
            Some(place) => place.read(sector, into),
            None => unreachable!(),
        }
    }

    #[tactic(auto, using(crate::proofs::Untold::lands))]
    fn write(&mut self, leaf: u64, sector: u64, bytes: &[u8]) -> Result<(), Failed> {
        match self.leaves.get_mut(&leaf) {
            Some(place) => place.write(sector, bytes),
            None => unreachable!(),
        }
    }

    #[tactic(auto, using(crate::proofs::Untold::lands))]
    fn mend(
        &mut self,
        leaf: u64,
        sector: u64,
        bytes: &[u8],
        _sources: &[At],
    ) -> Result<(), Failed> {
        match self.leaves.get_mut(&leaf) {
            Some(place) => place.write(sector, bytes),
            None => unreachable!(),
        }
    }

    #[tactic(auto, using(crate::proofs::Untold::lands))]
    fn patch(&mut self, leaf: u64, sector: u64, bytes: &[u8]) -> Result<(), Failed> {
        match self.leaves.get_mut(&leaf) {
            Some(place) => place.write(sector, bytes),
            None => unreachable!(),
        }
    }

    fn flush(&mut self, leaf: u64) -> Result<(), Failed> {
        match self.leaves.get_mut(&leaf) {
            Some(place) => place.flush(),
            None => unreachable!(),
        }
    }

    fn settle(&mut self, _leaf: u64, _sector: u64) {}

    fn damage(&mut self, leaf: u64, sector: u64) -> Result<(), Failed> {
        let bytes = self.bytes;
        match self.leaves.get_mut(&leaf) {
            Some(place) => place.damage(sector, bytes),
            None => unreachable!(),
        }
    }

    fn add_leaf(&mut self, leaf: u64, sectors: u64) -> Result<(), DeviceFault> {
        match self.make_leaf(leaf, sectors) {
            Ok(new) => {
                self.leaves.insert(leaf, new)?;
                Ok(())
            }
            Err(DeviceFault::Failed) => {
                self.own_faults = self.own_faults.saturating_add(1);
                Err(DeviceFault::Failed)
            }
            Err(DeviceFault::NoMemory) => Err(DeviceFault::NoMemory),
        }
    }

    fn drop_leaf(&mut self, leaf: u64) {
        if self.leaves.remove(&leaf).is_none() {
            return;
        }
        if self.folder.remove(self.name_of(leaf)).is_err() {
            self.own_faults = self.own_faults.saturating_add(1);
        }
    }

    fn sectors(&self, leaf: u64) -> Option<u64> {
        self.leaves.get(&leaf).map(|place| place.sectors)
    }

    fn leaf_from(&self, from: u64) -> Option<u64> {
        self.leaves.range(from..).next().map(|(leaf, _)| *leaf)
    }
}
