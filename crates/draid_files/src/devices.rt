ghost use Rattle.std.specs.Prelude.{◌≡◌, ◌<◌, ℕ, Some, None, if◌then◌else◌, ◌==◌};
ghost use Rattle.draid_files.specs.Shelves.{kit_in};

use crate::area::FileArea;
use crate::rack::FileRack;
use draid_shelf::Kit;

/// The devices of each metaslab on its place.
pub(crate) type Kits = [Option<Kit<FileRack, FileArea>>; 64];

/// The devices that a shelf keeps open.
#[derive(Drop)]
pub(crate) struct Devices {
    pub kits: [Option<Kit<FileRack, FileArea>>; 64],
    /// The areas of the check records of even and of odd groups.
    pub checks: Option<(FileArea, FileArea)>,
    pub uber: Option<FileArea>,
}

/// No devices on any place.
pub(crate) fn no_kits() -> Kits
    ensures { (m : ℕ) → kit_in result m ≡ None }
{
    Default::default()
}

/// Takes what is on a place.
pub(crate) fn take_from(kits: &mut Kits, place: usize) -> Option<Kit<FileRack, FileArea>>
    requires { place < 64 }
    ensures taken { result ≡ kit_in kits.old place }
    ensures left { (q : ℕ) → kit_in kits.new q ≡ (if q == place then None else kit_in kits.old q) }
{
    kits[place].take()
}

/// Puts devices on a place.
pub(crate) fn put_on(kits: &mut Kits, place: usize, kit: Kit<FileRack, FileArea>)
    requires { place < 64 }
    ensures { (q : ℕ) → kit_in kits.new q ≡ (if q == place then Some kit else kit_in kits.old q) }
{
    kits[place] = Some(kit);
}
