ghost use Rattle.std.specs.Prelude.{◌≡◌};

use crate::shard::Shard;
use draid_area::Area;
use draid_rack::Rack;

impl<R: Rack, A: Area> Shard<R, A> {
    /// The group in which blocks are born.
    pub fn open_group(&self) -> u64
        ensures { result ≡ self.now.open_group }
    {
        self.open_group
    }

    /// The group before it, while that is closed and not yet committed.
    pub fn closing(&self) -> Option<u64>
        ensures { result ≡ self.now.closing }
    {
        self.closing
    }

    /// Whether the closing group is sealed.
    pub fn sealed(&self) -> bool
        ensures { result ≡ self.now.sealed }
    {
        self.sealed
    }

    /// The last group that was committed.
    pub fn committed(&self) -> u64
        ensures { result ≡ self.now.committed }
    {
        self.committed
    }
}
