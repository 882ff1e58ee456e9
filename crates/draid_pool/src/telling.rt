//! What an open pool tells of its committed group and of its objects.
ghost use Rattle.std.specs.Prelude.{◌≡◌, nat_eq};
ghost use Rattle.std.specs.HashMap.{get};
ghost use Rattle.draid_session.specs.Opening.{HasObjects};
ghost use Rattle.draid_session.specs.State.{State};
ghost use Rattle.draid_pool.specs.Pools.{HasNames, group_in, Represents};

use crate::pool::Pool;
use draid_area::Area;
use draid_rack::Rack;

impl<R: Rack, A: Area> Pool<R, A> {
    /// The committed group.
    pub fn committed(&self) -> u64
        ensures group { result ≡ group_in self.now }
        ensures state { (x : State) → Represents R.Rack A.Area self.now x → result ≡ x.committed }
    {
        self.uber.committed()
    }

    /// How many objects have bytes.
    pub fn objects(&self) -> u64
        ensures names { HasNames (get nat_eq self.now.own.objects) result }
        ensures state { (x : State) → Represents R.Rack A.Area self.now x → HasObjects x.store.changes result }
    {
        self.own.objects.len() as u64
    }
}
