ghost use Rattle.std.specs.Prelude.{◌≡◌};

use crate::own::Own;
use crate::owned::Owned;
use draid_area::Area;
use draid_rack::Rack;
use draid_spec::Geometry;
use draid_uber::Uber;
use std::alloc::Global;

/// How many events all metaslabs of a pool may store, with those that are owed.
pub const EVENTS: u64 = 1 << 24;

/// An open pool: objects whose bytes lie in the blocks of its metaslabs.
#[derive(Drop)]
pub struct Pool<R: Rack, A: Area> {
    pub geometry: Geometry,
    pub metaslabs: Owned<R, A>,
    /// The uberblock, which names the committed group.
    pub uber: Uber<A>,
    pub own: Own,
    pub alloc: Global,
}

impl<R: Rack, A: Area> Pool<R, A> {
    ghost use Rattle.draid_session.specs.State.{State};
    ghost use Rattle.draid_pool.specs.Pools.{Represents};

    /// The layout of the pool.
    pub fn geometry(&self) -> &Geometry
        ensures value { result.now ≡ self.now.geometry }
        ensures state { (x : State) → Represents R.Rack A.Area self.now x → result.now ≡ x.geometry }
    {
        &self.geometry
    }
}
