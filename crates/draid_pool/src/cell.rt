use draid_area::Area;
use draid_rack::Rack;
use draid_shard::Shard;
use draid_turn::Stand;

/// A metaslab under a lock.
#[derive(Drop)]
pub struct Cell<R: Rack, A: Area> {
    pub shard: Shard<R, A>,
}

impl<R: Rack, A: Area> Stand for Cell<R, A> {
    ghost use Rattle.draid_pool.specs.Drifts.{KeepsTo};

    ghost step = { λ old past. KeepsTo R.Rack A.Area old.shard past.left.shard past.concerned };
}
