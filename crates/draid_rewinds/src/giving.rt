ghost use Rattle.draid_rewinds.specs.Giving.{GivesUp, MayGiveUp};

use crate::sweeping::free_others;
use draid_area::Area;
use draid_pool::Pool;
use draid_rack::Rack;

/// Frees the live blocks that aren't those of their objects in the group that is open in all metaslabs, and gives up the
/// checkpoint in it. It takes no memory. The answer is how many blocks were freed.
pub(crate) fn give_up<R: Rack, A: Area>(pool: &mut Pool<R, A>) -> u64
    requires may { MayGiveUp R.Rack A.Area pool.old }
    ensures gives { GivesUp R.Rack A.Area pool.old result pool.new }
{
    let group = pool.uber.committed() + 1;
    let freed = free_others(&mut pool.metaslabs.shards, &pool.own.objects, group);
    pool.own.floor = pool.own.floor.max(group);
    pool.uber.give_up_point(group);
    freed
}
