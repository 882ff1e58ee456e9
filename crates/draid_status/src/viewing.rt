//! What `status` tells of an open pool.
ghost use Rattle.std.specs.Prelude.{IfOk};
ghost use Rattle.draid_session.specs.State.{State};
ghost use Rattle.draid_session.specs.Status.{IsPoolView};
ghost use Rattle.draid_pool.specs.Pools.{Represents};
ghost use Rattle.draid_status.specs.Views.{uber_view, views_of};
ghost use Rattle.draid_pool.specs.Whole.{IsWhole};

use draid_area::Area;
use draid_names::NoMemory;
use draid_pool::{Pool, vdev_name};
use draid_rack::Rack;
use draid_report::View;
use draid_views::{last_open_group, metaslab_views, slot_views};

/// What `status` tells of the pool.
pub fn view<R: Rack, A: Area>(pool: &Pool<R, A>) -> Result<View, NoMemory>
    requires whole { IsWhole R.Rack A.Area pool.now }
    ensures view { (x : State) → Represents R.Rack A.Area pool.now x → IfOk result (IsPoolView x.geometry x.perms x.store (uber_view x) (views_of x)) }
{
    let alloc = pool.alloc;
    let shards = pool.metaslabs.shards.as_slice();
    let name = vdev_name(alloc, pool.geometry.spec)?;
    let slots = slot_views(alloc, shards, pool.geometry)?;
    let metaslabs = metaslab_views(alloc, shards)?;
    Ok(View {
        name,
        group: pool.committed(),
        open_group: last_open_group(shards),
        objects: pool.objects(),
        slots,
        metaslabs,
    })
}
