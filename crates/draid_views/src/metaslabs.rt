ghost use Rattle.std.specs.Prelude.{◌<◌, List, All, IfOk, length};
ghost use Rattle.std.specs.List.{AllZip};
ghost use Rattle.draid_shard.specs.Fits.{Valid};
ghost use Rattle.draid_session.specs.Holds.{View};
ghost use Rattle.draid_session.specs.Status.{HasCount, IsGreatestOpen};
ghost use Rattle.draid_views.specs.Views.{AreShown, IsLiveAt, IsPassTold, IsToldOf};

use draid_area::Area;
use draid_names::NoMemory;
use draid_pass::Pass;
use draid_rack::Rack;
use draid_report::{MetaslabView, PassView};
use draid_shard::Shard;
use std::alloc::Global;

/// What is told of each shard. Of blocks just those are counted that are live.
pub fn metaslab_views<R: Rack, A: Area>(
    alloc: Global,
    shards: &[Shard<R, A>],
) -> Result<Vec<MetaslabView>, NoMemory>
    requires { All (Valid R.Rack) shards.now }
    ensures { IfOk result (λ views. AllZip IsToldOf shards.now views.items) }
{
    let mut views = Vec::new(alloc);
    for shard in shards {
        views.push(metaslab_view(shard))?;
    }
    Ok(views)
}

/// What is told of one.
fn metaslab_view<R: Rack, A: Area>(shard: &Shard<R, A>) -> MetaslabView
    requires valid { Valid R.Rack shard.now }
    ensures { IsToldOf shard.now result }
{
    MetaslabView {
        free: shard.space.free_stripes(),
        blocks: live_blocks(shard),
        pass: pass_view(&shard.pass),
    }
}

/// How many blocks are live.
fn live_blocks<R: Rack, A: Area>(shard: &Shard<R, A>) -> u64
    ensures { HasCount (IsLiveAt shard.now) result }
{
    let mut blocks = 0;
    let mut stripe = 0;
    while let Some(pointer) = shard.next_held(stripe) {
        if shard.is_live(&pointer) {
            blocks += 1;
        }
        stripe = pointer.first + 1;
    }
    blocks
}

/// What is told of a pass.
fn pass_view(pass: &Option<Pass>) -> Option<PassView>
    ensures { IsPassTold pass.now result }
{
    match pass {
        Some(pass) => Some(PassView {
            number: pass.number,
            kind: pass.kind,
            at: pass.at,
            errors: pass.errors,
        }),
        None => None,
    }
}

/// The greatest group that is open in a shard.
pub fn last_open_group<R: Rack, A: Area>(shards: &[Shard<R, A>]) -> u64
    requires some { 0 < length shards.now }
    ensures { (views : List View) → AreShown shards.now views → IsGreatestOpen views result }
{
    let mut group = 0;
    for shard in shards {
        group = group.max(shard.open_group());
    }
    group
}
