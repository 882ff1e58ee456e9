//! What the commands reply that give a pool back.
ghost use Rattle.std.specs.Prelude.{◌≡◌, ◌≤◌, ℕ, IfErr, IfOk, IsErr, OnErr, true};
ghost use Rattle.draid_script.specs.Line.{CrashPool};
ghost use Rattle.draid_session.specs.Replies.{IsReplyTo};
ghost use Rattle.draid_session.specs.State.{State};
ghost use Rattle.draid_shelf.specs.Kits.{OnHeld};
ghost use Rattle.draid_pool.specs.Failing.{AreaRose, AreasLater};
ghost use Rattle.draid_pool.specs.Pointers.{SamePointers};
ghost use Rattle.draid_pool.specs.Pools.{Represents, group_in};
ghost use Rattle.draid_pool.specs.Returning.{GivesBack, IsFirm};
ghost use Rattle.draid_pool.specs.Shelves.{on_shelf, own_on};
ghost use Rattle.draid_pool.specs.Whole.{IsWhole};
ghost use Rattle.draid_export.specs.Exporting.{ExportIs, IsRefusal, TellsGroup, WasRefused};

use crate::syncing::sync_for_export;
use draid_area::Area;
use draid_names::Failed;
use draid_pool::{Pool, SyncFault, close};
use draid_rack::Rack;
use draid_reply::Reply;
use draid_script::CommandName;
use draid_shelf::Shelf;

/// A pool wasn't given back, since its sync was refused, as the reply says, or since a device failed in it. It comes back.
#[derive(Drop)]
pub struct ExportRefused<R: Rack, A: Area> {
    pub pool: Pool<R, A>,
    pub reply: Result<Reply, Failed>,
}

/// What an export replies whose sync was refused.
fn refusal(why: SyncFault) -> Result<Reply, Failed>
    ensures refusal { IsRefusal why result }
    ensures failed { IsErr result → why ≡ SyncFault.Shelf }
{
    let command = CommandName::Export;
    match why {
        SyncFault::Worn => Ok(Reply::Worn { command }),
        SyncFault::Last => Ok(Reply::Last { command }),
        SyncFault::NoMemory => Ok(Reply::NoMemory { command }),
        SyncFault::Shelf => Err(Failed),
    }
}

/// Gives a pool back to the shelf, after a sync where something of it isn't safe.
pub fn reply_to_export<H: Shelf>(
    shelf: &mut H,
    pool: Pool<H::R, H::A>,
) -> Result<Reply, ExportRefused<H::R, H::A>>
    requires whole { IsWhole H.R.Rack H.A.Area pool }
    ensures whole { IfErr result (λ refused. IsWhole H.R.Rack H.A.Area refused.pool) }
    ensures same { IfErr result (λ refused. SamePointers pool refused.pool) }
    ensures later { IfErr result (λ refused. AreasLater H.A.faults pool refused.pool) }
    ensures cause { IfErr result (λ refused. IsErr refused.reply → AreaRose H.A.faults pool refused.pool) }
    ensures fits { IfOk result TellsGroup }
    // The group that it names is the committed one, or one behind it.
    ensures names { IfOk result (λ said. (group : ℕ) → said ≡ Reply.Exported group → group_in pool ≤ group) }
    ensures refused { IfErr result (λ refused. WasRefused refused.reply) }
    ensures step { (x : State) → Represents H.R.Rack H.A.Area pool x
        → ExportIs H.R.Rack H.A.Area x (on_shelf H.Shelf shelf.old) (on_shelf H.Shelf shelf.new) result }
    // The shelf is left alone where the pool comes back.
    ensures alone { OnErr result (shelf.new ≡ shelf.old) }
    ensures faults { H.faults shelf.new ≡ H.faults shelf.old }
{
    let mut pool = pool;
    match sync_for_export(&mut pool) {
        Ok(group) => {
            close(pool, shelf, false);
            Ok(Reply::Exported { group })
        }
        Err(why) => Err(ExportRefused {
            pool,
            reply: refusal(why),
        }),
    }
}

/// Gives a pool back to the shelf as it is, and all that the shelf holds a crash.
pub fn reply_to_crash<H: Shelf>(shelf: &mut H, pool: Pool<H::R, H::A>) -> Reply
    requires whole { IsWhole H.R.Rack H.A.Area pool }
    ensures fits { IsReplyTo CrashPool result }
    ensures is { result ≡ Reply.Crashed }
    ensures back { (x : State) → Represents H.R.Rack H.A.Area pool x
        → GivesBack x true (H.told shelf.new) (H.leaves shelf.new) (H.counts shelf.new) (own_on H.Shelf shelf.new) }
    // Nothing that the shelf tells is soft then.
    ensures firm { OnHeld (H.told shelf.new) IsFirm }
    ensures faults { H.faults shelf.new ≡ H.faults shelf.old }
{
    close(pool, shelf, true);
    Reply::Crashed
}
