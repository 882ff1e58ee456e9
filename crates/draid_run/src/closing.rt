//! Commands that give the open pool back to the shelf.
ghost use Rattle.std.specs.Prelude.{◌≤◌};
ghost use Rattle.draid_session.specs.Session.{Desk};
ghost use Rattle.draid_pool.specs.Shelves.{OnShelf, on_shelf};
ghost use Rattle.draid_run.specs.Closing.{CrashDid, ExportIs};
ghost use Rattle.draid_run.specs.Desks.{IsDesk, IsPool};

use crate::answer::{Stop, no_pool};
use draid_export::{ExportRefused, reply_to_crash, reply_to_export};
use draid_names::Failed;
use draid_pool::Pool;
use draid_reply::Reply;
use draid_script::CommandName;
use draid_shelf::Shelf;

/// Gives the pool that is open back to the shelf, after a sync where something of it isn't safe. It stays open where that
/// sync is refused.
pub(crate) fn export<H: Shelf>(
    shelf: &mut H,
    pool: &mut Option<Pool<H::R, H::A>>,
) -> Result<Reply, Stop>
    requires desk { (x : Desk) × IsPool H.R.Rack H.A.Area pool.old x }
    ensures answer { (entry : OnShelf) (x : Desk) → IsDesk H.R.Rack H.A.Area entry (on_shelf H.Shelf shelf.old) pool.old x
        → ExportIs H.R.Rack H.A.Area entry x (on_shelf H.Shelf shelf.new) pool.new result }
    ensures later { H.faults shelf.old ≤ H.faults shelf.new }
{
    let Some(open) = pool.take() else {
        return Ok(no_pool(CommandName::Export));
    };
    match reply_to_export(shelf, open) {
        Ok(reply) => Ok(reply),
        Err(ExportRefused { pool: kept, reply }) => {
            *pool = Some(kept);
            match reply {
                Ok(reply) => Ok(reply),
                Err(Failed) => Err(Stop::Shelf),
            }
        }
    }
}

/// Gives the pool that is open back to the shelf as it is, and all that the shelf holds a crash.
pub(crate) fn crash<H: Shelf>(shelf: &mut H, pool: &mut Option<Pool<H::R, H::A>>) -> Reply
    requires desk { (x : Desk) × IsPool H.R.Rack H.A.Area pool.old x }
    ensures did { (entry : OnShelf) (x : Desk) → IsDesk H.R.Rack H.A.Area entry (on_shelf H.Shelf shelf.old) pool.old x
        → CrashDid H.R.Rack H.A.Area entry x result (on_shelf H.Shelf shelf.new) pool.new }
    ensures later { H.faults shelf.old ≤ H.faults shelf.new }
{
    match pool.take() {
        Some(open) => reply_to_crash(shelf, open),
        None => no_pool(CommandName::Crash),
    }
}
