//! Commands that open a pool, where none is open.
ghost use Rattle.std.specs.Prelude.{◌≡◌, ◌≤◌};
ghost use Rattle.draid_session.specs.Session.{Desk};
ghost use Rattle.draid_pool.specs.Shelves.{OnShelf, on_shelf};
ghost use Rattle.draid_run.specs.Desks.{IsDesk};
ghost use Rattle.draid_run.specs.Importing.{ImportIs, name_of, stop_of_import};
ghost use Rattle.draid_run.specs.Making.{CreateIs};

use crate::answer::Stop;
use draid_create::reply_to_create;
use draid_exits::RecordName;
use draid_import::{ImportStop, reply_to_import};
use draid_names::Failed;
use draid_pool::Pool;
use draid_reply::Reply;
use draid_script::{CommandName, PoolKeys};
use draid_shelf::Shelf;
use std::alloc::Global;

/// Opens a new pool, where none is open.
pub(crate) fn create<H: Shelf>(
    alloc: Global,
    shelf: &mut H,
    pool: &mut Option<Pool<H::R, H::A>>,
    text: &[u8],
    children: u32,
    keys: PoolKeys,
) -> Result<Reply, Stop>
    ensures answer { (entry : OnShelf) (x : Desk) → IsDesk H.R.Rack H.A.Area entry (on_shelf H.Shelf shelf.old) pool.old x
        → CreateIs H.R.Rack H.A.Area text.now children keys entry (on_shelf H.Shelf shelf.old) x (on_shelf H.Shelf shelf.new) pool.new result }
    ensures later { H.faults shelf.old ≤ H.faults shelf.new }
{
    if pool.is_some() {
        return Ok(Reply::PoolOpen {
            command: CommandName::Create,
        });
    }
    match reply_to_create(alloc, shelf, pool, text, children, keys) {
        Ok(reply) => Ok(reply),
        Err(Failed) => Err(Stop::Shelf),
    }
}

/// Opens the pool of the shelf, where none is open.
pub(crate) fn import<H: Shelf>(
    alloc: Global,
    shelf: &mut H,
    pool: &mut Option<Pool<H::R, H::A>>,
) -> Result<Reply, Stop>
    ensures answer { (entry : OnShelf) (x : Desk) → IsDesk H.R.Rack H.A.Area entry (on_shelf H.Shelf shelf.old) pool.old x
        → ImportIs H.R.Rack H.A.Area entry (on_shelf H.Shelf shelf.old) x (on_shelf H.Shelf shelf.new) pool.new result }
    ensures later { H.faults shelf.old ≤ H.faults shelf.new }
{
    if pool.is_some() {
        return Ok(Reply::PoolOpen {
            command: CommandName::Import,
        });
    }
    match reply_to_import(alloc, shelf, pool) {
        Ok(reply) => Ok(reply),
        Err(stop) => Err(import_stop(stop)),
    }
}

/// The record of a metaslab, or the uberblock's slot.
fn record_name(metaslab: Option<u32>) -> RecordName
    ensures { result ≡ name_of metaslab }
{
    match metaslab {
        Some(metaslab) => RecordName::Metaslab(metaslab),
        None => RecordName::Uber,
    }
}

/// Why a run ends at an import that has no reply.
fn import_stop(stop: ImportStop) -> Stop
    ensures { result ≡ stop_of_import stop }
{
    match stop {
        ImportStop::Shelf => Stop::Shelf,
        ImportStop::Record { metaslab, at, kind } => Stop::Record {
            name: record_name(metaslab),
            at,
            kind,
        },
        ImportStop::Check { at, kind } => Stop::Record {
            name: RecordName::Check,
            at,
            kind,
        },
    }
}
