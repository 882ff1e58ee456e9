//! What an `import` replies, where no pool is open.
ghost use Rattle.std.specs.Prelude.{◌≡◌, ◌≤◌, IfOk, None};
ghost use Rattle.draid_pool.specs.Shelves.{on_shelf};
ghost use Rattle.draid_import.specs.Says.{ImportSays, IsTold, IsUnopened};

use crate::fault::ImportFault;
use crate::importing::import;
use draid_area::Area;
use draid_names::NoMemory;
use draid_pool::{Pool, close, vdev_name};
use draid_rack::Rack;
use draid_record::RecordFaultKind;
use draid_reply::Reply;
use draid_script::CommandName;
use draid_shelf::Shelf;
use std::alloc::Global;

/// Why an import has no reply.
#[derive(Clone, Copy)]
pub enum ImportStop {
    /// The shelf failed.
    Shelf,
    /// The first field of a record that is out of its range begins at byte `at`: of a metaslab's record, or of the
    /// uberblock's slot.
    Record {
        metaslab: Option<u32>,
        at: u64,
        kind: RecordFaultKind,
    },
    /// The first fault of the check record begins at byte `at`.
    Check {
        at: u64,
        kind: RecordFaultKind,
    },
}

/// What an import replies that opens no pool, or why it has no reply.
fn unopened(fault: ImportFault) -> Result<Reply, ImportStop>
    ensures { IsUnopened fault result }
{
    match fault {
        ImportFault::NoPool => Ok(Reply::NoPool {
            command: CommandName::Import,
        }),
        ImportFault::NoMemory => Ok(Reply::NoMemory {
            command: CommandName::Import,
        }),
        ImportFault::Shelf => Err(ImportStop::Shelf),
        ImportFault::Record { metaslab, at, kind } => {
            Err(ImportStop::Record { metaslab, at, kind })
        }
        ImportFault::Check { at, kind } => Err(ImportStop::Check { at, kind }),
    }
}

/// What an import replies that opened this pool.
fn opened<R: Rack, A: Area>(alloc: Global, pool: &Pool<R, A>) -> Result<Reply, NoMemory>
    ensures { IfOk result (IsTold R.Rack A.Area pool.now) }
{
    let name = vdev_name(alloc, pool.geometry().spec)?;
    Ok(Reply::Imported {
        name,
        group: pool.committed(),
        objects: pool.objects(),
    })
}

/// Opens the pool of the shelf. None is open before. Its name is made behind that, since its layout isn't known before;
/// where there is no memory for it the pool is given back.
pub fn reply_to_import<H: Shelf>(
    alloc: Global,
    shelf: &mut H,
    pool: &mut Option<Pool<H::R, H::A>>,
) -> Result<Reply, ImportStop>
    requires closed { pool.old ≡ None }
    ensures says { ImportSays H.R.Rack H.A.Area (on_shelf H.Shelf shelf.old) (on_shelf H.Shelf shelf.new) pool.new result }
    ensures later { H.faults shelf.old ≤ H.faults shelf.new }
{
    match import(alloc, shelf) {
        Ok(open) => match opened(alloc, &open) {
            Ok(reply) => {
                *pool = Some(open);
                Ok(reply)
            }
            Err(NoMemory) => {
                close(open, shelf, false);
                Ok(Reply::NoMemory {
                    command: CommandName::Import,
                })
            }
        },
        Err(fault) => unopened(fault),
    }
}
