//! What a `create` replies, where no pool is open.
ghost use Rattle.std.specs.Prelude.{◌≡◌, ◌≤◌, None};
ghost use Rattle.draid_spec.specs.Spec.{IsSpec};
ghost use Rattle.draid_session.specs.Making.{props_of};
ghost use Rattle.draid_pool.specs.Shelves.{on_shelf};
ghost use Rattle.draid_create.specs.Says.{CreateSays, MakeIs};

use crate::fault::CreateFault;
use crate::opening::create;
use draid_names::Failed;
use draid_pool::{Pool, vdev_name};
use draid_reply::Reply;
use draid_script::{CommandName, PoolKeys};
use draid_shelf::Shelf;
use draid_spec::{Props, Spec, geometry, parse_spec};
use std::alloc::Global;

/// The properties that the keys of `create` name.
fn props(keys: PoolKeys) -> Props
    ensures { result ≡ props_of keys }
{
    Props {
        sector: keys.sector,
        height: keys.height,
        metaslabs: keys.metaslabs,
        slices: keys.slices,
        seed: keys.seed,
        version: keys.version,
    }
}

/// A pool that was made: its name, and how many stripes it has.
#[derive(Drop)]
pub struct Made {
    pub name: String,
    pub stripes: u64,
}

/// Makes a new pool and opens it, where none is open. Its name comes first, since a pool without one would be in vain.
fn make<H: Shelf>(
    alloc: Global,
    shelf: &mut H,
    pool: &mut Option<Pool<H::R, H::A>>,
    spec: Spec,
    props: Props,
) -> Result<Made, CreateFault>
    requires spec { IsSpec props.version spec }
    requires closed { pool.old ≡ None }
    ensures makes { MakeIs H.R.Rack H.A.Area spec props (on_shelf H.Shelf shelf.old) (on_shelf H.Shelf shelf.new) pool.new result }
    ensures later { H.faults shelf.old ≤ H.faults shelf.new }
{
    let layout = match geometry(spec, props) {
        Ok(layout) => layout,
        Err(why) => return Err(CreateFault::Spec(why)),
    };
    let Ok(name) = vdev_name(alloc, spec) else {
        return Err(CreateFault::NoMemory);
    };
    match create(alloc, shelf, spec, props) {
        Ok(open) => {
            *pool = Some(open);
            Ok(Made {
                name,
                stripes: layout.pool_stripes(),
            })
        }
        Err(fault) => Err(fault),
    }
}

/// Makes a pool as a line asks, in place of an earlier one on the shelf, and opens it. None is open before.
pub fn reply_to_create<H: Shelf>(
    alloc: Global,
    shelf: &mut H,
    pool: &mut Option<Pool<H::R, H::A>>,
    text: &[u8],
    children: u32,
    keys: PoolKeys,
) -> Result<Reply, Failed>
    requires closed { pool.old ≡ None }
    ensures says { CreateSays H.R.Rack H.A.Area text.now children keys (on_shelf H.Shelf shelf.old) (on_shelf H.Shelf shelf.new) pool.new result }
    ensures later { H.faults shelf.old ≤ H.faults shelf.new }
{
    let spec = match parse_spec(text, children, keys.version) {
        Ok(spec) => spec,
        Err(why) => return Ok(Reply::CreateRefused { why }),
    };
    match make(alloc, shelf, pool, spec, props(keys)) {
        Ok(Made { name, stripes }) => Ok(Reply::Created { name, stripes }),
        Err(CreateFault::Spec(why)) => Ok(Reply::CreateRefused { why }),
        Err(CreateFault::NoMemory) => Ok(Reply::NoMemory {
            command: CommandName::Create,
        }),
        Err(CreateFault::Shelf) => Err(Failed),
    }
}
