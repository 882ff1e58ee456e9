ghost use Rattle.std.specs.Prelude.{◌≡◌, None};
ghost use Rattle.draid_machine.specs.declared.names.Key.{Key};
ghost use Rattle.draid_entries.specs.Entries.{held_in};
ghost use Rattle.draid_shard.specs.Fits.{Valid};

use crate::shard::{begin, hello, logged};
use draid_area::Area;
use draid_block::Encoded;
use draid_blocks::free;
use draid_pool::{CloseFault, SealFault, Sealed, close_group};
use draid_rack::Rack;
use draid_shard::Shard;
use std::alloc::Global;

/// Whether these are the open, the closing and the last committed group, and whether the closing one is sealed.
pub fn has_groups<R: Rack, A: Area>(
    shard: &Shard<R, A>,
    open: u64,
    closing: Option<u64>,
    sealed: bool,
    committed: u64,
) -> bool {
    shard.open_group() == open
        && shard.closing() == closing
        && shard.sealed() == sealed
        && shard.committed() == committed
}

/// Whether the first group closes.
pub fn closes<R: Rack, A: Area>(shard: &mut Shard<R, A>) -> bool
    requires valid { Valid R.Rack shard.old }
    requires open_group { shard.old.open_group ≡ 2 }
    requires idle { shard.old.closing ≡ None }
{
    close_group(shard, 2).is_ok() && has_groups(shard, 3, Some(2), false, 1)
}

/// Whether it doesn't, as the metaslab is worn.
pub fn stays_open<R: Rack, A: Area>(shard: &mut Shard<R, A>) -> bool
    requires valid { Valid R.Rack shard.old }
    requires open_group { shard.old.open_group ≡ 2 }
    requires idle { shard.old.closing ≡ None }
{
    let worn = Err(CloseFault::Worn { events: 0 });
    close_group(shard, 2) == worn && has_groups(shard, 2, None, false, 1)
}

/// Closes the open group, if none is closing.
pub fn close<R: Rack, A: Area>(shard: &mut Shard<R, A>)
    requires valid { Valid R.Rack shard.old }
    ensures valid { Valid R.Rack shard.new }
{
    if shard.closing().is_none() {
        let group = shard.open_group();
        let _ = close_group(shard, group);
    }
}

/// Seals the closing group, if it isn't sealed.
pub fn seal<R: Rack, A: Area>(shard: &mut Shard<R, A>) -> Option<Result<Sealed, SealFault>>
    requires valid { Valid R.Rack shard.old }
    ensures valid { Valid R.Rack shard.new }
{
    let group = shard.closing()?;
    if shard.sealed() {
        return None;
    }
    Some(draid_pool::seal(shard, group))
}

/// Writes the block `hello`, and closes its group; whether the write is done.
fn close_with_hello<R: Rack, A: Area>(alloc: Global, shard: &mut Shard<R, A>) -> bool
    requires valid { Valid R.Rack shard.old }
    requires empty { (key : Key) → held_in shard.old.entries key ≡ None }
    ensures valid { Valid R.Rack shard.new }
{
    let written = hello(alloc, shard).is_some();
    close(shard);
    written
}

/// Whether the closing group is sealed, and in the logs of these leaves. That is seven events.
fn is_sealed<R: Rack, A: Area>(shard: &Shard<R, A>, leaves: [bool; 3]) -> bool
    requires { Valid R.Rack shard.now }
{
    shard.sealed() && logged(shard) == leaves && shard.events().len() == 7
}

/// Whether a group with that block is sealed so, has so many thin blocks, and isn't sealed twice.
pub fn seals<R: Rack, A: Area>(
    alloc: Global,
    shard: &mut Shard<R, A>,
    thin: u64,
    leaves: [bool; 3],
) -> bool
    requires valid { Valid R.Rack shard.old }
    requires empty { (key : Key) → held_in shard.old.entries key ≡ None }
{
    if !close_with_hello(alloc, shard) || seal(shard) != Some(Ok(Sealed { thin })) {
        return false;
    }
    seal(shard).is_none() && is_sealed(shard, leaves)
}

/// Whether such a group is sealed only once its area's failure was told.
pub fn seals_again<R: Rack, A: Area>(alloc: Global, shard: &mut Shard<R, A>) -> bool
    requires valid { Valid R.Rack shard.old }
    requires empty { (key : Key) → held_in shard.old.entries key ≡ None }
{
    if !close_with_hello(alloc, shard) || seal(shard) != Some(Err(SealFault::Area)) {
        return false;
    }
    seal(shard) == Some(Ok(Sealed { thin: 0 })) && is_sealed(shard, [false; 3])
}

/// Whether a group isn't sealed while the write of the block `hello` is open.
pub fn waits_for_hello<R: Rack, A: Area>(alloc: Global, shard: &mut Shard<R, A>) -> bool
    requires valid { Valid R.Rack shard.old }
    requires empty { (key : Key) → held_in shard.old.entries key ≡ None }
{
    match Encoded::of(alloc, &shard.geometry, b"hello") {
        Ok(block) => {
            let begun = begin(shard, &block, 0).is_ok();
            close(shard);
            begun && seal(shard) == Some(Err(SealFault::NotYet { tickets: 1 }))
        }
        Err(_) => false,
    }
}

/// Commits the closing group, if it is sealed.
pub fn commit<R: Rack, A: Area>(shard: &mut Shard<R, A>)
    requires valid { Valid R.Rack shard.old }
    ensures valid { Valid R.Rack shard.new }
{
    if let Some(group) = shard.closing() {
        if shard.sealed() {
            draid_pool::commit(shard, group);
        }
    }
}

/// Commits the open group, as far as that goes.
pub fn sync<R: Rack, A: Area>(shard: &mut Shard<R, A>)
    requires valid { Valid R.Rack shard.old }
    ensures valid { Valid R.Rack shard.new }
{
    close(shard);
    let _ = seal(shard);
    commit(shard);
}

/// Seals and commits the open group. Whether the longest run of free stripes is seven once it is sealed, and eight once it
/// is committed.
fn gives_back<R: Rack, A: Area>(shard: &mut Shard<R, A>) -> bool
    requires { Valid R.Rack shard.old }
{
    close(shard);
    let _ = seal(shard);
    let sealed = shard.room(1).run;
    commit(shard);
    sealed == 7 && shard.room(1).run == 8 && has_groups(shard, 3, None, false, 2)
}

/// Whether it is so where the block `hello` was written and freed in that group, which left seven.
pub fn gives_hello_back<R: Rack, A: Area>(alloc: Global, shard: &mut Shard<R, A>) -> bool
    requires valid { Valid R.Rack shard.old }
    requires empty { (key : Key) → held_in shard.old.entries key ≡ None }
{
    match hello(alloc, shard) {
        Some(pointer) => {
            let freed = free(shard, &pointer, 0).is_ok();
            freed && shard.room(1).run == 7 && gives_back(shard)
        }
        None => false,
    }
}
