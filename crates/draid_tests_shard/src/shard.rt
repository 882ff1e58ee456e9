ghost use Rattle.std.specs.Prelude.{◌≡◌, ◌≤◌, ◌+◌, None, IfOk, length};
ghost use Rattle.draid_block.specs.Blocks.{cut_of};
ghost use Rattle.draid_block.specs.Solving.{IsFetched};
ghost use Rattle.draid_spec.specs.Geometry.{IsGeometry};
ghost use Rattle.draid_machine.specs.declared.names.Key.{Key};
ghost use Rattle.draid_entries.specs.Entries.{held_in};
ghost use Rattle.draid_blocks.specs.Tickets.{Carries};
ghost use Rattle.draid_shard.specs.Fits.{Valid};

use draid_area::Area;
use draid_block::{Encoded, Fetched, solve_block};
use draid_blocks::{BeginFault, FetchFault, Missed, Ticket, abort, fetch, finish, free, put};
use draid_entries::ReserveFault;
use draid_names::{ArmAt, Pointer};
use draid_rack::Rack;
use draid_shard::{Shard, Shut};
use draid_spec::Geometry;
use std::alloc::Global;

/// Writes all columns of a block, and ends its write.
pub fn put_all<R: Rack, A: Area>(
    shard: &mut Shard<R, A>,
    mut ticket: Ticket,
    block: &Encoded,
) -> Result<Pointer, Missed>
    requires valid { Valid R.Rack shard.old }
    requires carries { Carries shard.old ticket block.now }
    requires fresh { ticket.next ≡ 0 }
    ensures valid { Valid R.Rack shard.new }
{
    for _column in 0..shard.geometry.g {
        put(shard, &mut ticket, block);
    }
    finish(shard, ticket)
}

/// Begins the one write, in a floor's group or the open one.
pub fn begin<R: Rack, A: Area>(
    shard: &mut Shard<R, A>,
    block: &Encoded,
    floor: u64,
) -> Result<Ticket, BeginFault>
    requires valid { Valid R.Rack shard.old }
    requires floor { (floor ≤ shard.old.open_group + 1) × (floor ≤ 3) }
    requires empty { (key : Key) → held_in shard.old.entries key ≡ None }
    requires cut { block.now.cut ≡ cut_of shard.old.geometry }
    ensures valid { Valid R.Rack shard.new }
    ensures carries { IfOk result (λ ticket. Carries shard.new ticket block.now) }
    ensures fresh { IfOk result (λ ticket. ticket.next ≡ 0) }
{
    draid_blocks::begin(shard, 7, 1, block, floor)
}

/// Writes a block.
fn write<R: Rack, A: Area>(
    alloc: Global,
    shard: &mut Shard<R, A>,
    bytes: &[u8],
) -> Result<Result<Pointer, Missed>, BeginFault>
    requires valid { Valid R.Rack shard.old }
    requires empty { (key : Key) → held_in shard.old.entries key ≡ None }
    requires some { 1 ≤ length bytes.now }
    requires short { length bytes.now ≤ 131072 }
    ensures valid { Valid R.Rack shard.new }
{
    let block = Encoded::of(alloc, &shard.geometry, bytes)?;
    let ticket = begin(shard, &block, 0)?;
    Ok(put_all(shard, ticket, &block))
}

/// Writes the block `hello`, where that is done.
pub fn hello<R: Rack, A: Area>(alloc: Global, shard: &mut Shard<R, A>) -> Option<Pointer>
    requires valid { Valid R.Rack shard.old }
    requires empty { (key : Key) → held_in shard.old.entries key ≡ None }
    ensures valid { Valid R.Rack shard.new }
{
    match write(alloc, shard, b"hello") {
        Ok(Ok(pointer)) => Some(pointer),
        _ => None,
    }
}

/// Whether the leaf of a slot has the open group in its log.
fn is_logged<R: Rack, A: Area>(shard: &Shard<R, A>, slot: u32) -> bool
    requires valid { Valid R.Rack shard.now }
{
    slot < shard.geometry.spec.children
        && !shard.slots.arms(slot).is_empty()
        && shard.slots.log(ArmAt { slot, arm: 0 }).contains(2)
}

/// Which leaves have it.
pub fn logged<R: Rack, A: Area>(shard: &Shard<R, A>) -> [bool; 3]
    requires valid { Valid R.Rack shard.now }
{
    [
        is_logged(shard, 0),
        is_logged(shard, 1),
        is_logged(shard, 2),
    ]
}

/// Whether the bytes of a block are `hello`.
fn is_hello(alloc: Global, geometry: &Geometry, fetched: &Fetched) -> bool
    requires geometry { IsGeometry geometry.now }
    requires fetched { IsFetched (cut_of geometry.now) fetched.now }
{
    match solve_block(alloc, geometry, fetched) {
        Ok(bytes) => bytes.as_slice() == b"hello".as_slice(),
        Err(_) => false,
    }
}

/// How many columns of a block are absent.
fn absent(fetched: &Fetched) -> usize {
    let columns = fetched.columns.iter();
    columns.filter(|column| column.is_none()).count()
}

/// How many columns of a block are absent, and whether its bytes are `hello`, where it is fetched.
fn read<R: Rack, A: Area>(
    alloc: Global,
    shard: &mut Shard<R, A>,
    pointer: &Pointer,
) -> Option<(usize, bool)>
    requires valid { Valid R.Rack shard.old }
    ensures valid { Valid R.Rack shard.new }
{
    match fetch(shard, pointer) {
        Ok(fetched) => {
            let is_hello = is_hello(alloc, &shard.geometry, &fetched);
            Some((absent(&fetched), is_hello))
        }
        Err(_) => None,
    }
}

/// Whether a block is fetched with so many columns absent, and freed in the open group; and then neither fetched nor freed, as
/// it isn't live.
fn is_freed<R: Rack, A: Area>(
    alloc: Global,
    shard: &mut Shard<R, A>,
    pointer: &Pointer,
    absent: usize,
) -> bool
    requires valid { Valid R.Rack shard.old }
    ensures valid { Valid R.Rack shard.new }
{
    let read = read(alloc, shard, pointer);
    let group = free(shard, pointer, 0).ok();
    let fault = fetch(shard, pointer).err();
    let freed = free(shard, pointer, 0);
    read == Some((absent, true))
        && group == Some(2)
        && fault == Some(FetchFault::NotLive)
        && freed.is_err()
}

/// Whether a block is written, which leaves these leaves with its group in their logs and seven free stripes beside it, and
/// then fetched and freed so. That is seven events.
pub fn lives<R: Rack, A: Area>(
    alloc: Global,
    shard: &mut Shard<R, A>,
    leaves: [bool; 3],
    absent: usize,
) -> bool
    requires valid { Valid R.Rack shard.old }
    requires empty { (key : Key) → held_in shard.old.entries key ≡ None }
{
    let Some(pointer) = hello(alloc, shard) else {
        return false;
    };
    if logged(shard) != leaves || shard.room(1).run != 7 {
        return false;
    }
    is_freed(alloc, shard, &pointer, absent) && shard.events().len() == 7
}

/// Whether two columns of a block are missed, which leaves two leaves with its group in their logs, and no block. That is
/// five events.
pub fn misses_two<R: Rack, A: Area>(alloc: Global, shard: &mut Shard<R, A>) -> bool
    requires valid { Valid R.Rack shard.old }
    requires empty { (key : Key) → held_in shard.old.entries key ≡ None }
{
    match write(alloc, shard, b"hello") {
        Ok(Err(Missed { columns })) => {
            columns == 2
                && logged(shard) == [true, false, true]
                && shard.room(1).run == 8
                && shard.events().len() == 5
        }
        _ => false,
    }
}

/// Begins a write in the next group, where the floor is that, puts its first column, and gives it up. Whether the longest run
/// of free stripes is then as long as before, and one less in between.
fn gives_next_up<R: Rack, A: Area>(shard: &mut Shard<R, A>, block: &Encoded) -> bool
    requires valid { Valid R.Rack shard.old }
    requires open_group { shard.old.open_group ≡ 2 }
    requires empty { (key : Key) → held_in shard.old.entries key ≡ None }
    requires cut { block.now.cut ≡ cut_of shard.old.geometry }
{
    match begin(shard, block, 3) {
        Ok(mut ticket) => {
            let birth = ticket.pointer.birth;
            put(shard, &mut ticket, block);
            let open = shard.room(1).run;
            abort(shard, ticket);
            birth == 3 && open == 7 && shard.room(1).run == 8
        }
        Err(_) => false,
    }
}

/// The same of the block `hello`.
pub fn gives_hello_up<R: Rack, A: Area>(alloc: Global, shard: &mut Shard<R, A>) -> bool
    requires valid { Valid R.Rack shard.old }
    requires open_group { shard.old.open_group ≡ 2 }
    requires empty { (key : Key) → held_in shard.old.entries key ≡ None }
{
    match Encoded::of(alloc, &shard.geometry, b"hello") {
        Ok(block) => gives_next_up(shard, &block),
        Err(_) => false,
    }
}

/// Damages a sector, where an event is reserved for that and the sector is there; whether it is done.
pub fn damage<R: Rack, A: Area>(shard: &mut Shard<R, A>, leaf: u64, sector: u64) -> Option<bool>
    requires valid { Valid R.Rack shard.old }
    ensures valid { Valid R.Rack shard.new }
{
    if shard.reserve(1).is_err() || !shard.has_leaf(leaf) {
        return None;
    }
    if shard.geometry.metaslab_sectors() <= sector {
        return None;
    }
    Some(draid_blocks::damage(shard, leaf, sector).is_ok())
}

/// Whether the first sectors of the leaves 0 and 1 are damaged, that of leaf 1 only where the call is done, and a leaf 3 isn't
/// there. The block is read then where only one was damaged.
fn is_damaged<R: Rack, A: Area>(
    alloc: Global,
    shard: &mut Shard<R, A>,
    pointer: &Pointer,
    second: bool,
) -> bool
    requires { Valid R.Rack shard.old }
{
    if damage(shard, 0, 0) != Some(true) || damage(shard, 1, 0) != Some(second) {
        return false;
    }
    if damage(shard, 3, 0).is_some() || shard.reserve(1).is_err() {
        return false;
    }
    read(alloc, shard, pointer) == Some((0, !second))
}

/// Whether it is so of the block `hello`.
pub fn damages_hello<R: Rack, A: Area>(alloc: Global, shard: &mut Shard<R, A>, second: bool) -> bool
    requires valid { Valid R.Rack shard.old }
    requires empty { (key : Key) → held_in shard.old.entries key ≡ None }
{
    match hello(alloc, shard) {
        Some(pointer) => is_damaged(alloc, shard, &pointer, second),
        None => false,
    }
}

/// Whether no block of these bytes is begun, for this fault.
fn is_refused<R: Rack, A: Area>(
    alloc: Global,
    shard: &mut Shard<R, A>,
    bytes: &[u8],
    fault: BeginFault,
) -> bool
    requires valid { Valid R.Rack shard.old }
    requires empty { (key : Key) → held_in shard.old.entries key ≡ None }
    requires some { 1 ≤ length bytes.now }
    requires short { length bytes.now ≤ 131072 }
    ensures valid { Valid R.Rack shard.new }
{
    match write(alloc, shard, bytes) {
        Ok(_) => false,
        Err(why) => why == fault,
    }
}

/// Whether a metaslab says that it is worn.
pub fn is_worn<R: Rack, A: Area>(alloc: Global, shard: &mut Shard<R, A>) -> bool
    requires valid { Valid R.Rack shard.old }
    requires empty { (key : Key) → held_in shard.old.entries key ≡ None }
{
    let worn = Err(ReserveFault::Worn { events: 0 });
    if shard.shut() != Some(Shut::Worn) || shard.room(1).run != 0 {
        return false;
    }
    is_refused(alloc, shard, b"hello", BeginFault::Worn { events: 0 })
        && shard.reserve(1) == worn
        && shard.ask(1) == worn
}

/// Whether a metaslab that isn't shut refuses a block of more stripes than it has.
pub fn is_small<R: Rack, A: Area>(alloc: Global, shard: &mut Shard<R, A>) -> bool
    requires valid { Valid R.Rack shard.old }
    requires empty { (key : Key) → held_in shard.old.entries key ≡ None }
{
    if shard.shut().is_some() || shard.room(1).run != 8 {
        return false;
    }
    is_refused(alloc, shard, &[5; 16384], BeginFault::NoRoom { largest: 8 })
        && shard.reserve(1).is_ok()
        && shard.ask(1).is_ok()
}

/// Why a block isn't fetched once more, where at most so many fetches are done.
fn fetch_fault<R: Rack, A: Area>(
    shard: &mut Shard<R, A>,
    pointer: &Pointer,
    most: u32,
) -> Option<FetchFault>
    requires valid { Valid R.Rack shard.old }
    ensures valid { Valid R.Rack shard.new }
{
    for _ in 0..most {
        if let Err(fault) = fetch(shard, pointer) {
            return Some(fault);
        }
    }
    None
}

/// Whether fetches of the block `hello` use the events of a metaslab up, and it takes no block then.
pub fn wears_out<R: Rack, A: Area>(alloc: Global, shard: &mut Shard<R, A>) -> bool
    requires valid { Valid R.Rack shard.old }
    requires empty { (key : Key) → held_in shard.old.entries key ≡ None }
{
    match hello(alloc, shard) {
        Some(pointer) => {
            let fault = fetch_fault(shard, &pointer, 20_000);
            fault == Some(FetchFault::Worn { events: 16_928 }) && shard.shut() == Some(Shut::Worn)
        }
        None => false,
    }
}
