//! Many calls on an empty metaslab.

ghost use Rattle.std.specs.Prelude.{◌≡◌, IfSome, IsTrue, None};
ghost use Rattle.draid_block.specs.Blocks.{cut_of};
ghost use Rattle.draid_entries.specs.Entries.{held_in};
ghost use Rattle.draid_shard.specs.Fits.{Valid};
ghost use Rattle.draid_blocks.specs.Tickets.{Carries};

use crate::groups::{close, commit, seal};
use crate::shard::{damage, put_all};
use draid_area::Area;
use draid_block::Encoded;
use draid_blocks::{Ticket, abort, fetch, free, put};
use draid_entries::Entries;
use draid_names::Pointer;
use draid_rack::Rack;
use draid_shard::Shard;
use std::alloc::Global;

/// A call on a metaslab, or those of one write.
#[derive(Clone, Copy)]
enum Call {
    /// A write of this number, in this group or the open one, where that is later.
    Write(u64, u64),
    /// One that is given up behind its first column.
    GiveUp(u64),
    /// That of the live block at this place.
    Fetch(usize),
    Free(usize),
    /// That of the first sector of a leaf.
    Damage(u64),
    Close,
    Seal,
    Commit,
}

/// Whether no block or open write has a number.
fn is_new(entries: &Entries, seq: u64) -> bool
    ensures { IsTrue result → held_in entries.now (record { object = 7; seq = seq }) ≡ None }
{
    let mut stripe = 0;
    while let Some(entry) = entries.first_from(stripe) {
        if entry.pointer.seq == seq {
            return false;
        }
        stripe = entry.pointer.first + 1;
    }
    true
}

/// Begins a write, where it is a new one and its group is the next one at most.
fn begin<R: Rack, A: Area>(
    shard: &mut Shard<R, A>,
    block: &Encoded,
    seq: u64,
    floor: u64,
) -> Option<Ticket>
    requires valid { Valid R.Rack shard.old }
    requires cut { block.now.cut ≡ cut_of shard.old.geometry }
    ensures valid { Valid R.Rack shard.new }
    ensures carries { IfSome result (λ ticket. Carries shard.new ticket block.now) }
    ensures fresh { IfSome result (λ ticket. ticket.next ≡ 0) }
{
    if seq == 0 || seq > 9 || floor > 9 || floor > shard.open_group() + 1 {
        return None;
    }
    if !is_new(&shard.entries, seq) {
        return None;
    }
    match draid_blocks::begin(shard, 7, seq, block, floor) {
        Ok(ticket) => Some(ticket),
        Err(_) => None,
    }
}

/// Does a write, or gives it up behind its first column; whether it is begun.
pub fn write<R: Rack, A: Area>(
    alloc: Global,
    shard: &mut Shard<R, A>,
    seq: u64,
    floor: u64,
    whole: bool,
) -> bool
    requires valid { Valid R.Rack shard.old }
    ensures valid { Valid R.Rack shard.new }
{
    let Ok(block) = Encoded::of(alloc, &shard.geometry, b"hello") else {
        return false;
    };
    let Some(mut ticket) = begin(shard, &block, seq, floor) else {
        return false;
    };
    if whole {
        let _ = put_all(shard, ticket, &block);
        return true;
    }
    put(shard, &mut ticket, &block);
    abort(shard, ticket);
    true
}

/// The live block at a place.
fn live_at<R: Rack, A: Area>(shard: &Shard<R, A>, place: usize) -> Option<Pointer> {
    match shard.live() {
        Ok(live) if place < live.len() => Some(live[place]),
        _ => None,
    }
}

/// Does a call; whether it is done.
fn make_call<R: Rack, A: Area>(alloc: Global, shard: &mut Shard<R, A>, call: Call) -> bool
    requires valid { Valid R.Rack shard.old }
    ensures valid { Valid R.Rack shard.new }
{
    match call {
        Call::Write(seq, floor) => write(alloc, shard, seq, floor, true),
        Call::GiveUp(seq) => write(alloc, shard, seq, 0, false),
        Call::Fetch(place) => match live_at(shard, place) {
            Some(pointer) => fetch(shard, &pointer).is_ok(),
            None => false,
        },
        Call::Free(place) => match live_at(shard, place) {
            Some(pointer) => free(shard, &pointer, 0).is_ok(),
            None => false,
        },
        Call::Damage(leaf) => damage(shard, leaf, 0).is_some(),
        Call::Close => {
            close(shard);
            shard.closing().is_some()
        }
        Call::Seal => {
            let sealed = seal(shard);
            matches!(sealed, Some(Ok(_)))
        }
        Call::Commit => {
            commit(shard);
            shard.closing().is_none()
        }
    }
}

/// Calls in four groups, two of which are committed and the third sealed.
static CALLS: [Call; 25] = [
    Call::Write(1, 0),
    Call::Write(2, 0),
    Call::Fetch(0),
    Call::Write(3, 0),
    Call::GiveUp(4),
    Call::Damage(0),
    Call::Write(5, 3),
    Call::Free(0),
    Call::Close,
    Call::Fetch(0),
    Call::Seal,
    Call::Commit,
    // It takes the stripe of the block that was freed.
    Call::Write(6, 0),
    Call::Free(1),
    Call::Damage(2),
    Call::Close,
    Call::Write(7, 0),
    Call::Seal,
    Call::Commit,
    Call::Write(8, 5),
    Call::Close,
    Call::Fetch(2),
    Call::Write(9, 0),
    Call::Free(0),
    Call::Seal,
];

/// Does the calls one after another, up to the first that isn't done; whether all are.
pub fn call_all<R: Rack, A: Area>(alloc: Global, shard: &mut Shard<R, A>) -> bool
    requires valid { Valid R.Rack shard.old }
    ensures valid { Valid R.Rack shard.new }
{
    for at in 0..CALLS.len() {
        if !make_call(alloc, shard, CALLS[at]) {
            return false;
        }
    }
    true
}
