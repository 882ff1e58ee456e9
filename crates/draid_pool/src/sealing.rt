ghost use Rattle.std.specs.Prelude.{◌≡◌, ◌+◌, Some, true, false, IsSome, IfErr, IfOk, OnErr, OnOk, length};
ghost use Rattle.draid_machine.specs.State as machine;
ghost use Rattle.draid_rack.specs.Rack.{Shape};
ghost use Rattle.draid_slots.specs.Table.{IsTable};
ghost use Rattle.draid_slots.specs.States.{HasSlots};
ghost use Rattle.draid_shard.specs.Alike.{KeepsArms};
ghost use Rattle.draid_shard.specs.Calls.{SameReserve};
ghost use Rattle.draid_shard.specs.Changes.{KeepsBlocks};
ghost use Rattle.draid_shard.specs.Fits.{TicketsAreNew, Valid};
ghost use Rattle.draid_shard.specs.States.{IsIn};
ghost use Rattle.draid_pool.specs.Changes.{SealsGroup};
ghost use Rattle.draid_pool.specs.Groups.{AreasLater, KeepsOtherArea, NeverWaits, OpenUpto, Seals, StaysIfWaiting, Unsealed};
ghost use Rattle.draid_pool.specs.Sealing.{AreFlushed, FlushedBelow, IsOnline, IsPlan};
ghost use Rattle.draid_pool.specs.Syncing.{KeepsShard};

use crate::fault::{SealFault, Sealed};
use crate::records::{record_of, write_to};
use draid_area::{Area, DeviceFault};
use draid_columns::flush_leaves;
use draid_machine::Event;
use draid_marks::{mark_silent, miss_marked, thin, tickets_upto};
use draid_names::{ArmKind, NoMemory};
use draid_rack::Rack;
use draid_record::Record;
use draid_shard::Shard;
use draid_slots::{Marks, Slots};
use draid_stable::{has_written, lose_targets, settle};
use std::alloc::Global;

/// What a seal takes memory for before it changes anything: the record of the group, the leaves to flush, and room for
/// those on which that fails and for the marks of arms.
#[derive(Drop)]
struct Plan {
    made: Record,
    leaves: Vec<u64>,
    failed: Vec<u64>,
    marks: Vec<Marks>,
}

/// Seals the closing group: flushes the leaves that aren't offline, those of detachments that aren't committed too,
/// and writes the record of the group to its area. A refused seal may be made again.
pub fn seal<R: Rack, A: Area>(shard: &mut Shard<R, A>, group: u64) -> Result<Sealed, SealFault>
    requires valid { Valid R.Rack shard.old }
    requires closing { (shard.old.closing ≡ Some group) × (shard.old.sealed ≡ false) }
    ensures valid { Valid R.Rack shard.new }
    ensures other { KeepsOtherArea group shard.old shard.new }
    ensures sealed { IfOk result (λ it. Seals R.Rack A.told shard.old shard.new group it.thin) }
    ensures seals { OnOk result (SealsGroup shard.old shard.new) }
    ensures refused { IfErr result (Unsealed R.Rack A.faults shard.old shard.new group) }
    ensures keeps { OnErr result (KeepsBlocks shard.old shard.new) }
    ensures slots { KeepsArms shard.old.slots shard.new.slots }
    ensures later { AreasLater A.faults shard.old shard.new }
    ensures reserve { SameReserve shard.old shard.new }
    ensures stays { KeepsShard R.faults shard.old shard.new }
    ensures waits { IfErr result (StaysIfWaiting shard.old shard.new) }
{
    let tickets = tickets_upto(&shard.entries, group);
    if tickets > 0 {
        return Err(SealFault::NotYet { tickets });
    }
    match plan_seal(shard, group) {
        Ok(plan) => seal_by(shard, group, plan),
        Err(_) => Err(SealFault::NoMemory),
    }
}

/// Seals the group by a plan, where no open write was begun up to it.
fn seal_by<R: Rack, A: Area>(
    shard: &mut Shard<R, A>,
    group: u64,
    plan: Plan,
) -> Result<Sealed, SealFault>
    requires valid { Valid R.Rack shard.old }
    requires closing { (shard.old.closing ≡ Some group) × (shard.old.sealed ≡ false) }
    requires settled { (w : machine.State) → IsIn shard.old w → OpenUpto w group 0 }
    requires tickets { TicketsAreNew shard.old.entries (group + 1) }
    requires plan { IsPlan (R.shape shard.old.rack) shard.old group plan }
    ensures valid { Valid R.Rack shard.new }
    ensures other { KeepsOtherArea group shard.old shard.new }
    ensures sealed { IfOk result (λ it. Seals R.Rack A.told shard.old shard.new group it.thin) }
    ensures seals { OnOk result (SealsGroup shard.old shard.new) }
    ensures refused { IfErr result (Unsealed R.Rack A.faults shard.old shard.new group) }
    ensures keeps { OnErr result (KeepsBlocks shard.old shard.new) }
    ensures slots { KeepsArms shard.old.slots shard.new.slots }
    ensures later { AreasLater A.faults shard.old shard.new }
    ensures reserve { SameReserve shard.old shard.new }
    ensures stays { KeepsShard R.faults shard.old shard.new }
    ensures waits { IfErr result NeverWaits }
{
    let Plan {
        mut made,
        leaves,
        mut failed,
        mut marks,
    } = plan;
    flush_leaves(&mut shard.rack, &leaves, &mut failed);
    mark_silent(&shard.slots, &mut marks, &failed);
    let wrote = has_written(&made);
    settle(&mut made, &marks, wrote);
    match write_to(shard.alloc, &mut shard.even, &mut shard.odd, group, &made) {
        Ok(()) => {}
        Err(DeviceFault::Failed) => return Err(SealFault::Area),
        Err(DeviceFault::NoMemory) => return Err(SealFault::NoMemory),
    }
    miss_marked(&mut shard.slots, &marks, wrote, group);
    lose_targets(&mut shard.pass, &marks);
    shard.sealed = true;
    shard.history.add(Event::Seal { group, failed }, 1);
    Ok(Sealed {
        thin: thin(&shard.slots, &shard.entries, group),
    })
}

/// Takes the memory for the seal of a group.
fn plan_seal<R: Rack, A: Area>(shard: &Shard<R, A>, group: u64) -> Result<Plan, NoMemory>
    requires valid { Valid R.Rack shard.now }
    ensures { IfOk result (IsPlan (R.shape shard.now.rack) shard.now group) }
{
    let made = record_of(shard, group)?;
    let marks = no_marks(shard.alloc, shard.slots.children())?;
    let leaves = leaves_to_flush(shard.alloc, &shard.rack, &shard.slots)?;
    let failed = Vec::with_capacity(shard.alloc, leaves.len())?;
    Ok(Plan {
        made,
        leaves,
        failed,
        marks,
    })
}

/// No mark for so many slots.
fn no_marks(alloc: Global, children: u32) -> Result<Vec<Marks>, NoMemory>
    ensures { IfOk result (λ marks. length marks.items ≡ children) }
{
    let mut marks = Vec::with_capacity(alloc, children as usize)?;
    for _slot in 0..children {
        marks.push([false; 3])?;
    }
    Ok(marks)
}

/// The leaves that a seal flushes.
fn leaves_to_flush<R: Rack>(alloc: Global, rack: &R, slots: &Slots) -> Result<Vec<u64>, NoMemory>
    requires { IsTable slots.now }
    ensures { IfOk result (λ leaves. AreFlushed (R.shape rack.now) slots.now leaves.items) }
{
    let mut leaves = Vec::new(alloc);
    let mut from = 0;
    while let Some(leaf) = rack.leaf_from(from) {
        add_flushed(slots, leaf, &mut leaves)?;
        match leaf.checked_add(1) {
            Some(next) => from = next,
            None => return Ok(leaves),
        }
    }
    Ok(leaves)
}

/// Adds a leaf of the rack to those that a seal flushes, if it is one.
fn add_flushed(slots: &Slots, leaf: u64, leaves: &mut Vec<u64>) -> Result<(), NoMemory>
    requires { IsTable slots.now }
    ensures { OnOk result ((shape : Shape) → IsSome (shape.leaves leaf) → FlushedBelow shape slots.now leaves.old.items leaf
        → FlushedBelow shape slots.now leaves.new.items (leaf + 1)) }
{
    if is_flushed(slots, leaf) {
        leaves.push(leaf)?;
    }
    Ok(())
}

/// Whether a leaf is an arm that isn't offline, or was one that wasn't as it was detached, which isn't committed.
fn is_flushed(slots: &Slots, leaf: u64) -> bool
    requires { IsTable slots.now }
    ensures all { (q : machine.Core) → HasSlots slots.now q → IsOnline q leaf → result ≡ true }
    ensures online { (q : machine.Core) → HasSlots slots.now q → result ≡ true → IsOnline q leaf }
{
    match slots.find(ArmKind::Leaf, leaf) {
        Some(at) => !slots.arms(at.slot)[at.arm as usize].offline,
        None => slots.leaving_online(leaf),
    }
}
