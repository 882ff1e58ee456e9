//! What the commands of a lane reply: what they would of a pool. Where an area failed there is no reply.
ghost use Rattle.std.specs.Prelude.{◌≡◌, IfOk, IsErrOf, false, true};
ghost use Rattle.std.specs.Fn.{FnReturnsAt};
ghost use Rattle.draid_choose.specs.Rooms.{IsChooser};
ghost use Rattle.draid_script.specs.Line.{FreeObject, IsInRange, ReadObject, RebuildPool, ScrubPool, SumObjects, SyncPool, TakeOffline, TakeOnline, WriteObject};
ghost use Rattle.draid_session.specs.Choices.{choices_by};
ghost use Rattle.draid_session.specs.Replies.{IsReplyTo};
ghost use Rattle.draid_spec.specs.Geometry.{IsGeometry};
ghost use Rattle.draid_pool.specs.Drifts.{passes_number};
ghost use Rattle.draid_pool.specs.Says.{IsSyncReply};
ghost use Rattle.draid_store.specs.Fetching.{OwnsFrom};
ghost use Rattle.draid_store.specs.Says.{FreeSays, ReadSays, SumSays, free_reply, read_reply, sum_reply};
ghost use Rattle.draid_changes.specs.Says.{IsSwitchReply};
ghost use Rattle.draid_visits.specs.Says.{IsRebuildReply, IsScrubReply};
ghost use Rattle.draid_lanes.specs.Lanes.{IsWholeLane};
ghost use Rattle.draid_lanes.specs.Locks.{owned_by};
ghost use Rattle.draid_works.specs.Job.{LeavesWhole};
ghost use Rattle.draid_works.specs.Replied.{DoesOnObjects, ObjectsDone, RebuildDone, ScrubDone, SwitchDone, SyncDone, write_reply};

use crate::changing::{free_in_lane, write_in_lane};
use crate::lanes::{commit_in_lane, read_in_lane, sum_in_lane};
use crate::mending::{rebuild_in_lane, scrub_in_lane};
use crate::switching::switch_in_lane;
use draid_area::Area;
use draid_changes::ArmFault;
use draid_choose::Chooser;
use draid_lanes::{Gate, Lane};
use draid_names::{Failed, ObjectFault, Room, WriteFault};
use draid_pool::{SyncFault, Synced};
use draid_rack::Rack;
use draid_reply::Reply;
use draid_script::CommandName;
use draid_store::{FreeFault, SumFault};
use draid_visits::{MendFault, Mended};
use std::alloc::Global;
use std::sync::Wait;
use std::thread::Threads;

/// The reply to a write.
fn reply_of_write(object: u64, came: Result<(), WriteFault>) -> Reply
    ensures { result ≡ write_reply object came }
{
    match came {
        Ok(()) => Reply::Written { object },
        Err(
            WriteFault::NoSpace {
                run,
                disabled,
                full,
                worn,
            },
        ) => Reply::NoSpace {
            object,
            run,
            disabled,
            full,
            worn,
        },
        Err(WriteFault::Missed { columns }) => Reply::Missed { object, columns },
        Err(WriteFault::Last) => Reply::WriteLast { object },
        Err(WriteFault::NoMemory) => Reply::NoMemory {
            command: CommandName::Write,
        },
    }
}

/// Writes to an object of the lane's.
pub(crate) fn reply_to_write<
    'a,
    'b,
    R: Rack,
    A: Area,
    G: Gate,
    W: Wait,
    F: Fn(&[Room]) -> Option<u32>,
>(
    alloc: Global,
    lane: &mut Lane<'a, 'b, R, A, G, W>,
    chooser: &Chooser<F>,
    object: u64,
    bytes: &[u8],
) -> Reply
    requires range { IsInRange (WriteObject object bytes.now) }
    requires chooser { IsChooser F.Fn chooser.now }
    requires whole { IsWholeLane R.Rack A.Area lane.old }
    requires own { owned_by lane.old.metaslabs.passes.items object ≡ true }
    requires geometry { IsGeometry lane.old.geometry }
    ensures leaves { LeavesWhole R.Rack A.Area lane.old lane.new }
    ensures fits { IsReplyTo (WriteObject object bytes.now) result }
    ensures done { ObjectsDone R.Rack A.Area (choices_by (FnReturnsAt F.Fn chooser.now)) (WriteObject object bytes.now) result lane.old lane.new }
{
    let rt = lane.metaslabs.rt;
    let came = write_in_lane(rt, alloc, lane, chooser, object, bytes);
    reply_of_write(object, came)
}

/// The reply to a read.
fn reply_of_read(object: u64, came: Result<Vec<u8>, ObjectFault>) -> Reply
    ensures { result ≡ read_reply object came }
{
    match came {
        Ok(bytes) => Reply::Contents { object, bytes },
        Err(ObjectFault::NoObject) => Reply::NoObject { object },
        Err(ObjectFault::Unreadable { absent, tried }) => Reply::Unreadable {
            object,
            absent,
            tried,
        },
        Err(ObjectFault::Worn) => Reply::ReadWorn { object },
        Err(ObjectFault::NoMemory) => Reply::NoMemory {
            command: CommandName::Read,
        },
    }
}

/// Reads an object of the lane's.
pub(crate) fn reply_to_read<'a, 'b, R: Rack, A: Area, G: Gate, W: Wait>(
    alloc: Global,
    lane: &mut Lane<'a, 'b, R, A, G, W>,
    object: u64,
) -> Reply
    requires whole { IsWholeLane R.Rack A.Area lane.old }
    requires own { owned_by lane.old.metaslabs.passes.items object ≡ true }
    requires geometry { IsGeometry lane.old.geometry }
    ensures leaves { LeavesWhole R.Rack A.Area lane.old lane.new }
    ensures fits { IsReplyTo (ReadObject object) result }
    ensures done { DoesOnObjects R.Rack A.Area (ReadObject object) result (ReadSays object result) lane.old lane.new }
{
    let came = read_in_lane(alloc, lane, object);
    reply_of_read(object, came)
}

/// The reply to a freeing.
fn reply_of_free(object: u64, came: Result<(), FreeFault>) -> Reply
    ensures { result ≡ free_reply object came }
{
    match came {
        Ok(()) => Reply::Freed { object },
        Err(FreeFault::NoObject) => Reply::FreeNoObject { object },
    }
}

/// Frees an object of the lane's.
pub(crate) fn reply_to_free<'a, 'b, R: Rack, A: Area, G: Gate, W: Wait>(
    lane: &mut Lane<'a, 'b, R, A, G, W>,
    object: u64,
) -> Reply
    requires whole { IsWholeLane R.Rack A.Area lane.old }
    requires own { owned_by lane.old.metaslabs.passes.items object ≡ true }
    ensures leaves { LeavesWhole R.Rack A.Area lane.old lane.new }
    ensures fits { IsReplyTo (FreeObject object) result }
    ensures done { DoesOnObjects R.Rack A.Area (FreeObject object) result (FreeSays object result) lane.old lane.new }
{
    let rt = lane.metaslabs.rt;
    let came = free_in_lane(rt, lane, object);
    reply_of_free(object, came)
}

/// The reply to a sum of so many objects from the first on.
fn reply_of_sum(first: u64, count: u64, came: Result<[u8; 32], SumFault>) -> Reply
    ensures { result ≡ sum_reply first count came }
{
    match came {
        Ok(digest) => Reply::Summed {
            first,
            count,
            digest,
        },
        Err(SumFault { object, why }) => Reply::SumRefused { object, why },
    }
}

/// Sums so many objects of the lane's from the first on.
pub(crate) fn reply_to_sum<'a, 'b, R: Rack, A: Area, G: Gate, W: Wait + Threads + Sync>(
    alloc: Global,
    lane: &mut Lane<'a, 'b, R, A, G, W>,
    first: u64,
    count: u64,
) -> Reply
    requires range { IsInRange (SumObjects first count) }
    requires whole { IsWholeLane R.Rack A.Area lane.old }
    requires own { OwnsFrom (owned_by lane.old.metaslabs.passes.items) first count }
    requires geometry { IsGeometry lane.old.geometry }
    ensures leaves { LeavesWhole R.Rack A.Area lane.old lane.new }
    ensures fits { IsReplyTo (SumObjects first count) result }
    ensures done { DoesOnObjects R.Rack A.Area (SumObjects first count) result (SumSays first count result) lane.old lane.new }
{
    let rt = lane.metaslabs.rt;
    let came = sum_in_lane(rt, alloc, lane, first, count);
    reply_of_sum(first, count, came)
}

/// The reply to a sync.
fn reply_of_sync(came: Result<Synced, SyncFault>) -> Result<Reply, Failed>
    ensures { IsSyncReply came result }
{
    let command = CommandName::Sync;
    match came {
        Ok(Synced { group, thin }) => Ok(Reply::Synced { group, thin }),
        Err(SyncFault::Worn) => Ok(Reply::Worn { command }),
        Err(SyncFault::Last) => Ok(Reply::Last { command }),
        Err(SyncFault::NoMemory) => Ok(Reply::NoMemory { command }),
        Err(SyncFault::Shelf) => Err(Failed),
    }
}

/// Commits the group that is open.
pub(crate) fn reply_to_sync<'a, 'b, R: Rack, A: Area, G: Gate, W: Wait>(
    lane: Lane<'a, 'b, R, A, G, W>,
) -> (Lane<'a, 'b, R, A, G, W>, Result<Reply, Failed>)
    requires whole { IsWholeLane R.Rack A.Area lane }
    ensures leaves { LeavesWhole R.Rack A.Area lane.entry result.0 }
    ensures fits { IfOk result.1 (IsReplyTo SyncPool) }
    ensures done { SyncDone R.Rack A.Area result.1 lane.entry result.0 }
{
    let (lane, came) = commit_in_lane(lane);
    let reply = reply_of_sync(came);
    (lane, reply)
}

/// The reply to taking a leaf offline.
fn reply_of_offline(leaf: u64, came: Result<(), ArmFault>) -> Result<Reply, Failed>
    ensures { IsSwitchReply leaf true came result }
{
    match came {
        Ok(()) => Ok(Reply::OfflineDone { leaf }),
        Err(ArmFault::Slot { .. }) => Ok(Reply::OfflineRefused { leaf }),
        Err(ArmFault::Worn) => Ok(Reply::OfflineWorn { leaf }),
        Err(ArmFault::NoMemory) => Ok(Reply::NoMemory {
            command: CommandName::Offline,
        }),
        Err(ArmFault::Shelf) => Err(Failed),
    }
}

/// Takes a leaf offline.
pub(crate) fn reply_to_offline<'a, 'b, R: Rack, A: Area, G: Gate, W: Wait>(
    lane: Lane<'a, 'b, R, A, G, W>,
    leaf: u64,
) -> (Lane<'a, 'b, R, A, G, W>, Result<Reply, Failed>)
    requires whole { IsWholeLane R.Rack A.Area lane }
    ensures leaves { LeavesWhole R.Rack A.Area lane.entry result.0 }
    ensures fits { IfOk result.1 (IsReplyTo (TakeOffline leaf)) }
    ensures done { SwitchDone R.Rack A.Area leaf true result.1 lane.entry result.0 }
{
    let (lane, came) = switch_in_lane(lane, leaf, true);
    let reply = reply_of_offline(leaf, came);
    (lane, reply)
}

/// The reply to taking a leaf online.
fn reply_of_online(leaf: u64, came: Result<(), ArmFault>) -> Result<Reply, Failed>
    ensures { IsSwitchReply leaf false came result }
{
    match came {
        Ok(()) => Ok(Reply::OnlineDone { leaf }),
        Err(ArmFault::Slot { .. }) => Ok(Reply::OnlineRefused { leaf }),
        Err(ArmFault::Worn) => Ok(Reply::OnlineWorn { leaf }),
        Err(ArmFault::NoMemory) => Ok(Reply::NoMemory {
            command: CommandName::Online,
        }),
        Err(ArmFault::Shelf) => Err(Failed),
    }
}

/// Takes a leaf online.
pub(crate) fn reply_to_online<'a, 'b, R: Rack, A: Area, G: Gate, W: Wait>(
    lane: Lane<'a, 'b, R, A, G, W>,
    leaf: u64,
) -> (Lane<'a, 'b, R, A, G, W>, Result<Reply, Failed>)
    requires whole { IsWholeLane R.Rack A.Area lane }
    ensures leaves { LeavesWhole R.Rack A.Area lane.entry result.0 }
    ensures fits { IfOk result.1 (IsReplyTo (TakeOnline leaf)) }
    ensures done { SwitchDone R.Rack A.Area leaf false result.1 lane.entry result.0 }
{
    let (lane, came) = switch_in_lane(lane, leaf, false);
    let reply = reply_of_online(leaf, came);
    (lane, reply)
}

/// The reply to a rebuild.
fn reply_of_rebuild(came: Result<Mended, MendFault>) -> Result<Reply, Failed>
    ensures { IsRebuildReply came result }
{
    let command = CommandName::Rebuild;
    match came {
        Ok(it) => Ok(Reply::Rebuilt {
            from: it.from,
            stripes: it.units,
            errors: it.errors,
            paused: it.paused,
        }),
        Err(MendFault::Nothing) => Ok(Reply::RebuildNothing),
        Err(MendFault::PassThere { metaslab, number }) => Ok(Reply::PassThere {
            command,
            metaslab,
            number,
        }),
        Err(MendFault::Worn) => Ok(Reply::Worn { command }),
        Err(MendFault::Last) => Ok(Reply::Last { command }),
        Err(MendFault::NoMemory) => Ok(Reply::NoMemory { command }),
        Err(MendFault::Shelf) => Err(Failed),
    }
}

/// Rebuilds what needs it, and lends at most so many stripes.
pub(crate) fn reply_to_rebuild<'a, 'b, R: Rack, A: Area, G: Gate, W: Wait>(
    lane: Lane<'a, 'b, R, A, G, W>,
    limit: Option<u64>,
) -> (Lane<'a, 'b, R, A, G, W>, Result<Reply, Failed>)
    requires whole { IsWholeLane R.Rack A.Area lane }
    requires geometry { IsGeometry lane.geometry }
    requires passes { owned_by lane.metaslabs.passes.items passes_number ≡ true }
    ensures leaves { LeavesWhole R.Rack A.Area lane.entry result.0 }
    ensures fits { IfOk result.1 (IsReplyTo (RebuildPool limit)) }
    ensures done { RebuildDone R.Rack A.Area limit result.1 lane.entry result.0 }
{
    let (lane, came) = rebuild_in_lane(lane, limit);
    let reply = reply_of_rebuild(came);
    (lane, reply)
}

/// The reply to a scrub, which no area fails, and for which there is something to do.
fn reply_of_scrub(came: Result<Mended, MendFault>) -> Reply
    requires some { IsErrOf came MendFault.Nothing → ⊥ }
    requires not_shelf { IsErrOf came MendFault.Shelf → ⊥ }
    ensures { IsScrubReply came result }
{
    let command = CommandName::Scrub;
    match came {
        Ok(it) => Reply::Scrubbed {
            from: it.from,
            blocks: it.units,
            repaired: it.repaired,
            errors: it.errors,
            paused: it.paused,
        },
        Err(MendFault::PassThere { metaslab, number }) => Reply::PassThere {
            command,
            metaslab,
            number,
        },
        Err(MendFault::Worn) => Reply::Worn { command },
        Err(MendFault::Last) => Reply::Last { command },
        Err(MendFault::NoMemory) => Reply::NoMemory { command },
        Err(MendFault::Nothing) => unreachable!(),
        Err(MendFault::Shelf) => unreachable!(),
    }
}

/// Scrubs from the first metaslab with a scrub on, or all, and lends at most so many blocks.
pub(crate) fn reply_to_scrub<'a, 'b, R: Rack, A: Area, G: Gate, W: Wait>(
    lane: Lane<'a, 'b, R, A, G, W>,
    limit: Option<u64>,
) -> (Lane<'a, 'b, R, A, G, W>, Reply)
    requires whole { IsWholeLane R.Rack A.Area lane }
    requires geometry { IsGeometry lane.geometry }
    requires passes { owned_by lane.metaslabs.passes.items passes_number ≡ true }
    ensures leaves { LeavesWhole R.Rack A.Area lane.entry result.0 }
    ensures fits { IsReplyTo (ScrubPool limit) result.1 }
    ensures done { ScrubDone R.Rack A.Area limit result.1 lane.entry result.0 }
{
    let (lane, came) = scrub_in_lane(lane, limit);
    let reply = reply_of_scrub(came);
    (lane, reply)
}
