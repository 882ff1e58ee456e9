//! What the commands on the objects of a pool reply.
ghost use Rattle.std.specs.Prelude.{◌≡◌};
ghost use Rattle.std.specs.Fn.{FnReturnsAt};
ghost use Rattle.draid_choose.specs.Rooms.{IsChooser};
ghost use Rattle.draid_script.specs.Line.{DamageSector, FreeObject, IsInRange, ReadObject, SumObjects, WriteObject};
ghost use Rattle.draid_session.specs.Choices.{choices_by};
ghost use Rattle.draid_session.specs.Replies.{IsReplyTo};
ghost use Rattle.draid_session.specs.State.{State};
ghost use Rattle.draid_pool.specs.Carries.{CarriesOut, ReplyDoes};
ghost use Rattle.draid_pool.specs.Knows.{Teaches};
ghost use Rattle.draid_pool.specs.Pools.{Represents};
ghost use Rattle.draid_pool.specs.Whole.{IsWhole};
ghost use Rattle.draid_store.specs.Says.{DamageSays, FreeSays, ReadSays, SumSays};

use crate::damaging::damage;
use crate::fault::{DamageFault, FreeFault, SumFault};
use crate::freeing::free;
use crate::reading::read;
use crate::summing::sum;
use crate::writing::write;
use draid_area::Area;
use draid_choose::Chooser;
use draid_names::{ObjectFault, Room, WriteFault};
use draid_pool::Pool;
use draid_rack::Rack;
use draid_reply::Reply;
use draid_script::CommandName;
use std::thread::Threads;

/// Writes to an object.
pub fn reply_to_write<R: Rack, A: Area, F: Fn(&[Room]) -> Option<u32>>(
    pool: &mut Pool<R, A>,
    chooser: &Chooser<F>,
    object: u64,
    bytes: &[u8],
) -> Reply
    requires range { IsInRange (WriteObject object bytes.now) }
    requires chooser { IsChooser F.Fn chooser.now }
    requires whole { IsWhole R.Rack A.Area pool.old }
    ensures whole { IsWhole R.Rack A.Area pool.new }
    ensures fits { IsReplyTo (WriteObject object bytes.now) result }
    ensures knows { Teaches (WriteObject object bytes.now) result pool.old pool.new }
    ensures step { (x : State) → Represents R.Rack A.Area pool.old x
        → CarriesOut R.Rack A.Area pool.new x (ReplyDoes x (choices_by (FnReturnsAt F.Fn chooser.now)) (WriteObject object bytes.now) result) }
{
    match write(pool, chooser, object, bytes) {
        Ok(()) => Reply::Written { object },
        Err(
            WriteFault::NoSpace {
                run,
                disabled,
                full,
                worn,
            },
        ) => Reply::NoSpace {
            object,
            run,
            disabled,
            full,
            worn,
        },
        Err(WriteFault::Missed { columns }) => Reply::Missed { object, columns },
        Err(WriteFault::Last) => Reply::WriteLast { object },
        Err(WriteFault::NoMemory) => Reply::NoMemory {
            command: CommandName::Write,
        },
    }
}

/// Reads an object.
pub fn reply_to_read<R: Rack, A: Area>(pool: &mut Pool<R, A>, object: u64) -> Reply
    requires whole { IsWhole R.Rack A.Area pool.old }
    ensures whole { IsWhole R.Rack A.Area pool.new }
    ensures fits { IsReplyTo (ReadObject object) result }
    ensures knows { Teaches (ReadObject object) result pool.old pool.new }
    ensures step { (x : State) → Represents R.Rack A.Area pool.old x
        → CarriesOut R.Rack A.Area pool.new x (ReadSays object result x) }
{
    match read(pool, object) {
        Ok(bytes) => Reply::Contents { object, bytes },
        Err(ObjectFault::NoObject) => Reply::NoObject { object },
        Err(ObjectFault::Unreadable { absent, tried }) => Reply::Unreadable {
            object,
            absent,
            tried,
        },
        Err(ObjectFault::Worn) => Reply::ReadWorn { object },
        Err(ObjectFault::NoMemory) => Reply::NoMemory {
            command: CommandName::Read,
        },
    }
}

/// Frees an object.
pub fn reply_to_free<R: Rack, A: Area>(pool: &mut Pool<R, A>, object: u64) -> Reply
    requires whole { IsWhole R.Rack A.Area pool.old }
    ensures whole { IsWhole R.Rack A.Area pool.new }
    ensures fits { IsReplyTo (FreeObject object) result }
    ensures knows { Teaches (FreeObject object) result pool.old pool.new }
    ensures step { (x : State) → Represents R.Rack A.Area pool.old x
        → CarriesOut R.Rack A.Area pool.new x (FreeSays object result x) }
{
    match free(pool, object) {
        Ok(()) => Reply::Freed { object },
        Err(FreeFault::NoObject) => Reply::FreeNoObject { object },
    }
}

/// Sums so many objects from the first on.
pub fn reply_to_sum<R: Rack, A: Area>(
    rt: &(impl Threads + Sync),
    pool: &mut Pool<R, A>,
    first: u64,
    count: u64,
) -> Reply
    requires range { IsInRange (SumObjects first count) }
    requires whole { IsWhole R.Rack A.Area pool.old }
    ensures whole { IsWhole R.Rack A.Area pool.new }
    ensures fits { IsReplyTo (SumObjects first count) result }
    ensures knows { Teaches (SumObjects first count) result pool.old pool.new }
    ensures step { (x : State) → Represents R.Rack A.Area pool.old x
        → CarriesOut R.Rack A.Area pool.new x (SumSays first count result x) }
{
    match sum(rt, pool, first, count) {
        Ok(digest) => Reply::Summed {
            first,
            count,
            digest,
        },
        Err(SumFault { object, why }) => Reply::SumRefused { object, why },
    }
}

/// Damages a sector of a leaf.
pub fn reply_to_damage<R: Rack, A: Area>(pool: &mut Pool<R, A>, leaf: u64, sector: u64) -> Reply
    requires whole { IsWhole R.Rack A.Area pool.old }
    ensures whole { IsWhole R.Rack A.Area pool.new }
    ensures fits { IsReplyTo (DamageSector leaf sector) result }
    ensures knows { Teaches (DamageSector leaf sector) result pool.old pool.new }
    ensures step { (x : State) → Represents R.Rack A.Area pool.old x
        → CarriesOut R.Rack A.Area pool.new x (DamageSays leaf sector result x) }
{
    match damage(pool, leaf, sector) {
        Ok(()) => Reply::Damaged { leaf, sector },
        Err(DamageFault::NoSuch) => Reply::DamageRefused { leaf, sector },
        Err(DamageFault::Worn) => Reply::DamageWorn { leaf, sector },
        Err(DamageFault::Failed) => Reply::DamageFailed { leaf, sector },
        Err(DamageFault::NoMemory) => Reply::NoMemory {
            command: CommandName::Damage,
        },
    }
}
