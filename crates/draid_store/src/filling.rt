//! Objects that are given contents by a seed.
ghost use Rattle.std.specs.Prelude.{◌≡◌, List, length};
ghost use Rattle.std.specs.Fn.{FnReturnsAt};
ghost use Rattle.draid_choose.specs.Rooms.{IsChooser};
ghost use Rattle.draid_script.specs.Line.{FillObjects, IsInRange};
ghost use Rattle.draid_session.specs.Choices.{choices_by};
ghost use Rattle.draid_session.specs.Making.{content_of};
ghost use Rattle.draid_session.specs.Replies.{IsReplyTo};
ghost use Rattle.draid_session.specs.State.{State};
ghost use Rattle.draid_pool.specs.Carries.{CarriesOut};
ghost use Rattle.draid_pool.specs.Pools.{Represents};
ghost use Rattle.draid_pool.specs.Whole.{IsWhole};
ghost use Rattle.draid_pool.specs.Carries.{ReplyDoes};
ghost use Rattle.draid_pool.specs.Knows.{Teaches};

use crate::writing::write;
use draid_area::Area;
use draid_choose::Chooser;
use draid_names::{Room, WriteFault};
use draid_pool::Pool;
use draid_rack::Rack;
use draid_reply::Reply;
use rand_core::{Rng, SeedableRng};
use rand_xoshiro::Xoroshiro128PlusPlus;
use std::alloc::Global;

/// Fills bytes with the contents that an object is given by a seed: those of xoroshiro128++, seeded by the sum of
/// the seed and the object's number modulo 2^64.
fn draw(into: &mut [u8], seed: u64, object: u64)
    ensures bytes { into.new ≡ content_of seed object (length into.old) }
    ensures len { length into.new ≡ length into.old }
{
    let mut rng = Xoroshiro128PlusPlus::seed_from_u64(seed.wrapping_add(object));
    rng.fill_bytes(into);
}

/// Gives `count` objects from the first on `len` bytes each, by a seed, until one is refused them.
pub fn fill<R: Rack, A: Area, F: Fn(&[Room]) -> Option<u32>>(
    alloc: Global,
    pool: &mut Pool<R, A>,
    chooser: &Chooser<F>,
    first: u64,
    count: u64,
    len: u32,
    seed: u64,
) -> Reply
    requires range { IsInRange (FillObjects first count len seed) }
    requires chooser { IsChooser F.Fn chooser.now }
    requires whole { IsWhole R.Rack A.Area pool.old }
    ensures whole { IsWhole R.Rack A.Area pool.new }
    ensures fits { IsReplyTo (FillObjects first count len seed) result }
    ensures knows { Teaches (FillObjects first count len seed) result pool.old pool.new }
    ensures step { (x : State) → Represents R.Rack A.Area pool.old x
        → CarriesOut R.Rack A.Area pool.new x (ReplyDoes x (choices_by (FnReturnsAt F.Fn chooser.now)) (FillObjects first count len seed) result) }
{
    let Ok(mut bytes) = vec![in alloc; 0; len as usize] else {
        return Reply::FillRefused {
            first,
            written: 0,
            why: WriteFault::NoMemory,
        };
    };
    for written in 0..count {
        draw(&mut bytes, seed, first + written);
        if let Err(why) = write(pool, chooser, first + written, &bytes) {
            return Reply::FillRefused {
                first,
                written,
                why,
            };
        }
    }
    Reply::Filled {
        first,
        written: count,
    }
}
