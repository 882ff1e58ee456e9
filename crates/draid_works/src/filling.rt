//! Objects of a lane's that are given contents by a seed.
ghost use Rattle.std.specs.Prelude.{◌≡◌, List, None, length};
ghost use Rattle.std.specs.Fn.{FnReturnsAt};
ghost use Rattle.draid_choose.specs.Rooms.{IsChooser};
ghost use Rattle.draid_pool.specs.Carries.{ReplyDoes};
ghost use Rattle.draid_script.specs.Line.{FillObjects, IsInRange};
ghost use Rattle.draid_session.specs.Choices.{choices_by};
ghost use Rattle.draid_session.specs.Making.{content_of};
ghost use Rattle.draid_session.specs.Replies.{IsReplyTo};
ghost use Rattle.draid_objects.specs.Marks.{check_by};
ghost use Rattle.draid_session.specs.State.{State};
ghost use Rattle.draid_spec.specs.Geometry.{IsGeometry};
ghost use Rattle.draid_store.specs.Fetching.{OwnsFrom};
ghost use Rattle.draid_lanes.specs.Lanes.{IsSameLane, IsWholeLane, table_of};
ghost use Rattle.draid_lanes.specs.Locks.{owned_by};
ghost use Rattle.draid_works.specs.Lanes.{LaneCarries, LaneKnows, TeachesOwn};
ghost use Rattle.draid_works.specs.Waiting.{LooksBut};

use crate::changing::write_in_lane;
use draid_area::Area;
use draid_choose::Chooser;
use draid_lanes::{Gate, Lane};
use draid_names::{Room, WriteFault};
use draid_rack::Rack;
use draid_reply::Reply;
use rand_core::{Rng, SeedableRng};
use rand_xoshiro::Xoroshiro128PlusPlus;
use std::alloc::Global;
use std::sync::Wait;

/// Fills bytes with the contents that an object is given by a seed: those of xoroshiro128++, seeded by the sum of
/// the seed and the object's number modulo 2^64.
fn draw(into: &mut [u8], seed: u64, object: u64)
    ensures bytes { into.new ≡ content_of seed object (length into.old) }
    ensures len { length into.new ≡ length into.old }
{
    let mut rng = Xoroshiro128PlusPlus::seed_from_u64(seed.wrapping_add(object));
    rng.fill_bytes(into);
}

/// Fills objects of the lane's from `first` on: each gets `len` bytes drawn by `seed` and its number.
pub fn fill_in_lane<'a, 'b, R: Rack, A: Area, G: Gate, W: Wait, F: Fn(&[Room]) -> Option<u32>>(
    rt: &W,
    alloc: Global,
    lane: &mut Lane<'a, 'b, R, A, G, W>,
    chooser: &Chooser<F>,
    first: u64,
    count: u64,
    len: u32,
    seed: u64,
) -> Reply
    requires range { IsInRange (FillObjects first count len seed) }
    requires chooser { IsChooser F.Fn chooser.now }
    requires whole { IsWholeLane R.Rack A.Area lane.old }
    requires own { OwnsFrom (owned_by lane.old.metaslabs.passes.items) first count }
    requires geometry { IsGeometry lane.old.geometry }
    ensures whole { IsWholeLane R.Rack A.Area lane.new }
    ensures same { IsSameLane lane.old lane.new }
    ensures pass { lane.new.pass ≡ lane.old.pass }
    ensures fits { IsReplyTo (FillObjects first count len seed) result }
    ensures teaches { TeachesOwn (owned_by lane.old.metaslabs.passes.items) (FillObjects first count len seed) result (table_of lane.old) (table_of lane.new) }
    ensures step { (x : State) → x.geometry ≡ lane.old.geometry → check_by x.store.marks ≡ None → LaneKnows R.Rack A.Area lane.old x
        → LaneCarries R.Rack A.Area lane.old lane.new x (LooksBut (ReplyDoes x (choices_by (FnReturnsAt F.Fn chooser.now)) (FillObjects first count len seed) result)) }
{
    let Ok(mut bytes) = vec![in alloc; 0; len as usize] else {
        return Reply::FillRefused {
            first,
            written: 0,
            why: WriteFault::NoMemory,
        };
    };
    for written in 0..count {
        draw(&mut bytes, seed, first + written);
        if let Err(why) = write_in_lane(rt, alloc, lane, chooser, first + written, &bytes) {
            return Reply::FillRefused {
                first,
                written,
                why,
            };
        }
    }
    Reply::Filled {
        first,
        written: count,
    }
}
