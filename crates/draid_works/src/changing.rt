//! What a lane changes of its own objects.
ghost use Rattle.std.specs.Prelude.{◌≡◌, ◌≤◌, ◌<◌, ℕ, None, Some, length, true};
ghost use Rattle.std.specs.Fn.{FnReturnsAt};
ghost use Rattle.draid_choose.specs.Rooms.{IsChooser};
ghost use Rattle.draid_names.specs.declared.numbers.TheConstants.{OBJECTS};
ghost use Rattle.draid_objects.specs.Marks.{check_by};
ghost use Rattle.draid_session.specs.State.{State};
ghost use Rattle.draid_spec.specs.Geometry.{IsGeometry};
ghost use Rattle.draid_store.specs.Answers.{FreeDoes, WriteDoes};
ghost use Rattle.draid_store.specs.Freeing.{HasLoose};
ghost use Rattle.draid_store.specs.Pointers.{TriesTake};
ghost use Rattle.draid_lanes.specs.Lanes.{IsSameLane, IsWholeLane, table_of};
ghost use Rattle.draid_lanes.specs.Locks.{owned_by};
ghost use Rattle.draid_works.specs.Lanes.{LaneCarries, LaneKnows};
ghost use Rattle.draid_works.specs.Waiting.{LooksBut, WriteSetsTable};

use crate::freeing::free_through;
use crate::writing::write_through;
use draid_area::Area;
use draid_choose::Chooser;
use draid_lanes::{Gate, Lane};
use draid_names::{LONGEST_BLOCK, OBJECTS, Room, WriteFault};
use draid_rack::Rack;
use draid_store::FreeFault;
use std::alloc::Global;
use std::sync::Wait;

/// Writes an object of the lane's, where no checkpoint stands: what is read of it from now on is `bytes`.
pub fn write_in_lane<'a, 'b, R: Rack, A: Area, G: Gate, W: Wait, F: Fn(&[Room]) -> Option<u32>>(
    rt: &W,
    alloc: Global,
    lane: &mut Lane<'a, 'b, R, A, G, W>,
    chooser: &Chooser<F>,
    object: u64,
    bytes: &[u8],
) -> Result<(), WriteFault>
    requires chooser { IsChooser F.Fn chooser.now }
    requires whole { IsWholeLane R.Rack A.Area lane.old }
    requires own { owned_by lane.old.metaslabs.passes.items object ≡ true }
    requires geometry { IsGeometry lane.old.geometry }
    requires object { object < OBJECTS }
    requires some { 1 ≤ length bytes.now }
    requires short { length bytes.now ≤ LONGEST_BLOCK }
    ensures whole { IsWholeLane R.Rack A.Area lane.new }
    ensures same { IsSameLane lane.old lane.new }
    ensures pass { lane.new.pass ≡ lane.old.pass }
    ensures sets { WriteSetsTable object bytes.now (table_of lane.old) (table_of lane.new) result }
    ensures step { (x : State) → x.geometry ≡ lane.old.geometry → check_by x.store.marks ≡ None → LaneKnows R.Rack A.Area lane.old x
        → LaneCarries R.Rack A.Area lane.old lane.new x (LooksBut (WriteDoes x (FnReturnsAt F.Fn chooser.now) object bytes.now result)) }
{
    write_through(
        rt,
        alloc,
        &mut lane.metaslabs,
        &mut lane.own,
        &lane.geometry,
        chooser,
        object,
        bytes,
    )
}

/// Frees an object of the lane's.
pub fn free_in_lane<'a, 'b, R: Rack, A: Area, G: Gate, W: Wait>(
    rt: &W,
    lane: &mut Lane<'a, 'b, R, A, G, W>,
    object: u64,
) -> Result<(), FreeFault>
    requires whole { IsWholeLane R.Rack A.Area lane.old }
    requires own { owned_by lane.old.metaslabs.passes.items object ≡ true }
    ensures whole { IsWholeLane R.Rack A.Area lane.new }
    ensures same { IsSameLane lane.old lane.new }
    ensures pass { lane.new.pass ≡ lane.old.pass }
    ensures takes { TriesTake object (table_of lane.old) (table_of lane.new) (Some result) }
    ensures step { (x : State) → HasLoose x.store object → LaneKnows R.Rack A.Area lane.old x
        → LaneCarries R.Rack A.Area lane.old lane.new x (LooksBut (FreeDoes x object result)) }
{
    free_through(rt, &mut lane.metaslabs, &mut lane.own, object)
}
