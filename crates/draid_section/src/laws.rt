//! What lanes that ran come to, where each job tells what it did.
ghost use Rattle.std.specs.Prelude.{◌≡◌, ℕ, List, Some, length, map, slice_get};
ghost use Rattle.std.specs.declared.alloc.Global.{Global as Heap};
ghost use Rattle.std.specs.declared.vec.Vec.{Vec};
ghost use Rattle.draid_pool.specs.Failing.{AreaRose, AreasLater};
ghost use Rattle.draid_pool.specs.Knows.{KnowsPointers};
ghost use Rattle.draid_pool.specs.Pools.{Represents};
ghost use Rattle.draid_pool.specs.Whole.{IsWhole};
ghost use Rattle.draid_pool.specs.declared.pool.Pool.{Pool as PoolOf};
ghost use Rattle.draid_script.specs.Line.{Command};
ghost use Rattle.draid_reply.specs.declared.reply.Reply.{Reply};
ghost use Rattle.draid_session.specs.Holds.{Hold};
ghost use Rattle.draid_session.specs.Known.{Known};
ghost use Rattle.draid_session.specs.Lanes.{Says, Section};
ghost use Rattle.draid_session.specs.Sections.{NoClash};
ghost use Rattle.draid_session.specs.State.{State, Store};
ghost use Rattle.draid_turn.specs.declared.span.Span.{Span as NumberSpan};
ghost use Rattle.draid_section.specs.Running.{KeepLanes, WereDone};
ghost use Rattle.draid_section.specs.Section.{MayRunAll, RunsInLanes};
ghost use Rattle.draid_tables.specs.Lists.{AreLaneLists};
ghost use Rattle.draid_lanes.specs.Failing.{AreaFailedLane};
ghost use Rattle.draid_lanes.specs.Telling.{JobsTeach, JobsTell};
ghost use Rattle.draid_lanes.specs.declared.lane.Lane.{Lane as LaneOf};
ghost use Rattle.draid_section.specs.Told.{SectionStood, SectionTaught};

use draid_area::Area;
use draid_lanes::{Gate, LaneJob, Says};
use draid_rack::Rack;
use draid_session::Decides;
use std::sync::Wait;

/// Law: where lanes ran over a pool that stands for a state, and each job tells what its lane did from whatever it knew, the pool that is put together of them stands for the state to which all of it led, lock by
/// lock in one order. In all that each lane saw all blocks had bytes, so what rests on that is so.
pub fn lanes_come_together<R: Rack, A: Area, G: Gate, W: Wait, J: LaneJob<R, A, G, W> + Says>()
    ensures { (pool : PoolOf R A) (lists : List (Vec NumberSpan Heap)) (jobs : Vec J Heap) (new : PoolOf R A) (done : Vec J Heap) (x : State)
        → IsWhole R.Rack A.Area pool → AreLaneLists lists → length jobs.items ≡ length lists
        → MayRunAll R.Rack A.Area J.needs pool lists jobs.items → KeepLanes R.Rack A.Area J.needs J.relates
        → RunsInLanes R.Rack A.Area J.relates pool lists jobs new done → IsWhole R.Rack A.Area new
        → Represents R.Rack A.Area pool x → JobsTell R.Rack A.Area (λ job end. J.says job end x) J.rests J.relates x
        → SectionStood R.Rack A.Area (λ job end. J.says job end x) x jobs.items done.items new }
{}

/// Law: where the lanes' jobs tell that their replies are those to their commands, and no object is named by two lanes, what came together is a section of a session.
pub fn told_sections_are_answered<R: Rack, A: Area, J: Says, D: Decides>(decider: &D)
    ensures { (x : State) (commands : J → List Command) (replies : J → List Reply) (jobs done : List J) (new : PoolOf R A)
        → ((i : ℕ) (job end : J) (old : Store) (holds : List Hold) (store : Store) → slice_get jobs i ≡ Some job → J.says job end x old holds store → Says x (D.choices decider.now) (commands job) old holds (replies end) store)
        → NoClash (map commands jobs) → (stood : SectionStood R.Rack A.Area (λ job end. J.says job end x) x jobs done new)
        → Section x (D.choices decider.now) (map commands jobs) (map replies done) stood.reached }
{}

/// Law: where lanes ran over a pool of which something is known, and each job tells what it showed of its lane's objects, that is so of the pool that is put together of them, one lane after another.
pub fn lanes_teach_together<R: Rack, A: Area, G: Gate, W: Wait, J: LaneJob<R, A, G, W> + Says>()
    ensures { (pool : PoolOf R A) (lists : List (Vec NumberSpan Heap)) (jobs : Vec J Heap) (new : PoolOf R A) (done : Vec J Heap) (known : Known)
        → IsWhole R.Rack A.Area pool → AreLaneLists lists → length jobs.items ≡ length lists
        → MayRunAll R.Rack A.Area J.needs pool lists jobs.items → KeepLanes R.Rack A.Area J.needs J.relates
        → RunsInLanes R.Rack A.Area J.relates pool lists jobs new done
        → JobsTeach J.learns J.relates → KnowsPointers pool known → SectionTaught J.learns jobs.items done.items new known }
{}

/// Law: where lanes ran each job was done in a lane.
pub fn jobs_were_done<R: Rack, A: Area, G: Gate, W: Wait, J: LaneJob<R, A, G, W>>()
    ensures { (pool : PoolOf R A) (lists : List (Vec NumberSpan Heap)) (jobs : Vec J Heap) (new : PoolOf R A) (done : Vec J Heap)
        → IsWhole R.Rack A.Area pool → AreLaneLists lists → length jobs.items ≡ length lists
        → MayRunAll R.Rack A.Area J.needs pool lists jobs.items → KeepLanes R.Rack A.Area J.needs J.relates
        → RunsInLanes R.Rack A.Area J.relates pool lists jobs new done → WereDone J.relates jobs.items done.items }
{}

/// Law: where lanes ran over a pool, no count of failed calls on an area of it fell.
pub fn areas_come_back_later<R: Rack, A: Area, G: Gate, W: Wait, J: LaneJob<R, A, G, W>>()
    ensures { (pool : PoolOf R A) (lists : List (Vec NumberSpan Heap)) (jobs : Vec J Heap) (new : PoolOf R A) (done : Vec J Heap)
        → RunsInLanes R.Rack A.Area J.relates pool lists jobs new done → AreasLater A.faults pool new }
{}

/// Law: where lanes ran over a pool, and an area failed the lane of one of the jobs, as that job tells in the end, the count of an area of the pool rose.
pub fn failed_areas_stay_counted<R: Rack, A: Area, G: Gate, W: Wait, J: LaneJob<R, A, G, W>>()
    ensures { (pool : PoolOf R A) (lists : List (Vec NumberSpan Heap)) (jobs : Vec J Heap) (new : PoolOf R A) (done : Vec J Heap)
        → RunsInLanes R.Rack A.Area J.relates pool lists jobs new done
        → (i : ℕ) (end : J) → slice_get done.items i ≡ Some end
        → ((job : J) (lane next : LaneOf R A G W) → J.relates job lane end next → AreaFailedLane R.Rack A.Area lane next)
        → AreaRose A.faults pool new }
{}
