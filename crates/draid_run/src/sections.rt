//! Sections: who runs their lanes.
use draid_area::Area;
use draid_choose::Chooser;
use draid_names::{NoMemory, Room};
use draid_pool::Pool;
use draid_print::LaneReplies;
use draid_rack::Rack;
use draid_reply::Reply;
use draid_script::Line;

/// Who runs the lanes of a section over a pool without a checkpoint.
pub trait Sections<R: Rack, A: Area> {
    ghost use Rattle.std.specs.Prelude.{◌≡◌, ℕ, List, None, Option};
    ghost use Rattle.std.specs.Fn.{FnReturnsAt};
    ghost use Rattle.draid_names.specs.declared.room.Room.{Room as RoomOf};
    ghost use Rattle.draid_uber.specs.Uber.{point_of};
    ghost use Rattle.draid_session.specs.Choices.{choices_by};
    ghost use Rattle.draid_pool.specs.Whole.{IsWhole};
    ghost use Rattle.draid_clashes.specs.Lanes.{lanes_in};
    ghost use Rattle.draid_run.specs.Sections.{MayRunLanes, SectionMet};

    /// That lanes may be run, whose blocks go to metaslabs by these choices.
    ghost ready: { Self → (List RoomOf → Option ℕ → Type 0) → Type 0 };

    /// Does the lines of each lane one after another, beside those of the others, and gives the replies of each. A lane ends behind a line in which an area of the pool failed, and the others
    /// go on. Where memory is wanting before one runs, none does, and the pool is as it was.
    fn run_section<F: Fn(&[Room]) -> Option<u32>>(
        &self,
        chooser: &Chooser<F>,
        pool: Pool<R, A>,
        lanes: Vec<Vec<Line>>,
    ) -> (Pool<R, A>, Result<Vec<LaneReplies>, NoMemory>)
        requires ready { ready self.now (FnReturnsAt F.Fn chooser.now) }
        requires whole { IsWhole R.Rack A.Area pool }
        requires lanes { MayRunLanes (lanes_in lanes.items) }
        requires point { (point_of pool.uber).group ≡ None }
        ensures { SectionMet R.Rack A.Area (choices_by (FnReturnsAt F.Fn chooser.now)) (lanes_in lanes.items) pool result.0 result.1 };
}

/// Runs the lanes of sections by a closure.
#[derive(Drop)]
pub struct SectionsBy<S> {
    pub run: S,
}

impl<
    R: Rack,
    A: Area,
    S: Fn(Pool<R, A>, Vec<Vec<Line>>) -> (Pool<R, A>, Result<Vec<LaneReplies>, NoMemory>),
> Sections<R, A> for SectionsBy<S> {
    ghost use Rattle.std.specs.Prelude.{◌≡◌, None};
    ghost use Rattle.std.specs.Fn.{FnReturnsAt};
    ghost use Rattle.draid_uber.specs.Uber.{point_of};
    ghost use Rattle.draid_session.specs.Choices.{choices_by};
    ghost use Rattle.draid_pool.specs.Whole.{IsWhole};
    ghost use Rattle.draid_clashes.specs.Lanes.{lanes_in};
    ghost use Rattle.draid_run.specs.Sections.{MayRunLanes, RunsSections, SectionMet};

    ghost ready = { λ s chosen. RunsSections R.Rack A.Area S.Fn chosen s.run };

    fn run_section<F: Fn(&[Room]) -> Option<u32>>(
        &self,
        _chooser: &Chooser<F>,
        pool: Pool<R, A>,
        lanes: Vec<Vec<Line>>,
    ) -> (Pool<R, A>, Result<Vec<LaneReplies>, NoMemory>)
        requires ready { RunsSections R.Rack A.Area S.Fn (FnReturnsAt F.Fn _chooser.now) self.now.run }
        requires whole { IsWhole R.Rack A.Area pool }
        requires lanes { MayRunLanes (lanes_in lanes.items) }
        requires point { (point_of pool.uber).group ≡ None }
        ensures { SectionMet R.Rack A.Area (choices_by (FnReturnsAt F.Fn _chooser.now)) (lanes_in lanes.items) pool result.0 result.1 }
    {
        (self.run)(pool, lanes)
    }
}

/// Runs no lanes, as where memory is wanting.
pub struct NoSections;

impl<R: Rack, A: Area> Sections<R, A> for NoSections {
    ghost use Rattle.std.specs.Prelude.{◌≡◌, ⊤, None};
    ghost use Rattle.std.specs.Fn.{FnReturnsAt};
    ghost use Rattle.draid_uber.specs.Uber.{point_of};
    ghost use Rattle.draid_session.specs.Choices.{choices_by};
    ghost use Rattle.draid_pool.specs.Whole.{IsWhole};
    ghost use Rattle.draid_clashes.specs.Lanes.{lanes_in};
    ghost use Rattle.draid_run.specs.Sections.{MayRunLanes, SectionMet};

    ghost ready = { λ s chosen. ⊤ };

    fn run_section<F: Fn(&[Room]) -> Option<u32>>(
        &self,
        chooser: &Chooser<F>,
        pool: Pool<R, A>,
        lanes: Vec<Vec<Line>>,
    ) -> (Pool<R, A>, Result<Vec<LaneReplies>, NoMemory>)
        requires ready { ⊤ }
        requires whole { IsWhole R.Rack A.Area pool }
        requires lanes { MayRunLanes (lanes_in lanes.items) }
        requires point { (point_of pool.uber).group ≡ None }
        ensures { SectionMet R.Rack A.Area (choices_by (FnReturnsAt F.Fn chooser.now)) (lanes_in lanes.items) pool result.0 result.1 }
    {
        (pool, Err(NoMemory))
    }
}
