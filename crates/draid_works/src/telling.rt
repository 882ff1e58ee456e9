//! What a lane's commands are said to have done, in the words of a session.
ghost use Rattle.std.specs.Prelude.{◌≡◌, length, map};
ghost use Rattle.std.specs.Fn.{FnReturnsAt};
ghost use Rattle.draid_script.specs.Line.{command_in};
ghost use Rattle.draid_session.specs.Choices.{choices_by};
ghost use Rattle.draid_session.specs.Lanes as session;
ghost use Rattle.draid_session.specs.Sections.{LaneLearns};
ghost use Rattle.draid_session.specs.State.{State};
ghost use Rattle.draid_lanes.specs.Telling.{JobsTeach, JobsTell};
ghost use Rattle.draid_works.specs.Job.{DoesCommands, HasScrub};

use crate::job::LaneCommands;
use draid_area::Area;
use draid_lanes::{Gate, LaneJob, Says};
use draid_names::Room;
use draid_rack::Rack;
use std::sync::Wait;
use std::thread::Threads;

impl<'c, F: Fn(&[Room]) -> Option<u32>> Says for LaneCommands<'c, F> {
    // Its replies are those to its commands, by its holds.
    ghost says = { λ job done x old holds new. session.Says x (choices_by (FnReturnsAt F.Fn job.chooser.now)) (map command_in job.lines.items) old holds done.replies.items new };

    ghost rests = { λ job. HasScrub job.lines.items };

    ghost learns = { λ job done known new. LaneLearns (map command_in job.lines.items) done.replies.items known new };

    ghost failed = { λ job. job.stopped };

    fn has_failed(&self) -> bool {
        self.stopped
    }
}

/// Law: what a lane's commands do is told in a session's words, from whatever the lane knew.
pub fn lane_commands_tell<
    'c,
    R: Rack,
    A: Area,
    G: Gate,
    W: Wait + Threads + Sync,
    F: Fn(&[Room]) -> Option<u32> + 'c,
>()
    ensures { (x : State) → length x.metaslabs ≡ x.geometry.props.metaslabs
        → JobsTell R.Rack A.Area (λ job done. ⟦<LaneCommands<'c, F> as Says>⟧.says job done x) ⟦<LaneCommands<'c, F> as Says>⟧.rests ⟦<LaneCommands<'c, F> as LaneJob<R, A, G, W>>⟧.relates x }
{}

/// Law: what a lane's commands say of its objects is allowed by whatever was known of these, whatever other objects there are, and what they add is so.
pub fn lane_commands_teach<
    'c,
    R: Rack,
    A: Area,
    G: Gate,
    W: Wait + Threads + Sync,
    F: Fn(&[Room]) -> Option<u32> + 'c,
>()
    ensures { JobsTeach ⟦<LaneCommands<'c, F> as Says>⟧.learns ⟦<LaneCommands<'c, F> as LaneJob<R, A, G, W>>⟧.relates }
{}
