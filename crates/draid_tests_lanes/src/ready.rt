ghost use Rattle.std.specs.Prelude.{◌≡◌, ◌<◌, ◌≤◌, ◌+◌, ℕ, IfOk, IfSome, IsTrue, true, length};
ghost use Rattle.draid_choose.specs.Rooms.{IsChooser};
ghost use Rattle.draid_script.specs.Line.{IsInRange, command_in};
ghost use Rattle.draid_turn.specs.Numbers.{holds};
ghost use Rattle.draid_works.specs.Job.{IsOfLane, MayAllBeGiven, MayBeGiven};
ghost use Rattle.draid_tests_lanes.specs.Ready.{AreReady, IsReady};

use draid_choose::Chooser;
use draid_names::Room;
use draid_pool::PASSES;
use draid_script::{Line, parse_line};
use draid_turn::Span;
use draid_works::LaneCommands;
use std::alloc::Global;

/// Whether one span of these numbers has so many from the first on.
fn holds_from(numbers: &[Span], first: u64, count: u64) -> bool
    requires { 1 ≤ count }
    ensures { IsTrue result → (n : ℕ) → first ≤ n → n < first + count → holds n numbers.now ≡ true }
{
    for i in 0..numbers.len() {
        let span = numbers[i];
        if span.first <= first && first <= span.last && count - 1 <= span.last - first {
            return true;
        }
    }
    false
}

/// Whether a lane with these numbers may be given a command.
fn is_of_lane(numbers: &[Span], line: &Line) -> bool
    requires { IsInRange (command_in line.now) }
    ensures { IsTrue result → IsOfLane (λ n. holds n numbers.now) (command_in line.now) }
{
    match line {
        Line::Sync => true,
        Line::Offline { .. } => true,
        Line::Online { .. } => true,
        Line::Write { object, .. } => holds_from(numbers, *object, 1),
        Line::Read { object } => holds_from(numbers, *object, 1),
        Line::Free { object } => holds_from(numbers, *object, 1),
        Line::Fill { first, count, .. } => holds_from(numbers, *first, *count),
        Line::Sum { first, count } => holds_from(numbers, *first, *count),
        Line::Rebuild { .. } => holds_from(numbers, PASSES, 1),
        Line::Scrub { .. } => holds_from(numbers, PASSES, 1),
        _ => false,
    }
}

/// The lines of a lane with these numbers; none where it may not be given one of them.
fn lines_of(alloc: Global, numbers: &[Span], script: &str) -> Option<Vec<Line>>
    ensures { IfSome result (λ lines. MayAllBeGiven (λ n. holds n numbers.now) lines.items) }
{
    let mut lines = Vec::new(alloc);
    for text in script.split_terminator('\n') {
        let Ok(line) = parse_line(alloc, text.as_bytes()) else {
            return None;
        };
        if !is_of_lane(numbers, &line) {
            return None;
        }
        let Ok(()) = lines.push(line) else {
            return None;
        };
    }
    Some(lines)
}

/// The job of a lane with these numbers.
fn job_of<'c, F: Fn(&[Room]) -> Option<u32>>(
    alloc: Global,
    chooser: &'c Chooser<F>,
    numbers: &[Span],
    script: &str,
) -> Option<LaneCommands<'c, F>>
    requires { IsChooser F.Fn chooser.now }
    ensures { IfSome result (IsReady F.Fn numbers.now) }
{
    let lines = lines_of(alloc, numbers, script)?;
    LaneCommands::new(alloc, chooser, lines).ok()
}

/// The jobs of lanes with these numbers.
pub fn jobs_of<'c, F: Fn(&[Room]) -> Option<u32>>(
    alloc: Global,
    chooser: &'c Chooser<F>,
    numbers: &[Vec<Span>],
    scripts: &[&str],
) -> Option<Vec<LaneCommands<'c, F>>>
    requires chooser { IsChooser F.Fn chooser.now }
    ensures count { IfSome result (λ jobs. length jobs.items ≡ length numbers.now) }
    ensures ready { IfSome result (λ jobs. AreReady F.Fn numbers.now jobs.items) }
{
    if numbers.len() != scripts.len() {
        return None;
    }
    let mut jobs = Vec::new(alloc);
    for lane in 0..numbers.len() {
        let job = job_of(alloc, chooser, &numbers[lane], scripts[lane])?;
        let Ok(()) = jobs.push(job) else {
            return None;
        };
    }
    Some(jobs)
}
