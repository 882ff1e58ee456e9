//! The numbers that the lanes of a section hold, by their lines.
ghost use Rattle.std.specs.Prelude.{◌≡◌, ◌≤◌, ◌+◌, IfOk, length};
ghost use Rattle.draid_script.specs.Line.{IsInRange, command_in};
ghost use Rattle.draid_session.specs.Sections.{ClashesMend, NoClash};
ghost use Rattle.draid_tables.specs.Lists.{AreAllInRange, AreInRange, AreLaneLists, IsSpanOf, ListsEach, ListsNumbers, commands_of, commands_of_lanes};

use draid_names::OBJECTS;
use draid_pool::PASSES;
use draid_script::Line;
use draid_turn::Span;
use std::alloc::{AllocError, Global};

/// So many numbers from the first on.
fn span_from(first: u64, count: u64) -> Span
    requires some { 1 ≤ count }
    requires small { first + count ≤ OBJECTS }
    ensures first { result.first ≡ first }
    ensures last { result.last + 1 ≡ first + count }
{
    Span {
        first,
        last: first + (count - 1),
    }
}

/// The numbers that a line wants: the objects that it names, or that of the passes where it mends.
fn span_of(line: &Line) -> Option<Span>
    requires { IsInRange (command_in line.now) }
    ensures { IsSpanOf (command_in line.now) result }
{
    match line {
        Line::Write { object, .. } => Some(span_from(*object, 1)),
        Line::Read { object } => Some(span_from(*object, 1)),
        Line::Free { object } => Some(span_from(*object, 1)),
        Line::Fill { first, count, .. } => Some(span_from(*first, *count)),
        Line::Sum { first, count } => Some(span_from(*first, *count)),
        Line::Rebuild { .. } | Line::Scrub { .. } => Some(Span {
            first: PASSES,
            last: PASSES,
        }),
        _ => None,
    }
}

/// The numbers of the lane at this place: one of its own, and those that its lines want.
fn list_of(alloc: Global, lane: u32, lines: &[Line]) -> Result<Vec<Span>, AllocError>
    requires { AreInRange lines.now }
    ensures { IfOk result (λ list. ListsNumbers lane (commands_of lines.now) list.items) }
{
    let own = OBJECTS + u64::from(lane);
    let mut list = Vec::new(alloc);
    list.push(Span {
        first: own,
        last: own,
    })?;
    for line in lines {
        if let Some(span) = span_of(line) {
            list.push(span)?;
        }
    }
    Ok(list)
}

/// The numbers of each lane of a section, of which no two name an object, and at most one mends.
pub fn lists_of(alloc: Global, lanes: &[Vec<Line>]) -> Result<Vec<Vec<Span>>, AllocError>
    requires few { length lanes.now ≤ 16 }
    requires range { AreAllInRange lanes.now }
    requires apart { NoClash (commands_of_lanes lanes.now) }
    requires one { ClashesMend (commands_of_lanes lanes.now) → ⊥ }
    ensures lists { IfOk result (λ lists. AreLaneLists lists.items) }
    ensures each { IfOk result (λ lists. ListsEach lanes.now lists.items) }
{
    let mut lists = Vec::with_capacity(alloc, lanes.len())?;
    for lane in 0..lanes.len() {
        lists.push_reserved(list_of(alloc, lane as u32, &lanes[lane])?);
    }
    Ok(lists)
}
