//! The least object that two lanes name.
ghost use Rattle.std.specs.Prelude.{◌≡◌, ◌<◌, ◌≤◌, ◌-◌, ◌++◌, ℕ, All, IfNone, IfOk, IfSome};
ghost use Rattle.std.specs.List.Sorted.{IsNonDecreasingBy, IsPermutation};
ghost use Rattle.draid_script.specs.Line.{command_in};
ghost use Rattle.draid_session.specs.Lanes.{objects_in};
ghost use Rattle.draid_session.specs.Sections.{IsLeastClash, NoClash};
ghost use Rattle.draid_clashes.specs.Lanes.{commands_in, lanes_in};
ghost use Rattle.draid_clashes.specs.Named.{IsLeastShared, IsShared, named_by, named_from, named_in};

use draid_names::NoMemory;
use draid_script::Line;
use std::alloc::Global;

/// Objects that a line names: so many, at least one, from the first on, in the lane at this place.
#[derive(Clone, Copy)]
struct Named {
    lane: usize,
    first: u64,
    count: u64,
}

/// The objects that a line names: so many from one on.
fn objects(line: &Line) -> (u64, u64)
    ensures { result ≡ objects_in (command_in line.now) }
{
    match line {
        Line::Write { object, .. } => (*object, 1),
        Line::Fill { first, count, .. } => (*first, *count),
        Line::Read { object } => (*object, 1),
        Line::Free { object } => (*object, 1),
        Line::Sum { first, count } => (*first, *count),
        _ => (0, 0),
    }
}

/// Adds those that a line of the lane at this place names, if it names some.
fn add_line(named: &mut Vec<Named>, lane: usize, line: &Line) -> Result<(), NoMemory>
    ensures { IfOk result (λ _. named.new.items ≡ named.old.items ++ named_by lane (objects_in (command_in line.now)).0 (objects_in (command_in line.now)).1) }
{
    let (first, count) = objects(line);
    if count == 0 {
        return Ok(());
    }
    named.push(Named { lane, first, count })?;
    Ok(())
}

/// Adds those that the lines of the lane at this place name.
fn add_lane(named: &mut Vec<Named>, lane: usize, lines: &[Line]) -> Result<(), NoMemory>
    ensures { IfOk result (λ _. named.new.items ≡ named.old.items ++ named_in lane (commands_in lines.now)) }
{
    for line in lines {
        add_line(named, lane, line)?;
    }
    Ok(())
}

/// Those that the lines of all lanes name.
fn named_objects(alloc: Global, lanes: &[Vec<Line>]) -> Result<Vec<Named>, NoMemory>
    ensures { IfOk result (λ named. named.items ≡ named_from 0 (lanes_in lanes.now)) }
{
    let mut named = Vec::new(alloc);
    for lane in 0..lanes.len() {
        add_lane(&mut named, lane, &lanes[lane])?;
    }
    Ok(named)
}

/// Sorts them by their first objects.
fn sort(named: &mut Vec<Named>)
    ensures sorted { IsNonDecreasingBy (λ n. n.first) named.new.items }
    ensures same { IsPermutation named.old.items named.new.items }
{
    named.sort_unstable_by_key(|named| named.first);
}

/// How many objects are left of them from one on, which isn't below the first.
fn left(named: &Named, from: u64) -> u64
    requires { named.now.first ≤ from }
    ensures { result ≡ named.now.count - (from - named.now.first) }
{
    named.count.saturating_sub(from - named.first)
}

/// Those that end further, where so many of the far ones are left from the first of the next ones on.
fn further(far: Named, next: Named, left: u64) -> Named
    ensures next { left < next.count → result ≡ next }
    ensures far { next.count ≤ left → result ≡ far }
{
    if left < next.count {
        return next;
    }
    far
}

/// The least object that two lanes name, where they are sorted by their first ones.
fn first_shared(named: &[Named]) -> Option<u64>
    requires sorted { IsNonDecreasingBy (λ n. n.first) named.now }
    requires some { All (λ n. 1 ≤ n.count) named.now }
    ensures some { IfSome result (IsLeastShared named.now) }
    ensures none { IfNone result ((object : ℕ) → IsShared named.now object → ⊥) }
{
    // Of those before, the ones that go furthest.
    let mut far = Named {
        lane: 0,
        first: 0,
        count: 0,
    };
    for next in named {
        let left = left(&far, next.first);
        if left > 0 && far.lane != next.lane {
            return Some(next.first);
        }
        far = further(far, *next, left);
    }
    None
}

/// The least object that two lanes name, if there is one.
pub fn least_clash(alloc: Global, lanes: &[Vec<Line>]) -> Result<Option<u64>, NoMemory>
    ensures some { IfOk result (λ found. IfSome found (IsLeastClash (lanes_in lanes.now))) }
    ensures none { IfOk result (λ found. IfNone found (NoClash (lanes_in lanes.now))) }
{
    let mut named = named_objects(alloc, lanes)?;
    sort(&mut named);
    Ok(first_shared(&named))
}
