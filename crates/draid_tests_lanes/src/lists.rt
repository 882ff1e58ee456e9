ghost use Rattle.std.specs.Prelude.{◌≡◌, ◌≤◌, IfOk, length};
ghost use Rattle.draid_tables.specs.Lists.{AreLaneLists};
ghost use Rattle.draid_tests_lanes.specs.Lists.{list_at};

use draid_pool::PASSES;
use draid_turn::Span;
use std::alloc::{AllocError, Global};

/// The numbers of a lane: its thousand objects, and the passes' where it is the first.
fn list_of(alloc: Global, lane: u32) -> Result<Vec<Span>, AllocError>
    ensures { IfOk result (λ list. list.items ≡ list_at lane) }
{
    let first = u64::from(lane) * 1000;
    let share = Span {
        first,
        last: first + 999,
    };
    let passes = Span {
        first: PASSES,
        last: PASSES,
    };
    if lane == 0 {
        return Ok(vec![in alloc; share, passes]?);
    }
    Ok(vec![in alloc; share]?)
}

/// The numbers of so many lanes: objects from 1,000 times a lane's number on are the lane's.
pub fn lists_of(alloc: Global, lanes: u32) -> Result<Vec<Vec<Span>>, AllocError>
    requires { lanes ≤ 16 }
    ensures count { IfOk result (λ lists. length lists.items ≡ lanes) }
    ensures lanes { IfOk result (λ lists. AreLaneLists lists.items) }
{
    let mut lists = Vec::new(alloc);
    for lane in 0..lanes {
        lists.push(list_of(alloc, lane)?)?;
    }
    Ok(lists)
}
