use crate::rebuilds::{RULES, count_lines, run_lines};
use crate::scrubs::BLOCK;
use draid_lines::MemorySink;
use draid_shelf::{CrashRule, MemoryShelf, Shelf};
use std::thread::Threads;

/// A disk fails, and its slot gets a spare from the agent.
static REPAIRED: &str =
    "create draid1:2d:4c:1s 4 sector=512 height=8 metaslabs=2 slices=1 seed=2\nfill 7 1 1024 1\nsync\noffline 0\nagent 1\nsum 7 1\n";

/// What it replies.
static ACTED: &str = "agent 0=draid1-0-0 rebuild errors=0 scrub errors=0";

/// A later session ends a rebuild that there is, and has the agent look again; the sum is taken at once, behind that, and with another
/// leaf gone.
static LATER: &str = "import\nsum 7 1\nrebuild\nagent 1\nsum 7 1\noffline 1\nsum 7 1\n";

/// The session makes fewer calls of the devices.
const STOPS: u64 = 160;

/// Whether a reply names the group that has the block.
fn has_group(printed: &[u8]) -> bool {
    count_lines(printed, "sync group=2 thin=0") == 1
}

/// Whether a later session on the shelf has everything.
fn is_whole<R: AllocGlobal + Threads + Sync>(rt: &R, shelf: &mut MemoryShelf) -> Option<bool> {
    let mut found = MemorySink::new(rt.alloc(), Vec::new(rt.alloc()));
    run_lines(rt, shelf, LATER, &mut found)?;
    Some(count_lines(found.held(), BLOCK) == 3)
}

/// What the session prints on devices that stop behind so many calls and then crash, where nothing is lost.
fn stops_at<R: AllocGlobal + Threads + Sync>(
    rt: &R,
    rule: CrashRule,
    calls: u64,
) -> Option<MemorySink> {
    let mut shelf = MemoryShelf::new(rt.alloc(), rule);
    let mut printed = MemorySink::new(rt.alloc(), Vec::new(rt.alloc()));
    shelf.put_fuse(rt.alloc(), calls).ok()?;
    run_lines(rt, &mut shelf, REPAIRED, &mut printed)?;
    shelf.put_fuse(rt.alloc(), u64::MAX).ok()?;
    shelf.crash();
    if has_group(printed.held()) && is_whole(rt, &mut shelf) != Some(true) {
        return None;
    }
    Some(printed)
}

/// Whether nothing is lost wherever the devices stop, and the slot has its spare where they don't.
fn loses_nothing<R: AllocGlobal + Threads + Sync>(rt: &R, rule: CrashRule) -> Option<bool> {
    for calls in 0..STOPS {
        stops_at(rt, rule, calls)?;
    }
    let printed = stops_at(rt, rule, STOPS)?;
    Some(count_lines(printed.held(), ACTED) == 1 && count_lines(printed.held(), BLOCK) == 1)
}

// Each call of the rebuild, of its syncs and of the scrub is among them.
#[test]
fn stopped_agents_lose_nothing(rt: HostRuntime) {
    for row in 0..RULES.len() {
        assert!(rt; loses_nothing(&rt, RULES[row]) == Some(true), "{row}");
    }
}
