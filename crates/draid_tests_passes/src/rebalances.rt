use crate::rebuilds::{RULES, count_lines, run_lines};
use crate::scrubs::{BLOCK, SUM};
use draid_lines::MemorySink;
use draid_shelf::{CrashRule, MemoryShelf, Place, Shelf};
use std::thread::Threads;

/// A slot gets a new disk, and is rebalanced twice.
static REBALANCED: &str =
    "create draid1:2d:3c:0s 3 sector=512 height=8 metaslabs=2 slices=1\nfill 7 1 1024 1\nsync\nreplace 0\nrebalance 0\nrebalance 0\nsum 7 1\n";

/// What it replies: the old disk goes, and then there is no other.
static DETACHED: &str = "rebalance 0 blocks=1 repaired=1 errors=0 detached group=4";

static KEPT: &str = "rebalance 0 blocks=1 repaired=0 errors=0 kept";

// ---- stops

/// A later session rebalances again, and takes the sum at once, behind that, and with another leaf gone.
static LATER: &str = "import\nsum 7 1\nrebalance 0\nsum 7 1\noffline 1\nsum 7 1\n";

/// So many calls of the devices the session makes.
const STOPS: u64 = 132;

/// Whether a reply names the group that has the blocks.
fn has_group(printed: &[u8]) -> bool {
    count_lines(printed, "sync group=2 thin=0") == 1
}

/// Whether a later session on the shelf has everything.
fn is_whole<R: AllocGlobal + Threads + Sync>(rt: &R, shelf: &mut MemoryShelf) -> Option<bool> {
    let mut found = MemorySink::new(rt.alloc(), Vec::new(rt.alloc()));
    run_lines(rt, shelf, LATER, &mut found)?;
    Some(count_lines(found.held(), BLOCK) == 3)
}

/// What the session prints on devices that stop behind so many calls and then crash, where nothing is lost.
fn stops_at<R: AllocGlobal + Threads + Sync>(
    rt: &R,
    rule: CrashRule,
    calls: u64,
) -> Option<MemorySink> {
    let mut shelf = MemoryShelf::new(rt.alloc(), rule);
    let mut printed = MemorySink::new(rt.alloc(), Vec::new(rt.alloc()));
    shelf.put_fuse(rt.alloc(), calls).ok()?;
    run_lines(rt, &mut shelf, REBALANCED, &mut printed)?;
    shelf.put_fuse(rt.alloc(), u64::MAX).ok()?;
    shelf.crash();
    if has_group(printed.held()) && is_whole(rt, &mut shelf) != Some(true) {
        return None;
    }
    Some(printed)
}

/// Whether nothing is lost wherever the devices stop, and the slot has the new disk alone where they don't.
fn loses_nothing<R: AllocGlobal + Threads + Sync>(rt: &R, rule: CrashRule) -> Option<bool> {
    for calls in 0..STOPS {
        stops_at(rt, rule, calls)?;
    }
    let printed = stops_at(rt, rule, STOPS)?;
    Some(
        count_lines(printed.held(), DETACHED) == 1
            && count_lines(printed.held(), KEPT) == 1
            && count_lines(printed.held(), BLOCK) == 1,
    )
}

// Each call of both rebalances is among them.
#[test]
fn stopped_rebalances_lose_nothing(rt: HostRuntime) {
    for row in 0..RULES.len() {
        assert!(rt; loses_nothing(&rt, RULES[row]) == Some(true), "{row}");
    }
}

// ---- calls that fail

/// One metaslab, and the sum is taken with another leaf gone as well.
static FAILING: &str =
    "create draid1:2d:3c:0s 3 sector=512 height=8 metaslabs=1 slices=2\nfill 1 6 1024 1\nsync\nreplace 0\nrebalance 0\nsum 1 6\noffline 1\nsum 1 6\n";

/// So many calls of the rack come before the scrub, and before the sum behind it.
const BEFORE: u64 = 26;

const BEHIND: u64 = 104;

/// Whether the arms of the slot stayed for an error.
fn stay_for_errors(printed: &[u8]) -> bool {
    printed.split(|byte: &u8| *byte == b'\n').any(|line| line.starts_with(b"rebalance 0 ")
        && line.ends_with(b" kept")
        && !line.ends_with(b" errors=0 kept"))
}

/// Whether the arms of the slot stay and all is read, though this call of the scrub fails.
fn tells<R: AllocGlobal + Threads + Sync>(rt: &R, call: u64) -> Option<bool> {
    let mut shelf = MemoryShelf::new(rt.alloc(), CrashRule::New);
    let mut printed = MemorySink::new(rt.alloc(), Vec::new(rt.alloc()));
    let calls = Vec::from_slice(rt.alloc(), &[call]).ok()?;
    shelf.fail(Place::Rack(0), calls);
    run_lines(rt, &mut shelf, FAILING, &mut printed)?;
    Some(stay_for_errors(printed.held()) && count_lines(printed.held(), SUM) == 2)
}

// Each reading, each patch and each flush of it.
#[test]
fn arms_stay_where_a_call_of_the_scrub_fails(rt: HostRuntime) {
    for call in BEFORE..BEHIND {
        assert!(rt; tells(&rt, call) == Some(true), "{call}");
    }
}
