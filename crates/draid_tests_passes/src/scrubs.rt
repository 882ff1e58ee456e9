use crate::rebuilds::{RULES, count_lines, run_lines};
use draid_lines::MemorySink;
use draid_run::Status;
use draid_shelf::{CrashRule, MemoryShelf, Place, Shelf};
use std::thread::Threads;

// ---- stops

/// Two columns of one block and one of another are damaged, and a scrub puts them right.
static SCRUBBED: &str =
    "create draid2:2d:5c:0s 5 sector=512 height=8 metaslabs=1 slices=2\nfill 1 6 1024 1\nsync\ndamage 0 0\ndamage 1 0\ndamage 2 1\nscrub\n";

/// The sum is taken before another scrub and behind it, and with two leaves gone.
static LATER: &str = "import\nsum 1 6\nscrub\nscrub\nsum 1 6\noffline 3\noffline 4\nsum 1 6\n";

/// The sum of what was written.
pub static SUM: &str = "sum 1 6 60cfd07acc1649250908be42f3d90f124a28800914b008675011f5bb48eb19e5";

/// So many calls of the devices the session makes.
const STOPS: u64 = 160;

/// Whether a reply names the group that has the blocks.
fn has_group(printed: &[u8]) -> bool {
    count_lines(printed, "sync group=2 thin=0") == 1
}

/// Whether a later session on the shelf has everything: at once, behind a scrub, and with two leaves gone.
fn is_whole<R: AllocGlobal + Threads + Sync>(rt: &R, shelf: &mut MemoryShelf) -> Option<bool> {
    let mut found = MemorySink::new(rt.alloc(), Vec::new(rt.alloc()));
    run_lines(rt, shelf, LATER, &mut found)?;
    Some(count_lines(found.held(), SUM) == 3)
}

/// What the session comes to on devices that stop behind so many calls and then crash, where nothing is lost.
fn stops_at<R: AllocGlobal + Threads + Sync>(
    rt: &R,
    rule: CrashRule,
    calls: u64,
) -> Option<Status> {
    let mut shelf = MemoryShelf::new(rt.alloc(), rule);
    let mut printed = MemorySink::new(rt.alloc(), Vec::new(rt.alloc()));
    shelf.put_fuse(rt.alloc(), calls).ok()?;
    let ended = run_lines(rt, &mut shelf, SCRUBBED, &mut printed)?;
    shelf.put_fuse(rt.alloc(), u64::MAX).ok()?;
    shelf.crash();
    if has_group(printed.held()) && is_whole(rt, &mut shelf) != Some(true) {
        return None;
    }
    Some(ended)
}

/// Whether nothing is lost wherever the devices stop.
fn loses_nothing<R: AllocGlobal + Threads + Sync>(rt: &R, rule: CrashRule) -> bool {
    for calls in 0..STOPS {
        if stops_at(rt, rule, calls).is_none() {
            return false;
        }
    }
    stops_at(rt, rule, STOPS) == Some(Status::Done)
}

// Each call of the scrub is among them.
#[test]
fn stopped_scrubs_lose_nothing(rt: HostRuntime) {
    for row in 0..RULES.len() {
        assert!(rt; loses_nothing(&rt, RULES[row]), "{row}");
    }
}

// ---- calls that fail

/// A rebuild copies damage to a new leaf, and a scrub repairs the source and what was made of it.
static FAILING: &str =
    "create draid1:2d:3c:0s 3 sector=512 height=8 metaslabs=1 slices=4\nfill 7 1 1024 1\nsync\noffline 0\nreplace 0\ndamage 1 0\nrebuild\nonline 0\nscrub\nsum 7 1\nscrub\nsum 7 1\n";

pub static BLOCK: &str = "sum 7 1 11dc50489e5b304718cc29201b4ed4b10f93b5f6689721014e88198665d7c3dd";

/// So many calls of the rack come before the first scrub, and before the sum behind it.
const BEFORE: u64 = 15;

const BEHIND: u64 = 29;

/// Whether the scrub told of an error.
fn has_errors(printed: &[u8]) -> bool {
    printed.split(|byte: &u8| *byte == b'\n').any(|line| line.starts_with(b"scrub ")
        && !line.ends_with(b" errors=0 done"))
}

/// Whether the object is read still, though this call of the first scrub fails, and the scrub tells of it.
fn tells<R: AllocGlobal + Threads + Sync>(rt: &R, call: u64) -> Option<bool> {
    let mut shelf = MemoryShelf::new(rt.alloc(), CrashRule::New);
    let mut printed = MemorySink::new(rt.alloc(), Vec::new(rt.alloc()));
    let calls = Vec::from_slice(rt.alloc(), &[call]).ok()?;
    shelf.fail(Place::Rack(0), calls);
    run_lines(rt, &mut shelf, FAILING, &mut printed)?;
    Some(has_errors(printed.held()) && count_lines(printed.held(), BLOCK) == 2)
}

// Each reading, each patch and each flush of it.
#[test]
fn calls_that_fail_in_a_scrub_are_told(rt: HostRuntime) {
    for call in BEFORE..BEHIND {
        assert!(rt; tells(&rt, call) == Some(true), "{call}");
    }
}
