use draid_lines::MemorySink;
use draid_run::Status;
use draid_shelf::{CrashRule, MemoryShelf, Place, Shelf};
use draid_tests_session::run_script;
use std::thread::Threads;

/// A rebuild of a pool: a leaf is offline, its slot got a spare, and a group has both; then the spare is rebuilt, over
/// another group. The rebuild goes on to its end, and then another leaf goes. It ends without errors, and the sum is that
/// of what was written.
struct Story {
    first: &'static str,
    later: &'static str,
    whole: &'static str,
}

/// Two pools with other permutations; in each the spare takes another slot's place.
static STORIES: [Story; 2] = [
    Story {
        first: "create draid1:2d:4c:1s 4 sector=512 height=8 metaslabs=1 slices=2 seed=2\nfill 1 5 1024 1\noffline 0\nspare 0 0\nsync\nrebuild 3\nsync\nrebuild\n",
        later: "import\nrebuild\noffline 1\nsum 1 5\n",
        whole: " errors=0 done\noffline 1 ok\nsum 1 5 86d0ba4eedd376d0aabe0cbf2e8e70483259ee7b66af72aa9a3062dcc56c7a51\n",
    },
    Story {
        first: "create draid1:2d:4c:1s 4 sector=512 height=8 metaslabs=1 slices=2 seed=3\nfill 1 5 1024 1\noffline 2\nspare 2 0\nsync\nrebuild 3\nsync\nrebuild\n",
        later: "import\nrebuild\noffline 0\nsum 1 5\n",
        whole: " errors=0 done\noffline 0 ok\nsum 1 5 86d0ba4eedd376d0aabe0cbf2e8e70483259ee7b66af72aa9a3062dcc56c7a51\n",
    },
];

/// Runs lines on a shelf, and puts what they print into a sink.
pub fn run_lines<R: AllocGlobal + Threads + Sync>(
    rt: &R,
    shelf: &mut MemoryShelf,
    lines: &str,
    sink: &mut MemorySink,
) -> Option<Status> {
    run_script(rt, "session", lines.as_bytes(), &[], shelf, sink)
}

// ---- stops

/// So many calls of the devices the session makes.
const STOPS: u64 = 200;

/// Whether a reply names the group that has the spare.
fn has_group(printed: &[u8]) -> bool {
    printed
        .split(|byte: &u8| *byte == b'\n')
        .any(|line| line.starts_with(b"sync group=2 "))
}

/// Whether a later session on the shelf finds the rebuild and ends it, and nothing is lost.
fn goes_on<R: AllocGlobal + Threads + Sync>(
    rt: &R,
    story: &Story,
    shelf: &mut MemoryShelf,
) -> Option<bool> {
    let mut found = MemorySink::new(rt.alloc(), Vec::new(rt.alloc()));
    run_lines(rt, shelf, story.later, &mut found)?;
    Some(found.held().ends_with(story.whole.as_bytes()))
}

/// What the session comes to on devices that stop behind so many calls and then crash, where it isn't lost.
fn stops_at<R: AllocGlobal + Threads + Sync>(
    rt: &R,
    story: &Story,
    rule: CrashRule,
    calls: u64,
) -> Option<Status> {
    let mut shelf = MemoryShelf::new(rt.alloc(), rule);
    let mut printed = MemorySink::new(rt.alloc(), Vec::new(rt.alloc()));
    shelf.put_fuse(rt.alloc(), calls).ok()?;
    let ended = run_lines(rt, &mut shelf, story.first, &mut printed)?;
    shelf.put_fuse(rt.alloc(), u64::MAX).ok()?;
    shelf.crash();
    if has_group(printed.held()) && goes_on(rt, story, &mut shelf) != Some(true) {
        return None;
    }
    Some(ended)
}

/// Whether nothing is lost wherever the devices stop.
fn loses_nothing<R: AllocGlobal + Threads + Sync>(rt: &R, story: &Story, rule: CrashRule) -> bool {
    for calls in 0..STOPS {
        if stops_at(rt, story, rule, calls).is_none() {
            return false;
        }
    }
    stops_at(rt, story, rule, STOPS) == Some(Status::Done)
}

pub static RULES: [CrashRule; 4] = [
    CrashRule::Old,
    CrashRule::New,
    CrashRule::Torn,
    CrashRule::Half,
];

// Each call of both rebuilds is among them.
#[test]
fn stopped_rebuilds_go_on(rt: HostRuntime) {
    for story in &STORIES {
        for row in 0..RULES.len() {
            assert!(rt; loses_nothing(&rt, story, RULES[row]), "{row}");
        }
    }
}

// ---- calls that fail

/// The same pool without a stop; the sum is taken with all other leaves, and with one of them gone.
static FAILING: &str =
    "create draid1:2d:4c:1s 4 sector=512 height=8 metaslabs=1 slices=2 seed=2\nfill 1 5 1024 1\noffline 0\nspare 0 0\nrebuild 3\nsync\nrebuild\nsum 1 5\noffline 1\nsum 1 5\n";

/// The sum of what was written.
static SUM: &str = "sum 1 5 86d0ba4eedd376d0aabe0cbf2e8e70483259ee7b66af72aa9a3062dcc56c7a51";

/// So many calls of the rack write the blocks, and so many come before the other leaf goes.
const WRITES: u64 = 15;

const CALLS: u64 = 53;

/// Whether the rebuild ended without errors.
fn is_clean(printed: &[u8]) -> bool {
    printed
        .split(|byte: &u8| *byte == b'\n')
        .any(|line| line.ends_with(b" errors=0 done"))
}

/// How often a line was printed.
pub fn count_lines(printed: &[u8], text: &str) -> usize {
    let mut lines = 0usize;
    for line in printed.split(|byte: &u8| *byte == b'\n') {
        if line == text.as_bytes() {
            lines = lines.saturating_add(1);
        }
    }
    lines
}

/// Whether the objects are there still, though this call of the rack fails: with all other leaves, and where the rebuild
/// had no errors with one fewer.
fn survives<R: AllocGlobal + Threads + Sync>(rt: &R, call: u64) -> Option<bool> {
    let mut shelf = MemoryShelf::new(rt.alloc(), CrashRule::New);
    let mut printed = MemorySink::new(rt.alloc(), Vec::new(rt.alloc()));
    let calls = Vec::from_slice(rt.alloc(), &[call]).ok()?;
    shelf.fail(Place::Rack(0), calls);
    run_lines(rt, &mut shelf, FAILING, &mut printed)?;
    let least = if is_clean(printed.held()) { 2 } else { 1 };
    Some(count_lines(printed.held(), SUM) >= least)
}

#[test]
fn calls_that_fail_in_a_rebuild_lose_nothing(rt: HostRuntime) {
    for call in WRITES..CALLS {
        assert!(rt; survives(&rt, call) == Some(true), "{call}");
    }
}
