use draid_lines::MemorySink;
use draid_run::Status;
use draid_shelf::{CrashRule, MemoryShelf, Shelf};
use draid_tests_session::run_script;
use std::thread::Threads;

/// Runs a script on a shelf, and gives the status.
fn run_on<R: AllocGlobal + Threads + Sync>(
    rt: &R,
    shelf: &mut MemoryShelf,
    script: &str,
    sink: &mut MemorySink,
) -> Option<Status> {
    run_script(rt, "session", script.as_bytes(), &[], shelf, sink)
}

/// A session whose commands commit groups, lines behind a crash, and what these then print by how many groups were
/// acknowledged: the last of them is found, or the next one.
struct Groups {
    session: &'static str,
    lines: &'static str,
    found: &'static [&'static str],
    /// So many calls of the devices the session makes at most.
    calls: u64,
}

static GROUPS: [Groups; 3] = [
    Groups {
        session: "create draid1:2d:3c:0s 3 sector=512 height=8 metaslabs=1 slices=4\nwrite 7 aa\nsync\nwrite 7 bb\nsync\n",
        lines: "import\nread 7\n",
        found: &[
            "import no pool\nread no pool\n",
            "import draid1:2d:3c:0s-0 group=1 objects=0\nread 7 no object\n",
            "import draid1:2d:3c:0s-0 group=2 objects=1\nread 7 1 aa\n",
            "import draid1:2d:3c:0s-0 group=3 objects=1\nread 7 1 bb\n",
        ],
        calls: 58,
    },
    // An arm that was detached is there, or is gone, and no bytes with it.
    Groups {
        session: "create draid1:2d:4c:1s 4 sector=512 height=8 metaslabs=2 slices=1\nwrite 7 aa\nspare 0 0\nsync\ndetach draid1-0-0\n",
        lines: "import\nread 7\nspare 0 0\n",
        found: &[
            "import no pool\nread no pool\nspare no pool\n",
            "import draid1:2d:4c:1s-0 group=1 objects=0\nread 7 no object\nspare 0 draid1-0-0 ok\n",
            "import draid1:2d:4c:1s-0 group=2 objects=1\nread 7 1 aa\nspare 0 refused 2 by=0\n",
            "import draid1:2d:4c:1s-0 group=3 objects=1\nread 7 1 aa\nspare 0 draid1-0-0 ok\n",
        ],
        calls: 68,
    },
    // A pool has version 2 with the group of its upgrade, and not before.
    Groups {
        session: "create draid1:2d:3c:0s 3 sector=512 height=8 metaslabs=2 slices=1\nwrite 7 aa\nupgrade\n",
        lines: "import\nread 7\nupgrade\n",
        found: &[
            "import no pool\nread no pool\nupgrade no pool\n",
            "import draid1:2d:3c:0s-0 group=1 objects=0\nread 7 no object\nupgrade version=2 group=2\n",
            "import draid1:2d:3c:0s-0 group=2 objects=1\nread 7 1 aa\nupgrade already\n",
        ],
        calls: 44,
    },
];

/// How many groups replies acknowledge: that of the new pool, and those of the commands that name one.
fn acknowledged(printed: &[u8]) -> usize {
    let mut groups = 0usize;
    for line in printed.split(|byte: &u8| *byte == b'\n') {
        if line.starts_with(b"create ") || names_group(line) {
            groups = groups.saturating_add(1);
        }
    }
    groups
}

/// Whether a reply names a group.
fn names_group(line: &[u8]) -> bool {
    line.starts_with(b"sync ") || line.starts_with(b"detach ") || line.starts_with(b"upgrade ")
}

/// Runs a session on devices that stop behind so many calls and then crash.
fn stop<R: AllocGlobal + Threads + Sync>(
    rt: &R,
    shelf: &mut MemoryShelf,
    groups: &Groups,
    calls: u64,
    sink: &mut MemorySink,
) -> Option<Status> {
    shelf.put_fuse(rt.alloc(), calls).ok()?;
    let ended = run_on(rt, shelf, groups.session, sink)?;
    shelf.put_fuse(rt.alloc(), u64::MAX).ok()?;
    shelf.crash();
    Some(ended)
}

/// Whether replies are those where this group is found, or the next one.
fn are_of_group(groups: &Groups, found: &[u8], group: usize) -> bool {
    groups
        .found
        .iter()
        .skip(group)
        .take(2)
        .any(|wanted| found == wanted.as_bytes())
}

/// Whether an import finds this group or the next one.
fn finds<R: AllocGlobal + Threads + Sync>(
    rt: &R,
    shelf: &mut MemoryShelf,
    groups: &Groups,
    group: usize,
) -> bool {
    let mut sink = MemorySink::new(rt.alloc(), Vec::new(rt.alloc()));
    run_on(rt, shelf, groups.lines, &mut sink).is_some() && are_of_group(groups, sink.held(), group)
}

/// What a session comes to on devices that stop behind so many calls, where these, and then a crash, leave the last group
/// that was acknowledged, or the next one.
fn keeps_a_group<R: AllocGlobal + Threads + Sync>(
    rt: &R,
    shelf: &mut MemoryShelf,
    groups: &Groups,
    calls: u64,
) -> Option<Status> {
    let mut sink = MemorySink::new(rt.alloc(), Vec::new(rt.alloc()));
    let ended = stop(rt, shelf, groups, calls, &mut sink)?;
    if !finds(rt, shelf, groups, acknowledged(sink.held())) {
        return None;
    }
    Some(ended)
}

/// The same of devices that a crash leaves by this rule.
fn keeps_by<R: AllocGlobal + Threads + Sync>(
    rt: &R,
    groups: &Groups,
    rule: CrashRule,
    calls: u64,
) -> Option<Status> {
    let mut shelf = MemoryShelf::new(rt.alloc(), rule);
    keeps_a_group(rt, &mut shelf, groups, calls)
}

/// Whether it is so behind each count of calls, and with all of them the session
/// comes to its end.
fn is_kept<R: AllocGlobal + Threads + Sync>(rt: &R, groups: &Groups, rule: CrashRule) -> bool {
    for calls in 0..groups.calls {
        if keeps_by(rt, groups, rule, calls).is_none() {
            return false;
        }
    }
    keeps_by(rt, groups, rule, groups.calls) == Some(Status::Done)
}

static RULES: [CrashRule; 4] = [
    CrashRule::Old,
    CrashRule::New,
    CrashRule::Torn,
    CrashRule::Half,
];

/// The same whatever a crash leaves of what wasn't flushed.
fn is_always_kept<R: AllocGlobal + Threads + Sync>(rt: &R, groups: &Groups) -> bool {
    for rule in RULES.iter() {
        if !is_kept(rt, groups, *rule) {
            return false;
        }
    }
    true
}

// However many calls of the devices pass before all fail.
#[test]
fn imports_find_a_whole_group(rt: HostRuntime) {
    for row in 0..GROUPS.len() {
        assert!(rt; is_always_kept(&rt, &GROUPS[row]), "{row}");
    }
}
