use crate::rebuilds::{RULES, run_lines};
use draid_lines::MemorySink;
use draid_run::Status;
use draid_shelf::{CrashRule, MemoryShelf, Shelf};
use std::thread::Threads;

/// Lines of which the last commits a group, and how many calls of the devices those before it make.
struct Story {
    lines: &'static str,
    from: u64,
}

/// A sync beside a checkpoint, another behind that with more blocks that it alone keeps, a checkpoint, one behind another that
/// was given up, a rewind of what is synced, of what isn't, and over three metaslabs, a checkpoint that is given up, an export, a
/// detach, an upgrade, and a sync without a checkpoint.
static STORIES: [Story; 12] = [
    Story {
        lines: "create draid1:2d:3c:0s 3 sector=512 height=8 metaslabs=1 slices=4\nwrite 7 aa\nwrite 9 99\ncheckpoint\nwrite 7 bb\nfree 9\nwrite 8 cc\nsync\n",
        from: 35,
    },
    Story {
        lines: "create draid1:2d:3c:0s 3 sector=512 height=8 metaslabs=1 slices=4\nwrite 7 aa\nwrite 9 99\ncheckpoint\nwrite 7 bb\nsync\nfree 9\nwrite 8 cc\nsync\n",
        from: 52,
    },
    Story {
        lines: "create draid1:2d:3c:0s 3 sector=512 height=8 metaslabs=1 slices=4\nwrite 7 aa\nwrite 9 99\nsync\nwrite 7 bb\ncheckpoint\n",
        from: 32,
    },
    Story {
        lines: "create draid1:2d:3c:0s 3 sector=512 height=8 metaslabs=1 slices=4\nwrite 7 aa\nwrite 9 99\ncheckpoint\nwrite 7 bb\ndiscard\nwrite 8 cc\ncheckpoint\n",
        from: 52,
    },
    Story {
        lines: "create draid1:2d:3c:0s 3 sector=512 height=8 metaslabs=1 slices=4\nwrite 7 aa\nwrite 9 99\ncheckpoint\nwrite 7 bb\nfree 9\nwrite 8 cc\nsync\nrewind\n",
        from: 52,
    },
    Story {
        lines: "create draid1:2d:3c:0s 3 sector=512 height=8 metaslabs=1 slices=4\nwrite 7 aa\nwrite 9 99\ncheckpoint\nwrite 7 bb\nfree 9\nwrite 8 cc\nrewind\n",
        from: 35,
    },
    Story {
        lines: "create draid1:2d:3c:0s 3 sector=512 height=8 metaslabs=3 slices=4\nfill 7 3 600 1\ncheckpoint\nfill 7 2 600 2\nfree 9\nwrite 8 cc\nsync\nrewind\n",
        from: 82,
    },
    Story {
        lines: "create draid1:2d:3c:0s 3 sector=512 height=8 metaslabs=1 slices=4\nwrite 7 aa\nwrite 9 99\ncheckpoint\nwrite 7 bb\nfree 9\nwrite 8 cc\nsync\ndiscard\n",
        from: 52,
    },
    Story {
        lines: "create draid1:2d:3c:0s 3 sector=512 height=8 metaslabs=1 slices=4\nwrite 7 aa\nwrite 9 99\ncheckpoint\nfree 9\nfree 7\nexport\n",
        from: 29,
    },
    Story {
        lines: "create draid1:2d:4c:1s 4 sector=512 height=8 metaslabs=1 slices=4 seed=2\nwrite 7 aa\nwrite 9 99\nspare 0 0\nrebuild\nsync\ncheckpoint\nwrite 7 bb\ndetach draid1-0-0\n",
        from: 80,
    },
    Story {
        lines: "create draid1:2d:3c:0s 3 sector=512 height=8 metaslabs=1 slices=4\nwrite 7 aa\nwrite 9 99\ncheckpoint\nwrite 7 bb\nfree 9\nupgrade\n",
        from: 32,
    },
    Story {
        lines: "create draid1:2d:3c:0s 3 sector=512 height=8 metaslabs=1 slices=4\nwrite 7 aa\nwrite 9 99\nsync\nwrite 7 bb\nsync\n",
        from: 32,
    },
];

/// What a later session asks: the objects, and what they go back to.
static LATER: &str = "import\nread 7\nread 8\nread 9\nrewind\nread 7\nread 8\nread 9\nstatus\n";

/// No session makes so many calls of the devices.
const MOST: u64 = 200;

/// What a later session finds behind a story on devices that stop behind so many calls and then crash by a rule.
fn stops_at<R: AllocGlobal + Threads + Sync>(
    rt: &R,
    story: &Story,
    rule: CrashRule,
    calls: u64,
    found: &mut MemorySink,
) -> Option<Status> {
    let mut shelf = MemoryShelf::new(rt.alloc(), rule);
    let mut printed = MemorySink::new(rt.alloc(), Vec::new(rt.alloc()));
    shelf.put_fuse(rt.alloc(), calls).ok()?;
    let ended = run_lines(rt, &mut shelf, story.lines, &mut printed)?;
    shelf.put_fuse(rt.alloc(), u64::MAX).ok()?;
    shelf.crash();
    run_lines(rt, &mut shelf, LATER, found)?;
    Some(ended)
}

/// Whether what is found changes just once as the last line is stopped at each of its calls, one behind the other.
fn changes_once<R: AllocGlobal + Threads + Sync>(
    rt: &R,
    story: &Story,
    rule: CrashRule,
) -> Option<bool> {
    let mut last = MemorySink::new(rt.alloc(), Vec::new(rt.alloc()));
    stops_at(rt, story, rule, story.from, &mut last)?;
    let mut changes = 0u64;
    for calls in story.from..MOST {
        let mut found = MemorySink::new(rt.alloc(), Vec::new(rt.alloc()));
        let ended = stops_at(rt, story, rule, calls, &mut found)?;
        if found.held() != last.held() {
            changes = changes.saturating_add(1);
        }
        last = found;
        if ended == Status::Done {
            return Some(changes == 1);
        }
    }
    None
}

// So it is what was there before the command, up to some call, and from there on what is there behind it.
#[test]
fn stopped_commits_beside_a_checkpoint_are_done_or_not(rt: HostRuntime) {
    for story in 0..STORIES.len() {
        for row in 0..RULES.len() {
            assert!(rt;
                changes_once(&rt, &STORIES[story], RULES[row]) == Some(true),
                "{story} {row}"
            );
        }
    }
}
