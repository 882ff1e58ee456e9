use crate::gates::Stop;
use crate::runs::{Section, printed, run_section, text_of};
use draid_names::WriteFault;
use draid_reply::Reply;
use draid_shelf::{CrashRule, MemoryShelf};
use std::alloc::{AllocError, Global};
use std::sync::Wait;
use std::thread::Threads;

/// A section, what each lane replies, a script behind it, and what that prints.
type Case = (Section, &'static [&'static str], &'static str, &'static str);

const CREATE: &str = "create draid1:2d:3c:0s 3 sector=512 height=8 metaslabs=2 slices=4\n";

static CASES: [Case; 8] = [
    // Two lanes write and read objects of their own.
    (
        Section {
            before: "create draid1:2d:3c:0s 3 sector=512 height=8 metaslabs=2 slices=4\nwrite 5 aa\nwrite 1005 bb\nsync\n",
            // Each stops in its first write until the other has come to its own.
            stops: &[
                Stop {
                    lane: 0,
                    call: 3,
                    of: 1,
                    calls: 4,
                },
                Stop {
                    lane: 1,
                    call: 4,
                    of: 0,
                    calls: 6,
                },
            ],
            lanes: &[
                "read 5\nwrite 1 11\nread 1\nwrite 2 22\nfree 1\nread 1\n",
                "read 1005\nwrite 1001 33\nread 1001\nwrite 1005 44\nread 1005\n",
            ],
            exported: true,
        },
        &[
            "read 5 1 aa\nwrite 1 ok\nread 1 1 11\nwrite 2 ok\nfree 1 ok\nread 1 no object\n",
            "read 1005 1 bb\nwrite 1001 ok\nread 1001 1 33\nwrite 1005 ok\nread 1005 1 44\n",
        ],
        "import\nread 1\nread 2\nread 5\nread 1001\nread 1005\n",
        "import draid1:2d:3c:0s-0 group=3 objects=4\nread 1 no object\nread 2 1 22\nread 5 1 aa\nread 1001 1 33\nread 1005 1 44\n",
    ),
    // A crash leaves what a lane wrote before its sync, and not what it wrote behind.
    (
        Section {
            before: CREATE,
            stops: &[],
            lanes: &[
                "write 1 11\nsync\nwrite 2 22\nread 2\n",
                "read 1001\nfree 1001\n",
            ],
            exported: false,
        },
        &[
            "write 1 ok\nsync group=2 thin=0\nwrite 2 ok\nread 2 1 22\n",
            "read 1001 no object\nfree 1001 no object\n",
        ],
        "import\nread 1\nread 2\n",
        "import draid1:2d:3c:0s-0 group=2 objects=1\nread 1 1 11\nread 2 no object\n",
    ),
    // A sync commits what another lane has written, which reads on meanwhile.
    (
        Section {
            before: CREATE,
            stops: &[Stop {
                lane: 1,
                call: 0,
                of: 0,
                calls: 15,
            }],
            lanes: &[
                "write 1 11\nread 1\nread 1\nread 1\nread 1\nread 1\nread 1\nread 1\nread 1\n",
                "write 1001 33\nsync\n",
            ],
            exported: false,
        },
        &[
            "write 1 ok\nread 1 1 11\nread 1 1 11\nread 1 1 11\nread 1 1 11\nread 1 1 11\nread 1 1 11\nread 1 1 11\nread 1 1 11\n",
            "write 1001 ok\nsync group=2 thin=0\n",
        ],
        "import\nread 1\nread 1001\n",
        "import draid1:2d:3c:0s-0 group=2 objects=2\nread 1 1 11\nread 1001 1 33\n",
    ),
    // A leaf goes offline while another lane is in a write.
    (
        Section {
            before: CREATE,
            stops: &[
                Stop {
                    lane: 0,
                    call: 0,
                    of: 1,
                    calls: 4,
                },
                Stop {
                    lane: 1,
                    call: 4,
                    of: 0,
                    calls: 2,
                },
            ],
            lanes: &[
                "offline 1\nonline 7\n",
                "write 1001 33\nread 1001\nwrite 1002 44\nread 1002\n",
            ],
            exported: true,
        },
        &[
            "offline 1 ok\nonline 7 refused 1\n",
            "write 1001 ok\nread 1001 1 33\nwrite 1002 ok\nread 1002 1 44\n",
        ],
        "import\nread 1001\nread 1002\nonline 1\n",
        "import draid1:2d:3c:0s-0 group=2 objects=2\nread 1001 1 33\nread 1002 1 44\nonline 1 ok\n",
    ),
    // A column of one lane's write lands between two of another's, each in a hold of its own.
    (
        Section {
            before: CREATE,
            stops: &[
                Stop {
                    lane: 1,
                    call: 3,
                    of: 0,
                    calls: 5,
                },
                Stop {
                    lane: 0,
                    call: 4,
                    of: 1,
                    calls: 5,
                },
                // The last of its holds.
                Stop {
                    lane: 1,
                    call: 4,
                    of: 0,
                    calls: 7,
                },
            ],
            lanes: &["write 1 11\n", "write 1001 33\n"],
            exported: true,
        },
        &["write 1 ok\n", "write 1001 ok\n"],
        "import\nread 1\nread 1001\n",
        "import draid1:2d:3c:0s-0 group=2 objects=2\nread 1 1 11\nread 1001 1 33\n",
    ),
    // Before the first column of a write another lane reads, and a third one's sync waits, which commits that write too.
    (
        Section {
            before: "create draid1:2d:3c:0s 3 sector=512 height=8 metaslabs=2 slices=4\nwrite 1005 bb\nsync\n",
            stops: &[
                Stop {
                    lane: 1,
                    call: 0,
                    of: 0,
                    calls: 4,
                },
                Stop {
                    lane: 2,
                    call: 0,
                    of: 0,
                    calls: 4,
                },
                Stop {
                    lane: 0,
                    call: 3,
                    of: 1,
                    calls: 3,
                },
                Stop {
                    lane: 0,
                    call: 3,
                    of: 2,
                    calls: 107,
                },
            ],
            lanes: &[
                "write 1 11\n",
                "read 1005\nread 1005\nread 1005\n",
                "write 2001 55\nsync\n",
            ],
            exported: false,
        },
        &[
            "write 1 ok\n",
            "read 1005 1 bb\nread 1005 1 bb\nread 1005 1 bb\n",
            "write 2001 ok\nsync group=3 thin=0\n",
        ],
        "import\nread 1\nread 2001\n",
        "import draid1:2d:3c:0s-0 group=3 objects=3\nread 1 1 11\nread 2001 1 55\n",
    ),
    // Before the first column of a write another lane reads, and a third one's rebuild is planned there and waits.
    (
        Section {
            before: "create draid1:2d:4c:1s 4 sector=512 height=8 metaslabs=2 slices=4\nwrite 2005 bb\nsync\noffline 0\nspare 0 0\nsync\n",
            stops: &[
                Stop {
                    lane: 2,
                    call: 0,
                    of: 1,
                    calls: 4,
                },
                Stop {
                    lane: 0,
                    call: 0,
                    of: 1,
                    calls: 4,
                },
                Stop {
                    lane: 1,
                    call: 3,
                    of: 2,
                    calls: 3,
                },
                Stop {
                    lane: 1,
                    call: 3,
                    of: 0,
                    calls: 107,
                },
            ],
            lanes: &[
                "rebuild\n",
                "write 1001 11\n",
                "read 2005\nread 2005\nread 2005\n",
            ],
            exported: false,
        },
        &[
            "rebuild from=0 stripes=2 errors=0 done\n",
            "write 1001 ok\n",
            "read 2005 1 bb\nread 2005 1 bb\nread 2005 1 bb\n",
        ],
        "import\nread 1001\nread 2005\n",
        "import draid1:2d:4c:1s-0 group=5 objects=2\nread 1001 1 11\nread 2005 1 bb\n",
    ),
    // A sync that waits at the second metaslab for an open write counts what is thin in both.
    (
        Section {
            before: "create draid1:2d:3c:0s 3 sector=512 height=8 metaslabs=2 slices=4\noffline 1\nfill 0 30 1024 1\nsync\n",
            stops: &[
                Stop {
                    lane: 0,
                    call: 0,
                    of: 1,
                    calls: 15,
                },
                Stop {
                    lane: 1,
                    call: 14,
                    of: 0,
                    calls: 4,
                },
                Stop {
                    lane: 0,
                    call: 3,
                    of: 1,
                    calls: 114,
                },
            ],
            lanes: &["write 100 11\n", "fill 1000 2 1024 1\nsync\n"],
            exported: false,
        },
        &[
            "write 100 ok\n",
            "fill 1000 written=2\nsync group=3 thin=3\n",
        ],
        "import\nread 100\n",
        "import draid1:2d:3c:0s-0 group=3 objects=33\nread 100 1 11\n",
    ),
];

/// Whether a lane replies so.
fn is_said(alloc: Global, replies: &[Reply], wanted: &str) -> bool {
    match text_of(alloc, replies) {
        Some(text) => text.as_slice() == wanted.as_bytes(),
        None => false,
    }
}

/// Whether lanes reply so.
fn are_said(alloc: Global, replies: &[Vec<Reply>], wanted: &[&str]) -> bool {
    if replies.len() != wanted.len() {
        return false;
    }
    for lane in 0..replies.len() {
        if !is_said(alloc, &replies[lane], wanted[lane]) {
            return false;
        }
    }
    true
}

/// Whether lanes and a session behind them reply so on a new shelf.
fn is_so<W: AllocGlobal + Threads + Wait + Sync>(rt: &W, case: &Case) -> bool {
    let mut shelf = MemoryShelf::new(rt.alloc(), CrashRule::Old);
    let Some(replies) = run_section(rt, &mut shelf, &case.0) else {
        return false;
    };
    match printed(rt, &mut shelf, case.2) {
        Some(found) => {
            are_said(rt.alloc(), &replies, case.1) && found.as_slice() == case.3.as_bytes()
        }
        None => false,
    }
}

#[test]
fn lanes_reply_and_leave_what_they_wrote(rt: HostRuntime) {
    for case in CASES.iter() {
        let wanted = case.3;
        assert!(rt; is_so(&rt, case), "{wanted}");
    }
}

/// Two lanes that each write and then sync. The second begins its sync while the first has the uberblock.
static SYNCS: Section = Section {
    before: CREATE,
    stops: &[Stop {
        lane: 0,
        call: 12,
        of: 1,
        calls: 7,
    }],
    lanes: &["write 1 11\nsync\n", "write 1001 33\nsync\n"],
    exported: false,
};

/// Whether their syncs name two groups, one behind the other, and a crash leaves both objects.
fn syncs_differ<W: AllocGlobal + Threads + Wait + Sync>(rt: &W) -> bool {
    let mut shelf = MemoryShelf::new(rt.alloc(), CrashRule::Old);
    let Some(replies) = run_section(rt, &mut shelf, &SYNCS) else {
        return false;
    };
    let one = [
        "write 1 ok\nsync group=2 thin=0\n",
        "write 1001 ok\nsync group=3 thin=0\n",
    ];
    let other = [
        "write 1 ok\nsync group=3 thin=0\n",
        "write 1001 ok\nsync group=2 thin=0\n",
    ];
    let said = are_said(rt.alloc(), &replies, &one) || are_said(rt.alloc(), &replies, &other);
    match printed(rt, &mut shelf, "import\nread 1\nread 1001\n") {
        Some(found) => {
            said && found.as_slice()
                == b"import draid1:2d:3c:0s-0 group=3 objects=2\nread 1 1 11\nread 1001 1 33\n".as_slice()
        }
        None => false,
    }
}

#[test]
fn two_syncs_name_two_groups(rt: HostRuntime) {
    assert!(rt; syncs_differ(&rt));
}

/// Whether a session on a shelf prints the same, but for its first line, as the last lines of one that makes a pool anew.
fn is_like<W: AllocGlobal + Threads + Wait + Sync>(
    rt: &W,
    shelf: &mut MemoryShelf,
    script: &str,
    anew: &str,
) -> bool {
    let mut other = MemoryShelf::new(rt.alloc(), CrashRule::Old);
    let Some(found) = printed(rt, shelf, script) else {
        return false;
    };
    let Some(wanted) = printed(rt, &mut other, anew) else {
        return false;
    };
    match found.iter().position(|byte| *byte == b'\n') {
        Some(end) => found.len() > end + 1 && wanted.ends_with(&found[end + 1..]),
        None => false,
    }
}

/// Four lanes that fill a pool of 64 stripes, each until there is no room.
static FULL: Section = Section {
    before: CREATE,
    stops: &[],
    lanes: &[
        "fill 0 65 1024 1\n",
        "fill 1000 65 1024 1\n",
        "fill 2000 65 1024 1\n",
        "fill 3000 65 1024 1\n",
    ],
    exported: true,
};

/// How many objects a lane filled, where it found no room for a further one.
fn filled(replies: &[Reply]) -> u64 {
    match replies.first() {
        Some(
            Reply::FillRefused {
                written,
                why: WriteFault::NoSpace { .. },
                ..
            },
        ) => *written,
        _ => 100,
    }
}

/// What a session asks of the objects that lanes filled.
fn sums_of(alloc: Global, lists: &[Vec<Reply>]) -> Result<String, AllocError> {
    let mut sums = String::new(alloc);
    for lane in 0..lists.len() {
        let count = filled(&lists[lane]);
        if count > 0 {
            let first = lane.wrapping_mul(1000);
            let sum = format!(in alloc; "sum {first} {count}\n")?;
            sums.push_str(&sum)?;
        }
    }
    Ok(sums)
}

/// The lines that fill as many in one session.
fn fills_of(alloc: Global, lists: &[Vec<Reply>]) -> Result<String, AllocError> {
    let mut fills = String::from_str(alloc, CREATE)?;
    for lane in 0..lists.len() {
        let count = filled(&lists[lane]);
        if count > 0 {
            let first = lane.wrapping_mul(1000);
            let fill = format!(in alloc; "fill {first} {count} 1024 1\n")?;
            fills.push_str(&fill)?;
        }
    }
    Ok(fills)
}

/// Whether each object that they filled has its bytes on a shelf.
fn have_bytes<W: AllocGlobal + Threads + Wait + Sync>(
    rt: &W,
    shelf: &mut MemoryShelf,
    lists: &[Vec<Reply>],
) -> Result<bool, AllocError> {
    let sums = sums_of(rt.alloc(), lists)?;
    let mut script = String::from_str(rt.alloc(), "import\n")?;
    script.push_str(&sums)?;
    let mut anew = fills_of(rt.alloc(), lists)?;
    anew.push_str(&sums)?;
    Ok(is_like(rt, shelf, &script, &anew))
}

/// Whether they fill all of it, and each object has its bytes behind that.
fn fill_all<W: AllocGlobal + Threads + Wait + Sync>(rt: &W) -> bool {
    let mut shelf = MemoryShelf::new(rt.alloc(), CrashRule::Old);
    let Some(lists) = run_section(rt, &mut shelf, &FULL) else {
        return false;
    };
    let mut total = 0u64;
    for list in lists.iter() {
        total = total.wrapping_add(filled(list));
    }
    total == 64 && have_bytes(rt, &mut shelf, &lists) == Ok(true)
}

#[test]
fn four_lanes_fill_a_pool(rt: HostRuntime) {
    assert!(rt; fill_all(&rt));
}

/// The objects of fifteen lanes, as a session fills them.
const FILLS: &str =
    "fill 1000 3 1024 1\nfill 2000 3 1024 1\nfill 3000 3 1024 1\nfill 4000 3 1024 1\nfill 5000 3 1024 1\nfill 6000 3 1024 1\nfill 7000 3 1024 1\nfill 8000 3 1024 1\nfill 9000 3 1024 1\nfill 10000 3 1024 1\nfill 11000 3 1024 1\nfill 12000 3 1024 1\nfill 13000 3 1024 1\nfill 14000 3 1024 1\nfill 15000 3 1024 1\n";

/// What it asks of them.
const SUMS: &str =
    "import\nsum 1000 3\nsum 2000 3\nsum 3000 3\nsum 4000 3\nsum 5000 3\nsum 6000 3\nsum 7000 3\nsum 8000 3\nsum 9000 3\nsum 10000 3\nsum 11000 3\nsum 12000 3\nsum 13000 3\nsum 14000 3\nsum 15000 3\n";

/// Sixteen lanes, of which the first scrubs while the others fill objects and sum them.
static SCRUB: Section = Section {
    before: "create draid1:2d:4c:1s 4 sector=512 height=8 metaslabs=4 slices=4\nfill 0 20 1024 1\nsync\n",
    stops: &[],
    lanes: &[
        "scrub\n",
        "fill 1000 3 1024 1\nsum 1000 3\n",
        "fill 2000 3 1024 1\nsum 2000 3\n",
        "fill 3000 3 1024 1\nsum 3000 3\n",
        "fill 4000 3 1024 1\nsum 4000 3\n",
        "fill 5000 3 1024 1\nsum 5000 3\n",
        "fill 6000 3 1024 1\nsum 6000 3\n",
        "fill 7000 3 1024 1\nsum 7000 3\n",
        "fill 8000 3 1024 1\nsum 8000 3\n",
        "fill 9000 3 1024 1\nsum 9000 3\n",
        "fill 10000 3 1024 1\nsum 10000 3\n",
        "fill 11000 3 1024 1\nsum 11000 3\n",
        "fill 12000 3 1024 1\nsum 12000 3\n",
        "fill 13000 3 1024 1\nsum 13000 3\n",
        "fill 14000 3 1024 1\nsum 14000 3\n",
        "fill 15000 3 1024 1\nsum 15000 3\n",
    ],
    exported: true,
};

/// The same, where the first rebuilds a disk that failed onto a spare.
static REBUILD: Section = Section {
    before: "create draid1:2d:4c:1s 4 sector=512 height=8 metaslabs=4 slices=4\nfill 0 20 1024 1\nsync\noffline 0\nspare 0 0\nsync\n",
    stops: &[],
    lanes: &[
        "rebuild\n",
        "fill 1000 3 1024 1\nsum 1000 3\n",
        "fill 2000 3 1024 1\nsum 2000 3\n",
        "fill 3000 3 1024 1\nsum 3000 3\n",
        "fill 4000 3 1024 1\nsum 4000 3\n",
        "fill 5000 3 1024 1\nsum 5000 3\n",
        "fill 6000 3 1024 1\nsum 6000 3\n",
        "fill 7000 3 1024 1\nsum 7000 3\n",
        "fill 8000 3 1024 1\nsum 8000 3\n",
        "fill 9000 3 1024 1\nsum 9000 3\n",
        "fill 10000 3 1024 1\nsum 10000 3\n",
        "fill 11000 3 1024 1\nsum 11000 3\n",
        "fill 12000 3 1024 1\nsum 12000 3\n",
        "fill 13000 3 1024 1\nsum 13000 3\n",
        "fill 14000 3 1024 1\nsum 14000 3\n",
        "fill 15000 3 1024 1\nsum 15000 3\n",
    ],
    exported: true,
};

/// Whether a lane filled its objects, and could sum them.
fn is_filled(replies: &[Reply]) -> bool {
    match replies {
        [Reply::Filled { written, .. }, Reply::Summed { .. }] => *written == 3,
        _ => false,
    }
}

/// Whether all lanes but the first did.
fn are_filled(lists: &[Vec<Reply>]) -> bool {
    for lane in 1..lists.len() {
        if !is_filled(&lists[lane]) {
            return false;
        }
    }
    lists.len() == 16
}

/// Whether the first lane came to its end without an error.
fn is_mended(replies: &[Reply]) -> bool {
    match replies {
        [Reply::Scrubbed { errors, paused, .. }] => *errors == 0 && !*paused,
        [
            Reply::Rebuilt {
                stripes,
                errors,
                paused,
                ..
            },
        ] => *errors == 0 && !*paused && *stripes > 0,
        _ => false,
    }
}

/// Whether the first lane did, and each of the others filled objects.
fn are_mended(lists: &[Vec<Reply>]) -> bool {
    match lists.first() {
        Some(first) => is_mended(first) && are_filled(lists),
        None => false,
    }
}

/// Whether the first of sixteen lanes comes to its end while the others fill objects, and each of these has its bytes then.
fn mends<W: AllocGlobal + Threads + Wait + Sync>(rt: &W, section: &Section) -> bool {
    let mut shelf = MemoryShelf::new(rt.alloc(), CrashRule::Old);
    let Some(lists) = run_section(rt, &mut shelf, section) else {
        return false;
    };
    let Ok(mut anew) = String::from_str(rt.alloc(), section.before) else {
        return false;
    };
    if anew.push_str(FILLS).is_err() || anew.push_str(SUMS).is_err() {
        return false;
    }
    are_mended(&lists) && is_like(rt, &mut shelf, SUMS, &anew)
}

#[test]
fn sixteen_lanes_run_beside_a_scrub(rt: HostRuntime) {
    assert!(rt; mends(&rt, &SCRUB));
}

#[test]
fn sixteen_lanes_run_beside_a_rebuild(rt: HostRuntime) {
    assert!(rt; mends(&rt, &REBUILD));
}

/// A lane of the pool that is there.
static ALONE: Section = Section {
    before: "",
    stops: &[],
    lanes: &["write 1 11\nwrite 5 22\nsync\n", "write 1001 33\n"],
    exported: true,
};

/// What is asked of that pool before and behind.
const ASKED: &str = "import\nread 1\nread 5\nread 1001\nexport\n";

/// Whether lanes run, or leave the pool as it was where memory was wanting before.
fn runs_or_keeps<W: AllocGlobal + Threads + Wait + Sync>(rt: &W) -> bool {
    let mut shelf = MemoryShelf::new(rt.alloc(), CrashRule::Old);
    let made = printed(
        rt,
        &mut shelf,
        "create draid1:2d:3c:0s 3 sector=512 height=8 metaslabs=2 slices=4\nwrite 5 aa\nexport\n",
    );
    let was = printed(rt, &mut shelf, ASKED);
    let ran = run_section(rt, &mut shelf, &ALONE);
    let found = printed(rt, &mut shelf, ASKED);
    match (was, found) {
        (Some(was), Some(found)) => {
            made.is_none() || ran.is_some() || found.as_slice() == was.as_slice()
        }
        _ => true,
    }
}

// It shows something where an allocation fails (`rt try --test --fail-alloc`).
#[test]
fn lanes_run_or_leave_the_pool(rt: HostRuntime) {
    assert!(rt; runs_or_keeps(&rt));
}
