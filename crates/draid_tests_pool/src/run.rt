ghost use Rattle.std.specs.Prelude.{◌≤◌, length};
ghost use Rattle.draid_choose.specs.Rooms.{Picks, most_rooms};

use draid_choose::Chooser;
use draid_lines::MemorySink;
use draid_names::Room;
use draid_run::Status;
use draid_shelf::{CrashRule, MemoryShelf, Place};
use draid_tests_session::{run_chosen, run_script, source_of};
use std::alloc::{AllocError, Global};
use std::thread::Threads;

static CREATE: &str = "create draid1:2d:3c:0s 3 sector=512 height=8 metaslabs=1 slices=4\n";

/// An area of a pool of one metaslab.
#[derive(Clone, Copy)]
enum PoolArea {
    Even,
    Odd,
    CheckEven,
    CheckOdd,
    Uber,
}

/// Which calls of the devices fail, by their numbers, and how metaslabs are chosen.
#[derive(Clone, Copy)]
struct Failing {
    shelf: &'static [u64],
    rack: &'static [u64],
    /// A call of an area.
    area: Option<(PoolArea, u64)>,
    source: &'static [u64],
    sink: &'static [u64],
    /// Whether the last metaslab that has room takes a block, and not the first.
    last: bool,
}

const NONE: Failing = Failing {
    shelf: &[],
    rack: &[],
    area: None,
    source: &[],
    sink: &[],
    last: false,
};

/// Has these calls of the racks on a shelf fail.
fn fail_racks(shelf: &mut MemoryShelf, alloc: Global, calls: &[u64]) -> Result<(), AllocError> {
    for metaslab in 0..64 {
        shelf.fail(Place::Rack(metaslab), Vec::from_slice(alloc, calls)?);
    }
    Ok(())
}

/// Has this call of an area on a shelf fail.
fn fail_area(
    shelf: &mut MemoryShelf,
    alloc: Global,
    area: PoolArea,
    call: u64,
) -> Result<(), AllocError> {
    let calls = Vec::from_slice(alloc, &[call])?;
    match area {
        PoolArea::Even => shelf.fail(Place::Even(0), calls),
        PoolArea::Odd => shelf.fail(Place::Odd(0), calls),
        PoolArea::CheckEven => shelf.fail(Place::CheckEven, calls),
        PoolArea::CheckOdd => shelf.fail(Place::CheckOdd, calls),
        PoolArea::Uber => shelf.fail(Place::Uber, calls),
    }
    Ok(())
}

/// Has these calls of the devices on a shelf fail.
fn fail_calls(shelf: &mut MemoryShelf, alloc: Global, failing: &Failing) -> Result<(), AllocError> {
    shelf.fail(Place::Own, Vec::from_slice(alloc, failing.shelf)?);
    fail_racks(shelf, alloc, failing.rack)?;
    match failing.area {
        Some((area, call)) => fail_area(shelf, alloc, area, call),
        None => Ok(()),
    }
}

/// A sink, of which these calls fail.
fn sink_of(alloc: Global, failing: &Failing) -> Result<MemorySink, AllocError> {
    Ok(MemorySink::new(alloc, Vec::from_slice(alloc, failing.sink)?))
}

/// Runs a script on the devices of a shelf, which fail so, and gives the status; none where there is no memory for it.
fn run_on<R: AllocGlobal + Threads + Sync>(
    rt: &R,
    line: &str,
    script: &[u8],
    failing: &Failing,
    shelf: &mut MemoryShelf,
    sink: &mut MemorySink,
) -> Option<Status> {
    match fail_calls(shelf, rt.alloc(), failing) {
        Ok(()) if failing.last => run_last(rt, line, script, shelf, sink),
        Ok(()) => run_script(rt, line, script, failing.source, shelf, sink),
        Err(_) => None,
    }
}

/// The same on a new shelf.
fn run_words<R: AllocGlobal + Threads + Sync>(
    rt: &R,
    line: &str,
    script: &[u8],
    failing: &Failing,
    sink: &mut MemorySink,
) -> Option<Status> {
    let mut shelf = MemoryShelf::new(rt.alloc(), CrashRule::New);
    run_on(rt, line, script, failing, &mut shelf, sink)
}

/// Whether a run comes to this status and prints this.
fn comes_to<R: AllocGlobal + Threads + Sync>(
    rt: &R,
    line: &str,
    script: &[u8],
    failing: &Failing,
    status: Status,
    wanted: &[u8],
) -> bool {
    match sink_of(rt.alloc(), failing) {
        Ok(mut sink) => {
            run_words(rt, line, script, failing, &mut sink) == Some(status) && sink.held() == wanted
        }
        Err(_) => false,
    }
}

/// The line that creates the pool, and these.
fn created(alloc: Global, lines: &str) -> Result<Vec<u8>, AllocError> {
    let mut script = Vec::from_slice(alloc, CREATE.as_bytes())?;
    script.extend_from_slice(lines.as_bytes())?;
    Ok(script)
}

/// Whether a session behind the line that creates the pool comes to this status and prints this.
fn comes_behind<R: AllocGlobal + Threads + Sync>(
    rt: &R,
    lines: &str,
    failing: &Failing,
    status: Status,
    wanted: &[u8],
) -> bool {
    match created(rt.alloc(), lines) {
        Ok(script) => comes_to(rt, "session", &script, failing, status, wanted),
        Err(_) => false,
    }
}

const ONE: &str = "write 7 aa\nread 7\n";

const SOLVED: &str = "create draid1:2d:3c:0s-0 stripes=32\nwrite 7 ok\nread 7 1 aa\n";

const BACK: &str = "export\nimport\n";

const FAILED: &str = "create draid1:2d:3c:0s-0 stripes=32\nexport group=1\nshelf fault\n";

const FOUND: &str =
    "create draid1:2d:3c:0s-0 stripes=32\nexport group=1\nimport draid1:2d:3c:0s-0 group=1 objects=0\n";

/// Lines, the calls that fail, the status and what is printed. A block of one stripe is written by three calls of the rack and
/// read by three. Earlier bytes stay where a write misses too many columns, and no object behind one without bytes is summed.
static FAILING: [(&str, Failing, Status, &str); 23] = [
    (ONE, Failing { rack: &[0], ..NONE }, Status::Done, SOLVED),
    (ONE, Failing { rack: &[1], ..NONE }, Status::Done, SOLVED),
    (ONE, Failing { rack: &[2], ..NONE }, Status::Done, SOLVED),
    (ONE, Failing { rack: &[3], ..NONE }, Status::Done, SOLVED),
    (ONE, Failing { rack: &[4], ..NONE }, Status::Done, SOLVED),
    (
        ONE,
        Failing {
            rack: &[1, 5],
            ..NONE
        },
        Status::Done,
        "create draid1:2d:3c:0s-0 stripes=32\nwrite 7 ok\nread 7 unreadable absent=1 tried=1\n",
    ),
    (
        ONE,
        Failing {
            rack: &[0, 2],
            ..NONE
        },
        Status::Done,
        "create draid1:2d:3c:0s-0 stripes=32\nwrite 7 missed columns=2\nread 7 no object\n",
    ),
    (
        ONE,
        Failing {
            rack: &[3, 5],
            ..NONE
        },
        Status::Done,
        "create draid1:2d:3c:0s-0 stripes=32\nwrite 7 ok\nread 7 unreadable absent=2 tried=0\n",
    ),
    (
        "write 7 aa\nwrite 7 bb\nread 7\n",
        Failing {
            rack: &[3, 5],
            ..NONE
        },
        Status::Done,
        "create draid1:2d:3c:0s-0 stripes=32\nwrite 7 ok\nwrite 7 missed columns=2\nread 7 1 aa\n",
    ),
    (
        "write 1 aa\nwrite 3 cc\nsum 1 3\nread 3\n",
        Failing {
            rack: &[9, 11],
            ..NONE
        },
        Status::Done,
        "create draid1:2d:3c:0s-0 stripes=32\nwrite 1 ok\nwrite 3 ok\nsum 2 no object\nread 3 unreadable absent=2 tried=0\n",
    ),
    (
        "write 1 aa\nwrite 2 bb\nwrite 3 cc\nsum 1 4\n",
        Failing {
            rack: &[12, 14],
            ..NONE
        },
        Status::Done,
        "create draid1:2d:3c:0s-0 stripes=32\nwrite 1 ok\nwrite 2 ok\nwrite 3 ok\nsum 2 unreadable absent=2 tried=0\n",
    ),
    // A leaf is offline, and of the other two one fails: its column and that of the first landed nowhere.
    (
        "offline 0\nwrite 7 aa\nread 7\nwrite 7 bb\nread 7\n",
        Failing { rack: &[0], ..NONE },
        Status::Done,
        "create draid1:2d:3c:0s-0 stripes=32\noffline 0 ok\nwrite 7 missed columns=2\nread 7 no object\nwrite 7 ok\nread 7 1 bb\n",
    ),
    // Devices are made, and then the area of the uberblock, those of the check records and the devices of the one metaslab
    // are taken.
    (
        "",
        Failing {
            shelf: &[0],
            ..NONE
        },
        Status::ShelfFault,
        "shelf fault\n",
    ),
    (
        "",
        Failing {
            shelf: &[1],
            ..NONE
        },
        Status::ShelfFault,
        "shelf fault\n",
    ),
    (
        "",
        Failing {
            shelf: &[2],
            ..NONE
        },
        Status::ShelfFault,
        "shelf fault\n",
    ),
    (
        "",
        Failing {
            shelf: &[3],
            ..NONE
        },
        Status::ShelfFault,
        "shelf fault\n",
    ),
    (
        "",
        Failing {
            shelf: &[4],
            ..NONE
        },
        Status::Done,
        "create draid1:2d:3c:0s-0 stripes=32\n",
    ),
    // Behind these an import takes the same.
    (
        BACK,
        Failing {
            shelf: &[4],
            ..NONE
        },
        Status::ShelfFault,
        FAILED,
    ),
    (
        BACK,
        Failing {
            shelf: &[5],
            ..NONE
        },
        Status::ShelfFault,
        FAILED,
    ),
    (
        BACK,
        Failing {
            shelf: &[6],
            ..NONE
        },
        Status::ShelfFault,
        FAILED,
    ),
    (
        BACK,
        Failing {
            shelf: &[7],
            ..NONE
        },
        Status::Done,
        FOUND,
    ),
    (
        "",
        Failing {
            source: &[0],
            ..NONE
        },
        Status::SourceFault,
        "source fault\n",
    ),
    (
        ONE,
        Failing { sink: &[1], ..NONE },
        Status::SinkFault,
        "create draid1:2d:3c:0s-0 stripes=32\n",
    ),
];

#[test]
fn calls_that_fail_are_told(rt: HostRuntime) {
    for row in 0..FAILING.len() {
        let (lines, failing, status, wanted) = &FAILING[row];
        assert!(rt;
            comes_behind(&rt, lines, failing, *status, wanted.as_bytes()),
            "{row}"
        );
    }
}

/// A session that a call of the shelf, or of the rack of the second metaslab, ends, and one behind it on the same shelf.
struct Restart {
    shelf: &'static [u64],
    rack: &'static [u64],
    session: &'static str,
    printed: &'static str,
    later: &'static str,
    found: &'static str,
}

/// The second metaslab can't get the leaf of a new disk: the pool is found as it was, and the disk gets the number that the
/// first one didn't use up. The devices of the second metaslab can't be had as a pool is imported of which a leaf was
/// detached: it is found by the next import, and without the leaf.
static RESTARTS: [Restart; 2] = [
    Restart {
        shelf: &[],
        rack: &[0],
        session: "create draid1:2d:3c:0s 3 sector=512 height=8 metaslabs=3 slices=1\nreplace 0\n",
        printed: "create draid1:2d:3c:0s-0 stripes=24\nshelf fault\n",
        later: "import\nstatus\nreplace 0\ndetach 3\n",
        found: "import draid1:2d:3c:0s-0 group=1 objects=0\npool draid1:2d:3c:0s-0 group=1 open=2 objects=0\nslot 0 leaf 0 online logged=0\nslot 1 leaf 1 online logged=0\nslot 2 leaf 2 online logged=0\nmetaslab 0 free=8 blocks=0 none\nmetaslab 1 free=8 blocks=0 none\nmetaslab 2 free=8 blocks=0 none\nend\nreplace 0 leaf=3 ok\ndetach 3 ok group=2\n",
    },
    Restart {
        shelf: &[9],
        rack: &[],
        session: "create draid1:2d:3c:0s 3 sector=512 height=8 metaslabs=3 slices=1\nreplace 0\nwrite 7 aa\ndetach 3\nexport\nimport\n",
        printed: "create draid1:2d:3c:0s-0 stripes=24\nreplace 0 leaf=3 ok\nwrite 7 ok\ndetach 3 ok group=2\nexport group=2\nshelf fault\n",
        later: "import\nread 7\noffline 3\nreplace 0\n",
        found: "import draid1:2d:3c:0s-0 group=2 objects=1\nread 7 1 aa\noffline 3 refused 1\nreplace 0 leaf=4 ok\n",
    },
];

/// Whether the first session ends for its device, and the next one is whole.
fn is_found_later<R: AllocGlobal + Threads + Sync>(rt: &R, restart: &Restart) -> Option<bool> {
    let mut shelf = MemoryShelf::new(rt.alloc(), CrashRule::New);
    let calls = Vec::from_slice(rt.alloc(), restart.shelf).ok()?;
    shelf.fail(Place::Own, calls);
    let calls = Vec::from_slice(rt.alloc(), restart.rack).ok()?;
    shelf.fail(Place::Rack(1), calls);
    let mut first = sink_of(rt.alloc(), &NONE).ok()?;
    let mut second = sink_of(rt.alloc(), &NONE).ok()?;
    let (session, later) = (restart.session.as_bytes(), restart.later.as_bytes());
    let ended = run_script(rt, "session", session, &[], &mut shelf, &mut first)?;
    let done = run_script(rt, "session", later, &[], &mut shelf, &mut second)?;
    let statuses = ended == Status::ShelfFault && done == Status::Done;
    let printed = first.held() == restart.printed.as_bytes();
    Some(statuses && printed && second.held() == restart.found.as_bytes())
}

#[test]
fn a_later_session_goes_on(rt: HostRuntime) {
    for row in 0..RESTARTS.len() {
        assert!(rt; is_found_later(&rt, &RESTARTS[row]) == Some(true), "{row}");
    }
}

/// How often areas are called by a create and two syncs. A record is written and flushed, a check record by a sync alone. A
/// commit of the uberblock flushes the area and reads the gate of its slot, then writes and flushes the body and the gate;
/// before these it shuts the gate that stands open since the group before the last. A sync flushes the area, reads the gate
/// and shuts it already before it writes the check record.
static AREA_CALLS: [(PoolArea, u64); 5] = [
    (PoolArea::Odd, 4),
    (PoolArea::Even, 2),
    (PoolArea::CheckOdd, 2),
    (PoolArea::CheckEven, 2),
    (PoolArea::Uber, 24),
];

/// Whether the shelf is at fault at the end of a run; none where there is no memory for it.
fn is_ended<R: AllocGlobal + Threads + Sync>(
    rt: &R,
    script: &[u8],
    failing: &Failing,
) -> Option<bool> {
    let mut sink = sink_of(rt.alloc(), failing).ok()?;
    let ended = run_words(rt, "session", script, failing, &mut sink)?;
    Some(ended == Status::ShelfFault && sink.held().ends_with(b"shelf fault\n"))
}

/// Whether this call of an area ends the run of a create and two syncs, as it fails.
fn ends_at<R: AllocGlobal + Threads + Sync>(rt: &R, area: PoolArea, call: u64) -> Option<bool> {
    let failing = Failing {
        area: Some((area, call)),
        ..NONE
    };
    match created(rt.alloc(), "write 7 aa\nsync\nsync\n") {
        Ok(script) => is_ended(rt, &script, &failing),
        Err(_) => None,
    }
}

/// Whether just so many calls do.
fn ends_up_to<R: AllocGlobal + Threads + Sync>(rt: &R, area: PoolArea, calls: u64) -> bool {
    for call in 0..calls {
        if ends_at(rt, area, call) != Some(true) {
            return false;
        }
    }
    ends_at(rt, area, calls) == Some(false)
}

#[test]
fn areas_that_fail_end_the_run(rt: HostRuntime) {
    for (area, calls) in AREA_CALLS.iter() {
        assert!(rt; ends_up_to(&rt, *area, *calls), "{calls}");
    }
}

/// Words that ask for nothing.
static REFUSED: [&str; 6] = [
    "frob",
    "workload",
    "workload 1 2",
    "session 1",
    "workload x",
    "session --dir",
];

static USAGE: &str = "usage: dzpool session [--dir DIR] or dzpool workload NUMBER\n";

#[test]
fn other_words_end_a_run(rt: HostRuntime) {
    for words in REFUSED.iter() {
        let script = CREATE.as_bytes();
        assert!(rt;
            comes_to(&rt, words, script, &NONE, Status::Usage, USAGE.as_bytes()),
            "{words}"
        );
    }
    assert!(rt; Status::Usage.code() == 1);
}

/// Whether a run whose first line is too long ends.
fn long_line_ends<R: AllocGlobal + Threads + Sync>(rt: &R) -> bool {
    let status = Status::TooLong { line: 1 };
    match vec![in rt.alloc(); b'a'; 300_001] {
        Ok(long) => comes_to(rt, "session", &long, &NONE, status, b"line 1 too long\n"),
        Err(_) => false,
    }
}

#[test]
fn a_long_line_ends_a_run(rt: HostRuntime) {
    assert!(rt; long_line_ends(&rt));
}

/// The place of the last room that is large enough.
fn last_fit(rooms: &[Room]) -> Option<u32>
    requires { length rooms.now ≤ most_rooms }
    ensures { Picks rooms.now result }
{
    for k in 0..rooms.len() {
        let at = rooms.len() - 1 - k;
        if rooms[at].run >= rooms[at].need {
            return Some(at as u32);
        }
    }
    None
}

/// Runs a script on a shelf with the last metaslab that has room for a block.
fn run_last<R: AllocGlobal + Threads + Sync>(
    rt: &R,
    line: &str,
    script: &[u8],
    shelf: &mut MemoryShelf,
    sink: &mut MemorySink,
) -> Option<Status> {
    let last = Chooser::new(
        |rooms: &[Room]| -> Option<u32>
            requires { length rooms.now ≤ most_rooms }
            ensures { Picks rooms.now result }
        { last_fit(rooms) },
    );
    match source_of(rt.alloc(), script, &[]) {
        Ok(mut source) => run_chosen(rt, line, shelf, &mut source, sink, &last),
        Err(_) => None,
    }
}

const LAST: Failing = Failing { last: true, ..NONE };

static FILLING: &str =
    "create draid1:2d:3c:0s 3 sector=512 height=8 metaslabs=2 slices=1\nfill 1 17 1024 1\nread 17\nfree 1\nfree 1\nsum 2 1\n";

static FILLED: &str =
    "create draid1:2d:3c:0s-0 stripes=16\nfill 1 written=16 no space run=0 disabled=0 full=0 worn=0\nread 17 no object\nfree 1 ok\nfree 1 no object\nsum 2 1 ba5bad6f19de8198fe601d1177afed48d27c6040506ed8c814cff891de30a0be\n";

// As the example of metaslabs that fill, where the first metaslab is chosen.
#[test]
fn metaslabs_fill_from_the_last(rt: HostRuntime) {
    let script = FILLING.as_bytes();
    assert!(rt;
        comes_to(
            &rt,
            "session",
            script,
            &LAST,
            Status::Done,
            FILLED.as_bytes()
        )
    );
}

/// The exit status of a session where one byte of the script is another.
fn code_with<R: AllocGlobal + Threads + Sync>(
    rt: &R,
    script: &[u8],
    at: usize,
    byte: u8,
) -> Option<u8> {
    let mut sink = MemorySink::new(rt.alloc(), Vec::new(rt.alloc()));
    let mut other = Vec::from_slice(rt.alloc(), script).ok()?;
    if at < other.len() {
        other[at] = byte;
    }
    let ended = run_words(rt, "session", &other, &NONE, &mut sink)?;
    Some(ended.code())
}

/// Whether the session ends with no fault or at a line.
fn is_whole<R: AllocGlobal + Threads + Sync>(rt: &R, script: &[u8], at: usize, byte: u8) -> bool {
    matches!(code_with(rt, script, at, byte), Some(0 | 2))
}

/// Whether it does with each byte of a script in turn.
fn breaks_nowhere<R: AllocGlobal + Threads + Sync>(rt: &R, script: &[u8]) -> bool {
    for at in 0..script.len() {
        if !is_whole(rt, script, at, 0) || !is_whole(rt, script, at, 255) {
            return false;
        }
    }
    true
}

static SCRIPT: &str =
    "create draid1:2d:3c:0s 3 sector=512 height=8 metaslabs=1 slices=4\nwrite 7 aa\ndamage 0 0\nread 7\nsum 7 1\n";

#[test]
fn no_byte_breaks_a_run(rt: HostRuntime) {
    assert!(rt; breaks_nowhere(&rt, SCRIPT.as_bytes()));
}
