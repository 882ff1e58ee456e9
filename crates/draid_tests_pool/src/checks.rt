use draid_area::MemoryArea;
use draid_lines::MemorySink;
use draid_shelf::{CrashRule, MemoryShelf, Shelf};
use draid_tests_session::run_script;
use std::alloc::{AllocError, Global};
use std::thread::Threads;

/// Group 3 is committed. In it writes 3 and 4 were born, of objects 7 and 8; writes 1 and 2, of 7 and 9, are freed.
static SESSION: &str =
    "create draid1:2d:3c:0s 3 sector=512 height=8 metaslabs=1 slices=4\nwrite 7 aa\nwrite 9 99\nsync\nwrite 7 bb\nfree 9\nwrite 8 cc\nsync\ncrash\n";

static LATER: &str = "import\nread 7\n";

const FOUND: &str = "import draid1:2d:3c:0s-0 group=3 objects=2\nread 7 1 bb\n";

/// The check record that the session wrote.
const WRITTEN: &[u8] = &[
    0x44, 0x5a, 0x43, 0x50, 0, 1, 0, 0, 0, 30, // the front
    0, 0, 0, 0, 0, 0, 0, 3, // the group
    0, 0, 0, 0, 0, 0, 0, 0, 0, 0, 0, 0, // no checkpoint
];

/// An area of check records in place of what the session left, and what an import comes to over it.
struct Row {
    odd: bool,
    bytes: &'static [u8],
    /// These calls of the area fail.
    failing: &'static [u64],
    status: u8,
    printed: &'static str,
}

static ROWS: [Row; 14] = [
    Row {
        odd: true,
        bytes: WRITTEN,
        failing: &[1],
        status: 0,
        printed: FOUND,
    },
    // To an empty area nothing was written.
    Row {
        odd: true,
        bytes: &[],
        failing: &[],
        status: 0,
        printed: FOUND,
    },
    // The other area isn't read.
    Row {
        odd: false,
        bytes: &[1, 2, 3],
        failing: &[0],
        status: 0,
        printed: FOUND,
    },
    Row {
        odd: true,
        bytes: WRITTEN,
        failing: &[0],
        status: 7,
        printed: "shelf fault\n",
    },
    Row {
        odd: true,
        bytes: &[0x44],
        failing: &[],
        status: 8,
        printed: "record check at=0 kind=1\n",
    },
    Row {
        odd: true,
        bytes: &[0x44, 0x5a, 0x43, 0x50, 0, 1, 0, 0, 0, 30],
        failing: &[],
        status: 8,
        printed: "record check at=6 kind=2\n",
    },
    // The record of another group.
    Row {
        odd: true,
        bytes: &[
            0x44, 0x5a, 0x43, 0x50, 0, 1, 0, 0, 0, 30, 0, 0, 0, 0, 0, 0, 0, 2, 0, 0, 0, 0, 0, 0, 0,
            0, 0, 0, 0, 0,
        ],
        failing: &[],
        status: 8,
        printed: "record check at=10 kind=2\n",
    },
    // A checkpoint of group 2 that keeps no block alone.
    Row {
        odd: true,
        bytes: &[
            0x44, 0x5a, 0x43, 0x50, 0, 1, 0, 0, 0, 30, 0, 0, 0, 0, 0, 0, 0, 3, 0, 0, 0, 0, 0, 0, 0,
            2, 0, 0, 0, 0,
        ],
        failing: &[],
        status: 0,
        printed: FOUND,
    },
    // One that alone keeps the block of write 3, so object 7 has none.
    Row {
        odd: true,
        bytes: &[
            0x44, 0x5a, 0x43, 0x50, 0, 1, 0, 0, 0, 46, 0, 0, 0, 0, 0, 0, 0, 3, 0, 0, 0, 0, 0, 0, 0,
            3, 0, 0, 0, 1, 0, 0, 0, 0, 0, 0, 0, 7, 0, 0, 0, 0, 0, 0, 0, 3,
        ],
        failing: &[],
        status: 0,
        printed: "import draid1:2d:3c:0s-0 group=3 objects=1\nread 7 no object\n",
    },
    // A block that is freed.
    Row {
        odd: true,
        bytes: &[
            0x44, 0x5a, 0x43, 0x50, 0, 1, 0, 0, 0, 46, 0, 0, 0, 0, 0, 0, 0, 3, 0, 0, 0, 0, 0, 0, 0,
            2, 0, 0, 0, 1, 0, 0, 0, 0, 0, 0, 0, 7, 0, 0, 0, 0, 0, 0, 0, 1,
        ],
        failing: &[],
        status: 8,
        printed: "record check at=30 kind=2\n",
    },
    // One that was born behind the checkpoint.
    Row {
        odd: true,
        bytes: &[
            0x44, 0x5a, 0x43, 0x50, 0, 1, 0, 0, 0, 46, 0, 0, 0, 0, 0, 0, 0, 3, 0, 0, 0, 0, 0, 0, 0,
            2, 0, 0, 0, 1, 0, 0, 0, 0, 0, 0, 0, 7, 0, 0, 0, 0, 0, 0, 0, 3,
        ],
        failing: &[],
        status: 8,
        printed: "record check at=30 kind=2\n",
    },
    // One that is there and born in the checkpoint's group, and one with its number of another object.
    Row {
        odd: true,
        bytes: &[
            0x44, 0x5a, 0x43, 0x50, 0, 1, 0, 0, 0, 62, 0, 0, 0, 0, 0, 0, 0, 3, 0, 0, 0, 0, 0, 0, 0,
            3, 0, 0, 0, 2, 0, 0, 0, 0, 0, 0, 0, 7, 0, 0, 0, 0, 0, 0, 0, 3, 0, 0, 0, 0, 0, 0, 0, 8,
            0, 0, 0, 0, 0, 0, 0, 3,
        ],
        failing: &[],
        status: 8,
        printed: "record check at=46 kind=2\n",
    },
    // Two that stand in the wrong order.
    Row {
        odd: true,
        bytes: &[
            0x44, 0x5a, 0x43, 0x50, 0, 1, 0, 0, 0, 62, 0, 0, 0, 0, 0, 0, 0, 3, 0, 0, 0, 0, 0, 0, 0,
            3, 0, 0, 0, 2, 0, 0, 0, 0, 0, 0, 0, 8, 0, 0, 0, 0, 0, 0, 0, 4, 0, 0, 0, 0, 0, 0, 0, 7,
            0, 0, 0, 0, 0, 0, 0, 3,
        ],
        failing: &[],
        status: 8,
        printed: "record check at=46 kind=2\n",
    },
    // More blocks than a record may name.
    Row {
        odd: true,
        bytes: &[
            0x44, 0x5a, 0x43, 0x50, 0, 1, 0, 0, 0, 30, 0, 0, 0, 0, 0, 0, 0, 3, 0, 0, 0, 0, 0, 0, 0,
            2, 0, 8, 0, 1,
        ],
        failing: &[],
        status: 8,
        printed: "record check at=26 kind=2\n",
    },
];

/// The area of a row.
fn area_of(alloc: Global, bytes: &[u8], failing: &[u64]) -> Result<MemoryArea, AllocError> {
    let bytes = Vec::from_slice(alloc, bytes)?;
    MemoryArea::new(alloc, bytes, Vec::from_slice(alloc, failing)?)
}

/// Puts an area of check records in place of the one that is there.
fn put_area(shelf: &mut MemoryShelf, odd: bool, area: MemoryArea) -> Option<()> {
    match shelf.take_check() {
        Ok((even, _)) if odd => shelf.give_check(even, area),
        Ok((_, odd)) => shelf.give_check(area, odd),
        Err(_) => return None,
    }
    Some(())
}

/// Whether lines on a shelf end with this status, and print this.
fn prints<R: AllocGlobal + Threads + Sync>(
    rt: &R,
    shelf: &mut MemoryShelf,
    lines: &str,
    status: u8,
    printed: &str,
) -> Option<bool> {
    let mut sink = MemorySink::new(rt.alloc(), Vec::new(rt.alloc()));
    let ended = run_script(rt, "session", lines.as_bytes(), &[], shelf, &mut sink)?;
    Some(ended.code() == status && sink.held() == printed.as_bytes())
}

/// Whether an import over a row's area comes to what is wanted, and has left all there: with the written record in its place
/// the pool is found.
fn is_so<R: AllocGlobal + Threads + Sync>(
    rt: &R,
    shelf: &mut MemoryShelf,
    row: &Row,
) -> Option<bool> {
    let area = area_of(rt.alloc(), row.bytes, row.failing).ok()?;
    put_area(shelf, row.odd, area)?;
    if !prints(rt, shelf, LATER, row.status, row.printed)? {
        return Some(false);
    }
    let written = area_of(rt.alloc(), WRITTEN, &[]).ok()?;
    put_area(shelf, true, written)?;
    prints(rt, shelf, LATER, 0, FOUND)
}

/// The same on a new shelf.
fn is_told<R: AllocGlobal + Threads + Sync>(rt: &R, row: &Row) -> Option<bool> {
    let mut shelf = MemoryShelf::new(rt.alloc(), CrashRule::Old);
    let mut sink = MemorySink::new(rt.alloc(), Vec::new(rt.alloc()));
    run_script(
        rt,
        "session",
        SESSION.as_bytes(),
        &[],
        &mut shelf,
        &mut sink,
    )?;
    is_so(rt, &mut shelf, row)
}

#[test]
fn imports_read_the_check_record(rt: HostRuntime) {
    for row in 0..ROWS.len() {
        assert!(rt; is_told(&rt, &ROWS[row]) == Some(true), "{row}");
    }
}
