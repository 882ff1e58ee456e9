ghost use Rattle.std.specs.Prelude.{◌≡◌, ◌≤◌};
ghost use Rattle.draid_rack.specs.Rack.{HasJust};
ghost use Rattle.draid_spec.specs.Geometry.{IsGeometry, metaslab_sectors};

use crate::devices::{kit, layout};
use draid_area::Area;
use draid_create::create_metaslab;
use draid_import::{OpenFault, reopen};
use draid_names::DeviceFault;
use draid_perm::Perms;
use draid_pool::into_kit;
use draid_rack::Rack;
use draid_record::RecordFaultKind::{Cut, Leaf, Range, Twice};
use draid_shard::Shard;
use draid_shelf::Kit;
use draid_spec::Geometry;
use std::alloc::Global;

/// The record of metaslab 0 of a new pool of three disks, whose metaslab has four slices.
static RECORD: [u8; 84] = [
    0x44, 0x5a, 0x52, 0x43, 0, 1, 0, 0, 0, 84, 0, 0, 0, 0, 0, 0, 0, 0, 0, 1, 0, 3, // the front
    1, 0, 0, 0, 0, 0, 0, 0, 0, 0, 0, 0, 0, 0, 0, // slot 0
    1, 0, 0, 0, 0, 0, 0, 0, 0, 1, 0, 0, 0, 0, 0, // slot 1
    1, 0, 0, 0, 0, 0, 0, 0, 0, 2, 0, 0, 0, 0, 0, // slot 2
    0, 0, 0, 0, 0, 0, 0, 0, 0, 0, 0, 0, 0, 0, 0, 0, 0, // no pass, no runs, no blocks
];

/// Which of four leaves are there, and how many stripes are free.
type Kept = ([bool; 4], u64);

/// Where the blocks of a record begin, and the first stripes of those from stripes 0, 1 and 2 on.
type Blocks = (u64, [Option<u64>; 3]);

/// The first stripe of the first block from a stripe on.
fn first_from<R: Rack, A: Area>(shard: &Shard<R, A>, stripe: u64) -> Option<u64> {
    let pointer = shard.next_held(stripe)?;
    Some(pointer.first)
}

/// What is told of a metaslab.
fn told<R: Rack, A: Area>(shard: &Shard<R, A>) -> (Kept, Blocks) {
    let leaves = [
        shard.rack.sectors(0).is_some(),
        shard.rack.sectors(1).is_some(),
        shard.rack.sectors(2).is_some(),
        shard.rack.sectors(3).is_some(),
    ];
    let firsts = [
        first_from(shard, 0),
        first_from(shard, 1),
        first_from(shard, 2),
    ];
    (
        (leaves, shard.space.free_stripes()),
        (shard.blocks_at(), firsts),
    )
}

/// What is told of a metaslab that is opened from the record of group 1, or why it isn't.
fn opened<R: Rack, A: Area>(
    alloc: Global,
    layout: Geometry,
    kit: Kit<R, A>,
) -> Result<(Kept, Blocks), OpenFault>
    requires layout { IsGeometry layout }
    requires bytes { (R.shape kit.rack).bytes ≡ layout.props.sector }
{
    let perms = Perms::new(layout.spec.children, layout.props.seed);
    let next_leaf = u64::from(layout.spec.children).max(4);
    match reopen(alloc, 0, layout, perms, kit, 10_000, 1, next_leaf) {
        Ok(shard) => Ok(told(&shard)),
        Err(refused) => Err(refused.why),
    }
}

/// Opens a metaslab of four slices from these bytes in the area of odd groups, whose calls with these numbers fail, over so
/// many leaves, each with so many sectors more than the metaslab's.
fn reopened(
    alloc: Global,
    bytes: &[u8],
    leaves: u32,
    more: u64,
    failing: &[u64],
) -> Option<Result<(Kept, Blocks), OpenFault>>
    requires { more ≤ 1 }
{
    let Ok(layout) = layout(4) else {
        return None;
    };
    match kit(alloc, &layout, leaves, more, bytes, [&[], &[], failing]) {
        Ok(kit) => Some(opened(alloc, layout, kit)),
        Err(_) => None,
    }
}

/// What stands in the area of odd groups.
#[derive(Clone, Copy)]
enum Bytes {
    /// The record.
    Whole,
    /// The record where one byte is another.
    Changed(usize, u8),
    /// Its first bytes, so many.
    Cut(usize),
    /// The record with two blocks of a stripe each. The second begins at stripe 1, and is of object 7 and this seq; so is
    /// the first, with seq 1.
    Blocks(u8),
}

/// The record where one byte is another.
fn changed(place: usize, byte: u8) -> [u8; 244] {
    let mut bytes = [0u8; 244];
    bytes[..84].copy_from_slice(&RECORD);
    if place < 84 {
        bytes[place] = byte;
    }
    bytes
}

/// The record with two blocks, the second of this seq.
fn with_blocks(seq: u8) -> [u8; 244] {
    let mut bytes = changed(9, 244);
    bytes[79] = 1; // a run of stripes, of two
    bytes[95] = 2;
    bytes[99] = 2; // two blocks
    bytes[107] = 7;
    bytes[115] = 1;
    bytes[127] = 1;
    bytes[131] = 5;
    bytes[139] = 1;
    bytes[179] = 7;
    bytes[187] = seq;
    bytes[195] = 1;
    bytes[199] = 1;
    bytes[203] = 5;
    bytes[211] = 1;
    bytes
}

/// Those bytes, and how many of them count.
fn bytes_of(bytes: Bytes) -> ([u8; 244], usize) {
    match bytes {
        Bytes::Whole => (changed(84, 0), 84),
        Bytes::Changed(place, byte) => (changed(place, byte), 84),
        Bytes::Cut(len) => (changed(84, 0), len),
        Bytes::Blocks(seq) => (with_blocks(seq), 244),
    }
}

/// What stands there, how many leaves there are, how many sectors each has more, whether the first call on the area fails, and
/// what is told then: what is kept, and whether there are two blocks.
type Row = (Bytes, u32, u64, bool, Result<(Kept, bool), OpenFault>);

/// The blocks of a record that has none.
const NEW: Blocks = (84, [None; 3]);

/// Those of a record that has two.
const TWO: Blocks = (100, [Some(0), Some(1), None]);

static ROWS: [Row; 27] = [
    // Leaves that a record doesn't name go.
    (
        Bytes::Whole,
        3,
        0,
        false,
        Ok((([true, true, true, false], 32), false)),
    ),
    (
        Bytes::Whole,
        4,
        0,
        false,
        Ok((([true, true, true, false], 32), false)),
    ),
    (
        Bytes::Changed(46, 3),
        4,
        0,
        false,
        Ok((([true, false, true, true], 32), false)),
    ),
    // Leaves that aren't there are told, and those of other sectors.
    (
        Bytes::Whole,
        0,
        0,
        false,
        Err(OpenFault::Record { at: 24, kind: Leaf }),
    ),
    (
        Bytes::Whole,
        1,
        0,
        false,
        Err(OpenFault::Record { at: 39, kind: Leaf }),
    ),
    (
        Bytes::Whole,
        2,
        0,
        false,
        Err(OpenFault::Record { at: 54, kind: Leaf }),
    ),
    (
        Bytes::Changed(31, 3),
        3,
        0,
        false,
        Err(OpenFault::Record { at: 24, kind: Leaf }),
    ),
    (
        Bytes::Changed(46, 3),
        3,
        0,
        false,
        Err(OpenFault::Record { at: 39, kind: Leaf }),
    ),
    (
        Bytes::Changed(61, 3),
        3,
        0,
        false,
        Err(OpenFault::Record { at: 54, kind: Leaf }),
    ),
    (
        Bytes::Whole,
        3,
        1,
        false,
        Err(OpenFault::Record { at: 24, kind: Leaf }),
    ),
    // Faults of fields and of lengths come before those of leaves.
    (
        Bytes::Changed(11, 1),
        0,
        0,
        false,
        Err(OpenFault::Record {
            at: 10,
            kind: Range,
        }),
    ),
    (
        Bytes::Changed(21, 4),
        0,
        0,
        false,
        Err(OpenFault::Record {
            at: 20,
            kind: Range,
        }),
    ),
    (
        Bytes::Changed(31, 4),
        0,
        0,
        false,
        Err(OpenFault::Record {
            at: 24,
            kind: Range,
        }),
    ),
    (
        Bytes::Changed(46, 0),
        0,
        0,
        false,
        Err(OpenFault::Record {
            at: 39,
            kind: Range,
        }),
    ),
    (
        Bytes::Changed(79, 1),
        0,
        0,
        false,
        Err(OpenFault::Record { at: 80, kind: Cut }),
    ),
    (
        Bytes::Changed(9, 83),
        0,
        0,
        false,
        Err(OpenFault::Record { at: 80, kind: Cut }),
    ),
    (
        Bytes::Changed(9, 85),
        0,
        0,
        false,
        Err(OpenFault::Record { at: 6, kind: Range }),
    ),
    (
        Bytes::Cut(0),
        0,
        0,
        false,
        Err(OpenFault::Record { at: 0, kind: Cut }),
    ),
    (
        Bytes::Cut(3),
        0,
        0,
        false,
        Err(OpenFault::Record { at: 0, kind: Cut }),
    ),
    (
        Bytes::Cut(4),
        0,
        0,
        false,
        Err(OpenFault::Record { at: 4, kind: Cut }),
    ),
    (
        Bytes::Cut(9),
        0,
        0,
        false,
        Err(OpenFault::Record { at: 6, kind: Cut }),
    ),
    (
        Bytes::Cut(10),
        0,
        0,
        false,
        Err(OpenFault::Record { at: 6, kind: Range }),
    ),
    (
        Bytes::Cut(83),
        0,
        0,
        false,
        Err(OpenFault::Record { at: 6, kind: Range }),
    ),
    // Blocks take their stripes, and those that stand twice are told last.
    (
        Bytes::Blocks(2),
        3,
        0,
        false,
        Ok((([true, true, true, false], 30), true)),
    ),
    (
        Bytes::Blocks(1),
        3,
        0,
        false,
        Err(OpenFault::Record {
            at: 172,
            kind: Twice,
        }),
    ),
    (
        Bytes::Blocks(1),
        2,
        0,
        false,
        Err(OpenFault::Record { at: 54, kind: Leaf }),
    ),
    // An area that fails is told.
    (Bytes::Whole, 3, 0, true, Err(OpenFault::Area)),
];

/// Whether that is told.
fn is_told(alloc: Global, row: &Row) -> bool {
    let (bytes, leaves, more, fails, wanted) = *row;
    if more > 1 {
        return false;
    }
    let (bytes, len) = bytes_of(bytes);
    let failing: &[u64] = if fails { &[0] } else { &[] };
    let told = reopened(alloc, &bytes[..len.min(244)], leaves, more, failing);
    match (told, wanted) {
        (Some(Ok((kept, blocks))), Ok((wanted, two))) => {
            kept == wanted && blocks == (if two { TWO } else { NEW })
        }
        (Some(Err(why)), Err(fault)) => why == fault,
        _ => false,
    }
}

#[test]
fn a_record_is_told(rt: HostRuntime) {
    for row in 0..ROWS.len() {
        assert!(rt; is_told(rt.alloc(), &ROWS[row]), "{row}");
    }
}

/// Makes a metaslab, and opens it again from the record of its group 1; or why it isn't made.
fn made<R: Rack, A: Area>(
    alloc: Global,
    layout: Geometry,
    kit: Kit<R, A>,
) -> Result<Result<(Kept, Blocks), OpenFault>, DeviceFault>
    requires layout { IsGeometry layout }
    requires rack { HasJust (R.shape kit.rack) layout.spec.children (metaslab_sectors layout) layout.props.sector }
{
    let perms = Perms::new(layout.spec.children, layout.props.seed);
    match create_metaslab(alloc, 0, layout, perms, kit, 10_000) {
        Ok(shard) => Ok(opened(alloc, layout, into_kit(shard))),
        Err(refused) => Err(refused.why),
    }
}

/// The same, where the calls on the area of odd groups with these numbers fail.
fn made_over(
    alloc: Global,
    failing: &[u64],
) -> Option<Result<Result<(Kept, Blocks), OpenFault>, DeviceFault>> {
    let Ok(layout) = layout(4) else {
        return None;
    };
    match kit(
        alloc,
        &layout,
        layout.spec.children,
        0,
        &[],
        [&[], &[], failing],
    ) {
        Ok(kit) => Some(made(alloc, layout, kit)),
        Err(_) => None,
    }
}

/// How far a new metaslab comes.
#[derive(Clone, Copy)]
enum Course {
    /// It isn't made for its area's failure.
    No,
    /// It is made, and not opened again for that.
    Shut,
    /// It is opened again, with three leaves and 32 free stripes.
    Opened,
}

/// Whether it comes so far where these calls on the area of odd groups fail.
fn is_made(alloc: Global, failing: &[u64], wanted: Course) -> bool {
    match (made_over(alloc, failing), wanted) {
        (Some(Err(why)), Course::No) => why == DeviceFault::Failed,
        (Some(Ok(Err(why))), Course::Shut) => why == OpenFault::Area,
        (Some(Ok(Ok((kept, _)))), Course::Opened) => kept == ([true, true, true, false], 32),
        _ => false,
    }
}

static MADE: [(&[u64], Course); 4] = [
    (&[], Course::Opened),
    (&[0], Course::No),
    (&[1], Course::No),
    (&[2], Course::Shut),
];

// The record of a new metaslab is written and flushed, and then it is read.
#[test]
fn a_new_metaslab_has_a_record(rt: HostRuntime) {
    for row in 0..MADE.len() {
        let (failing, wanted) = MADE[row];
        assert!(rt; is_made(rt.alloc(), failing, wanted), "{row}");
    }
}
