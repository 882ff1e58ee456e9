ghost use Rattle.std.specs.Prelude.{◌≡◌, IfOk};
ghost use Rattle.draid_spec.specs.Geometry.{IsGeometry};

use draid_dtl::Log;
use draid_names::{Arm, ArmKind, NoMemory};
use draid_record::RecordFaultKind::{Cut, Range, Trailing};
use draid_record::{
    Record, RecordFault, RecordFaultKind, UberBody, read_record, read_uber, write_record,
    write_uber,
};
use draid_spec::{Geometry, Props, Spec, SpecFault, geometry, parse_spec};
use std::alloc::Global;

pub(crate) const PROPS: Props = Props {
    sector: 512,
    height: 8,
    metaslabs: 1,
    slices: 4,
    seed: 1,
    version: 1,
};

/// The record of metaslab 0 of a new pool of three disks.
static RECORD: [u8; 84] = [
    0x44, 0x5a, 0x52, 0x43, 0, 1, 0, 0, 0, 84, 0, 0, 0, 0, 0, 0, 0, 0, 0, 1, 0, 3, // the front
    1, 0, 0, 0, 0, 0, 0, 0, 0, 0, 0, 0, 0, 0, 0, // slot 0
    1, 0, 0, 0, 0, 0, 0, 0, 0, 1, 0, 0, 0, 0, 0, // slot 1
    1, 0, 0, 0, 0, 0, 0, 0, 0, 2, 0, 0, 0, 0, 0, // slot 2
    0, 0, 0, 0, 0, 0, 0, 0, 0, 0, 0, 0, 0, 0, 0, 0, 0, // no pass, no runs, no blocks
];

/// The uberblock of that pool.
pub(crate) static UBER: [u8; 51] = [
    0x5a, 0x44, 0x5a, 0x55, 0x42, 0, 1, 0, 0, 0, 0, 0, 0, 0, 1, 1, 2, 3, 0, 0, 0, 2, 0, 0, 0, 0, 8,
    0, 0, 0, 1, 0, 0, 0, 4, 0, 0, 0, 0, 0, 0, 0, 1, 0, 0, 0, 0, 0, 0, 0, 3,
];

/// Whether a record is that of a new pool of three disks.
fn is_new(told: &Record) -> bool {
    told.slots.len() == 3 && told.blocks.is_empty() && told.pass.is_none() && told.last_pass == 0
}

/// Whether that record is told of `bytes`, or its fault.
fn read(alloc: Global, bytes: &[u8], layout: &Geometry) -> Result<bool, RecordFault>
    requires { IsGeometry layout.now }
{
    match read_record(alloc, bytes, layout, 0, 1, 3) {
        Ok(record) => Ok(is_new(&record)),
        Err(fault) => Err(fault),
    }
}

/// What is told of the record where one byte is another.
fn read_changed(
    alloc: Global,
    place: usize,
    byte: u8,
    layout: &Geometry,
) -> Result<bool, RecordFault>
    requires { IsGeometry layout.now }
{
    let mut bytes = RECORD;
    if place < 84 {
        bytes[place] = byte;
    }
    read(alloc, &bytes, layout)
}

/// What is told where the record is cut to so many bytes, and its length says so too, if it shall.
fn read_cut(alloc: Global, len: usize, told: bool, layout: &Geometry) -> Result<bool, RecordFault>
    requires { IsGeometry layout.now }
{
    let mut bytes = [0u8; 85];
    bytes[..84].copy_from_slice(&RECORD);
    if told {
        bytes[9] = len.min(85) as u8;
    }
    read(alloc, &bytes[..len.min(85)], layout)
}

/// The layout of that pool, in this version.
fn small_version(version: u32) -> Result<Geometry, SpecFault>
    ensures { IfOk result IsGeometry }
{
    let props = Props { version, ..PROPS };
    geometry(parse_spec(b"draid1:2d:3c", 3, version)?, props)
}

/// The same in version 1.
pub(crate) fn small_geometry() -> Result<Geometry, SpecFault>
    ensures { IfOk result IsGeometry }
{
    small_version(1)
}

/// What is read.
#[derive(Clone, Copy)]
enum Bytes {
    /// The record.
    Whole,
    /// The record where one byte is another.
    Changed(usize, u8),
    /// Its first bytes, so many.
    Cut(usize),
    /// The same, where its length says so too.
    Said(usize),
}

/// What is told of these.
fn read_bytes(alloc: Global, bytes: Bytes, layout: &Geometry) -> Result<bool, RecordFault>
    requires { IsGeometry layout.now }
{
    match bytes {
        Bytes::Whole => read(alloc, &RECORD, layout),
        Bytes::Changed(place, byte) => read_changed(alloc, place, byte, layout),
        Bytes::Cut(len) => read_cut(alloc, len, false, layout),
        Bytes::Said(len) => read_cut(alloc, len, true, layout),
    }
}

/// Whether it is this by a layout of this version, or the fault at this byte, of this kind.
fn is_read(
    alloc: Global,
    bytes: Bytes,
    version: u32,
    told: Result<bool, (u64, RecordFaultKind)>,
) -> bool {
    let wanted = match told {
        Ok(whole) => Ok(whole),
        Err((at, kind)) => Err(RecordFault::Bad { at, kind }),
    };
    match small_version(version) {
        Ok(layout) => read_bytes(alloc, bytes, &layout) == wanted,
        Err(_) => false,
    }
}

static ROWS: [(Bytes, u32, Result<bool, (u64, RecordFaultKind)>); 25] = [
    (Bytes::Whole, 1, Ok(true)),
    // Faults of ranges.
    (Bytes::Changed(11, 1), 1, Err((10, Range))),
    (Bytes::Changed(19, 2), 1, Err((12, Range))),
    (Bytes::Changed(21, 4), 1, Err((20, Range))),
    (Bytes::Changed(22, 0), 1, Err((22, Range))),
    (Bytes::Changed(23, 2), 1, Err((23, Range))),
    (Bytes::Changed(32, 4), 1, Err((32, Range))),
    (Bytes::Changed(46, 0), 1, Err((39, Range))),
    (Bytes::Changed(61, 3), 1, Err((54, Range))),
    (Bytes::Changed(75, 3), 1, Err((75, Range))),
    (Bytes::Changed(79, 1), 1, Err((80, Cut))),
    // Faults of lengths.
    (Bytes::Cut(0), 1, Err((0, Cut))),
    (Bytes::Cut(3), 1, Err((0, Cut))),
    (Bytes::Cut(4), 1, Err((4, Cut))),
    (Bytes::Cut(5), 1, Err((4, Cut))),
    (Bytes::Cut(6), 1, Err((6, Cut))),
    (Bytes::Cut(9), 1, Err((6, Cut))),
    (Bytes::Cut(10), 1, Err((6, Range))),
    (Bytes::Cut(83), 1, Err((6, Range))),
    (Bytes::Said(83), 1, Err((80, Cut))),
    (Bytes::Said(12), 1, Err((12, Cut))),
    (Bytes::Said(85), 1, Err((84, Trailing))),
    // The version.
    (Bytes::Changed(5, 2), 2, Ok(true)),
    (Bytes::Changed(5, 1), 2, Err((4, Range))),
    (Bytes::Changed(5, 2), 1, Err((4, Range))),
];

#[test]
fn records_are_told(rt: HostRuntime) {
    for row in 0..ROWS.len() {
        let (bytes, version, told) = ROWS[row];
        assert!(rt; is_read(rt.alloc(), bytes, version, told), "{row}");
    }
}

/// What that uberblock tells.
fn body() -> UberBody
    ensures { result
        ≡ record {
          group = 1;
          spec = record { parity = 1; ndata = 2; children = 3; spares = 0 };
          props = record { sector = 512; height = 8; metaslabs = 1; slices = 4; seed = 1; version = 1 };
          next_leaf = 3;
        } }
{
    UberBody {
        group: 1,
        spec: Spec {
            parity: 1,
            ndata: 2,
            children: 3,
            spares: 0,
        },
        props: PROPS,
        next_leaf: 3,
    }
}

/// The bytes that are written of it.
fn uber() -> [u8; 51] {
    write_uber(&body())
}

/// That uberblock, with other bytes at these places.
pub(crate) fn uber_with(changes: &[(usize, u8)]) -> [u8; 51] {
    let mut bytes = UBER;
    for (place, byte) in changes {
        if *place < 51 {
            bytes[*place] = *byte;
        }
    }
    bytes
}

/// Whether this is told of the uberblock with these bytes in a slot, or the fault at this byte, of this kind.
fn is_told(
    changes: &[(usize, u8)],
    slot: u32,
    told: Result<UberBody, (u64, RecordFaultKind)>,
) -> bool {
    let wanted = match told {
        Ok(body) => Ok(body),
        Err((at, kind)) => Err(RecordFault::Bad { at, kind }),
    };
    read_uber(&uber_with(changes), slot) == wanted
}

/// What the uberblock of that pool tells.
const NEW: UberBody = UberBody {
    group: 1,
    spec: Spec {
        parity: 1,
        ndata: 2,
        children: 3,
        spares: 0,
    },
    props: PROPS,
    next_leaf: 3,
};

/// The same in version 2, with 64 children and the next leaf 64.
const WIDE: UberBody = UberBody {
    spec: Spec {
        parity: 1,
        ndata: 2,
        children: 64,
        spares: 0,
    },
    props: Props {
        version: 2,
        ..PROPS
    },
    next_leaf: 64,
    ..NEW
};

/// Bytes of the uberblock that are other ones, its slot, and what is told then: in version 1, and then in version 2.
static UBERS: [(
    &[(usize, u8)],
    u32,
    Result<UberBody, (u64, RecordFaultKind)>,
); 7] = [
    (&[], 1, Ok(NEW)),
    (&[], 0, Err((7, Range))),
    (&[(17, 33)], 1, Err((17, Range))),
    (&[(6, 33)], 1, Err((5, Range))),
    (&[(6, 2), (17, 64), (50, 64)], 1, Ok(WIDE)),
    (&[(6, 2), (17, 65), (50, 65)], 1, Err((17, Range))),
    (&[(6, 2), (17, 64), (50, 63)], 1, Err((43, Range))),
];

#[test]
fn an_uberblock_is_told(rt: HostRuntime) {
    for row in 0..UBERS.len() {
        let (changes, slot, told) = UBERS[row];
        assert!(rt; is_told(changes, slot, told), "{row}");
    }
}

#[test]
fn an_uberblock_is_written(rt: HostRuntime) {
    assert!(rt; uber().as_slice() == UBER.as_slice());
}

/// A slot with the leaf of this number, which missed nothing.
fn leaf(alloc: Global, number: u64) -> Result<Vec<(Arm, Log)>, NoMemory> {
    let mut slot = Vec::new(alloc);
    let arm = Arm {
        kind: ArmKind::Leaf,
        number,
        offline: false,
        fresh: false,
    };
    slot.push((arm, Log::new(alloc)))?;
    Ok(slot)
}

fn written(alloc: Global) -> Result<Vec<u8>, NoMemory> {
    let mut slots = Vec::new(alloc);
    for number in 0..3 {
        slots.push(leaf(alloc, number)?)?;
    }
    let record = Record {
        version: 1,
        metaslab: 0,
        group: 1,
        slots,
        last_pass: 0,
        pass: None,
        blocks: Vec::new(alloc),
    };
    write_record(alloc, &record)
}

/// Whether that record is written so.
fn record_is_written(alloc: Global) -> bool {
    match written(alloc) {
        Ok(bytes) => bytes.as_slice() == RECORD.as_slice(),
        Err(_) => false,
    }
}

#[test]
fn a_record_is_written(rt: HostRuntime) {
    assert!(rt; record_is_written(rt.alloc()));
}
