//! Check records: which checkpoint a group has, and which blocks that alone keeps.
use draid_record::RecordFaultKind::{Cut, Range};
use draid_record::{CheckBody, Dropped, RecordFault, RecordFaultKind, read_check, write_check};
use std::alloc::Global;

/// The record of group 3, whose checkpoint is that of group 2 and alone keeps two blocks.
static RECORD: [u8; 62] = [
    0x44, 0x5a, 0x43, 0x50, 0, 1, 0, 0, 0, 62, // the front
    0, 0, 0, 0, 0, 0, 0, 3, // the group
    0, 0, 0, 0, 0, 0, 0, 2, 0, 0, 0, 2, // the checkpoint's, and how many blocks
    0, 0, 0, 0, 0, 0, 0, 7, 0, 0, 0, 0, 0, 0, 0, 1, // object 7, the first write
    0, 0, 0, 0, 0, 0, 0, 9, 0, 0, 0, 0, 0, 0, 0, 2, // object 9, the second one
];

static DROPS: [Dropped; 2] = [Dropped { object: 7, seq: 1 }, Dropped { object: 9, seq: 2 }];

/// How many bytes of the record are read, those that are other ones, and the first fault then, where there is one.
static ROWS: [(usize, &[(usize, u8)], Result<(), (u64, RecordFaultKind)>); 29] = [
    (62, &[], Ok(())),
    // Cut.
    (0, &[], Err((0, Cut))),
    (1, &[], Err((0, Cut))),
    (4, &[], Err((4, Cut))),
    (9, &[], Err((6, Cut))),
    (10, &[], Err((6, Range))),
    (61, &[], Err((6, Range))),
    // The front.
    (62, &[(3, 0x51)], Err((0, Range))),
    (62, &[(5, 0)], Err((4, Range))),
    (62, &[(5, 2)], Err((4, Range))),
    // The length.
    (62, &[(9, 0)], Err((10, Cut))),
    (62, &[(9, 17)], Err((10, Cut))),
    (62, &[(9, 18)], Err((18, Cut))),
    (62, &[(9, 29)], Err((26, Cut))),
    (62, &[(9, 30)], Err((6, Range))),
    (62, &[(9, 47)], Err((6, Range))),
    (62, &[(9, 63)], Err((6, Range))),
    // The group, and the checkpoint's.
    (62, &[(17, 2)], Err((10, Range))),
    (62, &[(17, 4)], Err((10, Range))),
    (62, &[(25, 0)], Err((26, Range))),
    (62, &[(25, 4)], Err((18, Range))),
    // How many blocks.
    (62, &[(29, 1)], Err((6, Range))),
    (62, &[(27, 8), (29, 0)], Err((6, Range))),
    (62, &[(27, 8), (29, 1)], Err((26, Range))),
    // Their order.
    (62, &[(37, 10)], Err((46, Range))),
    (62, &[(53, 6)], Err((46, Range))),
    (62, &[(53, 7), (61, 1)], Err((54, Range))),
    (62, &[(53, 7), (61, 0)], Err((54, Range))),
    (62, &[(37, 9), (45, 3)], Err((54, Range))),
];

/// The record where some bytes are other ones.
fn changed(changes: &[(usize, u8)]) -> [u8; 62] {
    let mut bytes = RECORD;
    for (place, byte) in changes {
        if *place < 62 {
            bytes[*place] = *byte;
        }
    }
    bytes
}

/// Whether these are the drops of the record.
fn are_drops(drops: &[Dropped]) -> bool {
    drops.len() == 2 && drops[0] == DROPS[0] && drops[1] == DROPS[1]
}

/// Whether the record of group 3 is told of these bytes, or its fault.
fn read(alloc: Global, bytes: &[u8]) -> Result<bool, RecordFault> {
    match read_check(alloc, bytes, 3) {
        Ok(body) => Ok(body.group == 2 && are_drops(&body.drops)),
        Err(fault) => Err(fault),
    }
}

#[test]
fn check_records_are_told(rt: HostRuntime) {
    for row in 0..ROWS.len() {
        let (len, changes, told) = ROWS[row];
        let wanted = match told {
            Ok(()) => Ok(true),
            Err((at, kind)) => Err(RecordFault::Bad { at, kind }),
        };
        let bytes = changed(changes);
        let len = len.min(62);
        assert!(rt; read(rt.alloc(), &bytes[..len]) == wanted, "{row}");
    }
}

#[test]
fn bytes_behind_a_check_record_are_not_read(rt: HostRuntime) {
    let mut bytes = [0xffu8; 80];
    bytes[..62].copy_from_slice(&RECORD);
    assert!(rt; read(rt.alloc(), &bytes) == Ok(true));
}

/// Whether a record is written as it is read: this checkpoint with so many of the drops.
fn is_written(alloc: Global, group: u64, drops: usize, wanted: &[u8]) -> bool {
    let mut body = CheckBody {
        group,
        drops: Vec::new(alloc),
    };
    for drop in &DROPS[..drops.min(2)] {
        if body.drops.push(*drop).is_err() {
            return false;
        }
    }
    if body.drops.len() > 2 {
        return false;
    }
    match write_check(alloc, &body, 3) {
        Ok(bytes) => bytes.as_slice() == wanted,
        Err(_) => false,
    }
}

#[test]
fn check_records_are_written(rt: HostRuntime) {
    assert!(rt; is_written(rt.alloc(), 2, 2, &RECORD));
    // No checkpoint.
    let none = [
        0x44, 0x5a, 0x43, 0x50, 0, 1, 0, 0, 0, 30, 0, 0, 0, 0, 0, 0, 0, 3, 0, 0, 0, 0, 0, 0, 0, 0,
        0, 0, 0, 0,
    ];
    assert!(rt; is_written(rt.alloc(), 0, 0, &none));
}
