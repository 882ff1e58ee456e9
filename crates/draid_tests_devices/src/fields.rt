//! Faults of a record that has all kinds of fields.
ghost use Rattle.std.specs.Prelude.{IfOk};
ghost use Rattle.draid_spec.specs.Geometry.{IsGeometry};

use crate::record::PROPS;
use draid_record::RecordFaultKind::Range;
use draid_record::{RecordFault, RecordFaultKind, read_record};
use draid_spec::{Geometry, SpecFault, geometry, parse_spec};
use std::alloc::Global;

/// The record of group 5 of a metaslab of four children and a spare: two slots have two arms, one of these the spare; logs,
/// a rebuild with two targets, and two blocks.
static RECORD: [u8; 384] = [
    0x44, 0x5a, 0x52, 0x43, 0, 1, 0, 0, 1, 0x80, 0, 0, 0, 0, 0, 0, 0, 0, 0, 5, 0, 4, // front
    2, 0, 0, 0, 0, 0, 0, 0, 0, 0, 1, 0, 0, 0, 2, 0, 0, 0, 0, 0, 0, 0, 1, 0, 0, 0, 0, 0, 0, 0, 2, 0,
    0, 0, 0, 0, 0, 0, 4, 0, 0, 0, 0, 0, 0, 0, 5, // slot 0, arm 0
    0, 0, 0, 0, 0, 0, 0, 0, 4, 2, 0, 0, 0, 1, 0, 0, 0, 0, 0, 0, 0, 1, 0, 0, 0, 0, 0, 0, 0, 3, // slot 0, arm 1
    2, 0, 0, 0, 0, 0, 0, 0, 0, 1, 0, 0, 0, 0, 0, // slot 1, arm 0
    1, 0, 0, 0, 0, 0, 0, 0, 0, 0, 0, 0, 0, 1, 0, 0, 0, 0, 0, 0, 0, 1, 0, 0, 0, 0, 0, 0, 0, 5, // slot 1, arm 1
    1, 0, 0, 0, 0, 0, 0, 0, 0, 2, 0, 0, 0, 0, 0, // slot 2, arm 0
    1, 0, 0, 0, 0, 0, 0, 0, 0, 3, 0, 0, 0, 0, 0, // slot 3, arm 0
    0, 0, 0, 0, 0, 0, 0, 7, // the last pass
    1, 1, 0, 0, 0, 0, 0, 0, 0, 5, 0, 0, 0, 0, 0, 0, 0, 8, 0, 0, 0, 0, 0, 0, 0, 0, 0, 2, 0, 0, 1, 0,
    1, 1, // the pass
    0, 0, 0, 1, 0, 0, 0, 0, 0, 0, 0, 0, 0, 0, 0, 0, 0, 0, 0, 4, // space
    0, 0, 0, 2, 0, 0, 0, 0, 0, 0, 0, 7, 0, 0, 0, 0, 0, 0, 0, 1, 0, 0, 0, 0, 0, 0, 0, 0, 0, 0, 0, 1,
    0, 0, 0, 5, 0, 0, 0, 0, 0, 0, 0, 2, 0, 0, 0, 0, 0, 0, 0, 0, 0, 0, 0, 0, 0, 0, 0, 0, 0, 0, 0, 0,
    0, 0, 0, 0, 0, 0, 0, 0, 0, 0, 0, 0, // block 0
    0, 0, 0, 0, 0, 0, 0, 9, 0, 0, 0, 0, 0, 0, 0, 2, 0, 0, 0, 0, 0, 0, 0, 1, 0, 0, 0, 3, 0, 0, 0x0b,
    0xb8, 0, 0, 0, 0, 0, 0, 0, 5, 0, 0, 0, 0, 0, 0, 0, 0, 0, 0, 0, 0, 0, 0, 0, 0, 0, 0, 0, 0, 0, 0,
    0, 0, 0, 0, 0, 0, 0, 0, 0, 0, // block 1
];

/// Bytes of that record that are other ones, and the first fault then, where there is one.
static ROWS: [(&[(usize, u8)], Result<(), (u64, RecordFaultKind)>); 42] = [
    // It is read.
    (&[], Ok(())),
    // Arms.
    (&[(22, 4)], Err((22, Range))),
    (&[(69, 2)], Err((69, Range))),
    (&[(145, 1)], Err((145, Range))),
    (&[(77, 6)], Err((70, Range))),
    (&[(122, 1)], Err((115, Range))),
    (&[(153, 4)], Err((146, Range))),
    (&[(123, 1)], Err((123, Range))),
    (&[(32, 4)], Err((32, Range))),
    // Logs.
    (&[(44, 0)], Err((37, Range))),
    (&[(44, 3)], Err((45, Range))),
    (&[(60, 3)], Err((53, Range))),
    (&[(54, 1), (60, 0)], Err((53, Range))),
    (&[(62, 1), (68, 0)], Err((61, Range))),
    // The pass.
    (&[(175, 1), (181, 0)], Err((174, Range))),
    (&[(182, 3)], Err((182, Range))),
    (&[(183, 2)], Err((183, Range))),
    (&[(182, 2), (183, 0)], Err((183, Range))),
    (&[(191, 0)], Err((184, Range))),
    (&[(185, 1), (191, 0)], Err((184, Range))),
    (&[(199, 33)], Err((192, Range))),
    (&[(201, 1)], Err((200, Range))),
    (&[(209, 7)], Err((208, Range))),
    (&[(211, 2)], Err((212, Range))),
    (&[(211, 1), (214, 0)], Err((213, Range))),
    (&[(214, 4)], Err((213, Range))),
    (&[(215, 2)], Err((215, Range))),
    (&[(214, 0)], Err((215, Range))),
    // Runs of stripes.
    (&[(227, 1)], Err((216, Range))),
    (&[(235, 5)], Err((216, Range))),
    // Blocks.
    (&[(238, 16), (239, 1)], Err((236, Range))),
    (&[(243, 1), (247, 0)], Err((240, Range))),
    (&[(255, 0)], Err((248, Range))),
    (&[(249, 1), (255, 0)], Err((248, Range))),
    (&[(335, 0)], Err((328, Range))),
    (&[(335, 32)], Err((328, Range))),
    (&[(267, 0)], Err((264, Range))),
    (&[(339, 2)], Err((336, Range))),
    (&[(342, 0), (343, 0)], Err((340, Range))),
    (&[(341, 2), (342, 0), (343, 1)], Err((340, Range))),
    (&[(351, 0)], Err((344, Range))),
    (&[(351, 6)], Err((344, Range))),
];

/// That record, with other bytes at these places.
fn record_with(changes: &[(usize, u8)]) -> [u8; 384] {
    let mut bytes = RECORD;
    for (place, byte) in changes {
        if *place < 384 {
            bytes[*place] = *byte;
        }
    }
    bytes
}

/// The layout of its pool.
fn layout() -> Result<Geometry, SpecFault>
    ensures { IfOk result IsGeometry }
{
    geometry(parse_spec(b"draid1:2d:4c:1s", 4, 1)?, PROPS)
}

/// Whether it is read with these bytes, or has the fault at this byte, of this kind.
fn is_read(
    alloc: Global,
    changes: &[(usize, u8)],
    told: Result<(), (u64, RecordFaultKind)>,
) -> bool {
    let Ok(layout) = layout() else {
        return false;
    };
    match (
        read_record(alloc, &record_with(changes), &layout, 0, 5, 6),
        told,
    ) {
        (Ok(_), Ok(())) => true,
        (Err(fault), Err((at, kind))) => fault == RecordFault::Bad { at, kind },
        _ => false,
    }
}

#[test]
fn faults_of_all_fields_are_told(rt: HostRuntime) {
    for row in 0..ROWS.len() {
        let (changes, told) = ROWS[row];
        assert!(rt; is_read(rt.alloc(), changes, told), "{row}");
    }
}
