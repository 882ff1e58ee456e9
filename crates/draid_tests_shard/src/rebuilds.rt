//! Stripes of a rebuild are lent, solved, and land.

use crate::disks::{Fault, Step, Told, passes};
use draid_names::{ArmKind, PassKind};

/// What is shown, the calls of the rack that fail, what is done, and what is told then.
type Row = (
    &'static str,
    &'static [u64],
    &'static [(Step, Fault)],
    &'static [Told],
);

// The columns stand on the slots 4, 2 and 3, spare 0 at slot 0 and spare 1 at slot 1. A write makes 3 calls of the rack, a commit
// flushes each of the 5 leaves, and a lend reads 3 columns; so call 8 reads the first, and call 11 writes to the target.
static ROWS: [Row; 7] = [
    (
        "a stripe lands on its target, and is lent from that",
        &[],
        &[
            (Step::Write, None),
            (Step::Spare(2, 0), None),
            (Step::Plan(PassKind::Rebuild, Ok(1)), None),
            (Step::Sync, None),
            (Step::Ready(true), None),
            (Step::Lend([true; 3]), None),
            (Step::Land(0, 1), None),
            (Step::End(0, 1), None),
            (Step::Offline(2), None),
            (Step::Spare(3, 1), None),
            (Step::Plan(PassKind::Rebuild, Ok(2)), None),
            (Step::Sync, None),
            (Step::Ready(true), None),
            (Step::Lend([true; 3]), None),
            (Step::Land(0, 1), None),
            (Step::End(0, 1), None),
        ],
        &[
            (2, 1, ArmKind::Spare, 0, false, false, 0),
            (3, 1, ArmKind::Spare, 1, false, false, 0),
        ],
    ),
    (
        "a column without a source is solved, lands, and is lent",
        &[],
        &[
            (Step::Write, None),
            (Step::Spare(2, 0), None),
            (Step::Plan(PassKind::Rebuild, Ok(1)), None),
            (Step::Sync, None),
            (Step::Ready(true), None),
            (Step::Offline(2), None),
            (Step::Lend([true, false, true]), None),
            (Step::Land(0, 1), None),
            (Step::End(0, 1), None),
            (Step::Spare(3, 1), None),
            (Step::Plan(PassKind::Rebuild, Ok(2)), None),
            (Step::Sync, None),
            (Step::Ready(true), None),
            (Step::Lend([true; 3]), None),
            (Step::Land(0, 1), None),
            (Step::End(0, 1), None),
        ],
        &[(2, 1, ArmKind::Spare, 0, false, false, 0)],
    ),
    (
        "a column is solved whose reading fails",
        &[8],
        &[
            (Step::Write, None),
            (Step::Spare(2, 0), None),
            (Step::Plan(PassKind::Rebuild, Ok(1)), None),
            (Step::Sync, None),
            (Step::Ready(true), None),
            (Step::Lend([false, true, true]), None),
            (Step::Land(0, 1), None),
            (Step::End(0, 1), None),
        ],
        &[(2, 1, ArmKind::Spare, 0, false, false, 0)],
    ),
    (
        "nothing lands where more columns are missing than the parity solves",
        &[],
        &[
            (Step::Write, None),
            (Step::Spare(2, 0), None),
            (Step::Plan(PassKind::Rebuild, Ok(1)), None),
            (Step::Sync, None),
            (Step::Ready(true), None),
            (Step::Offline(2), None),
            (Step::Offline(3), None),
            (Step::Lend([true, false, false]), None),
            (Step::Land(1, 1), None),
            (Step::End(1, 0), None),
        ],
        &[(2, 1, ArmKind::Spare, 0, false, true, 3)],
    ),
    (
        "a target on a leaf that is offline is lost",
        &[],
        &[
            (Step::Write, None),
            (Step::Spare(2, 0), None),
            (Step::Spare(3, 1), None),
            (Step::Plan(PassKind::Rebuild, Ok(1)), None),
            (Step::Sync, None),
            (Step::Ready(true), None),
            (Step::Offline(0), None),
            (Step::Lend([true; 3]), None),
            (Step::Land(1, 1), None),
            (Step::End(1, 0), None),
        ],
        &[
            (2, 1, ArmKind::Spare, 0, false, true, 3),
            (3, 1, ArmKind::Spare, 1, false, true, 3),
        ],
    ),
    (
        "a target on whose leaf a call fails is lost",
        &[11],
        &[
            (Step::Write, None),
            (Step::Spare(2, 0), None),
            (Step::Plan(PassKind::Rebuild, Ok(1)), None),
            (Step::Sync, None),
            (Step::Ready(true), None),
            (Step::Lend([true; 3]), None),
            (Step::Land(1, 0), None),
            (Step::End(1, 0), None),
        ],
        &[(2, 1, ArmKind::Spare, 0, false, true, 3)],
    ),
    (
        "a stripe without a target's column lands on none",
        &[],
        &[
            (Step::Write, None),
            (Step::Spare(1, 0), None),
            (Step::Plan(PassKind::Rebuild, Ok(1)), None),
            (Step::Sync, None),
            (Step::Ready(true), None),
            (Step::Offline(0), None),
            (Step::Lend([true; 3]), None),
            (Step::Land(0, 1), None),
            (Step::Cancel, None),
        ],
        &[(1, 1, ArmKind::Spare, 0, false, true, 3)],
    ),
];

#[test]
fn stripes_land(rt: HostRuntime) {
    for (shown, failing, steps, told) in ROWS.iter() {
        assert!(rt; passes(rt.alloc(), failing, steps, told), "{shown}");
    }
}
