ghost use Rattle.draid_rack.specs.Memory.{shape_of_memory};
ghost use Rattle.draid_rack.specs.Rack.{HasJust};

use crate::devices::rack;
use draid_columns::{Rows, flush_leaves, read_rows, write_rows};
use draid_rack::MemoryRack;
use std::alloc::Global;

/// Whether the writing of two rows and then their reading are done, and the first byte that was read of each row.
fn rows(rack: &mut MemoryRack) -> ([bool; 2], [u8; 2])
    requires { HasJust (shape_of_memory rack.old) 2 4 512 }
{
    let rows = Rows {
        leaf: 1,
        first: 1,
        count: 2,
        size: 512,
    };
    let mut bytes = [0; 1024];
    let written = write_rows(rack, rows, &[7; 1024]).is_ok();
    let read = read_rows(rack, rows, &mut bytes).is_ok();
    ([written, read], [bytes[0], bytes[512]])
}

/// Whether it is so over two leaves of four sectors, where the calls with these numbers fail.
fn has_rows(alloc: Global, failing: &[u64], done: [bool; 2], bytes: [u8; 2]) -> bool {
    match rack(alloc, 2, 4, 512, failing) {
        Ok(mut rack) => rows(&mut rack) == (done, bytes),
        Err(_) => false,
    }
}

/// The calls that fail, which of the two is done, and the bytes that are read.
static ROWS: [(&[u64], [bool; 2], [u8; 2]); 5] = [
    (&[], [true, true], [7, 7]),
    (&[0], [false, true], [0, 0]),
    (&[1], [false, true], [7, 0]),
    (&[2], [true, false], [0, 0]),
    (&[3], [true, false], [7, 0]),
];

// Rows are tried one after another, up to the first that fails.
#[test]
fn rows_stop_where_a_call_fails(rt: HostRuntime) {
    for row in 0..ROWS.len() {
        let (failing, done, bytes) = ROWS[row];
        assert!(rt; has_rows(rt.alloc(), failing, done, bytes), "{row}");
    }
}

/// Whether a flush of both leaves lists just these as failed.
fn lists(alloc: Global, rack: &mut MemoryRack, wanted: &[u64]) -> bool
    requires { HasJust (shape_of_memory rack.old) 2 4 512 }
{
    match Vec::with_capacity(alloc, 2) {
        Ok(mut failed) => {
            flush_leaves(rack, &[0, 1], &mut failed);
            failed.as_slice() == wanted
        }
        Err(_) => false,
    }
}

/// Whether those are listed whose flushes are to fail.
fn lists_failed(alloc: Global, failing: &[u64]) -> bool {
    match rack(alloc, 2, 4, 512, failing) {
        Ok(mut rack) => lists(alloc, &mut rack, failing),
        Err(_) => false,
    }
}

fn each_is_listed(alloc: Global) -> bool {
    lists_failed(alloc, &[]) && lists_failed(alloc, &[0]) && lists_failed(alloc, &[1])
}

#[test]
fn a_failed_flush_is_listed(rt: HostRuntime) {
    assert!(rt; each_is_listed(rt.alloc()));
}
