use draid_perm::{Perms, shuffle};

/// Whether these are the first four children of a slice.
fn begins_with(children: u32, seed: u64, slice: u64, wanted: &[u32; 4]) -> bool {
    if children < 4 || children > 64 {
        return false;
    }
    let perms = Perms::new(children, seed);
    for position in 0..4 {
        if perms.child(slice, position) != wanted[position as usize] {
            return false;
        }
    }
    true
}

/// Whether a row is shuffled by these draws.
fn is_shuffled() -> bool {
    let mut row = [0, 1, 2, 3];
    shuffle(&mut row, &[5, 9, 1]);
    row == [2, 3, 0, 1]
}

// The rows of a second program, which follows the published code of the generator.
static SLICES: [(u32, u64, u64, [u32; 4]); 5] = [
    (4, 1, 0, [1, 2, 3, 0]),
    (4, 9, 0, [2, 3, 0, 1]),
    (4, 9, 1, [3, 0, 1, 2]),
    (11, 1, 15 * 11, [10, 4, 0, 3]),
    (32, 7, 15 * 32, [11, 16, 20, 2]),
];

#[test]
fn slices_are_turned(rt: HostRuntime) {
    for (children, seed, slice, wanted) in SLICES.iter() {
        assert!(rt; begins_with(*children, *seed, *slice, wanted));
    }
}

#[test]
fn rows_are_shuffled_and_positions_found(rt: HostRuntime) {
    assert!(rt; is_shuffled());
    assert!(rt; Perms::new(4, 9).position(1, 1) == 2);
}
