use draid_checkpoint::{Check, DroppedIn};
use std::alloc::Global;

/// A checkpoint of group 5 that alone keeps two blocks.
fn check(alloc: Global) -> Option<Check> {
    let mut check = Check::at(alloc, 5, 1).ok()?;
    check.drop_block(7, 1, 6);
    check.reserve(1).ok()?;
    check.drop_block(9, 2, 8);
    Some(check)
}

#[test]
fn checkpoints_keep_what_was_born_up_to_them(rt: HostRuntime) {
    let Some(check) = check(rt.alloc()) else {
        assert!(rt; false);
        return;
    };
    assert!(rt; check.group() == Some(5));
    assert!(rt; check.holds(5) && !check.holds(6));
    let [first, second] = check.drops() else {
        assert!(rt; false);
        return;
    };
    assert!(rt;
        *first
            == DroppedIn {
                object: 7,
                seq: 1,
                group: 6
            }
    );
    assert!(rt;
        *second
            == DroppedIn {
                object: 9,
                seq: 2,
                group: 8
            }
    );
    let none = Check::none(rt.alloc());
    assert!(rt; none.group().is_none() && !none.holds(0) && none.drops().is_empty());
}
