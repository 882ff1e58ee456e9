use draid_faults::{CrashRule, leave};

static LEFT: [(CrashRule, [u8; 3]); 4] = [
    (CrashRule::Old, [1, 2, 3]),
    (CrashRule::New, [4, 5, 6]),
    (CrashRule::Torn, [251, 250, 249]),
    (CrashRule::Half, [4, 2, 3]),
];

/// What a crash by this rule leaves of the bytes 1, 2 and 3, where 4, 5 and 6 were written over them.
fn left_by(rule: CrashRule) -> [u8; 3] {
    let mut bytes = [1, 2, 3];
    leave(rule, &mut bytes, &[4, 5, 6]);
    bytes
}

#[test]
fn leaves_by_the_rule(rt: HostRuntime) {
    for (rule, left) in LEFT.iter() {
        assert!(rt; left_by(*rule) == *left);
    }
}
