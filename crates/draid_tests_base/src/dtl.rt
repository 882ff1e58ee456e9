ghost use Rattle.std.specs.Prelude.{◌<◌, ◌^◌, ℕ, All, length};

use draid_dtl::{Log, group, mirror};
use std::alloc::{AllocError, Global};

/// Adds these groups to a log.
fn add(log: &mut Log, groups: &[u64]) -> Result<(), AllocError>
    requires { All (λ (group : ℕ). group < 2 ^ 48) groups.now }
{
    log.reserve(3)?;
    for group in groups {
        log.dirty(*group)?;
    }
    Ok(())
}

/// Whether arms that mirror each other missed the group 3 alone.
fn all_missed(alloc: Global, logs: &[Log]) -> bool
    requires { 0 < length logs.now }
{
    match mirror(alloc, logs) {
        Ok(missed) => missed.count() == 1 && missed.contains(3),
        Err(_) => false,
    }
}

/// Whether two arms of a group with one parity missed it, and no other.
fn two_missed(alloc: Global, logs: &[Log]) -> bool {
    match group(alloc, 1, logs) {
        Ok(missed) => missed.count() == 1 && missed.contains(3),
        Err(_) => false,
    }
}

/// Whether it is so of three arms, and of the first two.
fn are_missed(alloc: Global) -> bool {
    let mut logs = [Log::new(alloc), Log::new(alloc), Log::new(alloc)];
    if add(&mut logs[0], &[2, 3]).is_err() || add(&mut logs[1], &[3]).is_err() {
        return false;
    }
    all_missed(alloc, &logs[..2]) && two_missed(alloc, &logs)
}

/// Whether 3 and 4 are left of a log without the groups up to 2 and above 4.
fn has_the_rest(log: &mut Log) -> bool {
    log.excise(2);
    log.cut_above(4);
    log.count() == 2 && log.contains(3) && log.contains(4)
}

/// Whether they are of a log up to 5.
fn is_cut(alloc: Global) -> bool {
    match Log::upto(alloc, 5) {
        Ok(mut log) => has_the_rest(&mut log),
        Err(_) => false,
    }
}

#[test]
fn logs_say_what_is_missed_and_are_cut(rt: HostRuntime) {
    assert!(rt; are_missed(rt.alloc()));
    assert!(rt; is_cut(rt.alloc()));
}
