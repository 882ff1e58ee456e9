ghost use Rattle.std.specs.Prelude.{◌≡◌, ◌≤◌, ◌+◌, IfOk, OnOk, length};
ghost use Rattle.draid_area.specs.Area.{within};
ghost use Rattle.draid_area.specs.Memory.{size_of_memory};
ghost use Rattle.draid_area.specs.Moments.{CrashKeeps, LeavesWritten, OnBoth};

use draid_area::{Area, DeviceFault, MemoryArea};
use draid_faults::{CrashRule, Fuse};
use std::alloc::{AllocError, Global};

// The form that an uberblock's slot is written in: what a crash leaves of the other half doesn't depend on
// the moment, and after an Ok it leaves just what was written.
fn write_half<A: Area>(area: &mut A, at: u64, half: &[u8]) -> Result<(), DeviceFault>
    requires size { A.size area.old ≡ 1024 }
    requires half { (at ≤ 512) × (length half.now ≡ 512) }
    ensures size { A.size area.new ≡ 1024 }
    ensures others { OnBoth (A.told area.old) (A.told area.new) (CrashKeeps (within at 512)) }
    ensures outlasts { OnOk result (OnBoth (A.told area.old) (A.told area.new) (LeavesWritten at half.now)) }
{
    area.write(at, half)?;
    area.flush()
}

fn read<A: Area>(area: &mut A, at: u64) -> Result<[u8; 4], DeviceFault>
    requires { at + 4 ≤ A.size area.old }
    ensures { A.size area.new ≡ A.size area.old }
{
    let mut bytes = [9; 4];
    area.read(at, &mut bytes)?;
    Ok(bytes)
}

/// Reads where there are enough bytes.
fn read_some<A: Area>(area: &mut A, at: u64) -> Result<[u8; 4], DeviceFault> {
    let mut bytes = [9; 4];
    if at <= 1020 && at + 4 <= area.length() {
        area.read(at, &mut bytes)?;
    }
    Ok(bytes)
}

/// An area of 1,024 zero bytes.
fn zeros(alloc: Global, failing: Vec<u64>) -> Result<MemoryArea, AllocError>
    ensures { IfOk result (λ area. size_of_memory area ≡ 1024) }
{
    let bytes = vec![in alloc; 0; 1024]?;
    Ok(MemoryArea::new(alloc, bytes, failing)?)
}

/// Whether two writes of halves, a read over their border and the length answer as they have to, where the calls 2 and 5 fail.
fn half_by_half(area: &mut MemoryArea) -> bool
    requires { size_of_memory area.old ≡ 1024 }
{
    if write_half(area, 512, &[1; 512]).is_err() {
        return false;
    }
    if write_half(area, 0, &[2; 512]) != Err(DeviceFault::Failed) {
        return false;
    }
    read(area, 510) == Ok([0, 0, 1, 1]) && area.length() == 1024
}

/// What is read at four places of an area.
fn read_four(area: &mut MemoryArea) -> Result<[[u8; 4]; 4], DeviceFault> {
    Ok([
        read_some(area, 0)?,
        read_some(area, 254)?,
        read_some(area, 512)?,
        read_some(area, 1020)?,
    ])
}

/// What is read after a crash by this rule of an area whose second half was flushed.
fn halves_left(area: &mut MemoryArea, rule: CrashRule) -> Result<[[u8; 4]; 4], DeviceFault>
    requires { size_of_memory area.old ≡ 1024 }
{
    write_half(area, 512, &[1; 512])?;
    area.write(0, &[2; 512])?;
    area.crash(rule);
    read_four(area)
}

/// Whether it is this, and the area as long as before.
fn are_left(area: &mut MemoryArea, rule: CrashRule, front: [u8; 4], middle: [u8; 4]) -> bool
    requires { size_of_memory area.old ≡ 1024 }
{
    halves_left(area, rule) == Ok([front, middle, [1; 4], [1; 4]]) && area.length() == 1024
}

/// The length after a crash by this rule, where four bytes were written behind the end.
fn length_left(area: &mut MemoryArea, rule: CrashRule) -> Result<u64, DeviceFault>
    requires { size_of_memory area.old ≡ 1024 }
{
    area.write(8, &[9; 4])?;
    area.write(1024, &[7; 4])?;
    area.crash(rule);
    Ok(area.length())
}

/// What is read behind a crash by this rule, where the first of two writes of a half is done, and neither the second nor a
/// read behind it.
fn around_a_crash(area: &mut MemoryArea, rule: CrashRule) -> Option<[u8; 4]>
    requires { size_of_memory area.old ≡ 1024 }
{
    let failed = DeviceFault::Failed;
    write_half(area, 0, &[1; 512]).ok()?;
    if write_half(area, 0, &[2; 512]) != Err(failed) || read(area, 0) != Err(failed) {
        return None;
    }
    area.crash(rule);
    read_some(area, 0).ok()
}

/// Whether this is so read, where a fuse lets two calls pass.
fn behind_a_fuse(area: &mut MemoryArea, alloc: Global, rule: CrashRule, left: u8) -> bool
    requires { size_of_memory area.old ≡ 1024 }
{
    match Fuse::new(alloc, 2) {
        Ok(fuse) => {
            area.put_fuse(fuse);
            around_a_crash(area, rule) == Some([left; 4])
        }
        Err(_) => false,
    }
}

/// What is tried on an area of zeros.
#[derive(Clone, Copy)]
enum Trial {
    Calls,
    /// What a crash leaves at the front and in the middle of an area whose second half was flushed.
    Halves { front: [u8; 4], middle: [u8; 4] },
    /// The length that a crash leaves.
    Length { length: u64 },
    /// The byte that a crash leaves of a write behind which a fuse lets no call pass.
    Fuse { left: u8 },
}

/// Whether an area does as it has to in a trial, where crashes are by this rule.
fn stands(area: &mut MemoryArea, alloc: Global, rule: CrashRule, trial: Trial) -> bool
    requires { size_of_memory area.old ≡ 1024 }
{
    match trial {
        Trial::Calls => half_by_half(area),
        Trial::Halves { front, middle } => are_left(area, rule, front, middle),
        Trial::Length { length } => length_left(area, rule) == Ok(length),
        Trial::Fuse { left } => behind_a_fuse(area, alloc, rule, left),
    }
}

/// Whether an area of zeros does, of which these calls fail.
fn stand(alloc: Global, failing: &[u64], rule: CrashRule, trial: Trial) -> bool {
    let Ok(failing) = Vec::from_slice(alloc, failing) else {
        return false;
    };
    match zeros(alloc, failing) {
        Ok(mut area) => stands(&mut area, alloc, rule, trial),
        Err(_) => false,
    }
}

/// What is tried, the calls that fail, by which rule a crash goes, and what that shows.
static TRIALS: [(Trial, &[u64], CrashRule, &str); 9] = [
    (
        Trial::Calls,
        &[2, 5],
        CrashRule::New,
        "the calls of the list fail alone",
    ),
    (
        Trial::Halves {
            front: [0; 4],
            middle: [0; 4],
        },
        &[],
        CrashRule::Old,
        "a crash leaves the half that was flushed",
    ),
    (
        Trial::Halves {
            front: [2; 4],
            middle: [2; 4],
        },
        &[],
        CrashRule::New,
        "and the other one as it was written",
    ),
    (
        Trial::Halves {
            front: [253; 4],
            middle: [253; 4],
        },
        &[],
        CrashRule::Torn,
        "or torn",
    ),
    (
        Trial::Halves {
            front: [2; 4],
            middle: [2, 2, 0, 0],
        },
        &[],
        CrashRule::Half,
        "or half",
    ),
    (
        Trial::Length { length: 1024 },
        &[],
        CrashRule::Old,
        "a crash leaves the length by its rule",
    ),
    (
        Trial::Length { length: 1028 },
        &[],
        CrashRule::Half,
        "or the new length",
    ),
    (
        Trial::Fuse { left: 1 },
        &[],
        CrashRule::New,
        "a fuse lets just its calls pass",
    ),
    (
        Trial::Fuse { left: 254 },
        &[],
        CrashRule::Torn,
        "a fuse lets just its calls pass, and the rest is torn",
    ),
];

#[test]
fn areas_do_as_they_have_to(rt: HostRuntime) {
    for (trial, failing, rule, shown) in TRIALS.iter() {
        assert!(rt; stand(rt.alloc(), failing, *rule, *trial), "{shown}");
    }
}
