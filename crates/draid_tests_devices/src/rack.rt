ghost use Rattle.std.specs.Prelude.{◌≡◌, ◌≤◌, ◌<◌, ◌==◌, ◌&&◌, ℕ, Some, false, true, nat_lt, OnOk, IfOk, length};
ghost use Rattle.draid_rack.specs.Rack.{Fits, HasJust, OnTold};
ghost use Rattle.draid_rack.specs.Memory.{shape_of_memory, told_by_memory};
ghost use Rattle.draid_rack.specs.Moments.{CrashKeepsOthers, KeptOthers, OnBoth};

use draid_faults::{CrashRule, Fuse};
use draid_names::{At, Failed, NoMemory};
use draid_rack::{MemoryRack, Rack};
use std::alloc::Global;

/// Writes the first three sectors of a leaf and flushes it. At each moment of it every other sector reads as it did,
/// and a crash at such a moment leaves those of them that weren't soft before.
fn write_three<R: Rack>(rack: &mut R, leaf: u64, bytes: &[u8]) -> Result<(), Failed>
    requires place { Fits (R.shape rack.old) leaf 2 (length bytes.now) }
    ensures shape { R.shape rack.new ≡ R.shape rack.old }
    ensures written { OnOk result (OnTold (R.told rack.new) (λ y. (y.reads leaf 0 ≡ Some bytes.now)
        × (y.reads leaf 1 ≡ Some bytes.now) × (y.reads leaf 2 ≡ Some bytes.now) × ((s : ℕ) → y.soft leaf s ≡ false))) }
    ensures others { OnBoth (R.told rack.old) (R.told rack.new) (KeptOthers (λ l s. l == leaf && nat_lt s 3)) }
    ensures crash { OnBoth (R.told rack.old) (R.told rack.new) (CrashKeepsOthers (λ l s. l == leaf && nat_lt s 3)) }
{
    rack.write(leaf, 0, bytes)?;
    rack.write(leaf, 1, bytes)?;
    rack.write(leaf, 2, bytes)?;
    rack.flush(leaf)
}

/// Damages a sector twice. It is harmed then.
fn damage_twice<R: Rack>(rack: &mut R) -> Result<(), Failed>
    requires { HasJust (R.shape rack.old) 2 3 4 }
    ensures shape { HasJust (R.shape rack.new) 2 3 4 }
    ensures harmed { OnOk result (OnTold (R.told rack.new) (λ y. y.harmed 1 0 ≡ true)) }
{
    rack.damage(1, 0)?;
    rack.damage(1, 0)
}

/// Damages a sector, mends another from it and patches that. Both are harmed then, until the other is settled.
fn spread_harm<R: Rack>(rack: &mut R, bytes: &[u8]) -> Result<(), Failed>
    requires { HasJust (R.shape rack.old) 2 3 (length bytes.now) }
    ensures { OnOk result (OnTold (R.told rack.new) (λ y. (y.harmed 0 0 ≡ true) × (y.harmed 1 2 ≡ false)
        × (y.harmed 1 1 ≡ true) × (y.reads 1 2 ≡ Some bytes.now))) }
{
    rack.damage(0, 0)?;
    rack.mend(1, 1, bytes, &[At { leaf: 0, sector: 0 }])?;
    rack.mend(1, 2, bytes, &[At { leaf: 1, sector: 1 }])?;
    rack.patch(1, 2, bytes)?;
    rack.flush(1)?;
    rack.settle(1, 2);
    Ok(())
}

/// Damages a sector, and mends another from it. Both are harmed then.
fn mend_from_damage<R: Rack>(rack: &mut R, bytes: &[u8]) -> Result<(), Failed>
    requires { HasJust (R.shape rack.old) 2 3 (length bytes.now) }
    ensures shape { R.shape rack.new ≡ R.shape rack.old }
    ensures harmed { OnOk result (OnTold (R.told rack.new) (λ y. (y.harmed 0 0 ≡ true) × (y.harmed 1 1 ≡ true))) }
{
    rack.damage(0, 0)?;
    rack.mend(1, 1, bytes, &[At { leaf: 0, sector: 0 }])
}

/// Harms two sectors and gives the rack a crash. Both are still harmed, and nothing is soft.
fn crash_with_harm(rack: &mut MemoryRack, bytes: &[u8]) -> Result<(), Failed>
    requires { HasJust (shape_of_memory rack.old) 2 3 (length bytes.now) }
    ensures shape { shape_of_memory rack.new ≡ shape_of_memory rack.old }
    ensures harmed { OnOk result (OnTold (told_by_memory rack.new) (λ y. (y.harmed 0 0 ≡ true) × (y.harmed 1 1 ≡ true)
        × (y.soft 1 1 ≡ false))) }
{
    mend_from_damage(rack, bytes)?;
    rack.crash(CrashRule::Old);
    Ok(())
}

/// A rack of two leaves, each of three sectors of four bytes.
fn small_rack(alloc: Global, failing: Vec<u64>) -> Result<MemoryRack, NoMemory>
    ensures { IfOk result (λ rack. HasJust (shape_of_memory rack) 2 3 4) }
{
    MemoryRack::new(alloc, 2, 3, 4, failing)
}

fn write<R: Rack>(rack: &mut R, sector: u64, bytes: [u8; 4]) -> Result<(), Failed>
    requires just { HasJust (R.shape rack.old) 2 3 4 }
    requires there { sector < 3 }
    ensures { HasJust (R.shape rack.new) 2 3 4 }
{
    rack.write(1, sector, &bytes)
}

fn read<R: Rack>(rack: &mut R, sector: u64) -> Result<[u8; 4], Failed>
    requires just { HasJust (R.shape rack.old) 2 3 4 }
    requires there { sector < 3 }
    ensures { HasJust (R.shape rack.new) 2 3 4 }
{
    let mut bytes = [9; 4];
    rack.read(1, sector, &mut bytes)?;
    Ok(bytes)
}

fn flush<R: Rack>(rack: &mut R) -> Result<(), Failed>
    requires { HasJust (R.shape rack.old) 2 3 4 }
    ensures { HasJust (R.shape rack.new) 2 3 4 }
{
    rack.flush(1)
}

/// Whether two writes and three reads answer as they have to, where the calls 2 and 3 fail.
fn calls(rack: &mut MemoryRack) -> bool
    requires { HasJust (shape_of_memory rack.old) 2 3 4 }
{
    if write(rack, 2, [1; 4]).is_err() || read(rack, 1) != Ok([0; 4]) {
        return false;
    }
    if write(rack, 2, [5; 4]).is_ok() || read(rack, 2).is_ok() {
        return false;
    }
    read(rack, 2) == Ok([1; 4])
}

/// Whether the first leaf from 2 on is leaf 7 once that is added, and leaf 1 has no sectors once it is dropped.
fn changes_leaves(rack: &mut MemoryRack) -> bool {
    let added = rack.add_leaf(7, 2).is_ok();
    rack.drop_leaf(1);
    added && rack.leaf_from(2) == Some(7) && rack.sectors(1).is_none()
}

/// Writes two sectors and flushes them, and writes the second twice more.
fn write_more(rack: &mut MemoryRack) -> Result<(), Failed>
    requires { HasJust (shape_of_memory rack.old) 2 3 4 }
    ensures { HasJust (shape_of_memory rack.new) 2 3 4 }
{
    write(rack, 0, [1, 2, 3, 4])?;
    write(rack, 1, [1, 2, 3, 4])?;
    flush(rack)?;
    write(rack, 1, [9; 4])?;
    write(rack, 1, [5, 6, 7, 8])
}

/// What is read of both after a crash by this rule.
fn left_by(rack: &mut MemoryRack, rule: CrashRule) -> Result<[[u8; 4]; 2], Failed>
    requires { HasJust (shape_of_memory rack.old) 2 3 4 }
{
    write_more(rack)?;
    rack.crash(rule);
    Ok([read(rack, 0)?, read(rack, 1)?])
}

/// Whether a fuse of two calls lets just two pass, and the second one is still read after the crash.
fn is_fused(rack: &mut MemoryRack) -> bool
    requires { HasJust (shape_of_memory rack.old) 2 3 4 }
{
    if write(rack, 0, [1; 4]).is_err() || read(rack, 0) != Ok([1; 4]) {
        return false;
    }
    if write(rack, 0, [2; 4]).is_ok() || flush(rack).is_ok() {
        return false;
    }
    rack.crash(CrashRule::New);
    read(rack, 0) == Ok([1; 4])
}

/// Whether one does so that is put into a rack.
fn behind_a_fuse(rack: &mut MemoryRack, alloc: Global) -> bool
    requires { HasJust (shape_of_memory rack.old) 2 3 4 }
{
    match Fuse::new(alloc, 2) {
        Ok(fuse) => {
            rack.put_fuse(fuse);
            is_fused(rack)
        }
        Err(_) => false,
    }
}

/// What is read of a sector that was damaged twice. Harm is spread then, and settled.
fn damaged(rack: &mut MemoryRack) -> Result<[u8; 4], Failed>
    requires { HasJust (shape_of_memory rack.old) 2 3 4 }
{
    write(rack, 0, [1, 2, 3, 4])?;
    damage_twice(rack)?;
    let back = read(rack, 0)?;
    spread_harm(rack, &[1, 2, 3, 4])?;
    Ok(back)
}

/// What is read of a sector that was mended from a harmed one and not flushed before a crash.
fn harmed(rack: &mut MemoryRack) -> Result<[u8; 4], Failed>
    requires { HasJust (shape_of_memory rack.old) 2 3 4 }
{
    crash_with_harm(rack, &[6; 4])?;
    read(rack, 1)
}

/// What is read of the last of three sectors that were written and flushed before a crash.
fn third(rack: &mut MemoryRack) -> Result<[u8; 4], Failed>
    requires { HasJust (shape_of_memory rack.old) 2 3 4 }
{
    write_three(rack, 1, &[1, 2, 3, 4])?;
    rack.crash(CrashRule::Torn);
    read(rack, 2)
}

/// What is tried on a rack of zeros.
#[derive(Clone, Copy)]
enum Trial {
    Calls,
    Leaves,
    /// A crash by this rule leaves this of what wasn't flushed.
    Crash { rule: CrashRule, left: [u8; 4] },
    Fuse,
    Damage,
    Harm,
    Third,
}

/// Whether a rack does as it has to in a trial.
fn stands(rack: &mut MemoryRack, alloc: Global, trial: Trial) -> bool
    requires { HasJust (shape_of_memory rack.old) 2 3 4 }
{
    match trial {
        Trial::Calls => calls(rack),
        Trial::Leaves => changes_leaves(rack),
        Trial::Crash { rule, left } => left_by(rack, rule) == Ok([[1, 2, 3, 4], left]),
        Trial::Fuse => behind_a_fuse(rack, alloc),
        Trial::Damage => damaged(rack) == Ok([1, 2, 3, 4]),
        Trial::Harm => harmed(rack) == Ok([0; 4]),
        Trial::Third => third(rack) == Ok([1, 2, 3, 4]),
    }
}

/// Whether a rack of zeros does, of which these calls fail.
fn stand(alloc: Global, failing: &[u64], trial: Trial) -> bool {
    let Ok(failing) = Vec::from_slice(alloc, failing) else {
        return false;
    };
    match small_rack(alloc, failing) {
        Ok(mut rack) => stands(&mut rack, alloc, trial),
        Err(_) => false,
    }
}

/// What is tried, the calls that fail, and what that shows.
static TRIALS: [(Trial, &[u64], &str); 10] = [
    (Trial::Calls, &[2, 3], "the calls of the list fail alone"),
    (Trial::Leaves, &[], "leaves are added and dropped"),
    (
        Trial::Crash {
            rule: CrashRule::Old,
            left: [1, 2, 3, 4],
        },
        &[],
        "a crash leaves what was flushed, and the rest by the old rule",
    ),
    (
        Trial::Crash {
            rule: CrashRule::New,
            left: [5, 6, 7, 8],
        },
        &[],
        "by the new one",
    ),
    (
        Trial::Crash {
            rule: CrashRule::Torn,
            left: [250, 249, 248, 247],
        },
        &[],
        "by the torn one",
    ),
    (
        Trial::Crash {
            rule: CrashRule::Half,
            left: [5, 6, 3, 4],
        },
        &[],
        "by halves",
    ),
    (Trial::Fuse, &[], "a fuse lets just its calls pass"),
    (
        Trial::Damage,
        &[],
        "damage is undone by damage, and harm is spread",
    ),
    (Trial::Harm, &[], "harm outlasts a crash"),
    (Trial::Third, &[], "flushes outlast a crash"),
];

#[test]
fn racks_do_as_they_have_to(rt: HostRuntime) {
    for (trial, failing, shown) in TRIALS.iter() {
        assert!(rt; stand(rt.alloc(), failing, *trial), "{shown}");
    }
}
