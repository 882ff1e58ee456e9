ghost use Rattle.std.specs.Prelude.{◌≡◌, ◌+◌, ◌≤◌, IfOk, IfSome, length};
ghost use Rattle.draid_area.specs.Area.{OnTold};
ghost use Rattle.draid_area.specs.Memory.{size_of_memory, told_by_memory};
ghost use Rattle.draid_spec.specs.Geometry.{IsGeometry};
ghost use Rattle.draid_uber.specs.Uber.{IsNewArea, Valid};

use crate::record::{UBER, small_geometry, uber_with};
use draid_area::{Area, DeviceFault, MemoryArea};
use draid_checkpoint::Check;
use draid_faults::{CrashRule, Fuse};
use draid_names::LAST_NUMBER;
use draid_record::RecordFaultKind::Range;
use draid_spec::Geometry;
use draid_uber::{Areas, Uber, UberFault};
use std::alloc::{AllocError, Global};

/// The area of a new pool.
fn zeros(alloc: Global) -> Result<MemoryArea, AllocError>
    ensures new { IfOk result (λ area. OnTold (told_by_memory area) IsNewArea) }
    ensures size { IfOk result (λ area. size_of_memory area ≡ 1024) }
{
    let bytes = vec![in alloc; 0; 1024]?;
    Ok(MemoryArea::new(alloc, bytes, Vec::new(alloc))?)
}

/// An area without a byte.
fn nothing(alloc: Global) -> Result<MemoryArea, AllocError> {
    Ok(MemoryArea::new(alloc, Vec::new(alloc), Vec::new(alloc))?)
}

/// The areas of a pool of which this is that of the uberblock, and which has no check record.
fn areas_of(alloc: Global, uber: MemoryArea) -> Result<Areas<MemoryArea>, AllocError>
    ensures { IfOk result (λ areas. areas.uber ≡ uber) }
{
    let even = nothing(alloc)?;
    let odd = nothing(alloc)?;
    Ok(Areas { uber, even, odd })
}

/// The uberblock of a new pool in an area of zeros.
fn create(alloc: Global, geometry: Geometry, areas: Areas<MemoryArea>) -> Option<Uber<MemoryArea>>
    requires layout { IsGeometry geometry }
    requires size { size_of_memory areas.uber ≡ 1024 }
    requires new { OnTold (told_by_memory areas.uber) IsNewArea }
    ensures { IfSome result (Valid size_of_memory) }
{
    match Uber::create(alloc, geometry, areas) {
        Ok(uber) => Some(uber),
        Err(_) => None,
    }
}

/// That of three disks, whose area fails once so many calls have passed.
fn created(alloc: Global, calls: u64) -> Option<Uber<MemoryArea>>
    ensures { IfSome result (Valid size_of_memory) }
{
    let Ok(geometry) = small_geometry() else {
        return None;
    };
    let fuse = Fuse::new(alloc, calls).ok()?;
    match zeros(alloc) {
        Ok(mut area) => {
            area.put_fuse(fuse);
            let areas = areas_of(alloc, area).ok()?;
            create(alloc, geometry, areas)
        }
        Err(_) => None,
    }
}

/// Commits the group behind the committed one.
fn commit_next(uber: &mut Uber<MemoryArea>) -> Result<(), DeviceFault>
    requires { Valid size_of_memory uber.old }
    ensures { Valid size_of_memory uber.new }
{
    let group = uber.committed();
    if group >= LAST_NUMBER - 1 {
        return Ok(());
    }
    uber.commit(group + 1)
}

/// What a recovery answers: the committed group, or why there is none.
fn recovered(alloc: Global, areas: Areas<MemoryArea>) -> Result<u64, UberFault> {
    match Uber::recover(alloc, areas) {
        Ok(uber) => Ok(uber.committed()),
        Err(refused) => Err(refused.why),
    }
}

/// Whether the group behind this one is committed next, and recovered.
fn goes_on(alloc: Global, uber: Uber<MemoryArea>, group: u64) -> bool
    requires { Valid size_of_memory uber }
{
    let mut uber = uber;
    if commit_next(&mut uber).is_err() {
        return false;
    }
    match recovered(alloc, uber.into_areas()) {
        Ok(next) => next.saturating_sub(1) == group,
        Err(_) => false,
    }
}

/// The group that an import takes from an area, 0 where no gate is open. From there it commits the next one.
fn group_in(alloc: Global, areas: Areas<MemoryArea>) -> Option<u64> {
    match Uber::recover(alloc, areas) {
        Ok(uber) => {
            let group = uber.committed();
            goes_on(alloc, uber, group).then_some(group)
        }
        Err(refused) => (refused.why == UberFault::Empty).then_some(0),
    }
}

/// Commits three groups one after another, as far as that goes.
fn commit_three(uber: &mut Uber<MemoryArea>)
    requires { Valid size_of_memory uber.old }
    ensures { Valid size_of_memory uber.new }
{
    for _ in 0..3 {
        let _ = commit_next(uber);
    }
}

/// That group where three commits stop once so many calls have passed and a crash by this rule follows.
fn group_after(alloc: Global, calls: u64, rule: CrashRule) -> Option<u64> {
    match created(alloc, calls) {
        Some(mut uber) => {
            commit_three(&mut uber);
            let mut areas = uber.into_areas();
            areas.uber.crash(rule);
            group_in(alloc, areas)
        }
        None => None,
    }
}

/// The same by the number of calls up to 21. A commit is done once its last flush is: the first two commits take six calls
/// each, the third eight, since the gate of its slot is open.
static DONE: [u64; 22] = [
    0, 0, 0, 0, 0, 0, 1, 1, 1, 1, 1, 1, 2, 2, 2, 2, 2, 2, 2, 2, 3, 3,
];

/// Whether the first 21 of these numbers are the groups behind a crash by this rule, where one call more counts as passed or
/// none.
fn are_groups(alloc: Global, rule: CrashRule, ahead: bool) -> bool {
    for calls in 0..21 {
        let done = if ahead { DONE[calls + 1] } else { DONE[calls] };
        if group_after(alloc, calls as u64, rule) != Some(done) {
            return false;
        }
    }
    true
}

/// The rules of a crash. Where what was written stays, the opened gate counts already before its flush.
static RULES: [(CrashRule, bool); 4] = [
    (CrashRule::Old, false),
    (CrashRule::Torn, false),
    (CrashRule::Half, false),
    (CrashRule::New, true),
];

#[test]
fn a_stop_leaves_the_group_before_or_the_new_one(rt: HostRuntime) {
    for row in 0..RULES.len() {
        let (rule, ahead) = RULES[row];
        assert!(rt; are_groups(rt.alloc(), rule, ahead), "{row}");
    }
}

/// Whether slot 0 has no gate open, and slot 1 the first uberblock.
fn has_first(area: &mut MemoryArea) -> Result<bool, DeviceFault> {
    let mut gate = [9; 1];
    let mut slot = [9; 51];
    if area.length() < 1024 {
        return Ok(false);
    }
    area.read(0, &mut gate)?;
    area.read(512, &mut slot)?;
    Ok(gate == [0] && slot.as_slice() == UBER.as_slice())
}

/// Whether it is so behind the first commit.
fn writes_slot_one(alloc: Global) -> bool {
    match created(alloc, 100) {
        Some(mut uber) => commit_next(&mut uber).is_ok()
            && has_first(&mut uber.into_areas().uber) == Ok(true),
        None => false,
    }
}

#[test]
fn the_first_commit_writes_slot_one(rt: HostRuntime) {
    assert!(rt; writes_slot_one(rt.alloc()));
}

/// So many bytes: these at a place, where they fit, and zeros elsewhere.
fn bytes_of(alloc: Global, len: usize, at: usize, slot: &[u8; 51]) -> Result<Vec<u8>, AllocError> {
    let mut bytes = vec![in alloc; 0; len]?;
    if at <= len && 51 <= len - at {
        bytes[at..at + 51].copy_from_slice(slot);
    }
    Ok(bytes)
}

/// Whether a recovery of an area of these tells so.
fn tells(
    alloc: Global,
    len: usize,
    at: usize,
    slot: &[u8; 51],
    told: Result<u64, UberFault>,
) -> bool {
    let Ok(bytes) = bytes_of(alloc, len, at, slot) else {
        return false;
    };
    match MemoryArea::new(alloc, bytes, Vec::new(alloc)) {
        Ok(area) => match areas_of(alloc, area) {
            Ok(areas) => recovered(alloc, areas) == told,
            Err(_) => false,
        },
        Err(_) => false,
    }
}

/// The last group in an uberblock.
const LAST: &[(usize, u8)] = &[
    (7, 0),
    (8, 0),
    (9, 0xff),
    (10, 0xff),
    (11, 0xff),
    (12, 0xff),
    (13, 0xff),
    (14, 0xfe),
];

/// How long an area is, where the uberblock of a new pool stands in it, its bytes that are other ones, and what a recovery tells
/// then. Slot 0 is for even groups.
static TOLD: [(usize, usize, &[(usize, u8)], Result<u64, UberFault>); 6] = [
    (1024, 512, &[], Ok(1)),
    (
        1024,
        512,
        &[(17, 33)],
        Err(UberFault::Record {
            at: 17,
            kind: Range,
        }),
    ),
    (1024, 512, &[(0, 0)], Err(UberFault::Empty)),
    (1023, 512, &[], Err(UberFault::Empty)),
    (1024, 0, LAST, Ok(0xffff_ffff_fffe)),
    (1024, 0, &[], Err(UberFault::Record { at: 7, kind: Range })),
];

#[test]
fn a_recovery_tells_what_stands_there(rt: HostRuntime) {
    for row in 0..TOLD.len() {
        let (len, at, changes, told) = TOLD[row];
        assert!(rt;
            tells(rt.alloc(), len, at, &uber_with(changes), told),
            "{row}"
        );
    }
}

/// Makes a checkpoint of the group behind the committed one, and commits that with its check record.
fn commit_point(alloc: Global, uber: &mut Uber<MemoryArea>) -> Option<()>
    requires { Valid size_of_memory uber.old }
    ensures { Valid size_of_memory uber.new }
{
    let group = uber.committed();
    if group >= LAST_NUMBER - 1 {
        return None;
    }
    let Ok(point) = Check::at(alloc, group + 1, 1) else {
        return None;
    };
    uber.make_point(point, group + 1);
    uber.commit_with_check(group + 1).ok()
}

/// Gives the checkpoint up in the group behind the committed one, and commits that with its check record.
fn commit_without(uber: &mut Uber<MemoryArea>) -> Option<()>
    requires { Valid size_of_memory uber.old }
    ensures { Valid size_of_memory uber.new }
{
    let group = uber.committed();
    if group >= LAST_NUMBER - 1 {
        return None;
    }
    uber.give_up_point(group + 1);
    uber.commit_with_check(group + 1).ok()
}

/// The group of the checkpoint that the check record of the committed group tells, 0 for none.
fn point_told(uber: &mut Uber<MemoryArea>) -> Option<u64>
    requires { Valid size_of_memory uber.old }
    ensures { Valid size_of_memory uber.new }
{
    let check = uber.check().ok()?;
    check.drops.is_empty().then_some(check.group)
}

/// What the check records of the first two groups tell, where a checkpoint is made in the one and given up in the other.
fn points_told(alloc: Global) -> Option<(u64, u64)> {
    let mut uber = created(alloc, 100)?;
    commit_point(alloc, &mut uber)?;
    let made = point_told(&mut uber)?;
    commit_without(&mut uber)?;
    Some((made, point_told(&mut uber)?))
}

#[test]
fn a_checkpoint_is_told_until_it_is_given_up(rt: HostRuntime) {
    assert!(rt; points_told(rt.alloc()) == Some((1, 0)));
}
