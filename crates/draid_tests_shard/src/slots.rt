ghost use Rattle.std.specs.Prelude.{◌≡◌, ◌<◌, ◌^◌, IfOk, IfSome, map, [], ◌∷◌, false};
ghost use Rattle.draid_slots.specs.Changes.{new_arm};
ghost use Rattle.draid_slots.specs.Table.{IsThere, arms_listed};
ghost use Rattle.draid_spec.specs.Geometry.{IsGeometry, metaslab_sectors};

use draid_dtl::Log;
use draid_names::{Arm, ArmAt, ArmKind, At, NoMemory};
use draid_perm::Perms;
use draid_slots::{ReadArm, SlotFault, Slots};
use draid_spec::{Geometry, Props, SpecFault, geometry, parse_spec};
use std::alloc::Global;

const PROPS: Props = Props {
    sector: 512,
    height: 8,
    metaslabs: 1,
    slices: 1,
    seed: 1,
    version: 1,
};

fn at(slot: u32, arm: u32) -> ArmAt
    ensures { (result.slot ≡ slot) × (result.arm ≡ arm) }
{
    ArmAt { slot, arm }
}

fn arm(kind: ArmKind, number: u64) -> Arm
    ensures { result ≡ record { kind = kind; number = number; offline = false; fresh = false } }
{
    Arm {
        kind,
        number,
        offline: false,
        fresh: false,
    }
}

/// The slots of a metaslab of such a pool.
fn slots_of(alloc: Global, text: &[u8], children: u32) -> Option<Slots> {
    let layout = layout_of(text, children).ok()?;
    let perms = Perms::new(layout.spec.children, layout.props.seed);
    Slots::new(alloc, layout, perms, 0).ok()
}

/// Attaches an arm in group 4, where there is memory for it.
fn attach(
    slots: &mut Slots,
    alloc: Global,
    slot: u32,
    kind: ArmKind,
    number: u64,
) -> Result<bool, SlotFault> {
    if slots.reserve(alloc, 2, 1).is_err() {
        return Ok(false);
    }
    slots.attach(slot, arm(kind, number), 4)?;
    Ok(true)
}

/// Detaches an arm in group 5, where there is memory for it.
fn detach(slots: &mut Slots, alloc: Global, at: ArmAt) -> Result<bool, SlotFault> {
    if slots.reserve(alloc, 2, 1).is_err() {
        return Ok(false);
    }
    slots.detach(at, 5)?;
    Ok(true)
}

/// Attachments, one after another, and their answers: a spare, the spare again elsewhere, a leaf elsewhere, a leaf
/// beside the spare, a fourth arm, and arms that aren't there.
static COMING: [(u32, ArmKind, u64, Result<bool, SlotFault>); 7] = [
    (1, ArmKind::Spare, 0, Ok(true)),
    (2, ArmKind::Spare, 0, Err(SlotFault::SpareBusy { by: 1 })),
    (2, ArmKind::Leaf, 4, Ok(true)),
    (1, ArmKind::Leaf, 5, Ok(true)),
    (1, ArmKind::Leaf, 6, Err(SlotFault::Full { arms: 3 })),
    (1, ArmKind::Spare, 1, Err(SlotFault::NoSuch)),
    (4, ArmKind::Leaf, 6, Err(SlotFault::NoSuch)),
];

/// Whether these are answered.
fn come(slots: &mut Slots, alloc: Global) -> bool {
    for (slot, kind, number, answer) in COMING.iter() {
        if attach(slots, alloc, *slot, *kind, *number) != *answer {
            return false;
        }
    }
    true
}

/// Whether the only leaf stays, no arm goes, a spare does, and a leaf stays beside one whose log has four groups.
fn go(slots: &mut Slots, alloc: Global) -> bool {
    detach(slots, alloc, at(0, 0)) == Err(SlotFault::LastArm)
        && detach(slots, alloc, at(0, 1)) == Err(SlotFault::NoSuch)
        && attach(slots, alloc, 1, ArmKind::Spare, 0) == Ok(true)
        && detach(slots, alloc, at(1, 1)) == Ok(true)
        && attach(slots, alloc, 2, ArmKind::Leaf, 4) == Ok(true)
        && detach(slots, alloc, at(2, 0)) == Err(SlotFault::LogNotEmpty { groups: 4 })
}

/// The slots at the first and the last position of the first slice of such a pool.
fn ends(children: u32) -> [u32; 2] {
    if children < 2 || children > 64 {
        return [0; 2];
    }
    let perms = Perms::new(children, PROPS.seed);
    [perms.child(0, 0), perms.child(0, children - 1)]
}

/// Whether spare 0 moves alone where this slot gets spare 1.
fn moves_alone(slots: &mut Slots, alloc: Global, slot: u32) -> bool {
    if slots.reserve(alloc, 2, 1).is_err() {
        return false;
    }
    match slots.attach(slot, arm(ArmKind::Spare, 1), 4) {
        Ok(moved) => moved.has(0) && !moved.has(1),
        Err(_) => false,
    }
}

/// Whether the first of two spares moves alone where the slot that keeps its sectors gets the second.
fn moves_on(slots: &mut Slots, alloc: Global) -> bool {
    let [spared, keeper] = ends(slots.children());
    attach(slots, alloc, spared, ArmKind::Spare, 0) == Ok(true) && moves_alone(slots, alloc, keeper)
}

/// Whether a leaf is found, and a spare that isn't there is not; and the leaf leaves as it was when it was detached, offline
/// or not.
fn leaves(slots: &mut Slots, alloc: Global, offline: bool) -> bool {
    if attach(slots, alloc, 1, ArmKind::Leaf, 4) != Ok(true) {
        return false;
    }
    slots.set_offline(4, offline);
    slots.find(ArmKind::Leaf, 4) == Some(at(1, 1))
        && slots.find(ArmKind::Spare, 0).is_none()
        && detach(slots, alloc, at(1, 1)) == Ok(true)
        && slots.leaving_online(4) != offline
}

/// Whether a spare becomes busy as it comes, and is so still as it goes.
fn is_busy(slots: &mut Slots, alloc: Global) -> bool {
    slots.busy(0).is_none()
        && attach(slots, alloc, 1, ArmKind::Spare, 0) == Ok(true)
        && slots.busy(0) == Some(1)
        && detach(slots, alloc, at(1, 1)) == Ok(true)
}

/// Whether it is busy before the commit of its detachment and not behind it, and no leaf is leaving.
fn is_let_go(slots: &mut Slots) -> bool {
    slots.commit(4);
    let leaving = slots.busy(0);
    slots.commit(5);
    leaving == Some(1) && slots.busy(0).is_none() && !slots.leaving(0)
}

/// The arm from which slot 1 is read for a block born in group 3.
fn read(slots: &Slots) -> Option<ReadArm> {
    if slots.children() < 2 {
        return None;
    }
    slots.reading_arm(1, 0, 3)
}

/// Whether it is this one.
fn reads(slots: &Slots, arm: u32, clean: bool) -> bool {
    read(slots) == Some(ReadArm { arm, clean })
}

/// Where an arm of slot 1 is, if it is there.
fn arm_at(slots: &Slots, arm: u32) -> Option<ArmAt>
    ensures { IfSome result (λ at. IsThere slots.now at) }
{
    if slots.children() < 2 || slots.arms(1).len() <= arm as usize {
        return None;
    }
    Some(at(1, arm))
}

/// Adds a group to the log of slot 1's first leaf.
fn dirty_first(slots: &mut Slots, alloc: Global) -> bool {
    if slots.reserve(alloc, 2, 1).is_err() {
        return false;
    }
    let Some(at) = arm_at(slots, 0) else {
        return false;
    };
    slots.dirty(at, 3);
    true
}

/// Takes groups out of the log of an arm of slot 1.
fn excise(slots: &mut Slots, arm: u32, upto: u64) -> bool
    requires { upto < 2 ^ 48 }
{
    let Some(at) = arm_at(slots, arm) else {
        return false;
    };
    slots.excise(at, upto);
    true
}

/// Whether slot 1 with two leaves is read from its first arm, and from the second once the first is dirty and that one's
/// log is empty.
fn reads_the_clean(slots: &mut Slots, alloc: Global) -> bool {
    attach(slots, alloc, 1, ArmKind::Leaf, 4) == Ok(true)
        && reads(slots, 0, true)
        && dirty_first(slots, alloc)
        && reads(slots, 0, false)
        && excise(slots, 1, 3)
        && reads(slots, 1, true)
}

/// Whether it is read from the first again once the second is offline, and from none where both are.
fn reads_what_answers(slots: &mut Slots) -> bool {
    slots.set_offline(4, true);
    let first = reads(slots, 0, false);
    slots.set_offline(1, true);
    first && read(slots).is_none()
}

/// How many groups the log of slot 1's leaf has.
fn logged(slots: &Slots) -> Option<u64> {
    let at = arm_at(slots, 0)?;
    Some(slots.log(at).count())
}

/// Fills that log up to group 4.
fn fill(slots: &mut Slots, alloc: Global) -> bool {
    if slots.reserve(alloc, 2, 1).is_err() {
        return false;
    }
    let Some(at) = arm_at(slots, 0) else {
        return false;
    };
    slots.fill(at, 4);
    true
}

/// Whether it has four groups then, and three without the groups up to 1.
fn is_filled(slots: &mut Slots, alloc: Global) -> bool {
    logged(slots) == Some(0)
        && fill(slots, alloc)
        && logged(slots) == Some(4)
        && excise(slots, 0, 1)
        && logged(slots) == Some(3)
}

/// Puts the log of two groups in its place.
fn set_log(slots: &mut Slots, alloc: Global) -> bool {
    let Some(at) = arm_at(slots, 0) else {
        return false;
    };
    match Log::upto(alloc, 2) {
        Ok(log) => {
            slots.set_log(at, log);
            true
        }
        Err(_) => false,
    }
}

/// Whether slot 1's leaf becomes fresh.
fn freshens(slots: &mut Slots) -> bool {
    let Some(at) = arm_at(slots, 0) else {
        return false;
    };
    slots.set_fresh(at, true);
    slots.children() > 1 && slots.arms(1).iter().any(|arm| arm.fresh)
}

/// Whether another log comes in its place, and the leaf becomes fresh.
fn is_set(slots: &mut Slots, alloc: Global) -> bool {
    set_log(slots, alloc) && logged(slots) == Some(2) && freshens(slots)
}

/// Whether sector 3 of slot 1 lies on its leaf.
fn is_placed(slots: &Slots, sectors: u64) -> bool
    requires { sectors ≡ metaslab_sectors slots.now.geometry }
{
    match arm_at(slots, 0) {
        Some(at) if sectors >= 4 => slots.place(at, 3) == At { leaf: 1, sector: 3 },
        _ => false,
    }
}

/// The layout of such a pool.
fn layout_of(text: &[u8], children: u32) -> Result<Geometry, SpecFault>
    ensures { IfOk result IsGeometry }
{
    geometry(parse_spec(text, children, 1)?, PROPS)
}

/// A slot with the leaf of this number, which missed nothing.
fn leaf_of(alloc: Global, number: u64) -> Result<Vec<(Arm, Log)>, NoMemory>
    ensures { IfOk result (λ list. map (λ pair. pair.0) list.items ≡ new_arm number ∷ []) }
{
    let mut list = Vec::new(alloc);
    list.push((arm(ArmKind::Leaf, number), Log::new(alloc)))?;
    Ok(list)
}

/// Two such slots.
fn two_leaves(alloc: Global) -> Result<Vec<Vec<(Arm, Log)>>, NoMemory>
    ensures { IfOk result (λ lists. arms_listed lists.items ≡ (new_arm 0 ∷ []) ∷ (new_arm 1 ∷ []) ∷ []) }
{
    let first = leaf_of(alloc, 0)?;
    let second = leaf_of(alloc, 1)?;
    let mut lists = Vec::new(alloc);
    lists.push(first)?;
    lists.push(second)?;
    Ok(lists)
}

/// The slots of two leaves, as a record tells of the arms.
#[tactic(auto, using(crate::proofs::Told::two_slots))]
fn recorded(alloc: Global, layout: Geometry) -> Result<Slots, NoMemory>
    requires layout { IsGeometry layout }
    requires two { layout.spec.children ≡ 2 }
{
    let perms = Perms::new(layout.spec.children, layout.props.seed);
    Slots::of(alloc, layout, perms, 0, two_leaves(alloc)?)
}

/// Whether slot 1 is read from its first arm then.
fn reads_recorded(alloc: Global) -> bool {
    match layout_of(b"draid1:1d", 2) {
        Ok(layout) if layout.spec.children == 2 => match recorded(alloc, layout) {
            Ok(slots) => reads(&slots, 0, true),
            Err(_) => false,
        },
        _ => false,
    }
}

#[test]
fn a_record_tells_of_arms(rt: HostRuntime) {
    assert!(rt; reads_recorded(rt.alloc()));
}

/// What is tried on slots.
#[derive(Clone, Copy)]
enum Trial {
    Coming,
    Going,
    Logs,
    Commit,
    Chain,
    Online,
    Offline,
    Reading,
}

/// Whether slots do as they have to in a trial.
fn stands(slots: &mut Slots, alloc: Global, trial: Trial) -> bool {
    match trial {
        Trial::Coming => come(slots, alloc),
        Trial::Going => go(slots, alloc),
        Trial::Logs => is_filled(slots, alloc) && is_set(slots, alloc),
        Trial::Commit => is_busy(slots, alloc) && is_let_go(slots),
        Trial::Chain => moves_on(slots, alloc),
        Trial::Online => leaves(slots, alloc, false),
        Trial::Offline => leaves(slots, alloc, true),
        Trial::Reading => reads_the_clean(slots, alloc) && reads_what_answers(slots),
    }
}

/// Whether the slots of a metaslab of such a pool do.
fn stand(alloc: Global, text: &[u8], children: u32, trial: Trial) -> bool {
    match slots_of(alloc, text, children) {
        Some(mut slots) => stands(&mut slots, alloc, trial),
        None => false,
    }
}

/// Four disks and a spare, or five disks and two spares, what is tried on their slots, and what that shows.
static TRIALS: [(&[u8], u32, Trial, &str); 8] = [
    (b"draid1:2d:1s", 4, Trial::Coming, "arms come"),
    (b"draid1:2d:1s", 4, Trial::Going, "arms go"),
    (b"draid1:2d:1s", 4, Trial::Logs, "logs change"),
    (
        b"draid1:2d:1s",
        4,
        Trial::Commit,
        "a spare is busy up to the commit",
    ),
    (
        b"draid1:2d:2s",
        5,
        Trial::Chain,
        "a spare moves on where its keeper is spared",
    ),
    (
        b"draid1:2d:2s",
        5,
        Trial::Online,
        "a leaf leaves as it was, online",
    ),
    (
        b"draid1:2d:2s",
        5,
        Trial::Offline,
        "a leaf leaves as it was, offline",
    ),
    (
        b"draid1:2d:1s",
        4,
        Trial::Reading,
        "the reading arm is the first clean one",
    ),
];

#[test]
fn slots_do_as_they_have_to(rt: HostRuntime) {
    for (text, children, trial, shown) in TRIALS.iter() {
        assert!(rt; stand(rt.alloc(), text, *children, *trial), "{shown}");
    }
}

/// The same of new slots of four disks and a spare.
fn four_have_places(alloc: Global) -> bool {
    let Ok(layout) = layout_of(b"draid1:2d:1s", 4) else {
        return false;
    };
    let perms = Perms::new(layout.spec.children, layout.props.seed);
    match Slots::new(alloc, layout, perms, 0) {
        Ok(slots) => is_placed(&slots, layout.metaslab_sectors()),
        Err(_) => false,
    }
}

#[test]
fn arms_have_places(rt: HostRuntime) {
    assert!(rt; four_have_places(rt.alloc()));
}
