//! Changes of the arms of a metaslab, one after another, also while a pass is there.

ghost use Rattle.std.specs.Prelude.{◌≡◌, ◌<◌, Some, IfOk, IfSome, IsSome, IsSomeAnd, true};
ghost use Rattle.draid_entries.specs.History.{reserved_of};
ghost use Rattle.draid_disks.specs.Disks.{HasArmRoom};
ghost use Rattle.draid_mend.specs.Loans.{IsRunningRebuild};
ghost use Rattle.draid_passing.specs.Passing.{IsPlanned};
ghost use Rattle.draid_rack.specs.Rack.{HasJust};
ghost use Rattle.draid_spec.specs.Geometry.{IsGeometry, metaslab_sectors};
ghost use Rattle.draid_shard.specs.Fits.{Valid};
ghost use Rattle.draid_slots.specs.States.{name_of};
ghost use Rattle.draid_slots.specs.Table.{arm_at};

use crate::calls::write;
use crate::devices::kit;
use crate::groups::sync;
use draid_area::Area;
use draid_create::create_metaslab;
use draid_disks::{attach, detach, make_leaf, offline, online, reserve};
use draid_import::reopen;
use draid_machine::ArmName;
use draid_mend::{land, lend, solve};
use draid_names::{Arm, ArmAt, ArmKind, PassKind, SlotFault};
use draid_passing::{PlanFault, cancel, done, plan, ready};
use draid_perm::Perms;
use draid_pool::into_kit;
use draid_rack::Rack;
use draid_shard::{KeptLoan, Lent, Shard};
use draid_shelf::Kit;
use draid_spec::{Geometry, Props, SpecFault, geometry, parse_spec};
use std::alloc::Global;

/// Two data columns and their parity on five children, with two spares, in one metaslab of one slice.
fn layout() -> Result<Geometry, SpecFault>
    ensures { IfOk result IsGeometry }
{
    let props = Props {
        sector: 512,
        height: 8,
        metaslabs: 1,
        slices: 1,
        seed: 1,
        version: 1,
    };
    geometry(parse_spec(b"draid1:2d:5c:2s", 5, 1)?, props)
}

/// What is done to the arms.
#[derive(Clone, Copy)]
pub enum Step {
    /// A leaf is made.
    Make(u64),
    Offline(u64),
    Online(u64),
    /// A slot gets a leaf, or a spare.
    Leaf(u32, u64),
    Spare(u32, u64),
    /// A slot loses the arm at a place.
    Detach(u32, u32, ArmName),
    /// The open group is committed.
    Sync,
    /// A pass is planned, with this number or refused so.
    Plan(PassKind, Result<u64, PlanFault>),
    /// A rebuild that waits runs, or waits on.
    Ready(bool),
    /// The pass is cancelled.
    Cancel,
    /// A block is written.
    Write,
    /// The next stripe is lent, of which these columns have a source, and the others are solved.
    Lend([bool; 3]),
    /// It lands; the pass has so many errors and targets then.
    Land(u64, usize),
    /// Nothing is left to lend; the pass has so many errors, and makes so many logs good.
    End(u64, u64),
}

/// Why a step is refused; None where it is done.
pub type Fault = Option<SlotFault>;

/// Does a step. None where what it is about isn't there, or memory wants.
fn does<R: Rack, A: Area>(shard: &mut Shard<R, A>, step: Step) -> Option<Fault>
    requires valid { Valid R.Rack shard.old }
    ensures valid { Valid R.Rack shard.new }
{
    match step {
        Step::Make(leaf) => makes(shard, leaf),
        Step::Offline(leaf) => switches(shard, leaf, true),
        Step::Online(leaf) => switches(shard, leaf, false),
        Step::Leaf(slot, leaf) => gets_leaf(shard, slot, leaf),
        Step::Spare(slot, spare) => gets_spare(shard, slot, spare),
        Step::Detach(slot, arm, name) => loses(shard, ArmAt { slot, arm }, name),
        Step::Sync => {
            sync(shard);
            Some(None)
        }
        Step::Plan(kind, wanted) if plan(shard, kind) == wanted => Some(None),
        Step::Plan(_, _) => None,
        Step::Ready(runs) => readies(shard, runs),
        Step::Cancel => cancels(shard),
        Step::Write if write(shard.alloc, shard, 1, 0, true) => Some(None),
        Step::Write => None,
        Step::Lend(sources) => lends(shard, sources),
        Step::Land(errors, targets) => lands(shard, errors, targets),
        Step::End(errors, excised) => ends(shard, errors, excised),
    }
}

/// Whether a rebuild waits until it may run.
fn is_planned<R: Rack, A: Area>(shard: &Shard<R, A>) -> bool
    ensures { result ≡ true → IsSomeAnd shard.now.pass IsPlanned }
{
    match &shard.pass {
        Some(pass) => matches!(pass.kind, PassKind::Rebuild) && !pass.running,
        None => false,
    }
}

/// Lets a rebuild that waits run, if it may.
fn readies<R: Rack, A: Area>(shard: &mut Shard<R, A>, runs: bool) -> Option<Fault>
    requires valid { Valid R.Rack shard.old }
    ensures valid { Valid R.Rack shard.new }
{
    if !is_planned(shard) || ready(shard).is_ok() != runs {
        return None;
    }
    Some(None)
}

/// Ends the pass.
fn cancels<R: Rack, A: Area>(shard: &mut Shard<R, A>) -> Option<Fault>
    requires valid { Valid R.Rack shard.old }
    ensures valid { Valid R.Rack shard.new }
{
    if shard.pass.is_none() {
        return None;
    }
    cancel(shard);
    Some(None)
}

/// Whether a rebuild runs.
fn is_running<R: Rack, A: Area>(shard: &Shard<R, A>) -> bool
    ensures { result ≡ true → IsSomeAnd shard.now.pass IsRunningRebuild }
{
    match &shard.pass {
        Some(pass) => matches!(pass.kind, PassKind::Rebuild) && pass.running,
        None => false,
    }
}

/// Whether the loan has a source for just these columns.
fn has_sources<R: Rack, A: Area>(shard: &Shard<R, A>, sources: [bool; 3]) -> bool {
    let Some(KeptLoan::Stripe(kept)) = &shard.kept else {
        return false;
    };
    for column in 0..3 {
        if matches!(kept.chosen.get(column), Some(Some(_))) != sources[column] {
            return false;
        }
    }
    true
}

/// Whether the loan has the columns of the block.
fn has_columns<R: Rack, A: Area>(shard: &Shard<R, A>) -> bool
    requires valid { Valid R.Rack shard.now }
{
    match &shard.kept {
        Some(KeptLoan::Stripe(kept)) if shard.geometry.g == 3 => {
            let first = |column: u32| kept.columns.column(column).first() == Some(&b'h');
            first(0) && first(1) && !first(2)
        }
        _ => false,
    }
}

/// Lends the next stripe of a rebuild that runs, and solves it.
fn lends<R: Rack, A: Area>(shard: &mut Shard<R, A>, sources: [bool; 3]) -> Option<Fault>
    requires valid { Valid R.Rack shard.old }
    ensures valid { Valid R.Rack shard.new }
{
    if !is_running(shard) || lend(shard) != Ok(Lent::Unit) || !has_sources(shard, sources) {
        return None;
    }
    solve(shard);
    let missing = sources.iter().filter(|there| !**there).count();
    if missing > 1 || has_columns(shard) {
        Some(None)
    } else {
        None
    }
}

/// Lands what a rebuild that runs has lent.
fn lands<R: Rack, A: Area>(shard: &mut Shard<R, A>, errors: u64, targets: usize) -> Option<Fault>
    requires valid { Valid R.Rack shard.old }
    ensures valid { Valid R.Rack shard.new }
{
    if !is_running(shard) || shard.kept.is_none() {
        return None;
    }
    land(shard);
    match &shard.pass {
        Some(pass) if pass.errors == errors && pass.targets.len() == targets => Some(None),
        _ => None,
    }
}

/// Ends a rebuild that runs, of which nothing is left to lend.
fn ends<R: Rack, A: Area>(shard: &mut Shard<R, A>, errors: u64, excised: u64) -> Option<Fault>
    requires valid { Valid R.Rack shard.old }
    ensures valid { Valid R.Rack shard.new }
{
    if !is_running(shard) || lend(shard) != Ok(Lent::End) {
        return None;
    }
    let ended = done(shard);
    if ended.errors == errors && ended.excised == excised {
        return Some(None);
    }
    None
}

/// Makes a leaf.
fn makes<R: Rack, A: Area>(shard: &mut Shard<R, A>, leaf: u64) -> Option<Fault>
    requires valid { Valid R.Rack shard.old }
    ensures valid { Valid R.Rack shard.new }
{
    if shard.has_leaf(leaf) || make_leaf(shard, leaf).is_err() {
        return None;
    }
    Some(None)
}

/// Takes a leaf offline, or back.
fn switches<R: Rack, A: Area>(shard: &mut Shard<R, A>, leaf: u64, value: bool) -> Option<Fault>
    requires valid { Valid R.Rack shard.old }
    ensures valid { Valid R.Rack shard.new }
{
    if reserve(shard, 1).is_err() || shard.slots.find(ArmKind::Leaf, leaf).is_none() {
        return None;
    }
    if value {
        offline(shard, leaf);
    } else {
        online(shard, leaf);
    }
    Some(None)
}

/// Gives a slot a leaf that was made.
fn gets_leaf<R: Rack, A: Area>(shard: &mut Shard<R, A>, slot: u32, leaf: u64) -> Option<Fault>
    requires valid { Valid R.Rack shard.old }
    ensures valid { Valid R.Rack shard.new }
{
    let sectors = shard.geometry.metaslab_sectors();
    if reserve(shard, 2).is_err()
        || shard.has_leaf(leaf)
        || shard.rack.sectors(leaf) != Some(sectors)
    {
        return None;
    }
    Some(attach(shard, slot, ArmKind::Leaf, leaf).err())
}

/// Gives a slot a spare.
fn gets_spare<R: Rack, A: Area>(shard: &mut Shard<R, A>, slot: u32, spare: u64) -> Option<Fault>
    requires valid { Valid R.Rack shard.old }
    ensures valid { Valid R.Rack shard.new }
{
    if reserve(shard, 2).is_err() {
        return None;
    }
    Some(attach(shard, slot, ArmKind::Spare, spare).err())
}

/// The arm at a place.
fn arm_at<R: Rack, A: Area>(shard: &Shard<R, A>, at: ArmAt) -> Option<Arm>
    ensures { IfSome result (λ arm. arm_at shard.now.slots at ≡ Some arm) }
{
    if at.slot < shard.slots.children() {
        shard.slots.arms(at.slot).get(at.arm as usize).copied()
    } else {
        None
    }
}

/// Whether an arm has a name.
fn is_named(arm: Arm, name: ArmName) -> bool
    ensures { result ≡ true → name_of arm ≡ name }
{
    match name {
        ArmName::Leaf { leaf } => arm.kind == ArmKind::Leaf && arm.number == leaf,
        ArmName::Spare { spare } => arm.kind == ArmKind::Spare && arm.number == u64::from(spare),
    }
}

/// Takes an arm of this name out of its slot, where no pass is there.
fn loses<R: Rack, A: Area>(shard: &mut Shard<R, A>, at: ArmAt, name: ArmName) -> Option<Fault>
    requires valid { Valid R.Rack shard.old }
    ensures valid { Valid R.Rack shard.new }
{
    if reserve(shard, 1).is_err() {
        return None;
    }
    loses_named(shard, at, name)
}

/// The same, where all is reserved.
fn loses_named<R: Rack, A: Area>(shard: &mut Shard<R, A>, at: ArmAt, name: ArmName) -> Option<Fault>
    requires valid { Valid R.Rack shard.old }
    requires reserved { 0 < reserved_of shard.old.history }
    requires room { HasArmRoom shard.old }
    ensures valid { Valid R.Rack shard.new }
{
    match arm_at(shard, at) {
        Some(arm) if is_named(arm, name) && shard.pass.is_none() => {
            Some(detach(shard, at, name).err())
        }
        _ => None,
    }
}

/// What is told of an arm: its slot and place, what it is, whether it is offline, whether it is fresh, and how many groups it
/// missed.
pub type Told = (u32, u32, ArmKind, u64, bool, bool, u64);

/// Whether it is told.
fn tells<R: Rack, A: Area>(shard: &Shard<R, A>, told: Told) -> bool
    requires valid { Valid R.Rack shard.now }
{
    let (slot, arm, kind, number, offline, fresh, logged) = told;
    let at = ArmAt { slot, arm };
    match arm_at(shard, at) {
        Some(is) => {
            let same = is.kind == kind && is.number == number;
            same && is.offline == offline && is.fresh == fresh && shard.logged(at) == logged
        }
        None => false,
    }
}

/// Whether all of that is told.
fn tells_all<R: Rack, A: Area>(shard: &Shard<R, A>, told: &[Told]) -> bool
    requires valid { Valid R.Rack shard.now }
{
    for one in told {
        if !tells(shard, *one) {
            return false;
        }
    }
    true
}

/// Whether steps are done, or refused so, one after another.
fn goes<R: Rack, A: Area>(shard: &mut Shard<R, A>, steps: &[(Step, Fault)]) -> bool
    requires valid { Valid R.Rack shard.old }
    ensures valid { Valid R.Rack shard.new }
{
    for (step, fault) in steps {
        if does(shard, *step) != Some(*fault) {
            return false;
        }
    }
    true
}

/// Whether that is told of a metaslab which is opened from its last committed group.
fn tells_again<R: Rack, A: Area>(alloc: Global, shard: Shard<R, A>, told: &[Told]) -> bool
    requires valid { Valid R.Rack shard }
{
    let (number, layout, perms) = (shard.number, shard.geometry, shard.perms);
    let next_leaf = u64::from(layout.spec.children).max(100);
    let group = shard.committed();
    if group < 1 || group > 100 {
        return false;
    }
    match reopen(
        alloc,
        number,
        layout,
        perms,
        into_kit(shard),
        4096,
        group,
        next_leaf,
    ) {
        Ok(again) => tells_all(&again, told),
        Err(_) => false,
    }
}

/// Whether a new metaslab goes so, and that is told then, and once more where it is opened again behind a commit.
fn passes_over<R: Rack, A: Area>(
    alloc: Global,
    layout: Geometry,
    kit: Kit<R, A>,
    steps: &[(Step, Fault)],
    told: &[Told],
) -> bool
    requires layout { IsGeometry layout }
    requires rack { HasJust (R.shape kit.rack) layout.spec.children (metaslab_sectors layout) layout.props.sector }
{
    let perms = Perms::new(layout.spec.children, layout.props.seed);
    match create_metaslab(alloc, 0, layout, perms, kit, 4096) {
        Ok(mut shard) => {
            if !goes(&mut shard, steps) || !tells_all(&shard, told) {
                return false;
            }
            sync(&mut shard);
            tells_again(alloc, shard, told)
        }
        Err(_) => false,
    }
}

/// The same over devices in memory. The calls of the rack with these numbers fail.
pub fn passes(alloc: Global, failing: &[u64], steps: &[(Step, Fault)], told: &[Told]) -> bool {
    let Ok(layout) = layout() else {
        return false;
    };
    match kit(
        alloc,
        &layout,
        layout.spec.children,
        0,
        &[],
        [failing, &[], &[]],
    ) {
        Ok(kit) => passes_over(alloc, layout, kit, steps, told),
        Err(_) => false,
    }
}

/// The arm that slot 1 has from the start.
const OWN: ArmName = ArmName::Leaf { leaf: 1 };

/// What is shown, what is done, and what is told then.
type Row = (&'static str, &'static [(Step, Fault)], &'static [Told]);

// In the one slice the columns stand on the slots 4, 2 and 3, spare 0 at slot 0 and spare 1 at slot 1. The open group is 2, and
// one more behind each commit; an arm that comes missed all groups up to it.
static ROWS: [Row; 14] = [
    (
        "a spare comes",
        &[(Step::Spare(1, 0), None)],
        &[
            (1, 0, ArmKind::Leaf, 1, false, false, 0),
            (1, 1, ArmKind::Spare, 0, false, true, 2),
        ],
    ),
    (
        "a leaf comes",
        &[(Step::Make(5), None), (Step::Leaf(2, 5), None)],
        &[(2, 1, ArmKind::Leaf, 5, false, true, 2)],
    ),
    (
        "arms that can't come",
        &[
            (Step::Spare(1, 0), None),
            (Step::Spare(2, 0), Some(SlotFault::SpareBusy { by: 1 })),
            (Step::Spare(1, 2), Some(SlotFault::NoSuch)),
            (Step::Spare(5, 1), Some(SlotFault::NoSuch)),
            (Step::Make(6), None),
            (Step::Leaf(1, 6), None),
            (Step::Make(7), None),
            (Step::Leaf(1, 7), Some(SlotFault::Full { arms: 3 })),
        ],
        &[(1, 2, ArmKind::Leaf, 6, false, true, 2)],
    ),
    (
        "arms that can't go",
        &[
            (Step::Detach(1, 0, OWN), Some(SlotFault::LastArm)),
            (Step::Make(5), None),
            (Step::Leaf(1, 5), None),
            (
                Step::Detach(1, 0, OWN),
                Some(SlotFault::LogNotEmpty { groups: 2 }),
            ),
        ],
        &[(1, 1, ArmKind::Leaf, 5, false, true, 2)],
    ),
    (
        "a leaf goes",
        &[
            (Step::Make(5), None),
            (Step::Leaf(1, 5), None),
            (Step::Detach(1, 1, ArmName::Leaf { leaf: 5 }), None),
        ],
        &[(1, 0, ArmKind::Leaf, 1, false, false, 0)],
    ),
    (
        "a spare is busy until its detachment is committed",
        &[
            (Step::Spare(1, 0), None),
            (Step::Detach(1, 1, ArmName::Spare { spare: 0 }), None),
            (Step::Spare(2, 0), Some(SlotFault::SpareBusy { by: 1 })),
            (Step::Sync, None),
            (Step::Spare(2, 0), None),
        ],
        &[(2, 1, ArmKind::Spare, 0, false, true, 3)],
    ),
    (
        "a spare moves where the slot that keeps it gets one",
        &[
            (Step::Spare(4, 0), None),
            (Step::Sync, None),
            (Step::Spare(0, 1), None),
        ],
        &[
            (4, 1, ArmKind::Spare, 0, false, true, 3),
            (0, 1, ArmKind::Spare, 1, false, true, 3),
        ],
    ),
    (
        "a spare stays where another slot gets one",
        &[
            (Step::Spare(4, 0), None),
            (Step::Sync, None),
            (Step::Spare(2, 1), None),
        ],
        &[(4, 1, ArmKind::Spare, 0, false, true, 2)],
    ),
    (
        "a leaf is offline, and another one again online",
        &[
            (Step::Offline(3), None),
            (Step::Offline(1), None),
            (Step::Online(1), None),
        ],
        &[
            (3, 0, ArmKind::Leaf, 3, true, false, 0),
            (1, 0, ArmKind::Leaf, 1, false, false, 0),
        ],
    ),
    (
        "a rebuild waits for the group behind which its last one comes",
        &[
            (Step::Plan(PassKind::Rebuild, Err(PlanFault::Nothing)), None),
            (Step::Spare(2, 0), None),
            (Step::Plan(PassKind::Rebuild, Ok(1)), None),
            (
                Step::Plan(PassKind::Rebuild, Err(PlanFault::PassRunning { number: 1 })),
                None,
            ),
            (Step::Ready(false), None),
            (Step::Sync, None),
            (Step::Ready(true), None),
            (Step::Cancel, None),
        ],
        &[(2, 1, ArmKind::Spare, 0, false, true, 3)],
    ),
    (
        "a rebuild that waits is planned again as a spare comes",
        &[
            (Step::Spare(2, 0), None),
            (Step::Plan(PassKind::Rebuild, Ok(1)), None),
            (Step::Spare(3, 1), None),
            (
                Step::Plan(PassKind::Heal, Err(PlanFault::PassRunning { number: 2 })),
                None,
            ),
            (Step::Cancel, None),
            (Step::Sync, None),
        ],
        &[
            (2, 1, ArmKind::Spare, 0, false, true, 3),
            (3, 1, ArmKind::Spare, 1, false, true, 3),
        ],
    ),
    (
        "a scrub runs at once, and stays as a spare comes",
        &[
            (Step::Plan(PassKind::Heal, Ok(1)), None),
            (Step::Spare(2, 0), None),
            (
                Step::Plan(PassKind::Heal, Err(PlanFault::PassRunning { number: 1 })),
                None,
            ),
            (Step::Cancel, None),
            (Step::Plan(PassKind::Rebuild, Ok(2)), None),
            (Step::Cancel, None),
            (Step::Sync, None),
        ],
        &[(2, 1, ArmKind::Spare, 0, false, true, 3)],
    ),
    (
        "a rebuild of which nothing is left makes its log good",
        &[
            (Step::Spare(2, 0), None),
            (Step::Plan(PassKind::Rebuild, Ok(1)), None),
            (Step::Sync, None),
            (Step::Ready(true), None),
            (Step::End(0, 1), None),
        ],
        &[(2, 1, ArmKind::Spare, 0, false, false, 0)],
    ),
    (
        "a stripe is lent from each source, and its other column is solved",
        &[
            (Step::Write, None),
            (Step::Spare(3, 0), None),
            (Step::Plan(PassKind::Rebuild, Ok(1)), None),
            (Step::Sync, None),
            (Step::Ready(true), None),
            (Step::Lend([true; 3]), None),
            (Step::Offline(2), None),
            (Step::Lend([true, false, true]), None),
            (Step::Cancel, None),
        ],
        &[(3, 1, ArmKind::Spare, 0, false, true, 3)],
    ),
];

#[test]
fn arms_come_and_go(rt: HostRuntime) {
    for (shown, steps, told) in ROWS.iter() {
        assert!(rt; passes(rt.alloc(), &[], steps, told), "{shown}");
    }
}
