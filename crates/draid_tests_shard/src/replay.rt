ghost use Rattle.std.specs.Prelude.{◌<◌, ◌^◌, All, List};
ghost use Rattle.draid_machine.specs.declared.event.Event.{Event};
ghost use Rattle.draid_replay.specs.Within.{IsSmallEvent};

use draid_machine::{ArmName, Event, FewArms, FewLeaves, Key, Patched};
use draid_names::{NoMemory, PassKind};
use draid_perm::Perms;
use draid_replay::{ReplayFault, new_world, replay};
use draid_spec::{Props, SpecFault, geometry, parse_spec};
use draid_world::{Site, World};
use std::alloc::Global;
use std::marker::Model;

/// The only metaslab of a pool of version 1 with this layout.
pub fn site_of(spec: &[u8], children: u32) -> Result<Site, SpecFault> {
    let props = Props {
        sector: 512,
        height: 8,
        metaslabs: 1,
        slices: 1,
        seed: 1,
        version: 1,
    };
    let spec = parse_spec(spec, children, 1)?;
    let layout = geometry(spec, props)?;
    Ok(Site {
        perms: Perms::new(layout.spec.children, layout.props.seed),
        geometry: layout,
        metaslab: 0,
    })
}

/// Events one after another, whose numbers are in their ranges.
#[derive(Drop)]
pub struct History {
    events: Vec<Event>,
}

impl Model for History {
    ghost Value = { List Event };

    ghost view = { λ h. h.events.items };

    ghost invariant = { λ h. All IsSmallEvent h.events.items };
}

impl History {
    pub fn new(alloc: Global) -> History {
        History {
            events: Vec::new(alloc),
        }
    }

    /// Adds an event.
    pub fn add(&mut self, event: Event) -> Result<(), NoMemory>
        requires { IsSmallEvent event }
    {
        self.events.push(event)?;
        Ok(())
    }

    /// What becomes of a new metaslab of version 1 by these events, or the fault.
    pub fn replayed(&self, alloc: Global, site: &Site) -> Result<World, ReplayFault> {
        if self.events.len() > 100 {
            return Err(ReplayFault::NoMemory);
        }
        match new_world(alloc, site, 1) {
            Ok(world) => replay(alloc, site, world, &self.events),
            Err(_) => Err(ReplayFault::NoMemory),
        }
    }

    /// The open group and the version then.
    fn end(&self, alloc: Global, site: &Site) -> Result<(u64, u32), ReplayFault> {
        match self.replayed(alloc, site) {
            Ok(world) => Ok((world.open_group, world.version)),
            Err(fault) => Err(fault),
        }
    }
}

const KEY: Key = Key { object: 7, seq: 1 };

const OTHER: Key = Key { object: 8, seq: 2 };

/// A block of one stripe is begun.
fn begin(key: Key, first: u64, birth: u64) -> Event
    requires first { first < 2 ^ 48 }
    requires birth { birth < 2 ^ 48 }
    ensures { IsSmallEvent result }
{
    Event::Begin {
        key,
        first,
        stripes: 1,
        len: 1,
        birth,
        digest: [0; 32],
    }
}

/// An event of these histories. A number of a column stands for the slot in which it lies, and 3 for the one at which the chain of
/// spare 0 ends.
#[derive(Clone, Copy)]
pub enum Step {
    /// The block's write begins in group 2.
    Begin,
    /// A second one does in group 4.
    BeginOther,
    Put(usize),
    Finish,
    AbortOther,
    Fetch,
    Free(u32),
    /// The first sector of leaf 0 is damaged.
    Damage,
    /// That of a column's leaf is.
    DamageColumn(usize),
    Close(u32),
    Seal(u32),
    Commit(u32),
    Reopen(u32),
    Offline(usize),
    Online(usize),
    Attach(usize, ArmName),
    Detach(usize, ArmName),
    Upgrade,
    Plan(PassKind),
    Ready,
    Lend,
    /// A stripe that was lent comes back, in a pass and with a serial.
    LandStripe(u64, u64),
    /// A block does, in pass 2 with serial 2.
    LandBlock,
    Done,
    Cancel,
}

/// The slot of a column.
fn slot_at(slots: [u32; 4], column: usize) -> u32 {
    slots[column % 4]
}

/// The leaf with which that slot begins.
fn leaf_at(slots: [u32; 4], column: usize) -> u64 {
    u64::from(slot_at(slots, column))
}

/// A column of the block lands on a leaf.
fn put(leaf: u64) -> Event
    ensures { IsSmallEvent result }
{
    Event::Put {
        key: KEY,
        landed: FewArms::one(ArmName::Leaf { leaf }),
        failed: FewLeaves::none(),
    }
}

/// The event of a step.
fn event_of(alloc: Global, slots: [u32; 4], step: Step) -> Event
    ensures { IsSmallEvent result }
{
    match step {
        Step::Begin => begin(KEY, 0, 2),
        Step::BeginOther => begin(OTHER, 1, 4),
        Step::Put(column) => put(leaf_at(slots, column)),
        Step::Finish => Event::Finish { key: KEY },
        Step::AbortOther => Event::Abort { key: OTHER },
        Step::Fetch => Event::Fetch {
            key: KEY,
            failed: Vec::new(alloc),
        },
        Step::Free(group) => Event::Free {
            key: KEY,
            group: u64::from(group),
        },
        _ => group_event(alloc, slots, step),
    }
}

/// That of one that isn't of a block.
fn group_event(alloc: Global, slots: [u32; 4], step: Step) -> Event
    ensures { IsSmallEvent result }
{
    match step {
        Step::Close(group) => Event::Close {
            group: u64::from(group),
        },
        Step::Seal(group) => Event::Seal {
            group: u64::from(group),
            failed: Vec::new(alloc),
        },
        Step::Commit(group) => Event::Commit {
            group: u64::from(group),
        },
        Step::Reopen(group) => Event::Reopen {
            group: u64::from(group),
            doubtful: Vec::new(alloc),
        },
        _ => leaf_event(alloc, slots, step),
    }
}

/// That of one that is of no group either.
fn leaf_event(alloc: Global, slots: [u32; 4], step: Step) -> Event
    ensures { IsSmallEvent result }
{
    match step {
        Step::Damage => damage(0),
        Step::DamageColumn(column) => damage(leaf_at(slots, column)),
        Step::Offline(column) => Event::Offline {
            leaf: leaf_at(slots, column),
        },
        Step::Online(column) => Event::Online {
            leaf: leaf_at(slots, column),
        },
        Step::Attach(column, arm) => Event::Attach {
            slot: slot_at(slots, column),
            arm,
        },
        Step::Detach(column, arm) => Event::Detach {
            slot: slot_at(slots, column),
            arm,
        },
        Step::Upgrade => Event::Upgrade,
        _ => pass_event(alloc, step),
    }
}

/// The first sector of a leaf is damaged.
fn damage(leaf: u64) -> Event
    ensures { IsSmallEvent result }
{
    Event::Damage {
        leaf,
        sector: 0,
        failed: false,
    }
}

/// The event of a step of a pass.
fn pass_event(alloc: Global, step: Step) -> Event
    ensures { IsSmallEvent result }
{
    match step {
        Step::Plan(kind) => Event::Plan { kind },
        Step::Ready => Event::Ready,
        Step::Lend => Event::Lend {
            failed: Vec::new(alloc),
        },
        Step::LandStripe(pass, serial) => Event::LandStripe {
            pass,
            serial,
            failed: Vec::new(alloc),
        },
        Step::LandBlock => land_block(alloc, Vec::new(alloc)),
        Step::Done => Event::Done {
            failed: Vec::new(alloc),
        },
        _ => Event::Cancel,
    }
}

/// A block comes back in a scrub, which writes this.
pub fn land_block(alloc: Global, patched: Vec<Patched>) -> Event
    ensures { IsSmallEvent result }
{
    Event::LandBlock {
        pass: 2,
        serial: 2,
        failed: Vec::new(alloc),
        patched,
        unreadable: false,
    }
}

/// Adds steps to a history.
pub fn add_steps(
    history: &mut History,
    alloc: Global,
    slots: [u32; 4],
    steps: &[Step],
) -> Result<(), NoMemory> {
    for step in steps {
        history.add(event_of(alloc, slots, *step))?;
    }
    Ok(())
}

/// The slots of the three columns of stripe 0, and that at which the chain of spare 0 ends.
pub fn slots_of(site: &Site) -> Option<[u32; 4]> {
    if site.geometry.g < 3 {
        return None;
    }
    Some([
        site.slot_of(0, 0),
        site.slot_of(0, 1),
        site.slot_of(0, 2),
        site.home(&[], 0, 0),
    ])
}

pub const SPARE: ArmName = ArmName::Spare { spare: 0 };

const SECOND: ArmName = ArmName::Spare { spare: 1 };

const NINTH: ArmName = ArmName::Leaf { leaf: 9 };

/// A history with every kind of event. A block is written, read, damaged and committed, a leaf goes offline, a spare takes its
/// place, and group 3 is sealed. The commit of group 3 follows.
const FRONT: &[Step] = &[
    Step::Begin,
    Step::Put(0),
    Step::Put(1),
    Step::Put(2),
    Step::Finish,
    Step::Fetch,
    Step::Damage,
    Step::Close(2),
    Step::Seal(2),
    Step::Commit(2),
    Step::Offline(0),
    Step::Attach(0, SPARE),
    Step::Plan(PassKind::Rebuild),
    Step::Close(3),
    Step::Seal(3),
];

/// Then the block's stripe is rebuilt, the spare leaves again, the leaf is back, and a scrub goes over the block. The block is
/// freed; a second write is given up, a second scrub is cancelled, and the metaslab is opened again from group 3.
const BACK: &[Step] = &[
    Step::Ready,
    Step::Lend,
    Step::LandStripe(1, 1),
    Step::Done,
    Step::Detach(0, SPARE),
    Step::Online(0),
    Step::Plan(PassKind::Heal),
    Step::Lend,
    Step::LandBlock,
    Step::Done,
    Step::Free(4),
    Step::BeginOther,
    Step::AbortOther,
    Step::Plan(PassKind::Heal),
    Step::Cancel,
    Step::Reopen(3),
];

/// A history of an upgrade, and a block that is written, read, damaged and committed.
const UPGRADED: &[Step] = &[
    Step::Upgrade,
    Step::Begin,
    Step::Put(0),
    Step::Put(1),
    Step::Put(2),
    Step::Finish,
    Step::Fetch,
    Step::Damage,
    Step::Close(2),
    Step::Seal(2),
    Step::Commit(2),
    // A spare is rebuilt behind group 3.
    Step::Attach(0, SPARE),
    Step::Plan(PassKind::Rebuild),
    Step::Close(3),
    Step::Seal(3),
    Step::Commit(3),
    Step::Ready,
    Step::Lend,
    Step::LandStripe(1, 1),
    Step::Done,
    // A second spare takes the place of the leaf on which the first one lies, so that this one moves; both are rebuilt, and
    // the block's stripe is lent.
    Step::Attach(3, SECOND),
    Step::Plan(PassKind::Rebuild),
    Step::Close(4),
    Step::Seal(4),
    Step::Commit(4),
    Step::Ready,
    Step::Lend,
    // Meanwhile a leaf joins the slot of the second column: the rebuild begins again, and the stripe comes back in a pass.
    Step::Attach(1, NINTH),
    Step::Close(5),
    Step::Seal(5),
    Step::Commit(5),
    Step::Ready,
    Step::Lend,
];

/// The layout of a pool, a history in three parts, and the open group and the version behind it, or its first illegal event.
type Row = (
    &'static [u8],
    u32,
    &'static [Step],
    &'static [Step],
    &'static [Step],
    Result<(u64, u32), ReplayFault>,
);

static ROWS: [Row; 9] = [
    // Every kind of event is done, and a rebuild begins only behind a commit.
    (
        b"draid1:2d:1s",
        4,
        FRONT,
        &[Step::Commit(3)],
        BACK,
        Ok((4, 1)),
    ),
    (
        b"draid1:2d:1s",
        4,
        FRONT,
        &[Step::Ready],
        BACK,
        Err(ReplayFault::NotLegal { at: 15 }),
    ),
    // An attachment begins a rebuild again.
    (
        b"draid1:2d:2s",
        5,
        UPGRADED,
        &[Step::LandStripe(3, 3)],
        &[Step::Done],
        Ok((6, 2)),
    ),
    (
        b"draid1:2d:2s",
        5,
        UPGRADED,
        &[Step::LandStripe(2, 3)],
        &[Step::Done],
        Err(ReplayFault::NotLegal { at: 33 }),
    ),
    // No event, a commit alone, a landing alone, and a group that is closed, sealed and committed, and not sealed.
    (b"draid1:2d", 3, &[], &[], &[], Ok((2, 1))),
    (
        b"draid1:2d",
        3,
        &[Step::Commit(2)],
        &[],
        &[],
        Err(ReplayFault::NotLegal { at: 0 }),
    ),
    (
        b"draid1:2d",
        3,
        &[Step::LandStripe(1, 1)],
        &[],
        &[],
        Err(ReplayFault::NotLegal { at: 0 }),
    ),
    (
        b"draid1:2d",
        3,
        &[Step::Close(2)],
        &[Step::Seal(2)],
        &[Step::Commit(2)],
        Ok((3, 1)),
    ),
    (
        b"draid1:2d",
        3,
        &[Step::Close(2)],
        &[],
        &[Step::Commit(2)],
        Err(ReplayFault::NotLegal { at: 1 }),
    ),
];

/// The history of a row.
fn history_of(alloc: Global, slots: [u32; 4], row: &Row) -> Result<History, NoMemory> {
    let mut history = History::new(alloc);
    add_steps(&mut history, alloc, slots, row.2)?;
    add_steps(&mut history, alloc, slots, row.3)?;
    add_steps(&mut history, alloc, slots, row.4)?;
    Ok(history)
}

/// Whether a metaslab comes to this end.
fn ends(alloc: Global, site: &Site, row: &Row) -> bool {
    let Some(slots) = slots_of(site) else {
        return false;
    };
    match history_of(alloc, slots, row) {
        Ok(history) => history.end(alloc, site) == row.5,
        Err(_) => false,
    }
}

/// Whether that of such a pool does.
fn is_ended(alloc: Global, row: &Row) -> bool {
    match site_of(row.0, row.1) {
        Ok(site) => ends(alloc, &site, row),
        Err(_) => false,
    }
}

#[test]
fn histories_go_to_their_first_illegal_event(rt: HostRuntime) {
    for row in 0..ROWS.len() {
        assert!(rt; is_ended(rt.alloc(), &ROWS[row]), "{row}");
    }
}

/// Whether lists of arms and of leaves have them in their order.
fn lists_keep_their_order() -> bool {
    let arms = [
        ArmName::Leaf { leaf: 3 },
        ArmName::Spare { spare: 1 },
        ArmName::Leaf { leaf: 0 },
    ];
    let leaves = [3, 0, 3];
    FewArms::of(&arms).as_slice() == arms.as_slice()
        && FewArms::of(&arms[1..]).as_slice() == &arms[1..]
        && FewArms::none().as_slice().is_empty()
        && FewLeaves::of(&leaves).as_slice() == leaves.as_slice()
        && FewLeaves::one(4).as_slice() == [4].as_slice()
}

#[test]
fn lists_of_a_put_keep_their_order(rt: HostRuntime) {
    assert!(rt; lists_keep_their_order());
}
