use draid_names::{Cause, Did, Entry, ObjectFault, SlotFault, WriteFault};
use draid_reply::{AgentErrors, Reply, reply_text};
use draid_script::{ArmArgument, CommandName};
use draid_spec::SpecFault;
use std::alloc::{AllocError, Global};

/// Whether a reply is printed so.
fn is_text(alloc: Global, reply: &Reply, want: &str) -> bool {
    match reply_text(alloc, reply) {
        Ok(text) => text.as_slice() == want.as_bytes(),
        Err(_) => false,
    }
}

/// Replies that tell a command alone, or a group.
fn command_reply(row: usize) -> Reply {
    match row {
        0 => Reply::Exported { group: 2 },
        1 => Reply::Crashed,
        2 => Reply::Worn {
            command: CommandName::Export,
        },
        3 => Reply::Last {
            command: CommandName::Sync,
        },
        4 => Reply::NoPool {
            command: CommandName::Read,
        },
        5 => Reply::PoolOpen {
            command: CommandName::Create,
        },
        _ => Reply::NoMemory {
            command: CommandName::Write,
        },
    }
}

/// Replies to writes.
fn write_reply(row: usize) -> Reply {
    match row {
        0 => Reply::NoSpace {
            object: 2,
            run: 3,
            disabled: 4,
            full: 5,
            worn: 6,
        },
        1 => Reply::Written { object: 2 },
        2 => Reply::Missed {
            object: 2,
            columns: 3,
        },
        3 => Reply::WriteLast { object: 2 },
        4 => Reply::Filled {
            first: 2,
            written: 3,
        },
        _ => Reply::Synced { group: 2, thin: 3 },
    }
}

/// Replies to other commands on objects.
fn object_reply(row: usize) -> Reply {
    match row {
        0 => Reply::Unreadable {
            object: 2,
            absent: 3,
            tried: 4,
        },
        1 => Reply::NoObject { object: 2 },
        2 => Reply::ReadWorn { object: 2 },
        3 => Reply::Freed { object: 2 },
        4 => Reply::FreeNoObject { object: 2 },
        _ => Reply::Summed {
            first: 7,
            count: 1,
            digest: [0xa1; 32],
        },
    }
}

/// Replies of leaves.
fn leaf_reply(row: usize) -> Reply {
    match row {
        0 => Reply::OfflineDone { leaf: 2 },
        1 => Reply::OfflineRefused { leaf: 2 },
        2 => Reply::OfflineWorn { leaf: 2 },
        3 => Reply::OnlineDone { leaf: 2 },
        4 => Reply::OnlineRefused { leaf: 2 },
        _ => Reply::OnlineWorn { leaf: 2 },
    }
}

/// Replies of damage.
fn damage_reply(row: usize) -> Reply {
    match row {
        0 => Reply::Damaged { leaf: 2, sector: 3 },
        1 => Reply::DamageRefused { leaf: 2, sector: 3 },
        2 => Reply::DamageFailed { leaf: 2, sector: 3 },
        _ => Reply::DamageWorn { leaf: 2, sector: 3 },
    }
}

/// Replies of the arms of a slot.
fn arm_reply(row: usize) -> Reply {
    match row {
        0 => Reply::SpareWorn { slot: 2 },
        1 => Reply::Replaced { slot: 2, leaf: 3 },
        2 => Reply::ReplaceWorn { slot: 2 },
        3 => Reply::RebalanceWorn { slot: 2 },
        4 => Reply::RebalanceLast { slot: 2 },
        5 => Reply::Detached {
            arm: ArmArgument::Spare {
                parity: 2,
                spare: 0,
            },
            group: 9,
        },
        6 => Reply::DetachRefused {
            arm: ArmArgument::Leaf { leaf: 3 },
            why: SlotFault::LastArm,
        },
        7 => Reply::DetachWorn {
            arm: ArmArgument::Leaf { leaf: 3 },
        },
        _ => Reply::DetachLast {
            arm: ArmArgument::Leaf { leaf: 3 },
        },
    }
}

/// Replies of passes that were made or ended.
fn pass_reply(row: usize) -> Reply {
    match row {
        0 => Reply::RebuildNothing,
        1 => Reply::Cancelled { passes: 2 },
        2 => Reply::Rebuilt {
            from: 3,
            stripes: 2,
            errors: 0,
            paused: false,
        },
        3 => Reply::Scrubbed {
            from: 0,
            blocks: 1,
            repaired: 2,
            errors: 0,
            paused: true,
        },
        4 => Reply::Rebalanced {
            slot: 0,
            blocks: 1,
            repaired: 1,
            errors: 0,
            group: Some(4),
        },
        _ => Reply::Rebalanced {
            slot: 0,
            blocks: 1,
            repaired: 1,
            errors: 2,
            group: None,
        },
    }
}

/// A pass that is in the way of two commands.
fn pass_there(row: usize) -> Reply {
    let command = match row {
        0 => CommandName::Rebuild,
        _ => CommandName::Agent,
    };
    Reply::PassThere {
        command,
        metaslab: 2,
        number: 3,
    }
}

/// Replies of sections and of the agent.
fn section_reply(row: usize) -> Reply {
    match row {
        0 => Reply::LanesClash { object: 2 },
        1 => Reply::LanesClashMend,
        2 => Reply::LanesCheckpoint,
        _ => Reply::AgentIdle,
    }
}

/// Replies of upgrades and checkpoints.
fn checkpoint_reply(row: usize) -> Reply {
    match row {
        0 => Reply::Upgraded { group: 2 },
        1 => Reply::UpgradeAlready,
        2 => Reply::Checkpointed { group: 2 },
        3 => Reply::CheckpointThere { group: 2 },
        4 => Reply::Rewound {
            group: 4,
            objects: 1,
        },
        5 => Reply::Discarded { freed: 1, group: 3 },
        6 => Reply::NoCheckpoint {
            command: CommandName::Rewind,
        },
        _ => Reply::Worn {
            command: CommandName::Discard,
        },
    }
}

/// Why a pool isn't created.
fn spec_fault(row: usize) -> SpecFault {
    match row {
        0 => SpecFault::NotDraid,
        1 => SpecFault::Parity,
        2 => SpecFault::Number { at: 6 },
        3 => SpecFault::Repeated { letter: b'd' },
        4 => SpecFault::Children {
            said: 11,
            given: 10,
        },
        5 => SpecFault::Width { need: 10, have: 8 },
        _ => SpecFault::Limit {
            which: b'h',
            value: 7,
        },
    }
}

/// Why a `fill` stops.
fn write_fault(row: usize) -> WriteFault {
    match row {
        0 => WriteFault::NoSpace {
            run: 1,
            disabled: 2,
            full: 3,
            worn: 4,
        },
        1 => WriteFault::Missed { columns: 2 },
        2 => WriteFault::Last,
        _ => WriteFault::NoMemory,
    }
}

/// Why an object has no digest.
fn object_fault(row: usize) -> ObjectFault {
    match row {
        0 => ObjectFault::Unreadable {
            absent: 1,
            tried: 2,
        },
        1 => ObjectFault::NoObject,
        _ => ObjectFault::Worn,
    }
}

/// Why a slot gets no spare or no new leaf, or stays as it is.
fn slot_fault(row: usize) -> SlotFault {
    match row {
        0 => SlotFault::TooSmall {
            need: 1536,
            have: 100,
        },
        1 => SlotFault::NoSuch,
        2 => SlotFault::LogNotEmpty { groups: 8 },
        3 => SlotFault::SpareBusy { by: 3 },
        4 => SlotFault::LastArm,
        5 => SlotFault::Full { arms: 3 },
        6 => SlotFault::PassRunning {
            metaslab: 0,
            number: 1,
        },
        _ => SlotFault::Last,
    }
}

/// The same, where the first three ask for a spare, the next three for a new leaf, and the others to leave.
fn slot_refusal(row: usize) -> Reply {
    let why = slot_fault(row);
    match row {
        0..=2 => Reply::SpareRefused { slot: 4, why },
        3..=5 => Reply::ReplaceRefused { slot: 4, why },
        _ => Reply::RebalanceRefused { slot: 4, why },
    }
}

/// What the agent did: a spare for one slot, none for another.
static ENTRIES: [Entry; 2] = [
    Entry {
        number: 1,
        slot: 3,
        cause: Cause::Offline,
        did: Did::Spared { spare: 0 },
    },
    Entry {
        number: 2,
        slot: 5,
        cause: Cause::Logged { groups: 7 },
        did: Did::NoneFree,
    },
];

/// A reply that tells of it, with these errors of its passes, or none.
fn acted(alloc: Global, parity: u32, errors: Option<AgentErrors>) -> Result<Reply, AllocError> {
    Ok(Reply::Acted {
        parity,
        entries: Vec::from_slice(alloc, &ENTRIES)?,
        errors,
    })
}

/// Replies of the agent and its journal.
fn agent_reply(alloc: Global, row: usize) -> Result<Reply, AllocError> {
    let errors = AgentErrors {
        rebuild: 0,
        scrub: 1,
    };
    let told = match row {
        0 => return acted(alloc, 2, Some(errors)),
        1 => return acted(alloc, 1, None),
        2 => ENTRIES.len(),
        _ => 0,
    };
    Ok(Reply::Journal {
        parity: 2,
        entries: Vec::from_slice(alloc, &ENTRIES[..told])?,
    })
}

/// Replies that have the name of a pool's first spare.
fn named_reply(alloc: Global, row: usize) -> Result<Reply, AllocError> {
    let name = String::from_str(alloc, "draid2-0-0")?;
    Ok(match row {
        0 => Reply::Created { name, stripes: 2 },
        1 => Reply::Imported {
            name,
            group: 2,
            objects: 3,
        },
        _ => Reply::Spared { slot: 2, name },
    })
}

/// Six bytes of an object, which are printed as hexadecimal digits.
fn contents(alloc: Global) -> Result<Reply, AllocError> {
    Ok(Reply::Contents {
        object: 7,
        bytes: Vec::from_slice(alloc, b"hello\xfa")?,
    })
}

/// Replies of one kind.
#[derive(Clone, Copy)]
enum Kind {
    Commands,
    Sections,
    Checkpoints,
    Writes,
    Reads,
    Leaves,
    Damage,
    Arms,
    PassesThere,
    Passes,
    Specs,
    Fills,
    Sums,
    Slots,
    Agent,
    Named,
    Contents,
}

/// The reply in this row of its kind, of a kind that takes no memory.
fn plain_reply(kind: Kind, row: usize) -> Reply {
    match kind {
        Kind::Commands => command_reply(row),
        Kind::Sections => section_reply(row),
        Kind::Checkpoints => checkpoint_reply(row),
        Kind::Writes => write_reply(row),
        Kind::Reads => object_reply(row),
        Kind::Leaves => leaf_reply(row),
        Kind::Damage => damage_reply(row),
        Kind::Arms => arm_reply(row),
        Kind::PassesThere => pass_there(row),
        Kind::Passes => pass_reply(row),
        Kind::Specs => Reply::CreateRefused {
            why: spec_fault(row),
        },
        Kind::Fills => Reply::FillRefused {
            first: 1,
            written: 4,
            why: write_fault(row),
        },
        Kind::Sums => Reply::SumRefused {
            object: 7,
            why: object_fault(row),
        },
        _ => slot_refusal(row),
    }
}

/// The same of any kind.
fn reply_of(alloc: Global, kind: Kind, row: usize) -> Result<Reply, AllocError> {
    match kind {
        Kind::Agent => agent_reply(alloc, row),
        Kind::Named => named_reply(alloc, row),
        Kind::Contents => contents(alloc),
        _ => Ok(plain_reply(kind, row)),
    }
}

/// Whether it is printed so.
fn prints(alloc: Global, kind: Kind, row: usize, want: &str) -> bool {
    match reply_of(alloc, kind, row) {
        Ok(reply) => is_text(alloc, &reply, want),
        Err(_) => false,
    }
}

/// What the replies of each kind are printed as, in their order.
static TEXTS: [(Kind, &[&str]); 17] = [
    (
        Kind::Commands,
        &[
            "export group=2\n",
            "crash\n",
            "export worn\n",
            "sync last\n",
            "read no pool\n",
            "create pool open\n",
            "write no memory\n",
        ],
    ),
    (
        Kind::Sections,
        &[
            "lanes clash object=2\n",
            "lanes clash mend\n",
            "lanes checkpoint\n",
            "agent idle\n",
        ],
    ),
    (
        Kind::Checkpoints,
        &[
            "upgrade version=2 group=2\n",
            "upgrade already\n",
            "checkpoint group=2\n",
            "checkpoint refused group=2\n",
            "rewind group=4 objects=1\n",
            "discard freed=1 group=3\n",
            "rewind none\n",
            "discard worn\n",
        ],
    ),
    (
        Kind::Writes,
        &[
            "write 2 no space run=3 disabled=4 full=5 worn=6\n",
            "write 2 ok\n",
            "write 2 missed columns=3\n",
            "write 2 last\n",
            "fill 2 written=3\n",
            "sync group=2 thin=3\n",
        ],
    ),
    (
        Kind::Reads,
        &[
            "read 2 unreadable absent=3 tried=4\n",
            "read 2 no object\n",
            "read 2 worn\n",
            "free 2 ok\n",
            "free 2 no object\n",
            "sum 7 1 a1a1a1a1a1a1a1a1a1a1a1a1a1a1a1a1a1a1a1a1a1a1a1a1a1a1a1a1a1a1a1a1\n",
        ],
    ),
    (
        Kind::Leaves,
        &[
            "offline 2 ok\n",
            "offline 2 refused 1\n",
            "offline 2 worn\n",
            "online 2 ok\n",
            "online 2 refused 1\n",
            "online 2 worn\n",
        ],
    ),
    (
        Kind::Damage,
        &[
            "damage 2 3 ok\n",
            "damage 2 3 refused 1\n",
            "damage 2 3 failed\n",
            "damage 2 3 worn\n",
        ],
    ),
    (
        Kind::Arms,
        &[
            "spare 2 worn\n",
            "replace 2 leaf=3 ok\n",
            "replace 2 worn\n",
            "rebalance 2 worn\n",
            "rebalance 2 last\n",
            "detach draid2-0-0 ok group=9\n",
            "detach 3 refused 5\n",
            "detach 3 worn\n",
            "detach 3 last\n",
        ],
    ),
    (
        Kind::PassesThere,
        &[
            "rebuild refused 6 metaslab=2 number=3\n",
            "agent refused 6 metaslab=2 number=3\n",
        ],
    ),
    (
        Kind::Passes,
        &[
            "rebuild nothing\n",
            "cancel 2\n",
            "rebuild from=3 stripes=2 errors=0 done\n",
            "scrub from=0 blocks=1 repaired=2 errors=0 paused\n",
            "rebalance 0 blocks=1 repaired=1 errors=0 detached group=4\n",
            "rebalance 0 blocks=1 repaired=1 errors=2 kept\n",
        ],
    ),
    (
        Kind::Specs,
        &[
            "create refused 1\n",
            "create refused 2\n",
            "create refused 3 at=6\n",
            "create refused 4 letter=d\n",
            "create refused 5 said=11 given=10\n",
            "create refused 6 need=10 have=8\n",
            "create refused 7 which=h value=7\n",
        ],
    ),
    (
        Kind::Fills,
        &[
            "fill 1 written=4 no space run=1 disabled=2 full=3 worn=4\n",
            "fill 1 written=4 missed columns=2\n",
            "fill 1 written=4 last\n",
            "fill 1 written=4 no memory\n",
        ],
    ),
    (
        Kind::Sums,
        &[
            "sum 7 unreadable absent=1 tried=2\n",
            "sum 7 no object\n",
            "sum 7 worn\n",
        ],
    ),
    (
        Kind::Slots,
        &[
            "spare 4 refused 7 need=1536 have=100\n",
            "spare 4 refused 1\n",
            "spare 4 refused 4 groups=8\n",
            "replace 4 refused 2 by=3\n",
            "replace 4 refused 5\n",
            "replace 4 refused 8 arms=3\n",
            "rebalance 4 refused 6 metaslab=0 number=1\n",
            "rebalance 4 refused 9\n",
        ],
    ),
    (
        Kind::Agent,
        &[
            "agent 3=draid2-0-0 5=none rebuild errors=0 scrub errors=1\n",
            "agent 3=draid1-0-0 5=none\n",
            "agent 1 slot 3 offline spared draid2-0-0\nagent 2 slot 5 logged=7 none\nend\n",
            "end\n",
        ],
    ),
    (
        Kind::Named,
        &[
            "create draid2-0-0 stripes=2\n",
            "import draid2-0-0 group=2 objects=3\n",
            "spare 2 draid2-0-0 ok\n",
        ],
    ),
    (Kind::Contents, &["read 7 6 68656c6c6ffa\n"]),
];

#[test]
fn prints_replies(rt: HostRuntime) {
    for (kind, texts) in TEXTS.iter() {
        for (row, want) in texts.iter().enumerate() {
            assert!(rt; prints(rt.alloc(), *kind, row, want), "{want}");
        }
    }
}
