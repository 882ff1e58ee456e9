ghost use Rattle.std.specs.Prelude.{◌≡◌, IfOk, string_bytes};
ghost use Rattle.draid_reply.specs.Reply.{IsBelowDisks, IsBelowObjects, IsBelowPasses, IsBelowPool, IsBelowSlots, IsLine, text_of};

use crate::agent::{acted, journal};
use crate::texts::{
    contents, create_refused, created, detach_refused, detach_stopped, detached, fill_refused,
    imported, name_said, no_space, numbered, pass_there, rebalanced, rebuilt, scrubbed,
    slot_refused, spared, sum_refused, summed, twice_numbered, unreadable,
};
use draid_names::{Entry, NoMemory, ObjectFault, SlotFault, WriteFault};
use draid_script::{ArmArgument, CommandName};
use draid_spec::SpecFault;
use std::alloc::{AllocError, Global};

/// The reply to a command.
#[derive(Drop)]
pub enum Reply {
    /// The command needs an open pool, and none is open. Of `import`: there is none.
    NoPool {
        command: CommandName,
    },
    /// The command asks for a pool while one is open.
    PoolOpen {
        command: CommandName,
    },
    /// The command was refused for want of memory.
    NoMemory {
        command: CommandName,
    },
    /// A metaslab has too many events for a command on the whole pool: `export`, which leaves the pool open, `sync`,
    /// `rebuild`, `scrub`, `upgrade`, `agent`, `checkpoint`, `rewind` or `discard`.
    Worn {
        command: CommandName,
    },
    /// No further group or pass can be numbered for such a command.
    Last {
        command: CommandName,
    },
    /// A metaslab has a pass that such a command may not find: one of the other kind, or any of an `agent`.
    PassThere {
        command: CommandName,
        metaslab: u32,
        number: u64,
    },
    /// There is no checkpoint to which to `rewind`, or which to `discard`.
    NoCheckpoint {
        command: CommandName,
    },
    /// A pool of this name was created, with so many stripes.
    Created {
        name: String,
        stripes: u64,
    },
    /// The spec or its keys are refused.
    CreateRefused {
        why: SpecFault,
    },
    /// A pool of this name and committed group was opened, with so many objects.
    Imported {
        name: String,
        group: u64,
        objects: u64,
    },
    /// The pool was closed; this is its committed group.
    Exported {
        group: u64,
    },
    /// The object has the bytes of the `write`.
    Written {
        object: u64,
    },
    /// No metaslab has room for the block of a `write`. `run` is the longest run of free stripes in the metaslabs
    /// that could take a block; the others are disabled, full or worn.
    NoSpace {
        object: u64,
        run: u64,
        disabled: u32,
        full: u32,
        worn: u32,
    },
    /// So many columns of the block of a `write` landed nowhere, and the object has its earlier bytes.
    Missed {
        object: u64,
        columns: u32,
    },
    /// No further block can be numbered.
    WriteLast {
        object: u64,
    },
    /// All objects of a `fill` have their bytes.
    Filled {
        first: u64,
        written: u64,
    },
    /// A `fill` stopped behind so many objects.
    FillRefused {
        first: u64,
        written: u64,
        why: WriteFault,
    },
    /// The object's bytes.
    Contents {
        object: u64,
        bytes: Vec<u8>,
    },
    /// The object of a `read` has no bytes.
    NoObject {
        object: u64,
    },
    /// The bytes of the object can't be found again: so many columns are absent, and so many sets of columns
    /// were tried.
    Unreadable {
        object: u64,
        absent: u32,
        tried: u64,
    },
    /// The metaslab of the object has too many events.
    ReadWorn {
        object: u64,
    },
    /// The SHA-256 digest (FIPS 180-4) of the objects' bytes, one after another.
    Summed {
        first: u64,
        count: u64,
        digest: [u8; 32],
    },
    /// The first object of a `sum` that gives no bytes.
    SumRefused {
        object: u64,
        why: ObjectFault,
    },
    /// The object has no bytes any more.
    Freed {
        object: u64,
    },
    /// The object of a `free` has no bytes.
    FreeNoObject {
        object: u64,
    },
    /// This group was committed; so many of its blocks lack redundancy.
    Synced {
        group: u64,
        thin: u64,
    },
    /// The leaf answers no more.
    OfflineDone {
        leaf: u64,
    },
    /// There is no such leaf.
    OfflineRefused {
        leaf: u64,
    },
    /// A metaslab has too many events.
    OfflineWorn {
        leaf: u64,
    },
    /// The leaf answers again.
    OnlineDone {
        leaf: u64,
    },
    /// There is no such leaf.
    OnlineRefused {
        leaf: u64,
    },
    /// A metaslab has too many events.
    OnlineWorn {
        leaf: u64,
    },
    /// The bytes of the sector have changed.
    Damaged {
        leaf: u64,
        sector: u64,
    },
    /// There is no such leaf or sector.
    DamageRefused {
        leaf: u64,
        sector: u64,
    },
    /// The leaf failed.
    DamageFailed {
        leaf: u64,
        sector: u64,
    },
    /// The metaslab of the sector has too many events.
    DamageWorn {
        leaf: u64,
        sector: u64,
    },
    /// The slot has got the spare of this name.
    Spared {
        slot: u32,
        name: String,
    },
    /// The slot gets no spare.
    SpareRefused {
        slot: u32,
        why: SlotFault,
    },
    /// A metaslab has too many events.
    SpareWorn {
        slot: u32,
    },
    /// The slot has got a new leaf of this number.
    Replaced {
        slot: u32,
        leaf: u64,
    },
    /// The slot gets no new leaf.
    ReplaceRefused {
        slot: u32,
        why: SlotFault,
    },
    /// A metaslab has too many events.
    ReplaceWorn {
        slot: u32,
    },
    /// The arm has left its slot, committed with this group.
    Detached {
        arm: ArmArgument,
        group: u64,
    },
    /// The arm stays in its slot.
    DetachRefused {
        arm: ArmArgument,
        why: SlotFault,
    },
    /// A metaslab has too many events.
    DetachWorn {
        arm: ArmArgument,
    },
    /// No further group can be numbered.
    DetachLast {
        arm: ArmArgument,
    },
    /// So many stripes were rebuilt, from this one of the pool on.
    Rebuilt {
        from: u64,
        stripes: u64,
        errors: u64,
        paused: bool,
    },
    /// There is nothing to rebuild.
    RebuildNothing,
    /// So many blocks were scrubbed, from this stripe of the pool on, and so many columns rewritten.
    Scrubbed {
        from: u64,
        blocks: u64,
        repaired: u64,
        errors: u64,
        paused: bool,
    },
    /// So many blocks were scrubbed. The other arms of the slot have left it, committed with this group, or are kept.
    Rebalanced {
        slot: u32,
        blocks: u64,
        repaired: u64,
        errors: u64,
        group: Option<u64>,
    },
    /// The slot stays as it is.
    RebalanceRefused {
        slot: u32,
        why: SlotFault,
    },
    /// A metaslab has too many events.
    RebalanceWorn {
        slot: u32,
    },
    /// No further group or pass can be numbered.
    RebalanceLast {
        slot: u32,
    },
    /// So many passes were ended.
    Cancelled {
        passes: u32,
    },
    /// The pool was closed as it stood.
    Crashed,
    /// The text of the pool's status, in several lines or as JSON in one.
    Status {
        text: Vec<u8>,
    },
    /// Two lanes name this object, the least such.
    LanesClash {
        object: u64,
    },
    /// Two lanes have a `rebuild` or a `scrub`.
    LanesClashMend,
    /// No section runs while there is a checkpoint.
    LanesCheckpoint,
    /// The pool has version 2, committed with this group.
    Upgraded {
        group: u64,
    },
    /// The pool was asked for version 2 before.
    UpgradeAlready,
    /// No slot was due.
    AgentIdle,
    /// What each slot that was due got, and the errors of the rebuild and the scrub, where a spare was attached. The
    /// parity is that of the pool.
    Acted {
        parity: u32,
        entries: Vec<Entry>,
        errors: Option<AgentErrors>,
    },
    /// The entries of this session. The parity is that of the pool.
    Journal {
        parity: u32,
        entries: Vec<Entry>,
    },
    /// The objects are remembered as they are, committed with this group.
    Checkpointed {
        group: u64,
    },
    /// There is a checkpoint, of this group.
    CheckpointThere {
        group: u64,
    },
    /// The objects are those of the checkpoint, so many, committed with this group.
    Rewound {
        group: u64,
        objects: u64,
    },
    /// The checkpoint is forgotten, and so many blocks were freed, committed with this group.
    Discarded {
        freed: u64,
        group: u64,
    },
}

/// The errors of the two passes that an `agent` makes.
#[derive(Clone, Copy)]
pub struct AgentErrors {
    pub rebuild: u64,
    pub scrub: u64,
}

/// What the reply is printed as, the end of its last line included.
pub fn reply_text(alloc: Global, reply: &Reply) -> Result<Vec<u8>, NoMemory>
    ensures { IfOk result (λ text. text.items ≡ text_of reply.now) }
{
    match reply {
        Reply::Status { text: bytes } => Ok(Vec::from_slice(alloc, bytes)?),
        _ => Ok(text(alloc, reply)?.into_bytes()),
    }
}

/// The line of a reply that has one by its words.
fn text(alloc: Global, reply: &Reply) -> Result<String, AllocError>
    requires { IsLine reply.now }
    ensures { IfOk result (λ text. string_bytes text ≡ text_of reply.now) }
{
    match reply {
        Reply::NoPool { command } => name_said(alloc, *command, " no pool"),
        Reply::PoolOpen { command } => name_said(alloc, *command, " pool open"),
        Reply::NoMemory { command } => name_said(alloc, *command, " no memory"),
        Reply::Worn { command } => name_said(alloc, *command, " worn"),
        Reply::Last { command } => name_said(alloc, *command, " last"),
        Reply::PassThere {
            command,
            metaslab,
            number,
        } => pass_there(alloc, *command, *metaslab, *number),
        Reply::NoCheckpoint { command } => name_said(alloc, *command, " none"),
        Reply::Created { name, stripes } => created(alloc, name, *stripes),
        Reply::CreateRefused { why } => create_refused(alloc, *why),
        Reply::Imported {
            name,
            group,
            objects,
        } => imported(alloc, name, *group, *objects),
        Reply::Exported { group } => numbered(alloc, "export group=", *group, "\n"),
        Reply::Synced { group, thin } => twice_numbered(
            alloc,
            "sync group=",
            *group,
            " thin=",
            *thin,
            "\n",
        ),
        Reply::Crashed => String::from_str(alloc, "crash\n"),
        _ => object_text(alloc, reply),
    }
}

/// The line of a reply on objects, or of one that follows.
fn object_text(alloc: Global, reply: &Reply) -> Result<String, AllocError>
    requires { IsBelowPool reply.now }
    ensures { IfOk result (λ text. string_bytes text ≡ text_of reply.now) }
{
    match reply {
        Reply::Written { object } => numbered(alloc, "write ", *object, " ok\n"),
        Reply::NoSpace {
            object,
            run,
            disabled,
            full,
            worn,
        } => no_space(alloc, *object, *run, *disabled, *full, *worn),
        Reply::Missed { object, columns } => twice_numbered(
            alloc,
            "write ",
            *object,
            " missed columns=",
            u64::from(*columns),
            "\n",
        ),
        Reply::WriteLast { object } => numbered(alloc, "write ", *object, " last\n"),
        Reply::Filled { first, written } => twice_numbered(
            alloc,
            "fill ",
            *first,
            " written=",
            *written,
            "\n",
        ),
        Reply::FillRefused {
            first,
            written,
            why,
        } => fill_refused(alloc, *first, *written, *why),
        Reply::Contents { object, bytes } => contents(alloc, *object, bytes),
        Reply::NoObject { object } => numbered(alloc, "read ", *object, " no object\n"),
        Reply::Unreadable {
            object,
            absent,
            tried,
        } => unreadable(alloc, *object, *absent, *tried),
        Reply::ReadWorn { object } => numbered(alloc, "read ", *object, " worn\n"),
        Reply::Summed {
            first,
            count,
            digest,
        } => summed(alloc, *first, *count, digest),
        Reply::SumRefused { object, why } => sum_refused(alloc, *object, *why),
        Reply::Freed { object } => numbered(alloc, "free ", *object, " ok\n"),
        Reply::FreeNoObject { object } => numbered(alloc, "free ", *object, " no object\n"),
        _ => disk_text(alloc, reply),
    }
}

/// The line of a reply on leaves, or of one that follows.
fn disk_text(alloc: Global, reply: &Reply) -> Result<String, AllocError>
    requires { IsBelowObjects reply.now }
    ensures { IfOk result (λ text. string_bytes text ≡ text_of reply.now) }
{
    match reply {
        Reply::OfflineDone { leaf } => numbered(alloc, "offline ", *leaf, " ok\n"),
        Reply::OfflineRefused { leaf } => numbered(alloc, "offline ", *leaf, " refused 1\n"),
        Reply::OfflineWorn { leaf } => numbered(alloc, "offline ", *leaf, " worn\n"),
        Reply::OnlineDone { leaf } => numbered(alloc, "online ", *leaf, " ok\n"),
        Reply::OnlineRefused { leaf } => numbered(alloc, "online ", *leaf, " refused 1\n"),
        Reply::OnlineWorn { leaf } => numbered(alloc, "online ", *leaf, " worn\n"),
        Reply::Damaged { leaf, sector } => twice_numbered(
            alloc, "damage ", *leaf, " ", *sector, " ok\n",
        ),
        Reply::DamageRefused { leaf, sector } => twice_numbered(
            alloc,
            "damage ",
            *leaf,
            " ",
            *sector,
            " refused 1\n",
        ),
        Reply::DamageFailed { leaf, sector } => twice_numbered(
            alloc,
            "damage ",
            *leaf,
            " ",
            *sector,
            " failed\n",
        ),
        Reply::DamageWorn { leaf, sector } => twice_numbered(
            alloc, "damage ", *leaf, " ", *sector, " worn\n",
        ),
        _ => slot_text(alloc, reply),
    }
}

/// The line of a reply on the arms of slots, or of one that follows.
fn slot_text(alloc: Global, reply: &Reply) -> Result<String, AllocError>
    requires { IsBelowDisks reply.now }
    ensures { IfOk result (λ text. string_bytes text ≡ text_of reply.now) }
{
    match reply {
        Reply::Spared { slot, name } => spared(alloc, *slot, name),
        Reply::SpareRefused { slot, why } => slot_refused(alloc, CommandName::Spare, *slot, *why),
        Reply::SpareWorn { slot } => numbered(alloc, "spare ", u64::from(*slot), " worn\n"),
        Reply::Replaced { slot, leaf } => twice_numbered(
            alloc,
            "replace ",
            u64::from(*slot),
            " leaf=",
            *leaf,
            " ok\n",
        ),
        Reply::ReplaceRefused { slot, why } => slot_refused(
            alloc,
            CommandName::Replace,
            *slot,
            *why,
        ),
        Reply::ReplaceWorn { slot } => numbered(alloc, "replace ", u64::from(*slot), " worn\n"),
        Reply::Detached { arm, group } => detached(alloc, *arm, *group),
        Reply::DetachRefused { arm, why } => detach_refused(alloc, *arm, *why),
        Reply::DetachWorn { arm } => detach_stopped(alloc, *arm, "worn"),
        Reply::DetachLast { arm } => detach_stopped(alloc, *arm, "last"),
        _ => pass_text(alloc, reply),
    }
}

/// The line of a reply on passes, or of one that follows.
fn pass_text(alloc: Global, reply: &Reply) -> Result<String, AllocError>
    requires { IsBelowSlots reply.now }
    ensures { IfOk result (λ text. string_bytes text ≡ text_of reply.now) }
{
    match reply {
        Reply::Rebuilt {
            from,
            stripes,
            errors,
            paused,
        } => rebuilt(alloc, *from, *stripes, *errors, *paused),
        Reply::RebuildNothing => String::from_str(alloc, "rebuild nothing\n"),
        Reply::Scrubbed {
            from,
            blocks,
            repaired,
            errors,
            paused,
        } => scrubbed(alloc, *from, *blocks, *repaired, *errors, *paused),
        Reply::Rebalanced {
            slot,
            blocks,
            repaired,
            errors,
            group,
        } => rebalanced(alloc, *slot, *blocks, *repaired, *errors, *group),
        Reply::RebalanceRefused { slot, why } => slot_refused(
            alloc,
            CommandName::Rebalance,
            *slot,
            *why,
        ),
        Reply::RebalanceWorn { slot } => numbered(alloc, "rebalance ", u64::from(*slot), " worn\n"),
        Reply::RebalanceLast { slot } => numbered(alloc, "rebalance ", u64::from(*slot), " last\n"),
        Reply::Cancelled { passes } => numbered(alloc, "cancel ", u64::from(*passes), "\n"),
        _ => late_text(alloc, reply),
    }
}

/// The line of a reply on lanes, versions, the agent or the checkpoint.
fn late_text(alloc: Global, reply: &Reply) -> Result<String, AllocError>
    requires { IsBelowPasses reply.now }
    ensures { IfOk result (λ text. string_bytes text ≡ text_of reply.now) }
{
    match reply {
        Reply::LanesClash { object } => numbered(alloc, "lanes clash object=", *object, "\n"),
        Reply::LanesClashMend => String::from_str(alloc, "lanes clash mend\n"),
        Reply::LanesCheckpoint => String::from_str(alloc, "lanes checkpoint\n"),
        Reply::Upgraded { group } => numbered(alloc, "upgrade version=2 group=", *group, "\n"),
        Reply::UpgradeAlready => String::from_str(alloc, "upgrade already\n"),
        Reply::AgentIdle => String::from_str(alloc, "agent idle\n"),
        Reply::Acted {
            parity,
            entries,
            errors,
        } => acted(alloc, *parity, entries, *errors),
        Reply::Journal { parity, entries } => journal(alloc, *parity, entries),
        Reply::Checkpointed { group } => numbered(alloc, "checkpoint group=", *group, "\n"),
        Reply::CheckpointThere { group } => numbered(
            alloc,
            "checkpoint refused group=",
            *group,
            "\n",
        ),
        Reply::Rewound { group, objects } => twice_numbered(
            alloc,
            "rewind group=",
            *group,
            " objects=",
            *objects,
            "\n",
        ),
        Reply::Discarded { freed, group } => twice_numbered(
            alloc,
            "discard freed=",
            *freed,
            " group=",
            *group,
            "\n",
        ),
        _ => unreachable!(),
    }
}
