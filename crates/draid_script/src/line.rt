/// A line of a script: a command with its words, or a line that asks for nothing.
#[derive(Debug, Drop)]
pub enum Line {
    /// An empty line, or a comment.
    Nothing,
    /// `create SPEC N [key=value ..]`: a pool of this spec over so many children.
    Create {
        spec: Vec<u8>,
        children: u32,
        keys: PoolKeys,
    },
    /// `import`: the pool that the shelf has.
    Import,
    /// `export`: what was written is made safe, and the pool is closed.
    Export,
    /// `sync`: what was written is made safe.
    Sync,
    /// `cancel`: all passes are ended.
    Cancel,
    /// `crash`: the pool is closed as it stands.
    Crash,
    /// `write O HEX`: the object, below 2^32, gets these bytes, 1 to 131,072.
    Write {
        object: u64,
        bytes: Vec<u8>,
    },
    /// `fill F C L X`: `count` objects from the first on, 1 to 65,536 and all below 2^32, get `len` bytes each, 1 to
    /// 131,072, by this seed.
    Fill {
        first: u64,
        count: u64,
        len: u32,
        seed: u64,
    },
    /// `read O`: what are the bytes of the object, below 2^32?
    Read {
        object: u64,
    },
    /// `free O`: the object, below 2^32, has no bytes any more.
    Free {
        object: u64,
    },
    /// `sum F C`: what is the digest of the bytes of so many objects from the first on?
    Sum {
        first: u64,
        count: u64,
    },
    /// `offline L`: the leaf, below 2^48, answers no more.
    Offline {
        leaf: u64,
    },
    /// `online L`: the leaf, below 2^48, answers again.
    Online {
        leaf: u64,
    },
    /// `damage L X`: the bytes of a sector of the leaf change. It is counted through the metaslabs, below 2^26.
    Damage {
        leaf: u64,
        sector: u64,
    },
    /// `spare S T`: the slot gets a distributed spare. Both are below 2^32.
    Spare {
        slot: u32,
        spare: u32,
    },
    /// `replace S [X]`: the slot, below 2^32, gets a disk of so many sectors, below 2^48, or of just as many as are
    /// needed.
    Replace {
        slot: u32,
        sectors: Option<u64>,
    },
    /// `detach A`: an arm leaves its slot.
    Detach {
        arm: ArmArgument,
    },
    /// `rebuild [N]`: at most so many stripes are rebuilt, 1 to 2^48 - 1.
    Rebuild {
        limit: Option<u64>,
    },
    /// `scrub [N]`: at most so many blocks are scrubbed, 1 to 2^48 - 1.
    Scrub {
        limit: Option<u64>,
    },
    /// `rebalance S`: the slot, below 2^32, goes back to its last leaf alone.
    Rebalance {
        slot: u32,
    },
    /// `status` and `status json`.
    Status {
        format: StatusFormat,
    },
    /// `lanes K`: a section of so many lanes follows, 1 to 16.
    Lanes {
        count: u32,
    },
    /// `upgrade`: the pool gets version 2.
    Upgrade,
    /// `agent N`: each slot whose only leaf is offline, or has at least so many groups in its log, gets a spare, as
    /// long as one is free. 1 to 2^32 - 1.
    Agent {
        least: u64,
    },
    /// `agent log`: what did the agent do in this session?
    AgentLog,
    /// `checkpoint`: the objects are remembered as they are.
    Checkpoint,
    /// `rewind`: the objects are again what they were at the checkpoint.
    Rewind,
    /// `discard`: the checkpoint is forgotten.
    Discard,
}

/// The values of the keys of `create`, with the default where the line has none.
#[derive(Clone, Copy, Debug)]
pub struct PoolKeys {
    /// `sector`, the bytes of a sector; 4,096 by default.
    pub sector: u32,
    /// `height`, the sectors of a row on each child; 8 by default.
    pub height: u32,
    /// `metaslabs`; 4 by default.
    pub metaslabs: u32,
    /// `slices`, of each metaslab; 16 by default.
    pub slices: u32,
    /// `seed` of the base rows; 1 by default.
    pub seed: u64,
    /// `version` of the pool's format; 1 by default.
    pub version: u32,
}

/// An arm as `detach` names it.
#[derive(Clone, Copy, Debug)]
pub enum ArmArgument {
    /// A leaf's number, below 2^48.
    Leaf { leaf: u64 },
    /// A distributed spare, as `draid2-0-0`: the parity, 1 to 3, and the spare, below 2^32.
    Spare { parity: u32, spare: u32 },
}

/// How `status` is printed.
#[derive(Clone, Copy, Debug)]
pub enum StatusFormat {
    Text,
    Json,
}

/// A line of a section.
#[derive(Debug, Drop)]
pub enum LaneLine {
    /// `end`, behind which the section runs.
    End,
    /// An empty line, or a comment.
    Nothing,
    /// A command of a lane.
    Lane { lane: u32, line: Line },
}
