/// Why a change of arms was refused, by the number that is printed.
#[derive(Clone, Copy, PartialEq, Eq)]
pub enum SlotFault {
    /// 1: there is no such slot, arm or spare.
    NoSuch,
    /// 2: the spare is an arm of slot `by`, or was one and its detachment isn't committed.
    SpareBusy { by: u32 },
    /// 4: each other arm of the slot missed some group; `groups` is the least number of groups that one did.
    LogNotEmpty { groups: u64 },
    /// 5: the slot would have no leaf left.
    LastArm,
    /// 6: a metaslab has a pass; `metaslab` is the lowest such, and `number` the number of its pass.
    PassRunning { metaslab: u32, number: u64 },
    /// 7: a new leaf has fewer sectors than are needed.
    TooSmall { need: u64, have: u64 },
    /// 8: the slot has as many arms as it may have.
    Full { arms: u32 },
    /// 9: no number is left for a new leaf.
    Last,
}

/// Why no bytes were written to an object, which has its earlier ones.
#[derive(Clone, Copy)]
pub enum WriteFault {
    /// No metaslab has room: the longest run that one has is too short, and so many metaslabs take no new block,
    /// since they are disabled, full or worn.
    NoSpace {
        run: u64,
        disabled: u32,
        full: u32,
        worn: u32,
    },
    /// So many columns landed on no leaf.
    Missed {
        columns: u32,
    },
    /// The number of the last write is the greatest that there is.
    Last,
    NoMemory,
}

/// Why an object gives no bytes.
#[derive(Clone, Copy)]
pub enum ObjectFault {
    /// It has none.
    NoObject,
    /// No set of columns restores them: so many columns are absent, and so many sets were tried.
    Unreadable { absent: u32, tried: u64 },
    /// Its metaslab has too many events.
    Worn,
    NoMemory,
}
