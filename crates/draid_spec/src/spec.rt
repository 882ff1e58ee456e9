/// How the columns of a stripe are protected and how many children hold them.
#[derive(Clone, Copy, PartialEq, Eq)]
pub struct Spec {
    /// The parity columns of a stripe, 1 to 3.
    pub parity: u32,
    /// The data columns of a stripe.
    pub ndata: u32,
    /// The children of the vdev, 2 to 32 in version 1 and 2 to 64 in version 2.
    pub children: u32,
    /// The distributed spares, at most 4.
    pub spares: u32,
}

/// Why a spec or its properties are refused.
#[derive(Clone, Copy, PartialEq, Eq)]
pub enum SpecFault {
    /// The text doesn't begin with `draid`.
    NotDraid,
    /// A digit other than 1, 2 or 3 follows `draid`.
    Parity,
    /// The text leaves the grammar at this byte, or ends here too early.
    Number { at: u32 },
    /// A letter stands a second time.
    Repeated { letter: u8 },
    /// The text names another number of children than there are.
    Children { said: u32, given: u32 },
    /// A stripe has more columns than there are children beside the spares.
    Width { need: u32, have: u32 },
    /// A number is out of its range: `c` children, `s` spares, `d` data columns, `v` version, `b` bytes of
    /// a sector, `h` height, `m` metaslabs, `l` slices of a metaslab, `z` sectors of a child.
    Limit { which: u8, value: u64 },
}
