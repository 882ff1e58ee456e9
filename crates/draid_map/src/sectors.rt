/// A sector of a child.
#[derive(Clone, Copy, PartialEq, Eq)]
pub struct Place {
    pub child: u32,
    pub sector: u64,
}

/// What a sector of a child is for.
#[derive(Clone, Copy, PartialEq, Eq)]
pub enum Owner {
    /// A column of a stripe of the pool.
    Column { stripe: u64, column: u32 },
    /// The space of a distributed spare.
    Spare { spare: u32 },
    /// Nothing: the sector lies behind the last slice.
    Past,
}
