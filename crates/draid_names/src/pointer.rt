/// Where a block lies, and how its bytes are known again.
#[derive(Clone, Copy, PartialEq, Eq)]
pub struct Pointer {
    /// The object that the block was written to, below 2^32.
    pub object: u64,
    /// The number of the write, from 1 on; with the object it is the block's key.
    pub seq: u64,
    /// The metaslab in which the block lies.
    pub metaslab: u32,
    /// The block's first stripe, counted within its metaslab.
    pub first: u64,
    /// How many consecutive stripes the block takes, at least 1.
    pub stripes: u32,
    /// The length of the block in bytes, 1 to 131,072.
    pub len: u32,
    /// The transaction group in which the block was born.
    pub birth: u64,
    /// The SHA-256 digest (FIPS 180-4) of the block's bytes, without padding.
    pub digest: [u8; 32],
}
