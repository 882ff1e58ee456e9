use crate::spec::Spec;

/// What is chosen for a pool beside its spec.
#[derive(Clone, Copy, PartialEq, Eq)]
pub struct Props {
    /// The bytes of a sector, 512 or 4096.
    pub sector: u32,
    /// The sectors of a row on one child, a power of two from 8 to 4096.
    pub height: u32,
    /// The metaslabs, 1 to 64.
    pub metaslabs: u32,
    /// The slices of a metaslab, 1 to 1024.
    pub slices: u32,
    /// The seed of the permutations.
    pub seed: u64,
    /// The version of the pool's format, 1 or 2.
    pub version: u32,
}

/// A pool's layout: its spec, its properties, and the numbers that follow from them.
#[derive(Clone, Copy)]
pub struct Geometry {
    pub spec: Spec,
    pub props: Props,
    /// The columns of a stripe, data and parity.
    pub g: u32,
    /// The children beside the spares, which each row of a slice goes over.
    pub ndisks: u32,
    /// The parity groups of a slice.
    pub ngroups: u32,
    /// The rows of a slice.
    pub rows: u32,
}
