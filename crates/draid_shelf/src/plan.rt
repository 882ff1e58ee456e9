use draid_faults::Fuse;

/// The numbers of the calls of a device that fail. None fails where there is no list.
pub(crate) type Numbers = Option<Vec<u64>>;

/// How the devices fail that a shelf in memory makes.
#[derive(Drop)]
pub(crate) struct Plan {
    /// The lists of each metaslab's rack and areas, on its place.
    pub racks: [Numbers; 64],
    pub evens: [Numbers; 64],
    pub odds: [Numbers; 64],
    pub check_even: Numbers,
    pub check_odd: Numbers,
    pub uber: Numbers,
    /// The fuse that all of them share.
    pub fuse: Option<Fuse>,
}
