use draid_area::Area;

/// The areas of a pool that aren't a metaslab's.
#[derive(Drop)]
pub struct Areas<A: Area> {
    pub uber: A,
    /// The check records of even and of odd groups.
    pub even: A,
    pub odd: A,
}
