ghost use Rattle.std.specs.Prelude.{◌≡◌, ◌<◌, ◌≤◌, ◌^◌};
ghost use Rattle.draid_spec.specs.Geometry as geometry;
ghost use Rattle.draid_spec.specs.Geometry.{IsGeometry};

use crate::layout::Geometry;
use crate::numbers::total_sectors;

impl Geometry {
    /// The stripes of a pool.
    pub fn pool_stripes(&self) -> u64
        requires { IsGeometry self.now }
        ensures { result ≡ geometry.pool_stripes self.now }
    {
        u64::from(self.props.metaslabs) * self.metaslab_stripes()
    }

    /// The stripes of a metaslab, at most 2^28.
    pub fn metaslab_stripes(&self) -> u64
        requires { IsGeometry self.now }
        ensures value { result ≡ geometry.metaslab_stripes self.now }
        ensures some { 0 < result }
        ensures most { result ≤ 2 ^ 28 }
    {
        let slices = u64::from(self.props.slices);
        slices * u64::from(self.ngroups) * u64::from(self.props.height)
    }

    /// The sectors that a metaslab has of each child, at most 2^28.
    pub fn metaslab_sectors(&self) -> u64
        requires { IsGeometry self.now }
        ensures value { result ≡ geometry.metaslab_sectors self.now }
        ensures some { 0 < result }
        ensures most { result ≤ 2 ^ 28 }
    {
        let slices = u64::from(self.props.slices);
        slices * u64::from(self.rows) * u64::from(self.props.height)
    }

    /// The sectors that a slice has of each child, at most 2^18.
    pub fn slice_sectors(&self) -> u64
        requires { IsGeometry self.now }
        ensures value { result ≡ geometry.slice_sectors self.now }
        ensures some { 0 < result }
    {
        u64::from(self.rows) * u64::from(self.props.height)
    }

    /// The sectors of a child, over all metaslabs.
    pub fn child_sectors(&self) -> u64
        requires { IsGeometry self.now }
        ensures { result ≡ geometry.child_sectors self.now }
    {
        total_sectors(self.props, self.rows)
    }
}
