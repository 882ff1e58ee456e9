ghost use Rattle.std.specs.Prelude.{IfOk};
ghost use Rattle.draid_spec.specs.Geometry.{IsGeometry};

use draid_spec::{Geometry, Props, SpecFault, geometry, parse_spec};

/// What `create` takes where no key is given.
pub const DEFAULTS: Props = Props {
    sector: 4096,
    height: 8,
    metaslabs: 4,
    slices: 16,
    seed: 1,
    version: 1,
};

/// One metaslab of four slices.
pub const SMALL: Props = Props {
    sector: 512,
    height: 8,
    metaslabs: 1,
    slices: 4,
    seed: 1,
    version: 1,
};

/// The layout of a spec and these numbers.
pub fn layout(text: &[u8], children: u32, props: Props) -> Result<Geometry, SpecFault>
    ensures { IfOk result IsGeometry }
{
    geometry(parse_spec(text, children, props.version)?, props)
}
