//! The devices over which a test has a metaslab.

ghost use Rattle.std.specs.Prelude.{◌≤◌, ◌+◌, IfOk};
ghost use Rattle.draid_rack.specs.Memory.{shape_of_memory};
ghost use Rattle.draid_rack.specs.Rack.{HasJust};
ghost use Rattle.draid_spec.specs.Geometry.{IsGeometry, metaslab_sectors};

use draid_area::MemoryArea;
use draid_names::NoMemory;
use draid_rack::MemoryRack;
use draid_shelf::Kit;
use draid_spec::{Geometry, Props, SpecFault, geometry, parse_spec};
use std::alloc::{AllocError, Global};

/// Two data columns and their parity on three children, in one metaslab of slices of eight stripes.
pub fn layout(slices: u32) -> Result<Geometry, SpecFault>
    ensures { IfOk result IsGeometry }
{
    let props = Props {
        sector: 512,
        height: 8,
        metaslabs: 1,
        slices,
        seed: 1,
        version: 1,
    };
    geometry(parse_spec(b"draid1:2d:3c", 3, 1)?, props)
}

/// An area of these bytes, whose calls with these numbers fail.
fn area(alloc: Global, bytes: &[u8], failing: &[u64]) -> Result<MemoryArea, AllocError> {
    let bytes = Vec::from_slice(alloc, bytes)?;
    let failing = Vec::from_slice(alloc, failing)?;
    MemoryArea::new(alloc, bytes, failing)
}

/// So many leaves of so many sectors of so many bytes. The calls with these numbers fail.
pub fn rack(
    alloc: Global,
    leaves: u32,
    sectors: u64,
    bytes: u32,
    failing: &[u64],
) -> Result<MemoryRack, NoMemory>
    ensures { IfOk result (λ rack. HasJust (shape_of_memory rack) leaves sectors bytes) }
{
    let failing = Vec::from_slice(alloc, failing)?;
    MemoryRack::new(alloc, leaves, sectors, bytes, failing)
}

/// The devices of a metaslab: so many leaves, each with so many sectors more than the metaslab's, an empty area of even groups,
/// and these bytes in that of odd groups. The calls of each with these numbers fail.
pub fn kit(
    alloc: Global,
    layout: &Geometry,
    leaves: u32,
    more: u64,
    bytes: &[u8],
    failing: [&[u64]; 3],
) -> Result<Kit<MemoryRack, MemoryArea>, NoMemory>
    requires layout { IsGeometry layout.now }
    requires more { more ≤ 1 }
    ensures just { IfOk result (λ kit. HasJust (shape_of_memory kit.rack) leaves (metaslab_sectors layout.now + more) layout.now.props.sector) }
{
    let even = area(alloc, &[], failing[1])?;
    let odd = area(alloc, bytes, failing[2])?;
    let sectors = layout.metaslab_sectors() + more;
    let rack = rack(alloc, leaves, sectors, layout.props.sector, failing[0])?;
    Ok(Kit { rack, even, odd })
}
