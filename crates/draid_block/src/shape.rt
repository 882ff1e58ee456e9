//! How a block is cut over the data columns of a geometry.
ghost use Rattle.std.specs.Prelude.{◌≡◌, ◌*◌, ◌≤◌, ◌<◌};
ghost use Rattle.draid_spec.specs.Geometry.{IsGeometry};
ghost use Rattle.draid_block.specs.Columns.{stripes_of, sectors_in};
ghost use Rattle.draid_block.specs.Blocks.{cut_of, column_len};

use draid_names::LONGEST_BLOCK;
use draid_spec::Geometry;

/// How many stripes a block of `len` bytes takes.
#[tactic(auto, unfolding(crate::specs::Columns::stripes_of, crate::specs::Columns::sectors_of))]
pub fn stripes_for(geometry: &Geometry, len: u32) -> u32
    requires geometry { IsGeometry geometry.now }
    ensures { result ≡ stripes_of (cut_of geometry.now) len }
{
    len.div_ceil(geometry.props.sector)
        .div_ceil(geometry.spec.ndata)
}

/// The bytes of one column of a block of `len` bytes.
#[tactic(auto, using(crate::proofs::Parts::short_column), unfolding(crate::specs::Blocks::column_len))]
pub fn column_bytes(geometry: &Geometry, len: u32) -> u32
    requires geometry { IsGeometry geometry.now }
    requires short { len ≤ LONGEST_BLOCK }
    ensures { result ≡ column_len (cut_of geometry.now) len }
{
    stripes_for(geometry, len) * geometry.props.sector
}

/// How many of the block's sectors data column `i` has.
#[tactic(auto, unfolding(crate::specs::Columns::sectors_in, crate::specs::Columns::full_columns, crate::specs::Columns::sectors_of))]
fn part_sectors(geometry: &Geometry, len: u32, i: u32) -> u32
    requires geometry { IsGeometry geometry.now }
    ensures { result ≡ sectors_in (cut_of geometry.now) len i }
{
    let stripes = stripes_for(geometry, len);
    let full = len.div_ceil(geometry.props.sector) % geometry.spec.ndata;
    if full == 0 || i < full {
        return stripes;
    }
    stripes - 1
}

/// How many bytes of a column, from its front, are of the block's sectors: data column `i`.
#[tactic(auto, using(crate::proofs::Parts::short_part))]
pub fn part_bytes(geometry: &Geometry, len: u32, i: u32) -> usize
    requires geometry { IsGeometry geometry.now }
    requires short { len ≤ LONGEST_BLOCK }
    ensures { result ≡ sectors_in (cut_of geometry.now) len i * geometry.now.props.sector }
{
    part_sectors(geometry, len, i) as usize * geometry.props.sector as usize
}
