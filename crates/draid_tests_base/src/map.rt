ghost use Rattle.draid_map.specs.Place.{IsLayout};
ghost use Rattle.draid_spec.specs.Geometry.{IsGeometry};

use crate::layouts::{DEFAULTS, layout};
use draid_map::{Owner, Place, owner, place, spare_child};
use draid_perm::Perms;
use draid_spec::Geometry;

/// Whether a column of stripe 8 lies at a sector of the child at this position of slice 0, and is this sector's owner.
fn lies_at(layout: &Geometry, perms: &Perms, column: u32, position: u32, sector: u64) -> bool
    requires { IsLayout layout.now perms.now }
{
    if column >= layout.g || position >= layout.spec.children || layout.pool_stripes() < 9 {
        return false;
    }
    let child = perms.child(0, position);
    place(layout, perms, 8, column) == Place { child, sector }
        && owner(layout, perms, child, sector) == Owner::Column { stripe: 8, column }
}

/// Whether the nine columns of stripe 8 lie at the last three positions of the first row and at the first six of the next.
fn columns_lie_in_order(layout: &Geometry, perms: &Perms) -> bool
    requires { IsLayout layout.now perms.now }
{
    for column in 0..3 {
        if !lies_at(layout, perms, column, 9 + column, 0) {
            return false;
        }
    }
    for column in 3..9 {
        if !lies_at(layout, perms, column, column - 3, 8) {
            return false;
        }
    }
    true
}

/// Whether the child at the last position but one of the last slice has the last sector of spare 1, and none behind it.
fn ends_with_a_spare(layout: &Geometry, perms: &Perms) -> bool
    requires { IsLayout layout.now perms.now }
{
    if layout.spec.children < 13 || layout.spec.spares < 2 || layout.child_sectors() < 1536 {
        return false;
    }
    let last = perms.child(63, 12);
    spare_child(layout, perms, 1, 1535) == last
        && owner(layout, perms, last, 1535) == Owner::Spare { spare: 1 }
        && owner(layout, perms, last, 1536) == Owner::Past
}

/// Whether a layout has these numbers, and columns and spares lie in it so.
fn is_laid_out(layout: &Geometry) -> bool
    requires { IsGeometry layout.now }
{
    let perms = Perms::new(layout.spec.children, layout.props.seed);
    let spec = layout.spec;
    [
        spec.children,
        spec.spares,
        layout.g,
        layout.ngroups,
        layout.rows,
    ] == [14, 2, 9, 4, 3]
        && columns_lie_in_order(layout, &perms)
        && ends_with_a_spare(layout, &perms)
}

/// The same of a layout of 14 children.
fn has_owners() -> bool {
    match layout(b"draid:2s", 14, DEFAULTS) {
        Ok(layout) => is_laid_out(&layout),
        Err(_) => false,
    }
}

#[test]
fn sectors_have_their_owners(rt: HostRuntime) {
    assert!(rt; has_owners());
}
