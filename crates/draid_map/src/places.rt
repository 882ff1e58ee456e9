ghost use Rattle.std.specs.Prelude.{◌≡◌, ◌+◌, ◌<◌, ◌*◌};
ghost use Rattle.draid_spec.specs.Geometry.{child_sectors, pool_stripes};
ghost use Rattle.draid_map.specs.Owner.{Owns};
ghost use Rattle.draid_map.specs.Place.{IsLayout, place_of, spare_child_of};

use crate::sectors::{Owner, Place};
use crate::spot::Spot;
use draid_perm::Perms;
use draid_spec::Geometry;

/// Where a column of a stripe of the pool lies, in the manner of OpenZFS's `vdev_draid.c`.
pub fn place(geometry: &Geometry, perms: &Perms, stripe: u64, column: u32) -> Place
    requires layout { IsLayout geometry.now perms.now }
    requires stripe { stripe < pool_stripes geometry.now }
    requires column { column < geometry.now.g }
    ensures { result ≡ place_of geometry.now perms.now stripe column }
{
    let height = u64::from(geometry.props.height);
    let spot = Spot::of(stripe, u64::from(geometry.ngroups), height);
    let index = spot.band * u64::from(geometry.g) + u64::from(column);
    let ndisks = u64::from(geometry.ndisks);
    let lies = Spot {
        band: index / ndisks,
        ..spot
    };
    Place {
        child: perms.child(spot.slice, (index % ndisks) as u32),
        sector: lies.number(u64::from(geometry.rows), height),
    }
}

/// The child that a spare stands on at a sector.
pub fn spare_child(geometry: &Geometry, perms: &Perms, spare: u32, sector: u64) -> u32
    requires layout { IsLayout geometry.now perms.now }
    requires spare { spare < geometry.now.spec.spares }
    requires sector { sector < child_sectors geometry.now }
    ensures { result ≡ spare_child_of geometry.now perms.now spare sector }
{
    let height = u64::from(geometry.props.height);
    let spot = Spot::of(sector, u64::from(geometry.rows), height);
    perms.child(spot.slice, geometry.spec.children - 1 - spare)
}

/// What a sector of a child is for.
pub fn owner(geometry: &Geometry, perms: &Perms, child: u32, sector: u64) -> Owner
    requires layout { IsLayout geometry.now perms.now }
    requires child { child < geometry.now.spec.children }
    ensures owns { Owns geometry.now perms.now child sector result }
{
    if sector >= geometry.child_sectors() {
        return Owner::Past;
    }
    let height = u64::from(geometry.props.height);
    let spot = Spot::of(sector, u64::from(geometry.rows), height);
    let position = perms.position(spot.slice, child);
    if position >= geometry.ndisks {
        return Owner::Spare {
            spare: geometry.spec.children - 1 - position,
        };
    }
    let index = spot.band * u64::from(geometry.ndisks) + u64::from(position);
    let g = u64::from(geometry.g);
    let held = Spot {
        band: index / g,
        ..spot
    };
    Owner::Column {
        stripe: held.number(u64::from(geometry.ngroups), height),
        column: (index % g) as u32,
    }
}
