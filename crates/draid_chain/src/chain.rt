ghost use Rattle.std.specs.Prelude.{◌≡◌, ◌<◌, ◌≤◌, ◌↔◌, IsTrue, length};
ghost use Rattle.draid_spec.specs.Geometry.{IsGeometry, slice_at};
ghost use Rattle.draid_perm.specs.Perms.{children_of};
ghost use Rattle.draid_names.specs.Spares.{AreUsed, IsArm};
ghost use Rattle.draid_chain.specs.Chain.{holder_in, holder_of, links_in, links_of, spare_slot, stands_before};
ghost use Rattle.draid_chain.specs.Used.{HasColumn, first_in};

use draid_perm::Perms;
use draid_spec::Geometry;

/// Where a chain of spares ends, and how many spares it has.
#[derive(Clone, Copy)]
struct ChainEnd {
    holder: u32,
    links: u32,
}

/// The slot on whose first leaf a spare arm of a slot keeps a sector. `used` has each slot's first
/// spare.
///
/// It is the slot at the spare's position of the sector's slice. Where that slot has a spare arm
/// itself, and the arm's own slot a column in the slice, it is the slot to which the first spare
/// there leads in the same way.
pub fn holder(
    geometry: &Geometry,
    perms: &Perms,
    used: &[Option<u32>],
    slot: u32,
    spare: u32,
    sector: u64,
) -> u32
    requires geometry { IsGeometry geometry.now }
    requires children { children_of perms.now ≡ geometry.now.spec.children }
    requires all { length used.now ≡ geometry.now.spec.children }
    requires used { AreUsed geometry.now.spec.children geometry.now.spec.spares (first_in used.now) }
    requires arm { IsArm geometry.now.spec.children geometry.now.spec.spares (first_in used.now)
        slot spare }
    ensures slot { result ≡ holder_of geometry.now perms.now (first_in used.now) slot spare sector }
    ensures below { result < geometry.now.spec.children }
{
    chain(
        geometry,
        perms,
        used,
        sector / geometry.slice_sectors(),
        slot,
        spare,
    )
    .holder
}

/// How many spares are passed on the way from a spare arm of a slot to its holder, itself counted.
pub fn links(
    geometry: &Geometry,
    perms: &Perms,
    used: &[Option<u32>],
    slot: u32,
    spare: u32,
    sector: u64,
) -> u32
    requires geometry { IsGeometry geometry.now }
    requires children { children_of perms.now ≡ geometry.now.spec.children }
    requires all { length used.now ≡ geometry.now.spec.children }
    requires used { AreUsed geometry.now.spec.children geometry.now.spec.spares (first_in used.now) }
    requires arm { IsArm geometry.now.spec.children geometry.now.spec.spares (first_in used.now)
        slot spare }
    ensures count { result ≡ links_of geometry.now perms.now (first_in used.now) slot spare sector }
    ensures some { 1 ≤ result }
    ensures most { result ≤ geometry.now.spec.spares }
{
    chain(
        geometry,
        perms,
        used,
        sector / geometry.slice_sectors(),
        slot,
        spare,
    )
    .links
}

/// The slot on whose first leaf a spare arm of a slot keeps a slice of the pool.
pub fn slice_holder(
    geometry: &Geometry,
    perms: &Perms,
    used: &[Option<u32>],
    slice: u64,
    slot: u32,
    spare: u32,
) -> u32
    requires geometry { IsGeometry geometry.now }
    requires children { children_of perms.now ≡ geometry.now.spec.children }
    requires all { length used.now ≡ geometry.now.spec.children }
    requires used { AreUsed geometry.now.spec.children geometry.now.spec.spares (first_in used.now) }
    requires arm { IsArm geometry.now.spec.children geometry.now.spec.spares (first_in used.now)
        slot spare }
    ensures slot { result
        ≡ holder_in perms.now geometry.now.spec.spares slice (first_in used.now) slot spare }
    ensures below { result < geometry.now.spec.children }
{
    chain(geometry, perms, used, slice, slot, spare).holder
}

/// The chain of a spare arm in a slice. Where its slot has no column there, it has one link.
fn chain(
    geometry: &Geometry,
    perms: &Perms,
    used: &[Option<u32>],
    slice: u64,
    slot: u32,
    spare: u32,
) -> ChainEnd
    requires geometry { IsGeometry geometry.now }
    requires children { children_of perms.now ≡ geometry.now.spec.children }
    requires all { length used.now ≡ geometry.now.spec.children }
    requires used { AreUsed geometry.now.spec.children geometry.now.spec.spares (first_in used.now) }
    requires arm { IsArm geometry.now.spec.children geometry.now.spec.spares (first_in used.now)
        slot spare }
    ensures holder { result.holder
        ≡ holder_in perms.now geometry.now.spec.spares slice (first_in used.now) slot spare }
    ensures below { result.holder < geometry.now.spec.children }
    ensures links { result.links
        ≡ links_in perms.now geometry.now.spec.spares slice (first_in used.now) slot spare }
    ensures some { 1 ≤ result.links }
    ensures most { result.links ≤ geometry.now.spec.spares }
{
    let mut holder = at_spare(geometry, perms, slice, spare);
    let mut links = 1;
    if !has_column(geometry, perms, slice, slot) {
        return ChainEnd { holder, links };
    }
    'links: while let Some(next) = used[holder as usize] {
        holder = at_spare(geometry, perms, slice, next);
        links += 1;
    }
    ChainEnd { holder, links }
}

/// The slot at the position of a spare in a slice of the pool.
pub fn at_spare(geometry: &Geometry, perms: &Perms, slice: u64, spare: u32) -> u32
    requires geometry { IsGeometry geometry.now }
    requires children { children_of perms.now ≡ geometry.now.spec.children }
    requires spare { spare < geometry.now.spec.spares }
    ensures slot { result ≡ spare_slot perms.now slice spare }
    ensures below { result < geometry.now.spec.children }
{
    perms.child(slice, geometry.spec.children - 1 - spare)
}

/// Whether a slot has a column in a slice of the pool. Otherwise it stands at a spare's position.
pub fn has_column(geometry: &Geometry, perms: &Perms, slice: u64, slot: u32) -> bool
    requires geometry { IsGeometry geometry.now }
    requires children { children_of perms.now ≡ geometry.now.spec.children }
    requires slot { slot < geometry.now.spec.children }
    ensures test { result ≡ stands_before perms.now slice geometry.now.ndisks slot }
    ensures column { IsTrue result ↔ HasColumn perms.now geometry.now.spec.spares slice slot }
{
    perms.position(slice, slot) < geometry.ndisks
}
