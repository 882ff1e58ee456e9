ghost use Rattle.std.specs.Prelude.{◌≡◌, ◌+◌, ◌<◌, ◌≤◌, ◌*◌, ◌^◌, IfOk, OnOk};
ghost use Rattle.draid_spec.specs.Multiple.{IsLeastCommonMultiple, lcm};
ghost use Rattle.draid_spec.specs.Spec as spec;
ghost use Rattle.draid_spec.specs.Spec.{IsSpec, need_of, have_of, checked_width};
ghost use Rattle.draid_spec.specs.Geometry.{FillsRows, IsGeometry, IsProps, IsVersion, geometry_of, checked_props, checked_version, ngroups_of, rows_of, total_of};

use crate::layout::{Geometry, Props};
use crate::spec::{Spec, SpecFault};

/// The most sectors of a child, over all metaslabs.
const MOST_SECTORS: u64 = 67_108_864;

/// The layout of a pool, in the manner of OpenZFS's `vdev_draid.c`. A slice has so many groups and rows
/// that the groups fill the rows. The version is looked at first, then the width, the sector, the
/// height, the metaslabs, the slices and the sectors of a child.
pub fn geometry(spec: Spec, props: Props) -> Result<Geometry, SpecFault>
    requires { IsSpec props.version spec }
    ensures exact { result ≡ geometry_of spec props }
    ensures whole { IfOk result IsGeometry }
{
    check_version(props.version)?;
    check_width(spec)?;
    check_props(props)?;
    let g = spec.ndata + spec.parity;
    let ndisks = spec.children - spec.spares;
    let ngroups = group_count(g, ndisks);
    let rows = ngroups * g / ndisks;
    let total = total_sectors(props, rows);
    if total > MOST_SECTORS {
        return Err(SpecFault::Limit {
            which: b'z',
            value: total,
        });
    }
    Ok(Geometry {
        spec,
        props,
        g,
        ndisks,
        ngroups,
        rows,
    })
}

/// The groups of a slice: as few as fill whole rows.
#[tactic(auto, using(crate::proofs::Sizes::slice_filled))]
fn group_count(g: u32, ndisks: u32) -> u32
    requires some { 0 < g }
    requires width { g ≤ ndisks }
    requires most { ndisks ≤ 64 }
    ensures value { result ≡ ngroups_of g ndisks }
    ensures slice { FillsRows g ndisks result (rows_of g ndisks) }
{
    least_common_multiple(g, ndisks) / g
}

/// The most children of a pool, by the version of its format.
pub fn most_children(version: u32) -> u32
    ensures value { result ≡ spec.most_children version }
    ensures most { result ≤ 64 }
    ensures first { version ≡ 1 → result ≡ 32 }
{
    if version == 1 { 32 } else { 64 }
}

/// Refuses a version other than 1 and 2.
fn check_version(version: u32) -> Result<(), SpecFault>
    ensures exact { result ≡ checked_version version }
    ensures known { OnOk result (IsVersion version) }
{
    if version != 1 && version != 2 {
        return Err(limit(b'v', version));
    }
    Ok(())
}

/// Refuses a stripe with more columns than there are children beside the spares.
pub(crate) fn check_width(spec: Spec) -> Result<(), SpecFault>
    requires { spec.parity + spec.ndata < 2 ^ 32 }
    ensures exact { result ≡ checked_width spec }
    ensures fits { OnOk result (need_of spec ≤ have_of spec) }
{
    let need = spec.parity + spec.ndata;
    let have = spec.children.saturating_sub(spec.spares);
    if need > have {
        return Err(SpecFault::Width { need, have });
    }
    Ok(())
}

/// Refuses the first property that is out of its range.
fn check_props(props: Props) -> Result<(), SpecFault>
    ensures exact { result ≡ checked_props props }
    ensures ranges { OnOk result (IsProps props) }
{
    if props.sector != 512 && props.sector != 4096 {
        return Err(limit(b'b', props.sector));
    }
    if !props.height.is_power_of_two() || props.height < 8 || props.height > 4096 {
        return Err(limit(b'h', props.height));
    }
    if props.metaslabs < 1 || props.metaslabs > 64 {
        return Err(limit(b'm', props.metaslabs));
    }
    if props.slices < 1 || props.slices > 1024 {
        return Err(limit(b'l', props.slices));
    }
    Ok(())
}

/// The refusal of a number that is out of its range.
pub(crate) fn limit(which: u8, value: u32) -> SpecFault
    ensures { result ≡ SpecFault.Limit which value }
{
    SpecFault::Limit {
        which,
        value: u64::from(value),
    }
}

/// The sectors of a child, over all metaslabs.
pub(crate) fn total_sectors(props: Props, rows: u32) -> u64
    requires metaslabs { props.metaslabs ≤ 64 }
    requires slices { props.slices ≤ 1024 }
    requires height { props.height ≤ 4096 }
    requires rows { rows ≤ 64 }
    ensures { result ≡ total_of props rows }
{
    u64::from(props.metaslabs) * u64::from(props.slices) * u64::from(rows) * u64::from(props.height)
}

/// The least common multiple of two small numbers.
#[tactic(auto, using(crate::proofs::Multiples::product_above))]
fn least_common_multiple(a: u32, b: u32) -> u32
    requires left { 0 < a }
    requires right { 0 < b }
    requires small { a * b < 2 ^ 31 }
    ensures meaning { IsLeastCommonMultiple a b result }
    ensures value { result ≡ lcm a b }
{
    let mut multiple = a;
    while multiple % b != 0 {
        multiple += a;
    }
    multiple
}
