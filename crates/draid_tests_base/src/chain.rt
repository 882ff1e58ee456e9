ghost use Rattle.std.specs.Prelude.{◌≡◌, length};
ghost use Rattle.draid_spec.specs.Geometry.{IsGeometry};
ghost use Rattle.draid_perm.specs.Perms.{children_of};
ghost use Rattle.draid_names.specs.Spares.{AreUsed, IsArm};
ghost use Rattle.draid_chain.specs.Used.{first_in};

use crate::layouts::{SMALL, layout};
use draid_chain::{holder, links};
use draid_perm::Perms;
use draid_spec::Geometry;

fn holder_and_links(
    layout: &Geometry,
    perms: &Perms,
    used: &[Option<u32>],
    slot: u32,
    spare: u32,
    sector: u64,
) -> [u32; 2]
    requires geometry { IsGeometry layout.now }
    requires children { children_of perms.now ≡ layout.now.spec.children }
    requires all { length used.now ≡ layout.now.spec.children }
    requires used { AreUsed layout.now.spec.children layout.now.spec.spares (first_in used.now) }
    requires arm { IsArm layout.now.spec.children layout.now.spec.spares (first_in used.now) slot spare }
{
    [
        holder(layout, perms, used, slot, spare, sector),
        links(layout, perms, used, slot, spare, sector),
    ]
}

/// The slots at three positions of slice 0.
fn slots_of(layout: &Geometry, perms: &Perms) -> [u32; 3]
    requires geometry { IsGeometry layout.now }
    requires children { children_of perms.now ≡ layout.now.spec.children }
    requires five { layout.now.spec.children ≡ 5 }
{
    [perms.child(0, 0), perms.child(0, 3), perms.child(0, 4)]
}

// Slice 0 has the slots 4, 2, 3, 1, 0 at its positions: spare 0 stands on slot 0, spare 1 on slot 1.

/// Spare 0 of slot 4 where slot 0 has spare 1.
fn behind_another(layout: &Geometry, perms: &Perms) -> [u32; 2]
    requires geometry { IsGeometry layout.now }
    requires children { children_of perms.now ≡ layout.now.spec.children }
    requires five { layout.now.spec.children ≡ 5 }
    requires two { layout.now.spec.spares ≡ 2 }
{
    let used = [Some(1), None, None, None, Some(0)];
    holder_and_links(layout, perms, &used, 4, 0, 0)
}

/// Spare 0 of slot 4 where slot 0 has none.
fn alone(layout: &Geometry, perms: &Perms) -> [u32; 2]
    requires geometry { IsGeometry layout.now }
    requires children { children_of perms.now ≡ layout.now.spec.children }
    requires five { layout.now.spec.children ≡ 5 }
    requires two { layout.now.spec.spares ≡ 2 }
{
    let used = [None, None, None, None, Some(0)];
    holder_and_links(layout, perms, &used, 4, 0, 0)
}

/// Spare 0 of slot 1, where slots 0 and 1 have no column and each spare stands on the slot that has the other one.
fn around(layout: &Geometry, perms: &Perms) -> [u32; 2]
    requires geometry { IsGeometry layout.now }
    requires children { children_of perms.now ≡ layout.now.spec.children }
    requires five { layout.now.spec.children ≡ 5 }
    requires two { layout.now.spec.spares ≡ 2 }
{
    let used = [Some(1), Some(0), None, None, None];
    holder_and_links(layout, perms, &used, 1, 0, 7)
}

/// Whether the chains of five slots end so.
fn of_five(layout: &Geometry) -> bool
    requires { IsGeometry layout.now }
{
    if layout.spec.children != 5 || layout.spec.spares != 2 {
        return false;
    }
    let perms = Perms::new(layout.spec.children, layout.props.seed);
    slots_of(layout, &perms) == [4, 1, 0]
        && behind_another(layout, &perms) == [1, 2]
        && alone(layout, &perms) == [0, 1]
        && around(layout, &perms) == [0, 1]
}

/// Spare 0 of slot 1 at a sector, where four of eight slots have a spare.
fn through_four(layout: &Geometry, perms: &Perms, sector: u64) -> [u32; 2]
    requires geometry { IsGeometry layout.now }
    requires children { children_of perms.now ≡ layout.now.spec.children }
    requires eight { layout.now.spec.children ≡ 8 }
    requires four { layout.now.spec.spares ≡ 4 }
{
    let used = [None, Some(0), Some(2), None, Some(1), None, None, Some(3)];
    holder_and_links(layout, perms, &used, 1, 0, sector)
}

/// Whether that chain ends so in two slices.
fn of_eight(layout: &Geometry) -> bool
    requires { IsGeometry layout.now }
{
    if layout.spec.children != 8 || layout.spec.spares != 4 || layout.rows != 1 {
        return false;
    }
    let perms = Perms::new(layout.spec.children, layout.props.seed);
    through_four(layout, &perms, 7) == [6, 4] && through_four(layout, &perms, 8) == [5, 1]
}

/// The same of layouts of these slots.
fn end_at_free_slots() -> [bool; 2] {
    match (
        layout(b"draid1:2d:5c:2s", 5, SMALL),
        layout(b"draid1:1d:8c:4s", 8, SMALL),
    ) {
        (Ok(five), Ok(eight)) => [of_five(&five), of_eight(&eight)],
        _ => [false; 2],
    }
}

// The second by a second program, which follows the published code of the generator. A slice has one row there.
#[test]
fn chains_end_at_free_slots(rt: HostRuntime) {
    assert!(rt; end_at_free_slots() == [true, true]);
}
