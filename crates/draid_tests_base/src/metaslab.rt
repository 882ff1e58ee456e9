ghost use Rattle.std.specs.Prelude.{◌≡◌, false};
ghost use Rattle.draid_spec.specs.Geometry.{IsGeometry};

use crate::layouts::{SMALL, layout};
use draid_metaslab::{Space, SpaceFault};
use draid_ranges::Run;
use draid_spec::{Geometry, Props};
use std::alloc::Global;

/// Whether the first three stripes go out, and all are free again behind the commit that they come back with.
fn go_and_come(space: &mut Space) -> bool
    requires { space.old.disabled ≡ false }
{
    match space.allocate(3) {
        Ok(first) => {
            space.defer(first, 3, 2);
            space.commit(2);
            first == 0 && space.free_stripes() == 16
        }
        Err(_) => false,
    }
}

/// Whether they do where none is taken.
fn out_and_back(alloc: Global, layout: &Geometry) -> bool
    requires { IsGeometry layout.now }
{
    match Space::new(alloc, layout, &[]) {
        Ok(mut space) => go_and_come(&mut space),
        Err(_) => false,
    }
}

static TAKEN: [Run; 2] = [Run { first: 0, len: 6 }, Run { first: 8, len: 1 }];

/// Whether three stripes go out behind those, then two between them, and then no five, since no group has so many.
fn go_beside(space: &mut Space) -> bool
    requires { space.old.disabled ≡ false }
{
    if space.allocate(3) != Ok(9) || space.allocate(2) != Ok(6) {
        return false;
    }
    space.allocate(5) == Err(SpaceFault::NoRoom { largest: 4 })
}

/// Whether they do where those are taken.
fn beside_taken_runs(alloc: Global, layout: &Geometry) -> bool
    requires { IsGeometry layout.now }
{
    if layout.metaslab_stripes() < 9 {
        return false;
    }
    match Space::new(alloc, layout, TAKEN.as_slice()) {
        Ok(mut space) => go_beside(&mut space),
        Err(_) => false,
    }
}

const TWO_SLICES: Props = Props { slices: 2, ..SMALL };

/// Whether stripes go out and come back so.
fn go_out_and_come_back(alloc: Global) -> bool {
    match layout(b"draid1:2d:3c", 3, TWO_SLICES) {
        Ok(layout) => { out_and_back(alloc, &layout) && beside_taken_runs(alloc, &layout) }
        Err(_) => false,
    }
}

#[test]
fn stripes_go_out_and_come_back(rt: HostRuntime) {
    assert!(rt; go_out_and_come_back(rt.alloc()));
}
