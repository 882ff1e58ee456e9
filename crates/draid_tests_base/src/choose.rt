ghost use Rattle.std.specs.Prelude.{◌≤◌, length};
ghost use Rattle.draid_choose.specs.Rooms.{Picks};

use draid_choose::{Chooser, first_fit};
use draid_names::Room;

/// Rooms for a block of two stripes, of which the first is too small.
static ROOMS: [Room; 3] = [
    Room {
        metaslab: 0,
        run: 1,
        need: 2,
    },
    Room {
        metaslab: 1,
        run: 2,
        need: 2,
    },
    Room {
        metaslab: 2,
        run: 7,
        need: 2,
    },
];

/// What is chosen among the first of those rooms.
fn chosen(rooms: usize) -> Option<u32>
    requires { rooms ≤ 3 }
{
    let chooser = Chooser::new(
        |rooms: &[Room]| -> Option<u32>
            requires { length rooms.now ≤ 64 }
            ensures { Picks rooms.now result }
        { first_fit(rooms) },
    );
    chooser.pick(&ROOMS[..rooms])
}

#[test]
fn the_first_room_that_fits(rt: HostRuntime) {
    assert!(rt; chosen(3) == Some(1));
    assert!(rt; chosen(1).is_none() && chosen(0).is_none());
}
