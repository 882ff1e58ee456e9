ghost use Rattle.std.specs.Prelude.{◌≡◌, ◌<◌, ◌≤◌, IfSome, All, length, take};
ghost use Rattle.draid_choose.specs.Rooms.{Picks, most_rooms};
ghost use Rattle.draid_names.specs.declared.room.Room.{Room};

use draid_names::Room;

/// The place of the first room that is large enough.
pub fn first_fit(rooms: &[Room]) -> Option<u32>
    requires { length rooms.now ≤ most_rooms }
    ensures picks { Picks rooms.now result }
    ensures first { IfSome result (λ k. All (λ (room : Room). room.run < room.need) (take k rooms.now)) }
{
    for k in 0..rooms.len() {
        if rooms[k].run >= rooms[k].need {
            return Some(k as u32);
        }
    }
    None
}
