ghost use Rattle.std.specs.Prelude.{◌≡◌, ◌≤◌, length};
ghost use Rattle.std.specs.Fn.{FnReturnsAt};
ghost use Rattle.draid_choose.specs.Rooms.{IsChooser, Picks, most_rooms};

use draid_names::Room;
use std::marker::Model;

/// A stored choice among rooms.
#[derive(Drop)]
pub struct Chooser<F: Fn(&[Room]) -> Option<u32>> {
    f: F,
}

impl<F: Fn(&[Room]) -> Option<u32>> Model for Chooser<F> {
    ghost Value = { F };

    ghost view = { λ c. c.f };
}

impl<F: Fn(&[Room]) -> Option<u32>> Chooser<F> {
    /// A chooser by this closure.
    pub fn new(f: F) -> Chooser<F>
        requires { IsChooser F.Fn f }
        ensures { result ≡ f }
    {
        Chooser { f }
    }

    /// The place of a room that is large enough, where there is one.
    pub fn pick(&self, rooms: &[Room]) -> Option<u32>
        requires chooser { IsChooser F.Fn self.now }
        requires few { length rooms.now ≤ most_rooms }
        ensures picks { Picks rooms.now result }
        ensures answer { FnReturnsAt F.Fn self.now rooms.now result }
    {
        (self.f)(rooms)
    }
}
