use draid_agent::Policy;
use draid_choose::Chooser;
use draid_names::Room;

/// Who makes the choices that a session leaves to others.
pub trait Decides {
    ghost use Rattle.std.specs.Prelude.{◌≤◌, length};
    ghost use Rattle.draid_choose.specs.Rooms.{Picks, most_rooms};
    ghost use Rattle.draid_session.specs.Choices.{Choices};

    /// How they are made.
    ghost choices: { Self → Choices };

    /// That they may be asked for.
    ghost ready: { Self → Type 0 };

    /// The place of a room that is large enough, where there is one.
    fn pick(&self, rooms: &[Room]) -> Option<u32>
        requires ready { ready self.now }
        requires few { length rooms.now ≤ most_rooms }
        ensures picks { Picks rooms.now result }
        ensures answer { (choices self.now).room rooms.now result };
}

impl<F: Fn(&[Room]) -> Option<u32>> Decides for Chooser<F> {
    ghost use Rattle.std.specs.Fn.{FnReturnsAt};
    ghost use Rattle.draid_choose.specs.Rooms.{IsChooser};
    ghost use Rattle.draid_session.specs.Choices.{choices_by};

    ghost choices = { λ c. choices_by (FnReturnsAt F.Fn c) };

    ghost ready = { λ c. IsChooser F.Fn c };

    fn pick(&self, rooms: &[Room]) -> Option<u32> {
        Chooser::pick(self, rooms)
    }
}

/// A chooser of rooms, and a policy of spares.
pub struct Deciders<'a, F: Fn(&[Room]) -> Option<u32>, P: Fn(u32, u64, &[u32]) -> Option<u32>> {
    pub chooser: &'a Chooser<F>,
    pub policy: &'a Policy<P>,
}

impl<'a, F: Fn(&[Room]) -> Option<u32>, P: Fn(u32, u64, &[u32]) -> Option<u32>> Decides
    for Deciders<'a, F, P> {
    ghost use Rattle.std.specs.Fn.{FnReturnsAt};
    ghost use Rattle.draid_agent.specs.Policy.{IsPolicy, PolicyReturns};
    ghost use Rattle.draid_choose.specs.Rooms.{IsChooser};
    ghost use Rattle.draid_session.specs.Choices.{choices_with};

    ghost choices = { λ d. choices_with (FnReturnsAt F.Fn d.chooser.now) (PolicyReturns P.Fn d.policy.now) };

    ghost ready = { λ d. IsChooser F.Fn d.chooser.now × IsPolicy P.Fn d.policy.now };

    fn pick(&self, rooms: &[Room]) -> Option<u32> {
        self.chooser.pick(rooms)
    }
}
