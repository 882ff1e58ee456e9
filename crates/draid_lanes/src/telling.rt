/// What a job is said to have done, in the words of a session.
pub trait Says {
    ghost use Rattle.std.specs.Prelude.{◌≡◌, Bool, List};
    ghost use Rattle.draid_session.specs.Holds.{Hold};
    ghost use Rattle.draid_session.specs.Known.{Known};
    ghost use Rattle.draid_session.specs.State.{State, Store};

    /// The job as it began and as it ended, in a section of a pool in this state: its lane's holds led it from what the lane had of its own to this.
    ghost says: { Self → Self → State → Store → List Hold → Store → Type 0 };

    /// Whether that rests on the bytes of all blocks, whoever's they are.
    ghost rests: { Self → Type 0 };

    /// What it said of the objects is allowed by what was known of them, and what it adds is known then.
    ghost learns: { Self → Self → Known → Known → Type 0 };

    /// Whether an area that failed ended it.
    ghost failed: { Self → Bool };

    /// Whether an area that failed ended it. (A trait's implementation for a type with a closure wants a call.)
    fn has_failed(&self) -> bool
        ensures { result ≡ failed self.now };
}
