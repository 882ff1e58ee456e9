ghost use Rattle.std.specs.Prelude.{◌≡◌, ℕ, Option};
ghost use Rattle.draid_turn.specs.declared.past.Past.{Past};

/// A value that is kept under a lock.
pub trait Stand {
    /// What every hold keeps to: how it found the value, and how it left it.
    ghost step: { Self → Past Self → Type 0 };
}

/// What is done to a value during one hold.
pub trait Act<T> {
    /// What it needs of the value.
    ghost needs: { Self → T → Type 0 };

    /// How it and the value were before, and how they are after.
    ghost relates: { Self → T → Self → T → Type 0 };

    /// The number that it concerns, if any.
    ghost concerns: { Self → Option ℕ };

    fn concerned(&self) -> Option<u64>
        ensures { result ≡ concerns self.now };

    fn act(&mut self, value: &mut T)
        requires { needs self.old value.old }
        ensures { relates self.old value.old self.new value.new };
}
