ghost use Rattle.std.specs.Prelude.{◌≡◌, ◌+◌, ◌-◌, ◌<◌, ◌≤◌, ◌^◌, ◌||◌, ℕ, min, max};
ghost use Rattle.draid_ranges.specs.Runs.{in_run, is_between};

/// Consecutive numbers.
#[derive(Clone, Copy, PartialEq, Eq)]
pub struct Run {
    pub first: u64,
    /// How many there are.
    pub len: u64,
}

impl Run {
    /// The numbers from `first` on and below `end`.
    pub(crate) fn between(first: u64, end: u64) -> Run
        requires { first ≤ end }
        ensures { (result.first ≡ first) × (result.first + result.len ≡ end) }
    {
        Run {
            first,
            len: end - first,
        }
    }

    /// The number behind the last.
    pub(crate) fn end(self) -> u64
        requires { self.first + self.len < 2 ^ 64 }
        ensures { result ≡ self.first + self.len }
    {
        self.first + self.len
    }

    pub(crate) fn contains(self, x: u64) -> bool
        ensures { result ≡ in_run self x }
    {
        self.first <= x && x - self.first < self.len
    }

    /// Both runs as one, where they touch.
    pub(crate) fn joined(self, other: Run) -> Run
        requires below { (self.first + self.len < 2 ^ 64) × (other.first + other.len < 2 ^ 64) }
        requires touch { (other.first ≤ self.first + self.len) × (self.first ≤ other.first + other.len) }
        ensures members { (x : ℕ) → in_run result x ≡ (in_run self x || in_run other x) }
        ensures first { result.first ≡ min self.first other.first }
        ensures end { result.first + result.len ≡ max (self.first + self.len) (other.first + other.len) }
    {
        Run::between(self.first.min(other.first), self.end().max(other.end()))
    }
}
