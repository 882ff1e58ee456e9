ghost use Rattle.std.specs.Prelude.{◌≡◌, ◌+◌, ◌-◌, ◌^◌, ◌<◌, ◌∷◌, [], ◌++◌, ◌↔◌, IsTrue, List, ℕ, true};
ghost use Rattle.draid_summary.specs.Summary.{Counts, is_of_bytes};

use crate::errors::with_errors;
use sha2::{Digest, Sha256};

/// What is counted of some lines.
#[derive(Drop)]
pub(crate) struct Tally {
    pub lines: u64,
    pub errors: u64,
    /// What the replies to sums and reads are hashed by.
    pub sums: Sha256,
}

/// Whether a line is the reply to a sum or to a read.
fn is_of_bytes(line: &[u8]) -> bool
    ensures { result ≡ is_of_bytes line.now }
{
    line.starts_with(b"sum ") || line.starts_with(b"read ")
}

impl Tally {
    /// Of no lines.
    pub fn new() -> Tally
        ensures { Counts [] result }
    {
        Tally {
            lines: 0,
            errors: 0,
            sums: Sha256::new(),
        }
    }

    /// Counts a further line.
    #[tactic(auto, using(crate::proofs::Tallying::counts_more))]
    pub fn add(&mut self, line: &[u8])
        requires room { self.old.lines < 2 ^ 64 - 1 }
        ensures { (lines : List (List ℕ)) → Counts lines self.old → Counts (lines ++ (line.now ∷ [])) self.new }
    {
        self.lines += 1;
        self.errors = with_errors(self.errors, line);
        if is_of_bytes(line) {
            self.sums.update(line);
            self.sums.update(b"\n");
        }
    }
}
