//! What a rebuild or a scrub of a pool did so far.
ghost use Rattle.std.specs.Prelude.{◌≡◌, ◌≢◌, ◌<◌, ◌+◌, ◌^◌, ◌↔◌, IsTrue, Some};
ghost use Rattle.draid_session.specs.Passes as passes;
ghost use Rattle.draid_visits.specs.Visiting.{counted, nothing_within};

use draid_pool::SyncFault;

/// What a rebuild or a scrub of a pool may do yet, and what it did.
#[derive(Clone, Copy)]
pub struct Progress {
    /// How many more stripes or blocks it may lend, where it has a limit.
    pub left: Option<u64>,
    /// The pool's stripe at which its first pass went on.
    pub from: Option<u64>,
    /// The stripes or blocks that it lent.
    pub stripes: u64,
    /// The columns that it rewrote, counted by arm.
    pub repaired: u64,
    /// The errors of the passes that it ended.
    pub errors: u64,
}

/// How the visit of a metaslab ended.
#[derive(Clone, Copy)]
pub enum Visit {
    /// Its pass ended, or there was nothing to do.
    Over,
    /// Something is left, and the limit is used up.
    Paused,
    /// It was stopped.
    Stopped { why: SyncFault },
}

impl Progress {
    /// Nothing was done yet, and at most so much is to be lent.
    pub fn within(limit: Option<u64>) -> Progress
        ensures { result ≡ nothing_within limit }
    {
        Progress {
            left: limit,
            from: None,
            stripes: 0,
            repaired: 0,
            errors: 0,
        }
    }

    /// A pass goes on at a stripe of the pool.
    pub fn begin(&mut self, stripe: u64)
        ensures { self.new ≡ record self.old { from = passes.first_from self.old.from stripe } }
    {
        if self.from.is_none() {
            self.from = Some(stripe);
        }
    }

    /// Whether no further stripe or block may be lent.
    pub fn is_used_up(&self) -> bool
        ensures { IsTrue result ↔ (self.now.left ≡ Some 0) }
    {
        self.left == Some(0)
    }

    /// A stripe or a block was lent, and so many of its columns were rewritten.
    pub fn count(&mut self, repaired: u64)
        requires some { self.old.left ≢ Some 0 }
        requires low { self.old.stripes + 1 < 2 ^ 64 }
        requires rewritten { self.old.repaired + repaired < 2 ^ 64 }
        ensures { self.new ≡ counted repaired self.old }
    {
        if let Some(left) = self.left {
            self.left = Some(left - 1);
        }
        self.stripes += 1;
        self.repaired += repaired;
    }
}
