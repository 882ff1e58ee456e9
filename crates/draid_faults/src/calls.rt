ghost use Rattle.std.specs.Prelude.{◌≡◌, IsTrue, false, true};

use crate::fuse::Fuse;

/// The calls of a device in memory that can fail. They are numbered from 0.
#[derive(Drop)]
pub struct Calls {
    made: u64,
    failing: Vec<u64>,
    fuse: Option<Fuse>,
}

impl Calls {
    ghost use Rattle.draid_faults.specs.Calls.{CountsCall, failing_calls, is_fused, next_call};

    /// No call yet. Those with the numbers in `failing` will fail.
    pub fn new(failing: Vec<u64>) -> Calls
        ensures next { next_call result ≡ 0 }
        ensures failing { failing_calls result ≡ failing.items }
        ensures fused { is_fused result ≡ false }
    {
        Calls {
            made: 0,
            failing,
            fuse: None,
        }
    }

    /// Puts a fuse in, in place of an earlier one.
    pub fn put_fuse(&mut self, fuse: Fuse)
        ensures next { next_call self.new ≡ next_call self.old }
        ensures failing { failing_calls self.new ≡ failing_calls self.old }
        ensures fused { is_fused self.new ≡ true }
    {
        self.fuse = Some(fuse);
    }

    /// Takes the fuse out.
    pub fn take_fuse(&mut self)
        ensures next { next_call self.new ≡ next_call self.old }
        ensures failing { failing_calls self.new ≡ failing_calls self.old }
        ensures fused { is_fused self.new ≡ false }
    {
        self.fuse = None;
    }

    /// Counts a call, and answers whether it fails.
    pub fn fails(&mut self) -> bool
        ensures { CountsCall (IsTrue result) self.old self.new }
    {
        let named = self.failing.contains(&self.made);
        self.made = self.made.saturating_add(1);
        match &self.fuse {
            Some(fuse) => fuse.burns() || named,
            None => named,
        }
    }
}
