ghost use Rattle.std.specs.Prelude.{Some, IsOk};
ghost use Rattle.std.specs.Io.{ReadsAtMost};
ghost use Rattle.std.specs.Io.KnownBytes.{ReadConsumes};
ghost use Rattle.draid_names.specs.Faults.{HasCause};

use crate::Source;
use crate::source::copy_front;
use draid_names::Failed;

/// A text in memory, as a source that never fails.
#[derive(Drop)]
pub struct Text<'a> {
    /// What is left of it.
    pub left: &'a [u8],
}

impl<'a> Source for Text<'a> {
    ghost left = { λ s. Some s.left.now };

    ghost faults = { λ s. 0 };

    fn take(&mut self, into: &mut [u8]) -> Result<usize, Failed>
        ensures bound { ReadsAtMost result into.new }
        ensures bytes { ReadConsumes (Some self.old.left.now) (Some self.new.left.now) result into.new }
        ensures cause { HasCause 0 0 result }
        ensures whole { IsOk result }
    {
        let taken = copy_front(self.left, into);
        self.left = &self.left[taken..];
        Ok(taken)
    }
}
