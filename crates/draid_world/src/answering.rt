ghost use Rattle.std.specs.Prelude.{◌≡◌, true, false, is_some};
ghost use Rattle.draid_machine.specs.Arms as arms;
ghost use Rattle.draid_machine.specs.Names as names;
ghost use Rattle.draid_world.specs.World.{arm_in, core_of};

use crate::world::Tables;
use draid_machine::ArmName;

/// Whether a list has a number.
pub fn has_number(numbers: &[u64], number: u64) -> bool
    ensures { result ≡ names.has_number numbers.now number }
{
    for found in numbers {
        if *found == number {
            return true;
        }
    }
    false
}

impl Tables {
    /// Whether there is an arm of a name, or one whose detachment isn't committed.
    pub fn is_known(&self, name: ArmName) -> bool
        ensures { result ≡ is_some (arm_in self.now.arms.entries name) }
    {
        self.arms.contains_key(&name)
    }

    /// Whether a leaf is there and isn't offline.
    pub fn leaf_answers(&self, leaf: u64) -> bool
        ensures { result ≡ arms.leaf_answers (core_of self.now) leaf }
    {
        match self.arms.get(&ArmName::Leaf { leaf }) {
            Some(arm) => arm.gone.is_none() && !arm.offline,
            None => false,
        }
    }

    /// Whether a leaf doesn't answer, or a call on it failed.
    pub fn is_silent(&self, failed: &[u64], leaf: u64) -> bool
        ensures { result ≡ arms.is_silent (core_of self.now) failed.now leaf }
    {
        !self.leaf_answers(leaf) || has_number(failed, leaf)
    }

    /// Whether a group is in an arm's log.
    pub fn is_logged(&self, name: ArmName, group: u64) -> bool
        ensures { result ≡ arms.logged (arm_in self.now.arms.entries name) group }
    {
        match self.arms.get(&name) {
            Some(arm) => arm.log.contains(group),
            None => false,
        }
    }

    /// Whether an arm's log is empty.
    pub fn has_empty_log(&self, name: ArmName) -> bool
        ensures yes { result ≡ true → arms.HasEmptyLog (core_of self.now) name }
        ensures no { result ≡ false → arms.HasEmptyLog (core_of self.now) name → ⊥ }
    {
        match self.arms.get(&name) {
            Some(arm) => arm.log.runs().is_empty(),
            None => true,
        }
    }
}
