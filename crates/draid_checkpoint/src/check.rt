ghost use Rattle.std.specs.Prelude.{◌≡◌, ◌-◌, ◌<◌, ◌≤◌, [], IfOk, None, OnOk, Some, vec_capacity, vec_len};
ghost use Rattle.draid_checkpoint.specs.Check.{Drops, Point, holds_birth};

use draid_names::NoMemory;
use std::alloc::Global;
use std::marker::Model;

/// A block that the checkpoint alone keeps, and the group in which it was dropped.
#[derive(Clone, Copy, PartialEq, Eq)]
pub struct DroppedIn {
    pub object: u64,
    pub seq: u64,
    pub group: u64,
}

/// The checkpoint of a pool, if there is one.
#[derive(Drop)]
pub struct Check {
    group: Option<u64>,
    drops: Vec<DroppedIn>,
}

impl Model for Check {
    ghost Value = { Point };

    ghost view = { λ c. record { group = c.group; drops = c.drops.items; spare = vec_capacity c.drops - vec_len c.drops } };
}

impl Check {
    /// No checkpoint.
    pub fn none(alloc: Global) -> Check
        ensures none { result.group ≡ None }
        ensures drops { result.drops ≡ [] }
    {
        Check {
            group: None,
            drops: Vec::new(alloc),
        }
    }

    /// A checkpoint of this group, with room for so many blocks that it alone keeps.
    pub fn at(alloc: Global, group: u64, blocks: u64) -> Result<Check, NoMemory>
        ensures group { IfOk result (λ check. check.group ≡ Some group) }
        ensures drops { IfOk result (λ check. check.drops ≡ []) }
        ensures room { IfOk result (λ check. blocks ≤ check.spare) }
    {
        let drops = Vec::with_capacity(alloc, blocks as usize)?;
        Ok(Check {
            group: Some(group),
            drops,
        })
    }

    /// Makes room for so many further blocks.
    pub fn reserve(&mut self, blocks: u64) -> Result<(), NoMemory>
        ensures group { self.new.group ≡ self.old.group }
        ensures drops { self.new.drops ≡ self.old.drops }
        ensures room { OnOk result (blocks ≤ self.new.spare) }
    {
        self.drops.reserve(blocks as usize)?;
        Ok(())
    }

    /// The checkpoint's group.
    pub fn group(&self) -> Option<u64>
        ensures { result ≡ self.now.group }
    {
        self.group
    }

    /// Whether a block that was born in this group is the checkpoint's.
    pub fn holds(&self, birth: u64) -> bool
        ensures { result ≡ holds_birth self.now.group birth }
    {
        match self.group {
            Some(group) => birth <= group,
            None => false,
        }
    }

    /// From this group on the checkpoint alone keeps a block. It takes no memory.
    pub fn drop_block(&mut self, object: u64, seq: u64, group: u64)
        requires { 0 < self.old.spare }
        ensures { Drops self.old self.new object seq group }
    {
        let dropped = DroppedIn { object, seq, group };
        let Ok(()) = self.drops.push(dropped) else {
            unreachable!()
        };
    }

    /// The blocks that the checkpoint alone keeps.
    pub fn drops(&self) -> &[DroppedIn]
        ensures { result.now ≡ self.now.drops }
    {
        &self.drops
    }
}
