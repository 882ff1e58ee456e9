ghost use Rattle.std.specs.Prelude.{◌≡◌, ◌≤◌, IfOk, false, length, true, vec_capacity};

use draid_faults::{CrashRule, complement, leave};
use draid_names::NoMemory;
use std::alloc::Global;
use std::mem;

#[derive(Drop)]
pub(crate) struct Sector {
    pub bytes: Vec<u8>,
    /// What it read at the last flush, where it was written since. There is room for it from the start, which isn't
    /// touched before the first write.
    pub flushed: Vec<u8>,
    /// Whether it was written since the last flush.
    pub soft: bool,
    pub harmed: bool,
    /// The rack's clock at the last change.
    pub changed: u64,
    ghost room: { length bytes.items ≤ vec_capacity flushed },
    ghost paired: { soft ≡ true → length flushed.items ≡ length bytes.items },
}

impl Sector {
    ghost use Rattle.draid_rack.specs.Sectors.{blank, crashed, damaged, flushed, landed, marked, settled, view_of};

    pub(crate) fn zeros(alloc: Global, bytes: u32, clock: u64) -> Result<Sector, NoMemory>
        ensures { IfOk result (λ sector. view_of sector ≡ blank bytes clock) }
    {
        Ok(Sector {
            bytes: vec![in alloc; 0; bytes as usize]?,
            flushed: Vec::with_capacity(alloc, bytes as usize)?,
            soft: false,
            harmed: false,
            changed: clock,
        })
    }

    /// Notes that it is written now, and whether it is harmed then.
    pub(crate) fn mark(&mut self, harmed: bool, clock: u64)
        ensures { view_of self.new ≡ marked harmed clock (view_of self.old) }
    {
        if !self.soft {
            keep(&mut self.flushed, &self.bytes);
        }
        self.soft = true;
        self.harmed = harmed;
        self.changed = clock;
    }

    pub(crate) fn land(&mut self, bytes: &[u8], harmed: bool, clock: u64)
        requires { length bytes.now ≡ length self.old.bytes.items }
        ensures { view_of self.new ≡ landed bytes.now harmed clock (view_of self.old) }
    {
        if self.soft {
            self.bytes.copy_from_slice(bytes);
        } else {
            keep(&mut self.flushed, bytes);
            mem::swap(&mut self.bytes, &mut self.flushed);
        }
        self.soft = true;
        self.harmed = harmed;
        self.changed = clock;
    }

    pub(crate) fn settle(&mut self)
        ensures { view_of self.new ≡ settled (view_of self.old) }
    {
        self.harmed = false;
    }

    pub(crate) fn damage(&mut self, clock: u64)
        ensures { view_of self.new ≡ damaged clock (view_of self.old) }
    {
        complement(&mut self.bytes);
        complement(&mut self.flushed);
        self.harmed = true;
        self.changed = clock;
    }

    pub(crate) fn flush(&mut self)
        ensures { view_of self.new ≡ flushed (view_of self.old) }
    {
        self.soft = false;
    }

    pub(crate) fn crash(&mut self, rule: CrashRule)
        ensures { view_of self.new ≡ crashed rule (view_of self.old) }
    {
        if self.soft {
            leave(rule, &mut self.flushed, &self.bytes);
            mem::swap(&mut self.bytes, &mut self.flushed);
            self.soft = false;
        }
    }
}

/// Puts a copy of bytes in place of others; there is room for it.
fn keep(flushed: &mut Vec<u8>, bytes: &[u8])
    requires { length bytes.now ≤ vec_capacity flushed.old }
    ensures copy { flushed.new.items ≡ bytes.now }
    ensures room { vec_capacity flushed.old ≤ vec_capacity flushed.new }
{
    flushed.clear();
    let Ok(()) = flushed.extend_from_slice(bytes) else {
        unreachable!()
    };
}
