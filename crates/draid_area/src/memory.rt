ghost use Rattle.std.specs.Prelude.{◌≡◌, ◌+◌, ◌≤◌, max, ℕ, Some, false, true, IfOk, IsErr, IsErrOf, OnOk, OnErr, length, option_map, refl};
ghost use Rattle.draid_faults.specs.Calls.{CountsCall, CountsJust, failing_calls, is_fused, next_call};
ghost use Rattle.draid_area.specs.Area.{Reads, Writes, Counts, begins, flushes, tears, waits};
ghost use Rattle.draid_area.specs.Cells.{AreUpTo, HasMarks, IsSound};
ghost use Rattle.draid_area.specs.Moments.{CrashesTold, ElapsesTold};

use crate::area::Area;
use crate::cells::{
    Span, calm, cut, keep_spans, later, leave_spans, leave_torn, length_left, lengthen, make_room,
    mark, overwrite, risen, standing,
};
use draid_faults::{Calls, CrashRule, Fuse};
use draid_names::DeviceFault;
use std::alloc::{AllocError, Global};

/// An area in memory. Its calls that can fail are numbered from 0; those that its list names fail, and each once
/// its fuse has burnt.
#[derive(Drop)]
pub struct MemoryArea {
    bytes: Vec<u8>,
    /// What the bytes were at the last flush; none stands for 0.
    flushed: Vec<u8>,
    /// How many bytes there were at the last flush.
    firm: usize,
    /// What was written since the last flush.
    unflushed: Vec<Span>,
    /// Where a write failed since the last flush.
    torn: Vec<bool>,
    /// The clock at the last write of each offset.
    since: Vec<u64>,
    clock: u64,
    /// How often a call has failed.
    faults: u64,
    calls: Calls,
    ghost orderly: { AreUpTo clock since.items },
    ghost sound: { IsSound bytes.items flushed.items firm unflushed.items },
    ghost marked: { HasMarks bytes.items torn.items since.items },
}

impl MemoryArea {
    ghost use Rattle.draid_area.specs.Memory.{Flushes, KeepsFlushed, LeavesByRule, calls_of, faults_of_memory, size_of_memory, told_by_memory};

    /// An area of these bytes, of which none is soft, without a fuse. Its calls with the numbers in `failing` fail.
    pub fn new(alloc: Global, bytes: Vec<u8>, failing: Vec<u64>) -> Result<MemoryArea, AllocError>
        ensures told { IfOk result (λ area. told_by_memory area ≡ Some (begins bytes.items)) }
        ensures size { IfOk result (λ area. size_of_memory area ≡ length bytes.items) }
        ensures faults { IfOk result (λ area. faults_of_memory area ≡ 0) }
        ensures next { IfOk result (λ area. next_call (calls_of area) ≡ 0) }
        ensures failing { IfOk result (λ area. failing_calls (calls_of area) ≡ failing.items) }
        ensures fused { IfOk result (λ area. is_fused (calls_of area) ≡ false) }
    {
        let len = bytes.len();
        Ok(MemoryArea {
            flushed: bytes.clone()?,
            firm: len,
            bytes,
            unflushed: Vec::new(alloc),
            torn: vec![in alloc; false; len]?,
            since: vec![in alloc; 0; len]?,
            clock: 0,
            faults: 0,
            calls: Calls::new(failing),
        })
    }

    /// Puts a fuse in, in place of an earlier one.
    pub fn put_fuse(&mut self, fuse: Fuse)
        ensures told { told_by_memory self.new ≡ told_by_memory self.old }
        ensures size { size_of_memory self.new ≡ size_of_memory self.old }
        ensures faults { faults_of_memory self.new ≡ faults_of_memory self.old }
        ensures next { next_call (calls_of self.new) ≡ next_call (calls_of self.old) }
        ensures failing { failing_calls (calls_of self.new) ≡ failing_calls (calls_of self.old) }
        ensures fused { is_fused (calls_of self.new) ≡ true }
    {
        self.calls.put_fuse(fuse);
    }

    /// Gives it a crash, which leaves what was written since the last flush by the rule: by `Old` the area is again as long
    /// as it was then, else it stays as long as it is. The fuse is taken out.
    pub fn crash(&mut self, rule: CrashRule)
        ensures told { CrashesTold (told_by_memory self.old) (told_by_memory self.new) }
        ensures exact { LeavesByRule rule self.old self.new }
        ensures faults { faults_of_memory self.new ≡ faults_of_memory self.old }
        ensures next { next_call (calls_of self.new) ≡ next_call (calls_of self.old) }
        ensures failing { failing_calls (calls_of self.new) ≡ failing_calls (calls_of self.old) }
        ensures fused { is_fused (calls_of self.new) ≡ false }
    {
        leave_spans(&mut self.flushed, &self.bytes, &self.unflushed, rule);
        leave_torn(&mut self.flushed, &self.bytes, &self.torn, rule);
        let kept = length_left(rule, self.firm, self.bytes.len());
        cut(&mut self.bytes, &mut self.flushed, kept);
        self.firm = kept;
        self.unflushed.clear();
        calm(&mut self.torn);
        self.calls.take_fuse();
    }
}

impl Area for MemoryArea {
    ghost use Rattle.draid_names.specs.declared.fault.DeviceFault.{DeviceFault};
    ghost use Rattle.draid_area.specs.Memory.{Flushes, KeepsFlushed, LeavesByRule, calls_of, faults_of_memory, size_of_memory, told_by_memory};

    ghost size = { size_of_memory };

    ghost faults = { faults_of_memory };

    ghost told = { told_by_memory };

    ghost orderly = { λ area. area.orderly };

    ghost counted = { λ area. record { bytes = refl; firm = area.sound.kept } };

    fn length(&self) -> u64 {
        self.bytes.len() as u64
    }

    fn read(&mut self, at: u64, into: &mut [u8]) -> Result<(), DeviceFault>
        requires place { at + length into.old ≤ size_of_memory self.old }
        ensures whole { length into.new ≡ length into.old }
        ensures read { OnOk result (Reads (told_by_memory self.old) at into.new) }
        ensures told { told_by_memory self.new ≡ told_by_memory self.old }
        ensures moments { ElapsesTold (told_by_memory self.old) (told_by_memory self.new) }
        ensures size { size_of_memory self.new ≡ size_of_memory self.old }
        ensures cause { Counts result (faults_of_memory self.old) (faults_of_memory self.new) }
        ensures exact { CountsJust (IsErrOf result DeviceFault.Failed) (faults_of_memory self.old)
            (faults_of_memory self.new) }
        ensures calls { CountsCall (IsErr result) (calls_of self.old) (calls_of self.new) }
        ensures device { IsErr result → IsErrOf result DeviceFault.Failed }
    {
        if self.calls.fails() {
            self.faults = risen(self.faults);
            return Err(DeviceFault::Failed);
        }
        let start = at as usize;
        into.copy_from_slice(&self.bytes[start..start + into.len()]);
        Ok(())
    }

    fn write(&mut self, at: u64, bytes: &[u8]) -> Result<(), DeviceFault>
        requires place { at ≤ size_of_memory self.old }
        ensures told { Writes at bytes.now result (told_by_memory self.old) (told_by_memory self.new) }
        ensures moments { ElapsesTold (told_by_memory self.old) (told_by_memory self.new) }
        ensures size { OnOk result (size_of_memory self.new
            ≡ max (size_of_memory self.old) (at + length bytes.now)) }
        ensures grown { size_of_memory self.old ≤ size_of_memory self.new }
        ensures bounded { size_of_memory self.new ≤ max (size_of_memory self.old) (at + length bytes.now) }
        ensures cause { Counts result (faults_of_memory self.old) (faults_of_memory self.new) }
        ensures exact { CountsJust (IsErrOf result DeviceFault.Failed) (faults_of_memory self.old)
            (faults_of_memory self.new) }
        ensures flushed { KeepsFlushed self.old self.new }
        ensures calls { CountsCall (IsErrOf result DeviceFault.Failed) (calls_of self.old) (calls_of self.new) }

        // A write that failed changed no byte. Those that stand where it was to be are soft.
        ensures unwritten { OnErr result (self.new.bytes.items ≡ self.old.bytes.items) }
        ensures torn { IsErrOf result DeviceFault.Failed → told_by_memory self.new
            ≡ option_map (tears at (length bytes.now)) (told_by_memory self.old) }
        ensures waits { IsErrOf result DeviceFault.NoMemory → told_by_memory self.new
            ≡ option_map waits (told_by_memory self.old) }
        ensures same { IsErrOf result DeviceFault.NoMemory → size_of_memory self.new ≡ size_of_memory self.old }
    {
        let start = at as usize;
        let end = start + bytes.len();
        self.clock = later(self.clock);
        if self.calls.fails() {
            let left = standing(&self.bytes, start, bytes.len());
            mark(&mut self.torn, start, left, true);
            mark(&mut self.since, start, left, self.clock);
            self.faults = risen(self.faults);
            return Err(DeviceFault::Failed);
        }
        make_room(&mut self.unflushed, &mut self.since, &mut self.torn, end)?;
        lengthen(&mut self.flushed, &mut self.bytes, end)?;
        let span = Span {
            start: at,
            len: bytes.len() as u64,
        };
        self.unflushed.push(span).unwrap();
        mark(&mut self.since, start, bytes.len(), self.clock);
        overwrite(&mut self.bytes, start, bytes);
        Ok(())
    }

    fn flush(&mut self) -> Result<(), DeviceFault>
        ensures ok { OnOk result (told_by_memory self.new ≡ option_map flushes (told_by_memory self.old)) }
        ensures err { OnErr result (told_by_memory self.new ≡ told_by_memory self.old) }
        ensures moments { ElapsesTold (told_by_memory self.old) (told_by_memory self.new) }
        ensures size { size_of_memory self.new ≡ size_of_memory self.old }
        ensures cause { Counts result (faults_of_memory self.old) (faults_of_memory self.new) }
        ensures exact { CountsJust (IsErrOf result DeviceFault.Failed) (faults_of_memory self.old)
            (faults_of_memory self.new) }
        ensures flushed { OnOk result (Flushes self.old self.new) }
        ensures unflushed { OnErr result (KeepsFlushed self.old self.new) }
        ensures calls { CountsCall (IsErr result) (calls_of self.old) (calls_of self.new) }
        ensures device { IsErr result → IsErrOf result DeviceFault.Failed }
    {
        if self.calls.fails() {
            self.faults = risen(self.faults);
            return Err(DeviceFault::Failed);
        }
        self.clock = later(self.clock);
        keep_spans(&mut self.flushed, &self.bytes, &self.unflushed);
        self.firm = self.bytes.len();
        self.unflushed.clear();
        calm(&mut self.torn);
        Ok(())
    }
}
