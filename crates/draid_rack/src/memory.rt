ghost use Rattle.std.specs.Prelude.{◌≡◌, ◌<◌, ◌≤◌, ◌==◌, if◌then◌else◌, ℕ, Option, Some, None, false, true, Bool, IsTrue, IfOk, IfSome, IfNone, IsErr, IsErrOf, IsSome, OnOk, OnErr, Result, length, replicate, option_map};
ghost use Rattle.draid_names.specs.Faults.{Rose};
ghost use Rattle.draid_faults.specs.Calls.{CountsCall, CountsJust, failing_calls, is_fused, next_call};
ghost use Rattle.draid_rack.specs.Leaves.{AreLong, AreUpTo};
ghost use Rattle.draid_rack.specs.Moments.{CrashesTold, ElapsesTold};
ghost use Rattle.draid_rack.specs.Shaped.{shaped_by};
ghost use Rattle.draid_rack.specs.Rack.{Fits, HasJust, Lands, Reads, Counts, CountsOnly, CountsOthers, OnTold, adds, damages, drops, flushes, settles, taints, with_leaf};

use crate::leaf::Leaf;
use crate::leaves::{
    count_fault, crash_leaves, damage_sector, first_from, flush_leaf, insert_leaf, is_any_harmed,
    is_harmed, land_sector, later, mark_sector, read_sector, remove_leaf, settle_sector,
};
use crate::rack::Rack;
use draid_faults::{Calls, CrashRule, Fuse};
use draid_names::{At, DeviceFault, Failed, NoMemory};
use std::alloc::Global;
use std::collections::BTreeMap;

/// A rack in memory. Its calls that can fail are numbered from 0; those that its list names fail, and each
/// once its fuse has burnt.
#[derive(Drop)]
pub struct MemoryRack {
    alloc: Global,
    bytes: u32,
    leaves: BTreeMap<u64, Leaf>,
    clock: u64,
    /// How often adding a leaf has failed.
    own_faults: u64,
    calls: Calls,
    ghost whole: { AreLong bytes leaves },
    ghost orderly: { AreUpTo clock leaves },
}

impl MemoryRack {
    ghost use Rattle.draid_rack.specs.Memory.{KeepsFlushed, LeavesByRule, calls_of, faults_of_memory, reads_of, shape_of_memory, told_by_memory};

    /// A rack of `leaves` leaves, each of `sectors` sectors of `bytes` zero bytes, without a fuse. Its calls
    /// with the numbers in `failing` fail.
    pub fn new(
        alloc: Global,
        leaves: u32,
        sectors: u64,
        bytes: u32,
        failing: Vec<u64>,
    ) -> Result<MemoryRack, NoMemory>
        ensures just { IfOk result (λ rack. HasJust (shape_of_memory rack) leaves sectors bytes) }
        ensures zeros { IfOk result (λ rack. (l s : ℕ) → l < leaves → s < sectors
            → Reads (told_by_memory rack) l s (replicate bytes 0)) }
        ensures firm { IfOk result (λ rack. OnTold (told_by_memory rack) (λ x. (l s : ℕ) → x.soft l s ≡ false)) }
        ensures unharmed { IfOk result (λ rack. OnTold (told_by_memory rack) (λ x. (l s : ℕ) → x.harmed l s ≡ false)) }
        ensures clock { IfOk result (λ rack. OnTold (told_by_memory rack) (λ x. x.clock ≡ 0)) }
        ensures counts { IfOk result (λ rack. (who : Option ℕ) → faults_of_memory rack who ≡ 0) }
        ensures next { IfOk result (λ rack. next_call (calls_of rack) ≡ 0) }
        ensures failing { IfOk result (λ rack. failing_calls (calls_of rack) ≡ failing.items) }
        ensures fused { IfOk result (λ rack. is_fused (calls_of rack) ≡ false) }
    {
        let mut rows = BTreeMap::new(alloc);
        for leaf in 0..leaves {
            let new = Leaf::zeros(alloc, sectors, bytes, 0)?;
            insert_leaf(&mut rows, leaf as u64, new)?;
        }
        Ok(MemoryRack {
            alloc,
            bytes,
            leaves: rows,
            clock: 0,
            own_faults: 0,
            calls: Calls::new(failing),
        })
    }

    /// The length of a sector in bytes.
    pub fn sector_bytes(&self) -> u32
        ensures { result ≡ (shape_of_memory self.now).bytes }
    {
        self.bytes
    }

    /// Puts a fuse in, in place of an earlier one.
    pub fn put_fuse(&mut self, fuse: Fuse)
        ensures told { told_by_memory self.new ≡ told_by_memory self.old }
        ensures shape { shape_of_memory self.new ≡ shape_of_memory self.old }
        ensures counts { (who : Option ℕ) → faults_of_memory self.new who ≡ faults_of_memory self.old who }
        ensures flushed { KeepsFlushed self.old self.new }
        ensures next { next_call (calls_of self.new) ≡ next_call (calls_of self.old) }
        ensures failing { failing_calls (calls_of self.new) ≡ failing_calls (calls_of self.old) }
        ensures fused { is_fused (calls_of self.new) ≡ true }
    {
        self.calls.put_fuse(fuse);
    }

    /// Gives it a crash, which leaves what was written since the last flush by the rule. The fuse is taken out.
    pub fn crash(&mut self, rule: CrashRule)
        ensures told { CrashesTold (told_by_memory self.old) (told_by_memory self.new) }
        ensures exact { LeavesByRule rule self.old self.new }
        ensures shape { shape_of_memory self.new ≡ shape_of_memory self.old }
        ensures counts { (who : Option ℕ) → faults_of_memory self.new who ≡ faults_of_memory self.old who }
        ensures next { next_call (calls_of self.new) ≡ next_call (calls_of self.old) }
        ensures failing { failing_calls (calls_of self.new) ≡ failing_calls (calls_of self.old) }
        ensures fused { is_fused (calls_of self.new) ≡ false }
    {
        crash_leaves(&mut self.leaves, rule);
        self.calls.take_fuse();
    }

    /// Writes a sector, and says whether it is harmed then.
    fn land(&mut self, leaf: u64, sector: u64, bytes: &[u8], harmed: bool) -> Result<(), Failed>
        requires place { Fits (shape_of_memory self.old) leaf sector (length bytes.now) }
        ensures told { Lands leaf sector bytes.now (λ _. harmed) result (told_by_memory self.old)
            (told_by_memory self.new) }
        ensures moments { ElapsesTold (told_by_memory self.old) (told_by_memory self.new) }
        ensures shape { shape_of_memory self.new ≡ shape_of_memory self.old }
        ensures cause { Counts (Some leaf) result (faults_of_memory self.old) (faults_of_memory self.new) }
        ensures exact { CountsOnly (Some leaf) (IsErr result) (faults_of_memory self.old) (faults_of_memory self.new) }
        ensures same { OnErr result ((l s : ℕ) → reads_of self.new l s ≡ reads_of self.old l s) }
        ensures flushed { KeepsFlushed self.old self.new }
        ensures calls { CountsCall (IsErr result) (calls_of self.old) (calls_of self.new) }
    {
        self.clock = later(self.clock);
        if self.calls.fails() {
            mark_sector(&mut self.leaves, leaf, sector, harmed, self.clock);
            count_fault(&mut self.leaves, leaf);
            return Err(Failed);
        }
        land_sector(&mut self.leaves, leaf, sector, bytes, harmed, self.clock);
        Ok(())
    }
}

impl Rack for MemoryRack {
    ghost use Rattle.draid_names.specs.declared.fault.DeviceFault.{DeviceFault};
    ghost use Rattle.draid_rack.specs.Memory.{DamagesFlushed, Flushes, KeepsFlushed, KeepsFlushedBut, calls_of, faults_of_memory, reads_of, shape_of_memory, told_by_memory};

    ghost shape = { shape_of_memory };

    ghost faults = { faults_of_memory };

    ghost told = { told_by_memory };

    ghost orderly = { λ rack. rack.orderly };

    ghost shaped = { λ rack. shaped_by rack.bytes rack.leaves rack.clock rack.whole };

    fn read(&mut self, leaf: u64, sector: u64, into: &mut [u8]) -> Result<(), Failed>
        requires place { Fits (shape_of_memory self.old) leaf sector (length into.old) }
        ensures whole { length into.new ≡ length into.old }
        ensures read { OnOk result (Reads (told_by_memory self.old) leaf sector into.new) }
        ensures told { told_by_memory self.new ≡ told_by_memory self.old }
        ensures moments { ElapsesTold (told_by_memory self.old) (told_by_memory self.new) }
        ensures shape { shape_of_memory self.new ≡ shape_of_memory self.old }
        ensures cause { Counts (Some leaf) result (faults_of_memory self.old) (faults_of_memory self.new) }
        ensures exact { CountsOnly (Some leaf) (IsErr result) (faults_of_memory self.old) (faults_of_memory self.new) }
        ensures flushed { KeepsFlushed self.old self.new }
        ensures calls { CountsCall (IsErr result) (calls_of self.old) (calls_of self.new) }
    {
        if self.calls.fails() {
            count_fault(&mut self.leaves, leaf);
            return Err(Failed);
        }
        read_sector(&self.leaves, leaf, sector, into);
        Ok(())
    }

    fn write(&mut self, leaf: u64, sector: u64, bytes: &[u8]) -> Result<(), Failed>
        requires place { Fits (shape_of_memory self.old) leaf sector (length bytes.now) }
        ensures told { Lands leaf sector bytes.now (λ _. false) result (told_by_memory self.old)
            (told_by_memory self.new) }
        ensures moments { ElapsesTold (told_by_memory self.old) (told_by_memory self.new) }
        ensures shape { shape_of_memory self.new ≡ shape_of_memory self.old }
        ensures cause { Counts (Some leaf) result (faults_of_memory self.old) (faults_of_memory self.new) }
        ensures exact { CountsOnly (Some leaf) (IsErr result) (faults_of_memory self.old) (faults_of_memory self.new) }
        ensures same { OnErr result ((l s : ℕ) → reads_of self.new l s ≡ reads_of self.old l s) }
        ensures flushed { KeepsFlushed self.old self.new }
        ensures calls { CountsCall (IsErr result) (calls_of self.old) (calls_of self.new) }
    {
        self.land(leaf, sector, bytes, false)
    }

    fn mend(&mut self, leaf: u64, sector: u64, bytes: &[u8], sources: &[At]) -> Result<(), Failed>
        requires place { Fits (shape_of_memory self.old) leaf sector (length bytes.now) }
        ensures told { Lands leaf sector bytes.now (taints sources.now) result (told_by_memory self.old)
            (told_by_memory self.new) }
        ensures moments { ElapsesTold (told_by_memory self.old) (told_by_memory self.new) }
        ensures shape { shape_of_memory self.new ≡ shape_of_memory self.old }
        ensures cause { Counts (Some leaf) result (faults_of_memory self.old) (faults_of_memory self.new) }
        ensures exact { CountsOnly (Some leaf) (IsErr result) (faults_of_memory self.old) (faults_of_memory self.new) }
        ensures same { OnErr result ((l s : ℕ) → reads_of self.new l s ≡ reads_of self.old l s) }
        ensures flushed { KeepsFlushed self.old self.new }
        ensures calls { CountsCall (IsErr result) (calls_of self.old) (calls_of self.new) }
    {
        let harmed = is_any_harmed(&self.leaves, sources);
        self.land(leaf, sector, bytes, harmed)
    }

    fn patch(&mut self, leaf: u64, sector: u64, bytes: &[u8]) -> Result<(), Failed>
        requires place { Fits (shape_of_memory self.old) leaf sector (length bytes.now) }
        ensures told { Lands leaf sector bytes.now (λ x. x.harmed leaf sector) result
            (told_by_memory self.old) (told_by_memory self.new) }
        ensures moments { ElapsesTold (told_by_memory self.old) (told_by_memory self.new) }
        ensures shape { shape_of_memory self.new ≡ shape_of_memory self.old }
        ensures cause { Counts (Some leaf) result (faults_of_memory self.old) (faults_of_memory self.new) }
        ensures exact { CountsOnly (Some leaf) (IsErr result) (faults_of_memory self.old) (faults_of_memory self.new) }
        ensures same { OnErr result ((l s : ℕ) → reads_of self.new l s ≡ reads_of self.old l s) }
        ensures flushed { KeepsFlushed self.old self.new }
        ensures calls { CountsCall (IsErr result) (calls_of self.old) (calls_of self.new) }
    {
        let harmed = is_harmed(&self.leaves, At { leaf, sector });
        self.land(leaf, sector, bytes, harmed)
    }

    fn flush(&mut self, leaf: u64) -> Result<(), Failed>
        requires place { IsSome ((shape_of_memory self.old).leaves leaf) }
        ensures ok { OnOk result
            (told_by_memory self.new ≡ option_map (flushes leaf) (told_by_memory self.old)) }
        ensures err { OnErr result (told_by_memory self.new ≡ told_by_memory self.old) }
        ensures moments { ElapsesTold (told_by_memory self.old) (told_by_memory self.new) }
        ensures shape { shape_of_memory self.new ≡ shape_of_memory self.old }
        ensures cause { Counts (Some leaf) result (faults_of_memory self.old) (faults_of_memory self.new) }
        ensures exact { CountsOnly (Some leaf) (IsErr result) (faults_of_memory self.old) (faults_of_memory self.new) }
        ensures flushed { OnOk result (Flushes leaf self.old self.new) }
        ensures unflushed { OnErr result (KeepsFlushed self.old self.new) }
        ensures calls { CountsCall (IsErr result) (calls_of self.old) (calls_of self.new) }
    {
        if self.calls.fails() {
            count_fault(&mut self.leaves, leaf);
            return Err(Failed);
        }
        self.clock = later(self.clock);
        flush_leaf(&mut self.leaves, leaf);
        Ok(())
    }

    fn settle(&mut self, leaf: u64, sector: u64)
        requires place { Fits (shape_of_memory self.old) leaf sector (shape_of_memory self.old).bytes }
        requires firm { OnTold (told_by_memory self.old) (λ x. x.soft leaf sector ≡ false) }
        ensures told { told_by_memory self.new ≡ option_map (settles leaf sector) (told_by_memory self.old) }
        ensures moments { ElapsesTold (told_by_memory self.old) (told_by_memory self.new) }
        ensures shape { shape_of_memory self.new ≡ shape_of_memory self.old }
        ensures later { (w : Option ℕ) → faults_of_memory self.old w ≤ faults_of_memory self.new w }
        ensures exact { (w : Option ℕ) → faults_of_memory self.new w ≡ faults_of_memory self.old w }
        ensures flushed { KeepsFlushed self.old self.new }
        ensures calls { calls_of self.new ≡ calls_of self.old }
    {
        self.clock = later(self.clock);
        settle_sector(&mut self.leaves, leaf, sector);
    }

    fn damage(&mut self, leaf: u64, sector: u64) -> Result<(), Failed>
        requires place { Fits (shape_of_memory self.old) leaf sector (shape_of_memory self.old).bytes }
        ensures ok { OnOk result
            (told_by_memory self.new ≡ option_map (damages leaf sector) (told_by_memory self.old)) }
        ensures err { OnErr result (told_by_memory self.new ≡ told_by_memory self.old) }
        ensures moments { ElapsesTold (told_by_memory self.old) (told_by_memory self.new) }
        ensures shape { shape_of_memory self.new ≡ shape_of_memory self.old }
        ensures cause { Counts (Some leaf) result (faults_of_memory self.old) (faults_of_memory self.new) }
        ensures exact { CountsOnly (Some leaf) (IsErr result) (faults_of_memory self.old) (faults_of_memory self.new) }
        ensures flushed { OnOk result (DamagesFlushed leaf sector self.old self.new) }
        ensures unflushed { OnErr result (KeepsFlushed self.old self.new) }
        ensures calls { CountsCall (IsErr result) (calls_of self.old) (calls_of self.new) }
    {
        if self.calls.fails() {
            count_fault(&mut self.leaves, leaf);
            return Err(Failed);
        }
        self.clock = later(self.clock);
        damage_sector(&mut self.leaves, leaf, sector, self.clock);
        Ok(())
    }

    fn add_leaf(&mut self, leaf: u64, sectors: u64) -> Result<(), DeviceFault>
        ensures ok { OnOk result
            (told_by_memory self.new ≡ option_map (adds (shape_of_memory self.old).bytes leaf sectors)
            (told_by_memory self.old)) }
        ensures err { OnErr result (told_by_memory self.new ≡ told_by_memory self.old) }
        ensures moments { ElapsesTold (told_by_memory self.old) (told_by_memory self.new) }
        ensures shape { OnOk result
            (shape_of_memory self.new ≡ with_leaf leaf (Some sectors) (shape_of_memory self.old)) }
        ensures same { OnErr result (shape_of_memory self.new ≡ shape_of_memory self.old) }
        ensures later { CountsOthers leaf (faults_of_memory self.old) (faults_of_memory self.new) }
        ensures kept { OnErr result (faults_of_memory self.old (Some leaf) ≤ faults_of_memory self.new (Some leaf)) }
        ensures cause { IsErrOf result DeviceFault.Failed → Rose (faults_of_memory self.old None)
            (faults_of_memory self.new None) }
        ensures exact { CountsJust (IsErrOf result DeviceFault.Failed) (faults_of_memory self.old None)
            (faults_of_memory self.new None) }
        ensures begun { OnOk result ((l : ℕ) → faults_of_memory self.new (Some l)
            ≡ (if l == leaf then 0 else faults_of_memory self.old (Some l))) }
        ensures same_counts { OnErr result ((l : ℕ) → faults_of_memory self.new (Some l)
            ≡ faults_of_memory self.old (Some l)) }
        ensures flushed { KeepsFlushedBut leaf self.old self.new }
        ensures unflushed { OnErr result (KeepsFlushed self.old self.new) }
        ensures calls { CountsCall (IsErrOf result DeviceFault.Failed) (calls_of self.old) (calls_of self.new) }
    {
        if self.calls.fails() {
            self.own_faults = self.own_faults.saturating_add(1);
            return Err(DeviceFault::Failed);
        }
        let clock = later(self.clock);
        let new = Leaf::zeros(self.alloc, sectors, self.bytes, clock)?;
        insert_leaf(&mut self.leaves, leaf, new)?;
        self.clock = clock;
        Ok(())
    }

    fn drop_leaf(&mut self, leaf: u64)
        ensures told { told_by_memory self.new ≡ option_map (drops leaf) (told_by_memory self.old) }
        ensures moments { ElapsesTold (told_by_memory self.old) (told_by_memory self.new) }
        ensures shape { shape_of_memory self.new ≡ with_leaf leaf None (shape_of_memory self.old) }
        ensures later { CountsOthers leaf (faults_of_memory self.old) (faults_of_memory self.new) }
        ensures exact { (w : Option ℕ) → (w ≡ Some leaf → ⊥) → faults_of_memory self.new w ≡ faults_of_memory self.old w }
        ensures gone { faults_of_memory self.new (Some leaf) ≡ 0 }
        ensures flushed { KeepsFlushedBut leaf self.old self.new }
        ensures calls { calls_of self.new ≡ calls_of self.old }
    {
        self.clock = later(self.clock);
        remove_leaf(&mut self.leaves, leaf);
    }

    fn sectors(&self, leaf: u64) -> Option<u64>
        ensures { result ≡ (shape_of_memory self.now).leaves leaf }
    {
        self.leaves
            .get(&leaf)
            .map(|place| place.sectors.len() as u64)
    }

    fn leaf_from(&self, from: u64) -> Option<u64>
        ensures some { IfSome result (λ l. (from ≤ l) × IsSome ((shape_of_memory self.now).leaves l)
            × ((m : ℕ) → from ≤ m → m < l → (shape_of_memory self.now).leaves m ≡ None)) }
        ensures none { IfNone result ((m : ℕ) → from ≤ m → (shape_of_memory self.now).leaves m ≡ None) }
    {
        first_from(&self.leaves, from)
    }
}
