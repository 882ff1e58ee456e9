ghost use Rattle.std.specs.Prelude.{◌≡◌, ◌≤◌, ◌^◌, ◌↔◌, ℕ, Contains, IfNone, IfOk, IfSome, IsTrue, false, option_map};
ghost use Rattle.draid_names.specs.declared.pointer.Pointer.{Pointer};
ghost use Rattle.draid_machine.specs.declared.names.Held.{Held};
ghost use Rattle.draid_machine.specs.declared.names.Key.{Key};
ghost use Rattle.draid_machine.specs.declared.names.Stage.TheVariants.{Live};
ghost use Rattle.draid_machine.specs.Names.{is_block};
ghost use Rattle.draid_machine.specs.State as machine;
ghost use Rattle.draid_machine.specs.Step.{IsTaken};
ghost use Rattle.draid_entries.specs.declared.entry.Entry.{Entry};
ghost use Rattle.draid_entries.specs.Entries.{entry_at};
ghost use Rattle.draid_entries.specs.Listed.{AscendFrom};
ghost use Rattle.draid_metaslab.specs.Spaces.{is_free};
ghost use Rattle.draid_ranges.specs.Numbers.{count_below};
ghost use Rattle.draid_slots.specs.Table.{IsThere, count_at};
ghost use Rattle.draid_shard.specs.Looks.{HasTickets, IsBlockOver, IsBlockUpto, IsFirstBlock, IsGreatestBirth, IsLive, IsNextBlock, IsNextTaken, IsOver, Reaches};
ghost use Rattle.draid_shard.specs.Fits.{IsLeaf, Valid};
ghost use Rattle.draid_shard.specs.States.{IsIn};

use crate::shard::Shard;
use draid_area::Area;
use draid_entries::Entry;
use draid_machine::Stage;
use draid_names::{ArmAt, ArmKind, NoMemory, Pointer};
use draid_pass::Pass;
use draid_rack::Rack;
use draid_slots::Slots;

impl<R: Rack, A: Area> Shard<R, A> {
    /// The greatest birth of a block or open write, 0 where there is none.
    pub fn greatest_birth(&self) -> u64
        requires valid { Valid R.Rack self.now }
        ensures { (w : machine.State) → IsIn self.now w → IsGreatestBirth w.core result }
    {
        let mut birth = 0;
        let mut stripe = 0;
        while let Some(entry) = self.entries.first_from(stripe) {
            birth = birth.max(entry.pointer.birth);
            stripe = entry.pointer.first + 1;
        }
        birth
    }

    /// How many open writes there are.
    pub fn tickets(&self) -> u32
        requires valid { Valid R.Rack self.now }
        ensures { (w : machine.State) → IsIn self.now w → HasTickets w.core result }
    {
        let mut tickets = 0;
        let mut stripe = 0;
        while let Some(entry) = self.entries.first_from(stripe) {
            if is_ticket(entry.stage) {
                tickets += 1;
            }
            stripe = entry.pointer.first + 1;
        }
        tickets
    }

    /// The first stripe at `from` or behind it that a block or an open write has.
    pub fn next_taken(&self, from: u64) -> Option<u64>
        requires valid { Valid R.Rack self.now }
        ensures some { (w : machine.State) → IsIn self.now w → IfSome result (IsNextTaken w.core from) }
        ensures none { (w : machine.State) → IsIn self.now w
            → IfNone result ((x : ℕ) → from ≤ x → IsTaken w.core x → ⊥) }
    {
        match self.entry_over(from) {
            Some(_) => Some(from),
            None => {
                let entry = self.entries.first_from(from)?;
                Some(entry.pointer.first)
            }
        }
    }

    /// The block, live or freed, born up to the group `upto`, that has the first stripe at `from` or behind it which
    /// such a block has.
    pub fn next_block(&self, from: u64, upto: u64) -> Option<Pointer>
        requires valid { Valid R.Rack self.now }
        ensures some { (w : machine.State) → IsIn self.now w
            → IfSome result (IsNextBlock w.core from upto) }
        ensures none { (w : machine.State) → IsIn self.now w
            → IfNone result ((k : Key) (h : Held) (x : ℕ) → Reaches w.core from upto k h x → ⊥) }
    {
        match self.block_over(from, upto) {
            Some(entry) => Some(entry.pointer),
            None => self.block_from(from, upto),
        }
    }

    /// Such a block that has a stripe.
    fn block_over(&self, stripe: u64, upto: u64) -> Option<Entry>
        requires valid { Valid R.Rack self.now }
        ensures some { IfSome result (IsBlockOver self.now.entries stripe upto) }
        ensures none { IfNone result ((e : Entry) → IsBlockOver self.now.entries stripe upto e → ⊥) }
    {
        let entry = self.entry_over(stripe)?;
        if is_block_upto(&entry, upto) {
            Some(entry)
        } else {
            None
        }
    }

    /// The first such block that begins at `from` or behind it.
    fn block_from(&self, from: u64, upto: u64) -> Option<Pointer>
        ensures some { IfSome result (IsFirstBlock self.now.entries from upto) }
        ensures none { IfNone result ((e : Entry) → entry_at self.now.entries e.pointer.first ≡ Some e
            → from ≤ e.pointer.first → IsBlockUpto upto e → ⊥) }
    {
        let mut stripe = from;
        while let Some(entry) = self.entries.first_from(stripe) {
            if is_block_upto(&entry, upto) {
                return Some(entry.pointer);
            }
            stripe = entry.pointer.first + 1;
        }
        None
    }

    /// The block or open write that has a stripe.
    fn entry_over(&self, stripe: u64) -> Option<Entry>
        requires valid { Valid R.Rack self.now }
        ensures some { IfSome result (IsOver self.now.entries stripe) }
        ensures only { IfSome result (λ e. (other : Entry) → IsOver self.now.entries stripe other → other ≡ e) }
        ensures none { IfNone result ((other : Entry) → IsOver self.now.entries stripe other → ⊥) }
    {
        let entry = self.entries.last_upto(stripe)?;
        if stripe - entry.pointer.first < u64::from(entry.pointer.stripes) {
            Some(entry)
        } else {
            None
        }
    }

    /// The live blocks, ascending by first stripe.
    pub fn live(&self) -> Result<Vec<Pointer>, NoMemory>
        ensures live { IfOk result (λ blocks. (p : Pointer) → Contains blocks.items p ↔ IsLive self.now p) }
        ensures ascending { IfOk result (λ blocks. AscendFrom 0 blocks.items) }
    {
        let mut listed = Vec::new(self.alloc);
        let mut stripe = 0;
        while let Some(entry) = self.entries.first_from(stripe) {
            if is_live(entry.stage) {
                listed.push(entry.pointer)?;
            }
            stripe = entry.pointer.first + 1;
        }
        Ok(listed)
    }

    /// How many stripes are free.
    pub fn free_stripes(&self) -> u64
        ensures { result ≡ count_below (is_free self.now.space) (2 ^ 48) }
    {
        self.space.free_stripes()
    }

    /// The rebuild or scrub that has the metaslab.
    pub fn pass(&self) -> Option<&Pass>
        ensures { option_map (λ pass. pass.now) result ≡ self.now.pass }
    {
        self.pass.as_ref()
    }

    /// The arms of the child slots, with their logs.
    pub fn slots(&self) -> &Slots
        ensures { result.now ≡ self.now.slots }
    {
        &self.slots
    }

    /// How many groups the log of an arm has.
    pub fn logged(&self, at: ArmAt) -> u64
        requires there { IsThere self.now.slots at }
        ensures { result ≡ count_at self.now.slots at }
    {
        self.slots.log(at).count()
    }

    /// Whether a leaf is an arm, or was one and its detachment isn't committed.
    pub fn has_leaf(&self, leaf: u64) -> bool
        ensures { IsTrue result ↔ IsLeaf self.now.slots leaf }
    {
        self.slots.find(ArmKind::Leaf, leaf).is_some() || self.slots.leaving(leaf)
    }
}

/// Whether this is the stage of an open write.
fn is_ticket(stage: Stage) -> bool
    ensures { IsTrue result ↔ (is_block stage ≡ false) }
{
    matches!(stage, Stage::Writing { .. })
}

/// Whether this is the stage of a live block.
fn is_live(stage: Stage) -> bool
    ensures { IsTrue result ↔ (stage ≡ Live) }
{
    matches!(stage, Stage::Live)
}

/// Whether an entry is a block that was born up to a group.
fn is_block_upto(entry: &Entry, group: u64) -> bool
    ensures { IsTrue result ↔ IsBlockUpto group entry.now }
{
    !is_ticket(entry.stage) && entry.pointer.birth <= group
}
