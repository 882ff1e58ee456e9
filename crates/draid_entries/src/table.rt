ghost use Rattle.std.specs.Prelude.{◌≡◌, ◌+◌, ◌<◌, ◌≤◌, ℕ, None, Some, IfNone, IfSome, IsSome, OnErr, OnOk};
ghost use Rattle.std.specs.BTreeMap.{Updates};
ghost use Rattle.std.specs.Ordering.{nat_cmp};
ghost use Rattle.draid_names.specs.declared.numbers.TheConstants.{NUMBERS};
ghost use Rattle.draid_machine.specs.declared.names.Key.{Key};
ghost use Rattle.draid_entries.specs.Entries.{IsEntered, SameEntries, SetsEntry, begun, count_of, entry_at, held_in};
ghost use Rattle.draid_entries.specs.Maps.{entry_in, key_of, staged};

use crate::entries::Entries;
use crate::entry::{Entry, key_of};
use draid_machine::{Key, Stage};
use draid_names::{NoMemory, Pointer};
use std::alloc::Global;
use std::collections::BTreeMap;

impl Entries {
    /// No block and no open write.
    pub fn new(alloc: Global) -> Entries
        ensures none { (first : ℕ) → entry_at result first ≡ None }
        ensures held { (key : Key) → held_in result key ≡ None }
        ensures count { count_of result ≡ 0 }
    {
        Entries {
            firsts: BTreeMap::new(alloc),
            keys: BTreeMap::new(alloc),
        }
    }

    /// How many blocks and open writes there are, those that were freed included.
    pub fn count(&self) -> usize
        ensures { result ≡ count_of self.now }
    {
        self.keys.len()
    }

    /// The block or open write that begins at a stripe.
    pub fn at(&self, first: u64) -> Option<Entry>
        ensures { result ≡ entry_at self.now first }
    {
        self.firsts.get(&first).copied()
    }

    /// The first block or open write that begins at a stripe or behind it.
    pub fn first_from(&self, stripe: u64) -> Option<Entry>
        ensures there { IfSome result (λ e. entry_at self.now e.pointer.first ≡ Some e) }
        ensures from { IfSome result (λ e. stripe ≤ e.pointer.first) }
        ensures low { IfSome result (λ e. e.pointer.first < NUMBERS) }
        ensures first { IfSome result (λ e. (x : ℕ) → stripe ≤ x → x < e.pointer.first → entry_at self.now x ≡ None) }
        ensures none { IfNone result ((x : ℕ) → stripe ≤ x → entry_at self.now x ≡ None) }
    {
        let (_, entry) = first_from(&self.firsts, stripe)?;
        Some(entry)
    }

    /// The last block or open write that begins at a stripe or before it.
    pub fn last_upto(&self, stripe: u64) -> Option<Entry>
        ensures there { IfSome result (λ e. entry_at self.now e.pointer.first ≡ Some e) }
        ensures upto { IfSome result (λ e. e.pointer.first ≤ stripe) }
        ensures last { IfSome result (λ e. (x : ℕ) → e.pointer.first < x → x ≤ stripe → entry_at self.now x ≡ None) }
        ensures none { IfNone result ((x : ℕ) → x ≤ stripe → entry_at self.now x ≡ None) }
    {
        let (_, entry) = last_upto(&self.firsts, stripe)?;
        Some(entry)
    }

    /// A write is begun at the pointer's stripes.
    pub fn begin(&mut self, pointer: Pointer) -> Result<(), NoMemory>
        requires low { pointer.first < NUMBERS }
        requires free { entry_at self.old pointer.first ≡ None }
        requires unused { held_in self.old (key_of pointer) ≡ None }
        ensures entered { OnOk result (SetsEntry self.old self.new pointer (Some (begun pointer))) }
        ensures count { OnOk result (count_of self.new ≡ count_of self.old + 1) }
        ensures same { OnErr result (SameEntries self.old self.new) }
    {
        let key = key_of(&pointer);
        self.keys.insert(key, pointer.first)?;
        let entry = Entry {
            pointer,
            stage: Stage::Writing {
                columns: 0,
                missed: 0,
            },
        };
        match self.firsts.insert(pointer.first, entry) {
            Ok(_) => Ok(()),
            Err(_) => {
                self.keys.remove(&key);
                Err(NoMemory)
            }
        }
    }

    /// The pointer's block or open write comes to another stage.
    pub fn turn(&mut self, pointer: &Pointer, stage: Stage)
        requires there { IsEntered self.old pointer.now }
        ensures entered { SetsEntry self.old self.new pointer.now (Some (staged stage pointer.now)) }
        ensures count { count_of self.new ≡ count_of self.old }
    {
        let entry = Entry {
            pointer: *pointer,
            stage,
        };
        replace(&mut self.firsts, entry);
    }

    /// The pointer's block or open write goes.
    pub fn remove(&mut self, pointer: &Pointer)
        requires there { IsEntered self.old pointer.now }
        ensures entered { SetsEntry self.old self.new pointer.now None }
        ensures count { count_of self.new + 1 ≡ count_of self.old }
    {
        self.firsts.remove(&pointer.first);
        self.keys.remove(&key_of(pointer));
    }
}

/// The first entry from a stripe on, with the stripe at which it stands.
fn first_from(firsts: &BTreeMap<u64, Entry>, stripe: u64) -> Option<(u64, Entry)>
    ensures there { IfSome result (λ e. entry_in firsts.now e.0 ≡ Some e.1) }
    ensures from { IfSome result (λ e. stripe ≤ e.0) }
    ensures first { IfSome result (λ e. (x : ℕ) → stripe ≤ x → x < e.0 → entry_in firsts.now x ≡ None) }
    ensures none { IfNone result ((x : ℕ) → stripe ≤ x → entry_in firsts.now x ≡ None) }
{
    firsts
        .range(stripe..)
        .next()
        .map(|(first, entry)| (*first, *entry))
}

/// The last entry up to a stripe, with the stripe at which it stands.
fn last_upto(firsts: &BTreeMap<u64, Entry>, stripe: u64) -> Option<(u64, Entry)>
    ensures there { IfSome result (λ e. entry_in firsts.now e.0 ≡ Some e.1) }
    ensures upto { IfSome result (λ e. e.0 ≤ stripe) }
    ensures last { IfSome result (λ e. (x : ℕ) → e.0 < x → x ≤ stripe → entry_in firsts.now x ≡ None) }
    ensures none { IfNone result ((x : ℕ) → x ≤ stripe → entry_in firsts.now x ≡ None) }
{
    match firsts.range(..=stripe).next_back() {
        Some((first, entry)) => Some((*first, *entry)),
        None => None,
    }
}

/// Another entry stands at a first stripe that has one.
fn replace(firsts: &mut BTreeMap<u64, Entry>, entry: Entry)
    requires there { IsSome (entry_in firsts.old entry.pointer.first) }
    ensures updates { Updates nat_cmp firsts.old firsts.new entry.pointer.first (Some entry) }
{
    if let Some(place) = firsts.get_mut(&entry.pointer.first) {
        *place = entry;
    }
}
