ghost use Rattle.std.specs.Prelude.{◌≡◌, ◌≢◌, ◌==◌, ◌+◌, ◌-◌, ◌*◌, ◌<◌, ◌≤◌, ◌^◌, ◌||◌, ◌&&◌, ◌∷◌, ◌↔◌, [], ℕ, All, Some, None, IsTrue, true, false, map, filter, length, nat_lt, IfOk, IfErr, OnOk, OnErr, IfSome, IfNone, IsSomeAnd, slice_index_or, vec_len, vec_capacity};
ghost use Rattle.draid_spec.specs.Geometry.{metaslab_sectors, slice_at};
ghost use Rattle.draid_map.specs.Place.{IsLayout};
ghost use Rattle.draid_names.specs.declared.arm.Arm.{Arm};
ghost use Rattle.draid_names.specs.declared.arm.ArmAt.{ArmAt};
ghost use Rattle.draid_ranges.specs.Numbers.{has};
ghost use Rattle.draid_ranges.specs.Runs.{is_between};
ghost use Rattle.draid_slots.specs.declared.slot.Slot.{Slot};
ghost use Rattle.draid_slots.specs.Changes.{Attaches, ChangesArms, ChangesLog, Commits, Detaches, HasRoom, IsNew, IsOf, IsRoomier, IsSame, Keeps, SetsLog, freshened, switched};
ghost use Rattle.draid_slots.specs.Faults.{IsAttachRefused, IsDetachRefused, IsSpareRefused, MayAttach, MayDetach};
ghost use Rattle.draid_names.specs.Spares.{AreUsed, IsArm};
ghost use Rattle.draid_chain.specs.Chain as chain;
ghost use Rattle.draid_chain.specs.Chain.{holder_in};
ghost use Rattle.draid_chain.specs.Used.{first_in};
ghost use Rattle.draid_slots.specs.Moves.{ArePlaces, HasMoved, Lies, LiesElsewhere, ArmsWere, has_moved};
ghost use Rattle.draid_slots.specs.Reading.{IsFirst, IsNone, IsRead, answers, answers_in, holder, is_clean_in, pool_slice, spare_slot};
ghost use Rattle.draid_slots.specs.Table.{AreKept, AreSlots, IsArmOf, IsPaired, IsTable, IsThere, SlotTable, arm_at, arms_listed, arms_of, first_spares, has_spare, holds_spare, is_leaving, is_leaving_online, is_logged, log_at, logs_listed, next_rooms, room_at, table_of};

use crate::lists::{
    find_arm, last_slot_of, new_slots, reserve_next, reserve_slots, slot_with, slots_of, switch_all,
};
use crate::moved::{MOST_SPARES, Moved, Places, places_of};
use crate::slot::{
    Detached, MOST_ARMS, ReadArm, Slot, add_arm, first_leaf, first_spare, has_leaf_beside, is_leaf,
    least_count, remove_arm,
};
use draid_chain::{at_spare, has_column, slice_holder};
use draid_dtl::Log;
use draid_names::{Arm, ArmAt, ArmKind, At, NoMemory, SlotFault};
use draid_perm::Perms;
use draid_spec::Geometry;
use std::alloc::Global;
use std::marker::Model;

/// The child slots of a metaslab, each with one to three arms, and a log for each arm.
#[derive(Drop)]
pub struct Slots {
    geometry: Geometry,
    perms: Perms,
    metaslab: u32,
    slots: Vec<Slot>,
    detached: Vec<Detached>,
    /// The logs of arms that are still to come.
    next: Vec<Log>,
}

impl Model for Slots {
    ghost Value = { SlotTable };

    ghost view = { λ s. table_of s.geometry s.perms s.metaslab s.slots.items s.detached.items (next_rooms s.next.items) (vec_capacity s.detached - vec_len s.detached) };

    ghost invariant = { λ s. AreKept s.geometry s.perms s.metaslab s.slots.items s.detached.items };
}

impl Slots {
    /// The slots of a metaslab of a new pool. Each has the leaf of its own number, online and not fresh, which
    /// missed nothing.
    pub fn new(
        alloc: Global,
        geometry: Geometry,
        perms: Perms,
        metaslab: u32,
    ) -> Result<Slots, NoMemory>
        requires layout { IsLayout geometry perms }
        requires metaslab { metaslab < geometry.props.metaslabs }
        ensures of { IfOk result (λ slots. IsOf slots geometry perms metaslab) }
        ensures new { IfOk result (λ slots. IsNew geometry.spec.children slots) }
    {
        let slots = new_slots(alloc, geometry.spec.children)?;
        Ok(Slots {
            geometry,
            perms,
            metaslab,
            slots,
            detached: Vec::new(alloc),
            next: Vec::new(alloc),
        })
    }

    /// The slots that a record tells of, with no detachment whose commit is still to come.
    pub fn of(
        alloc: Global,
        geometry: Geometry,
        perms: Perms,
        metaslab: u32,
        arms: Vec<Vec<(Arm, Log)>>,
    ) -> Result<Slots, NoMemory>
        requires layout { IsLayout geometry perms }
        requires metaslab { metaslab < geometry.props.metaslabs }
        requires arms { AreSlots geometry (arms_listed arms.items) [] }
        ensures of { IfOk result (λ slots. IsOf slots geometry perms metaslab) }
        ensures arms { IfOk result (λ slots. slots.arms ≡ arms_listed arms.items) }
        ensures logs { IfOk result (λ slots. slots.logs ≡ logs_listed arms.items) }
        ensures detached { IfOk result (λ slots. slots.detached ≡ []) }
    {
        let slots = slots_of(alloc, arms)?;
        Ok(Slots {
            geometry,
            perms,
            metaslab,
            slots,
            detached: Vec::new(alloc),
            next: Vec::new(alloc),
        })
    }

    /// Makes room for so many changes of each log, for so many more arms with as many each, and for as many
    /// detachments.
    #[tactic(auto, using(crate::proofs::Rooms::rooms_kept, crate::proofs::Rooms::some_rooms))]
    pub fn reserve(&mut self, alloc: Global, changes: u32, arms: u32) -> Result<(), NoMemory>
        ensures kept { Keeps self.old self.new }
        ensures roomier { IsRoomier self.old self.new }
        ensures room { OnOk result (HasRoom self.new changes arms) }
    {
        let Some(more) = changes.checked_add(1) else {
            return Err(NoMemory);
        };
        reserve_slots(&mut self.slots, changes)?;
        self.detached.reserve(arms as usize)?;
        reserve_next(alloc, &mut self.next, more, arms as usize)?;
        Ok(())
    }

    /// How many slots there are. What holds of the arms of each is said with it.
    pub fn children(&self) -> u32
        ensures count { result ≡ self.now.geometry.spec.children }
        ensures sound { IsTable self.now }
    {
        self.geometry.spec.children
    }

    /// The layout of the pool. What holds of it, and of the arms, is said with it.
    pub fn geometry(&self) -> &Geometry
        ensures geometry { result.now ≡ self.now.geometry }
        ensures sound { IsTable self.now }
    {
        &self.geometry
    }

    /// The permutations of the pool's children.
    pub fn perms(&self) -> &Perms
        ensures { result.now ≡ self.now.perms }
    {
        &self.perms
    }

    /// The number of the metaslab.
    pub fn metaslab(&self) -> u32
        ensures { result ≡ self.now.metaslab }
    {
        self.metaslab
    }

    /// The arms of a slot, in the order of attachment.
    pub fn arms(&self, slot: u32) -> &[Arm]
        requires { slot < self.now.geometry.spec.children }
        ensures arms { result.now ≡ arms_of self.now slot }
        ensures few { length result.now ≤ 3 }
    {
        self.slots[slot as usize].arms.as_slice()
    }

    /// The log of an arm.
    pub fn log(&self, at: ArmAt) -> &Log
        requires { IsThere self.now at }
        ensures { result.now ≡ log_at self.now at }
    {
        &self.slots[at.slot as usize].logs[at.arm as usize]
    }

    /// Where a sector of the slot lies on one of its arms, by the number of the sector in the metaslab.
    pub fn place(&self, at: ArmAt, sector: u64) -> At
        requires there { IsThere self.now at }
        requires sector { sector < metaslab_sectors self.now.geometry }
        ensures leaf { IsSomeAnd (holder self.now at (slice_at self.now.geometry sector)) (λ leaf. leaf.number ≡ result.leaf) }
        ensures sector { result.sector ≡ sector }
    {
        let slice = sector / self.geometry.slice_sectors();
        At {
            leaf: self.holder(at, slice).number,
            sector,
        }
    }

    /// Whether an arm answers in a slice of the metaslab: the leaf that holds its sectors there isn't offline.
    pub fn answers(&self, at: ArmAt, slice: u64) -> bool
        requires there { IsThere self.now at }
        requires slice { slice < self.now.geometry.props.slices }
        ensures { result ≡ answers self.now at slice }
    {
        !self.holder(at, slice).offline
    }

    /// The arm that a column of a block born in this group is read from: the first that answers and is clean,
    /// else the first that answers. None where no arm answers.
    pub fn reading_arm(&self, slot: u32, slice: u64, birth: u64) -> Option<ReadArm>
        requires slot { slot < self.now.geometry.spec.children }
        requires slice { slice < self.now.geometry.props.slices }
        ensures read { IfSome result (IsRead self.now slot slice birth) }
        ensures none { IfNone result (IsNone (answers_in self.now slot slice) (length (arms_of self.now slot))) }
    {
        if let Some(arm) = self.first_clean(slot, slice, birth) {
            return Some(ReadArm { arm, clean: true });
        }
        let arm = self.first_answering(slot, slice)?;
        Some(ReadArm { arm, clean: false })
    }

    /// The slot that has the spare as an arm, or had it and its detachment isn't committed.
    pub fn busy(&self, spare: u32) -> Option<u32>
        ensures holds { IfSome result (λ slot. holds_spare self.now spare slot ≡ true) }
        ensures only { IfSome result (λ slot. (other : ℕ) → holds_spare self.now spare other ≡ true → other ≡ slot) }
        ensures none { IfNone result ((slot : ℕ) → holds_spare self.now spare slot ≡ false) }
    {
        if let Some(slot) = slot_with(&self.slots, spare) {
            return Some(slot);
        }
        last_slot_of(&self.detached, spare)
    }

    /// Where the arm of this kind and number is.
    pub fn find(&self, kind: ArmKind, number: u64) -> Option<ArmAt>
        ensures found { IfSome result (λ at. IsArmOf kind number (arm_at self.now at)) }
        ensures none { IfNone result ((at : ArmAt) → ¬ (IsArmOf kind number (arm_at self.now at))) }
    {
        find_arm(&self.slots, kind, number)
    }

    /// Whether a leaf was an arm, wasn't offline as it was detached, and its detachment isn't committed.
    pub fn leaving_online(&self, leaf: u64) -> bool
        ensures { result ≡ is_leaving_online self.now leaf }
    {
        self.detached.iter().any(|gone| matches!(gone.kind, ArmKind::Leaf)
            && gone.number == leaf
            && !gone.offline)
    }

    /// Whether a leaf was an arm and its detachment isn't committed.
    pub fn leaving(&self, leaf: u64) -> bool
        ensures { result ≡ is_leaving self.now leaf }
    {
        self.detached.iter().any(|gone| matches!(gone.kind, ArmKind::Leaf) && gone.number == leaf)
    }

    /// The arms that were detached in groups that aren't committed.
    pub fn detached(&self) -> &[Detached]
        ensures { result.now ≡ self.now.detached }
    {
        self.detached.as_slice()
    }

    /// Adds a group to the log of an arm.
    pub fn dirty(&mut self, at: ArmAt, group: u64)
        requires there { IsThere self.old at }
        requires range { group < 2 ^ 48 }
        requires room { 0 < room_at self.old at }
        ensures { ChangesLog self.old self.new at (λ x. is_logged self.old at x || x == group) }
    {
        let Ok(()) = self.slots[at.slot as usize].logs[at.arm as usize].dirty(group) else {
            unreachable!()
        };
    }

    /// Makes the log of an arm that of the groups from 1 to `upto`.
    pub fn fill(&mut self, at: ArmAt, upto: u64)
        requires there { IsThere self.old at }
        requires range { upto < 2 ^ 48 }
        requires room { 0 < room_at self.old at }
        ensures { ChangesLog self.old self.new at (is_between 1 (upto + 1)) }
    {
        self.slots[at.slot as usize].logs[at.arm as usize].fill(upto);
    }

    /// Takes the groups up to `upto` out of the log of an arm.
    pub fn excise(&mut self, at: ArmAt, upto: u64)
        requires there { IsThere self.old at }
        requires range { upto < 2 ^ 48 }
        ensures changes { ChangesLog self.old self.new at (λ x. is_logged self.old at x && nat_lt upto x) }
        ensures room { (other : ArmAt) → room_at self.old other ≤ room_at self.new other }
    {
        self.slots[at.slot as usize].logs[at.arm as usize].excise(upto);
    }

    /// Gives an arm another log.
    pub fn set_log(&mut self, at: ArmAt, log: Log)
        requires there { IsThere self.old at }
        ensures { SetsLog self.old self.new at log }
    {
        self.slots[at.slot as usize].logs[at.arm as usize] = log;
    }

    /// Makes an arm fresh, or ends that.
    pub fn set_fresh(&mut self, at: ArmAt, fresh: bool)
        requires there { IsThere self.old at }
        ensures { ChangesArms self.old self.new (freshened at fresh) }
    {
        self.slots[at.slot as usize].arms[at.arm as usize].fresh = fresh;
    }

    /// Takes a leaf offline, or online.
    pub fn set_offline(&mut self, leaf: u64, offline: bool)
        ensures { ChangesArms self.old self.new (switched leaf offline) }
    {
        switch_all(&mut self.slots, leaf, offline);
    }

    /// Forgets the detachments up to a group, whose spares are then no longer busy.
    pub fn commit(&mut self, group: u64)
        ensures { Commits self.old self.new group }
    {
        self.detached.retain(|gone| gone.group > group);
    }

    /// Gives a slot one more arm, which is fresh and missed the groups from 1 to `upto`. The room for it is used up.
    /// Answers which spares keep sectors elsewhere from then on.
    pub fn attach(&mut self, slot: u32, arm: Arm, upto: u64) -> Result<Moved, SlotFault>
        requires range { upto < 2 ^ 48 }
        requires room { 0 < length self.old.next }
        requires log { All (λ (room : ℕ). 0 < room) self.old.next }
        ensures allowed { OnOk result (MayAttach self.old slot arm) }
        ensures attached { OnOk result (Attaches self.old self.new slot arm upto) }
        ensures moved { IfOk result (λ moved. (spare : ℕ) → (has_moved moved spare ≡ true) ↔ HasMoved self.old self.new spare) }
        ensures refused { IfErr result (IsAttachRefused self.old slot arm) }
        ensures same { OnErr result (self.new ≡ self.old) }
    {
        let before = self.places();
        self.add(slot, arm, upto)?;
        Ok(self.moved_since(&before))
    }

    /// Takes an arm out of its slot, in the open group `group`. Answers which spares keep sectors elsewhere from then on.
    pub fn detach(&mut self, at: ArmAt, group: u64) -> Result<Moved, SlotFault>
        requires room { 0 < self.old.places }
        ensures allowed { OnOk result (MayDetach self.old at) }
        ensures detached { OnOk result (Detaches self.old self.new at group) }
        ensures moved { IfOk result (λ moved. (spare : ℕ) → (has_moved moved spare ≡ true) ↔ HasMoved self.old self.new spare) }
        ensures refused { IfErr result (IsDetachRefused self.old at) }
        ensures same { OnErr result (self.new ≡ self.old) }
    {
        let before = self.places();
        self.take(at, group)?;
        Ok(self.moved_since(&before))
    }
}

impl Slots {
    /// Gives a slot one more arm.
    fn add(&mut self, slot: u32, arm: Arm, upto: u64) -> Result<(), SlotFault>
        requires range { upto < 2 ^ 48 }
        requires room { 0 < length self.old.next }
        requires log { All (λ (room : ℕ). 0 < room) self.old.next }
        ensures allowed { OnOk result (MayAttach self.old slot arm) }
        ensures attached { OnOk result (Attaches self.old self.new slot arm upto) }
        ensures count { OnOk result (length self.new.arms ≡ length self.old.arms) }
        ensures chains { OnOk result (ArmsWere self.old self.new) }
        ensures refused { IfErr result (IsAttachRefused self.old slot arm) }
        ensures same { OnErr result (self.new ≡ self.old) }
    {
        self.may_attach(slot, arm)?;
        let Some(mut log) = self.next.pop() else {
            unreachable!()
        };
        log.fill(upto);
        add_arm(
            &mut self.slots[slot as usize],
            Arm { fresh: true, ..arm },
            log,
        );
        Ok(())
    }

    /// Takes an arm out of its slot.
    fn take(&mut self, at: ArmAt, group: u64) -> Result<(), SlotFault>
        requires room { 0 < self.old.places }
        ensures allowed { OnOk result (MayDetach self.old at) }
        ensures detached { OnOk result (Detaches self.old self.new at group) }
        ensures count { OnOk result (length self.new.arms ≡ length self.old.arms) }
        ensures chains { OnOk result (ArmsWere self.old self.new) }
        ensures refused { IfErr result (IsDetachRefused self.old at) }
        ensures same { OnErr result (self.new ≡ self.old) }
    {
        self.may_detach(at)?;
        let arm = remove_arm(&mut self.slots[at.slot as usize], at.arm as usize);
        self.detached.push_reserved(Detached {
            kind: arm.kind,
            number: arm.number,
            slot: at.slot,
            group,
            offline: arm.offline,
        });
        Ok(())
    }
}

impl Slots {
    /// The leaf that holds an arm's sectors of a slice.
    fn holder(&self, at: ArmAt, slice: u64) -> Arm
        requires there { IsThere self.now at }
        requires slice { slice < self.now.geometry.props.slices }
        ensures { holder self.now at slice ≡ Some result }
    {
        let arm = self.slots[at.slot as usize].arms[at.arm as usize];
        if is_leaf(arm) {
            return arm;
        }
        let child = self.keeping_slot(at.slot, arm.number as u32, slice);
        first_leaf(&self.slots[child as usize].arms)
    }

    /// The slot whose first leaf keeps a slice for a spare arm of a slot: that at the spare's position, unless that has a
    /// spare itself.
    fn keeping_slot(&self, slot: u32, spare: u32, slice: u64) -> u32
        requires arm { has_spare (arms_of self.now slot) spare ≡ true }
        requires spare { spare < self.now.geometry.spec.spares }
        requires slice { slice < self.now.geometry.props.slices }
        ensures slot { result ≡ spare_slot self.now slot spare slice }
        ensures below { result < self.now.geometry.spec.children }
    {
        let child = self.spare_child(spare, slice);
        match self.first_spare_of(child) {
            None => child,
            Some(_) => self.spare_slot(&self.places(), slot, spare, slice),
        }
    }

    /// The slot at a spare's position of a slice.
    fn spare_child(&self, spare: u32, slice: u64) -> u32
        requires spare { spare < self.now.geometry.spec.spares }
        requires slice { slice < self.now.geometry.props.slices }
        ensures slot { result ≡ chain.spare_slot self.now.perms (pool_slice self.now slice) spare }
        ensures below { result < self.now.geometry.spec.children }
    {
        let before = u64::from(self.metaslab) * u64::from(self.geometry.props.slices);
        at_spare(&self.geometry, &self.perms, before + slice, spare)
    }

    /// The first spare of a slot.
    fn first_spare_of(&self, slot: u32) -> Option<u32>
        requires slot { slot < self.now.geometry.spec.children }
        ensures { result ≡ first_spares self.now slot }
    {
        first_spare(&self.slots[slot as usize].arms)
    }

    /// The first spare and the first leaf of each slot.
    fn places(&self) -> Places
        ensures places { ArePlaces self.now.arms result }
        ensures used { AreUsed self.now.geometry.spec.children self.now.geometry.spec.spares (first_in result.used) }
        ensures arms { (slot spare : ℕ) → has_spare (arms_of self.now slot) spare ≡ true
            → IsArm self.now.geometry.spec.children self.now.geometry.spec.spares (first_in result.used) slot spare }
        ensures past { (k : ℕ) → self.now.geometry.spec.children ≤ k → first_in result.used k ≡ None }
    {
        places_of(&self.slots)
    }

    /// The slot whose first leaf keeps a slice for a spare arm of a slot.
    fn spare_slot(&self, places: &Places, slot: u32, spare: u32, slice: u64) -> u32
        requires used { AreUsed self.now.geometry.spec.children self.now.geometry.spec.spares (first_in places.now.used) }
        requires arm { IsArm self.now.geometry.spec.children self.now.geometry.spec.spares (first_in places.now.used) slot spare }
        requires past { (k : ℕ) → self.now.geometry.spec.children ≤ k → first_in places.now.used k ≡ None }
        requires slice { slice < self.now.geometry.props.slices }
        ensures slot { result ≡ holder_in self.now.perms self.now.geometry.spec.spares (pool_slice self.now slice) (first_in places.now.used) slot spare }
        ensures below { result < self.now.geometry.spec.children }
    {
        let children = self.geometry.spec.children as usize;
        let before = u64::from(self.metaslab) * u64::from(self.geometry.props.slices);
        slice_holder(
            &self.geometry,
            &self.perms,
            &places.used[..children],
            before + slice,
            slot,
            spare,
        )
    }

    /// The spares that keep sectors elsewhere than by what was kept of the slots' arms.
    fn moved_since(&self, before: &Places) -> Moved
        requires used { AreUsed self.now.geometry.spec.children self.now.geometry.spec.spares (first_in before.now.used) }
        requires arm { (slot spare : ℕ) → has_spare (arms_of self.now slot) spare ≡ true
            → IsArm self.now.geometry.spec.children self.now.geometry.spec.spares (first_in before.now.used) slot spare }
        requires past { (k : ℕ) → self.now.geometry.spec.children ≤ k → first_in before.now.used k ≡ None }
        ensures { (old : SlotTable) → IsSame old self.now → length old.arms ≡ length self.now.arms
            → ArePlaces old.arms before.now
            → (spare : ℕ) → (has_moved result spare ≡ true) ↔ HasMoved old self.now spare }
    {
        let now = self.places();
        let mut moved = Moved {
            spares: [false; MOST_SPARES],
        };
        for spare in 0..self.geometry.spec.spares {
            moved.spares[spare as usize] = self.moves(before, &now, spare);
        }
        moved
    }

    /// Whether a spare arm keeps a column of its slot elsewhere by one of two such lists than by the other.
    fn moves(&self, before: &Places, now: &Places, spare: u32) -> bool
        requires before { AreUsed self.now.geometry.spec.children self.now.geometry.spec.spares (first_in before.now.used) }
        requires before_arm { (slot : ℕ) → has_spare (arms_of self.now slot) spare ≡ true
            → IsArm self.now.geometry.spec.children self.now.geometry.spec.spares (first_in before.now.used) slot spare }
        requires before_past { (k : ℕ) → self.now.geometry.spec.children ≤ k → first_in before.now.used k ≡ None }
        requires now { AreUsed self.now.geometry.spec.children self.now.geometry.spec.spares (first_in now.now.used) }
        requires now_arm { (slot : ℕ) → has_spare (arms_of self.now slot) spare ≡ true
            → IsArm self.now.geometry.spec.children self.now.geometry.spec.spares (first_in now.now.used) slot spare }
        requires now_past { (k : ℕ) → self.now.geometry.spec.children ≤ k → first_in now.now.used k ≡ None }
        ensures moves { result ≡ true → Lies before.now now.now self.now spare }
        ensures stays { result ≡ false → ¬ (Lies before.now now.now self.now spare) }
    {
        let Some(slot) = slot_with(&self.slots, spare) else {
            return false;
        };
        for slice in 0..u64::from(self.geometry.props.slices) {
            if self.moves_in(before, now, slot, spare, slice) {
                return true;
            }
        }
        false
    }

    /// Whether a spare arm of a slot keeps the slot's column of a slice elsewhere by one of two such lists than by the other.
    fn moves_in(&self, before: &Places, now: &Places, slot: u32, spare: u32, slice: u64) -> bool
        requires before { AreUsed self.now.geometry.spec.children self.now.geometry.spec.spares (first_in before.now.used) }
        requires before_arm { IsArm self.now.geometry.spec.children self.now.geometry.spec.spares (first_in before.now.used) slot spare }
        requires before_past { (k : ℕ) → self.now.geometry.spec.children ≤ k → first_in before.now.used k ≡ None }
        requires now { AreUsed self.now.geometry.spec.children self.now.geometry.spec.spares (first_in now.now.used) }
        requires now_arm { IsArm self.now.geometry.spec.children self.now.geometry.spec.spares (first_in now.now.used) slot spare }
        requires now_past { (k : ℕ) → self.now.geometry.spec.children ≤ k → first_in now.now.used k ≡ None }
        requires slice { slice < self.now.geometry.props.slices }
        ensures { IsTrue result ↔ LiesElsewhere before.now now.now self.now slot spare slice }
    {
        let first = u64::from(self.metaslab) * u64::from(self.geometry.props.slices);
        if !has_column(&self.geometry, &self.perms, first + slice, slot) {
            return false;
        }
        let old = self.spare_slot(before, slot, spare, slice);
        let new = self.spare_slot(now, slot, spare, slice);
        before.leaves[old as usize] != now.leaves[new as usize]
    }

    /// The first arm of a slot that answers in a slice.
    fn first_answering(&self, slot: u32, slice: u64) -> Option<u32>
        requires slot { slot < self.now.geometry.spec.children }
        requires slice { slice < self.now.geometry.props.slices }
        ensures first { IfSome result (IsFirst (answers_in self.now slot slice) (length (arms_of self.now slot))) }
        ensures none { IfNone result (IsNone (answers_in self.now slot slice) (length (arms_of self.now slot))) }
    {
        for arm in 0..self.arms(slot).len() as u32 {
            if self.answers(ArmAt { slot, arm }, slice) {
                return Some(arm);
            }
        }
        None
    }

    /// The first arm of a slot that answers in a slice and doesn't miss a group.
    fn first_clean(&self, slot: u32, slice: u64, birth: u64) -> Option<u32>
        requires slot { slot < self.now.geometry.spec.children }
        requires slice { slice < self.now.geometry.props.slices }
        ensures first { IfSome result (IsFirst (is_clean_in self.now slot slice birth) (length (arms_of self.now slot))) }
        ensures none { IfNone result (IsNone (is_clean_in self.now slot slice birth) (length (arms_of self.now slot))) }
    {
        for arm in 0..self.arms(slot).len() as u32 {
            let at = ArmAt { slot, arm };
            if self.answers(at, slice) && !self.log(at).contains(birth) {
                return Some(arm);
            }
        }
        None
    }

    /// Ok where an arm may be attached to a slot.
    pub fn may_attach(&self, slot: u32, arm: Arm) -> Result<(), SlotFault>
        ensures allowed { OnOk result (MayAttach self.now slot arm) }
        ensures refused { IfErr result (IsAttachRefused self.now slot arm) }
    {
        if slot >= self.geometry.spec.children {
            return Err(SlotFault::NoSuch);
        }
        if !is_leaf(arm) {
            self.is_idle(arm.number)?;
        }
        let arms = self.arms(slot).len();
        if arms >= MOST_ARMS {
            return Err(SlotFault::Full { arms: arms as u32 });
        }
        Ok(())
    }

    /// Ok where a spare is there and is no arm, nor waits for the commit of a detachment.
    fn is_idle(&self, spare: u64) -> Result<(), SlotFault>
        ensures known { OnOk result (spare < self.now.geometry.spec.spares) }
        ensures idle { OnOk result ((slot : ℕ) → holds_spare self.now spare slot ≡ false) }
        ensures refused { IfErr result (IsSpareRefused self.now spare) }
    {
        if spare >= u64::from(self.geometry.spec.spares) {
            return Err(SlotFault::NoSuch);
        }
        match self.busy(spare as u32) {
            Some(by) => Err(SlotFault::SpareBusy { by }),
            None => Ok(()),
        }
    }

    /// Ok where an arm may be detached.
    fn may_detach(&self, at: ArmAt) -> Result<(), SlotFault>
        ensures allowed { OnOk result (MayDetach self.now at) }
        ensures refused { IfErr result (IsDetachRefused self.now at) }
    {
        if at.slot >= self.geometry.spec.children {
            return Err(SlotFault::NoSuch);
        }
        let slot = &self.slots[at.slot as usize];
        if at.arm as usize >= slot.arms.len() {
            return Err(SlotFault::NoSuch);
        }
        if !has_leaf_beside(&slot.arms, at.arm as usize) {
            return Err(SlotFault::LastArm);
        }
        match least_count(&slot.logs, at.arm as usize) {
            Some(0) => Ok(()),
            Some(groups) => Err(SlotFault::LogNotEmpty { groups }),
            None => unreachable!(),
        }
    }
}
