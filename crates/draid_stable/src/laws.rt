ghost use Rattle.std.specs.Prelude.{◌≡◌, ◌<◌, ◌≤◌, ◌^◌, [], Bool, List, Option, Some, false, length, true, ℕ};
ghost use Rattle.std.specs.List.{list_any};
ghost use Rattle.draid_area.specs.Area.{Content, MayLeave, flushes, writes};
ghost use Rattle.draid_area.specs.Moments.{IsCrashOutcome};
ghost use Rattle.draid_entries.specs.Listed.{ListsBlocks, SaysBlocks};
ghost use Rattle.draid_entries.specs.declared.entries.Entries.{Entries};
ghost use Rattle.draid_machine.specs.State as state;
ghost use Rattle.draid_machine.specs.Step.{HasWritten};
ghost use Rattle.draid_machine.specs.declared.names.ArmName.{ArmName};
ghost use Rattle.draid_machine.specs.declared.names.Held.{Held};
ghost use Rattle.draid_machine.specs.declared.names.Key.{Key};
ghost use Rattle.draid_machine.specs.declared.names.Segment.{Segment};
ghost use Rattle.draid_names.specs.declared.arm.Arm.{Arm};
ghost use Rattle.draid_names.specs.declared.arm.ArmAt.{ArmAt};
ghost use Rattle.draid_names.specs.declared.pointer.Pointer.{Pointer};
ghost use Rattle.draid_pass.specs.declared.pass.Pass.{Pass};
ghost use Rattle.draid_record.specs.Ranges.{AreBlocks, AreSlots, IsRanged};
ghost use Rattle.draid_record.specs.Record.{ArmTold, RecordTold, spaces_of, told_record, told_slots};
ghost use Rattle.draid_record.specs.declared.record.Record.{Record};
ghost use Rattle.draid_record.specs.declared.limits.Limits.{Limits};
ghost use Rattle.draid_record.specs.Written.{IsWhole, body_bytes};
ghost use Rattle.draid_spec.specs.declared.layout.Geometry.{Geometry};
ghost use Rattle.draid_segments.specs.Segments.{Pieces};
ghost use Rattle.draid_slots.specs.Marks.{is_marked};
ghost use Rattle.draid_slots.specs.Table.{IsTable, SlotTable, arm_at, is_logged};
ghost use Rattle.draid_shelf.specs.Kits.{CrashedKit, KitTold};
ghost use Rattle.draid_stable.specs.declared.sealing.Head.{Head};
ghost use Rattle.draid_stable.specs.Sealing.{AreMarked, AreTables, IsMade, IsSettled, was_born};
ghost use Rattle.draid_slots.specs.States.{name_of};
ghost use Rattle.draid_stable.specs.Kits.{IsStable};
ghost use Rattle.draid_stable.specs.Images.{LeavesBelow, SaysArms, arm_by, held_by};
ghost use Rattle.draid_stable.specs.Within.{ArmsFit, EntriesFit, LimitsOf, LogsFit, TablesFit, TellsArms};
ghost use Rattle.draid_stable.specs.Stable.{HasRecord, ReadsAs, Stands, area_of};

/// Law: the record of an image that stands in an area is read again as that image, whatever a crash leaves,
/// and stands there after the crash. Of the two areas of a metaslab it is the one of the image's group.
pub fn records_outlast_crashes()
    ensures read { (geometry : Geometry) (metaslab next : ℕ) (image : state.Image) (x : Content) (left : List ℕ)
        → HasRecord geometry metaslab image x → LeavesBelow next image → MayLeave x left
        → ReadsAs geometry metaslab next image left }
    ensures stays { (geometry : Geometry) (metaslab : ℕ) (image : state.Image) (x y : Content)
        → HasRecord geometry metaslab image x → IsCrashOutcome x y → HasRecord geometry metaslab image y }
    ensures both { (geometry : Geometry) (metaslab : ℕ) (image : state.Image) (even odd left right : Content)
        → HasRecord geometry metaslab image (area_of image.group even odd) → IsCrashOutcome even left
        → IsCrashOutcome odd right → HasRecord geometry metaslab image (area_of image.group left right) }
{}

/// Law: a record that was written at the front of an area and flushed stands there.
pub fn flushed_records_stand()
    ensures { (value : RecordTold) (bytes : List ℕ) (x : Content) → IsWhole bytes value
        → Stands value (flushes (writes 0 bytes x)) }
{}

/// Law: a flush leaves a record that stands.
pub fn standing_records_stay()
    ensures { (value : RecordTold) (x : Content) → Stands value x → Stands value (flushes x) }
{}

/// Law: where each block of a record, or each arm, is that of a table, and the table has no other, the record
/// says just the table.
pub fn records_say_tables()
    ensures blocks { (blocks : List Pointer) (table : Key → Option Held) → SaysBlocks blocks table
        → held_by blocks ≡ table }
    ensures arms { (slots : List (List ArmTold)) (table : ArmName → Option state.Arm) → SaysArms slots table
        → arm_by slots ≡ table }
{}

/// Law: an image whose record stands, and whose claimed segments are firm, is so after each crash of the
/// devices of its metaslab.
pub fn stable_images_outlast_crashes()
    ensures { (geometry : Geometry) (metaslab : ℕ) (layout : state.Layout) (pieces : Pieces) (image : state.Image)
        (doubt : Segment → Bool) (x y : KitTold) → IsStable geometry metaslab layout pieces image doubt x
        → CrashedKit x y → IsStable geometry metaslab layout pieces image doubt y }
{}

/// Law: the blocks of a group's image, of tables that fit the ranges of a record, are in those ranges.
#[tactic(auto, using(crate::proofs::Blocks::blocks_ranged, crate::proofs::Blocks::runs_few))]
pub fn listed_blocks_are_in_range()
    ensures blocks { (limits : Limits) (entries : Entries) (blocks : List Pointer) → EntriesFit limits entries
        → ListsBlocks entries limits.group blocks → AreBlocks limits 0 blocks }
    ensures spaces { (blocks : List Pointer) → length (spaces_of blocks) ≤ length blocks }
{}

/// Law: the arms of a table that fits the ranges of a record, with logs that do, are in those ranges.
pub fn told_arms_are_in_range()
    ensures { (limits : Limits) (table : SlotTable) (slots : List (List ArmTold)) → IsTable table → ArmsFit limits table
        → TellsArms table slots → LogsFit slots → AreSlots limits [] slots }
{}

/// Law: the record that is made from tables that fit the ranges of a record is in those ranges, and it still is
/// once it is settled.
pub fn made_records_are_in_range()
    ensures made { (limits : Limits) (head : Head) (entries : Entries) (table : SlotTable) (pass : Option Pass) (last : ℕ)
        (it : Record) → IsMade head entries table pass last it → LimitsOf limits head → TablesFit limits entries table pass last
        → LogsFit (told_slots it.slots.items) → IsRanged limits (told_record it) }
    ensures settled { (limits : Limits) (head : Head) (entries : Entries) (table : SlotTable) (pass : Option Pass) (last : ℕ)
        (it new : Record) (marks : List (List Bool)) (wrote : Bool) → IsMade head entries table pass last it
        → LimitsOf limits head → TablesFit limits entries table pass last → IsSettled it new marks wrote
        → LogsFit (told_slots new.slots.items) → IsRanged limits (told_record new) }
{}

/// Law: the logs of a record that is made from a table, settled, and written are in their ranges, where no log of the
/// table has group 0. The arms of the table have numbers of 64 bits.
pub fn written_logs_are_in_range()
    ensures logs { (head : Head) (entries : Entries) (table : SlotTable) (pass : Option Pass) (last : ℕ) (it new : Record)
        (marks : List (List Bool)) (wrote : Bool) → IsMade head entries table pass last it → IsSettled it new marks wrote
        → 0 < head.group → ((at : ArmAt) (arm : Arm) → arm_at table at ≡ Some arm → is_logged table at 0 ≡ false)
        → length (body_bytes (told_record new)) < 2 ^ 32 → LogsFit (told_slots new.slots.items) }
    ensures small { (head : Head) (entries : Entries) (table : SlotTable) (pass : Option Pass) (last : ℕ) (it : Record)
        (at : ArmAt) (arm : Arm) → IsMade head entries table pass last it → arm_at table at ≡ Some arm → arm.number < 2 ^ 64 }
{}

/// Law: the record that is made from the tables of a state lists a block that was born in its group just where one was
/// written in it.
pub fn made_records_tell_what_was_written()
    ensures yes { (head : Head) (entries : Entries) (table : SlotTable) (pass : Option Pass) (last : ℕ) (it : Record)
        (q : state.Core) → IsMade head entries table pass last it → AreTables entries table pass last q
        → list_any (was_born head.group) it.blocks.items ≡ true → HasWritten q head.group }
    ensures no { (head : Head) (entries : Entries) (table : SlotTable) (pass : Option Pass) (last : ℕ) (it : Record)
        (q : state.Core) → IsMade head entries table pass last it → AreTables entries table pass last q
        → list_any (was_born head.group) it.blocks.items ≡ false → HasWritten q head.group → ⊥ }
{}

/// Law: marks of the arms of a table are marks of those of a record that is made from it.
pub fn marks_go_over()
    ensures { (head : Head) (entries : Entries) (table : SlotTable) (pass : Option Pass) (last : ℕ) (it : Record)
        (marks : List (List Bool)) (test : ArmName → Bool) → IsMade head entries table pass last it
        → ((at : ArmAt) (arm : Arm) → arm_at table at ≡ Some arm → is_marked marks at.slot at.arm ≡ test (name_of arm))
        → AreMarked (told_slots it.slots.items) marks test }
{}
