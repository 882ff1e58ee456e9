ghost use Rattle.std.specs.Prelude.{◌≡◌, ◌<◌, ◌^◌, ℕ, List, IfOk, IfSome, length};
ghost use Rattle.std.specs.List.{list_any};
ghost use Rattle.std.specs.Option.{option_map};
ghost use Rattle.draid_machine.specs.After.{image_of, sealed_core};
ghost use Rattle.draid_machine.specs.Arms.{is_silent, lies_on};
ghost use Rattle.draid_machine.specs.State.{Core, Layout};
ghost use Rattle.draid_record.specs.Record.{told_pass, told_record, told_slots};
ghost use Rattle.draid_stable.specs.Images.{image_by};
ghost use Rattle.draid_stable.specs.Sealing.{AreMarked, AreTables, HaveRoom, IsMade, IsReady, IsSettled, was_born};
ghost use Rattle.draid_slots.specs.States.{IsCurrent};

use crate::arms::copied_slots;
use crate::marks::{lose_targets, mark_slots};
use draid_entries::Entries;
use draid_names::NoMemory;
use draid_pass::Pass;
use draid_record::Record;
use draid_slots::{Marks, Slots};
use std::alloc::Global;

/// Which group of a metaslab is sealed, and in which version of the format.
#[derive(Clone, Copy)]
pub struct Head {
    pub version: u32,
    pub metaslab: u32,
    pub group: u64,
}

/// The record of a group from the tables of its metaslab: the image of a state that has them. It is made before the
/// devices are flushed, so that no memory is wanted for it afterwards.
pub fn record_of_tables(
    alloc: Global,
    head: Head,
    entries: &Entries,
    slots: &Slots,
    pass: &Option<Pass>,
    last_pass: u64,
) -> Result<Record, NoMemory>
    requires { IfSome pass.now (IsCurrent slots.now last_pass) }
    ensures image { IfOk result (λ it. (q : Core) → AreTables entries.now slots.now pass.now last_pass q
        → image_by (told_record it) ≡ image_of head.group head.version q) }
    ensures ready { IfOk result IsReady }
    ensures made { IfOk result (IsMade head entries.now slots.now pass.now last_pass) }
{
    let blocks = entries.blocks_at(alloc, head.group)?;
    let slots = copied_slots(alloc, slots)?;
    let pass = copied_pass(alloc, pass)?;
    Ok(Record {
        version: head.version,
        metaslab: head.metaslab,
        group: head.group,
        slots,
        last_pass,
        pass,
        blocks,
    })
}

/// Another pass of the same values.
fn copied_pass(alloc: Global, pass: &Option<Pass>) -> Result<Option<Pass>, NoMemory>
    ensures { IfOk result (λ copy. option_map told_pass copy ≡ option_map told_pass pass.now) }
{
    let Some(pass) = pass else {
        return Ok(None);
    };
    let targets = Vec::from_slice(alloc, &pass.targets)?;
    Ok(Some(Pass {
        number: pass.number,
        kind: pass.kind,
        targets,
        max: pass.max,
        at: pass.at,
        errors: pass.errors,
        running: pass.running,
    }))
}

/// Whether a block was written in the group of a record: one of its blocks was born in it.
pub fn has_written(it: &Record) -> bool
    ensures { result ≡ list_any (was_born it.now.group) it.now.blocks.items }
{
    it.blocks.iter().any(|block| block.birth == it.group)
}

/// Settles a record once the devices are flushed. The marked arms, those that lie on a silent leaf, miss the group
/// where a block was written in it, and the pass loses them.
pub fn settle(it: &mut Record, marks: &[Marks], wrote: bool)
    requires range { it.old.group < 2 ^ 48 }
    requires count { length marks.now ≡ length it.old.slots.items }
    requires ready { IsReady it.old }
    ensures image { (l : Layout) (q : Core) (failed : List ℕ)
        → AreMarked (told_slots it.old.slots.items) marks.now (lies_on l q (is_silent q failed))
        → image_by (told_record it.old) ≡ image_of it.old.group it.old.version q
        → image_by (told_record it.new) ≡ image_of it.old.group it.old.version (sealed_core l q it.old.group failed wrote) }
    ensures settled { IsSettled it.old it.new marks.now wrote }
{
    settle_parts(it, marks, wrote);
}

/// The parts of a record that are settled: the arms and the pass.
fn settle_parts(it: &mut Record, marks: &[Marks], wrote: bool)
    requires range { it.old.group < 2 ^ 48 }
    requires count { length marks.now ≡ length it.old.slots.items }
    requires room { HaveRoom it.old.slots.items }
    ensures { IsSettled it.old it.new marks.now wrote }
{
    if wrote {
        mark_slots(&mut it.slots, marks, it.group);
    }
    lose_targets(&mut it.pass, marks);
}
