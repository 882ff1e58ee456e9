//! A scrub's next block is lent: it is read, and kept as the loan that counts.
ghost use Rattle.std.specs.Prelude.{◌≡◌, ◌≤◌, ◌+◌, ℕ, IsSomeAnd, Err, Ok, IfErr, IfNone, IfOk, IfSome, OnErr, OnOk, length, option_map};
ghost use Rattle.draid_entries.specs.History.{AskIs, IsAsked, KeepsOwed, left_for_groups};
ghost use Rattle.draid_machine.specs.State as machine;
ghost use Rattle.draid_machine.specs.declared.names.Held.{Held};
ghost use Rattle.draid_machine.specs.declared.names.Key.{Key};
ghost use Rattle.draid_pass.specs.declared.pass.Pass.{Pass};
ghost use Rattle.draid_shard.specs.Alike.{KeepsArms};
ghost use Rattle.draid_shard.specs.Calls.{SameAreas, SameKit, SameReserve};
ghost use Rattle.draid_shard.specs.Changes.{DoesNothing, KeepsBlocks};
ghost use Rattle.draid_shard.specs.Fits.{Valid};
ghost use Rattle.draid_shard.specs.Left.{HasNothingLeft};
ghost use Rattle.draid_shard.specs.Lends.{IsLendRefused, lend_events};
ghost use Rattle.draid_shard.specs.Looks.{Reaches};
ghost use Rattle.draid_shard.specs.Part.{IsRun};
ghost use Rattle.draid_shard.specs.Rooms.{IsWornFor};
ghost use Rattle.draid_shard.specs.States.{IsIn, part_of};
ghost use Rattle.draid_restore.specs.Loans.{HasBlockLeft, IsPlaceOf, IsUnit, LendsBlock, counted};
ghost use Rattle.draid_shard.specs.Scrubs.{IsRunningScrub};
ghost use Rattle.draid_restore.specs.Rooms.{HasLendRoom};

use crate::choosing::{name_chosen, name_read};
use crate::reading::{Readings, read_spots};
use crate::rooms::{LendRoom, room_for};
use draid_area::Area;
use draid_entries::{Entry, ReserveFault};
use draid_machine::Event;
use draid_names::{NoMemory, Pointer};
use draid_pass::Pass;
use draid_rack::Rack;
use draid_shard::{
    KeptLoan, LendFault, Lent, LentBlock, ReadingRoom, Shard, extent_of, more_errors, taken_out,
};

/// Lends the next block, live or freed, that was born up to the last group of a scrub and has a stripe where the scrub stands
/// or behind it: each of its arms that answers is read. The loan that counted doesn't any more.
pub fn lend<R: Rack, A: Area>(shard: &mut Shard<R, A>) -> Result<Lent, LendFault>
    requires valid { Valid R.Rack shard.old }
    requires running { IsSomeAnd shard.old.pass IsRunningScrub }
    ensures valid { Valid R.Rack shard.new }
    ensures areas { SameAreas shard.old shard.new }
    ensures told { R.told shard.new.rack ≡ R.told shard.old.rack }
    ensures unit { result ≡ Ok Lent.Unit → LendsBlock R.Rack shard.old shard.new }
    ensures not_worn { result ≡ Ok Lent.Unit → IsWornFor shard.old (lend_events shard.old.kept) → ⊥ }
    ensures pass { OnErr result (shard.new.pass ≡ shard.old.pass) }
    ensures end { result ≡ Ok Lent.End → HasNothingLeft shard.old × (shard.new ≡ shard.old) }
    ensures refused { IfErr result (IsLendRefused shard.old) }
    ensures more { OnErr result (HasBlockLeft shard.old) }
    ensures kit { OnErr result (SameKit shard.old shard.new) }
    ensures none { OnErr result (DoesNothing shard.old shard.new) }
    ensures keeps { KeepsBlocks shard.old shard.new }
    ensures arms { KeepsArms shard.old.slots shard.new.slots }
    ensures reserve { SameReserve shard.old shard.new }
{
    match next_unit(shard) {
        None => Ok(Lent::End),
        Some((entry, stripe)) => lend_next(shard, entry, stripe),
    }
}

/// Lends a block, if there is room.
fn lend_next<R: Rack, A: Area>(
    shard: &mut Shard<R, A>,
    entry: Entry,
    stripe: u64,
) -> Result<Lent, LendFault>
    requires valid { Valid R.Rack shard.old }
    requires running { IsSomeAnd shard.old.pass IsRunningScrub }
    requires unit { IsUnit shard.old entry stripe }
    ensures valid { Valid R.Rack shard.new }
    ensures areas { SameAreas shard.old shard.new }
    ensures told { R.told shard.new.rack ≡ R.told shard.old.rack }
    ensures is { IfOk result (λ lent. lent ≡ Lent.Unit) }
    ensures unit { OnOk result (LendsBlock R.Rack shard.old shard.new) }
    ensures not_worn { OnOk result (IsWornFor shard.old (lend_events shard.old.kept) → ⊥) }
    ensures pass { OnErr result (shard.new.pass ≡ shard.old.pass) }
    ensures refused { IfErr result (IsLendRefused shard.old) }
    ensures more { HasBlockLeft shard.old }
    ensures kit { OnErr result (SameKit shard.old shard.new) }
    ensures none { OnErr result (DoesNothing shard.old shard.new) }
    ensures keeps { KeepsBlocks shard.old shard.new }
    ensures arms { KeepsArms shard.old.slots shard.new.slots }
    ensures reserve { SameReserve shard.old shard.new }
{
    match make_room(shard, &entry.pointer) {
        Ok(room) => {
            lend_block(shard, entry, stripe, room);
            Ok(Lent::Unit)
        }
        Err(ReserveFault::Worn { events }) => Err(LendFault::Worn { events }),
        Err(ReserveFault::NoMemory) => Err(LendFault::NoMemory),
    }
}

/// The first stripe where the pass stands or behind it that a block has which it may lend, with that block.
fn next_unit<R: Rack, A: Area>(shard: &Shard<R, A>) -> Option<(Entry, u64)>
    requires valid { Valid R.Rack shard.now }
    ensures some { IfSome result (λ unit. IsUnit shard.now unit.0 unit.1) }
    ensures none { (w : machine.State) → IsIn shard.now w → (p : Pass) → shard.now.pass ≡ Some p
        → IfNone result ((k : Key) (h : Held) (x : ℕ) → Reaches w.core p.at p.max k h x → ⊥) }
{
    let (at, max) = place_of(&shard.pass);
    let found = shard.next_block(at, max)?;
    let entry = shard.entries.at(found.first)?;
    Some((entry, at.max(entry.pointer.first)))
}

/// The stripe at which a pass stands, and the last group that it makes good.
fn place_of(pass: &Option<Pass>) -> (u64, u64)
    ensures { IsPlaceOf pass.now result.0 result.1 }
{
    match pass {
        Some(pass) => (pass.at, pass.max),
        None => (0, 0),
    }
}

/// How many events a lend asks for: its own, and its landing's where none is owed yet.
fn events_of(kept: &Option<KeptLoan>) -> u64
    ensures { result ≡ lend_events kept.now }
{
    match kept {
        None => 2,
        Some(_) => 1,
    }
}

/// Makes the room in memory that a lend and its landing want, of that of the last loan where this is long enough. It lists
/// the arms of the block that answer.
fn make_room<R: Rack, A: Area>(
    shard: &mut Shard<R, A>,
    pointer: &Pointer,
) -> Result<LendRoom, ReserveFault>
    requires valid { Valid R.Rack shard.old }
    requires run { IsRun shard.old.geometry pointer.now.first pointer.now.stripes }
    ensures valid { Valid R.Rack shard.new }
    ensures only { shard.new ≡ record shard.old { idle = shard.new.idle; history = shard.new.history } }
    ensures history { KeepsOwed shard.old.history shard.new.history }
    ensures none { DoesNothing shard.old shard.new }
    ensures not_worn { OnOk result (IsWornFor shard.old (lend_events shard.old.kept) → ⊥) }
    ensures asked { OnOk result (IsAsked shard.new.history (lend_events shard.old.kept)) }
    ensures room { IfOk result (HasLendRoom (part_of shard.old) shard.old.slots pointer.now) }
    ensures refused { IfErr result (λ why. AskIs shard.old.history (lend_events shard.old.kept) left_for_groups (Err why)) }
{
    shard.history.ask(events_of(&shard.kept))?;
    let idle = shard.idle.take();
    match room_for(shard, pointer, idle) {
        Ok(room) => Ok(room),
        Err(NoMemory) => Err(ReserveFault::NoMemory),
    }
}

/// Lends a block, for which there is room.
fn lend_block<R: Rack, A: Area>(shard: &mut Shard<R, A>, entry: Entry, stripe: u64, room: LendRoom)
    requires valid { Valid R.Rack shard.old }
    requires running { IsSomeAnd shard.old.pass IsRunningScrub }
    requires unit { IsUnit shard.old entry stripe }
    requires asked { IsAsked shard.old.history (lend_events shard.old.kept) }
    requires room { HasLendRoom (part_of shard.old) shard.old.slots entry.pointer room }
    ensures valid { Valid R.Rack shard.new }
    ensures areas { SameAreas shard.old shard.new }
    ensures told { R.told shard.new.rack ≡ R.told shard.old.rack }
    ensures unit { LendsBlock R.Rack shard.old shard.new }
    ensures keeps { KeepsBlocks shard.old shard.new }
    ensures arms { KeepsArms shard.old.slots shard.new.slots }
    ensures reserve { SameReserve shard.old shard.new }
{
    let LendRoom {
        mut lent,
        mut chosen,
        mut read,
        room,
    } = room;
    let pointer = entry.pointer;
    let events = events_of(&shard.kept);
    let extent = extent_of(&shard.slots, &pointer);
    read_spots(&mut shard.rack, &room.spots, extent, &mut lent);
    let Readings {
        columns,
        spare,
        buffers,
        mut failed,
    } = lent;
    name_chosen(&room.spots, &failed, shard.geometry.g, &mut chosen);
    name_read(&room.spots, &failed, &mut read);
    count_errors(&mut shard.pass, failed.len());
    let event = Event::Lend {
        failed: taken_out(&mut failed, shard.alloc),
    };
    shard.serial += 1;
    shard.kept = Some(KeptLoan::Block(LentBlock {
        serial: shard.serial,
        stripe,
        pointer,
        read,
        chosen,
        columns,
        restored: None,
        room,
        aside: ReadingRoom {
            spare,
            buffers,
            failed,
        },
    }));
    shard.history.add_asked(event, events);
}

/// The pass counts so many errors more.
fn count_errors(pass: &mut Option<Pass>, more: usize)
    ensures { pass.new ≡ option_map (counted more) pass.old }
{
    if let Some(mut here) = pass.take() {
        here.errors = more_errors(here.errors, more as u64);
        *pass = Some(here);
    }
}
