ghost use Rattle.std.specs.Prelude.{◌≡◌, ◌<◌, ◌≤◌, ◌+◌, ℕ, None, Some, IfErr, IfOk, OnErr, OnOk, false, length, max};
ghost use Rattle.draid_names.specs.declared.numbers.TheConstants.{NUMBERS};
ghost use Rattle.draid_block.specs.Blocks.{cut_of};
ghost use Rattle.draid_block.specs.Columns.{stripes_of};
ghost use Rattle.draid_machine.specs.declared.event.Event.TheVariants.{Abort, Finish};
ghost use Rattle.draid_machine.specs.declared.names.Stage.TheVariants.{Live};
ghost use Rattle.draid_machine.specs.State as machine;
ghost use Rattle.draid_metaslab.specs.Spaces.{is_free};
ghost use Rattle.draid_metaslab.specs.Spots.{IsLowest};
ghost use Rattle.draid_spec.specs.declared.layout.Geometry.{Geometry};
ghost use Rattle.draid_entries.specs.Entries.{SameEntries, SetsEntry, begun, count_of, entry_at, held_in};
ghost use Rattle.draid_entries.specs.History.{KeepsOwed, Passes, left_for_groups};
ghost use Rattle.draid_entries.specs.Maps.{key_of, staged};
ghost use Rattle.draid_blocks.specs.Tickets.{BeginRefused, IsNewWrite, IsOpen, Opens, begins};
ghost use Rattle.draid_shard.specs.Fits.{AreFitting, IsBlock, IsFloor, Tables, Valid};
ghost use Rattle.draid_shard.specs.Rooms.{IsWornFor, block_events};
ghost use Rattle.draid_shard.specs.Calls.{SameKit, SameReserve};
ghost use Rattle.draid_shard.specs.Changes.{DoesNothing, SetsBlock};
ghost use Rattle.draid_blocks.specs.Holding.{EnterRefused, HoldRefused, StoresAsked};
ghost use Rattle.draid_shard.specs.States.{Does, IsIn};

use crate::fault::{BeginFault, Missed};
use crate::ticket::Ticket;
use draid_area::Area;
use draid_block::Encoded;
use draid_entries::{Entries, History, ReserveFault, key_of};
use draid_machine::{Event, Stage};
use draid_metaslab::{Space, SpaceFault};
use draid_names::{NUMBERS, Pointer};
use draid_rack::Rack;
use draid_shard::{Shard, release};

/// Takes the lowest free run of stripes that the block fits, for a write of `seq` to `object`. The block is born in
/// the open group, or in `floor` where that is the next one.
pub fn begin<R: Rack, A: Area>(
    shard: &mut Shard<R, A>,
    object: u64,
    seq: u64,
    block: &Encoded,
    floor: u64,
) -> Result<Ticket, BeginFault>
    requires valid { Valid R.Rack shard.old }
    requires new { IsNewWrite shard.old object seq }
    requires floor { IsFloor shard.old floor }
    requires cut { block.now.cut ≡ cut_of shard.old.geometry }
    ensures valid { Valid R.Rack shard.new }
    ensures kit { SameKit shard.old shard.new }
    ensures ticket { IfOk result (Opens shard.old shard.new object seq (max shard.old.open_group floor) block.now) }
    ensures event { IfOk result (λ ticket. Does shard.old shard.new (begins ticket.pointer)) }
    ensures not_worn { OnOk result (IsWornFor shard.old (block_events shard.old) → ⊥) }
    ensures none { OnErr result (DoesNothing shard.old shard.new) }
    ensures refused { IfErr result (λ fault. (w : machine.State) → IsIn shard.old w
        → BeginRefused shard.old (stripes_of (cut_of shard.old.geometry) (length block.now.bytes)) w fault) }
    ensures reserve { SameReserve shard.old shard.new }
    ensures pass { shard.new.pass ≡ shard.old.pass }
{
    if let Some(pass) = shard.rebuild() {
        return Err(BeginFault::Disabled { pass });
    }
    if shard.is_full() {
        return Err(BeginFault::Entries {
            held: shard.entries.count() as u32,
        });
    }
    let pointer = Pointer {
        object,
        seq,
        metaslab: shard.number,
        first: 0,
        stripes: block.stripes(),
        len: block.len(),
        birth: shard.open_group.max(floor),
        digest: block.digest(),
    };
    let asked = shard.block_events();
    match hold(
        &mut shard.space,
        &mut shard.entries,
        &mut shard.history,
        pointer,
        asked,
    ) {
        Ok(pointer) => Ok(Ticket {
            pointer,
            next: 0,
            missed: 0,
        }),
        Err(fault) => Err(fault),
    }
}

/// Ends a write whose columns are all put: its block is live, or its stripes are free again where more columns
/// landed on no arm than there are parity columns.
pub fn finish<R: Rack, A: Area>(shard: &mut Shard<R, A>, ticket: Ticket) -> Result<Pointer, Missed>
    requires valid { Valid R.Rack shard.old }
    requires is_open { IsOpen shard.old ticket }
    requires all { ticket.next ≡ shard.old.geometry.g }
    ensures valid { Valid R.Rack shard.new }
    ensures kit { SameKit shard.old shard.new }
    ensures event { Does shard.old shard.new (Finish (key_of ticket.pointer)) }
    ensures live { IfOk result (λ pointer. (ticket.missed ≤ shard.old.geometry.spec.parity) × (pointer ≡ ticket.pointer)) }
    ensures missed { IfErr result (λ e. (shard.old.geometry.spec.parity < ticket.missed) × (e.columns ≡ ticket.missed)) }
    ensures sets { OnOk result (SetsBlock shard.old shard.new ticket.pointer (Some (staged Live ticket.pointer))) }
    ensures gone { OnErr result (SetsBlock shard.old shard.new ticket.pointer None) }
    ensures reserve { SameReserve shard.old shard.new }
    ensures pass { shard.new.pass ≡ shard.old.pass }
{
    let pointer = ticket.pointer;
    let key = key_of(&pointer);
    if ticket.missed > shard.geometry.spec.parity {
        release(&mut shard.space, &mut shard.entries, &pointer);
        shard.history.add(Event::Finish { key }, 2);
        return Err(Missed {
            columns: ticket.missed,
        });
    }
    shard.entries.turn(&pointer, Stage::Live);
    shard.history.add(Event::Finish { key }, 1);
    Ok(pointer)
}

/// Gives a write up: its stripes are free again.
pub fn abort<R: Rack, A: Area>(shard: &mut Shard<R, A>, ticket: Ticket)
    requires valid { Valid R.Rack shard.old }
    requires is_open { IsOpen shard.old ticket }
    ensures valid { Valid R.Rack shard.new }
    ensures kit { SameKit shard.old shard.new }
    ensures event { Does shard.old shard.new (Abort (key_of ticket.pointer)) }
    ensures gone { SetsBlock shard.old shard.new ticket.pointer None }
    ensures reserve { SameReserve shard.old shard.new }
    ensures pass { shard.new.pass ≡ shard.old.pass }
{
    release(&mut shard.space, &mut shard.entries, &ticket.pointer);
    let left = shard.geometry.g.saturating_sub(ticket.next);
    let owed = u64::from(left) + 2;
    let event = Event::Abort {
        key: key_of(&ticket.pointer),
    };
    shard.history.add(event, owed);
}

/// Gives the lowest run of free stripes that fits to the pointer's block, whose write is then open, with its event.
/// The answer is the pointer with its first stripe.
fn hold(
    space: &mut Space,
    entries: &mut Entries,
    history: &mut History,
    pointer: Pointer,
    asked: u64,
) -> Result<Pointer, BeginFault>
    requires enabled { space.old.disabled ≡ false }
    requires some { 0 < pointer.stripes }
    requires asked { 0 < asked }
    requires unused { held_in entries.old (key_of pointer) ≡ None }
    requires tables { AreFitting space.old entries.old }
    ensures placed { IfOk result (λ placed. placed ≡ record pointer { first = placed.first }) }
    ensures lowest { IfOk result (λ placed. IsLowest (is_free space.old) space.old.height pointer.stripes placed.first) }
    ensures inside { IfOk result (λ placed. placed.first + pointer.stripes ≤ space.old.total) }
    ensures entered { IfOk result (λ placed. SetsEntry entries.old entries.new placed (Some (begun placed))) }
    ensures was { IfOk result (λ placed. entry_at entries.old placed.first ≡ None) }
    ensures count { OnOk result (count_of entries.new ≡ count_of entries.old + 1) }
    ensures stored { IfOk result (λ placed. StoresAsked history.old history.new (begins placed) asked) }
    ensures not_worn { OnOk result (Passes history.old asked left_for_groups → ⊥) }
    ensures same { OnErr result (SameEntries entries.old entries.new) }
    ensures kept { OnErr result (KeepsOwed history.old history.new) }
    ensures refused { IfErr result (HoldRefused space.old history.old pointer.stripes asked) }
    ensures tables { (geometry : Geometry) (open_group : ℕ) → Tables geometry open_group space.old entries.old
        → IsBlock geometry open_group pointer → Tables geometry open_group space.new entries.new }
    ensures disabled { space.new.disabled ≡ space.old.disabled }
{
    let first = match space.allocate(u64::from(pointer.stripes)) {
        Ok(first) => first,
        Err(SpaceFault::NoRoom { largest }) => return Err(BeginFault::NoRoom { largest }),
        Err(SpaceFault::NoMemory) => return Err(BeginFault::NoMemory),
    };
    let placed = Pointer { first, ..pointer };
    match enter(entries, history, placed, asked) {
        Ok(()) => Ok(placed),
        Err(fault) => {
            space.release(first, u64::from(pointer.stripes));
            Err(fault)
        }
    }
}

/// Enters the block of a pointer as an open write, with its event.
fn enter(
    entries: &mut Entries,
    history: &mut History,
    pointer: Pointer,
    asked: u64,
) -> Result<(), BeginFault>
    requires low { pointer.first < NUMBERS }
    requires free { entry_at entries.old pointer.first ≡ None }
    requires unused { held_in entries.old (key_of pointer) ≡ None }
    requires asked { 0 < asked }
    ensures entered { OnOk result (SetsEntry entries.old entries.new pointer (Some (begun pointer))) }
    ensures count { OnOk result (count_of entries.new ≡ count_of entries.old + 1) }
    ensures stored { OnOk result (StoresAsked history.old history.new (begins pointer) asked) }
    ensures not_worn { OnOk result (Passes history.old asked left_for_groups → ⊥) }
    ensures same { OnErr result (SameEntries entries.old entries.new) }
    ensures kept { OnErr result (KeepsOwed history.old history.new) }
    ensures refused { IfErr result (EnterRefused history.old asked) }
{
    match history.ask(asked) {
        Ok(()) => {}
        Err(ReserveFault::Worn { events }) => return Err(BeginFault::Worn { events }),
        Err(ReserveFault::NoMemory) => return Err(BeginFault::NoMemory),
    }
    entries.begin(pointer)?;
    history.add_asked(begin_event(&pointer), asked);
    Ok(())
}

/// The event of a write that begins at its place.
fn begin_event(pointer: &Pointer) -> Event
    ensures { result ≡ begins pointer.now }
{
    Event::Begin {
        key: key_of(pointer),
        first: pointer.first,
        stripes: pointer.stripes,
        len: pointer.len,
        birth: pointer.birth,
        digest: pointer.digest,
    }
}
