//! A rebuild's next stripe is lent: it is read, and kept as the loan that counts.
ghost use Rattle.std.specs.Prelude.{◌≡◌, ◌*◌, ◌<◌, ◌≤◌, ◌+◌, ◌^◌, [], ℕ, IsSomeAnd, Err, Ok, IfErr, IfOk, IfSome, IfNone, OnErr, OnOk, Some, None, length, vec_capacity};
ghost use Rattle.draid_entries.specs.History.{AskIs, IsAsked, KeepsOwed, left_for_groups};
ghost use Rattle.draid_machine.specs.State as machine;
ghost use Rattle.draid_machine.specs.Step.{IsTaken};
ghost use Rattle.draid_pass.specs.declared.pass.Pass.{Pass};
ghost use Rattle.draid_shard.specs.Alike.{KeepsArms};
ghost use Rattle.draid_shard.specs.Calls.{SameAreas, SameKit, SameReserve};
ghost use Rattle.draid_shard.specs.Changes.{DoesNothing, KeepsBlocks};
ghost use Rattle.draid_shard.specs.Fits.{Valid};
ghost use Rattle.draid_entries.specs.declared.entry.Entry.{Entry};
ghost use Rattle.draid_shard.specs.Left.{HasNothingLeft};
ghost use Rattle.draid_shard.specs.Looks.{IsOver};
ghost use Rattle.draid_shard.specs.Lends.{IsLendRefused, lend_events};
ghost use Rattle.draid_shard.specs.Rooms.{IsWornFor};
ghost use Rattle.draid_shard.specs.States.{IsIn};
ghost use Rattle.draid_mend.specs.Loans.{HasLendRoom, HasUnit, IsPlaceOf, IsRunningRebuild, IsTargetsOf, IsUnit, LendsUnit, unit_at};

use crate::lending::{Readings, read_stripe};
use crate::rooms::{LendRoom, room_for};
use draid_area::Area;
use draid_entries::{Entry, ReserveFault};
use draid_machine::Event;
use draid_names::{NoMemory, Pointer};
use draid_pass::Pass;
use draid_rack::Rack;
use draid_shard::{KeptLoan, LendFault, Lent, LentStripe, Shard, taken_out};

/// Lends the next stripe that a block has, at the place where a rebuild stands or behind it: each column is read from its
/// source. The loan that counted doesn't any more.
pub fn lend<R: Rack, A: Area>(shard: &mut Shard<R, A>) -> Result<Lent, LendFault>
    requires valid { Valid R.Rack shard.old }
    requires running { IsSomeAnd shard.old.pass IsRunningRebuild }
    ensures valid { Valid R.Rack shard.new }
    ensures areas { SameAreas shard.old shard.new }
    ensures told { R.told shard.new.rack ≡ R.told shard.old.rack }
    ensures unit { result ≡ Ok Lent.Unit → LendsUnit R.Rack shard.old shard.new }
    ensures not_worn { result ≡ Ok Lent.Unit → IsWornFor shard.old (lend_events shard.old.kept) → ⊥ }
    ensures pass { shard.new.pass ≡ shard.old.pass }
    ensures end { result ≡ Ok Lent.End → HasNothingLeft shard.old × (shard.new ≡ shard.old) }
    ensures refused { IfErr result (IsLendRefused shard.old) }
    ensures more { OnErr result (HasUnit shard.old) }
    ensures kit { OnErr result (SameKit shard.old shard.new) }
    ensures none { OnErr result (DoesNothing shard.old shard.new) }
    ensures keeps { KeepsBlocks shard.old shard.new }
    ensures arms { KeepsArms shard.old.slots shard.new.slots }
    ensures reserve { SameReserve shard.old shard.new }
{
    match next_unit(shard) {
        None => Ok(Lent::End),
        Some((entry, stripe)) => lend_next(shard, entry, stripe),
    }
}

/// Lends a stripe of a block, if there is room.
fn lend_next<R: Rack, A: Area>(
    shard: &mut Shard<R, A>,
    entry: Entry,
    stripe: u64,
) -> Result<Lent, LendFault>
    requires valid { Valid R.Rack shard.old }
    requires running { IsSomeAnd shard.old.pass IsRunningRebuild }
    requires unit { IsUnit shard.old entry stripe }
    ensures valid { Valid R.Rack shard.new }
    ensures areas { SameAreas shard.old shard.new }
    ensures told { R.told shard.new.rack ≡ R.told shard.old.rack }
    ensures is { IfOk result (λ lent. lent ≡ Lent.Unit) }
    ensures unit { OnOk result (LendsUnit R.Rack shard.old shard.new) }
    ensures not_worn { OnOk result (IsWornFor shard.old (lend_events shard.old.kept) → ⊥) }
    ensures pass { shard.new.pass ≡ shard.old.pass }
    ensures refused { IfErr result (IsLendRefused shard.old) }
    ensures kit { OnErr result (SameKit shard.old shard.new) }
    ensures none { OnErr result (DoesNothing shard.old shard.new) }
    ensures keeps { KeepsBlocks shard.old shard.new }
    ensures arms { KeepsArms shard.old.slots shard.new.slots }
    ensures reserve { SameReserve shard.old shard.new }
{
    match make_room(shard) {
        Ok(room) => {
            lend_unit(shard, entry, stripe, room);
            Ok(Lent::Unit)
        }
        Err(ReserveFault::Worn { events }) => Err(LendFault::Worn { events }),
        Err(ReserveFault::NoMemory) => Err(LendFault::NoMemory),
    }
}

/// The first stripe that a block or an open write has, where the pass stands or behind it, with what has it.
fn next_unit<R: Rack, A: Area>(shard: &Shard<R, A>) -> Option<(Entry, u64)>
    requires valid { Valid R.Rack shard.now }
    ensures some { IfSome result (λ unit. IsUnit shard.now unit.0 unit.1) }
    ensures none { (w : machine.State) → IsIn shard.now w → (p : Pass) → shard.now.pass ≡ Some p
        → IfNone result ((x : ℕ) → p.at ≤ x → IsTaken w.core x → ⊥) }
{
    let from = place_of(&shard.pass);
    match entry_over(shard, from) {
        Some(entry) => Some((entry, from)),
        None => {
            let entry = shard.entries.first_from(from)?;
            Some((entry, entry.pointer.first))
        }
    }
}

/// The block or open write that has a stripe.
fn entry_over<R: Rack, A: Area>(shard: &Shard<R, A>, stripe: u64) -> Option<Entry>
    requires valid { Valid R.Rack shard.now }
    ensures some { IfSome result (IsOver shard.now.entries stripe) }
    ensures none { IfNone result ((other : Entry) → IsOver shard.now.entries stripe other → ⊥) }
{
    let entry = shard.entries.last_upto(stripe)?;
    if stripe - entry.pointer.first < u64::from(entry.pointer.stripes) {
        Some(entry)
    } else {
        None
    }
}

/// The stripe at which a pass stands.
fn place_of(pass: &Option<Pass>) -> u64
    ensures { IsPlaceOf pass.now result }
{
    match pass {
        Some(pass) => pass.at,
        None => 0,
    }
}

/// How many targets it has.
fn targets_of(pass: &Option<Pass>) -> usize
    ensures { IsTargetsOf pass.now result }
{
    match pass {
        Some(pass) => pass.targets.len(),
        None => 0,
    }
}

/// How many events a lend asks for: its own, and its landing's where none is owed yet.
fn events_of(kept: &Option<KeptLoan>) -> u64
    ensures { result ≡ lend_events kept.now }
{
    match kept {
        None => 2,
        Some(_) => 1,
    }
}

/// Makes the room in memory that a lend and its landing want, of that of the last loan where this fits.
fn make_room<R: Rack, A: Area>(shard: &mut Shard<R, A>) -> Result<LendRoom, ReserveFault>
    requires valid { Valid R.Rack shard.old }
    ensures valid { Valid R.Rack shard.new }
    ensures only { shard.new ≡ record shard.old { idle = shard.new.idle; history = shard.new.history } }
    ensures history { KeepsOwed shard.old.history shard.new.history }
    ensures none { DoesNothing shard.old shard.new }
    ensures not_worn { OnOk result (IsWornFor shard.old (lend_events shard.old.kept) → ⊥) }
    ensures asked { OnOk result (IsAsked shard.new.history (lend_events shard.old.kept)) }
    ensures room { IfOk result (λ room. IfSome shard.old.pass (λ p. HasLendRoom shard.old.geometry (length p.targets.items) room)) }
    ensures refused { IfErr result (λ why. AskIs shard.old.history (lend_events shard.old.kept) left_for_groups (Err why)) }
{
    shard.history.ask(events_of(&shard.kept))?;
    let targets = targets_of(&shard.pass);
    match room_for(shard.alloc, &shard.geometry, targets, &mut shard.idle) {
        Ok(room) => Ok(room),
        Err(NoMemory) => Err(ReserveFault::NoMemory),
    }
}

/// Lends a stripe of a block, for which there is room.
fn lend_unit<R: Rack, A: Area>(shard: &mut Shard<R, A>, entry: Entry, stripe: u64, room: LendRoom)
    requires valid { Valid R.Rack shard.old }
    requires running { IsSomeAnd shard.old.pass IsRunningRebuild }
    requires unit { IsUnit shard.old entry stripe }
    requires asked { IsAsked shard.old.history (lend_events shard.old.kept) }
    requires room { IfSome shard.old.pass (λ p. HasLendRoom shard.old.geometry (length p.targets.items) room) }
    ensures valid { Valid R.Rack shard.new }
    ensures areas { SameAreas shard.old shard.new }
    ensures told { R.told shard.new.rack ≡ R.told shard.old.rack }
    ensures unit { LendsUnit R.Rack shard.old shard.new }
    ensures pass { shard.new.pass ≡ shard.old.pass }
    ensures keeps { KeepsBlocks shard.old shard.new }
    ensures arms { KeepsArms shard.old.slots shard.new.slots }
    ensures reserve { SameReserve shard.old shard.new }
{
    let LendRoom { mut lent, failed } = room;
    let unit = unit_of(&entry.pointer, stripe);
    let events = events_of(&shard.kept);
    read_stripe(shard, &unit, &mut lent);
    let Readings {
        columns,
        chosen,
        failed: mut faults,
    } = lent;
    let leaves = taken_out(&mut faults, shard.alloc);
    shard.serial += 1;
    shard.kept = Some(KeptLoan::Stripe(LentStripe {
        serial: shard.serial,
        stripe,
        pointer: entry.pointer,
        chosen,
        columns,
        failed,
        faults,
    }));
    shard
        .history
        .add_asked(Event::Lend { failed: leaves }, events);
}

/// One stripe of a block.
pub(crate) fn unit_of(pointer: &Pointer, stripe: u64) -> Pointer
    ensures { result ≡ unit_at pointer.now stripe }
{
    Pointer {
        first: stripe,
        stripes: 1,
        ..*pointer
    }
}
