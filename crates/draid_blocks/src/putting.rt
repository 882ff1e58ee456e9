ghost use Rattle.std.specs.Prelude.{◌≡◌, ◌<◌, ◌*◌, ◌^◌, not, length};
ghost use Rattle.draid_blocks.specs.Tickets.{Carries, Puts};
ghost use Rattle.draid_shard.specs.Calls.{SameAreas, SameReserve};
ghost use Rattle.draid_shard.specs.Fits.{Valid};
ghost use Rattle.draid_blocks.specs.Landings.{CountsOn, Lands, LandsOn, is_done, noted};
ghost use Rattle.draid_shard.specs.Rows.{FitsRows, HasRoomFor, MissesAt, arm_no};
ghost use Rattle.draid_slots.specs.States as slots_of;
ghost use Rattle.draid_names.specs.declared.arm.ArmKind.TheVariants.{Spare};
ghost use Rattle.draid_slots.specs.Table.{IsThere, arms_of};

use crate::outcome::Outcome;
use crate::ticket::Ticket;
use draid_area::Area;
use draid_block::Encoded;
use draid_columns::write_rows;
use draid_entries::key_of;
use draid_machine::{ArmName, Event, FewArms, FewLeaves, Stage};
use draid_names::{Arm, ArmAt, ArmKind};
use draid_rack::Rack;
use draid_shard::{ColumnRows, Shard, miss};
use draid_slots::Slots;

/// Where a column landed, and on which leaves a call failed.
#[derive(Clone, Copy)]
struct Landing {
    landed: FewArms,
    failed: FewLeaves,
}

/// Writes the ticket's next column to each arm of its slot that answers. An arm on which it doesn't land has the
/// block's birth in its log then.
pub fn put<R: Rack, A: Area>(shard: &mut Shard<R, A>, ticket: &mut Ticket, block: &Encoded)
    requires valid { Valid R.Rack shard.old }
    requires carries { Carries shard.old ticket.old block.now }
    requires left { ticket.old.next < shard.old.geometry.g }
    ensures valid { Valid R.Rack shard.new }
    ensures areas { SameAreas shard.old shard.new }
    ensures carries { Carries shard.new ticket.new block.now }
    ensures put { Puts R.Rack shard.old shard.new ticket.old ticket.new block.now }
    ensures reserve { SameReserve shard.old shard.new }
    ensures pass { shard.new.pass ≡ shard.old.pass }
{
    let rows = shard.rows_of(&ticket.pointer, ticket.next);
    let column = block.column(ticket.next);
    let Landing { landed, failed } = land(&mut shard.rack, &mut shard.slots, rows, column);
    if landed.as_slice().is_empty() {
        ticket.missed += 1;
    }
    ticket.next += 1;
    let stage = Stage::Writing {
        columns: ticket.next,
        missed: ticket.missed,
    };
    shard.entries.turn(&ticket.pointer, stage);
    let event = Event::Put {
        key: key_of(&ticket.pointer),
        landed,
        failed,
    };
    shard.history.add(event, 1);
}

/// Writes a column to each arm of its slot that answers, and notes the birth of its block in the logs of those on which
/// it didn't land.
fn land<R: Rack>(rack: &mut R, slots: &mut Slots, rows: ColumnRows, column: &[u8]) -> Landing
    requires fits { FitsRows (R.shape rack.old) slots.old rows }
    requires long { length column.now ≡ rows.count * rows.size }
    requires birth { rows.birth < 2 ^ 48 }
    requires room { HasRoomFor slots.old rows.birth }
    ensures lands { Lands slots.old slots.new rows (length (arms_of slots.old rows.slot)) column.now result
        (R.told rack.old) (R.told rack.new) (R.faults rack.old) (R.faults rack.new) }
    ensures shape { R.shape rack.new ≡ R.shape rack.old }
{
    let mut landing = Landing {
        landed: FewArms::none(),
        failed: FewLeaves::none(),
    };
    for arm in 0..slots.arms(rows.slot).len() as u32 {
        let outcome = land_on(rack, slots, rows, arm, column);
        let name = name_of(slots.arms(rows.slot)[arm as usize]);
        landing.note(name, outcome);
    }
    landing
}

/// Writes a column to one arm of its slot. Where it doesn't land there the birth of its block goes into the arm's log.
fn land_on<R: Rack>(
    rack: &mut R,
    slots: &mut Slots,
    rows: ColumnRows,
    arm: u32,
    column: &[u8],
) -> Outcome
    requires fits { FitsRows (R.shape rack.old) slots.old rows }
    requires there { IsThere slots.old (arm_no rows arm) }
    requires long { length column.now ≡ rows.count * rows.size }
    requires birth { rows.birth < 2 ^ 48 }
    requires room { HasRoomFor slots.old rows.birth }
    ensures lands { LandsOn slots.old rows arm column.now result (R.told rack.old) (R.told rack.new) }
    ensures counts { CountsOn result (R.faults rack.old) (R.faults rack.new) }
    ensures misses { MissesAt slots.old slots.new (arm_no rows arm) rows.birth (not (is_done result)) }
    ensures shape { R.shape rack.new ≡ R.shape rack.old }
{
    let outcome = write_to(rack, slots, rows, arm, column);
    if !matches!(outcome, Outcome::Done) {
        miss(
            slots,
            ArmAt {
                slot: rows.slot,
                arm,
            },
            rows.birth,
        );
    }
    outcome
}

/// Writes a column to one arm of its slot, if that answers.
fn write_to<R: Rack>(
    rack: &mut R,
    slots: &Slots,
    rows: ColumnRows,
    arm: u32,
    column: &[u8],
) -> Outcome
    requires fits { FitsRows (R.shape rack.old) slots.now rows }
    requires there { IsThere slots.now (arm_no rows arm) }
    requires long { length column.now ≡ rows.count * rows.size }
    ensures lands { LandsOn slots.now rows arm column.now result (R.told rack.old) (R.told rack.new) }
    ensures counts { CountsOn result (R.faults rack.old) (R.faults rack.new) }
    ensures shape { R.shape rack.new ≡ R.shape rack.old }
{
    let at = ArmAt {
        slot: rows.slot,
        arm,
    };
    if !slots.answers(at, rows.slice) {
        return Outcome::Silent;
    }
    let leaf = slots.place(at, rows.first).leaf;
    match write_rows(rack, rows.on(leaf), column) {
        Ok(()) => Outcome::Done,
        Err(_) => Outcome::Failed { leaf },
    }
}

impl Landing {
    /// Notes what became of the write to an arm.
    fn note(&mut self, name: ArmName, outcome: Outcome)
        requires landed { length self.old.landed < 3 }
        requires failed { length self.old.failed < 3 }
        ensures { self.new ≡ noted self.old name outcome }
    {
        match outcome {
            Outcome::Silent => {}
            Outcome::Failed { leaf } => self.failed.push(leaf),
            Outcome::Done => self.landed.push(name),
        }
    }
}

/// An arm by what it is. Spares have numbers of 32 bits; what a greater one gives is of no account.
fn name_of(arm: Arm) -> ArmName
    ensures { (arm.kind ≡ Spare → arm.number < 2 ^ 32) → result ≡ slots_of.name_of arm }
{
    match arm.kind {
        ArmKind::Leaf => ArmName::Leaf { leaf: arm.number },
        ArmKind::Spare => ArmName::Spare {
            spare: u32::try_from(arm.number).unwrap_or(0),
        },
    }
}
