ghost use Rattle.std.specs.Prelude.{◌≡◌, ◌*◌, ◌<◌, ◌≤◌, ◌+◌, ◌^◌, ◌||◌, ◌↔◌, not, None, Err, IfErr, IfOk, IsSomeAnd, IsTrue, OnErr, OnOk, length, vec_capacity};
ghost use Rattle.draid_names.specs.declared.numbers.TheConstants.{LAST_NUMBER};
ghost use Rattle.draid_machine.specs.declared.event.Event.TheVariants.{Plan};
ghost use Rattle.draid_machine.specs.Names.{is_heal};
ghost use Rattle.draid_entries.specs.History.{AskIs, IsAsked, KeepsOwed, left_for_groups};
ghost use Rattle.draid_pass.specs.declared.pass.Pass.{Pass};
ghost use Rattle.draid_segments.specs.Segments.{Pieces};
ghost use Rattle.draid_slots.specs.Changes.{HasRoom, Keeps};
ghost use Rattle.draid_shard.specs.Alike.{KeepsArms};
ghost use Rattle.draid_shard.specs.Calls.{ActsOn, SameKit, SameReserve};
ghost use Rattle.draid_shard.specs.Changes.{DoesNothing, KeepsBlocks};
ghost use Rattle.draid_shard.specs.Fits.{Valid};
ghost use Rattle.draid_shard.specs.Rooms.{IsWornFor};
ghost use Rattle.draid_shard.specs.States.{Does};
ghost use Rattle.draid_passing.specs.Passing.{HasLists, IsLast, IsMaxFor, IsPlanRefused, LacksTarget, plan_events};

use crate::fault::PlanFault;
use draid_area::Area;
use draid_entries::ReserveFault;
use draid_machine::Event;
use draid_marks::silent_marks;
use draid_metaslab::Space;
use draid_names::{ArmAt, LAST_NUMBER, NoMemory, PassKind};
use draid_plans::{has_target, room};
use draid_rack::Rack;
use draid_shard::Shard;
use draid_slots::{Marks, Slots};
use std::alloc::Global;

/// The planning of a pass, and two events more.
const PLAN_EVENTS: u64 = 3;

/// The changes of a log for which a plan makes room: a rebuild makes it anew, blocks may be born in three groups, and its
/// end takes these out once more.
const LOG_CHANGES: u32 = 7;

/// A rebuild takes its targets whichever arms are marked.
const NO_MARKS: [Marks; 64] = [[false; 3]; 64];

/// What a plan takes memory for: lists with room for its targets, and for the leaves on which its end may fail.
#[derive(Drop)]
struct Lists {
    targets: Vec<ArmAt>,
    flushed: Vec<u64>,
}

/// Plans a rebuild or a scrub of the metaslab, and gives its number. A rebuild waits, and no block is begun until it ends; a
/// scrub runs at once.
pub fn plan<R: Rack, A: Area>(shard: &mut Shard<R, A>, kind: PassKind) -> Result<u64, PlanFault>
    requires valid { Valid R.Rack shard.old }
    ensures valid { Valid R.Rack shard.new }
    ensures kit { SameKit shard.old shard.new }
    ensures event { OnOk result (Does shard.old shard.new (Plan kind)) }
    ensures acts { OnOk result ((pieces : Pieces) → ActsOn R.Rack shard.old shard.new (Plan kind) pieces) }
    ensures number { IfOk result (λ number. number ≡ shard.old.last_pass + 1) }
    ensures not_worn { OnOk result (IsWornFor shard.old plan_events → ⊥) }
    ensures keeps { KeepsBlocks shard.old shard.new }
    ensures arms { KeepsArms shard.old.slots shard.new.slots }
    ensures reserve { SameReserve shard.old shard.new }
    ensures pass { OnOk result (IsSomeAnd shard.new.pass (λ (p : Pass). p.kind ≡ kind)) }
    ensures refused { IfErr result (IsPlanRefused shard.old kind) }
    ensures none { OnErr result (DoesNothing shard.old shard.new) }
    ensures same { OnErr result (shard.new.pass ≡ shard.old.pass) }
{
    if let Some(pass) = &shard.pass {
        return Err(PlanFault::PassRunning {
            number: pass.number,
        });
    }
    if lacks_target(&shard.slots, &NO_MARKS, kind) {
        return Err(PlanFault::Nothing);
    }
    match make_room(shard) {
        Ok(lists) if !is_last(shard, kind) => Ok(plan_with(shard, kind, lists)),
        Ok(_) => Err(PlanFault::Last),
        Err(ReserveFault::Worn { events }) => Err(PlanFault::Worn { events }),
        Err(ReserveFault::NoMemory) => Err(PlanFault::NoMemory),
    }
}

/// Whether a rebuild, planned now, would have no target.
fn lacks_target(slots: &Slots, marks: &[Marks], kind: PassKind) -> bool
    requires count { slots.now.geometry.spec.children ≤ length marks.now }
    ensures { IsTrue result ↔ LacksTarget slots.now kind }
{
    matches!(kind, PassKind::Rebuild) && !has_target(slots, marks, kind)
}

/// Whether no number is left for a pass, or for a rebuild no group behind the open one.
fn is_last<R: Rack, A: Area>(shard: &Shard<R, A>, kind: PassKind) -> bool
    requires low { shard.now.open_group ≤ LAST_NUMBER }
    ensures { IsTrue result ↔ IsLast shard.now kind }
{
    shard.last_pass >= LAST_NUMBER
        || (matches!(kind, PassKind::Rebuild) && shard.open_group >= LAST_NUMBER)
}

/// Makes the room in memory that a pass and its end want.
fn make_room<R: Rack, A: Area>(shard: &mut Shard<R, A>) -> Result<Lists, ReserveFault>
    requires valid { Valid R.Rack shard.old }
    ensures valid { Valid R.Rack shard.new }
    ensures only { shard.new ≡ record shard.old { slots = shard.new.slots; history = shard.new.history } }
    ensures slots { Keeps shard.old.slots shard.new.slots }
    ensures history { KeepsOwed shard.old.history shard.new.history }
    ensures none { DoesNothing shard.old shard.new }
    ensures not_worn { OnOk result (IsWornFor shard.old plan_events → ⊥) }
    ensures asked { OnOk result (IsAsked shard.new.history plan_events) }
    ensures logs { OnOk result (HasRoom shard.new.slots 7 0) }
    ensures lists { IfOk result (HasLists shard.new.slots) }
    ensures refused { IfErr result (λ why. AskIs shard.old.history plan_events left_for_groups (Err why)) }
{
    shard.history.ask(PLAN_EVENTS)?;
    let Ok(targets) = room(shard.alloc, &mut shard.slots, LOG_CHANGES) else {
        return Err(ReserveFault::NoMemory);
    };
    let Ok(flushed) = room_for_leaves(shard.alloc, shard.slots.children()) else {
        return Err(ReserveFault::NoMemory);
    };
    Ok(Lists { targets, flushed })
}

/// Room for the leaves of all arms, of which no slot has more than three.
fn room_for_leaves(alloc: Global, children: u32) -> Result<Vec<u64>, NoMemory>
    ensures { IfOk result (λ list. 3 * children ≤ vec_capacity list) }
{
    let list = Vec::with_capacity(alloc, 3 * children as usize)?;
    Ok(list)
}

/// Plans the pass, for which there is room, and gives its number.
fn plan_with<R: Rack, A: Area>(shard: &mut Shard<R, A>, kind: PassKind, lists: Lists) -> u64
    requires valid { Valid R.Rack shard.old }
    requires none { shard.old.pass ≡ None }
    requires target { LacksTarget shard.old.slots kind → ⊥ }
    requires last { IsLast shard.old kind → ⊥ }
    requires asked { IsAsked shard.old.history plan_events }
    requires logs { HasRoom shard.old.slots 7 0 }
    requires lists { HasLists shard.old.slots lists }
    ensures valid { Valid R.Rack shard.new }
    ensures kit { SameKit shard.old shard.new }
    ensures event { Does shard.old shard.new (Plan kind) }
    ensures acts { (pieces : Pieces) → ActsOn R.Rack shard.old shard.new (Plan kind) pieces }
    ensures number { result ≡ shard.old.last_pass + 1 }
    ensures pass { IsSomeAnd shard.new.pass (λ (p : Pass). p.kind ≡ kind) }
    ensures keeps { KeepsBlocks shard.old shard.new }
    ensures arms { KeepsArms shard.old.slots shard.new.slots }
    ensures reserve { SameReserve shard.old shard.new }
{
    let Lists { targets, flushed } = lists;
    let number = shard.last_pass + 1;
    let max = max_for(kind, shard.open_group, shard.committed);
    let marks = silent_marks(&shard.slots, &[]);
    let pass = draid_plans::plan(&mut shard.slots, &marks, kind, number, max, targets);
    shut_for(&mut shard.space, kind);
    shard.pass = Some(pass);
    shard.last_pass = number;
    shard.flushed = flushed;
    shard.history.add_asked(Event::Plan { kind }, PLAN_EVENTS);
    number
}

/// The last group that a pass of a kind makes good. Group 1 is the first that is committed.
fn max_for(kind: PassKind, open_group: u64, committed: u64) -> u64
    requires low { open_group < 2 ^ 48 }
    ensures { IsMaxFor kind open_group committed result }
{
    match kind {
        PassKind::Rebuild => open_group + 1,
        PassKind::Heal => committed.max(1),
    }
}

/// A space takes no new blocks while a rebuild has its metaslab.
fn shut_for(space: &mut Space, kind: PassKind)
    ensures { space.new ≡ record space.old { disabled = space.old.disabled || not (is_heal kind) } }
{
    match kind {
        PassKind::Rebuild => space.disable(),
        PassKind::Heal => {}
    }
}
