ghost use Rattle.std.specs.Prelude.{◌≡◌, ◌∷◌, ◌++◌, ◌&&◌, true, [], ℕ, length, not, None, Some, List, Option, IfOk, IfErr};
ghost use Rattle.draid_turn.specs.declared.past.Past.{Past};
ghost use Rattle.draid_turn.specs.Calls.{Closes, Did, Follows, MayCall, newcomer};
ghost use Rattle.draid_turn.specs.History.{Stood, number_of};
ghost use Rattle.draid_turn.specs.Lists.{StartsWith, longer, merge};
ghost use Rattle.draid_turn.specs.Numbers.{HoldsOther, HoldsSome, all_numbers, holds};

use crate::pass::Pass;
use crate::past::Past;
use crate::rule::{Added, Draw, Given, Kept, Learn, Look, Serve, Served, Share, Take, Tell, Unite};
use crate::span::Span;
use crate::stand::{Act, Stand};
use crate::view::SeatView;
use atomic_table::{Seat, Table};
use std::alloc::Global;
use std::marker::{Brand, Model};
use std::snapshot::Snapshot;
use std::sync::Wait;
use std::{hint, thread};

/// There was no memory for a lock. The value comes back.
#[derive(Drop)]
pub struct Refused<T> {
    pub value: T,
}

/// A value under a lock that is served in the order of tickets.
#[derive(Drop)]
pub struct Turn<T: Stand> {
    table: Table<Option<T>, SeatView<Past<T>>, Snapshot<T>, Served, Global>,
}

impl<T: Stand> Model for Turn<T> {
    ghost use Rattle.std.specs.Prelude.{◌≡◌};
    ghost use Rattle.draid_turn.specs.Calls.{Lock};

    ghost Value = { Lock T };

    ghost view = { λ turn. record { table = turn.table.shared.table_id; first = turn.table.shared.key.value } };

    ghost invariant = { λ turn. (turn.table.shared.table_id.words ≡ 2) × (turn.table.shared.table_id.slots ≡ 1) };
}

/// So often a caller looks again at once, before it yields its thread at each look.
const SHORT_TRIES: u32 = 64;

/// Waits a moment.
fn pause(tries: u32) {
    if tries < SHORT_TRIES {
        hint::spin_loop();
    } else {
        thread::yield_now();
    }
}

impl<T: Stand> Turn<T> {
    ghost use Rattle.draid_turn.specs.declared.view.SeatStage.TheVariants.{Idle, Waiting};
    ghost use Rattle.draid_turn.specs.Rule.{IsHolding};
    ghost use Rattle.draid_turn.specs.Steps.{HasValue, Takes};
    ghost use Rattle.draid_turn.specs.Views.{giver_view, new_view, served_view, told_view, waiting_view};

    /// Puts a value under a lock. Nothing is in its history, and the first pass holds all numbers.
    pub fn new(alloc: Global, value: T) -> Result<(Turn<T>, Pass<T>), Refused<T>>
        ensures lock { IfOk result (λ made. made.0.first ≡ value) }
        ensures pass { IfOk result (λ made. made.1 ≡ newcomer made.0.table [] all_numbers) }
        ensures refused { IfErr result (λ refused. refused.value ≡ value) }
    {
        let Ok(mut slots) = Vec::with_capacity(alloc, 1) else {
            return Err(Refused { value });
        };
        let first = Snapshot::of(&value);
        slots.push_reserved(Some(value));
        match Table::new(alloc, &[0, 0], slots, &first) {
            Ok((table, seat)) => Ok((Turn { table }, Pass { seat, size: 0 })),
            Err(refused) => {
                let atomic_table::Refused { mut slots } = refused;
                let slot = slots.pop().unwrap();
                slots.destroy_empty();
                Err(Refused {
                    value: slot.unwrap(),
                })
            }
        }
    }

    /// A second pass, which has seen as much, did nothing, and holds these numbers, which the first one gives up.
    pub fn split(&self, pass: &mut Pass<T>, numbers: &[Span]) -> Pass<T>
        requires own { pass.old.table ≡ self.now.table }
        requires some { HoldsSome numbers.now }
        requires held { (n : ℕ) → holds n numbers.now ≡ true → holds n pass.old.numbers ≡ true }
        requires other { HoldsOther pass.old.numbers numbers.now }
        ensures new { result ≡ newcomer pass.old.table pass.old.seen numbers.now }
        ensures same { (pass.new.table ≡ pass.old.table) × (pass.new.seen ≡ pass.old.seen) × (pass.new.own ≡ pass.old.own) }
        ensures left { (n : ℕ) → holds n pass.new.numbers ≡ (holds n pass.old.numbers && not (holds n numbers.now)) }
    {
        let seat = self.share::<Brand>(&mut pass.seat, numbers);
        Pass { seat, size: 0 }
    }

    /// Waits for its turn, and runs the operation once in it.
    pub fn call<O: Act<T>, R: Wait>(&self, rt: &R, pass: &mut Pass<T>, op: &mut O)
        requires { MayCall T.step O.needs O.relates O.concerns op.old self.now pass.old }
        ensures { Did T.step O.relates O.concerns self.now.first op.old op.new pass.old pass.new }
    {
        let ticket = self.draw(rt, &mut pass.seat);
        self.take_in_turn::<Brand, R>(rt, &mut pass.seat, ticket);
        let concerned = op.concerned();
        let left = self.act_in_turn(&mut pass.seat, op);
        self.tell::<Brand>(&mut pass.seat, &left, concerned);
        self.give_back(&mut pass.seat, &left);
    }

    /// Takes another pass in: what either saw, did and holds.
    pub fn join(&self, pass: &mut Pass<T>, other: Pass<T>)
        requires own { (pass.old.table ≡ self.now.table) × (other.table ≡ self.now.table) }
        ensures own { pass.new.table ≡ pass.old.table }
        ensures seen { pass.new.seen ≡ longer pass.old.seen other.seen }
        ensures begins { StartsWith pass.new.seen pass.old.seen × StartsWith pass.new.seen other.seen }
        ensures made { pass.new.own ≡ merge pass.old.own other.own }
        ensures numbers { pass.new.numbers ≡ pass.old.numbers ++ other.numbers }
        // What either hadn't seen concerns none of the numbers that it held.
        ensures follows { Follows number_of pass.old.numbers pass.new.seen pass.old.seen }
        ensures follows_other { Follows number_of other.numbers pass.new.seen other.seen }
    {
        let Pass {
            seat: other,
            size: _,
        } = other;
        self.table.shared.join_seat::<Unite>(&mut pass.seat, other);
        self.table.shared.load::<Learn>(&mut pass.seat, 0);
    }

    /// Waits for a last turn, and takes the value out in it.
    pub fn close<R: Wait>(self, rt: &R, pass: Pass<T>) -> T
    where
        T: Drop,
        requires own { pass.table ≡ self.table }
        ensures { Closes T.step self.first pass result }
    {
        let Pass { mut seat, size: _ } = pass;
        let ticket = self.draw(rt, &mut seat);
        self.take_in_turn::<Brand, R>(rt, &mut seat, ticket);
        self.table.shared.exchange(&mut seat, 0, None).unwrap()
    }

    /// Draws a ticket. Where the last number was drawn it waits without end.
    fn draw<R: Wait>(&self, rt: &R, seat: &mut Seat<Option<T>, SeatView<Past<T>>>) -> u64
        requires own { seat.old.table_id ≡ self.now.table }
        requires idle { (seat.old.me.0.stage ≡ Idle) × (seat.old.me.1 ≡ []) }
        ensures own { seat.new.table_id ≡ seat.old.table_id }
        ensures waiting { seat.new.me ≡ (waiting_view result seat.old.me.0, []) }
    {
        let mut tries = 0u32;
        for _ in rt.forever() {
            let next = self.table.shared.load::<Look>(seat, 0);
            if next < u64::MAX {
                let found = self
                    .table
                    .shared
                    .compare_exchange::<Draw>(seat, 0, next, next + 1);
                if found == next {
                    return found;
                }
            }
            pause(tries);
            tries = tries.saturating_add(1);
        }
        unreachable!()
    }

    /// Waits until the ticket is served. The value is the seat's then, where it lies.
    fn take_in_turn<I: Kept<T>, R: Wait>(
        &self,
        rt: &R,
        seat: &mut Seat<Option<T>, SeatView<Past<T>>>,
        ticket: u64,
    )
        requires kept { (log : List (Past T)) (x : T) → Stood T.step self.now.first log x → I.kept log x }
        requires own { seat.old.table_id ≡ self.now.table }
        requires waiting { (seat.old.me.0.stage ≡ Waiting ticket) × (seat.old.me.1 ≡ []) }
        ensures own { seat.new.table_id ≡ seat.old.table_id }
        ensures taken { Takes I.kept number_of seat.old.me ticket seat.new.me }
    {
        let mut tries = 0u32;
        for _ in rt.forever() {
            let served = self.table.shared.load::<Take<I>>(seat, 1);
            if served == ticket {
                return;
            }
            pause(tries);
            tries = tries.saturating_add(1);
        }
        unreachable!()
    }

    /// Runs the operation on the value where it lies, and notes how that is left.
    fn act_in_turn<O: Act<T>>(
        &self,
        seat: &mut Seat<Option<T>, SeatView<Past<T>>>,
        op: &mut O,
    ) -> Snapshot<T>
        requires own { seat.old.table_id ≡ self.now.table }
        requires ready { HasValue seat.old.me.1 (O.needs op.old) }
        ensures own { seat.new.table_id ≡ seat.old.table_id }
        ensures left { seat.new.me ≡ (seat.old.me.0, (0, Some result.value) ∷ []) }
        ensures related { HasValue seat.old.me.1 (λ x. O.relates op.old x op.new result.value) }
    {
        let slot = seat.slot_mut(&self.table.shared, 0);
        match slot {
            Some(value) => {
                op.act(value);
                Snapshot::of(value)
            }
            None => unreachable!(),
        }
    }

    /// Adds to the history how the value is left.
    fn tell<J: Added<Past<T>>>(
        &self,
        seat: &mut Seat<Option<T>, SeatView<Past<T>>>,
        left: &Snapshot<T>,
        concerned: Option<u64>,
    )
        requires added { J.added ≡ record { left = left.now.value; concerned = concerned } ∷ [] }
        requires own { seat.old.table_id ≡ self.now.table }
        requires number { (n : ℕ) → concerned ≡ Some n → holds n seat.old.me.0.numbers ≡ true }
        requires some { HoldsSome seat.old.me.0.numbers }
        requires holding { IsHolding seat.old.me.0.stage }
        ensures own { seat.new.table_id ≡ seat.old.table_id }
        ensures told { seat.new.me ≡ (told_view J.added seat.old.me.0, seat.old.me.1) }
    {
        self.table.shared.load::<Tell<J>>(seat, 1);
    }

    /// Gives the value back, and serves the next ticket.
    fn give_back(&self, seat: &mut Seat<Option<T>, SeatView<Past<T>>>, left: &Snapshot<T>)
        requires own { seat.old.table_id ≡ self.now.table }
        requires holding { IsHolding seat.old.me.0.stage × (seat.old.me.1 ≡ (0, Some left.now.value) ∷ []) }
        requires stood { Stood T.step self.now.first seat.old.me.0.seen left.now.value }
        ensures own { seat.new.table_id ≡ seat.old.table_id }
        ensures served { seat.new.me ≡ (served_view seat.old.me.0, []) }
    {
        self.table.shared.fetch_add::<Serve>(seat, 1, 1);
    }

    /// A new seat, which has some of the numbers.
    fn share<J: Given>(
        &self,
        seat: &mut Seat<Option<T>, SeatView<Past<T>>>,
        numbers: &[Span],
    ) -> Seat<Option<T>, SeatView<Past<T>>>
        requires given { J.given ≡ numbers.now }
        requires own { seat.old.table_id ≡ self.now.table }
        requires held { (n : ℕ) → holds n numbers.now ≡ true → holds n seat.old.me.0.numbers ≡ true }
        requires other { HoldsOther seat.old.me.0.numbers numbers.now }
        ensures giver { (seat.new.table_id ≡ seat.old.table_id) × (seat.new.me ≡ (giver_view numbers.now seat.old.me.0, seat.old.me.1)) }
        ensures new { (result.table_id ≡ seat.old.table_id) × (result.me ≡ (new_view numbers.now seat.old.me.0, [])) }
    {
        self.table.shared.split_seat::<Share<J>>(seat)
    }
}
