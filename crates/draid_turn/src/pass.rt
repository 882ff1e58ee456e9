use crate::past::Past;
use crate::stand::Stand;
use crate::view::SeatView;
use atomic_table::Seat;
use std::marker::Model;

/// A caller's token: what it has seen, where in the history its holds stand, and the numbers that it
/// holds, of which there is at least one.
#[derive(Drop)]
pub struct Pass<T: Stand> {
    pub(crate) seat: Seat<Option<T>, SeatView<Past<T>>>,
    // A seat has no bytes, and an element of a list has to have some.
    pub(crate) size: u8,
}

impl<T: Stand> Model for Pass<T> {
    ghost use Rattle.draid_turn.specs.declared.past.Past.{Past};
    ghost use Rattle.draid_turn.specs.Calls.{Caller, caller_of};

    ghost Value = { Caller (Past T) };

    ghost use Rattle.draid_turn.specs.Calls.{IsBetweenCalls};

    ghost view = { λ pass. caller_of pass.seat.table_id pass.seat.me.0 };

    ghost invariant = { λ pass. IsBetweenCalls pass.seat.me };
}
