ghost use Rattle.std.specs.Prelude.{[], ⊤, List};
ghost use Rattle.draid_turn.specs.declared.past.Past.{Past};
ghost use Rattle.draid_turn.specs.declared.span.Span.{Span};

use crate::past::Past;
use crate::span::Span;
use crate::stand::Stand;
use crate::view::SeatView;
use atomic_table::{Join, Play, Split, TableRule};
use std::marker::{Brand, PhantomData};
use std::snapshot::Snapshot;

/// The rule of the lock's table. Word 0 is the next ticket, word 1 the one that is served; the slot has
/// the value.
pub(crate) struct Served;

impl<T: Stand> TableRule<Option<T>, SeatView<Past<T>>, Snapshot<T>> for Served {
    ghost use Rattle.draid_turn.specs.History.{Stood, number_of};
    ghost use Rattle.draid_turn.specs.Rule.{Rule};
    ghost use Rattle.draid_turn.specs.Views.{first_view};

    ghost holds = { λ key. Rule (Stood T.step key.value) number_of };

    ghost first = { λ key. first_view };
}

/// What a step adds to the history. Neither the words nor the seat have it.
pub(crate) trait Added<E> {
    ghost added: { List E };
}

impl<E> Added<E> for Brand {
    ghost added = { [] };
}

/// What a step is told of the history and the value.
pub(crate) trait Kept<T> {
    ghost kept: { List (Past T) → T → Type 0 };
}

impl<T> Kept<T> for Brand {
    ghost kept = { λ _ _. ⊤ };
}

/// Numbers that a step is told of.
pub(crate) trait Given {
    ghost given: { List Span };
}

impl Given for Brand {
    ghost given = { [] };
}

/// A load of the next ticket, which tells nothing.
pub(crate) struct Look;

impl<E, T> Play<Option<T>, SeatView<E>> for Look {
    ghost use Rattle.draid_turn.specs.Steps.{looked};

    ghost then = { looked };
}

/// Draws a ticket.
pub(crate) struct Draw;

impl<E, T> Play<Option<T>, SeatView<E>> for Draw {
    ghost use Rattle.draid_turn.specs.Steps.{drew};

    ghost then = { drew };
}

/// Takes the value, where the ticket is served.
pub(crate) struct Take<I> {
    of: PhantomData<I>,
}

impl<T, I: Kept<T>> Play<Option<T>, SeatView<Past<T>>> for Take<I> {
    ghost use Rattle.draid_turn.specs.History.{number_of};
    ghost use Rattle.draid_turn.specs.Steps.{took};

    ghost then = { took I.kept number_of };
}

/// A load that adds to the history.
pub(crate) struct Tell<J> {
    of: PhantomData<J>,
}

impl<E, T, J: Added<E>> Play<Option<T>, SeatView<E>> for Tell<J> {
    ghost use Rattle.draid_turn.specs.Steps.{told};

    ghost then = { told J.added };
}

/// Gives the value back, and serves the next ticket.
pub(crate) struct Serve;

impl<E, T> Play<Option<T>, SeatView<E>> for Serve {
    ghost use Rattle.draid_turn.specs.Steps.{served};

    ghost then = { served };
}

/// Gives a new seat some of the numbers.
pub(crate) struct Share<J> {
    of: PhantomData<J>,
}

impl<E, J: Given> Split<SeatView<E>> for Share<J> {
    ghost use Rattle.draid_turn.specs.Views.{giver_view, new_view};

    ghost left = { giver_view J.given };

    ghost right = { new_view J.given };
}

/// Makes two seats one.
pub(crate) struct Unite;

impl<E> Join<SeatView<E>> for Unite {
    ghost use Rattle.draid_turn.specs.Views.{spent_view, united_view};

    ghost both = { united_view };

    ghost spent = { spent_view };
}

/// A load that tells a seat that it has seen what it heard, and what it heard no more of concerns no number of who told it.
pub(crate) struct Learn;

impl<T> Play<Option<T>, SeatView<Past<T>>> for Learn {
    ghost use Rattle.draid_turn.specs.History.{number_of};
    ghost use Rattle.draid_turn.specs.Steps.{learned};

    ghost then = { learned number_of };
}
