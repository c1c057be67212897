//! A seat that has the turn, with the value in its hands.
ghost use Rattle.std.specs.Prelude.{◌≡◌, []};
ghost use Rattle.std.specs.Borrow.{Lends, sem};
ghost use mir.Syntax.{named};
ghost use Rattle.vs_turn.specs.contracts.held.Held.{the_row};
ghost use Rattle.vs_turn.specs.Calls.{GoOn};
ghost use Rattle.vs_turn.specs.Seats.{released_seat, with_value, KnowsCalls};

use crate::seat::Seat;
use crate::steps::Place;
use crate::tickets::Tickets;
use crate::turn::{Kept, Turn};
use std::marker::Model;

/// A seat that has the turn, with the value. It isn't `Drop`: it has to be released.
pub struct Held<'a, S: Kept> {
    pub(crate) turn: &'a Turn<S>,
    pub(crate) tickets: Tickets,
    pub(crate) place: Place<S>,
    pub(crate) value: S,
}

impl<'a, S: Kept> Model for Held<'a, S> {
    ghost use Rattle.vs_turn.specs.Seats.{HeldModel, held_of, IsHeld};

    ghost Value = { HeldModel S };

    ghost view = { λ h. held_of h.place.table_id h.place.me.0 h.value };

    ghost invariant = { λ h. IsHeld h.turn.now.name h.place.table_id h.place.me h.tickets };
}

impl<'a, S: Kept> Held<'a, S> {
    /// The value, to read and to change. Its opening has to stay, and its entries may only grow by calls of the seat.
    pub fn value(&mut self) -> &mut S
        ensures* writes_back { sem 𝓛 (Lends
            (the_row (record { mir = named 0; lft = [] }) S.row S.Kept) S.row
            self.entry result (with_value self.old)) }
        ensures value { result.now ≡ self.old.value }
    {
        &mut self.value
    }

    /// Puts the value back and gives up the turn. The seat has then seen all entries, and its own are among its calls.
    pub fn release(self) -> Seat
        requires opening { S.opening self.value ≡ self.seat.opening }
        requires entries { GoOn self.seat.tickets self.found (S.entries self.value) }
        ensures seat { result
            ≡ released_seat self.entry.seat self.entry.found (S.entries self.entry.value) }
        ensures knows { KnowsCalls result }
    {
        let Held {
            turn,
            tickets,
            mut place,
            value,
        } = self;
        turn.put_in(&mut place, value);
        turn.free(&mut place);
        let badge = place.into_badge();
        Seat { tickets, badge }
    }
}
