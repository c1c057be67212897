//! The turn: a value that seats share, how it is made and taken, how seats are split and joined, and its end.
ghost use Rattle.std.specs.Prelude.{◌≡◌, ℕ, ◌+◌, ◌≤◌, List, [], ◌∷◌, ◌++◌, Some, length, drop, IfOk, IfErr};
ghost use mathlib.Core.List.{IsPrefix};
ghost use Rattle.vs_turn.specs.Calls.{calls_of, NoCalls};
ghost use Rattle.vs_turn.specs.Seats.{first_seat, with_tickets, both_seats, IsMadeWith, KnowsCalls};
ghost use Rattle.vs_turn.specs.Tickets.{RiseFrom, without_highest, only_highest};

use crate::held::Held;
use crate::rule::{AddUp, HandOn, Law, Look, Start};
use crate::seat::{Seat, View};
use crate::steps::Place;
use crate::tickets;
use atomic_table::{Refused, Table};
use std::alloc::Global;
use std::marker::Model;
use std::snapshot::Snapshot;
use std::sync::Wait;
use vs_types::Memory;

/// A value that seats share by a turn. Contracts see two things of it, as lists of numbers.
pub trait Kept {
    /// What no change alters.
    ghost opening: { Self → List ℕ };

    /// What only grows. The first number of an entry is its maker, one of the tickets of the seat that adds it.
    ghost entries: { Self → List (List ℕ) };
}

/// One value that seats share. A seat that holds it has it alone.
pub struct Turn<S: Kept> {
    pub(crate) table: Table<Option<S>, View, Start<S>, Law, Global>,
}

impl<S: Kept> Model for Turn<S> {
    ghost use Rattle.std.specs.Prelude.{◌≡◌};
    ghost use Rattle.vs_turn.specs.Seats.{TurnModel, turn_over};

    ghost Value = { TurnModel };

    ghost view = { λ t. turn_over S.opening S.entries t.table.shared.table_id
        t.table.shared.key.value.value t.table.shared.key.seats };

    // It has one word and one slot.
    ghost invariant = { λ t. let z = t.table.shared.table_id in (z.words ≡ 1) × (z.slots ≡ 1) };
}

// A row with the value in it, or the value again where there is no memory.
fn row_of<S>(alloc: Global, value: S) -> Result<Vec<Option<S>>, S>
    ensures ok { IfOk result (λ row. row.items ≡ Some value ∷ []) }
    ensures err { IfErr result (λ x. x ≡ value) }
{
    let mut row = Vec::new(alloc);
    match row.push(Some(value)) {
        Ok(()) => Ok(row),
        Err(failed) => {
            row.destroy_empty();
            match failed.value {
                Some(value) => Err(value),
                None => unreachable!(),
            }
        }
    }
}

// The value of a row that has one.
fn value_of<S>(mut row: Vec<Option<S>>) -> S
    requires { (x : S) × (row.items ≡ Some x ∷ []) }
    ensures { row.items ≡ Some result ∷ [] }
{
    match row.pop() {
        Some(Some(value)) => {
            row.destroy_empty();
            value
        }
        Some(None) => unreachable!(),
        None => unreachable!(),
    }
}

impl<S: Kept> Turn<S> {
    /// A turn over the value, and the one seat, which has all tickets. Where memory runs out, it gives the value back.
    pub fn new(alloc: Global, value: S, seats: u32) -> Result<(Turn<S>, Seat), (S, Memory)>
        requires { 1 ≤ seats }
        ensures turn { IfOk result
            (λ r. IsMadeWith (S.opening value) (S.entries value) seats r.0) }
        ensures seat { IfOk result
            (λ r. r.1 ≡ first_seat r.0.name (S.opening value) (S.entries value) seats) }
        ensures knows { IfOk result (λ r. KnowsCalls r.1) }
        ensures err { IfErr result (λ e. e.0 ≡ value) }
    {
        let Ok(tickets) = tickets::all(alloc, seats) else {
            return Err((value, Memory));
        };
        let start = Start {
            value: Snapshot::of(&value),
            seats,
        };
        let row = match row_of(alloc, value) {
            Ok(row) => row,
            Err(value) => return Err((value, Memory)),
        };
        match Table::new(alloc, &[0], row, &start) {
            Ok((table, place)) => {
                let badge = place.into_badge();
                Ok((Turn { table }, Seat { tickets, badge }))
            }
            Err(Refused { slots }) => Err((value_of(slots), Memory)),
        }
    }

    /// Waits until the seat has the turn, and takes the value out. A free turn is taken without a system call, and
    /// a seat that waits sleeps.
    pub fn hold<R: Wait>(&self, rt: &R, seat: Seat) -> Held<'_, S>
        requires { seat.turn ≡ self.now.name }
        ensures seat { result.seat ≡ seat }
        ensures opening { S.opening result.value ≡ seat.opening }
        ensures begins { IsPrefix seat.seen (S.entries result.value) }
        ensures unmade { NoCalls seat.tickets (drop (length seat.seen) (S.entries result.value)) }
        ensures mine { calls_of seat.tickets seat.since (S.entries result.value) ≡ seat.mine }
        ensures found { result.found ≡ S.entries result.value }
    {
        let Seat { tickets, badge } = seat;
        let mut place = badge.into_seat();
        self.take(rt, &mut place, tickets::mark(&tickets));
        let value = self.take_out(&mut place);
        Held {
            turn: self,
            tickets,
            place,
            value,
        }
    }

    /// Two seats of one that has made no entry: the first keeps all tickets but the highest, which the second has.
    pub fn split(&self, seat: Seat) -> (Seat, Seat)
        requires turn { seat.turn ≡ self.now.name }
        requires two { 2 ≤ length seat.tickets }
        requires none_made { seat.mine ≡ [] }
        ensures first { result.0 ≡ with_tickets seat (without_highest seat.tickets) }
        ensures second { result.1 ≡ with_tickets seat (only_highest seat.tickets) }
        ensures all { result.0.tickets ++ result.1.tickets ≡ seat.tickets }
        ensures rise { RiseFrom 0 seat.tickets }
        ensures one { length result.1.tickets ≡ 1 }
        ensures knows { KnowsCalls result.0 × KnowsCalls result.1 }
    {
        let Seat { mut tickets, badge } = seat;
        let mut place: Place<S> = badge.into_seat();
        let highest = tickets::split_highest(&mut tickets);
        let other = self.table.shared.split_seat::<HandOn>(&mut place);
        let badge = place.into_badge();
        let other_badge = other.into_badge();
        let first = Seat { tickets, badge };
        let second = Seat {
            tickets: highest,
            badge: other_badge,
        };
        (first, second)
    }

    /// One seat of two, with the tickets and the calls of both. What one of them has seen begins what the other has.
    pub fn join(&self, a: Seat, b: Seat) -> Seat
        requires { (a.turn ≡ self.now.name) × (b.turn ≡ self.now.name) }
        ensures seat { result ≡ both_seats a b }
        ensures begins { IsPrefix a.seen result.seen × IsPrefix b.seen result.seen }
        ensures tickets { length result.tickets ≡ length a.tickets + length b.tickets }
        ensures calls { length result.mine ≡ length a.mine + length b.mine }
        ensures knows { KnowsCalls result }
    {
        let Seat { tickets, badge } = a;
        let Seat {
            tickets: others,
            badge: other,
        } = b;
        let shared = &self.table.shared;
        let mut place: Place<S> = badge.into_seat();
        shared.join_seat::<AddUp>(&mut place, other.into_seat());
        shared.load::<Look>(&mut place, 0);
        Seat {
            tickets: tickets::merge(tickets, others),
            badge: place.into_badge(),
        }
    }

    /// The value, for the seat that has all tickets. Its entries are those that the seat has seen.
    pub fn close(self, seat: Seat) -> S
        requires turn { seat.turn ≡ self.name }
        requires all { length seat.tickets ≡ self.seats }
        ensures opening { S.opening result ≡ self.opening }
        ensures seen { S.opening result ≡ seat.opening }
        ensures entries { S.entries result ≡ seat.seen }
    {
        let Seat { tickets: _, badge } = seat;
        let Turn { table } = self;
        let mut closed = table.close_with(badge.into_seat());
        let slot = closed.take(0);
        closed.free();
        match slot {
            Some(value) => value,
            None => unreachable!(),
        }
    }
}
