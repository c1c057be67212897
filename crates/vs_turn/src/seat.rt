//! A caller's token of a turn, and what the table of atomic steps knows of it.
use atomic_table::Badge;
use std::collections::LinkedList;
use std::marker::Model;

/// A caller's token of a turn. Contracts see the turn's name, the opening of the value, and how many entries that had
/// when the turn was made. They also see the seat's tickets, the entries that it has seen, and those of them that it
/// made.
#[derive(Drop)]
pub struct Seat {
    pub(crate) tickets: LinkedList<u32>,
    pub(crate) badge: Badge<View>,
}

impl Model for Seat {
    ghost use Rattle.vs_turn.specs.Seats.{SeatModel, seat_at, IsSeat};

    ghost Value = { SeatModel };

    ghost view = { λ s. seat_at s.badge.table_id s.badge.views };

    ghost invariant = { λ s. IsSeat s.badge.views s.tickets };
}

/// What the table knows of a seat. No value of it is made.
pub struct View {
    pub opening: LinkedList<u64>,
    pub since: u64,
    pub tickets: LinkedList<u32>,
    pub seen: LinkedList<LinkedList<u64>>,
    pub mine: LinkedList<(u64, LinkedList<u64>)>,
    /// Whether it has the turn.
    pub has_turn: bool,
    /// The entries that it found when it took the turn.
    pub found: LinkedList<LinkedList<u64>>,
    /// What both seats of a join had seen.
    pub olds: LinkedList<LinkedList<LinkedList<u64>>>,
}
