//! What an arc of a layer's net stands for, and an arc together with that.

ghost use Rattle.std.specs.Prelude.{◌≡◌};
ghost use Rattle.vs_match.specs.Adds.{arc_in};

use vs_layer::Arc;
use vs_types::TripNo;

/// What an arc of a layer's net stands for. Between the same two nodes arcs stand in this order, trips by number.
#[derive(Clone, Copy, Debug, PartialEq, Eq, PartialOrd, Ord)]
pub enum ArcKind {
    /// A trip is run.
    Trip(TripNo),
    /// The vehicle waits at its stop for the next event there.
    Waiting,
    /// It drives without passengers to another stop, and waits there for a departure.
    Deadhead,
    /// It leaves its depot.
    PullOut,
    /// It comes back to its depot.
    PullIn,
    /// It comes back to its depot between two trips. It rests there until the first minute of the depot line at which
    /// its stay is over.
    RestIn,
    /// It rests on, until the next minute of the depot line.
    RestWait,
    /// It leaves its depot again for a departure.
    RestOut,
    /// From the depot's end to its beginning: as many vehicles as are used.
    Return,
}

/// An arc of a layer's net with what it stands for. Arcs are ordered by the node that is left, then by the node
/// that is reached, then by kind.
#[derive(Clone, Copy, Debug, PartialEq, Eq, PartialOrd, Ord)]
pub struct LayerArc {
    pub from: u32,
    pub to: u32,
    pub kind: ArcKind,
    /// What one unit costs, in 1/1000 of a cost unit.
    pub cost: i64,
    /// How many units it takes at most.
    pub room: u32,
}

impl LayerArc {
    /// The arc itself.
    pub fn arc(&self) -> Arc
        ensures { result ≡ arc_in self.now }
    {
        Arc {
            from: self.from,
            to: self.to,
            cost: self.cost,
            room: self.room,
        }
    }
}
