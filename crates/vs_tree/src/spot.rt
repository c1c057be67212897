//! The places of a tree of cases, and how they came.

use vs_types::{LayerSet, TripNo};

/// A place in a tree of cases. A leaf is one that isn't `Inner`.
#[derive(Clone, Copy, Debug, PartialEq, Eq)]
pub enum Spot {
    /// It was split. In the lower spot the trip is run in a layer of `left`, and in the upper spot in
    /// another of its set.
    Inner {
        trip: TripNo,
        left: LayerSet,
        lower: u32,
        upper: u32,
    },
    /// A leaf that nobody works on, with the number of its table.
    Free {
        table: u32,
    },
    /// A leaf that a worker works on, with the number of the table that it had when it was taken.
    Held {
        worker: u32,
        table: u32,
    },
    /// A leaf that was done with, with the number of the table that says so.
    Closed {
        table: u32,
    },
}

/// How a spot came: the parent was split, and here the trip is run in these layers.
#[derive(Clone, Copy)]
pub struct Cut {
    pub parent: u32,
    pub trip: TripNo,
    pub layers: LayerSet,
}
