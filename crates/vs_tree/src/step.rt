//! The steps of a history.

use vs_types::{LayerSet, TripNo};

/// A step of a search. Spots, tables and accepted plans are numbered from 0 in the order in which they came.
#[derive(Clone, Copy, Debug, PartialEq, Eq)]
pub enum Step {
    /// The worker took the free leaf.
    Took {
        worker: u32,
        leaf: u32,
    },
    /// The worker gave the leaf this table and split it.
    Split {
        worker: u32,
        leaf: u32,
        table: u32,
        trip: TripNo,
        left: LayerSet,
    },
    /// The worker gave the leaf this table and closed it.
    Closed {
        worker: u32,
        leaf: u32,
        table: u32,
    },
    /// The worker offered a plan of this cost, in cost units; `plan` is its number where it was accepted.
    Offered {
        worker: u32,
        cost: i64,
        plan: Option<u32>,
    },
    /// The worker gave the leaf back as it was, and takes no more.
    GaveBack {
        worker: u32,
        leaf: u32,
    },
}
