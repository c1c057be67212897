//! What a trace says.

use vs_plan::Plan;
use vs_prices::Table;
use vs_types::{LayerSet, TripNo};

/// How a search began, and the steps that it made. Offers that weren't accepted are left out. Nothing is known of it
/// but that it was written so.
#[derive(Debug, Drop)]
pub struct Trace {
    /// How many leaves may be worked on, at most `MAX_BUDGET`.
    pub budget: u32,
    /// How many workers there are, 1 to `MAX_WORKERS`.
    pub workers: u32,
    /// The plan that was known at the start, with its cost in cost units.
    pub first: Option<(i64, Plan)>,
    pub steps: Vec<Full>,
}

/// A step of a search with the table or the plan that it adds. Workers and spots are numbered from 0.
#[derive(Debug, Drop)]
pub enum Full {
    /// The worker took the free leaf.
    Took {
        worker: u32,
        spot: u32,
    },
    /// The worker gave the leaf this table and split it.
    Split {
        worker: u32,
        spot: u32,
        trip: TripNo,
        left: LayerSet,
        table: Table,
    },
    /// The worker gave the leaf this table and closed it.
    Closed {
        worker: u32,
        spot: u32,
        table: Table,
    },
    /// The worker offered this plan, of this cost in cost units, and it was accepted.
    Offered {
        worker: u32,
        cost: i64,
        plan: Plan,
    },
    /// The worker gave the leaf back as it was, and takes no more.
    GaveBack {
        worker: u32,
        spot: u32,
    },
}
