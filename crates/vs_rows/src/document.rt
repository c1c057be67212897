//! What a document has, and the rows of its tree.

use vs_plan::Plan;
use vs_prices::{Claim, Table};
use vs_types::{LayerSet, TripNo};

/// A plan with what proves it.
#[derive(Debug, Drop)]
pub struct Document {
    pub claim: Claim,
    /// What the plan costs, from 0 to `MAX_COST` cost units. None where there is no plan.
    pub cost: Option<i64>,
    /// What every plan costs at least, within `MAX_BOUND` cost units in either direction. None where no plan exists.
    pub bound: Option<i128>,
    /// How many cases the search finished, from 0 to `MAX_FINISHED`.
    pub nodes: u64,
    pub plan: Plan,
    pub tables: Vec<Table>,
    /// The tree of cases in preorder.
    pub shape: Vec<Shape>,
}

/// A row of a tree of cases, which is written a split, then its left part, then its right part.
#[derive(Clone, Copy, Debug, PartialEq, Eq)]
pub enum Shape {
    /// On the left the trip is run in a layer of the set `left`, on the right in another.
    Split { trip: TripNo, left: LayerSet },
    /// A case in which the table, counted from 0, shows the bound.
    Leaf { table: u32 },
}
