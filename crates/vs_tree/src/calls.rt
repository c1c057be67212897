//! What passes between a search and its workers. A worker has a leaf in hand or not, asks for one, and closes or splits
//! it. The search answers, and reports what it found.

use vs_prices::Claim;
use vs_types::{LayerSet, TripNo};

/// What a worker of a search has in hand.
#[derive(Clone, Copy)]
pub enum Hand {
    Idle,
    /// A leaf, and whether the worker offered a plan since it took it.
    Has { leaf: u32, offered: bool },
    /// It gave its leaf back, and takes no more.
    Gone,
}

/// The answer to a worker that asks for a leaf.
#[derive(Clone, Copy, Debug, PartialEq, Eq)]
pub enum Take {
    /// It has this leaf now. `known` is the cost of the cheapest plan so far, in cost units.
    Node { leaf: u32, known: Option<i64> },
    /// No leaf is to be had now, but one is held, and there may be more once it was worked on.
    Wait,
    /// No leaf leaves room for a plan cheaper than the cheapest so far.
    Done,
    /// As many leaves as the budget allows were worked on.
    Spent,
}

/// What becomes of a leaf once it was worked on.
#[derive(Clone, Copy, Debug, PartialEq, Eq)]
pub enum Next {
    /// Its table shows that no plan within it is wanted.
    Close,
    /// Two leaves take its place. In one the trip is run in a layer of `left`, in the other in a layer that `left`
    /// leaves of the trip's set.
    Split { trip: TripNo, left: LayerSet },
}

/// What a search has found. Costs and bounds are in cost units.
#[derive(Clone, Copy, Debug, PartialEq, Eq)]
pub struct Report {
    pub claim: Claim,
    /// What the cheapest plan costs, None where none was found.
    pub cost: Option<i64>,
    /// No plan costs less than this; None where there is no plan.
    pub bound: Option<i128>,
    /// How many leaves were worked on.
    pub finished: u32,
}

/// How far a search has come. Costs and bounds are in cost units.
#[derive(Clone, Copy, Debug, PartialEq, Eq)]
pub struct Stand {
    /// How many leaves were worked on.
    pub finished: u32,
    /// How many leaves leave room for a plan cheaper than the cheapest so far.
    pub open: u32,
    /// What the cheapest plan so far costs, None where none was found.
    pub cost: Option<i64>,
    /// No plan costs less than this; None where there is no plan.
    pub bound: Option<i128>,
}
