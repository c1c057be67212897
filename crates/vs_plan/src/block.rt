//! What one vehicle runs, and the blocks of all vehicles as a plan.

use vs_types::{LayerNo, TripNo};

/// What one vehicle runs from its pull-out to its pull-in.
#[derive(Debug, Drop)]
pub struct Block {
    /// The vehicle's layer.
    pub layer: LayerNo,
    /// Its trips in the order in which they are run, at least one.
    pub trips: Vec<TripNo>,
}

/// The blocks of all vehicles. Nothing is known of them until they are judged.
#[derive(Debug, Drop)]
pub struct Plan {
    /// One block for each vehicle that is used, in any order.
    pub blocks: Vec<Block>,
}
