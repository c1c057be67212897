//! The numbers and sets that every crate of the planner speaks of.
#![tactic(auto)]

mod layer_set;
mod memory;
mod numbers;

pub use layer_set::LayerSet;
pub use memory::Memory;
pub use numbers::{LayerNo, MAX_LAYERS, SCALE, StopNo, TripNo, limits_are_fixed};
