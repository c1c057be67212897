//! The blocks that a circulation of a layer's net stands for: the same trips, with no more vehicles, at no higher
//! cost.
#![tactic(auto)]

mod blocks;
mod stand;
mod underway;

pub use blocks::blocks_of;
