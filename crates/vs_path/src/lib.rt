//! Least paths along the arcs of a net on which units can still be sent or taken back.
//!
//! The program searches by `Search`. `distances` and `Paths` are for those who embed the crate, and for tests, which
//! compare with them what a search by prices finds. Their paths are the least whatever prices were tried. Prices suit a
//! heap where no residual step has a negative reduced cost by them. The heap takes what nodes cost the last time where
//! these suit, and else 0. Passes over all arcs correct what is left to correct.
#![tactic(auto)]

mod head_start;
mod labels;
mod least_tree;
mod loads;
mod path_tree;
mod paths;
mod raising;
mod reach;
mod residual;
mod search;

pub use loads::Loads;
pub use paths::Paths;
pub use reach::{Reach, distances, sign_rule_leaves_no_negative_cycle};
pub use residual::{
    Costs, MAX_PATH_ARC_COST, MAX_PATH_COST, MAX_PATH_NODES, MAX_SEARCH_NODES, MAX_SEARCH_PRICE,
    MAX_STEP_COST, Residual, most_step,
};
pub use search::{MAX_SPAN, MOST_RAISED, Search};
pub use vs_queue::{NodeHeap, Step};
