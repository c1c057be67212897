//! A crew: workers that share a search, take its leaves in turn, and work on them at the same time.
#![tactic(auto)]

mod changes;
mod crew;
mod finding;
mod hands;
mod rows;
mod shared_tree;
mod site;
mod turns;
mod watching;
mod worker;

pub use crew::run;
pub use site::{Gate, NoGate};
pub use vs_tree::Stand;
