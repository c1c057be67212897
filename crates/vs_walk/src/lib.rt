//! Walks for plans: passes in which the layers come to agree, from nothing or from choices that are known.
//!
//! In a pass each layer is paid a little more for a trip that no other one runs and a little less for one that another
//! does. Where every trip is run, each is given to one layer, and a choice of layers is found. A walk begins passes
//! from the best multipliers, goes on from the cheapest choices, and mends them. To mend a choice, a few layers share
//! out their trips anew, or all layers do with the trips of some hours. On a large instance with few layers all of
//! them also do so with the trips of some vehicles that come near each other.
#![tactic(auto)]

mod choice;
mod choosing;
mod draws;
mod large;
mod mending;
mod nearby;
mod passes;
mod penalties;
mod pool;
mod rate;
mod restart;
mod savings;
mod scope;
mod tally;
mod walker;

pub use choosing::lowest_layers;
pub use large::is_large;
pub use penalties::Penalties;
pub use pool::{Choice, Pool};
pub use rate::Rate;
pub use scope::ALL;
pub use walker::{FEW, Walker};
