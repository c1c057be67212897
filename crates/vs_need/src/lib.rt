//! Prices judged by passes along the arcs of each layer's net, in place of all pairs of trips.
//!
//! The program calls `layer_nets`, `broken_for`, `Counted` and `Scratch`. `needs` and `broken_fast` are for who embeds
//! the passes and has the nets alone. `needs` gives the least price for leaving each trip at which no link from it
//! breaks. A search for better prices asks for that. `broken_fast` is `broken_for` without an instance.
#![tactic(auto)]

mod aim;
mod arc_reader;
mod finding;
mod judging;
mod pass;
mod passes;
mod scratch;

pub use arc_reader::{ArcReader, Counted};
pub use finding::needs;
pub use judging::{broken_fast, broken_for};
pub use scratch::Scratch;
pub use vs_match::layer_nets;
