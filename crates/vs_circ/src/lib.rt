//! Least circulations of a layer's net with prices that prove them. Least circulations that run given trips, or a ray
//! that shows that there is none.
#![tactic(auto)]

mod circ;
mod costing;
mod fixing;
mod laws;
mod leeways;
mod misfits;
mod preparing;
mod price_tables;
mod refitting;
mod relaxing;
mod running;
mod settling;
mod supplying;

pub use circ::{Circ, FixedFlow, LayerPrices};
pub use fixing::fixed;
pub use laws::{covered_circulations, least_circulations, stuck_trips};
pub use relaxing::relaxed;
pub use running::{begin_runs, read_run, run_from, runs};
pub use vs_instance::{MAX_MULTIPLIER, MAX_PRICE};
pub use vs_ship::{Kept, Work};
