//! The time-space net of a layer, by first match or latest first match.
//!
//! Its nodes are the departures and arrivals of the layer's trips and the minutes at which rested vehicles leave the
//! depot. Its arcs for waiting, driving and resting lead to exactly the trips that connect.
#![tactic(auto)]

mod arc_kind;
mod building;
mod deadheads;
mod depot_drives;
mod event;
mod laws;
mod layer_net;
mod matching;
mod nodes;
mod pulls;
mod rates;
mod rests;
mod sizes;
mod sorting;
mod stop_node;
mod trip_arcs;
mod waiting;

pub use arc_kind::ArcKind;
pub use laws::{
    blocks_compose, both_nets_alike, circulations_decompose, nets_are_lawful,
    nets_cost_what_blocks_do, nets_have_the_walk_law,
};
pub use layer_net::{LayerNet, MAX_ARC_COST};
pub use matching::{first_match, latest_first_match, layer_nets};
pub use sizes::{NetCounts, counts, full_count};
