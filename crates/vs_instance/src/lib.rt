//! The instance that is planned: its stops, deadheads, layers and trips.
//!
//! Here are also the definitions of ways, pieces of cost, blocks, plans and prices that every other crate cites.
#![tactic(auto)]

mod closure;
mod dearest;
mod gather;
mod instance;
mod laws;
mod layer;
mod lengths;
mod limits;
mod misfit;
mod narrowed;
mod parts;
mod ranges;
mod trip;
mod unrated;
mod way;
mod ways;

pub use dearest::most_multiplier;
pub use instance::Instance;
pub use laws::{
    lagrangian_values_bound_plans, lagrangian_values_exist, limits_are_fixed,
    starting_values_exist, usual_instances_are_payable, who_rests_connects,
};
pub use layer::Layer;
pub use limits::{
    MAX_BUDGET, MAX_DEAREST_SUM, MAX_FIXED, MAX_FLEET, MAX_METRES, MAX_MINUTES, MAX_MULTIPLIER,
    MAX_PER_METRE, MAX_PER_MINUTE, MAX_PRICE, MAX_STAY, MAX_STOPS, MAX_TRIPS, MAX_WORKERS,
    TWO_DAYS, USUAL_TRIPS,
};
pub use misfit::{Field, Misfit, NewError, Place};
pub use parts::{Deadhead, Parts};
pub use trip::Trip;
pub use vs_types::MAX_LAYERS;
pub use way::Way;
