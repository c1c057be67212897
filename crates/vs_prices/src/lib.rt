//! Dual prices, and what they show of every plan: prices that hold bound what each plan costs, however found.
//!
//! Here are also trees of cases, which share out the plans of an instance, and what a cost and a bound claim
//! together.
#![tactic(auto)]

mod bound;
mod broken_at;
mod cases;
mod claim;
mod table;
mod table_worth;

pub use bound::Bound;
pub use broken_at::{BrokenAt, broken};
pub use cases::{leaves_are_restrictions, leaves_share_out_plans};
pub use claim::{Claim, claim_found};
pub use table::Table;
pub use table_worth::{
    MAX_TRIP_PRICE, least_price, permitted_sets, prices_bound_plans, trip_price,
    unrated_tables_are_rays, worth,
};
pub use vs_instance::MAX_PRICE;
