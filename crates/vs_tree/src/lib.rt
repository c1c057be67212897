//! Trees of cases: how a search shares out the plans of an instance.
#![tactic(auto)]

mod calls;
mod entry;
mod finishing;
mod first;
mod free_leaves;
mod laws;
mod log;
mod places;
mod spot;
mod step;
mod tree;

pub use calls::{Hand, Next, Report, Stand, Take};
pub use finishing::{Finish, Parting};
pub use laws::{
    entries_differ, histories_are_sound, leaves_bound_plans, reports_are_true, states_are_trees,
};
pub use spot::Spot;
pub use step::Step;
pub use tree::Tree;
pub use vs_instance::{MAX_BUDGET, MAX_WORKERS};
pub use vs_prices::{Claim, claim_found, leaves_are_restrictions, leaves_share_out_plans};
