//! Plans of vehicles: which blocks are one, and what is wrong with those that aren't.
//!
//! Here are also what a plan costs, and a first plan by a simple rule.
#![tactic(auto)]

mod block;
mod checked_plan;
mod costs;
mod cover;
mod draft;
mod judging;
mod laws;
mod order;
mod plan_fault;
mod planning;

pub use block::{Block, Plan};
pub use checked_plan::{CheckedPlan, cheaper, check_plan, cost_of};
pub use costs::{MAX_PLAN_COST, block_cost, block_times};
pub use judging::judge;
pub use laws::{blocks_cost_their_pieces, faultless_blocks_are_plans, greedy_gives_one_answer};
pub use plan_fault::{PlanError, PlanFault};
pub use planning::greedy;
