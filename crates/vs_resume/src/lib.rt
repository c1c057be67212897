//! A search that is carried on from the document that it ended with.
//!
//! Round after round, the leaf with the lowest bound gives place to a search of its part. That is the instance in which
//! each trip may be run only in the layers that the leaf leaves it.
#![tactic(auto)]

mod cases;
mod course;
mod deepen;
mod laws;
mod order;
mod part;
mod part_laws;
mod resuming;
mod rows;
mod turning;
mod widening;
mod writing;

pub use deepen::{Deepen, MAX_PART_ENTRIES, MAX_TURN};
pub use laws::{enough_nodes_leave_nothing_open, limits_are_fixed};
pub use part_laws::{plans_of_parts, widened_tables_are_worth_the_same, widened_tables_hold};
pub use resuming::{MAX_RESUMED_ENTRIES, resume};
pub use widening::widen;
