//! Multipliers of trips: what a layer is paid for each trip that it runs. They are where a table of prices comes from,
//! and come from a table.
//!
//! The search runs one round at a time, by `few_rounds`. It doesn't call `rounds`, the series from the starting
//! multipliers on, which is here for callers of the library.
#![tactic(auto)]

mod best;
mod exchanging;
mod offering;
mod raising;
mod round;
mod running;
mod starting;
mod steps;
mod watch;

pub use best::{Best, few_rounds, greatest_step, keep_better, one_round, rounds};
pub use offering::offer;
pub use raising::raise;
pub use round::Case;
pub use starting::{multipliers_of, of_table, start};
pub use steps::moved;
pub use watch::{LONG, NoWatch, Untold, Watch, in_turn};
