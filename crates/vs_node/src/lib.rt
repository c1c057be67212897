//! The work on one leaf of a search. It finds prices for the leaf's sets and a plan of the layers that the prices
//! choose, and closes or splits the leaf.
#![tactic(auto)]

mod care;
mod choosing;
mod climbing;
mod deciding;
mod keeping;
mod layers_run;
mod leads;
mod outcome;
mod progress;
mod promise;
mod pushing;
mod ray_table;
mod room;
mod searching;
mod settling;
mod splitting;
mod working;

pub use outcome::{Outcome, Task};
pub use progress::Progress;
pub use room::Room;
pub use settling::{Settled, settle};
pub use working::{begin, has_choice, work, work_from, worked_searches_reach_the_start};
