//! Tests of trees of cases, of crews of workers and of the document of a search, with threads that meet. They
//! share a search and a gate with the program `test_meeting`. The search is of one trip that either of two layers may
//! run, with a root that is split and two leaves that are free. At the gate the workers of both leaves meet.
#![tactic(auto)]

mod leaves;
mod meeting;

pub use leaves::{NotMade, one_trip, two_leaves};
pub use meeting::Meeting;

#[cfg(test)]
mod crews;
#[cfg(test)]
mod trees;
#[cfg(test)]
mod writing;
