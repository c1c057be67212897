//! What tests are run on: texts of instances and documents, what is read from them, and small timetables. Those
//! are drawn from numbers, and a count of all plans gives the cost of their cheapest plans.
#![tactic(auto)]

mod documents;
mod reading;
mod sharing;
pub mod small;
pub mod texts;

pub use documents::{document_of, documented};
pub use reading::{input_of, instance_of, joined, owned, text_with};
pub use sharing::share;
