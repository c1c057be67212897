//! What was refused, what doesn't hold, and why there is no plan, as sentences for people.
#![tactic(auto)]

mod blocks;
mod column;
mod deadheads;
mod document;
mod flaw;
mod forms;
mod instance;
mod no_plan;
mod numbers;
mod peaks;
mod ray;
mod reason;
mod records;
mod refusal;
mod sentence;
mod traces;
mod twice;
mod unknown;
mod words;

pub use no_plan::reason_text;
pub use reason::{Reason, ray_reason};
pub use refusal::refusal_text;
pub use sentence::{Part, sentence as sentence_of};
