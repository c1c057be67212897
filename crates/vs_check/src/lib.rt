//! The judge of a plan's document: it trusts nothing of the search. What it says of prices holds over all
//! pairs of trips.
#![tactic(auto)]

mod flaw;
mod laws;
mod verdict;
mod walk;

pub use flaw::Flaw;
pub use laws::{alike_documents_are_judged_alike, holding_documents_prove_their_claims};
pub use verdict::{Verdict, check};
