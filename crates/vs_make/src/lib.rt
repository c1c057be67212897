//! The instance text that `make N` writes, and what it stands for. The same N always gives the same bytes.
#![tactic(auto)]

mod grid;
mod laws;
mod making;
mod sequence;

pub use laws::made_texts_are_instances;
pub use making::make_text;
