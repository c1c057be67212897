//! One value shared by seats, with one history. What a seat has seen of the value, and what it made itself, is still
//! there when its turn comes again.
//!
//! A plain mutex can't promise this. When it is taken, a proof knows of the value inside only what is true of every
//! value of its type. It knows nothing of what this thread left there: that may have been taken out, made twice, or
//! never have been there. Here a rule over the value and all seats together holds between any two atomic steps. Each
//! seat carries what it knows from one turn to the next. docs/turn.md draws the steps and the rule.
#![tactic(auto)]

mod held;
mod rule;
mod seat;
mod steps;
mod tickets;
mod turn;

pub use held::Held;
pub use seat::Seat;
pub use turn::{Kept, Turn};
