//! The best multipliers of trips, nearly exactly, by a proximal bundle method (Lemarechal 1975, Kiwiel 1990). Each
//! layer keeps circulations that it found before, its cuts. The multipliers go where these, mixed by weights, run every
//! trip just once.
#![tactic(auto)]

mod aim;
mod climbing;
mod kept;
mod lanes;
mod order;
mod pace;
mod round;
mod shares;
mod stepping;
mod stride;
mod valuing;

pub use aim::Aim;
pub use climbing::{Ascent, Climbed, climb};
pub use kept::KeptCuts;
pub use lanes::{Lanes, run_layer};
pub use shares::Shares;
pub use vs_cuts::WHOLE;
