//! The weights of the cuts that layers keep. They mix the cuts of each layer such that together they run every trip as
//! nearly once as is worth the multipliers that it takes. No circulation is asked for here.
#![tactic(auto)]

mod bundle;
mod keeping;
mod lacking;
mod layer_cuts;
mod refitting;
mod standing;
mod step;
mod weights;
mod withholding;

pub use bundle::Bundle;
pub use layer_cuts::MOST_CUTS;
pub use weights::Forecast;
