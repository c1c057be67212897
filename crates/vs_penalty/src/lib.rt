//! Plans on which the layers agree.
//!
//! Each layer is paid a little more for a trip that no other one runs and a little less for one that another does. So
//! the layers come to agree on one for every trip. Where there is no plan, a Farkas ray shows it, which is sought as
//! prices are where nothing costs anything.
#![tactic(auto)]

mod agreeing;
mod choices;
mod effort;
mod leaf;
mod mean;
mod minutes;
mod paying;
mod ray;
mod reasons;
mod root;
mod seeking;
mod walkers;

pub use agreeing::agree;
pub use leaf::seek_plan;
pub use ray::seek_ray;
pub use walkers::{Hands, Turn, Walk};
