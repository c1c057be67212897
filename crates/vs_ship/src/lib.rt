//! Units sent along the arcs of a net from nodes that have too many to nodes that lack some. The nodes get prices at
//! which nobody gains by another way. Among all such prices the crate can take those in the middle.
#![tactic(auto)]

mod centring;
mod draining;
mod fitting;
mod gaps;
mod leaving;
mod mirror;
mod shipment;
mod space;
mod start;
mod work;

pub use centring::{MAX_RAISED_PRICE, centre};
pub use draining::drain;
pub use fitting::{fit, loss_on, suiting};
pub use gaps::{MAX_NODE_PRICE, bring_near};
pub use leaving::{clear, leave, pass};
pub use shipment::{MAX_FIRST_PRICE, Shipment};
pub use space::Space;
pub use start::Start;
pub use work::{Kept, Work};
