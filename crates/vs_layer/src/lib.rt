//! Nets of nodes and arcs: arcs that go forward, but for the last one, which leads from the last node back to
//! the first. The definitions of walks and circulations that every search rests on stand in `specs/`.
#![tactic(auto)]

mod arc;
mod net;
mod net_error;
mod star;

pub use arc::{Arc, MAX_ARCS};
pub use net::{Flow, Net};
pub use net_error::{NetError, NetFault};
