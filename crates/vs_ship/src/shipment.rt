//! Units on their way along the arcs of a net, with prices of its nodes.

use vs_layer::Flow;
use vs_path::Costs;

/// The greatest price of a node, either way, with which sending units may begin, in 1/1000 of a
/// cost unit.
pub const MAX_FIRST_PRICE: i64 = 2_500_000_000_000_000_000;

/// Units on the arcs of a net, what the arcs cost and take, and the prices and the surplus of its
/// nodes.
#[derive(Debug, Drop)]
pub struct Shipment {
    pub flow: Flow,
    pub costs: Costs,
    /// By node, in 1/1000 of a cost unit.
    pub prices: Vec<i64>,
    /// By node: the units that were supplied or came there, less those that went; below 0 where
    /// units lack.
    pub surplus: Vec<i64>,
}
