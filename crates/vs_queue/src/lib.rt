//! A queue of the nodes of a net by key, from which a node of the least key is taken first. Together with the key, it
//! keeps what a search knows of each node. Nodes are numbers, and nothing here sees a net.
#![tactic(auto)]

mod node_heap;
mod node_table;
mod queue;
mod step;

pub use node_heap::NodeHeap;
pub use node_table::Settled;
pub use step::Step;
