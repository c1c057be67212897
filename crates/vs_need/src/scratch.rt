//! Room for what passes find.

ghost use Rattle.std.specs.Prelude.{ℕ, ◌<◌, ◌≤◌, IfOk, length};
ghost use Rattle.vs_match.specs.LayerNets.{net_at};

use std::alloc::Global;
use vs_match::LayerNet;
use vs_types::Memory;

/// Room for what passes find, so that they take no memory.
#[derive(Drop)]
pub struct Scratch {
    /// By node, what the best walk is worth.
    pub(crate) values: Vec<Option<i128>>,
    /// By trip, what its pull-out is worth.
    pub(crate) outs: Vec<Option<i128>>,
    /// By trip, what the best trip after it is worth.
    pub(crate) nexts: Vec<Option<i128>>,
    /// By trip, what its pull-in is worth.
    pub(crate) ins: Vec<Option<i128>>,
    /// By trip, what the link to it from one trip is worth.
    pub(crate) links: Vec<Option<i128>>,
}

impl Scratch {
    ghost use Rattle.vs_need.specs.Room.{HasRoom};

    /// Room for passes along these nets, of an instance with so many trips.
    pub fn new(alloc: Global, nets: &[LayerNet], trips: u32) -> Result<Scratch, Memory>
        ensures { IfOk result (HasRoom trips nets.now) }
    {
        let nodes = most_nodes(nets) as usize;
        let trips = trips as usize;
        let values = vec![in alloc; None; nodes]?;
        let outs = vec![in alloc; None; trips]?;
        let nexts = vec![in alloc; None; trips]?;
        let ins = vec![in alloc; None; trips]?;
        let links = vec![in alloc; None; trips]?;
        Ok(Scratch {
            values,
            outs,
            nexts,
            ins,
            links,
        })
    }
}

/// How many nodes the largest of the nets has, 0 where there is no net.
fn most_nodes(nets: &[LayerNet]) -> u32
    ensures { (l : ℕ) → l < length nets.now → (net_at nets.now l).graph.nodes ≤ result }
{
    let mut most = 0;
    for net in nets {
        most = most.max(net.net().nodes());
    }
    most
}
