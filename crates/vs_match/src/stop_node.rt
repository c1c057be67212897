//! Nodes by the stops at which they are.

ghost use Rattle.std.specs.Prelude.{◌≡◌, ◌<◌, ◌≤◌, ◌↔◌, AllPairs, Contains, IfOk, length, map};
ghost use Rattle.vs_match.specs.declared.stop_node.StopNode.{StopNode};
ghost use Rattle.vs_match.specs.StopNodes.{IsStopNodeBefore, IsRising, AreByStop};

use std::alloc::Global;
use vs_types::{Memory, StopNo};

/// A node of a layer's net by its stop. It stands for an event, or is one of the depot line, which is at the depot's
/// stop. They are ordered by stop, then by minute.
#[derive(Clone, Copy, Debug, PartialEq, Eq, PartialOrd, Ord)]
pub struct StopNode {
    pub stop: StopNo,
    pub minute: u32,
    pub node: u32,
}

/// The stop_nodes at a stop, by minute.
pub fn at_stop(stop_nodes: &[StopNode], stop: StopNo) -> &[StopNode]
    requires { AllPairs IsStopNodeBefore stop_nodes.now }
    ensures same { (s : StopNode)
        → Contains result.now s ↔ (Contains stop_nodes.now s × (s.stop ≡ stop)) }
    ensures rising { IsRising result.now }
    ensures few { length result.now ≤ length stop_nodes.now }
{
    let start = stop_nodes.partition_point(|node| node.stop.0 < stop.0);
    let end = stop_nodes.partition_point(|node| node.stop.0 <= stop.0);
    &stop_nodes[start..end]
}

/// The stop_nodes at each of so many stops, by minute.
pub fn by_stop(
    alloc: Global,
    stop_nodes: &[StopNode],
    stops: u32,
) -> Result<Vec<&[StopNode]>, Memory>
    requires { AllPairs IsStopNodeBefore stop_nodes.now }
    ensures { IfOk result (λ groups.
        AreByStop stops stop_nodes.now (map (λ g. g.now) groups.items)) }
{
    let mut groups = Vec::with_capacity(alloc, stops as usize)?;
    for stop in 0..stops {
        groups.push(at_stop(stop_nodes, StopNo(stop)))?;
    }
    Ok(groups)
}
