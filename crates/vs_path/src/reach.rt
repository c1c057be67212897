//! Least paths from node 0 in a net without its return arc, and whether its last node is reached.

ghost use Rattle.std.specs.Prelude.{◌≡◌, ◌-◌, ◌≤◌, length};
ghost use Rattle.vs_path.specs.Residual.{AllWithin};
ghost use Rattle.vs_path.specs.LeastPaths.{AreLeastPaths, distance_at};
ghost use Rattle.vs_path.specs.PathTree.{HasNoNegativeCycle};
ghost use Rattle.vs_path.specs.Distances.{IsReach, without_return};
ghost use Rattle.vs_path.specs.Laws.{SignRuleLeavesNoNegativeCycle};

use crate::paths::Paths;
use crate::residual::{Costs, MAX_PATH_ARC_COST, MAX_PATH_NODES, Residual};
use vs_layer::{Flow, Net};

/// Whether a path leads to the last node of a net.
#[derive(Clone, Copy, Debug, PartialEq, Eq)]
pub enum Reach {
    Reached,
    Cut,
}

/// Finds the least paths from node 0 along the residual steps of a net, but for those along its return arc. Costs are
/// in 1/1000 of a cost unit.
pub fn distances(net: &Net, flow: &Flow, costs: &Costs, paths: &mut Paths) -> Reach
    requires nodes { net.now.nodes ≤ MAX_PATH_NODES }
    requires units { length flow.now.units.items ≡ length net.now.arcs }
    requires cost { length costs.now.cost.items ≡ length net.now.arcs }
    requires room { length costs.now.room.items ≡ length net.now.arcs }
    requires few { AllWithin MAX_PATH_ARC_COST costs.now.cost.items }
    requires no_negative { HasNoNegativeCycle (without_return net.now flow.now costs.now) }
    requires made { length paths.old.distances ≡ net.now.nodes }
    ensures paths { AreLeastPaths (without_return net.now flow.now costs.now) 0 paths.new }
    ensures reach { IsReach (distance_at paths.new (net.now.nodes - 1)) result }
{
    let residual = Residual::new(net, flow, costs, net.arcs() - 1);
    paths.find_from_first(&residual);
    match paths.distance(net.nodes() - 1) {
        Some(_) => Reach::Reached,
        None => Reach::Cut,
    }
}

/// Where prices keep the sign rule, residual steps that come back to where they began cost nothing or more. So the
/// least paths of such a net can be found by `distances`.
pub fn sign_rule_leaves_no_negative_cycle()
    ensures { SignRuleLeavesNoNegativeCycle }
{}
