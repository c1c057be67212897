//! What a search has found, read off its labels: costs, last steps, a path, and lowered prices.

ghost use Rattle.std.specs.Prelude.{◌≡◌, ◌<◌, ◌≤◌, ◌-ℤ◌, length, replicate, pos, vec_capacity, FitsSigned, Some};
ghost use mir.Syntax.{w64};
ghost use Rattle.vs_path.specs.Residual.{HasSignRule, IsPath, IsResidual};
ghost use Rattle.vs_path.specs.Labels.{AreLabels, AreListed, IsSmall, lists_of, settled_at, source_of};
ghost use Rattle.vs_path.specs.Search.{AreMoved, AreTreeSteps, CanMove};
ghost use Rattle.vs_path.specs.LeastPaths.{AreCosts, AreLeastPaths, AreSettledSteps, CanCost, CanCostTo, IsSized, cost_to, if_settled};
ghost use Rattle.vs_path.specs.PathTree.{paths_of};
ghost use Rattle.vs_queue.specs.declared.node_table.Settled.{Settled};

use crate::labels::Labels;
use crate::path_tree::PathTree;
use crate::residual::Residual;
use vs_queue::{Settled, Step};

impl Labels {
    /// Finds the least paths from a node to all others, by prices under which no residual step has a negative reduced
    /// cost. No node lacks a unit by the zeros, so the search goes on to the end.
    pub fn find_paths(
        &mut self,
        residual: &Residual,
        prices: &[i64],
        zeros: &[i64],
        source: u32,
        tree: &mut PathTree,
    )
        requires listed { AreListed residual.now.graph.nodes (lists_of self.old) }
        requires space { residual.now.graph.nodes ≤ vec_capacity self.old.order }
        requires small { IsSmall residual.now prices.now }
        requires sign_rule { HasSignRule residual.now prices.now }
        requires zeros { zeros.now ≡ replicate residual.now.graph.nodes (pos 0) }
        requires source { source < residual.now.graph.nodes }
        requires size { IsSized residual.now.graph.nodes (paths_of tree.old) }
        ensures paths { AreLeastPaths residual.now source (paths_of tree.new) }
        ensures listed { AreListed residual.now.graph.nodes (lists_of self.new) }
        ensures space { residual.now.graph.nodes ≤ vec_capacity self.new.order }
    {
        self.clear();
        let _ = self.explore(residual, prices, zeros, source);
        let costs: &mut [Option<i64>] = &mut tree.distances;
        self.least_costs(prices, source, costs);
        let steps: &mut [Option<Step>] = &mut tree.steps;
        self.settled_steps(steps);
        tree.steps[source as usize] = None;
    }

    /// Lowers the price of each settled node by how much nearer it is than the goal.
    pub fn lower_prices(&self, goal: u32, prices: &mut [i64])
        requires listed { AreListed (length prices.old) (lists_of self.now) }
        requires goal { goal < length prices.old }
        requires space { (a : Settled) → settled_at (lists_of self.now) goal ≡ Some a
            → CanMove (lists_of self.now) a.distance prices.old }
        ensures { (a : Settled) → settled_at (lists_of self.now) goal ≡ Some a
            → AreMoved (lists_of self.now) a.distance prices.old prices.new }
    {
        let Some(farthest) = self.nodes.settled(goal as usize) else {
            return;
        };
        for node in &self.order {
            let known = self.nodes.settled(*node as usize);
            if let Some(settled) = known {
                let price = prices[*node as usize];
                prices[*node as usize] = lowered_price(price, &farthest, &settled);
            }
        }
    }

    /// By node what a least path to it costs without the prices, None where it isn't settled.
    pub fn least_costs(&self, prices: &[i64], source: u32, costs: &mut [Option<i64>])
        requires source { source < length prices.now }
        requires settled { length self.now.nodes.settled ≡ length prices.now }
        requires costs { length costs.old ≡ length prices.now }
        requires space { CanCost (lists_of self.now) source prices.now }
        ensures { AreCosts (lists_of self.now) prices.now source costs.new }
    {
        let from = prices[source as usize];
        for (v, cost) in costs.iter_mut().enumerate() {
            *cost = cost_to(self.nodes.settled(v), from, prices[v]);
        }
    }

    /// By node the last step of a least path to it, None where it isn't settled.
    pub fn settled_steps(&self, steps: &mut [Option<Step>])
        requires settled { length self.now.nodes.settled ≡ length steps.old }
        requires steps { length self.now.nodes.steps ≡ length steps.old }
        ensures { AreSettledSteps (lists_of self.now) steps.new }
    {
        for (v, step) in steps.iter_mut().enumerate() {
            *step = if_settled(self.nodes.settled(v), self.nodes.step(v));
        }
    }

    /// The path that was found to a settled node, its last step first.
    pub fn trace(&self, residual: &Residual, prices: &[i64], goal: u32, path: &mut Vec<Step>)
        requires residual { IsResidual residual.now }
        requires labels { AreLabels residual.now prices.now (lists_of self.now) }
        requires goal { (a : Settled) × (settled_at (lists_of self.now) goal ≡ Some a) }
        requires space { residual.now.graph.nodes ≤ vec_capacity path.old }
        ensures path { IsPath residual.now (source_of (lists_of self.now)) path.new.items goal }
        ensures tree { AreTreeSteps residual.now prices.now (lists_of self.now) path.new.items }
        ensures space { vec_capacity path.old ≤ vec_capacity path.new }
    {
        path.clear();
        let source = self.order[0];
        let mut node = goal;
        while node != source {
            let last = self.nodes.step(node as usize);
            let _ = path.push(last);
            node = residual.from(last);
        }
    }
}

/// The price of a settled node, less what it is nearer than the farthest.
fn lowered_price(price: i64, farthest: &Settled, settled: &Settled) -> i64
    requires nearer { FitsSigned w64 (farthest.now.distance -ℤ settled.now.distance) }
    requires fits { FitsSigned w64 (price -ℤ (farthest.now.distance -ℤ settled.now.distance)) }
    ensures { result ≡ price -ℤ (farthest.now.distance -ℤ settled.now.distance) }
{
    price - (farthest.distance - settled.distance)
}

/// The last step of a path to a node, where it is settled.
fn if_settled(settled: Option<Settled>, step: Step) -> Option<Step>
    ensures { result ≡ if_settled settled (Some step) }
{
    match settled {
        None => None,
        Some(_) => Some(step),
    }
}

/// What a least path costs without the prices of the nodes where it begins and ends.
fn cost_to(settled: Option<Settled>, from: i64, to: i64) -> Option<i64>
    requires { CanCostTo settled from to }
    ensures { result ≡ cost_to settled from to }
{
    match settled {
        None => None,
        Some(settled) => Some(settled.distance + (to - from)),
    }
}
