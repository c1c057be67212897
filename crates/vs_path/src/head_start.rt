//! A head start for least paths: costs fall along the steps of one node after the other, the cheapest first.

ghost use Rattle.std.specs.Prelude.{◌≡◌, ◌<◌, ◌↔◌, IsTrue, length};
ghost use Rattle.vs_path.specs.Residual.{arc_no};
ghost use Rattle.vs_path.specs.LeastPaths.{AreLeastPaths, IsSized};
ghost use Rattle.vs_path.specs.PathTree.{CanCorrect, IsPathTree, paths_of};
ghost use Rattle.vs_path.specs.Waiting.{CanWait};
ghost use Rattle.vs_queue.specs.Keys.{IsBelow};

use crate::path_tree::PathTree;
use crate::residual::{Residual, Way};
use vs_queue::{NodeHeap, Step};

impl PathTree {
    /// Finds least paths from node 0. Costs fall along the steps of the nodes first that cost least less their prices
    /// (Dijkstra 1959), then along all arcs until none falls. Where no residual step has a negative reduced cost by the
    /// prices, one pass over all arcs sees that nothing is left to correct.
    pub fn find(&mut self, residual: &Residual, prices: &[i64], heap: &mut NodeHeap)
        requires can { CanCorrect residual.now }
        requires size { IsSized residual.now.graph.nodes (paths_of self.old) }
        requires some { 0 < residual.now.graph.nodes }
        requires each_node { length prices.now ≡ residual.now.graph.nodes }
        requires heap { CanWait residual.now.graph.nodes heap.old }
        ensures paths { AreLeastPaths residual.now 0 (paths_of self.new) }
        ensures heap { CanWait residual.now.graph.nodes heap.new }
    {
        self.begin();
        self.go_ahead(residual, prices, heap);
        self.correct(residual);
    }

    /// Costs fall along the steps of as many nodes as there are, the one that costs least less its price first.
    fn go_ahead(&mut self, residual: &Residual, prices: &[i64], heap: &mut NodeHeap)
        requires can { CanCorrect residual.now }
        requires some { 0 < residual.now.graph.nodes }
        requires tree { IsPathTree residual.now 0 (paths_of self.old) }
        requires each_node { length prices.now ≡ residual.now.graph.nodes }
        requires heap { CanWait residual.now.graph.nodes heap.old }
        ensures tree { IsPathTree residual.now 0 (paths_of self.new) }
        ensures heap { CanWait residual.now.graph.nodes heap.new }
    {
        heap.clear();
        wait(heap, 0, 0, Step::Forward(0));
        for _ in 0..prices.len() {
            let Some((node, _)) = heap.take() else {
                return;
            };
            self.fall_from(residual, prices, Way::Forward, node, heap);
            self.fall_from(residual, prices, Way::Back, node, heap);
        }
    }

    /// Costs fall along the steps that go this way from a node.
    fn fall_from(
        &mut self,
        residual: &Residual,
        prices: &[i64],
        way: Way,
        node: u32,
        heap: &mut NodeHeap,
    )
        requires can { CanCorrect residual.now }
        requires node { node < residual.now.graph.nodes }
        requires tree { IsPathTree residual.now 0 (paths_of self.old) }
        requires each_node { length prices.now ≡ residual.now.graph.nodes }
        requires heap { CanWait residual.now.graph.nodes heap.old }
        ensures tree { IsPathTree residual.now 0 (paths_of self.new) }
        ensures heap { CanWait residual.now.graph.nodes heap.new }
    {
        let arcs = residual.open_along(way, node);
        for k in arcs {
            self.fall_along(residual, prices, way.step(*k), heap);
        }
    }

    /// The node that a step reaches costs what it costs along the step, where that is less, and then waits.
    fn fall_along(&mut self, residual: &Residual, prices: &[i64], step: Step, heap: &mut NodeHeap)
        requires can { CanCorrect residual.now }
        requires arc { arc_no step < length residual.now.graph.arcs }
        requires tree { IsPathTree residual.now 0 (paths_of self.old) }
        requires each_node { length prices.now ≡ residual.now.graph.nodes }
        requires heap { CanWait residual.now.graph.nodes heap.old }
        ensures tree { IsPathTree residual.now 0 (paths_of self.new) }
        ensures heap { CanWait residual.now.graph.nodes heap.new }
    {
        if self.shorten(residual, step) {
            let node = residual.to(step);
            let key = less_price(self.distances[node as usize], prices[node as usize]);
            wait(heap, node, key, step);
        }
    }
}

/// What a node costs, less its price, as far as 64 bits go: which node is taken first changes no path's cost.
fn less_price(cost: Option<i64>, price: i64) -> i64 {
    match cost {
        None => i64::MAX,
        Some(cost) => cost.saturating_sub(price),
    }
}

/// Lets a node wait by this key, unless it waits by one that is no greater.
fn wait(heap: &mut NodeHeap, node: u32, key: i64, step: Step)
    requires heap { CanWait (length heap.old.waiting) heap.old }
    requires node { node < length heap.old.waiting }
    ensures heap { CanWait (length heap.old.waiting) heap.new }
{
    if is_below(key, heap.key(node)) {
        heap.lower(node, key, step);
    }
}

/// Whether a key is less than one that may be there.
fn is_below(key: i64, known: Option<i64>) -> bool
    ensures { IsTrue result ↔ IsBelow key known }
{
    match known {
        None => true,
        Some(known) => key < known,
    }
}
