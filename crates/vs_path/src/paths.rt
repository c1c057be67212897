//! Least paths from a node to all others.

ghost use Rattle.std.specs.Prelude.{◌≡◌, ◌<◌, length, IfOk};
ghost use Rattle.vs_path.specs.Residual.{HasSignRule};
ghost use Rattle.vs_path.specs.Labels.{IsSmall};
ghost use Rattle.vs_path.specs.LeastPaths.{AreLeastPaths, IsSized, arc_and_way, distance_at, last_step};
ghost use Rattle.vs_path.specs.PathTree.{CanCorrect};

use crate::labels::Labels;
use crate::path_tree::PathTree;
use crate::residual::Residual;
use std::alloc::Global;
use std::marker::Model;
use vs_layer::Net;
use vs_queue::{NodeHeap, Step};
use vs_types::Memory;

/// Least paths from a node to all others.
#[derive(Drop)]
pub struct Paths {
    labels: Labels,
    /// The nodes along whose steps costs are to fall.
    heap: NodeHeap,
    /// What was found last.
    tree: PathTree,
    /// By node what a path from node 0 cost the last time, the prices that are tried first.
    prices: Vec<i64>,
    /// By node 0: no node lacks a unit, so a search goes on to the end.
    zeros: Vec<i64>,
}

impl Model for Paths {
    ghost use Rattle.std.specs.Prelude.{vec_capacity};
    ghost use Rattle.vs_path.specs.LeastPaths.{LeastPaths};
    ghost use Rattle.vs_path.specs.PathTree.{paths_of};
    ghost use Rattle.vs_path.specs.Searchable.{CanFindAll};

    ghost Value = { LeastPaths };

    ghost view = { λ p. paths_of p.tree };

    ghost invariant = { λ p. CanFindAll p.labels (vec_capacity p.labels.order) p.heap (paths_of p.tree)
        p.prices.items p.zeros.items };
}

impl Paths {
    /// Paths in this net, or in any other with as many nodes, none of them found yet.
    pub fn new(alloc: Global, net: &Net) -> Result<Paths, Memory>
        ensures { IfOk result (IsSized net.now.nodes) }
    {
        let nodes = net.nodes();
        let labels = Labels::new(alloc, nodes)?;
        let heap = NodeHeap::new(alloc, nodes)?;
        let tree = PathTree::new(alloc, nodes)?;
        let prices = vec![in alloc; 0; nodes as usize]?;
        let zeros = vec![in alloc; 0; nodes as usize]?;
        Ok(Paths {
            labels,
            heap,
            tree,
            prices,
            zeros,
        })
    }

    /// Finds the least paths from a node, by prices under which no residual step has a negative reduced cost.
    pub fn find(&mut self, residual: &Residual, prices: &[i64], source: u32)
        requires nodes { length self.old.distances ≡ residual.now.graph.nodes }
        requires small { IsSmall residual.now prices.now }
        requires sign_rule { HasSignRule residual.now prices.now }
        requires source { source < residual.now.graph.nodes }
        ensures { AreLeastPaths residual.now source self.new }
    {
        self.labels
            .find_paths(residual, prices, &self.zeros, source, &mut self.tree);
    }

    /// Finds the least paths from node 0. The nodes that cost least less their prices come first. The prices are what
    /// nodes cost the last time, or 0 where these break the sign rule. What is left to correct is corrected along all
    /// arcs.
    pub fn find_from_first(&mut self, residual: &Residual)
        requires nodes { length self.old.distances ≡ residual.now.graph.nodes }
        requires some { 0 < residual.now.graph.nodes }
        requires can { CanCorrect residual.now }
        ensures { AreLeastPaths residual.now 0 self.new }
    {
        let heap = &mut self.heap;
        if residual.keeps_sign_rule(&self.prices) {
            self.tree.find(residual, &self.prices, heap);
        } else {
            self.tree.find(residual, &self.zeros, heap);
        }
        keep_costs(&self.tree.distances, &mut self.prices);
    }

    /// What a least path to a node costs, None where there is no path.
    pub fn distance(&self, v: u32) -> Option<i64>
        requires { v < length self.now.distances }
        ensures { result ≡ distance_at self.now v }
    {
        self.tree.distances[v as usize]
    }

    /// The arc of the last step of a least path to a node, and whether the step goes forward. None where there is no
    /// path and where the paths begin. The steps followed back from a node come to where the paths begin.
    pub fn step(&self, v: u32) -> Option<(u32, bool)>
        requires { v < length self.now.steps }
        ensures { result ≡ arc_and_way (last_step self.now v) }
    {
        match self.tree.steps[v as usize] {
            None => None,
            Some(Step::Forward(k)) => Some((k, true)),
            Some(Step::Back(k)) => Some((k, false)),
        }
    }
}

/// Keeps what nodes cost as their prices. A node that isn't reached gets the greatest price, so that no step from it to
/// one that is reached breaks the sign rule.
fn keep_costs(distances: &[Option<i64>], prices: &mut [i64]) {
    for (price, distance) in prices.iter_mut().zip(distances) {
        *price = distance.unwrap_or(i64::MAX);
    }
}
