//! Least paths by correcting what nodes cost arc by arc, where some costs are negative.

ghost use Rattle.std.specs.Prelude.{◌≡◌, ◌↔◌, ◌<◌, ◌<ℤ◌, length, set, replicate, pos, IfOk, IsTrue, Some, None, ℤ};
ghost use Rattle.vs_path.specs.Residual.{arc_no};
ghost use Rattle.vs_path.specs.LeastPaths.{AreLeastPaths, IsSized};
ghost use Rattle.vs_path.specs.PathTree.{CanCorrect, IsCorrected, IsPathTree, paths_of, shortened};
ghost use Rattle.vs_queue.specs.declared.step.Step.{Step};

use crate::residual::Residual;
use std::alloc::Global;
use vs_queue::Step;
use vs_types::Memory;

/// Paths from a node to others, followed back step by step.
#[derive(Drop)]
pub struct PathTree {
    /// By node what the path to it costs, None where there is none.
    pub distances: Vec<Option<i64>>,
    /// By node the last step of the path, None where there is none and at the node where all begin.
    pub steps: Vec<Option<Step>>,
}

impl PathTree {
    /// No path to any of so many nodes.
    pub fn new(alloc: Global, nodes: u32) -> Result<PathTree, Memory>
        ensures { IfOk result (λ tree. IsSized nodes (paths_of tree)) }
    {
        Ok(PathTree {
            distances: vec![in alloc; None; nodes as usize]?,
            steps: vec![in alloc; None; nodes as usize]?,
        })
    }

    /// Corrects what nodes cost, until no step makes one cost less (Ford 1956, Bellman 1958). Some costs may be
    /// negative.
    pub fn correct(&mut self, residual: &Residual)
        requires can { CanCorrect residual.now }
        requires tree { IsPathTree residual.now 0 (paths_of self.old) }
        ensures { AreLeastPaths residual.now 0 (paths_of self.new) }
    {
        while self.pass(residual) {}
    }

    /// Leaves a path to node 0 alone.
    pub fn begin(&mut self)
        requires { 0 < length self.old.distances.items }
        ensures distances { self.new.distances.items
            ≡ set (replicate (length self.old.distances.items) None) 0 (Some (pos 0)) }
        ensures steps { self.new.steps.items ≡ replicate (length self.old.steps.items) None }
    {
        self.distances.fill(None);
        self.distances[0] = Some(0);
        self.steps.fill(None);
    }

    /// Corrects what nodes cost along each step once. Whether one costs less.
    fn pass(&mut self, residual: &Residual) -> bool
        requires can { CanCorrect residual.now }
        requires tree { IsPathTree residual.now 0 (paths_of self.old) }
        ensures tree { IsPathTree residual.now 0 (paths_of self.new) }
        ensures corrected { IsCorrected residual.now (paths_of self.old) (paths_of self.new)
            (λ s. arc_no s < residual.now.arcs) result }
    {
        let mut fell = false;
        for k in 0..residual.arcs() {
            fell |= self.shorten_along(residual, k);
        }
        fell
    }

    /// Corrects what the nodes of an arc cost, along both its steps. Whether one costs less.
    fn shorten_along(&mut self, residual: &Residual, arc: u32) -> bool
        requires arc { arc < length residual.now.graph.arcs }
        requires can { CanCorrect residual.now }
        requires tree { IsPathTree residual.now 0 (paths_of self.old) }
        ensures tree { IsPathTree residual.now 0 (paths_of self.new) }
        ensures corrected { IsCorrected residual.now (paths_of self.old) (paths_of self.new)
            (λ s. arc_no s ≡ arc) result }
    {
        let forward = self.shorten(residual, Step::Forward(arc));
        let back = self.shorten(residual, Step::Back(arc));
        forward | back
    }

    /// Gives the node that a step reaches what it costs along the step, where that is less. Whether it is.
    pub fn shorten(&mut self, residual: &Residual, step: Step) -> bool
        requires arc { arc_no step < length residual.now.graph.arcs }
        requires can { CanCorrect residual.now }
        requires tree { IsPathTree residual.now 0 (paths_of self.old) }
        ensures tree { IsPathTree residual.now 0 (paths_of self.new) }
        ensures corrected { IsCorrected residual.now (paths_of self.old) (paths_of self.new)
            (λ s. s ≡ step) result }
    {
        if !residual.is_open(step) {
            return false;
        }
        let Some(from) = self.distances[residual.from(step) as usize] else {
            return false;
        };
        let node = residual.to(step);
        let cost = from + residual.cost(step);
        let known = self.distances[node as usize];
        if !is_less(cost, known) {
            return false;
        }
        self.give(node, cost, step);
        true
    }

    /// Gives a node this cost, along this step.
    fn give(&mut self, node: u32, cost: i64, step: Step)
        requires distance { node < length self.old.distances.items }
        requires step { node < length self.old.steps.items }
        ensures { paths_of self.new ≡ shortened (paths_of self.old) node cost step }
    {
        self.distances[node as usize] = Some(cost);
        self.steps[node as usize] = Some(step);
    }
}

/// Whether a cost is less than the one that is known, or none is.
fn is_less(cost: i64, known: Option<i64>) -> bool
    ensures { IsTrue result ↔ ((other : ℤ) → known ≡ Some other → cost <ℤ other) }
{
    match known {
        None => true,
        Some(other) => cost < other,
    }
}
