//! What a search for least paths knows of the nodes, and how it settles one after the other.

ghost use Rattle.std.specs.Prelude.{◌≡◌, ℕ, ℤ, IfSome, ◌<◌, ◌≤◌, ◌↔◌, ◌++◌, ◌∷◌, [], ◌+ℤ◌, ◌≤ℤ◌, length, set, replicate, IsTrue, IfOk, MatchOption, Some, None, vec_capacity, slice_index, slice_index_or};
ghost use Rattle.vs_path.specs.Residual.{IsResidual, HasSignRule, arc_no, from_of, price_at, reduced};
ghost use Rattle.vs_queue.specs.declared.node_table.Settled.{Settled};
ghost use Rattle.vs_queue.specs.declared.step.Step.{Step};
ghost use Rattle.vs_queue.specs.Keys.{IsEmpty, IsLeast};
ghost use Rattle.vs_path.specs.Labels.{AreLabels, AreFresh, AreListed, Covers, IsBetter, IsBound, IsFarthest, IsLowered, IsOver, IsReached, IsRelaxed, IsRelaxedAlong, IsRelaxedFrom, IsSettledAt, IsSmall, Lacks, Relaxes, lists_of, lowered, settle_in, settled_at, waiting_at};

use crate::residual::{MAX_SEARCH_NODES, Residual, Way};
use std::alloc::Global;
use vs_queue::{NodeHeap, Settled, Step};
use vs_types::Memory;

/// More than the distance of any node: no node that lacks a unit was found.
pub const NO_BOUND: i64 = i64::MAX;

/// A settled node from which steps leave, with its distance and its price.
#[derive(Clone, Copy)]
struct Departure {
    node: u32,
    distance: i64,
    price: i64,
}

/// What a search for least paths (Dijkstra 1959) knows of the nodes of a net.
#[derive(Drop)]
pub struct Labels {
    /// What is known of each node. Those that were reached and aren't settled stand in a heap, by the least distance
    /// found so far.
    pub nodes: NodeHeap,
    /// The settled nodes in order.
    pub order: Vec<u32>,
    /// The least distance to a node that lacks a unit that was found so far, `NO_BOUND` where none was.
    pub bound: i64,
}

impl Labels {
    /// Nothing known of so many nodes.
    pub fn new(alloc: Global, nodes: u32) -> Result<Labels, Memory>
        requires { 0 < nodes }
        ensures fresh { IfOk result (λ labels. AreFresh nodes (lists_of labels)) }
        ensures space { IfOk result (λ labels. vec_capacity labels.order ≡ nodes) }
    {
        Ok(Labels {
            nodes: NodeHeap::new(alloc, nodes)?,
            order: Vec::with_capacity(alloc, nodes as usize)?,
            bound: NO_BOUND,
        })
    }

    /// Forgets all, at a cost of what is known.
    pub fn clear(&mut self)
        requires { AreListed (length self.old.nodes.settled) (lists_of self.old) }
        ensures fresh { AreFresh (length self.old.nodes.settled) (lists_of self.new) }
        ensures space { vec_capacity self.new.order ≡ vec_capacity self.old.order }
        ensures bound { self.new.bound ≡ NO_BOUND }
    {
        forget(&mut self.nodes, &self.order);
        self.order.clear();
        self.nodes.clear();
        self.bound = NO_BOUND;
    }

    /// Settles nodes from the source on, the nearest first, up to the first that lacks a unit. None where there is
    /// none that can be reached.
    pub fn explore(
        &mut self,
        residual: &Residual,
        prices: &[i64],
        surplus: &[i64],
        source: u32,
    ) -> Option<u32>
        requires small { IsSmall residual.now prices.now }
        requires sign_rule { HasSignRule residual.now prices.now }
        requires each_node { length surplus.now ≡ residual.now.graph.nodes }
        requires source { source < residual.now.graph.nodes }
        requires has_enough { ¬ (Lacks surplus.now source) }
        requires fresh { AreFresh residual.now.graph.nodes (lists_of self.old) }
        requires space { residual.now.graph.nodes ≤ vec_capacity self.old.order }
        requires no_bound { self.old.bound ≡ NO_BOUND }
        ensures found { MatchOption result
            (IsOver residual.now prices.now surplus.now source (lists_of self.new))
            (IsReached residual.now prices.now surplus.now source (lists_of self.new)) }
        ensures node { IfSome result (λ goal. goal < residual.now.graph.nodes) }
        ensures space { vec_capacity self.old.order ≤ vec_capacity self.new.order }
        ensures residual { IsResidual residual.now }
    {
        self.settle(source, 0);
        self.expand(residual, prices, surplus, source, 0);
        while let Some((node, distance)) = self.settle_next() {
            if surplus[node as usize] < 0 {
                return Some(node);
            }
            self.expand(residual, prices, surplus, node, distance);
        }
        None
    }

    /// Settles the nearest node that waits, and gives it and its distance.
    fn settle_next(&mut self) -> Option<(u32, i64)>
        requires listed { AreListed (length self.old.nodes.waiting) (lists_of self.old) }
        requires few { length self.old.nodes.waiting ≤ MAX_SEARCH_NODES }
        requires space { length self.old.nodes.waiting ≤ vec_capacity self.old.order }
        requires unsettled { (v : ℕ) (key : ℤ) → waiting_at (lists_of self.old) v ≡ Some key
            → settled_at (lists_of self.old) v ≡ None }
        ensures next { MatchOption result (IsEmpty self.old.nodes.waiting)
            (λ t. IsLeast self.old.nodes.waiting t.0 t.1) }
        ensures lists { MatchOption result (lists_of self.new ≡ lists_of self.old)
            (λ t. lists_of self.new ≡ settle_in (lists_of self.old) t.0 t.1) }
        ensures node { IfSome result (λ t. t.0 < length self.old.nodes.waiting) }
        ensures space { vec_capacity self.old.order ≤ vec_capacity self.new.order }
        ensures bound { self.new.bound ≡ self.old.bound }
    {
        let (node, distance) = self.nodes.take()?;
        self.settle(node, distance);
        Some((node, distance))
    }

    /// Settles a node, which doesn't wait, at a distance.
    fn settle(&mut self, node: u32, distance: i64)
        requires node { node < length self.old.nodes.waiting }
        requires taken { waiting_at (lists_of self.old) node ≡ None }
        requires few { length self.old.order.items < MAX_SEARCH_NODES }
        requires space { length self.old.order.items < vec_capacity self.old.order }
        ensures settled { self.new.nodes.settled ≡ set self.old.nodes.settled node
            (Some (record { distance = distance; place = length self.old.order.items })) }
        ensures order { self.new.order.items ≡ self.old.order.items ++ node ∷ [] }
        ensures waiting { self.new.nodes.waiting ≡ self.old.nodes.waiting }
        ensures steps { self.new.nodes.steps ≡ self.old.nodes.steps }
        ensures space { vec_capacity self.old.order ≤ vec_capacity self.new.order }
        ensures bound { self.new.bound ≡ self.old.bound }
    {
        let place = self.order.len() as u32;
        self.nodes.settle(node, Settled { distance, place });
        let _ = self.order.push(node);
    }

    /// Relaxes all steps from a node that is settled at this distance, the farthest so far.
    fn expand(
        &mut self,
        residual: &Residual,
        prices: &[i64],
        surplus: &[i64],
        node: u32,
        distance: i64,
    )
        requires small { IsSmall residual.now prices.now }
        requires sign_rule { HasSignRule residual.now prices.now }
        requires labels { AreLabels residual.now prices.now (lists_of self.old) }
        requires node { node < residual.now.graph.nodes }
        requires from { IsSettledAt (lists_of self.old) node distance }
        requires farthest { IsFarthest (lists_of self.old) distance }
        requires each_node { length surplus.now ≡ residual.now.graph.nodes }
        requires bound { IsBound surplus.now (lists_of self.old) self.old.bound }
        ensures bound { IsBound surplus.now (lists_of self.new) self.new.bound }
        ensures labels { AreLabels residual.now prices.now (lists_of self.new) }
        ensures lowered { IsLowered (lists_of self.old) (lists_of self.new) }
        ensures relaxed { (s : Step)
            → IsRelaxed residual.now prices.now surplus.now (lists_of self.new) node distance s }
        ensures order { self.new.order ≡ self.old.order }
        ensures residual { IsResidual residual.now }
    {
        let departure = Departure {
            node,
            distance,
            price: prices[node as usize],
        };
        self.relax_from(residual, prices, surplus, departure);
    }

    /// Whether a node that lacks a unit was found that is no farther than this.
    fn is_past(&self, label: i64) -> bool
        ensures { IsTrue result ↔ self.now.bound ≤ℤ label }
    {
        self.bound <= label
    }

    /// The node that a step reaches is given the distance along it, where that is less than what it has. It also has to
    /// be less than the distance of a node that lacks a unit, since no node farther than that is settled. A settled
    /// node has no more than the distance along an open step.
    #[inline(always)]
    fn relax(
        &mut self,
        residual: &Residual,
        prices: &[i64],
        surplus: &[i64],
        departure: Departure,
        step: Step,
    )
        requires arc { arc_no step < length residual.now.graph.arcs }
        requires small { IsSmall residual.now prices.now }
        requires sign_rule { HasSignRule residual.now prices.now }
        requires labels { AreLabels residual.now prices.now (lists_of self.old) }
        requires from { IsSettledAt (lists_of self.old) (from_of residual.now step)
            departure.distance }
        requires price { departure.price ≡ price_at prices.now (from_of residual.now step) }
        requires farthest { IsFarthest (lists_of self.old) departure.distance }
        requires each_node { length surplus.now ≡ residual.now.graph.nodes }
        requires bound { IsBound surplus.now (lists_of self.old) self.old.bound }
        ensures bound { IsBound surplus.now (lists_of self.new) self.new.bound }
        ensures relaxes { Relaxes residual.now prices.now surplus.now step departure.distance
            (lists_of self.old) (lists_of self.new) }
        ensures order { self.new.order ≡ self.old.order }
    {
        let node = residual.to(step);
        let label = self.along(residual, prices, departure, step);
        if self.is_past(label) {
            return;
        }
        if !self.nodes.is_farther(node, label) {
            return;
        }
        if residual.is_open(step) {
            self.lower(node, label, step);
            self.note(surplus, node, label);
        }
    }

    /// Where a node lacks a unit, none farther than it is of use.
    fn note(&mut self, surplus: &[i64], node: u32, label: i64)
        requires node { node < length surplus.now }
        requires covers { Covers (lists_of self.old) node label }
        requires bound { IsBound surplus.now (lists_of self.old) self.old.bound }
        ensures bound { IsBound surplus.now (lists_of self.new) self.new.bound }
        ensures lists { lists_of self.new ≡ lists_of self.old }
        ensures order { self.new.order ≡ self.old.order }
    {
        if surplus[node as usize] < 0 {
            self.bound = label;
        }
    }

    /// Gives a node a lesser distance, along this step.
    #[inline(always)]
    fn lower(&mut self, node: u32, label: i64, step: Step)
        requires node { node < length self.old.nodes.waiting }
        requires unsettled { settled_at (lists_of self.old) node ≡ None }
        requires better { IsBetter (lists_of self.old) node label }
        ensures lists { lists_of self.new ≡ lowered (lists_of self.old) node label step }
        ensures order { self.new.order ≡ self.old.order }
        ensures bound { self.new.bound ≡ self.old.bound }
    {
        self.nodes.lower(node, label, step);
    }

    /// The distance along a step.
    fn along(&self, residual: &Residual, prices: &[i64], departure: Departure, step: Step) -> i64
        requires arc { arc_no step < length residual.now.graph.arcs }
        requires small { IsSmall residual.now prices.now }
        requires labels { AreLabels residual.now prices.now (lists_of self.now) }
        requires from { IsSettledAt (lists_of self.now) (from_of residual.now step)
            departure.distance }
        requires price { departure.price ≡ price_at prices.now (from_of residual.now step) }
        ensures { result ≡ departure.distance +ℤ reduced residual.now prices.now step }
    {
        let base = departure.distance + departure.price;
        let away = base + residual.cost(step);
        away - prices[residual.to(step) as usize]
    }

    /// Relaxes all steps from a settled node, the farthest so far.
    #[tactic(auto, using(crate::proofs::labelling::Lowering::both_ways))]
    #[inline(always)]
    fn relax_from(
        &mut self,
        residual: &Residual,
        prices: &[i64],
        surplus: &[i64],
        departure: Departure,
    )
        requires small { IsSmall residual.now prices.now }
        requires sign_rule { HasSignRule residual.now prices.now }
        requires labels { AreLabels residual.now prices.now (lists_of self.old) }
        requires node { departure.node < residual.now.graph.nodes }
        requires from { IsSettledAt (lists_of self.old) departure.node departure.distance }
        requires price { departure.price ≡ price_at prices.now departure.node }
        requires farthest { IsFarthest (lists_of self.old) departure.distance }
        requires each_node { length surplus.now ≡ residual.now.graph.nodes }
        requires bound { IsBound surplus.now (lists_of self.old) self.old.bound }
        ensures bound { IsBound surplus.now (lists_of self.new) self.new.bound }
        ensures labels { AreLabels residual.now prices.now (lists_of self.new) }
        ensures lowered { IsLowered (lists_of self.old) (lists_of self.new) }
        ensures relaxed { IsRelaxedFrom residual.now prices.now surplus.now (lists_of self.new)
            departure.node departure.distance }
        ensures order { self.new.order ≡ self.old.order }
        ensures residual { IsResidual residual.now }
    {
        self.relax_along(residual, prices, surplus, departure, Way::Forward);
        self.relax_along(residual, prices, surplus, departure, Way::Back);
    }

    /// Relaxes the steps that go this way from a settled node, the farthest so far.
    #[inline(always)]
    fn relax_along(
        &mut self,
        residual: &Residual,
        prices: &[i64],
        surplus: &[i64],
        departure: Departure,
        way: Way,
    )
        requires small { IsSmall residual.now prices.now }
        requires sign_rule { HasSignRule residual.now prices.now }
        requires labels { AreLabels residual.now prices.now (lists_of self.old) }
        requires node { departure.node < residual.now.graph.nodes }
        requires from { IsSettledAt (lists_of self.old) departure.node departure.distance }
        requires price { departure.price ≡ price_at prices.now departure.node }
        requires farthest { IsFarthest (lists_of self.old) departure.distance }
        requires each_node { length surplus.now ≡ residual.now.graph.nodes }
        requires bound { IsBound surplus.now (lists_of self.old) self.old.bound }
        ensures bound { IsBound surplus.now (lists_of self.new) self.new.bound }
        ensures labels { AreLabels residual.now prices.now (lists_of self.new) }
        ensures lowered { IsLowered (lists_of self.old) (lists_of self.new) }
        ensures relaxed { IsRelaxedAlong residual.now prices.now surplus.now (lists_of self.new)
            departure.node departure.distance way }
        ensures order { self.new.order ≡ self.old.order }
        ensures residual { IsResidual residual.now }
    {
        for k in residual.open_along(way, departure.node) {
            self.relax(residual, prices, surplus, departure, way.step(*k));
        }
    }
}

/// Forgets that these nodes are settled, which are all that are.
fn forget(heap: &mut NodeHeap, nodes: &[u32])
    requires within { (i : ℕ) → i < length nodes.now
        → slice_index nodes.now i < length heap.old.waiting }
    requires all { (v : ℕ) (a : Settled) → slice_index_or heap.old.settled v None ≡ Some a
        → (i : ℕ) × (i < length nodes.now) × (slice_index nodes.now i ≡ v) }
    ensures settled { heap.new.settled ≡ replicate (length heap.old.settled) None }
    ensures waiting { heap.new.waiting ≡ heap.old.waiting }
    ensures steps { heap.new.steps ≡ heap.old.steps }
{
    for node in nodes {
        heap.unsettle(*node);
    }
}
