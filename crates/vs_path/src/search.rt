//! A search from a node for the nearest one that lacks a unit, and prices raised to what least paths cost.

ghost use Rattle.std.specs.Prelude.{◌≡◌, ℕ, ◌<◌, ◌≤◌, ◌≤ℤ◌, pos, length, slice_index, IfOk, MatchOption, vec_capacity};
ghost use Rattle.vs_path.specs.Residual.{HasSignRule, price_at};
ghost use Rattle.vs_path.specs.Labels.{IsSmall, Lacks};
ghost use Rattle.vs_path.specs.Raising.{HasSpan, IsRaised};
ghost use Rattle.vs_path.specs.Search.{IsCut, IsGoal};

use crate::labels::Labels;
use crate::residual::Residual;
use std::alloc::Global;
use std::marker::Model;
use vs_queue::Step;
use vs_types::Memory;

/// How far apart two prices that are to be raised lie at most, some five times as far as a path costs.
pub const MAX_SPAN: i64 = 4_000_000_000_000_000_000;

/// The most by which a price is raised: `MAX_SPAN`, and what a path costs through as many nodes as a net has at most.
pub const MOST_RAISED: i64 = 4_800_000_000_000_000_000;

/// Searches from a node for the nearest one that lacks a unit, by reduced costs.
#[derive(Drop)]
pub struct Search {
    labels: Labels,
    /// The steps of the path that was found last, the last step first.
    path: Vec<Step>,
    /// By node 0: no node lacks a unit, so a search goes on to the end.
    zeros: Vec<i64>,
    /// What was done so far, in nodes that were settled.
    effort: u64,
}

impl Model for Search {
    ghost use Rattle.std.specs.Prelude.{vec_capacity};
    ghost use Rattle.vs_path.specs.Search.{Outcome};
    ghost use Rattle.vs_path.specs.Searchable.{outcome_of, CanSearch};

    ghost Value = { Outcome };

    ghost view = { λ s. outcome_of s.labels s.path.items };

    ghost invariant = { λ s.
        CanSearch s.labels (vec_capacity s.labels.order) (vec_capacity s.path) s.zeros.items };
}

impl Search {
    /// A search in nets of so many nodes.
    pub fn new(alloc: Global, nodes: u32) -> Result<Search, Memory>
        requires { 0 < nodes }
        ensures { IfOk result (λ search. search.nodes ≡ nodes) }
    {
        let labels = Labels::new(alloc, nodes)?;
        Ok(Search {
            labels,
            path: Vec::with_capacity(alloc, nodes as usize)?,
            zeros: vec![in alloc; 0; nodes as usize]?,
            effort: 0,
        })
    }

    /// What was done so far: the nodes that `find` settled, one more for each call of it, and what was added for other
    /// work. It stays at the greatest number that fits.
    pub fn effort(&self) -> u64 {
        self.effort
    }

    /// Counts other work, as so many settled nodes.
    pub fn add_effort(&mut self, nodes: u64)
        ensures { self.new ≡ self.old }
    {
        self.effort = self.effort.saturating_add(nodes);
    }

    /// Finds the nearest node that lacks a unit, whose surplus is less than 0. It lowers the prices of the nodes that
    /// are nearer, so that the steps to it cost nothing. None where no such node can be reached; then no price changes.
    /// A search costs what it reaches, and counts that as effort.
    pub fn find(
        &mut self,
        residual: &Residual,
        surplus: &[i64],
        source: u32,
        prices: &mut [i64],
    ) -> Option<u32>
        requires nodes { self.old.nodes ≡ residual.now.graph.nodes }
        requires small { IsSmall residual.now prices.old }
        requires sign_rule { HasSignRule residual.now prices.old }
        requires each_node { length surplus.now ≡ residual.now.graph.nodes }
        requires source { source < residual.now.graph.nodes }
        requires has_enough { ¬ (Lacks surplus.now source) }
        ensures found { MatchOption result (IsCut residual.now surplus.now source self.new.reached)
            (IsGoal residual.now surplus.now source prices.old prices.new self.new.path) }
        ensures else_same { MatchOption result (prices.new ≡ prices.old)
            (λ goal. goal < residual.now.graph.nodes) }
        ensures nodes { self.new.nodes ≡ self.old.nodes }
    {
        self.labels.clear();
        let found = self.labels.explore(residual, prices, surplus, source);
        let settled = self.labels.order.len() as u64;
        self.effort = self.effort.saturating_add(settled).saturating_add(1);
        let goal = found?;
        self.labels.trace(residual, prices, goal, &mut self.path);
        self.labels.lower_prices(goal, prices);
        Some(goal)
    }

    /// Raises the price of each node that can be reached by its least distance from the source by reduced costs. Raises
    /// the price of each other node by `beyond`, or by the greatest distance where that is more. The prices keep the
    /// sign rule, and those of the nodes that can be reached show what a least path from the source costs.
    pub fn raise(&mut self, residual: &Residual, source: u32, beyond: i64, prices: &mut [i64])
        requires nodes { self.old.nodes ≡ residual.now.graph.nodes }
        requires small { IsSmall residual.now prices.old }
        requires span { HasSpan MAX_SPAN prices.old }
        requires sign_rule { HasSignRule residual.now prices.old }
        requires source { source < residual.now.graph.nodes }
        requires some { pos 0 ≤ℤ beyond }
        requires beyond { beyond ≤ℤ MOST_RAISED }
        ensures raised { IsRaised residual.now source beyond prices.old prices.new }
        ensures sign_rule { HasSignRule residual.now prices.new }
        ensures source { price_at prices.new source ≡ price_at prices.old source }
        ensures nodes { self.new.nodes ≡ self.old.nodes }
    {
        self.labels.clear();
        let _ = self.labels.explore(residual, prices, &self.zeros, source);
        let rise = self.labels.greatest_distance(beyond);
        self.labels.raise_prices(rise, prices);
    }

    /// How many nodes the nets have in which it searches.
    pub fn nodes(&self) -> usize
        ensures { result ≡ self.now.nodes }
    {
        self.labels.nodes.len()
    }

    /// The steps of the path that was found last, the last step first.
    pub fn path(&self) -> &[Step]
        ensures { result.now ≡ self.now.path }
    {
        &self.path
    }

    /// The nodes that were reached last, each once, the source first.
    pub fn reached(&self) -> &[u32]
        ensures reached { result.now ≡ self.now.reached }
        ensures nodes { (i : ℕ) → i < length result.now
            → slice_index result.now i < self.now.nodes }
    {
        &self.labels.order
    }
}
