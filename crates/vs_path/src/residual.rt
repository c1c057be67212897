//! A net whose arcs carry units: which steps a unit more can take, and what they cost.

ghost use Rattle.std.specs.Prelude.{◌≡◌, ◌<◌, ◌≤◌, ◌↔◌, ◌≤ℤ◌, ◌+ℤ◌, ◌-ℤ◌, ◌^◌, pos, length, IsTrue};
ghost use Rattle.vs_path.specs.Loads.{AreAlong, AreLoads};
ghost use Rattle.vs_path.specs.declared.residual.Way.TheVariants.{Back};
ghost use Rattle.vs_path.specs.StepCosts.{most_step};
ghost use Rattle.vs_path.specs.Residual.{HasSignRule, IsResidual, IsOpen, IsWithin, AllWithin, arc_no, arcs_along, from_of, to_of, cost_of, reduced, step_along};

use crate::loads::Loads;
use std::marker::Model;
use vs_layer::{Flow, Net};
use vs_queue::Step;

/// How many nodes a net has at most in a search by prices: three for each trip, and the two of the depot.
pub const MAX_SEARCH_NODES: u32 = 30_002;

/// How many nodes a net of 2,000 trips has at most.
const USUAL_NODES: u32 = 6_002;

/// The greatest cost of an arc in a search by prices, either way, in 1/1000 of a cost unit. In nets of more than 6,002
/// nodes it is less (`most_step`).
pub const MAX_STEP_COST: i64 = 120_000_000_000_000;

/// What a path costs at most in a search by prices, either way, that comes to no node twice. It is in 1/1000 of a cost
/// unit.
pub const MAX_PATH_COST: i64 = 720_240_000_000_000_000;

/// The greatest price of a node in a search by prices, either way.
pub const MAX_SEARCH_PRICE: i64 = 4_000_000_000_000_000_000;

/// How many nodes a net has at most whose least paths are found whatever its prices.
pub const MAX_PATH_NODES: u32 = 40_000;

/// The greatest cost of an arc on such paths, either way.
pub const MAX_PATH_ARC_COST: i64 = 200_000_000_000_000;

/// The greatest cost of an arc in a search by prices of a net with so many nodes, either way. A path through all of
/// them costs no more than `MAX_PATH_COST`.
pub fn most_step(nodes: usize) -> i64
    requires { nodes ≤ MAX_SEARCH_NODES }
    ensures value { result ≡ pos (most_step nodes) }
    ensures limit { result ≤ℤ MAX_STEP_COST }
{
    MAX_PATH_COST / (nodes as i64).max(i64::from(USUAL_NODES))
}

/// What a unit costs on each arc of a net, and how many units each has room for, in the order of the arcs.
#[derive(Debug, Drop)]
pub struct Costs {
    /// In 1/1000 of a cost unit.
    pub cost: Vec<i64>,
    pub room: Vec<u32>,
}

/// Which way a step goes along an arc.
#[derive(Clone, Copy)]
pub enum Way {
    Forward,
    Back,
}

impl Way {
    /// The step that goes this way along an arc.
    pub fn step(self, arc: u32) -> Step
        ensures { result ≡ step_along self arc }
    {
        match self {
            Way::Forward => Step::Forward(arc),
            Way::Back => Step::Back(arc),
        }
    }
}

/// A net whose arcs carry units: which steps a unit more can take, and what they cost.
#[derive(Drop)]
pub struct Residual<'a> {
    net: &'a Net,
    /// By arc the node that it reaches.
    heads: &'a [u32],
    /// By arc how many units it carries.
    units: &'a [u32],
    /// By arc what a unit costs.
    cost: &'a [i64],
    /// By arc how many units it takes.
    room: &'a [u32],
    /// How many arcs may be used, from the first.
    arcs: u32,
    /// The arcs that carry units, where they are listed.
    loads: Option<&'a Loads>,
}

impl<'a> Model for Residual<'a> {
    ghost use Rattle.std.specs.Prelude.{IfSome};
    ghost use Rattle.vs_path.specs.Residual.{ResidualNet, AreHeads, IsResidual};
    ghost use Rattle.vs_path.specs.Loads.{AreLoads};

    ghost Value = { ResidualNet };

    ghost view = { λ r. record {
      graph = r.net.now;
      units = r.units.now;
      cost = r.cost.now;
      room = r.room.now;
      arcs = r.arcs;
    } };

    ghost invariant = { λ r. IsResidual (record {
      graph = r.net.now;
      units = r.units.now;
      cost = r.cost.now;
      room = r.room.now;
      arcs = r.arcs;
    }) × IfSome r.loads (λ loads. AreLoads r.net.now r.units.now loads.now)
        × AreHeads r.net.now r.heads.now };
}

impl<'a> Residual<'a> {
    /// The net with these units on its arcs, of which the first so many may be used.
    pub fn new(net: &'a Net, flow: &'a Flow, costs: &'a Costs, arcs: u32) -> Residual<'a>
        requires arcs { arcs ≤ length net.now.arcs }
        requires units { length flow.now.units.items ≡ length net.now.arcs }
        requires cost { length costs.now.cost.items ≡ length net.now.arcs }
        requires room { length costs.now.room.items ≡ length net.now.arcs }
        ensures { result ≡ record {
          graph = net.entry.now;
          units = flow.entry.now.units.items;
          cost = costs.entry.now.cost.items;
          room = costs.entry.now.room.items;
          arcs = arcs;
        } }
    {
        Residual {
            net,
            heads: net.heads(),
            units: &flow.units,
            cost: &costs.cost,
            room: &costs.room,
            arcs,
            loads: None,
        }
    }

    /// The same where the arcs that carry units are listed, all arcs of the net among those that may be used.
    pub fn loaded(net: &'a Net, flow: &'a Flow, costs: &'a Costs, loads: &'a Loads) -> Residual<'a>
        requires units { length flow.now.units.items ≡ length net.now.arcs }
        requires cost { length costs.now.cost.items ≡ length net.now.arcs }
        requires room { length costs.now.room.items ≡ length net.now.arcs }
        requires loads { AreLoads net.now flow.now.units.items loads.now }
        ensures { result ≡ record {
          graph = net.entry.now;
          units = flow.entry.now.units.items;
          cost = costs.entry.now.cost.items;
          room = costs.entry.now.room.items;
          arcs = length net.entry.now.arcs;
        } }
    {
        Residual {
            net,
            heads: net.heads(),
            units: &flow.units,
            cost: &costs.cost,
            room: &costs.room,
            arcs: net.arcs(),
            loads: Some(loads),
        }
    }

    /// How many arcs may be used, from the first.
    pub fn arcs(&self) -> u32
        ensures count { result ≡ self.now.arcs }
        ensures residual { IsResidual self.now }
    {
        self.arcs
    }

    /// The node that a step leaves.
    pub fn from(&self, step: Step) -> u32
        requires { arc_no step < length self.now.graph.arcs }
        ensures node { result ≡ from_of self.now step }
        ensures of_net { result < self.now.graph.nodes }
    {
        match step {
            Step::Forward(k) => self.net.arc(k).from,
            Step::Back(k) => self.net.arc(k).to,
        }
    }

    /// The node that a step reaches.
    pub fn to(&self, step: Step) -> u32
        requires { arc_no step < length self.now.graph.arcs }
        ensures node { result ≡ to_of self.now step }
        ensures of_net { result < self.now.graph.nodes }
    {
        match step {
            Step::Forward(k) => self.heads[k as usize],
            Step::Back(k) => self.net.arc(k).from,
        }
    }

    /// Whether a unit may take a step.
    pub fn is_open(&self, step: Step) -> bool
        requires { arc_no step < length self.now.graph.arcs }
        ensures { IsTrue result ↔ IsOpen self.now step }
    {
        match step {
            Step::Forward(k) => k < self.arcs && self.units[k as usize] < self.room[k as usize],
            Step::Back(k) => k < self.arcs && 0 < self.units[k as usize],
        }
    }

    /// What a step costs.
    pub fn cost(&self, step: Step) -> i64
        requires arc { arc_no step < length self.now.graph.arcs }
        requires cost { AllWithin MAX_PATH_ARC_COST self.now.cost }
        ensures cost { result ≡ cost_of self.now step }
        ensures few { IsWithin MAX_PATH_ARC_COST result }
    {
        match step {
            Step::Forward(k) => self.cost[k as usize],
            Step::Back(k) => -self.cost[k as usize],
        }
    }

    /// What a step costs, whatever it is.
    fn wide_cost(&self, step: Step) -> i128
        requires { arc_no step < length self.now.graph.arcs }
        ensures cost { result ≡ cost_of self.now step }
        ensures few { IsWithin (pos (2 ^ 63)) result }
    {
        match step {
            Step::Forward(k) => i128::from(self.cost[k as usize]),
            Step::Back(k) => -i128::from(self.cost[k as usize]),
        }
    }

    /// What a step costs, with the price of the node that it leaves, less that of the node that it reaches.
    pub fn reduced(&self, prices: &[i64], step: Step) -> i128
        requires arc { arc_no step < length self.now.graph.arcs }
        requires each_node { length prices.now ≡ self.now.graph.nodes }
        ensures { result ≡ reduced self.now prices.now step }
    {
        let from = prices[self.from(step) as usize];
        let to = prices[self.to(step) as usize];
        above(self.wide_cost(step), from, to)
    }

    /// The numbers of the arcs along which steps that go this way leave a node, in order.
    pub fn arcs_along(&self, way: Way, node: u32) -> &[u32]
        requires { node < self.now.graph.nodes }
        ensures arcs { result.now ≡ arcs_along self.now.graph way node }
        ensures residual { IsResidual self.now }
    {
        match way {
            Way::Forward => self.net.leaving(node),
            Way::Back => self.net.reaching(node),
        }
    }

    /// Arcs along which steps that go this way leave a node, among them all along which a unit may.
    pub fn open_along(&self, way: Way, node: u32) -> &[u32]
        requires { node < self.now.graph.nodes }
        ensures along { AreAlong self.now way node result.now }
        ensures residual { IsResidual self.now }
    {
        match way {
            Way::Forward => self.arcs_along(way, node),
            Way::Back => self.loaded_along(node),
        }
    }

    /// Arcs that reach a node, among them all that carry units.
    fn loaded_along(&self, node: u32) -> &[u32]
        requires { node < self.now.graph.nodes }
        ensures along { AreAlong self.now Back node result.now }
        ensures residual { IsResidual self.now }
    {
        if let Some(loads) = self.loads {
            if let Some(arcs) = loads.reaching(node) {
                return arcs;
            }
        }
        self.arcs_along(Way::Back, node)
    }

    /// Whether no residual step has a negative reduced cost.
    pub fn keeps_sign_rule(&self, prices: &[i64]) -> bool
        requires { length prices.now ≡ self.now.graph.nodes }
        ensures { IsTrue result ↔ HasSignRule self.now prices.now }
    {
        for k in 0..self.arcs {
            let forward = self.is_kept(prices, Step::Forward(k));
            if !forward {
                return false;
            }
            let back = self.is_kept(prices, Step::Back(k));
            if !back {
                return false;
            }
        }
        true
    }

    /// Whether a step has no negative reduced cost, or no unit may take it.
    fn is_kept(&self, prices: &[i64], step: Step) -> bool
        requires arc { arc_no step < length self.now.graph.arcs }
        requires each_node { length prices.now ≡ self.now.graph.nodes }
        ensures { IsTrue result
            ↔ (IsOpen self.now step → pos 0 ≤ℤ reduced self.now prices.now step) }
    {
        !self.is_open(step) || 0 <= self.reduced(prices, step)
    }
}

/// A cost with one price, less another. In 128 bits, since three numbers of 64 can add up to more than 64 have.
fn above(cost: i128, from: i64, to: i64) -> i128
    requires { IsWithin (pos (2 ^ 63)) cost }
    ensures { result ≡ (cost +ℤ from) -ℤ to }
{
    cost + i128::from(from) - i128::from(to)
}
