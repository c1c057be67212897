//! What is kept for the nets of the layers from one call to the next.

ghost use Rattle.std.specs.Prelude.{◌≡◌, ◌≤◌, IfOk, IsTrue, OnOk, length};
ghost use Rattle.vs_ship.specs.Shipments.{IsSized};
ghost use Rattle.vs_ship.specs.Works.{IsKeptFor, IsMadeFor, IsReadyAt, IsReadyFor, IsRenewedAt, IsUnsettled};

use crate::mirror::{is_like_mirror, is_mirror, mirror_of};
use crate::shipment::Shipment;
use crate::space::Space;
use crate::start::Start;
use std::alloc::Global;
use std::mem::swap;
use vs_layer::{Flow, Net};
use vs_match::LayerNet;
use vs_path::{Costs, Loads, Search};
use vs_types::Memory;

/// What is kept for a net: the units that were sent last, and what a call can begin with instead. The searches, the
/// arcs that carry units, the net turned round and space to work in are kept too.
#[derive(Drop)]
pub struct Kept {
    pub shipment: Shipment,
    /// Whether it is known that a call for this very net settled the units and prices of the shipment.
    pub is_settled: bool,
    pub before: Start,
    /// Whether it is known that a call for this very net settled the units and prices that were there before.
    pub was_settled: bool,
    pub search: Search,
    pub loads: Loads,
    pub mirror: Net,
    pub space: Space,
}

/// What calls keep for the nets of the layers. It decides only how long a call takes, so a call
/// asks nothing of it.
#[derive(Drop)]
pub struct Work {
    /// For each net in their order, and then for those for which a place was made.
    pub kept: Vec<Kept>,
}

impl Kept {
    /// A start for a net.
    fn new(alloc: Global, net: &Net) -> Result<Kept, Memory>
        ensures kept { IfOk result (IsKeptFor net.now) }
        ensures new { IfOk result IsUnsettled }
    {
        Ok(Kept {
            shipment: empty_shipment(alloc, net)?,
            is_settled: false,
            before: Start::new(alloc, net)?,
            was_settled: false,
            search: Search::new(alloc, net.nodes())?,
            loads: Loads::new(alloc, net.nodes())?,
            mirror: mirror_of(alloc, net)?,
            space: Space::new(alloc, net.nodes())?,
        })
    }

    /// Whether it can be used for this net. It is made for another one only where the two are as large, and alike at
    /// some arcs.
    fn is_of(&self, net: &Net) -> bool
        ensures { IsTrue result → IsReadyFor net.now self.now }
    {
        is_sized(&self.shipment, net)
            && self.before.is_of(net)
            && self.search.nodes() == net.nodes() as usize
            && self.loads.nodes() == net.nodes() as usize
            && self.space.is_for(net.nodes())
            && is_like_mirror(&self.mirror, net)
    }

    /// Makes the net turned round where that which is kept is another's.
    pub fn turn(&mut self, alloc: Global, net: &Net) -> Result<(), Memory>
        requires { IsReadyFor net.now self.old }
        ensures { OnOk result (IsKeptFor net.now self.new) }
    {
        if !is_mirror(&self.mirror, net) {
            self.mirror = mirror_of(alloc, net)?;
        }
        Ok(())
    }

    /// Lets it be for this net, and forgets which units and prices were settled.
    fn renew(&mut self, alloc: Global, net: &Net) -> Result<(), Memory>
        ensures ready { OnOk result (IsReadyFor net.now self.new) }
        ensures new { OnOk result (IsUnsettled self.new) }
    {
        if !self.is_of(net) {
            *self = Kept::new(alloc, net)?;
        }
        self.is_settled = false;
        self.was_settled = false;
        Ok(())
    }

    /// Exchanges the units and prices that the last call left with those that the one before it did.
    pub fn exchange(&mut self)
        ensures units { self.new.shipment.flow.units ≡ self.old.before.units }
        ensures prices { self.new.shipment.prices ≡ self.old.before.prices }
        ensures before_units { self.new.before.units ≡ self.old.shipment.flow.units }
        ensures before_prices { self.new.before.prices ≡ self.old.shipment.prices }
        ensures is_settled { self.new.is_settled ≡ self.old.was_settled }
        ensures was_settled { self.new.was_settled ≡ self.old.is_settled }
        ensures costs { self.new.shipment.costs ≡ self.old.shipment.costs }
        ensures surplus { self.new.shipment.surplus ≡ self.old.shipment.surplus }
        ensures search { self.new.search ≡ self.old.search }
        ensures loads { self.new.loads ≡ self.old.loads }
        ensures mirror { self.new.mirror ≡ self.old.mirror }
        ensures space { self.new.space ≡ self.old.space }
    {
        swap(&mut self.shipment.flow.units, &mut self.before.units);
        swap(&mut self.shipment.prices, &mut self.before.prices);
        swap(&mut self.is_settled, &mut self.was_settled);
    }
}

impl Work {
    /// What calls for these nets keep, one place for each in their order, and space for them. A call for a net that has
    /// no place makes one.
    pub fn new(alloc: Global, nets: &[LayerNet]) -> Result<Work, Memory>
        ensures { IfOk result (IsMadeFor nets.now) }
    {
        let mut kept = Vec::with_capacity(alloc, nets.len())?;
        for net in nets {
            let start = Kept::new(alloc, net.net())?;
            kept.push(start)?;
        }
        Ok(Work { kept })
    }

    /// What was done so far in the nets for which something is kept, in settled nodes.
    pub fn effort(&self) -> u64 {
        let mut effort: u64 = 0;
        for kept in &self.kept {
            effort = effort.saturating_add(kept.search.effort());
        }
        effort
    }

    /// The place of what is kept for a net, which is made where there is none.
    pub fn place_of(&mut self, alloc: Global, net: &Net) -> Result<usize, Memory>
        ensures { IfOk result (λ place. IsReadyAt net.now self.new.kept.items place) }
    {
        for (place, kept) in self.kept.iter().enumerate() {
            if kept.is_of(net) {
                return Ok(place);
            }
        }
        self.add(alloc, net)
    }

    /// Lets what is kept at a place be for a net, and forgets which units and prices were settled there. A place after
    /// all others is made.
    pub fn renew(&mut self, alloc: Global, place: usize, net: &Net) -> Result<(), Memory>
        requires { place ≤ length self.old.kept.items }
        ensures { OnOk result (IsRenewedAt net.now self.old.kept.items self.new.kept.items place) }
    {
        if place < self.kept.len() {
            return self.kept[place].renew(alloc, net);
        }
        let kept = Kept::new(alloc, net)?;
        self.kept.push(kept)?;
        Ok(())
    }

    /// Keeps a start for a net, at the last place.
    fn add(&mut self, alloc: Global, net: &Net) -> Result<usize, Memory>
        ensures { IfOk result (λ place. IsReadyAt net.now self.new.kept.items place) }
    {
        let place = self.kept.len();
        let kept = Kept::new(alloc, net)?;
        self.kept.push(kept)?;
        Ok(place)
    }
}

/// No units, at prices of 0.
fn empty_shipment(alloc: Global, net: &Net) -> Result<Shipment, Memory>
    ensures { IfOk result (IsSized net.now) }
{
    let arcs = net.arcs() as usize;
    let nodes = net.nodes() as usize;
    let costs = no_costs(alloc, arcs)?;
    Ok(Shipment {
        flow: Flow {
            units: vec![in alloc; 0; arcs]?,
        },
        costs,
        prices: vec![in alloc; 0; nodes]?,
        surplus: vec![in alloc; 0; nodes]?,
    })
}

/// So many arcs that cost nothing and take nothing.
fn no_costs(alloc: Global, arcs: usize) -> Result<Costs, Memory>
    ensures cost { IfOk result (λ costs. length costs.cost.items ≡ arcs) }
    ensures room { IfOk result (λ costs. length costs.room.items ≡ arcs) }
{
    Ok(Costs {
        cost: vec![in alloc; 0; arcs]?,
        room: vec![in alloc; 0; arcs]?,
    })
}

/// Whether a shipment has a number for each arc and for each node of the net.
fn is_sized(shipment: &Shipment, net: &Net) -> bool
    ensures { IsTrue result → IsSized net.now shipment.now }
{
    let arcs = net.arcs() as usize;
    let nodes = net.nodes() as usize;
    shipment.flow.units.len() == arcs
        && shipment.costs.cost.len() == arcs
        && shipment.costs.room.len() == arcs
        && shipment.prices.len() == nodes
        && shipment.surplus.len() == nodes
}
