//! Units and prices with which a call may begin.

ghost use Rattle.std.specs.Prelude.{◌≡◌, IfOk, IsTrue, length};
ghost use Rattle.vs_ship.specs.Works.{IsStartFor};

use crate::shipment::Shipment;
use std::alloc::Global;
use vs_layer::Net;
use vs_types::Memory;

/// Units on the arcs of a net and prices of its nodes, with which a call may begin.
#[derive(Drop)]
pub struct Start {
    pub units: Vec<u32>,
    /// In 1/1000 of a cost unit.
    pub prices: Vec<i64>,
}

impl Start {
    /// No units, at prices of 0.
    pub(crate) fn new(alloc: Global, net: &Net) -> Result<Start, Memory>
        ensures { IfOk result (IsStartFor net.now) }
    {
        Ok(Start {
            units: vec![in alloc; 0; net.arcs() as usize]?,
            prices: vec![in alloc; 0; net.nodes() as usize]?,
        })
    }

    /// Whether it has a number for each arc and for each node of the net.
    pub(crate) fn is_of(&self, net: &Net) -> bool
        ensures { IsTrue result → IsStartFor net.now self.now }
    {
        self.units.len() == net.arcs() as usize && self.prices.len() == net.nodes() as usize
    }

    /// Takes the units and prices of a shipment.
    pub fn take(&mut self, shipment: &Shipment)
        requires units { length self.old.units.items ≡ length shipment.now.flow.units.items }
        requires prices { length self.old.prices.items ≡ length shipment.now.prices.items }
        ensures units { self.new.units.items ≡ shipment.now.flow.units.items }
        ensures prices { self.new.prices.items ≡ shipment.now.prices.items }
    {
        self.units.copy_from_slice(&shipment.flow.units);
        self.prices.copy_from_slice(&shipment.prices);
    }
}
