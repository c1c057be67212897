//! A choice of a layer for each trip.

ghost use Rattle.std.specs.Prelude.{IfOk};
ghost use Rattle.vs_walk.specs.Choices.{IsDraftOf};

use std::alloc::Global;
use vs_types::{LayerSet, Memory};

/// A layer for each trip, and what each layer costs that runs just those.
#[derive(Drop)]
pub(crate) struct Draft {
    /// By trip: the set of its layer.
    pub layers: Vec<LayerSet>,
    /// By layer, in 1/1000 of a cost unit.
    pub costs: Vec<i64>,
}

impl Draft {
    /// Space for a choice.
    pub fn new(alloc: Global, trips: usize, layers: u32) -> Result<Draft, Memory>
        ensures { IfOk result (IsDraftOf trips layers) }
    {
        Ok(Draft {
            layers: vec![in alloc; LayerSet(0); trips]?,
            costs: vec![in alloc; 0; layers as usize]?,
        })
    }

    /// What all layers cost, in 1/1000 of a cost unit.
    pub fn cost(&self) -> i64 {
        let mut cost: i64 = 0;
        for of_layer in &self.costs {
            cost = cost.saturating_add(*of_layer);
        }
        cost
    }

    /// Whether another choice gives each trip to the same layer.
    pub fn is_like(&self, other: &Draft) -> bool {
        self.layers.as_slice() == other.layers.as_slice()
    }
}
