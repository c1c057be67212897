//! What is at hand for the steps of a trace.

ghost use Rattle.std.specs.Prelude.{IfOk};
ghost use Rattle.vs_need.specs.Nets.{AreNets};
ghost use Rattle.vs_replay.specs.Making.{Suits};

use std::alloc::Global;
use vs_instance::Instance;
use vs_match::LayerNet;
use vs_need::{Counted, Scratch};
use vs_prices::{Table, permitted_sets};
use vs_types::{LayerSet, Memory};

/// What is at hand for all steps. These are the nets of the layers, by which tables are judged, and room for the layers
/// and the prices of a leaf.
#[derive(Drop)]
pub struct Ground<'a> {
    pub nets: Counted<'a>,
    pub scratch: Scratch,
    /// The layers of each trip.
    pub sets: Vec<LayerSet>,
    pub table: Table,
}

impl<'a> Ground<'a> {
    /// For an instance with these nets.
    pub fn new(
        alloc: Global,
        instance: &Instance,
        nets: &'a [LayerNet],
    ) -> Result<Ground<'a>, Memory>
        requires { AreNets instance.now nets.now }
        ensures { IfOk result (Suits instance.now) }
    {
        let sets = permitted_sets(alloc, instance)?;
        let table = Table::zero(alloc, instance)?;
        let scratch = Scratch::new(alloc, nets, instance.trips())?;
        Ok(Ground {
            nets: Counted::new(nets),
            scratch,
            sets,
            table,
        })
    }
}
