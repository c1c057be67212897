//! How few vehicles a layer needs, with blocks that run all that it may run and prices that show that fewer can't.

ghost use Rattle.std.specs.Prelude.{◌<◌, length, IfOk};
ghost use Rattle.vs_peakcheck.specs.Counting.{counting};
ghost use Rattle.vs_prices.specs.Table.{Fits, HoldingTable};
ghost use Rattle.vs_peak.specs.Peaks.{IsPeakOf, IsShown};

use std::alloc::Global;
use vs_circ::Work;
use vs_instance::Instance;
use vs_match::layer_nets;
use vs_node::{Settled, settle};
use vs_peakcheck::counting;
use vs_plan::CheckedPlan;
use vs_prices::{Table, permitted_sets};
use vs_types::{LayerNo, Memory};

/// How few vehicles a layer needs for all that it may run, in the numbers of the instance that counts its vehicles.
#[derive(Drop)]
pub enum LayerPeak {
    /// A plan of as few blocks as there can be, and a cost table that is worth that many.
    Least { plan: CheckedPlan, table: Table },
    /// No number of vehicles is enough, as the ray shows.
    NoList { table: Table },
}

/// How few vehicles layer l needs to run each trip that it may run, whatever its fleet.
pub fn peak(alloc: Global, instance: &Instance, l: LayerNo) -> Result<LayerPeak, Memory>
    requires { l.0 < length instance.now.layers }
    ensures { IfOk result (IsPeakOf instance.now l) }
{
    // for the proof: the instance is within its limits
    let _layers = instance.layers();
    let counted = counting(alloc, instance, l)?;
    let nets = layer_nets(alloc, &counted)?;
    let own_sets = permitted_sets(alloc, &counted)?;
    let sets = own_sets.as_slice();
    let mut work = Work::new(alloc, &nets)?;
    let settled = settle(alloc, &counted, &nets, sets, &mut work)?;
    let Settled { plan, table } = settled;
    match plan {
        None => Ok(LayerPeak::NoList { table }),
        Some(plan) => {
            let shown = cost_table(alloc, &counted, table)?;
            Ok(LayerPeak::Least { plan, table: shown })
        }
    }
}

/// The table, or where it is a ray, which it may be only where there are no trips, the cost table of zeros.
fn cost_table(alloc: Global, counted: &Instance, table: Table) -> Result<Table, Memory>
    requires fits { Fits counted.now table }
    requires holds { HoldingTable counted.now table }
    ensures { IfOk result (IsShown counted.now table) }
{
    if table.ray {
        Table::zero(alloc, counted)
    } else {
        Ok(table)
    }
}
