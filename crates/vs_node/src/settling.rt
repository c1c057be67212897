//! What is known of the plans in which each trip is run in the one layer of its set.
ghost use Rattle.std.specs.Prelude.{◌≡◌, ◌<◌, length, IfOk};
ghost use Rattle.vs_instance.specs.Restriction.{IsRestriction};
ghost use Rattle.vs_types.specs.declared.numbers.TheConstants.{MAX_LAYERS};
ghost use Rattle.vs_match.specs.LawfulNets.{IsLawful};
ghost use Rattle.vs_match.specs.LayerNets.{AreLayerNets};
ghost use Rattle.vs_prices.specs.Table.{Fits, HoldingTable};
ghost use Rattle.vs_circ.specs.Circulations.{IsFixed};
ghost use Rattle.vs_node.specs.ChosenLayers.{AreSingle};
ghost use Rattle.vs_node.specs.LayersDone.{must_in};
ghost use Rattle.vs_node.specs.LeastPlans.{ShowsPlan};

use crate::layers_run::LayersRun;
use crate::ray_table::ray_table;
use std::alloc::Global;
use vs_circ::{FixedFlow, Work, fixed};
use vs_instance::{Instance, MAX_LAYERS};
use vs_match::LayerNet;
use vs_plan::{CheckedPlan, Plan};
use vs_prices::Table;
use vs_types::{LayerNo, LayerSet, Memory};

/// What is known of the plans in which each trip is run in the one layer of its set.
#[derive(Drop)]
pub struct Settled {
    /// Prices that show what such plans cost at least, or that there are none.
    pub table: Table,
    /// A plan of that cost.
    pub plan: Option<CheckedPlan>,
}

/// A least plan within sets of one layer each, with prices that show that none costs less, or prices that show that
/// there is none.
pub fn settle(
    alloc: Global,
    instance: &Instance,
    nets: &[LayerNet],
    sets: &[LayerSet],
    work: &mut Work,
) -> Result<Settled, Memory>
    requires nets { AreLayerNets instance.now nets.now }
    requires restriction { IsRestriction instance.now sets.now }
    requires single { AreSingle sets.now }
    ensures fits { IfOk result (λ settled. Fits instance.now settled.table) }
    ensures holds { IfOk result (λ settled. HoldingTable instance.now settled.table) }
    ensures shows { IfOk result (λ settled.
        ShowsPlan instance.now sets.now settled.table settled.plan) }
{
    let mut run = LayersRun::new(alloc, instance)?;
    let mut must = vec![in alloc; false; sets.len()]?;
    for l in 0..instance.layers() {
        let l = LayerNo(l);
        let net = &nets[l.0 as usize];
        let answer = fixed_in(alloc, instance, l, net, sets, &mut must, work)?;
        match answer {
            FixedFlow::Covered {
                flow,
                prices,
                cost: _,
            } => run.add(alloc, instance, l, net, &flow, &prices)?,
            FixedFlow::Short { prices } => {
                let table = ray_table(alloc, instance, l, &prices)?;
                return Ok(Settled { table, plan: None });
            }
        }
    }
    let plan = CheckedPlan::of(instance, Plan { blocks: run.blocks });
    Ok(Settled {
        table: run.table,
        plan: Some(plan),
    })
}

/// A least circulation of the layer's net that runs exactly the trips that have the layer in their sets. Where there is
/// none, prices that show it. Which trips these are is marked in the buffer.
fn fixed_in(
    alloc: Global,
    instance: &Instance,
    l: LayerNo,
    net: &LayerNet,
    sets: &[LayerSet],
    must: &mut [bool],
    work: &mut Work,
) -> Result<FixedFlow, Memory>
    requires lawful { IsLawful instance.now l.0 net.now }
    requires restriction { IsRestriction instance.now sets.now }
    requires size { length must.old ≡ length sets.now }
    ensures { IfOk result (IsFixed instance.now l net.now (must_in sets.now l.0)) }
{
    prove!(instance.layers() <= MAX_LAYERS);
    mark(sets, l, must);
    fixed(alloc, net, must, work)
}

/// Marks the trips that have the layer in their sets.
fn mark(sets: &[LayerSet], l: LayerNo, must: &mut [bool])
    requires size { length must.old ≡ length sets.now }
    requires layer { l.0 < MAX_LAYERS }
    ensures { must.new ≡ must_in sets.now l.0 }
{
    for i in 0..must.len() {
        must[i] = sets[i].has(l);
    }
}
