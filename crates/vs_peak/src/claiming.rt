//! What the peaks of layers claim.

ghost use Rattle.std.specs.Prelude.{◌<◌, length, IfOk};
ghost use Rattle.vs_instance.specs.Instance.{IsInstance};
ghost use Rattle.vs_peakcheck.specs.Claims.{CanBeChecked};
ghost use Rattle.vs_peakcheck.specs.HoldingClaims.{HoldingClaims, ProvePeaks};
ghost use Rattle.vs_peak.specs.Peaks.{IsPeakOf, ProvesPeak};

use crate::layer_peak::{LayerPeak, peak};
use std::alloc::Global;
use vs_instance::Instance;
use vs_peakcheck::Claimed;
use vs_types::{LayerNo, Memory};

/// What the peak of layer l claims: its count, its blocks and its table.
pub fn claim_of(alloc: Global, instance: &Instance, l: LayerNo, peak: LayerPeak) -> Claimed
    requires layer { l.0 < length instance.now.layers }
    requires peak { IsPeakOf instance.now l peak }
    ensures { ProvesPeak instance.now l result }
{
    // for the proof: the instance is within its limits
    let _layers = instance.layers();
    match peak {
        LayerPeak::Least { plan, table } => Claimed {
            count: Some(plan.cost() as u32),
            blocks: plan.into_plan().blocks,
            table,
        },
        LayerPeak::NoList { table } => Claimed {
            count: None,
            blocks: Vec::new(alloc),
            table,
        },
    }
}

/// What is claimed of each layer of an instance, in order: it holds, and each count is the layer's peak.
pub fn peaks(alloc: Global, instance: &Instance) -> Result<Vec<Claimed>, Memory>
    ensures checked { IfOk result (λ claimed. CanBeChecked instance.now claimed.items) }
    ensures holds { IfOk result (λ claimed. HoldingClaims instance.now claimed.items) }
    ensures proves { IfOk result (λ claimed. ProvePeaks instance.now claimed.items) }
{
    let mut all = Vec::new(alloc);
    for l in 0..instance.layers() {
        let of_layer = peak(alloc, instance, LayerNo(l))?;
        all.push(claim_of(alloc, instance, LayerNo(l), of_layer))?;
    }
    Ok(all)
}
