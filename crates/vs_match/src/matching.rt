//! The two ways to match arrivals with departures, and the nets by each of them.

ghost use Rattle.std.specs.Prelude.{◌<◌, IfOk, length};
ghost use Rattle.vs_match.specs.declared.matching.Matching.TheVariants.{First, Latest};
ghost use Rattle.vs_match.specs.LawfulNets.{IsLawful};
ghost use Rattle.vs_match.specs.LayerGraph.{IsNetOf};
ghost use Rattle.vs_match.specs.LayerNets.{AreNets};
ghost use Rattle.vs_match.specs.WalkLaw.{HasWalkLaw};

use crate::building::build;
use crate::layer_net::LayerNet;
use std::alloc::Global;
use vs_instance::Instance;
use vs_types::{LayerNo, Memory};

/// Which arrivals at a stop have a deadhead to a departure at another.
#[derive(Clone, Copy, Debug, PartialEq, Eq)]
pub enum Matching {
    /// All from which it is the first departure there that can be reached.
    First,
    /// Of these the latest.
    Latest,
}

/// A layer, and the matching by which its net is made.
#[derive(Clone, Copy)]
pub struct LayerMatching {
    pub l: LayerNo,
    pub matching: Matching,
}

/// The net of a layer by first match. Costs are in 1/1000 of a cost unit.
pub fn first_match(alloc: Global, instance: &Instance, l: LayerNo) -> Result<LayerNet, Memory>
    requires { l.0 < length instance.now.layers }
    ensures net { IfOk result (IsNetOf instance.now l.0 First) }
    ensures walks { IfOk result (HasWalkLaw instance.now l.0) }
    ensures lawful { IfOk result (IsLawful instance.now l.0) }
{
    build(alloc, instance, l, Matching::First)
}

/// The net of a layer by latest first match, in which an earlier arrival waits for the later one and leaves with
/// it. Costs are in 1/1000 of a cost unit.
pub fn latest_first_match(
    alloc: Global,
    instance: &Instance,
    l: LayerNo,
) -> Result<LayerNet, Memory>
    requires { l.0 < length instance.now.layers }
    ensures net { IfOk result (IsNetOf instance.now l.0 Latest) }
    ensures walks { IfOk result (HasWalkLaw instance.now l.0) }
    ensures lawful { IfOk result (IsLawful instance.now l.0) }
{
    build(alloc, instance, l, Matching::Latest)
}

/// The net of each layer of an instance, by latest first match.
pub fn layer_nets(alloc: Global, instance: &Instance) -> Result<Vec<LayerNet>, Memory>
    ensures { IfOk result (λ nets. AreNets instance.now nets.items) }
{
    let mut nets = Vec::new(alloc);
    for l in 0..instance.layers() {
        let net = latest_first_match(alloc, instance, LayerNo(l))?;
        nets.push(net)?;
    }
    Ok(nets)
}
