//! The pull-outs and pull-ins of a layer's net.

ghost use Rattle.std.specs.Prelude.{◌≡◌, ◌<◌, ◌≤◌, MatchOption, length};
ghost use Rattle.vs_match.specs.Nodes.{AreNodes};
ghost use Rattle.vs_match.specs.DepotDrives.{IsPullOutTo, IsPullInFrom};
ghost use Rattle.vs_match.specs.ArcsOf.{pull_out_of, pull_in_of};

use crate::arc_kind::{ArcKind, LayerArc};
use crate::nodes::Nodes;
use crate::rates::{fixed_and_rate, fleet, rate};
use crate::stop_node::StopNode;
use vs_instance::{Instance, MAX_METRES, MAX_MINUTES, Way};
use vs_types::LayerNo;

/// The pull-out of a vehicle to a departure. None where there is no such way from minute 0 on.
pub fn pull_out(instance: &Instance, l: LayerNo, until: &StopNode) -> Option<LayerArc>
    requires layer { l.0 < length instance.now.layers }
    requires stop { until.now.stop.0 < instance.now.stops }
    ensures { MatchOption result ((x : LayerArc) → ¬ (IsPullOutTo instance.now l.0 until.now x))
        (IsPullOutTo instance.now l.0 until.now) }
{
    // for the proof: the layers of an instance are within its limits
    prove!(l.0 < instance.layers());
    let way = instance.way(instance.layer(l).depot, until.stop)?;
    if way.minutes <= until.minute {
        Some(pull_out_arc(instance, l, way, until))
    } else {
        None
    }
}

/// The pull-in of a vehicle that arrived. None where there is no such way.
pub fn pull_in(instance: &Instance, l: LayerNo, nodes: &Nodes, since: &StopNode) -> Option<LayerArc>
    requires layer { l.0 < length instance.now.layers }
    requires nodes { AreNodes instance.now l.0 nodes.now }
    requires stop { since.now.stop.0 < instance.now.stops }
    ensures { MatchOption result
        ((x : LayerArc) → ¬ (IsPullInFrom instance.now l.0 nodes.now.points.items since.now x))
        (IsPullInFrom instance.now l.0 nodes.now.points.items since.now) }
{
    // for the proof: the layers of an instance are within its limits
    prove!(l.0 < instance.layers());
    let way = instance.way(since.stop, instance.layer(l).depot)?;
    let last = nodes.points.len() as u32 + 1;
    Some(pull_in_arc(instance, l, last, way, since))
}

fn pull_out_arc(instance: &Instance, l: LayerNo, way: Way, until: &StopNode) -> LayerArc
    requires layer { l.0 < length instance.now.layers }
    requires way { way.minutes ≤ MAX_MINUTES × way.metres ≤ MAX_METRES }
    ensures { result ≡ pull_out_of instance.now l.0 way until.now }
{
    LayerArc {
        from: 0,
        to: until.node,
        kind: ArcKind::PullOut,
        cost: fixed_and_rate(instance, l, way.minutes, u64::from(way.metres)),
        room: fleet(instance, l),
    }
}

fn pull_in_arc(instance: &Instance, l: LayerNo, last: u32, way: Way, since: &StopNode) -> LayerArc
    requires layer { l.0 < length instance.now.layers }
    requires way { way.minutes ≤ MAX_MINUTES × way.metres ≤ MAX_METRES }
    ensures { result ≡ pull_in_of instance.now l.0 last way since.now }
{
    LayerArc {
        from: since.node,
        to: last,
        kind: ArcKind::PullIn,
        cost: rate(instance, l, way.minutes, u64::from(way.metres)),
        room: fleet(instance, l),
    }
}
