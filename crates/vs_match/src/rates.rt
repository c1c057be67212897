//! What minutes, metres and vehicles of a layer cost, how many vehicles it has, and how they leave after a rest.

ghost use Rattle.std.specs.Prelude.{◌≡◌, ◌+◌, ◌*◌, ◌<◌, ◌≤◌, MatchOption, length};
ghost use Rattle.vs_instance.specs.Pieces.{rated};
ghost use Rattle.vs_instance.specs.Ways.{layer_of};
ghost use Rattle.vs_instance.specs.declared.way.Way.{Way};
ghost use Rattle.vs_match.specs.Events.{IsWayAfterRest};
ghost use Rattle.vs_match.specs.NetArcs.{at_scale};

use crate::event::Event;
use vs_instance::{Instance, Layer, MAX_METRES, MAX_PER_METRE, MAX_PER_MINUTE, TWO_DAYS, Way};
use vs_types::{LayerNo, SCALE};

/// What so many minutes and metres cost at the rates of a layer, in cost units.
fn units(layer: &Layer, minutes: u32, metres: u64) -> u64
    requires per_minute { layer.now.per_minute ≤ MAX_PER_MINUTE }
    requires per_metre { layer.now.per_metre ≤ MAX_PER_METRE }
    requires minutes { minutes ≤ TWO_DAYS }
    requires metres { metres ≤ MAX_METRES }
    ensures value { result ≡ layer.now.per_minute * minutes + layer.now.per_metre * metres }
    ensures limit { result ≤ MAX_PER_MINUTE * TWO_DAYS + MAX_PER_METRE * MAX_METRES }
{
    layer.per_minute * u64::from(minutes) + layer.per_metre * metres
}

/// What so many minutes and metres cost in a layer, in 1/1000 of a cost unit.
pub fn rate(instance: &Instance, l: LayerNo, minutes: u32, metres: u64) -> i64
    requires layer { l.0 < length instance.now.layers }
    requires minutes { minutes ≤ TWO_DAYS }
    requires metres { metres ≤ MAX_METRES }
    ensures { result ≡ at_scale (rated instance.now l.0 minutes metres) }
{
    prove!(l.0 < instance.layers());
    SCALE * units(instance.layer(l), minutes, metres) as i64
}

/// What a vehicle costs for the day and so many minutes and metres, in 1/1000 of a cost unit.
pub fn fixed_and_rate(instance: &Instance, l: LayerNo, minutes: u32, metres: u64) -> i64
    requires layer { l.0 < length instance.now.layers }
    requires minutes { minutes ≤ TWO_DAYS }
    requires metres { metres ≤ MAX_METRES }
    ensures { result
        ≡ at_scale ((layer_of instance.now l.0).fixed + rated instance.now l.0 minutes metres) }
{
    prove!(l.0 < instance.layers());
    let layer = instance.layer(l);
    SCALE * (layer.fixed + units(layer, minutes, metres)) as i64
}

/// How many vehicles a layer has, which is the room of every arc but the trips'.
pub fn fleet(instance: &Instance, l: LayerNo) -> u32
    requires { l.0 < length instance.now.layers }
    ensures { result ≡ (layer_of instance.now l.0).fleet }
{
    prove!(l.0 < instance.layers());
    instance.layer(l).fleet as u32
}

/// The way of a vehicle of a layer that rested in its depot to an event. None exactly where the layer has no stay,
/// where there is no such way, or where the vehicle would have to leave before minute 0.
pub fn way_after_rest(instance: &Instance, l: LayerNo, until: &Event) -> Option<Way>
    requires layer { l.0 < length instance.now.layers }
    requires stop { until.now.stop.0 < instance.now.stops }
    ensures { MatchOption result ((w : Way) → ¬ (IsWayAfterRest instance.now l.0 until.now w))
        (IsWayAfterRest instance.now l.0 until.now) }
{
    prove!(l.0 < instance.layers());
    let layer = instance.layer(l);
    let _stay = layer.stay?;
    let way = instance.way(layer.depot, until.stop)?;
    if way.minutes <= until.minute {
        Some(way)
    } else {
        None
    }
}
