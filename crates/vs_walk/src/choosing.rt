//! Which layer each trip is given to, by the layers that run it.
ghost use Rattle.std.specs.Prelude.{◌≡◌, ◌≢◌, ◌<◌, [], length};
ghost use Rattle.vs_types.specs.LayerSet.{Has, members};
ghost use Rattle.vs_types.specs.declared.numbers.TheConstants.{MAX_LAYERS};
ghost use Rattle.vs_instance.specs.Restriction.{IsRestriction};
ghost use Rattle.vs_node.specs.ChosenLayers.{AreSingle};
ghost use Rattle.vs_walk.specs.Penalties.{AreGiven, IsLowestRun};

use vs_instance::Instance;
use vs_types::{LayerNo, LayerSet, TripNo};

/// The lowest of the layers that run a trip, where that may run it, else the lowest that may.
fn lowest_layer(permitted: LayerSet, runs: LayerSet) -> LayerNo
    requires { members permitted ≢ [] }
    ensures lowest { IsLowestRun permitted runs result.0 }
    ensures permitted { Has permitted result.0 }
    ensures layer { result.0 < MAX_LAYERS }
{
    match runs.lowest() {
        Some(l) if permitted.has(l) => l,
        _ => permitted.lowest().unwrap(),
    }
}

/// Gives each trip to one layer, the lowest of those that run it, or of those that may where that may not.
pub fn lowest_layers(instance: &Instance, runs: &[LayerSet], chosen: &mut [LayerSet])
    requires runs { length runs.now ≡ length instance.now.trips }
    requires chosen { length chosen.old ≡ length instance.now.trips }
    ensures given { AreGiven instance.now runs.now chosen.new }
    ensures restriction { IsRestriction instance.now chosen.new }
    ensures single { AreSingle chosen.new }
{
    for i in 0..instance.trips() {
        let permitted = instance.trip(TripNo(i)).layers;
        let l = lowest_layer(permitted, runs[i as usize]);
        chosen[i as usize] = LayerSet::only(l);
    }
}
