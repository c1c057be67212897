//! Layers whose vehicles cost nothing.

ghost use Rattle.std.specs.Prelude.{◌≡◌, IfOk, map};
ghost use Rattle.vs_instance.specs.Unrated.{unrated};

use crate::layer::Layer;
use std::alloc::Global;
use vs_types::Memory;

/// The layer with rates of 0.
fn unrated(layer: Layer) -> Layer
    ensures { result ≡ unrated layer }
{
    Layer {
        depot: layer.depot,
        fleet: layer.fleet,
        fixed: 0,
        per_minute: 0,
        per_metre: 0,
        stay: layer.stay,
    }
}

/// These layers with rates of 0, in their order.
pub(crate) fn unrated_layers(alloc: Global, layers: &[Layer]) -> Result<Vec<Layer>, Memory>
    ensures { IfOk result (λ free. free.items ≡ map unrated layers.now) }
{
    let mut free = Vec::with_capacity(alloc, layers.len())?;
    for l in 0..layers.len() {
        free.push(unrated(layers[l]))?;
    }
    Ok(free)
}
