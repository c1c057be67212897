//! Which instances are large.

ghost use Rattle.std.specs.Prelude.{◌↔◌, IsTrue};
ghost use Rattle.vs_walk.specs.Large.{IsLarge};

use crate::walker::FEW_LAYERS;
use vs_instance::{Instance, USUAL_TRIPS};

/// Whether an instance is large: it has more trips than a text of version 1 or 2 may have.
pub fn is_large(instance: &Instance) -> bool
    ensures { IsTrue result ↔ IsLarge instance.now }
{
    instance.trips() > USUAL_TRIPS
}

/// Whether choices are also mended by the trips of some vehicles, and passes begin anew where a turn finds no cheaper
/// choice: on a large instance with few layers. With many, passes of all layers take too much of a turn.
pub(crate) fn is_large_with_few_layers(instance: &Instance) -> bool {
    is_large(instance) && instance.layers() <= FEW_LAYERS
}
