//! What units leave at the nodes of a net.

ghost use Rattle.std.specs.Prelude.{◌≡◌, ℕ, ◌<◌, ◌≤◌, length, slice_index};
ghost use Rattle.vs_instance.specs.declared.limits.TheConstants.{MAX_FLEET};
ghost use Rattle.vs_path.specs.Residual.{AllWithin};
ghost use Rattle.vs_ship.specs.Leaving.{AreNone, IsLeftBy, passed_along};

use crate::shipment::MAX_FIRST_PRICE;
use vs_layer::{Arc, Net};

/// Sets each number to 0.
pub fn clear(numbers: &mut [i64])
    ensures { AreNone numbers.new }
{
    for number in numbers.iter_mut() {
        *number = 0;
    }
}

/// Takes units from where an arc begins to where it ends.
pub fn pass(surplus: &mut [i64], arc: Arc, n: u32)
    requires from { arc.from < length surplus.old }
    requires to { arc.to < length surplus.old }
    requires few { n ≤ MAX_FLEET }
    requires within { AllWithin MAX_FIRST_PRICE surplus.old }
    ensures { surplus.new ≡ passed_along surplus.old arc n }
{
    if n == 0 {
        return;
    }
    let n = i64::from(n);
    surplus[arc.from as usize] -= n;
    surplus[arc.to as usize] += n;
}

/// What units leave at the nodes.
pub fn leave(net: &Net, units: &[u32], surplus: &mut [i64])
    requires each_arc { length units.now ≡ length net.now.arcs }
    requires each_node { length surplus.old ≡ net.now.nodes }
    requires few { (k : ℕ) → k < length net.now.arcs → slice_index units.now k ≤ MAX_FLEET }
    ensures { IsLeftBy net.now units.now surplus.new }
{
    clear(surplus);
    for k in 0..net.arcs() {
        pass(surplus, net.arc(k), units[k as usize]);
    }
}
