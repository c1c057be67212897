//! The order in which the greedy rule takes the trips.

ghost use Rattle.std.specs.Prelude.{◌≡◌, IfOk, length, vec_len};
ghost use Rattle.vs_plan.specs.Greedy.{IsOrder};

use std::alloc::Global;
use vs_instance::Instance;
use vs_types::{Memory, TripNo};

/// All trips of the instance, by start and then by number.
pub fn trips_in_order(alloc: Global, instance: &Instance) -> Result<Vec<TripNo>, Memory>
    ensures order { IfOk result (λ order. IsOrder instance.now order.items) }
    ensures count { IfOk result (λ order. length order.items ≡ length instance.now.trips) }
{
    let mut starts = Vec::new(alloc);
    'trips: for i in 0..instance.trips() {
        starts.push((instance.trip(TripNo(i)).start, i))?;
    }
    starts.sort_unstable();
    let mut order = Vec::new(alloc);
    'sorted: for (_, i) in &starts {
        order.push(TripNo(*i))?;
    }
    Ok(order)
}
