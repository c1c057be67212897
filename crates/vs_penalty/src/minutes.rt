//! How many trips are under way, minute by minute.

ghost use Rattle.std.specs.Prelude.{◌≡◌, IfOk, length};
ghost use Rattle.vs_instance.specs.declared.limits.TheConstants.{TWO_DAYS};

use std::alloc::Global;
use vs_instance::{Instance, TWO_DAYS};
use vs_types::{Memory, TripNo};

/// How many trips are under way at each minute of the two days. No sum comes to a limit of its type, since there are at
/// most `MAX_TRIPS` trips.
pub(crate) fn under_way(alloc: Global, instance: &Instance) -> Result<Vec<i32>, Memory>
    ensures { IfOk result (λ counts. length counts.items ≡ TWO_DAYS) }
{
    let mut counts = changes(alloc, instance)?;
    let mut running: i32 = 0;
    for minute in 0..TWO_DAYS as usize {
        running = running.saturating_add(counts[minute]);
        counts[minute] = running;
    }
    Ok(counts)
}

/// How many more trips are under way at each minute than at the one before; below 0 where there are fewer.
fn changes(alloc: Global, instance: &Instance) -> Result<Vec<i32>, Memory>
    ensures { IfOk result (λ changes. length changes.items ≡ TWO_DAYS) }
{
    let mut changes = vec![in alloc; 0_i32; TWO_DAYS as usize]?;
    for i in 0..instance.trips() {
        let trip = instance.trip(TripNo(i));
        let begins = trip.start as usize;
        let ends = trip.end as usize;
        changes[begins] = changes[begins].saturating_add(1);
        changes[ends] = changes[ends].saturating_sub(1);
    }
    Ok(changes)
}
