//! The deadheads of an instance, listed.

ghost use Rattle.std.specs.Prelude.{◌≡◌, ◌<◌, ◌++◌, IfOk, OnOk};
ghost use Rattle.std.specs.Option.{option_to_list};
ghost use Rattle.vs_peakcheck.specs.Listed.{AreAllDeadheads, deadhead_given};

use std::alloc::Global;
use vs_instance::{Deadhead, Instance, MAX_STOPS};
use vs_types::{Memory, StopNo};

/// All deadheads of an instance, by the stop that is left and then by the one that is reached.
pub(crate) fn all_deadheads(alloc: Global, instance: &Instance) -> Result<Vec<Deadhead>, Memory>
    ensures { IfOk result (λ deadheads. AreAllDeadheads instance.now deadheads.items) }
{
    // for the proof: the instance is within its limits
    prove!(instance.stops() <= MAX_STOPS);
    let stops = instance.stops();
    let mut deadheads = Vec::new(alloc);
    for place in 0..stops * stops {
        let from = StopNo(place / stops);
        let to = StopNo(place % stops);
        let given = deadhead_between(instance, from, to);
        add(&mut deadheads, given)?;
    }
    Ok(deadheads)
}

/// Puts a deadhead at the end, where it is given.
fn add(deadheads: &mut Vec<Deadhead>, given: Option<Deadhead>) -> Result<(), Memory>
    ensures { OnOk result (deadheads.new.items ≡ deadheads.old.items ++ option_to_list given) }
{
    if let Some(deadhead) = given {
        deadheads.push(deadhead)?;
    }
    Ok(())
}

/// The deadhead from one stop to another, where it is given.
fn deadhead_between(instance: &Instance, from: StopNo, to: StopNo) -> Option<Deadhead>
    requires from { from.0 < instance.now.stops }
    requires to { to.0 < instance.now.stops }
    ensures { result ≡ deadhead_given instance.now from.0 to.0 }
{
    if from == to {
        return None;
    }
    match instance.way(from, to) {
        Some(way) => Some(Deadhead {
            from,
            to,
            minutes: u64::from(way.minutes),
            metres: u64::from(way.metres),
        }),
        None => None,
    }
}
