//! A first plan by the greedy rule.

ghost use Rattle.std.specs.Prelude.{◌≡◌, IfOk, IfSome, IfNone};
ghost use Rattle.vs_plan.specs.CheckedPlan.{IsChecked};
ghost use Rattle.vs_plan.specs.Greedy.{GreedyGetsStuck, GreedyGives};

use crate::block::Plan;
use crate::checked_plan::CheckedPlan;
use crate::draft::Draft;
use crate::order::trips_in_order;
use std::alloc::Global;
use vs_instance::Instance;
use vs_types::Memory;

/// A plan by a simple rule. Trips are taken by start and then by number. Each goes to the end of the
/// oldest block that it can join. A trip can join a block whose layer permits it and has a pull-in after it,
/// and whose last trip connects to it. A trip that can join none opens a block. The block's layer is the
/// lowest that permits the trip, has a vehicle left, and has a pull-out to it and a pull-in from it. None exactly
/// where a trip can do neither; there may be a plan all the same.
pub fn greedy(alloc: Global, instance: &Instance) -> Result<Option<CheckedPlan>, Memory>
    ensures given { IfOk result (λ r. IfSome r (λ plan. GreedyGives instance.now plan.blocks)) }
    ensures stuck { IfOk result (λ r. IfNone r (GreedyGetsStuck instance.now)) }
    ensures problem { IfOk result (λ r. IfSome r (λ plan. plan.problem ≡ instance.now)) }
    ensures checked { IfOk result (λ r. IfSome r IsChecked) }
{
    let order = trips_in_order(alloc, instance)?;
    let mut draft = Draft::new(alloc, instance)?;
    for i in &order {
        if !draft.place(alloc, instance, *i)? {
            return Ok(None);
        }
    }
    let plan = Plan {
        blocks: draft.blocks,
    };
    Ok(Some(CheckedPlan::of(instance, plan)))
}
