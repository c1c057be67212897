//! The plans of a trace.

ghost use Rattle.std.specs.Prelude.{◌≡◌, IfOk, IfSome, MatchOption};
ghost use Rattle.vs_plan.specs.Blocks.{CanBeJudged, blocks_of};
ghost use Rattle.vs_tree.specs.Sound.{IsPlanOf};
ghost use Rattle.vs_trace.specs.Traces.{told_first, told_plan};

use std::alloc::Global;
use vs_instance::Instance;
use vs_plan::{CheckedPlan, Plan, PlanError, check_plan};
use vs_types::Memory;

/// The blocks as a plan of the instance. None where they aren't one, or one of another cost.
pub fn plan_of(
    alloc: Global,
    instance: &Instance,
    cost: i64,
    plan: Plan,
) -> Result<Option<CheckedPlan>, Memory>
    requires { CanBeJudged instance.now (blocks_of plan) }
    ensures { IfOk result (λ r. MatchOption r
        (¬ (IsPlanOf instance.now (told_plan instance.now cost plan)))
        (λ c. (c ≡ told_plan instance.now cost plan) × IsPlanOf instance.now c)) }
{
    match check_plan(alloc, instance, plan) {
        Ok(checked) => {
            if checked.cost() == cost {
                Ok(Some(checked))
            } else {
                Ok(None)
            }
        }
        Err((_, PlanError::Memory)) => Err(Memory),
        Err((_, PlanError::Fault(_))) => Ok(None),
    }
}

/// The first plan of a trace, where there is one. None where it isn't a plan of the instance at its cost.
pub fn first_plan(
    alloc: Global,
    instance: &Instance,
    first: Option<(i64, Plan)>,
) -> Result<Option<Option<CheckedPlan>>, Memory>
    requires { IfSome first (λ f. CanBeJudged instance.now (blocks_of f.1)) }
    ensures { IfOk result (λ r. MatchOption r
        (¬ (IfSome (told_first instance.now first) (IsPlanOf instance.now)))
        (λ c. (c ≡ told_first instance.now first) × IfSome c (IsPlanOf instance.now))) }
{
    match first {
        None => Ok(Some(None)),
        Some((cost, plan)) => match plan_of(alloc, instance, cost, plan)? {
            None => Ok(None),
            Some(checked) => Ok(Some(Some(checked))),
        },
    }
}
