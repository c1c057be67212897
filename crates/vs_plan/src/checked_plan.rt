//! Plans that are known to be one, with what they cost.

ghost use Rattle.std.specs.Prelude.{◌≡◌, IfOk, IfErr};
ghost use Rattle.vs_plan.specs.Blocks.{CanBeJudged, blocks_of};
ghost use Rattle.vs_connect.specs.Cost.{lesser_of};
ghost use Rattle.vs_plan.specs.CheckedPlan.{IsCheaperOf, IsChecked, IsNoDearer, cost_of};
ghost use Rattle.vs_plan.specs.PlanFaults.{IsFault, IsFirstFault};
ghost use Rattle.vs_instance.specs.Plan.{IsPlan};

use crate::block::Plan;
use crate::costs::blocks_cost;
use crate::judging::judge;
use crate::plan_fault::PlanError;
use std::alloc::Global;
use std::marker::Model;
use std::snapshot::Snapshot;
use vs_instance::{Instance, MAX_TRIPS};

/// A plan of an instance, with what it costs. It remembers which instance that is, at no cost.
#[derive(Drop)]
pub struct CheckedPlan {
    instance: Snapshot<Instance>,
    plan: Plan,
    cost: i64,
}

impl Model for CheckedPlan {
    ghost use Rattle.vs_plan.specs.Blocks.{blocks_of};
    ghost use Rattle.vs_plan.specs.CheckedPlan.{Checked, IsChecked, coded_checked};

    ghost Value = { Checked };

    ghost coded = { coded_checked };

    ghost view = { λ c. record {
      problem = c.instance.value;
      blocks = blocks_of c.plan;
      cost = c.cost;
    } };

    ghost invariant = { λ c. IsChecked (record {
      problem = c.instance.value;
      blocks = blocks_of c.plan;
      cost = c.cost;
    }) };
}

impl CheckedPlan {
    ghost use Rattle.std.specs.Prelude.{◌≡◌, ◌≤ℤ◌};
    ghost use Rattle.vs_plan.specs.Blocks.{blocks_of};
    ghost use Rattle.vs_plan.specs.CheckedPlan.{IsChecked};
    ghost use Rattle.vs_plan.specs.declared.costs.TheConstants.{MAX_PLAN_COST};
    ghost use Rattle.vs_instance.specs.Plan.{IsPlan};

    /// Blocks that are known to be a plan, with what they cost; they aren't judged again.
    pub fn of(instance: &Instance, plan: Plan) -> CheckedPlan
        requires { IsPlan instance.now (blocks_of plan) }
        ensures problem { result.problem ≡ instance.now }
        ensures blocks { result.blocks ≡ blocks_of plan }
        ensures checked { IsChecked result }
    {
        // for the proof: the instance is within its limits
        prove!(instance.trips() <= MAX_TRIPS);
        let cost = blocks_cost(instance, &plan.blocks);
        CheckedPlan {
            instance: Snapshot::of(instance),
            plan,
            cost,
        }
    }

    /// The plan.
    pub fn plan(&self) -> &Plan
        ensures blocks { blocks_of result.now ≡ self.now.blocks }
        ensures checked { IsChecked self.now }
    {
        &self.plan
    }

    /// What the plan costs, in cost units.
    pub fn cost(&self) -> i64
        ensures value { result ≡ self.now.cost }
        ensures limit { result ≤ℤ MAX_PLAN_COST }
        ensures checked { IsChecked self.now }
    {
        self.cost
    }

    /// The plan alone.
    pub fn into_plan(self) -> Plan
        ensures blocks { blocks_of result ≡ self.blocks }
        ensures checked { IsChecked self }
    {
        self.plan
    }
}

/// The plan with what it costs, or the plan itself and the first of all its errors, as `judge` answers it.
pub fn check_plan(
    alloc: Global,
    instance: &Instance,
    plan: Plan,
) -> Result<CheckedPlan, (Plan, PlanError)>
    requires { CanBeJudged instance.now (blocks_of plan) }
    ensures problem { IfOk result (λ checked. checked.problem ≡ instance.now) }
    ensures blocks { IfOk result (λ checked. checked.blocks ≡ blocks_of plan) }
    ensures checked { IfOk result IsChecked }
    ensures handed_back { IfErr result (λ e. e.0 ≡ plan) }
    ensures fault { IfErr result (λ e. IsFirstFault instance.now (blocks_of plan) e.1) }
    ensures refused { IfErr result (λ e. IsFault e.1 → ¬ (IsPlan instance.now (blocks_of plan))) }
{
    // for the proof: the instance is within its limits
    prove!(instance.trips() <= MAX_TRIPS);
    match judge(alloc, instance, &plan) {
        Ok(cost) => Ok(CheckedPlan {
            instance: Snapshot::of(instance),
            plan,
            cost,
        }),
        Err(error) => Err((plan, error)),
    }
}

/// What a plan costs, where there is one.
pub fn cost_of(plan: &Option<CheckedPlan>) -> Option<i64>
    ensures { result ≡ cost_of plan.now }
{
    plan.as_ref().map(|plan| plan.cost())
}

/// The cheaper of two plans, where there are both, else the one that there is; the first of two that cost the same.
pub fn cheaper(first: Option<CheckedPlan>, second: Option<CheckedPlan>) -> Option<CheckedPlan>
    ensures cheaper { IsCheaperOf result first second }
    ensures first { IsNoDearer first second → result ≡ first }
    ensures cost { cost_of result ≡ lesser_of (cost_of first) (cost_of second) }
{
    match (first, second) {
        (None, second) => second,
        (first, None) => first,
        (Some(first), Some(second)) => {
            if second.cost() < first.cost() {
                Some(second)
            } else {
                Some(first)
            }
        }
    }
}
