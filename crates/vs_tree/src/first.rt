//! The plan that a search began with.

ghost use Rattle.std.specs.Prelude.{◌≡◌, is_some};

use std::marker::Model;
use std::snapshot::Snapshot;
use vs_plan::CheckedPlan;

/// The plan that was known when a search began, if any. The plan itself is the first of those that were accepted.
#[derive(Drop)]
pub struct First {
    given: bool,
    plan: Snapshot<Option<CheckedPlan>>,
}

impl Model for First {
    ghost use Rattle.std.specs.Coded.{coded_option};
    ghost use Rattle.std.specs.Prelude.{◌≡◌, Option, is_some};
    ghost use Rattle.vs_plan.specs.CheckedPlan.{Checked, coded_checked};

    ghost Value = { Option Checked };

    ghost coded = { coded_option coded_checked };

    ghost view = { λ a. a.plan.value };

    ghost invariant = { λ a. a.given ≡ is_some a.plan.value };
}

impl First {
    /// What is to be remembered of the plan, or that there was none.
    pub fn of(plan: &Option<CheckedPlan>) -> First
        ensures { result ≡ plan.now }
    {
        First {
            given: plan.is_some(),
            plan: Snapshot::of(plan),
        }
    }

    /// Whether a plan was known.
    pub fn is_given(&self) -> bool
        ensures { result ≡ is_some self.now }
    {
        self.given
    }
}
