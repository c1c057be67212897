//! Whether a leaf is closed or split.
ghost use Rattle.std.specs.Prelude.{ℕ, ◌<◌, ◌≤◌, length};
ghost use Rattle.vs_instance.specs.declared.limits.TheConstants.{MAX_TRIPS};
ghost use Rattle.vs_node.specs.NextSteps.{IsNextBy};
ghost use Rattle.vs_node.specs.SplitRule.{AreLeadsFor, HasChoice};

use crate::leads::Leads;
use crate::splitting::{alone, split_trip};
use vs_bundle::KeptCuts;
use vs_plan::{CheckedPlan, cost_of};
use vs_prices::Bound;
use vs_tree::Next;
use vs_types::{LayerSet, SCALE};

/// What becomes of a leaf whose table is worth so much. It is closed where the table leaves no room for a plan that
/// costs less than the known cost and than the plan. Else it is split.
pub(crate) fn next_of(
    sets: &[LayerSet],
    worth: Bound,
    known: Option<i64>,
    plan: &Option<CheckedPlan>,
    leads: &Leads,
    cuts: &mut KeptCuts,
) -> Next
    requires few { length sets.now ≤ MAX_TRIPS }
    requires leads { AreLeadsFor sets.now leads.now }
    requires choice { (i : ℕ) × (i < length sets.now) × HasChoice sets.now i }
    ensures { IsNextBy sets.now worth known plan.now result }
{
    let is_wanted = worth.is_below(known);
    let is_cheaper = worth.is_below(cost_of(plan));
    if !is_wanted || !is_cheaper {
        return Next::Close;
    }
    match split_trip(sets, leads, gap_of(worth, known), cuts) {
        Some(split) => Next::Split {
            trip: split.trip,
            left: alone(sets[split.trip.0 as usize], split.layer),
        },
        None => unreachable!(),
    }
}

/// How far a table's worth lies below the known cost, in 1/1000 of a cost unit. It is the greatest number where no cost
/// is known.
fn gap_of(worth: Bound, known: Option<i64>) -> i64 {
    match (worth, known) {
        (Bound::AtLeast(worth), Some(known)) => {
            let gap = i128::from(known).saturating_sub(worth);
            i64::try_from(gap).unwrap_or(i64::MAX).saturating_mul(SCALE)
        }
        _ => i64::MAX,
    }
}
