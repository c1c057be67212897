//! A leaf to work on, and what the work on it comes to.
ghost use Rattle.std.specs.Prelude.{◌≡◌, ℕ, ◌<◌, IfOk, length};
ghost use Rattle.vs_multi.specs.Rounds.{IsCase};
ghost use Rattle.vs_prices.specs.Table.{Fits};
ghost use Rattle.vs_prices.specs.Worth.{IsWorth};
ghost use Rattle.vs_prices.specs.declared.bound.Bound.{Bound};
ghost use Rattle.vs_tree.specs.declared.calls.Next.TheVariants.{Close};
ghost use Rattle.vs_node.specs.ChosenLayers.{AreSingle};
ghost use Rattle.vs_node.specs.NextSteps.{IsNextBy, IsOpen};
ghost use Rattle.vs_node.specs.Outcomes.{HasPlan, IsAtHand, IsOutcome};
ghost use Rattle.vs_node.specs.SplitRule.{AreLeadsFor, HasChoice};

use crate::choosing::chosen_layers;
use crate::deciding::next_of;
use crate::leads::Leads;
use crate::room::Room;
use crate::settling::settle;
use vs_circ::Work;
use vs_instance::MAX_TRIPS;
use vs_multi::Case;
use vs_plan::CheckedPlan;
use vs_prices::{Bound, Table};
use vs_tree::Next;
use vs_types::{LayerSet, Memory};

/// A leaf to work on.
#[derive(Drop)]
pub struct Task {
    /// In which layers each trip may be run.
    pub sets: Vec<LayerSet>,
    /// The table that the leaf has.
    pub table: Table,
    /// What the cheapest plan costs that is known, in cost units.
    pub known: Option<i64>,
    /// Whether it is the root of the search, which nothing is known of yet.
    pub root: bool,
}

/// What the work on a leaf found.
#[derive(Drop)]
pub struct Outcome {
    /// Prices that are worth no less than those of the leaf.
    pub table: Table,
    /// A least plan of the layers that the prices choose. None where there is no such plan.
    pub plan: Option<CheckedPlan>,
    /// Whether the leaf is closed or split.
    pub next: Next,
}

/// What comes of a leaf whose trips have one layer each. It is closed.
pub(crate) fn alone(case: &Case<'_>, task: &Task, work: &mut Work) -> Result<Outcome, Memory>
    requires leaf { IsAtHand case.now.instance.now case.now.nets.now case.now.sets.now task.now }
    requires single { AreSingle task.now.sets.items }
    ensures found { IfOk result (IsOutcome case.now.instance.now task.now) }
    ensures full { IfOk result (λ outcome. (worth : Bound)
        → IsWorth case.now.instance.now task.now.sets.items outcome.table worth
        → ¬ (IsOpen worth task.now.known outcome.plan)) }
    ensures closed { IfOk result (λ outcome. outcome.next ≡ Close) }
{
    let settled = settle(case.alloc, case.instance, case.nets, case.sets, work)?;
    Ok(Outcome {
        table: settled.table,
        plan: settled.plan,
        next: Next::Close,
    })
}

/// What comes of a leaf with this table, which is worth so much, some trip of which may be run in two layers or more.
pub(crate) fn outcome_of(
    case: &Case<'_>,
    known: Option<i64>,
    table: Table,
    worth: Bound,
    leads: &Leads,
    room: &mut Room,
) -> Result<Outcome, Memory>
    requires case { IsCase case.now.instance.now case.now.nets.now case.now.sets.now }
    requires fits { Fits case.now.instance.now table }
    requires leads { AreLeadsFor case.now.sets.now leads.now }
    requires choice { (i : ℕ) × (i < length case.now.sets.now) × HasChoice case.now.sets.now i }
    ensures table { IfOk result (λ outcome. outcome.table ≡ table) }
    ensures plan { IfOk result (λ outcome.
        HasPlan case.now.instance.now case.now.sets.now table outcome.plan) }
    ensures next { IfOk result (λ outcome.
        IsNextBy case.now.sets.now worth known outcome.plan outcome.next) }
{
    prove!(case.instance.trips() <= MAX_TRIPS);
    let chosen = chosen_layers(case.alloc, case.instance, case.sets, &table)?;
    let layers = chosen.as_slice();
    let settled = settle(case.alloc, case.instance, case.nets, layers, &mut room.work)?;
    let next = next_of(
        case.sets,
        worth,
        known,
        &settled.plan,
        leads,
        &mut room.cuts,
    );
    Ok(Outcome {
        table,
        plan: settled.plan,
        next,
    })
}
