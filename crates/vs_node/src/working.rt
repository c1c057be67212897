//! The work on a leaf, and what it has done for every search.
ghost use Rattle.std.specs.Prelude.{◌≡◌, ◌<◌, ◌≤◌, ◌↔◌, ℕ, true, IfOk, IfSome, IsTrue, None, length};
ghost use Rattle.vs_instance.specs.Restriction.{IsRestriction};
ghost use Rattle.vs_match.specs.LayerNets.{AreLayerNets};
ghost use Rattle.vs_prices.specs.Bounds.{IsWorthNoLess};
ghost use Rattle.vs_instance.specs.declared.limits.TheConstants.{MAX_TRIPS};
ghost use Rattle.vs_prices.specs.Table.{Fits, HoldingTable};
ghost use Rattle.vs_prices.specs.Worth.{IsWorth};
ghost use Rattle.vs_tree.specs.declared.calls.Next.TheVariants.{Close};
ghost use Rattle.vs_node.specs.ChosenLayers.{AreSingle};
ghost use Rattle.vs_node.specs.Laws.{WorkedSearchesReachTheStart};
ghost use Rattle.vs_node.specs.Outcomes.{HasPlan, IsFollowedBy};
ghost use Rattle.vs_node.specs.SplitRule.{HasChoice};
ghost use Rattle.vs_node.specs.WorkedStep.{IsBegun, IsWorked, ReachesStart};

use crate::outcome::{Outcome, Task, alone};
use crate::room::Room;
use crate::searching::{search, search_from};
use crate::splitting::first_with_choice;
use std::alloc::Global;
use vs_bundle::Lanes;
use vs_circ::Work;
use vs_instance::{Instance, MAX_TRIPS};
use vs_match::LayerNet;
use vs_multi::{Best, Case, Watch, one_round, start};
use vs_types::{LayerSet, Memory};

/// Works on a leaf. Finds a table that within the leaf's sets is worth no less than the leaf's own. It is also worth no
/// less than the Lagrangian value at the multipliers that the leaf begins with. Finds a least plan of the layers in
/// which the trips pay least by the table. Closes the leaf where the table leaves no room for a plan that costs less
/// than that one and than the known cost. Else says how it is split. A leaf whose trips have one layer each is closed.
pub fn work(
    alloc: Global,
    instance: &Instance,
    nets: &[LayerNet],
    task: &Task,
    room: &mut Room,
) -> Result<Outcome, Memory>
    requires nets { AreLayerNets instance.now nets.now }
    requires restriction { IsRestriction instance.now task.now.sets.items }
    requires fits { Fits instance.now task.now.table }
    requires holds { HoldingTable instance.now task.now.table }
    ensures fits { IfOk result (λ outcome. Fits instance.now outcome.table) }
    ensures holds { IfOk result (λ outcome. HoldingTable instance.now outcome.table) }
    ensures no_less { IfOk result (λ outcome.
        IsWorthNoLess instance.now task.now.sets.items outcome.table task.now.table) }
    ensures worked { IfOk result (λ outcome.
        IsWorked instance.now task.now.root task.now.sets.items task.now.table outcome.table) }
    ensures start { IfOk result (λ outcome. task.now.root ≡ true
        → ReachesStart instance.now task.now.sets.items outcome.table) }
    ensures plan { IfOk result (λ outcome.
        HasPlan instance.now task.now.sets.items outcome.table outcome.plan) }
    ensures next { IfOk result (λ outcome.
        IsFollowedBy instance.now task.now outcome) }
    ensures alone { IfOk result (λ outcome. AreSingle task.now.sets.items → outcome.next ≡ Close) }
{
    prove!(instance.trips() <= MAX_TRIPS);
    let sets = task.sets.as_slice();
    let case = Case {
        alloc,
        instance,
        nets,
        sets,
    };
    match first_with_choice(sets) {
        None => {
            let closed = alone(&case, task, &mut room.work)?;
            Ok(closed)
        }
        Some(_trip) => {
            let outcome = search(&case, task, room)?;
            Ok(outcome)
        }
    }
}

/// Whether some trip may be run in two layers or more.
pub fn has_choice(sets: &[LayerSet]) -> bool
    requires { length sets.now ≤ MAX_TRIPS }
    ensures { IsTrue result ↔ ((i : ℕ) × (i < length sets.now) × HasChoice sets.now i) }
{
    first_with_choice(sets).is_some()
}

/// The first step of the work on the root: what the starting multipliers show, by one round. None where the watch ends
/// it between two layers.
pub fn begin<W: Watch>(
    alloc: Global,
    instance: &Instance,
    nets: &[LayerNet],
    sets: &[LayerSet],
    work: &mut Work,
    watch: &W,
) -> Result<Option<Best>, Memory>
    requires nets { AreLayerNets instance.now nets.now }
    requires restriction { IsRestriction instance.now sets.now }
    ensures fits { IfOk result (λ begun. IfSome begun (λ best. Fits instance.now best.table)) }
    ensures holds { IfOk result (λ begun. IfSome begun (λ best. HoldingTable instance.now best.table)) }
    ensures worth { IfOk result (λ begun. IfSome begun (λ best.
        IsWorth instance.now sets.now best.table best.worth)) }
    ensures begun { IfOk result (λ begun. IfSome begun (λ best. IsBegun instance.now sets.now best.table)) }
    ensures ended { IfOk result (λ begun. begun ≡ None → W.may_end watch.now) }
{
    let case = Case {
        alloc,
        instance,
        nets,
        sets,
    };
    let mut room = vec![in alloc; 0; instance.trips() as usize]?;
    let multipliers = room.as_mut_slice();
    start(instance, multipliers);
    one_round(&case, multipliers, work, watch)
}

/// The same as `work` at the root, whose first step was made. Layers run side by side where the watch has threads for
/// them. Where it says that the work is over there is no climb, and nothing is raised. Where it says so later the climb
/// ends.
pub fn work_from<W: Lanes>(
    alloc: Global,
    instance: &Instance,
    nets: &[LayerNet],
    task: &Task,
    begun: Best,
    room: &mut Room,
    watch: &W,
) -> Result<Outcome, Memory>
    requires works { W.works watch.now }
    requires nets { AreLayerNets instance.now nets.now }
    requires restriction { IsRestriction instance.now task.now.sets.items }
    requires fits { Fits instance.now task.now.table }
    requires holds { HoldingTable instance.now task.now.table }
    requires root { task.now.root ≡ true }
    requires begun_fits { Fits instance.now begun.table }
    requires begun_holds { HoldingTable instance.now begun.table }
    requires begun_worth { IsWorth instance.now task.now.sets.items begun.table begun.worth }
    requires begun { IsBegun instance.now task.now.sets.items begun.table }
    ensures fits { IfOk result (λ outcome. Fits instance.now outcome.table) }
    ensures holds { IfOk result (λ outcome. HoldingTable instance.now outcome.table) }
    ensures no_less { IfOk result (λ outcome.
        IsWorthNoLess instance.now task.now.sets.items outcome.table task.now.table) }
    ensures worked { IfOk result (λ outcome.
        IsWorked instance.now true task.now.sets.items task.now.table outcome.table) }
    ensures plan { IfOk result (λ outcome.
        HasPlan instance.now task.now.sets.items outcome.table outcome.plan) }
    ensures next { IfOk result (λ outcome.
        IsFollowedBy instance.now task.now outcome) }
{
    prove!(instance.trips() <= MAX_TRIPS);
    let sets = task.sets.as_slice();
    let case = Case {
        alloc,
        instance,
        nets,
        sets,
    };
    match first_with_choice(sets) {
        None => {
            let closed = alone(&case, task, &mut room.work)?;
            Ok(closed)
        }
        Some(_trip) => {
            let outcome = search_from(&case, task, begun, room, watch)?;
            Ok(outcome)
        }
    }
}

/// Where each leaf that was split or closed was worked on, and one was, every leaf reaches the value at the starting
/// multipliers. The work at the root reaches it, and no later table is worth less.
pub fn worked_searches_reach_the_start()
    ensures { WorkedSearchesReachTheStart }
{}
