//! The layers brought to agree, and what their multipliers show in the end.
ghost use Rattle.std.specs.Prelude.{IfOk, IfSome};
ghost use Rattle.vs_instance.specs.Restriction.{IsRestriction, permitted_sets};
ghost use Rattle.vs_multi.specs.Multipliers.{AreMultipliers};
ghost use Rattle.vs_multi.specs.Rounds.{IsCase};
ghost use Rattle.vs_match.specs.LayerNets.{AreLayerNets};
ghost use Rattle.vs_prices.specs.Bounds.{IsWorthNoLess};
ghost use Rattle.vs_prices.specs.Table.{Fits, HoldingTable};
ghost use Rattle.vs_prices.specs.Worth.{IsWorth};
ghost use Rattle.vs_penalty.specs.Seekers.{IsPlanOf};

use crate::ray::seek_ray;
use crate::seeking::Seeker;
use crate::walkers::Hands;
use std::alloc::Global;
use std::mem::swap;
use vs_bundle::Lanes;
use vs_circ::Work;
use vs_connect::lesser;
use vs_instance::Instance;
use vs_match::LayerNet;
use vs_multi::{Case, Watch, few_rounds, keep_better, multipliers_of, raise};
use vs_plan::CheckedPlan;
use vs_prices::{Bound, Table, permitted_sets, worth};
use vs_types::{Memory, TripNo};

/// One round shows what the multipliers are worth; they are the best already.
const ROUNDS: u32 = 1;

/// How many rounds prices are sought by that show that there is no plan. Where there is none, a few suffice as a rule.
const RAY_ROUNDS: u32 = 100;

/// Brings the layers to agree on which of them runs which trip, and gives the cheapest plan that was found on the way,
/// if any. The table becomes what the multipliers show in the end, where that is worth more. Where no plan of this cost
/// is known and the first passes find none, it becomes what shows that there is none, if that is found. Where no trip
/// has two layers there is nothing to agree on: no plan is given, and the table stays. Where the watch ends it early,
/// what was found so far counts.
pub fn agree<W: Hands>(
    alloc: Global,
    instance: &Instance,
    nets: &[LayerNet],
    known: Option<i64>,
    table: &mut Table,
    work: &mut Work,
    watch: &W,
) -> Result<Option<CheckedPlan>, Memory>
    requires works { W.works watch.now }
    requires nets { AreLayerNets instance.now nets.now }
    requires fits { Fits instance.now table.old }
    requires holds { HoldingTable instance.now table.old }
    ensures plan { IfOk result (λ plan. IfSome plan (IsPlanOf instance.now)) }
    ensures fits { Fits instance.now table.new }
    ensures holds { HoldingTable instance.now table.new }
    ensures worth { IsWorthNoLess instance.now (permitted_sets instance.now) table.new table.old }
{
    if !has_choice(instance) {
        return Ok(None);
    }
    let permitted = permitted_sets(alloc, instance)?;
    let sets = permitted.as_slice();
    let case = Case {
        alloc,
        instance,
        nets,
        sets,
    };
    let plan = agree_on(&case, known, table, work, watch)?;
    Ok(plan)
}

/// The same in the layers of these sets.
fn agree_on<W: Hands>(
    case: &Case<'_>,
    known: Option<i64>,
    table: &mut Table,
    work: &mut Work,
    watch: &W,
) -> Result<Option<CheckedPlan>, Memory>
    requires works { W.works watch.now }
    requires case { IsCase case.now.instance.now case.now.nets.now case.now.sets.now }
    requires fits { Fits case.now.instance.now table.old }
    requires holds { HoldingTable case.now.instance.now table.old }
    ensures plan { IfOk result (λ plan. IfSome plan (IsPlanOf case.now.instance.now)) }
    ensures fits { Fits case.now.instance.now table.new }
    ensures holds { HoldingTable case.now.instance.now table.new }
    ensures worth { IsWorthNoLess case.now.instance.now case.now.sets.now table.new table.old }
{
    let mut multipliers = multipliers_of(case, table)?;
    let mut seeker = Seeker::new(case, &multipliers)?;
    seeker.begin(case, work, watch)?;
    if take_ray(case, lesser(known, seeker.choices.cost()), table, watch)? {
        return Ok(None);
    }
    seeker.go_on(case, &mut multipliers, work, watch)?;
    improve(case, seeker.value, &mut multipliers, table, work, watch)?;
    let best = seeker.choices.best.take();
    Ok(best)
}

/// Makes the table prices that show that there is no plan, where no plan is known, of this cost, and such prices are
/// found. Gives whether they are.
fn take_ray<W: Lanes>(
    case: &Case<'_>,
    known: Option<i64>,
    table: &mut Table,
    watch: &W,
) -> Result<bool, Memory>
    requires works { W.works watch.now }
    requires restriction { IsRestriction case.now.instance.now case.now.sets.now }
    requires fits { Fits case.now.instance.now table.old }
    requires holds { HoldingTable case.now.instance.now table.old }
    ensures fits { Fits case.now.instance.now table.new }
    ensures holds { HoldingTable case.now.instance.now table.new }
    ensures worth { IsWorthNoLess case.now.instance.now case.now.sets.now table.new table.old }
{
    if known.is_some() {
        return Ok(false);
    }
    let found = seek_ray(case.alloc, case.instance, case.sets, RAY_ROUNDS, watch)?;
    match found {
        Some(mut ray) => {
            swap(table, &mut ray);
            Ok(true)
        }
        None => Ok(false),
    }
}

/// Makes the table what these multipliers and sweeps from there show, where that is worth more. There are no sweeps
/// where the watch ends the work, and nothing is shown where it ended it before a value was known.
fn improve<W: Watch>(
    case: &Case<'_>,
    value: i64,
    multipliers: &mut [i64],
    table: &mut Table,
    work: &mut Work,
    watch: &W,
) -> Result<(), Memory>
    requires case { IsCase case.now.instance.now case.now.nets.now case.now.sets.now }
    requires multipliers { AreMultipliers case.now.instance.now multipliers.old }
    requires fits { Fits case.now.instance.now table.old }
    requires holds { HoldingTable case.now.instance.now table.old }
    ensures fits { Fits case.now.instance.now table.new }
    ensures holds { HoldingTable case.now.instance.now table.new }
    ensures worth { IsWorthNoLess case.now.instance.now case.now.sets.now table.new table.old }
{
    if value == i64::MIN && watch.is_over() {
        return Ok(());
    }
    let greatest = take_shown(case, multipliers, table, work)?;
    if watch.is_over() {
        return Ok(());
    }
    raise(case, table, greatest, work)?;
    Ok(())
}

/// Makes the table what these multipliers show, where that is worth more. Gives what it is worth then.
fn take_shown(
    case: &Case<'_>,
    multipliers: &mut [i64],
    table: &mut Table,
    work: &mut Work,
) -> Result<Bound, Memory>
    requires case { IsCase case.now.instance.now case.now.nets.now case.now.sets.now }
    requires multipliers { AreMultipliers case.now.instance.now multipliers.old }
    requires fits { Fits case.now.instance.now table.old }
    requires holds { HoldingTable case.now.instance.now table.old }
    ensures fits { Fits case.now.instance.now table.new }
    ensures holds { HoldingTable case.now.instance.now table.new }
    ensures no_less { IsWorthNoLess case.now.instance.now case.now.sets.now table.new table.old }
    ensures worth { IfOk result (IsWorth case.now.instance.now case.now.sets.now table.new) }
{
    let mut best = few_rounds(case, ROUNDS, multipliers, work)?;
    let own_worth = worth(case.instance, case.sets, table);
    let greatest = keep_better(&mut best.table, best.worth, table, own_worth);
    swap(table, &mut best.table);
    Ok(greatest)
}

/// Whether two layers may run some trip.
fn has_choice(instance: &Instance) -> bool {
    for i in 0..instance.trips() {
        if instance.trip(TripNo(i)).layers.count() > 1 {
            return true;
        }
    }
    false
}
