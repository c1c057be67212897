//! The best table of rounds, by which layers are paid ever better for the trips that they run.
ghost use Rattle.std.specs.Prelude.{◌≡◌, ◌<◌, ◌≤◌, ◌≤ℤ◌, pos, IfOk, IfSome, None};
ghost use Rattle.vs_instance.specs.declared.limits.TheConstants.{MAX_MULTIPLIER};
ghost use Rattle.vs_instance.specs.Restriction.{IsRestriction};
ghost use Rattle.vs_match.specs.LayerNets.{AreLayerNets};
ghost use Rattle.vs_prices.specs.Bounds.{ReachesLagrangian};
ghost use Rattle.vs_prices.specs.Table.{Fits, HoldingTable};
ghost use Rattle.vs_prices.specs.Worth.{IsWorth};
ghost use Rattle.vs_multi.specs.Multipliers.{AreMultipliers};
ghost use Rattle.vs_multi.specs.Rounds.{IsBestOfRounds, IsBetter, IsCase, IsRound};
ghost use Rattle.vs_multi.specs.Steps.{HasRounds, IsGreatestStep};
ghost use Rattle.vs_multi.specs.declared.steps.Steps.TheVariants.{Halving, Near};
ghost use Rattle.vs_multi.specs.declared.steps.TheConstants.{ROUNDS};

use crate::round::{Case, Round};
use crate::starting::start;
use crate::steps::{Steps, mean};
use crate::watch::Watch;
use std::alloc::Global;
use std::mem::swap;
use vs_circ::Work;
use vs_instance::Instance;
use vs_match::LayerNet;
use vs_prices::{Bound, Table, worth};
use vs_types::{LayerSet, Memory};

/// What rounds found.
#[derive(Drop)]
pub struct Best {
    /// The table of the round of greatest worth, the earliest of several.
    pub table: Table,
    /// What it is worth within the sets.
    pub worth: Bound,
    /// How many layers run each trip in the last round.
    pub covers: Vec<u32>,
}

/// The greatest step, in 1/1000 of a cost unit: the mean of the multipliers to begin with, rounded down.
pub fn greatest_step(alloc: Global, instance: &Instance) -> Result<u64, Memory>
    ensures mean { IfOk result (IsGreatestStep instance.now) }
    ensures few { IfOk result (λ most. pos most ≤ℤ MAX_MULTIPLIER) }
{
    let mut multipliers = vec![in alloc; 0; instance.trips() as usize]?;
    start(instance, &mut multipliers);
    Ok(mean(&multipliers))
}

/// Exchanges the best table and another one where that is worth more. Gives what the best is worth then.
pub fn keep_better(best: &mut Table, greatest: Bound, table: &mut Table, worth: Bound) -> Bound
    ensures { IsBetter best.old greatest table.old worth best.new result table.new }
{
    if greatest.is_no_less(worth) {
        return greatest;
    }
    swap(best, table);
    worth
}

/// The best table of rounds of these steps. The multipliers move on.
fn best_of(
    case: &Case<'_>,
    steps: Steps,
    multipliers: &mut [i64],
    work: &mut Work,
) -> Result<Best, Memory>
    requires case { IsCase case.now.instance.now case.now.nets.now case.now.sets.now }
    requires steps { HasRounds steps }
    requires multipliers { AreMultipliers case.now.instance.now multipliers.old }
    ensures fits { IfOk result (λ best. Fits case.now.instance.now best.table) }
    ensures holds { IfOk result (λ best. HoldingTable case.now.instance.now best.table) }
    ensures worth { IfOk result (λ best.
        IsWorth case.now.instance.now case.now.sets.now best.table best.worth) }
    ensures lagrangian { IfOk result (λ best.
        ReachesLagrangian case.now.instance.now case.now.sets.now multipliers.old best.table) }
    ensures best { IfOk result (λ best. IsBestOfRounds case.now.instance.now case.now.nets.now
        case.now.sets.now steps multipliers.old best.table best.covers.items) }
    ensures within { AreMultipliers case.now.instance.now multipliers.new }
{
    let most = greatest_step(case.alloc, case.instance)?;
    let mut round = Round::new(case.alloc, case.instance)?;
    let mut table = Table::zero(case.alloc, case.instance)?;
    let first = round.run_on(case, steps.step(most, 0), multipliers, work)?;
    swap(&mut table, &mut round.table);
    let mut greatest = first;
    for r in 1..steps.rounds() {
        let worth = round.run_on(case, steps.step(most, r), multipliers, work)?;
        greatest = keep_better(&mut table, greatest, &mut round.table, worth);
    }
    Ok(Best {
        table,
        worth: greatest,
        covers: round.covers,
    })
}

/// The best table of 30 rounds. In each, every layer finds a least circulation of the trips whose sets have it. Each
/// trip is offered for its multiplier, and the layer's prices go into the round's table. Then a trip's multiplier rises
/// by a step where no layer runs it, and falls by one for each layer but one that does. The step is at first the mean
/// of the multipliers to begin with, and halved every five rounds. The table is worth no less than the Lagrangian value
/// at the first multipliers, and no less than the table of any of the rounds. The multipliers move on, also where
/// memory runs out. The search doesn't call it.
pub fn rounds(
    alloc: Global,
    instance: &Instance,
    nets: &[LayerNet],
    sets: &[LayerSet],
    multipliers: &mut [i64],
    work: &mut Work,
) -> Result<Best, Memory>
    requires nets { AreLayerNets instance.now nets.now }
    requires restriction { IsRestriction instance.now sets.now }
    requires multipliers { AreMultipliers instance.now multipliers.old }
    ensures fits { IfOk result (λ best. Fits instance.now best.table) }
    ensures holds { IfOk result (λ best. HoldingTable instance.now best.table) }
    ensures worth { IfOk result (λ best. IsWorth instance.now sets.now best.table best.worth) }
    ensures lagrangian { IfOk result (λ best.
        ReachesLagrangian instance.now sets.now multipliers.old best.table) }
    ensures best { IfOk result (λ best. IsBestOfRounds instance.now nets.now sets.now Halving
        multipliers.old best.table best.covers.items) }
    ensures within { AreMultipliers instance.now multipliers.new }
{
    let case = Case {
        alloc,
        instance,
        nets,
        sets,
    };
    best_of(&case, Steps::Halving, multipliers, work)
}

/// The same by so many rounds of small steps, which go on from what the multipliers know. In round r, counted from 0,
/// the step is a 400th of the mean, times 10 and divided by 10 + r.
pub fn few_rounds(
    case: &Case<'_>,
    rounds: u32,
    multipliers: &mut [i64],
    work: &mut Work,
) -> Result<Best, Memory>
    requires case { IsCase case.now.instance.now case.now.nets.now case.now.sets.now }
    requires some { 0 < rounds }
    requires few { rounds ≤ ROUNDS }
    requires multipliers { AreMultipliers case.now.instance.now multipliers.old }
    ensures fits { IfOk result (λ best. Fits case.now.instance.now best.table) }
    ensures holds { IfOk result (λ best. HoldingTable case.now.instance.now best.table) }
    ensures worth { IfOk result (λ best.
        IsWorth case.now.instance.now case.now.sets.now best.table best.worth) }
    ensures lagrangian { IfOk result (λ best.
        ReachesLagrangian case.now.instance.now case.now.sets.now multipliers.old best.table) }
    ensures best { IfOk result (λ best. IsBestOfRounds case.now.instance.now case.now.nets.now
        case.now.sets.now (Near rounds) multipliers.old best.table best.covers.items) }
    ensures within { AreMultipliers case.now.instance.now multipliers.new }
{
    best_of(case, Steps::Near { rounds }, multipliers, work)
}

/// The table of one round at these multipliers, which stay. None where the watch ends the round between two layers.
pub fn one_round<W: Watch>(
    case: &Case<'_>,
    multipliers: &[i64],
    work: &mut Work,
    watch: &W,
) -> Result<Option<Best>, Memory>
    requires case { IsCase case.now.instance.now case.now.nets.now case.now.sets.now }
    requires multipliers { AreMultipliers case.now.instance.now multipliers.now }
    ensures fits { IfOk result (λ found. IfSome found (λ best. Fits case.now.instance.now best.table)) }
    ensures holds { IfOk result (λ found. IfSome found (λ best. HoldingTable case.now.instance.now best.table)) }
    ensures worth { IfOk result (λ found. IfSome found (λ best.
        IsWorth case.now.instance.now case.now.sets.now best.table best.worth)) }
    ensures lagrangian { IfOk result (λ found. IfSome found (λ best.
        ReachesLagrangian case.now.instance.now case.now.sets.now multipliers.now best.table)) }
    ensures ran { IfOk result (λ found. IfSome found (λ best. IsRound case.now.instance.now case.now.nets.now
        case.now.sets.now multipliers.now best.table best.covers.items)) }
    ensures ended { IfOk result (λ found. found ≡ None → W.may_end watch.now) }
{
    let mut round = Round::new(case.alloc, case.instance)?;
    if !round.run_unless_over(case, multipliers, work, watch)? {
        return Ok(None);
    }
    let worth = worth(case.instance, case.sets, &round.table);
    Ok(Some(Best {
        table: round.table,
        worth,
        covers: round.covers,
    }))
}
