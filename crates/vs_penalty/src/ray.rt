//! Prices that show that there is no plan.

ghost use Rattle.std.specs.Prelude.{IfOk, IfSome};
ghost use Rattle.vs_instance.specs.Restriction.{IsRestriction};
ghost use Rattle.vs_instance.specs.Unrated.{without_rates};
ghost use Rattle.vs_multi.specs.Rounds.{IsCase};
ghost use Rattle.vs_prices.specs.Table.{Fits, HoldingTable};
ghost use Rattle.vs_penalty.specs.Rays.{ShowsNoPlan};

use crate::paying::evenly;
use crate::reasons::plain_reason;
use std::alloc::Global;
use vs_bundle::{Aim, Ascent, Lanes};
use vs_circ::Work;
use vs_instance::Instance;
use vs_match::layer_nets;
use vs_multi::{Case, Untold, few_rounds};
use vs_prices::{Bound, Table, worth};
use vs_types::{LayerSet, Memory, SCALE};

/// What each trip is paid at first, where nothing costs anything. How much is of no account, since only the proportions
/// count there. But whole numbers have to leave room for small parts of it.
const FIRST: i64 = 1_000_000;

/// The first step of the climb, in per cent of that.
const FIRST_STEP: u32 = 2;

/// How many circulations a layer keeps.
const CUTS: u32 = 50;

/// How much effort the circulations of the climb take at most, as `Work::effort` counts it: as much as those of the
/// first climb at the root.
const EFFORT: u64 = 40_000_000;

/// How many rounds of prices there are at the best multipliers.
const LAST_ROUNDS: u32 = 1;

/// Prices that show that no plan runs each trip in a layer of its set, where a climb of so many rounds finds any. They
/// are those of the instance without rates. Nothing costs anything there, so that its plans are worth nothing, and
/// prices that bound them above nothing leave none. The climb ends early where the watch says so.
pub fn seek_ray<W: Lanes>(
    alloc: Global,
    instance: &Instance,
    sets: &[LayerSet],
    rounds: u32,
    watch: &W,
) -> Result<Option<Table>, Memory>
    requires works { W.works watch.now }
    requires restriction { IsRestriction instance.now sets.now }
    ensures { IfOk result (λ ray. IfSome ray (ShowsNoPlan instance.now sets.now)) }
{
    let unrated = instance.without_rates(alloc)?;
    let table = unrated_table(alloc, &unrated, sets, rounds, watch)?;
    Ok(read_as_ray(instance, sets, table))
}

/// The prices at the multipliers that a climb of so many rounds leaves.
fn unrated_table<W: Lanes>(
    alloc: Global,
    unrated: &Instance,
    sets: &[LayerSet],
    rounds: u32,
    watch: &W,
) -> Result<Table, Memory>
    requires works { W.works watch.now }
    requires restriction { IsRestriction unrated.now sets.now }
    ensures fits { IfOk result (Fits unrated.now) }
    ensures holds { IfOk result (HoldingTable unrated.now) }
{
    let nets = layer_nets(alloc, unrated)?;
    let mut work = Work::new(alloc, &nets)?;
    let case = Case {
        alloc,
        instance: unrated,
        nets: &nets,
        sets,
    };
    climbed_table(&case, rounds, &mut work, &Untold { watch })
}

/// The same in this case, or the prices that give a plain reason, where such are found.
fn climbed_table<W: Lanes>(
    case: &Case<'_>,
    rounds: u32,
    work: &mut Work,
    watch: &W,
) -> Result<Table, Memory>
    requires works { W.works watch.now }
    requires case { IsCase case.now.instance.now case.now.nets.now case.now.sets.now }
    ensures fits { IfOk result (Fits case.now.instance.now) }
    ensures holds { IfOk result (HoldingTable case.now.instance.now) }
{
    let aim = Aim {
        known: Some(SCALE),
        most: FIRST as u64,
        hundredths: FIRST_STEP,
        cuts: CUTS,
        rounds,
        trial_rounds: rounds,
        paced: false,
        effort: EFFORT,
    };
    if let Some(table) = plain_reason(case, work, watch)? {
        return Ok(table);
    }
    let mut multipliers = evenly(case, FIRST)?;
    let mut ascent = Ascent::begin(case, &aim, &multipliers, work, watch)?;
    ascent.go_on(case, &aim, &mut multipliers, work, watch);
    let best = few_rounds(case, LAST_ROUNDS, &mut multipliers, work)?;
    Ok(best.table)
}

/// Prices of the instance without rates as a ray of the instance itself, where they show that there is no plan.
fn read_as_ray(instance: &Instance, sets: &[LayerSet], table: Table) -> Option<Table>
    requires restriction { IsRestriction instance.now sets.now }
    requires fits { Fits (without_rates instance.now) table }
    requires holds { HoldingTable (without_rates instance.now) table }
    ensures { IfSome result (ShowsNoPlan instance.now sets.now) }
{
    let ray = Table {
        into: table.into,
        from: table.from,
        fleet: table.fleet,
        ray: true,
    };
    match worth(instance, sets, &ray) {
        Bound::NoPlan => Some(ray),
        Bound::AtLeast(_) => None,
    }
}
