//! A climb on a leaf: to better multipliers, and to what shows by which trip the leaf is split.

ghost use Rattle.std.specs.Prelude.{IfOk};
ghost use Rattle.vs_multi.specs.Rounds.{IsCase};
ghost use Rattle.vs_prices.specs.Bounds.{IsWorthNoLess};
ghost use Rattle.vs_prices.specs.Table.{Fits, HoldingTable};
ghost use Rattle.vs_prices.specs.Worth.{IsWorth};
ghost use Rattle.vs_node.specs.SplitRule.{AreLeadsFor};

use crate::care::{Care, most_cuts, most_rounds};
use crate::leads::Leads;
use crate::room::Room;
use vs_bundle::{Aim, Lanes, Shares, climb};
use vs_multi::{Case, few_rounds, greatest_step, keep_better, multipliers_of, raise};
use vs_prices::{Bound, Table};
use vs_types::{Memory, SCALE};

/// The first step of a climb, in per cent of the greatest: the parent's multipliers are near.
const FIRST_STEP: u32 = 1;

/// After so many rounds a climb below the root ends where none has gained anything. One that knows circulations gains
/// for the first time after some ten, or after forty on a hard leaf.
const TRIAL_ROUNDS: u32 = 40;

/// How much effort the circulations of a climb take at most, as `Work::effort` counts it. It is a tenth of what the
/// first climb at the root may take.
const EFFORT: u64 = 4_000_000;

/// One round shows what the best multipliers are worth.
const LAST_ROUNDS: u32 = 1;

/// What a climb on a leaf found.
#[derive(Drop)]
pub(crate) struct Climb {
    /// What the table is worth then.
    pub worth: Bound,
    pub leads: Leads,
}

/// Makes a table, which is worth so much, better by a climb from the multipliers that it stands for, and by sweeps
/// where care is taken. Without any care it stays as it is, and nothing is known of how layers share trips. The climb
/// ends early where the watch says so.
pub(crate) fn refine<W: Lanes>(
    case: &Case<'_>,
    known: Option<i64>,
    care: Care,
    table: &mut Table,
    own_worth: Bound,
    room: &mut Room,
    watch: &W,
) -> Result<Climb, Memory>
    requires works { W.works watch.now }
    requires case { IsCase case.now.instance.now case.now.nets.now case.now.sets.now }
    requires fits { Fits case.now.instance.now table.old }
    requires holds { HoldingTable case.now.instance.now table.old }
    requires worth { IsWorth case.now.instance.now case.now.sets.now table.old own_worth }
    ensures fits { Fits case.now.instance.now table.new }
    ensures holds { HoldingTable case.now.instance.now table.new }
    ensures no_less { IsWorthNoLess case.now.instance.now case.now.sets.now table.new table.old }
    ensures worth { IfOk result (λ climb.
        IsWorth case.now.instance.now case.now.sets.now table.new climb.worth) }
    ensures leads { IfOk result (λ climb. AreLeadsFor case.now.sets.now climb.leads) }
{
    if care.is_none() {
        return as_it_is(case, table, own_worth);
    }
    let climbed = climb_on(case, known, care, table, own_worth, room, watch)?;
    if care.is_little() {
        return Ok(climbed);
    }
    let worth = raise(case, table, climbed.worth, &mut room.work)?;
    Ok(Climb {
        worth,
        leads: climbed.leads,
    })
}

/// A table as it is, which is worth so much.
fn as_it_is(case: &Case<'_>, table: &Table, worth: Bound) -> Result<Climb, Memory>
    requires case { IsCase case.now.instance.now case.now.nets.now case.now.sets.now }
    requires fits { Fits case.now.instance.now table.now }
    requires worth { IsWorth case.now.instance.now case.now.sets.now table.now worth }
    ensures worth { IfOk result (λ climb.
        IsWorth case.now.instance.now case.now.sets.now table.now climb.worth) }
    ensures leads { IfOk result (λ climb. AreLeadsFor case.now.sets.now climb.leads) }
{
    Ok(Climb {
        worth,
        leads: Leads {
            multipliers: multipliers_of(case, table)?,
            shares: Shares::none(case)?,
        },
    })
}

/// Climbs from the multipliers that a table stands for, which is worth so much. The table becomes what the best ones
/// show, where that is worth more.
fn climb_on<W: Lanes>(
    case: &Case<'_>,
    known: Option<i64>,
    care: Care,
    table: &mut Table,
    own_worth: Bound,
    room: &mut Room,
    watch: &W,
) -> Result<Climb, Memory>
    requires works { W.works watch.now }
    requires case { IsCase case.now.instance.now case.now.nets.now case.now.sets.now }
    requires fits { Fits case.now.instance.now table.old }
    requires holds { HoldingTable case.now.instance.now table.old }
    requires worth { IsWorth case.now.instance.now case.now.sets.now table.old own_worth }
    ensures fits { Fits case.now.instance.now table.new }
    ensures holds { HoldingTable case.now.instance.now table.new }
    ensures no_less { IsWorthNoLess case.now.instance.now case.now.sets.now table.new table.old }
    ensures worth { IfOk result (λ climb.
        IsWorth case.now.instance.now case.now.sets.now table.new climb.worth) }
    ensures leads { IfOk result (λ climb. AreLeadsFor case.now.sets.now climb.leads) }
{
    let mut multipliers = multipliers_of(case, table)?;
    let aim = aim_for(case, known, care)?;
    let (cuts, work) = (&mut room.cuts, &mut room.work);
    let climbed = climb(case, &aim, cuts, &mut multipliers, work, watch)?;
    let mut last = Vec::from_slice(case.alloc, &multipliers)?;
    let mut best = few_rounds(case, LAST_ROUNDS, &mut last, work)?;
    let worth = keep_better(table, own_worth, &mut best.table, best.worth);
    let leads = Leads {
        multipliers,
        shares: climbed.shares,
    };
    Ok(Climb { worth, leads })
}

/// What the climb is to come to, where the cheapest plan that is known costs so much.
fn aim_for(case: &Case<'_>, known: Option<i64>, care: Care) -> Result<Aim, Memory> {
    let rounds = most_rounds(case.instance, care);
    Ok(Aim {
        known: known.map(|cost| cost.saturating_mul(SCALE)),
        most: greatest_step(case.alloc, case.instance)?,
        hundredths: FIRST_STEP,
        cuts: most_cuts(case.instance),
        rounds,
        trial_rounds: if care.is_full() { rounds } else { TRIAL_ROUNDS },
        paced: !care.is_full(),
        effort: EFFORT,
    })
}
