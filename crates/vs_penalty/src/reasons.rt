//! Prices that show that there is no plan for a reason that can be read off them. It is that one trip can't be run, or
//! that too many are under way at one minute.

ghost use Rattle.std.specs.Prelude.{◌≡◌, ◌<◌, IfOk, IfSome, length};
ghost use Rattle.vs_multi.specs.Multipliers.{AreMultipliers};
ghost use Rattle.vs_multi.specs.Rounds.{IsCase};
ghost use Rattle.vs_penalty.specs.Rays.{IsHolding};

use crate::minutes::under_way;
use crate::paying::{evenly, pay_at, pay_one};
use std::alloc::Global;
use vs_circ::Work;
use vs_connect::{in_cost, out_cost};
use vs_instance::Instance;
use vs_multi::{Case, Watch, few_rounds};
use vs_prices::{Bound, Table};
use vs_types::{LayerNo, LayerSet, Memory, TripNo};

/// How many minutes, and how many trips alone, are tried: the fullest minutes are those at which vehicles are short.
const TRIALS: u32 = 10;

/// Prices at multipliers that pay one trip alone, or those under way at one minute, where these can't be run all; of an
/// instance without rates. Once the watch says that it is over, nothing more is tried.
pub(crate) fn plain_reason<W: Watch>(
    case: &Case<'_>,
    work: &mut Work,
    watch: &W,
) -> Result<Option<Table>, Memory>
    requires { IsCase case.now.instance.now case.now.nets.now case.now.sets.now }
    ensures { IfOk result (λ found. IfSome found (IsHolding case.now.instance.now)) }
{
    let found = one_trip(case, work, watch)?;
    if found.is_some() {
        return Ok(found);
    }
    one_minute(case, work, watch)
}

/// The prices of this trial, where they show that the trips that are paid can't be run all.
fn trial<W: Watch>(
    case: &Case<'_>,
    multipliers: &mut [i64],
    work: &mut Work,
    watch: &W,
) -> Result<Option<Table>, Memory>
    requires case { IsCase case.now.instance.now case.now.nets.now case.now.sets.now }
    requires multipliers { AreMultipliers case.now.instance.now multipliers.old }
    ensures found { IfOk result (λ found. IfSome found (IsHolding case.now.instance.now)) }
    ensures multipliers { AreMultipliers case.now.instance.now multipliers.new }
{
    if watch.is_over() {
        return Ok(None);
    }
    let best = few_rounds(case, 1, multipliers, work)?;
    if Bound::AtLeast(0).is_no_less(best.worth) {
        return Ok(None);
    }
    Ok(Some(best.table))
}

/// Tries trips alone, those that no vehicle of their layers reaches from its depot and brings back there.
fn one_trip<W: Watch>(case: &Case<'_>, work: &mut Work, watch: &W) -> Result<Option<Table>, Memory>
    requires { IsCase case.now.instance.now case.now.nets.now case.now.sets.now }
    ensures { IfOk result (λ found. IfSome found (IsHolding case.now.instance.now)) }
{
    let mut paid = evenly(case, 0)?;
    let multipliers: &mut [i64] = &mut paid;
    let mut left = TRIALS;
    for i in 0..case.instance.trips() {
        let i = TripNo(i);
        if left > 0 && !is_run_alone(case.instance, case.sets[i.0 as usize], i) {
            left -= 1;
            pay_one(case.instance, i, multipliers);
            let found = trial(case, multipliers, work, watch)?;
            if found.is_some() {
                return Ok(found);
            }
        }
    }
    Ok(None)
}

/// Whether a vehicle of one of these layers may run the trip alone.
fn is_run_alone(instance: &Instance, set: LayerSet, i: TripNo) -> bool
    requires { i.0 < length instance.now.trips }
{
    for l in 0..instance.layers() {
        let l = LayerNo(l);
        if set.has(l)
            && instance.layer(l).fleet > 0
            && out_cost(instance, l, i).is_some()
            && in_cost(instance, l, i).is_some()
        {
            return true;
        }
    }
    false
}

/// Tries the minutes at which most trips are under way.
fn one_minute<W: Watch>(
    case: &Case<'_>,
    work: &mut Work,
    watch: &W,
) -> Result<Option<Table>, Memory>
    requires { IsCase case.now.instance.now case.now.nets.now case.now.sets.now }
    ensures { IfOk result (λ found. IfSome found (IsHolding case.now.instance.now)) }
{
    let mut multipliers = evenly(case, 0)?;
    let mut counts = vec![in case.alloc; 0; case.instance.trips() as usize]?;
    count_all(case.alloc, case.instance, &mut counts)?;
    for _ in 0..TRIALS {
        let minute = fullest(case.instance, &counts);
        leave_out(case.instance, minute, &mut counts);
        pay_at(case.instance, minute, &mut multipliers);
        let found = trial(case, &mut multipliers, work, watch)?;
        if found.is_some() {
            return Ok(found);
        }
    }
    Ok(None)
}

/// By trip, how many are under way as it starts.
fn count_all(alloc: Global, instance: &Instance, counts: &mut [i32]) -> Result<(), Memory>
    requires { length counts.old ≡ length instance.now.trips }
    ensures { length counts.new ≡ length counts.old }
{
    let by_minute = under_way(alloc, instance)?;
    for i in 0..instance.trips() {
        counts[i as usize] = by_minute[instance.trip(TripNo(i)).start as usize];
    }
    Ok(())
}

/// The minute at which most are under way, by these counts.
fn fullest(instance: &Instance, counts: &[i32]) -> u32
    requires { length counts.now ≡ length instance.now.trips }
{
    let (mut minute, mut most) = (0, 0);
    for i in 0..instance.trips() {
        if counts[i as usize] > most {
            most = counts[i as usize];
            minute = instance.trip(TripNo(i)).start;
        }
    }
    minute
}

/// Leaves this minute out from now on.
fn leave_out(instance: &Instance, minute: u32, counts: &mut [i32])
    requires { length counts.old ≡ length instance.now.trips }
{
    for i in 0..instance.trips() {
        if instance.trip(TripNo(i)).start == minute {
            counts[i as usize] = 0;
        }
    }
}
