//! Multipliers that are climbed by cuts.

ghost use Rattle.std.specs.Prelude.{IfOk};
ghost use Rattle.vs_multi.specs.Multipliers.{AreMultipliers};

use crate::multipliers::{even, started};
use std::alloc::Global;
use std::test::Fail;
use test_fixtures::instance_of;
use test_fixtures::texts::{LAYER, STOPS, TRIPS};
use vs_bundle::{Aim, Climbed, KeptCuts, WHOLE, climb};
use vs_circ::Work;
use vs_instance::Instance;
use vs_match::layer_nets;
use vs_multi::{Case, NoWatch, greatest_step};
use vs_prices::permitted_sets;
use vs_types::Memory;

/// Those of `start`, or as little for each trip as `even` pays.
fn begun_at(alloc: Global, instance: &Instance, low: bool) -> Result<Vec<i64>, Memory>
    ensures { IfOk result (λ multipliers. AreMultipliers instance.now multipliers.items) }
{
    if low {
        even(alloc, instance)
    } else {
        started(alloc, instance)
    }
}

/// A climb of so many rounds at most from a step of this size.
const fn aim_at(most: u64) -> Aim {
    Aim {
        known: None,
        most,
        hundredths: 2,
        cuts: 20,
        rounds: 60,
        trial_rounds: 60,
        paced: false,
        effort: u64::MAX,
    }
}

/// What a climb from these multipliers finds, with the cuts that are kept.
fn climbed_from(
    alloc: Global,
    instance: &Instance,
    kept: &mut KeptCuts,
    multipliers: &mut [i64],
) -> Result<Climbed, Memory>
    requires { AreMultipliers instance.now multipliers.old }
{
    let nets = layer_nets(alloc, instance)?;
    let sets = permitted_sets(alloc, instance)?;
    let mut work = Work::new(alloc, &nets)?;
    let aim = aim_at(greatest_step(alloc, instance)?);
    let case = Case {
        alloc,
        instance,
        nets: &nets,
        sets: &sets,
    };
    climb(&case, &aim, kept, multipliers, &mut work, &NoWatch)
}

/// The value that a climb comes to, and how much of each trip the layer runs then.
fn climbed(alloc: Global, low: bool) -> Result<(i64, Vec<u32>), Fail> {
    let instance = instance_of(alloc, &[STOPS, LAYER, TRIPS])?;
    let mut multipliers = begun_at(alloc, &instance, low)?;
    let mut kept = KeptCuts::none();
    let climbed = climbed_from(alloc, &instance, &mut kept, &mut multipliers)?;
    Ok((climbed.value, climbed.shares.each))
}

/// The values that two climbs from the same multipliers come to, the second one with the cuts of the first.
fn climbed_twice(alloc: Global, low: bool) -> Result<(i64, i64), Fail> {
    let instance = instance_of(alloc, &[STOPS, LAYER, TRIPS])?;
    let mut kept = KeptCuts::none();
    let mut multipliers = begun_at(alloc, &instance, low)?;
    let first = climbed_from(alloc, &instance, &mut kept, &mut multipliers)?;
    let mut again = begun_at(alloc, &instance, low)?;
    let second = climbed_from(alloc, &instance, &mut kept, &mut again)?;
    Ok((first.value, second.value))
}

/// One vehicle runs both trips for 1080, and no multipliers are worth more.
#[test]
fn come_to_what_the_cheapest_plan_costs(rt: HostRuntime) -> Result<(), Fail> {
    for low in [false, true] {
        let (value, shares) = climbed(rt.alloc(), low)?;
        assert_eq!(rt; value, 1_080_000, "{low}");
        assert_eq!(rt; shares.as_slice(), [WHOLE as u32; 2].as_slice(), "{low}");
    }
    Ok(())
}

#[test]
fn come_as_far_with_cuts_that_are_kept(rt: HostRuntime) -> Result<(), Fail> {
    for low in [false, true] {
        assert_eq!(rt;
            climbed_twice(rt.alloc(), low)?,
            (1_080_000, 1_080_000),
            "{low}"
        );
    }
    Ok(())
}
