//! Peaks of small timetables, compared with a plain count of all ways to share the trips out.

use std::alloc::Global;
use std::test::Fail;
use test_fixtures::input_of;
use test_fixtures::small::{Layer, Small, least_cost, made, text_of};
use vs_peak::peaks;

/// How many timetables are drawn.
const DRAWN: u64 = 40;

/// The trips that one layer may run, with as many vehicles as there are trips, each of which costs 1.
fn of_layer(alloc: Global, small: &Small, layer: &Layer) -> Result<Small, Fail> {
    let mut trips = Vec::new(alloc);
    for trip in &small.trips {
        if trip.layers & layer.bit != 0 {
            trips.push(*trip)?;
        }
    }
    let fleet = (trips.len() as u64).max(1);
    let mut layers = Vec::new(alloc);
    layers.push(Layer {
        bit: layer.bit,
        depot: layer.depot,
        fleet,
        fixed: 1,
        per_minute: 0,
        per_metre: 0,
        stay: 100_000,
    })?;
    Ok(Small {
        ways: small.ways,
        layers,
        trips,
    })
}

#[test]
fn are_what_a_count_of_all_plans_finds(rt: HostRuntime) -> Result<(), Fail> {
    for number in 0..DRAWN {
        let small = made(rt.alloc(), number)?;
        let text = text_of(rt.alloc(), &small)?;
        let input = input_of(rt.alloc(), &text)?;
        let claimed = peaks(rt.alloc(), &input.instance)?;
        assert_eq!(rt; claimed.len(), small.layers.len(), "{number}");
        for (claim, layer) in claimed.iter().zip(&small.layers) {
            let least = least_cost(&of_layer(rt.alloc(), &small, layer)?);
            assert_eq!(rt; claim.count.map(u64::from), least, "{number}");
        }
    }
    Ok(())
}
