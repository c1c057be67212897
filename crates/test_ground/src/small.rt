//! The count of all plans of a small timetable, compared with plans that were counted by hand.

use std::alloc::{AllocError, Global};
use std::test::Fail;
use test_fixtures::small::{Layer, Small, Trip, Way, least_cost};

/// A way of so many minutes and metres.
const fn way(minutes: u64, metres: u64) -> Option<Way> {
    Some(Way { minutes, metres })
}

/// Vehicles that cost so much by the metre and rest so long.
const fn layer(per_metre: u64, stay: u64) -> Layer {
    Layer {
        bit: 1,
        depot: 0,
        fleet: 2,
        fixed: 1000,
        per_minute: 1,
        per_metre,
        stay,
    }
}

/// Two trips, of which the second starts at this minute.
fn timetable(alloc: Global, layer: Layer, start: u64) -> Result<Small, AllocError> {
    let first = Trip {
        from: 1,
        start: 480,
        to: 2,
        end: 510,
        metres: 0,
        layers: 1,
    };
    let second = Trip {
        from: 2,
        start,
        to: 1,
        end: start.saturating_add(30),
        metres: 0,
        layers: 1,
    };
    Ok(Small {
        ways: [
            way(0, 0),
            way(10, 95),
            way(10, 95),
            way(10, 95),
            way(0, 0),
            way(15, 95),
            way(10, 95),
            way(15, 95),
            way(0, 0),
        ],
        layers: Vec::from_slice(alloc, &[layer])?,
        trips: Vec::from_slice(alloc, &[first, second])?,
    })
}

/// What a metre costs, the least rest, the minute at which the second trip starts, and what the two trips cost.
const COUNTED: [(u64, u64, u64, u64); 7] = [
    // Out for 50 minutes twice.
    (0, 20, 720, 1100),
    (0, 190, 720, 1100),
    // Out for 290 minutes.
    (0, 191, 720, 1290),
    // Out for 80 minutes.
    (0, 20, 510, 1080),
    // Two vehicles, out for 50 minutes each.
    (0, 20, 509, 2100),
    // 290 minutes and 190 metres, or 100 minutes and 380 metres.
    (1, 20, 720, 1480),
    // 100 minutes and 380 metres, a minute less than the direct way.
    (1, 20, 721, 1480),
];

#[test]
fn count_what_was_counted_by_hand(rt: HostRuntime) -> Result<(), Fail> {
    for (per_metre, stay, start, cost) in COUNTED {
        let small = timetable(rt.alloc(), layer(per_metre, stay), start)?;
        assert_eq!(rt; least_cost(&small), Some(cost), "{stay}, {start}");
    }
    Ok(())
}
