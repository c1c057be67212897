//! Small timetables drawn from numbers.

use crate::small::{Layer, Small, Trip, Way};
use std::alloc::{AllocError, Global};

/// A sequence of numbers.
#[derive(Drop)]
struct Draws {
    last: u64,
}

impl Draws {
    /// A number of at least this one that is less than so many more.
    fn draw(&mut self, least: u64, many: u64) -> u64 {
        self.last = self.last.wrapping_mul(48_271) % 2_147_483_647;
        least.saturating_add(self.last % many.max(1))
    }
}

/// A way that is no longer than two others together.
fn way(draws: &mut Draws) -> Way {
    Way {
        minutes: draws.draw(8, 9),
        metres: draws.draw(20, 21),
    }
}

/// The ways between three stops. Now and then none leads away from the last of them.
fn ways(draws: &mut Draws) -> [Option<Way>; 9] {
    let here = Some(Way {
        minutes: 0,
        metres: 0,
    });
    let leads_away = draws.draw(0, 6) != 0;
    let mut ways = [here; 9];
    for k in [1, 2, 3, 5, 6, 7] {
        let drawn = way(draws);
        ways[k] = if k < 6 || leads_away {
            Some(drawn)
        } else {
            None
        };
    }
    ways
}

fn layer(draws: &mut Draws, bit: u64) -> Layer {
    Layer {
        bit,
        depot: draws.draw(0, 2),
        fleet: draws.draw(2, 2),
        fixed: draws.draw(0, 200),
        per_minute: draws.draw(0, 4),
        per_metre: draws.draw(0, 3),
        stay: draws.draw(1, 60),
    }
}

/// A trip that starts at this minute.
fn trip(draws: &mut Draws, start: u64, all: u64) -> Trip {
    Trip {
        from: draws.draw(0, 3),
        start,
        to: draws.draw(0, 3),
        end: start.saturating_add(draws.draw(5, 40)),
        metres: draws.draw(0, 100),
        layers: draws.draw(1, all),
    }
}

/// Layers of one or two depots.
fn layers(alloc: Global, draws: &mut Draws) -> Result<Vec<Layer>, AllocError> {
    let mut layers = Vec::new(alloc);
    layers.push(layer(draws, 1))?;
    if draws.draw(0, 2) == 1 {
        layers.push(layer(draws, 2))?;
    }
    Ok(layers)
}

/// Three to five trips that the layers may run whose bits are together this.
fn trips(alloc: Global, draws: &mut Draws, all: u64) -> Result<Vec<Trip>, AllocError> {
    let mut trips = Vec::new(alloc);
    let mut start = draws.draw(12, 30);
    for _ in 0..draws.draw(3, 3) {
        trips.push(trip(draws, start, all))?;
        start = start.saturating_add(draws.draw(10, 120));
    }
    Ok(trips)
}

/// The timetable of a number.
pub fn made(alloc: Global, number: u64) -> Result<Small, AllocError> {
    let mut draws = Draws {
        last: number.wrapping_add(1),
    };
    let ways = ways(&mut draws);
    let layers = layers(alloc, &mut draws)?;
    let all = if layers.len() == 1 { 1 } else { 3 };
    let trips = trips(alloc, &mut draws, all)?;
    Ok(Small {
        ways,
        layers,
        trips,
    })
}
