//! How the work at the root asks the gate whether the search is to end.

ghost use Rattle.std.specs.Prelude.{◌≡◌};

use crate::site::Gate;
use std::marker::Sync;
use std::sync::atomic::{AtomicI64, Ordering};
use vs_multi::Watch;
use vs_tree::Stand;
use vs_types::SCALE;

/// What the least cost is while no plan is known: no plan costs as much.
const NO_COST: i64 = i64::MAX;

/// Asks the gate within the work at the root, with what was told so far.
#[derive(Drop)]
pub(crate) struct RootWatch<'a, G: Gate> {
    gate: &'a G,
    /// The least cost that was told, in cost units, or `NO_COST`.
    cost: AtomicI64,
    /// The greatest value, in 1/1000 of a cost unit.
    value: AtomicI64,
}

impl<'a, G: Gate> RootWatch<'a, G> {
    /// Nothing was told or asked yet.
    pub(crate) fn new(gate: &'a G) -> RootWatch<'a, G>
        ensures { result.gate.now ≡ gate.now }
    {
        RootWatch {
            gate,
            cost: AtomicI64::new(NO_COST),
            value: AtomicI64::new(i64::MIN),
        }
    }

    /// How far the search has come, whose root is worked on.
    fn stand(&self) -> Stand {
        let cost = self.cost.load(Ordering::SeqCst);
        let bound = rounded_up(self.value.load(Ordering::SeqCst));
        Stand {
            finished: 0,
            open: 1,
            cost: if cost == NO_COST { None } else { Some(cost) },
            bound: Some(i128::from(bound.min(cost))),
        }
    }
}

impl<G: Gate + Sync> Watch for RootWatch<'_, G> {
    ghost may_end = { λ watch. G.may_stop watch.gate.now };

    fn tell(&self, cost: Option<i64>, value: i64) {
        if let Some(cost) = cost {
            let least = self.cost.load(Ordering::SeqCst).min(cost);
            self.cost.store(least, Ordering::SeqCst);
        }
        let greatest = self.value.load(Ordering::SeqCst).max(value);
        self.value.store(greatest, Ordering::SeqCst);
    }

    fn is_over(&self) -> bool {
        self.gate.is_over(&self.stand())
    }
}

/// A value of 1/1000 of a cost unit in cost units, rounded up.
fn rounded_up(value: i64) -> i64 {
    let down = value.div_euclid(SCALE);
    if value.rem_euclid(SCALE) > 0 {
        down + 1
    } else {
        down
    }
}
