//! Which trips may be shared out anew, and in which layers.

ghost use Rattle.std.specs.Prelude.{◌≡◌, ◌≢◌, ◌≤◌, ℕ, [], length};
ghost use Rattle.vs_types.specs.LayerSet.{Has, members};
ghost use Rattle.vs_instance.specs.Restriction.{IsRestriction};
ghost use Rattle.vs_instance.specs.declared.limits.TheConstants.{MAX_TRIPS};
ghost use Rattle.vs_multi.specs.Multipliers.{AreWithin, IsMultiplier};

use crate::pool::Pool;
use vs_instance::{Instance, Trip};
use vs_types::{LayerSet, TripNo};

/// All layers there may be.
pub const ALL: LayerSet = LayerSet(u16::MAX);

/// How many minutes before and after a drawn trip those start that are shared out anew with it.
const HALF_WINDOW: u32 = 75;

/// The layers of so many of the cheapest choices are those in which every second round of passes is made.
const WIDTH: usize = 6;

/// Which trips may be shared out anew, and in which layers.
#[derive(Clone, Copy, Debug)]
pub(crate) struct Scope {
    pub layers: LayerSet,
    /// The first and the last minute at which those trips start.
    first: u32,
    last: u32,
}

impl Scope {
    /// The trips of these layers.
    pub fn of_layers(layers: LayerSet) -> Scope {
        Scope {
            layers,
            first: 0,
            last: u32::MAX,
        }
    }

    /// All trips that start at about this minute.
    pub fn about(minute: u32) -> Scope {
        Scope {
            layers: ALL,
            first: minute.saturating_sub(HALF_WINDOW),
            last: minute.saturating_add(HALF_WINDOW),
        }
    }

    /// The layers in which a trip of this layer may be run.
    fn layers_for(self, trip: &Trip, own: LayerSet) -> LayerSet {
        let is_free = own.0 & self.layers.0 != 0
            && self.first <= trip.start
            && trip.start <= self.last;
        if is_free { self.layers } else { own }
    }
}

/// Lets each trip be run by those layers alone that it has by a scope, where it is given to these layers.
pub(crate) fn free_within(
    instance: &Instance,
    scope: Scope,
    own: &[LayerSet],
    sets: &mut [LayerSet],
)
    requires own { length own.now ≡ length instance.now.trips }
    requires sets { length sets.old ≡ length instance.now.trips }
    ensures { IsRestriction instance.now sets.new }
{
    for i in 0..instance.trips() {
        let trip = instance.trip(TripNo(i));
        let layers = scope.layers_for(trip, own[i as usize]);
        sets[i as usize] = narrowed(trip.layers, layers);
    }
}

/// Lets each trip be run by those layers alone that it is given to or that the cheapest choices give it to.
pub(crate) fn free_among(instance: &Instance, pool: &Pool, own: &[LayerSet], sets: &mut [LayerSet])
    requires own { length own.now ≡ length instance.now.trips }
    requires sets { length sets.old ≡ length instance.now.trips }
    ensures { IsRestriction instance.now sets.new }
{
    for i in 0..instance.trips() {
        let trip = instance.trip(TripNo(i));
        let given = pool.given(i as usize, WIDTH);
        let layers = LayerSet(own[i as usize].0 | given.0);
        sets[i as usize] = narrowed(trip.layers, layers);
    }
}

/// How many trips may be run by several layers.
pub(crate) fn count_free(sets: &[LayerSet]) -> u32
    requires { length sets.now ≤ MAX_TRIPS }
{
    let mut free = 0;
    for set in sets {
        if set.count() > 1 {
            free += 1;
        }
    }
    free
}

/// Lets a trip begin with its best multiplier where several layers may run it, and else with so much that it is run in
/// any case.
pub(crate) fn offer_free(sets: &[LayerSet], best: &[i64], high: i64, offered: &mut [i64])
    requires sets { length sets.now ≡ length offered.old }
    requires best { length best.now ≡ length offered.old }
    requires best_within { AreWithin best.now }
    requires high { IsMultiplier (length offered.old) high }
    requires within { AreWithin offered.old }
    ensures within { AreWithin offered.new }
    ensures each { length offered.new ≡ length offered.old }
{
    for i in 0..offered.len() {
        offered[i] = if sets[i].count() > 1 { best[i] } else { high };
    }
}

/// Those of the permitted layers that are wanted, or all where there are none.
pub(crate) fn narrowed(permitted: LayerSet, wanted: LayerSet) -> LayerSet
    requires { members permitted ≢ [] }
    ensures some { members result ≢ [] }
    ensures part { (l : ℕ) → Has result l → Has permitted l }
{
    let common = permitted.minus(permitted.minus(wanted));
    match common.lowest() {
        Some(_lowest) => common,
        None => permitted,
    }
}
