//! What a step would gain if some layers might not run a trip.

ghost use Rattle.std.specs.Prelude.{◌≡◌, ◌<◌, ◌≤◌, IfSome, vec_len};
ghost use Rattle.vs_weights.specs.Bundles.{HasSizes, layers_of, trips_of_all};
ghost use Rattle.vs_weights.specs.Layers.{IsLike};
ghost use Rattle.vs_types.specs.declared.numbers.TheConstants.{MAX_LAYERS};

use crate::bundle::Bundle;
use crate::layer_cuts::LayerCuts;
use vs_cuts::as_part;
use vs_types::{LayerNo, LayerSet};

impl Bundle {
    /// What a step of this length is forecast to gain if these layers might not run a trip, by the circulations that
    /// are known. None where one of the layers knows none without it. All weights are then as they were.
    pub fn forecast_without(
        &mut self,
        layers: LayerSet,
        trip: usize,
        step: i64,
        tolerance: i64,
    ) -> Option<i64>
        requires trip { trip < trips_of_all self.old }
        requires few { layers_of self.old ≤ MAX_LAYERS }
        ensures { HasSizes (trips_of_all self.old) (layers_of self.old) self.new }
    {
        self.note();
        let mut gain = None;
        if self.withhold(layers, trip) {
            gain = Some(self.weigh(step, tolerance).gain());
        }
        self.recall();
        gain
    }

    /// Notes how all cuts stand.
    fn note(&mut self)
        ensures { HasSizes (trips_of_all self.old) (layers_of self.old) self.new }
    {
        self.lacking.note();
        for l in 0..self.layers.len() {
            let layer = &mut self.layers[l];
            layer.noted.copy_from_slice(&layer.standings);
        }
    }

    /// Lets all cuts stand as was noted last.
    fn recall(&mut self)
        ensures { HasSizes (trips_of_all self.old) (layers_of self.old) self.new }
    {
        self.lacking.recall();
        for l in 0..self.layers.len() {
            let layer = &mut self.layers[l];
            layer.standings.copy_from_slice(&layer.noted);
        }
    }

    /// Lets these layers go on without the cuts that run a trip. Gives whether each has others.
    fn withhold(&mut self, layers: LayerSet, trip: usize) -> bool
        requires trip { trip < trips_of_all self.old }
        requires few { layers_of self.old ≤ MAX_LAYERS }
        ensures { HasSizes (trips_of_all self.old) (layers_of self.old) self.new }
    {
        let mut known = true;
        for l in 0..self.layers.len() {
            let layer = &mut self.layers[l];
            if layers.has(LayerNo(l as u32)) {
                known = layer.withhold(trip) && known;
                layer.settle(&mut self.lacking);
            }
        }
        known
    }
}

impl LayerCuts {
    /// Goes on without the cuts that run a trip: of the others, the one of least error has their weight too. Gives
    /// whether there are others.
    fn withhold(&mut self, trip: usize) -> bool
        requires { trip < self.old.trips }
        ensures { IsLike self.old self.new }
    {
        let Some(nearest) = self.nearest_without(trip) else {
            return false;
        };
        let mut weight = self.standings[nearest].weight;
        for place in 0..self.cuts.len() {
            if !self.is_without(place, trip) {
                let standing = &mut self.standings[place];
                weight = as_part(weight + standing.weight);
                standing.withhold();
            }
        }
        self.standings[nearest].weight = weight;
        true
    }

    /// The place of the cut of least error that doesn't run a trip.
    fn nearest_without(&self, trip: usize) -> Option<usize>
        requires { trip < self.now.trips }
        ensures { IfSome result (λ place. place < vec_len self.now.cuts) }
    {
        let mut nearest = None;
        let mut least = i64::MAX;
        for place in 0..self.cuts.len() {
            let error = self.standings[place].error;
            if error < least && self.is_without(place, trip) {
                nearest = Some(place);
                least = error;
            }
        }
        nearest
    }

    /// Whether there is a cut at a place, and it doesn't run a trip.
    fn is_without(&self, place: usize, trip: usize) -> bool
        requires place { place < vec_len self.now.cuts }
        requires trip { trip < self.now.trips }
    {
        self.standings[place].held && self.cuts[place].share(trip) == 0
    }
}
