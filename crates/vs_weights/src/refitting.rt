//! Cuts made ready for a climb within other sets of layers.

ghost use Rattle.std.specs.Prelude.{◌≡◌, ◌<◌, ◌≤◌, length};
ghost use Rattle.vs_weights.specs.Bundles.{HasSizes, layers_of, trips_of_all};
ghost use Rattle.vs_weights.specs.Layers.{IsLike};
ghost use Rattle.vs_types.specs.declared.numbers.TheConstants.{MAX_LAYERS};

use crate::bundle::Bundle;
use crate::layer_cuts::LayerCuts;
use crate::standing::Standing;
use vs_types::{LayerNo, LayerSet};

impl Bundle {
    /// Takes all weights off, and drops the circulations that run a trip in a layer outside of its set, and those that
    /// are mixed.
    pub fn refit(&mut self, sets: &[LayerSet])
        requires each { length sets.now ≡ trips_of_all self.old }
        requires few { layers_of self.old ≤ MAX_LAYERS }
        ensures { HasSizes (trips_of_all self.old) (layers_of self.old) self.new }
    {
        self.lacking.clear();
        for l in 0..self.layers.len() {
            let layer = &mut self.layers[l];
            layer.unload();
            layer.drop_outside(LayerNo(l as u32), sets);
        }
    }
}

impl LayerCuts {
    /// Takes all weights off.
    fn unload(&mut self)
        ensures { IsLike self.old self.new }
    {
        for place in 0..self.standings.len() {
            self.standings[place].unload();
        }
    }

    /// Drops the cuts that aren't single circulations of this layer within these sets.
    fn drop_outside(&mut self, l: LayerNo, sets: &[LayerSet])
        requires layer { l.0 < MAX_LAYERS }
        requires each { length sets.now ≡ self.old.trips }
        ensures { IsLike self.old self.new }
    {
        for place in 0..self.cuts.len() {
            if !self.cuts[place].is_within(l, sets) {
                self.standings[place] = Standing::none();
            }
        }
    }
}
