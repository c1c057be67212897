//! The cuts of all layers, and what is lacking of each trip by their weights.

ghost use Rattle.std.specs.Prelude.{◌≡◌, ◌*◌, ◌<◌, ◌≤◌, All, IfOk, IsTrue, length, pos, ◌≤ℤ◌, vec_len};
ghost use Rattle.vs_cuts.specs.declared.whole.TheConstants.{MOST_NUMBER, MOST_TRIPS, WHOLE};
ghost use Rattle.vs_weights.specs.declared.layer_cuts.TheConstants.{MOST_CUTS};

use crate::lacking::Lacking;
use crate::layer_cuts::LayerCuts;
use std::alloc::Global;
use vs_cuts::{Found, WHOLE};
use vs_types::Memory;

/// The cuts of all layers.
#[derive(Drop)]
pub struct Bundle {
    /// By layer.
    pub(crate) layers: Vec<LayerCuts>,
    pub(crate) lacking: Lacking,
    ghost each: { All (λ layer. layer.trips ≡ lacking.free.trips) layers.items },
}

impl Bundle {
    ghost use Rattle.vs_cuts.specs.Numbers.{AreNear, IsPart};
    ghost use Rattle.vs_weights.specs.Shares.{AreParts};
    ghost use Rattle.vs_weights.specs.Bundles.{AreFound, HasSizes, layers_of, trips_of_all};

    /// Room for so many cuts of each layer and a mixed one.
    pub fn new(alloc: Global, trips: usize, layers: u32, most: u32) -> Result<Bundle, Memory>
        requires trips { trips ≤ MOST_TRIPS }
        requires most { most ≤ MOST_CUTS }
        ensures { IfOk result (HasSizes trips layers) }
    {
        let mut cuts = Vec::with_capacity(alloc, layers as usize)?;
        for _ in 0..layers {
            cuts.push(LayerCuts::new(alloc, trips, most)?)?;
        }
        Ok(Bundle {
            layers: cuts,
            lacking: Lacking::new(alloc, trips)?,
        })
    }

    /// Whether it is one of so many trips and layers, with room for so many cuts of each.
    pub fn is_for(&self, trips: usize, layers: u32, most: u32) -> bool
        ensures { IsTrue result → HasSizes trips layers self.now }
    {
        self.lacking.free.trips == trips
            && self.layers.len() == layers as usize
            && self
                .layers
                .iter()
                .all(|layer| layer.cuts.len() == most as usize + 1)
    }

    /// Among how many trips its cuts have theirs.
    pub fn trips(&self) -> usize
        ensures { result ≡ trips_of_all self.now }
    {
        self.lacking.free.trips
    }

    /// Of how many layers it has cuts.
    pub fn layers(&self) -> usize
        ensures { result ≡ layers_of self.now }
    {
        self.layers.len()
    }

    /// What the errors of these circulations, one of each layer, come to at the best multipliers.
    pub fn errors_of(&self, found: &[Found], multipliers: &[i64]) -> i64
        requires found { AreFound (trips_of_all self.now) (layers_of self.now) found.now }
        requires each { length multipliers.now ≡ trips_of_all self.now }
        requires near { AreNear MOST_NUMBER multipliers.now }
    {
        let mut errors: i64 = 0;
        for l in 0..self.layers.len() {
            let part = self.layers[l].part;
            errors = errors.saturating_add(found[l].cut.error(part, multipliers));
        }
        errors
    }

    /// Takes the multipliers at which these circulations, one of each layer, were found for the best ones.
    pub fn take(&mut self, found: &[Found], multipliers: &[i64])
        requires found { AreFound (trips_of_all self.old) (layers_of self.old) found.now }
        requires each { length multipliers.now ≡ trips_of_all self.old }
        requires near { AreNear MOST_NUMBER multipliers.now }
        ensures { HasSizes (trips_of_all self.old) (layers_of self.old) self.new }
    {
        for l in 0..self.layers.len() {
            let layer = &mut self.layers[l];
            layer.part = found[l].part;
            layer.set_errors(multipliers);
        }
    }

    /// Keeps these circulations, one of each layer, with this weight. What they are exchanged for is of no use.
    pub fn keep(&mut self, found: &mut [Found], weight: i64, multipliers: &[i64])
        requires found { AreFound (trips_of_all self.old) (layers_of self.old) found.old }
        requires weight { IsPart weight }
        requires each { length multipliers.now ≡ trips_of_all self.old }
        requires near { AreNear MOST_NUMBER multipliers.now }
        ensures sizes { HasSizes (trips_of_all self.old) (layers_of self.old) self.new }
        ensures found { AreFound (trips_of_all self.old) (layers_of self.old) found.new }
    {
        for l in 0..self.layers.len() {
            let layer = &mut self.layers[l];
            layer.keep(&mut found[l].cut, weight, multipliers, &self.lacking.free);
            layer.settle(&mut self.lacking);
        }
    }

    /// Holds multipliers of 0 there where they would fall, and frees all others.
    pub fn set_free(&mut self, multipliers: &[i64])
        requires { length multipliers.now ≡ trips_of_all self.old }
        ensures { HasSizes (trips_of_all self.old) (layers_of self.old) self.new }
    {
        if self.lacking.hold(multipliers) {
            self.renew_all();
        }
    }

    /// Reckons all products.
    fn renew_all(&mut self)
        ensures { HasSizes (trips_of_all self.old) (layers_of self.old) self.new }
    {
        for l in 0..self.layers.len() {
            let layer = &mut self.layers[l];
            layer.renew_all(&self.lacking.free);
        }
    }

    /// How much of a trip no layer runs, in parts of a whole trip; below 0 where several run it.
    pub fn lack(&self, i: usize) -> i64
        requires { i < trips_of_all self.now }
    {
        self.lacking.of(i)
    }

    /// How much of each trip each layer runs, in parts of a whole trip.
    pub fn set_shares(&self, shares: &mut [u32])
        requires each { length shares.old ≡ trips_of_all self.now * layers_of self.now }
        requires parts { AreParts shares.old }
        ensures { AreParts shares.new }
    {
        let trips = self.lacking.free.trips;
        for entry in 0..shares.len() {
            shares[entry] = self.share(entry / trips, entry % trips);
        }
    }

    /// How much of a trip a layer runs, in parts of a whole trip.
    fn share(&self, l: usize, i: usize) -> u32
        requires layer { l < layers_of self.now }
        requires trip { i < trips_of_all self.now }
        ensures { pos result ≤ℤ WHOLE }
    {
        self.layers[l].share(i).max(0).min(WHOLE) as u32
    }
}
