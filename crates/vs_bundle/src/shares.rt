//! How much of each trip each layer runs.

ghost use Rattle.std.specs.Prelude.{◌≡◌, ◌*◌, ◌^◌, ◌<◌, ◌≤◌, ◌≤ℤ◌, ℕ, IfOk, length, pos, slice_index, vec_len};
ghost use Rattle.vs_types.specs.declared.numbers.TheConstants.{MAX_LAYERS};
ghost use Rattle.vs_instance.specs.declared.limits.TheConstants.{MAX_TRIPS};
ghost use Rattle.vs_weights.specs.Bundles.{HasSizes};
ghost use Rattle.vs_weights.specs.Shares.{AreParts};
ghost use Rattle.vs_cuts.specs.declared.whole.TheConstants.{WHOLE};

use vs_instance::{MAX_LAYERS, MAX_TRIPS};
use vs_multi::Case;
use vs_types::{LayerNo, Memory, TripNo};
use vs_weights::Bundle;

/// How much of each trip each layer runs, in parts of `WHOLE`.
#[derive(Drop)]
pub struct Shares {
    /// By layer, and within that by trip.
    pub each: Vec<u32>,
    trips: usize,
    layers: u32,
    ghost few_trips: { trips ≤ MAX_TRIPS },
    ghost few_layers: { layers ≤ MAX_LAYERS },
    ghost sizes: { vec_len each ≡ trips * layers },
    ghost parts: { AreParts each.items },
}

impl Shares {
    ghost use Rattle.vs_bundle.specs.Climbs.{AreSharesFor};

    /// What the circulations of a bundle, mixed by their weights, run.
    pub(crate) fn of(case: &Case<'_>, bundle: &Bundle) -> Result<Shares, Memory>
        requires { HasSizes (length case.now.instance.now.trips) (length case.now.instance.now.layers) bundle.now }
        ensures { IfOk result (AreSharesFor case.now.instance.now) }
    {
        prove!(case.instance.trips() <= MAX_TRIPS && case.instance.layers() <= MAX_LAYERS);
        let trips = case.instance.trips() as usize;
        let layers = case.instance.layers();
        let mut each = vec![in case.alloc; 0; trips * layers as usize]?;
        bundle.set_shares(&mut each);
        Ok(Shares {
            each,
            trips,
            layers,
        })
    }

    /// No layer runs any trip.
    pub fn none(case: &Case<'_>) -> Result<Shares, Memory>
        ensures shares { IfOk result (AreSharesFor case.now.instance.now) }
        ensures none { IfOk result (λ shares. (k : ℕ) → slice_index shares.each.items k ≡ 0) }
    {
        prove!(case.instance.trips() <= MAX_TRIPS && case.instance.layers() <= MAX_LAYERS);
        let trips = case.instance.trips() as usize;
        let layers = case.instance.layers();
        Ok(Shares {
            each: vec![in case.alloc; 0; trips * layers as usize]?,
            trips,
            layers,
        })
    }

    /// How much of a trip a layer runs.
    #[tactic(auto, using(crate::proofs::Places::place_inside))]
    pub fn get(&self, l: LayerNo, i: TripNo) -> u32
        requires layer { l.0 < self.now.layers }
        requires trip { i.0 < self.now.trips }
        ensures { pos result ≤ℤ WHOLE }
    {
        self.each[self.trips * l.0 as usize + i.0 as usize]
    }

    /// How much of a trip all layers run together.
    pub fn total(&self, i: TripNo) -> u32
        requires { i.0 < self.now.trips }
        ensures { result ≤ MAX_LAYERS * 2 ^ 20 }
    {
        let mut total = 0;
        for l in 0..self.layers {
            total += self.get(LayerNo(l), i);
        }
        total
    }
}
