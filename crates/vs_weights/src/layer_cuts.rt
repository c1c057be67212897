//! The cuts of a layer.

ghost use Rattle.std.specs.Prelude.{◌≡◌, ◌+◌, ◌*◌, ◌<◌, ◌≤◌, All, IfOk, length, vec_len};
ghost use Rattle.vs_cuts.specs.Cuts.{trips_of};
ghost use Rattle.vs_cuts.specs.Numbers.{AreNear};
ghost use Rattle.vs_weights.specs.declared.layer_cuts.TheConstants.{MOST_CUTS};
ghost use Rattle.vs_cuts.specs.declared.whole.TheConstants.{MOST_LACK, MOST_NUMBER, MOST_TRIPS};

use crate::lacking::Lacking;
use crate::standing::Standing;
use std::alloc::Global;
use vs_cuts::{Cut, Products, TripSet, WHOLE, part_of};
use vs_types::Memory;

/// How many cuts a layer may keep, in addition to the mixed one.
pub const MOST_CUTS: u32 = 1_000;

/// The cuts of a layer, or places for them. The mixed one stands at the last place.
#[derive(Drop)]
pub(crate) struct LayerCuts {
    /// By place.
    pub cuts: Vec<Cut>,
    /// By place: how the cut there stands.
    pub standings: Vec<Standing>,
    /// How they stood when that was noted.
    pub noted: Vec<Standing>,
    /// Of the cuts at each two places.
    pub products: Products,
    /// The layer's part of the Lagrangian value at the best multipliers.
    pub part: i64,
    /// How many trips there are.
    pub trips: usize,
    ghost few_trips: { trips ≤ MOST_TRIPS },
    ghost some: { 0 < vec_len cuts },
    ghost few: { vec_len cuts ≤ MOST_CUTS + 1 },
    ghost each: { All (λ cut. trips_of cut ≡ trips) cuts.items },
    ghost each_standing: { vec_len standings ≡ vec_len cuts },
    ghost each_noted: { vec_len noted ≡ vec_len cuts },
    ghost each_place: { products.places ≡ vec_len cuts },
}

impl LayerCuts {
    ghost use Rattle.vs_weights.specs.Layers.{IsLike};
    ghost use Rattle.vs_weights.specs.Steps.{AreSlopes};

    /// Room for so many cuts of so many trips and a mixed one.
    pub fn new(alloc: Global, trips: usize, most: u32) -> Result<LayerCuts, Memory>
        requires trips { trips ≤ MOST_TRIPS }
        requires most { most ≤ MOST_CUTS }
        ensures { IfOk result (λ layer. layer.trips ≡ trips) }
    {
        let places = most as usize + 1;
        Ok(LayerCuts {
            cuts: cuts_for(alloc, trips, most)?,
            standings: vec![in alloc; Standing::none(); places]?,
            noted: vec![in alloc; Standing::none(); places]?,
            products: Products::new(alloc, places, trips as u64 * WHOLE as u64)?,
            part: 0,
            trips,
        })
    }

    /// Reckons how the cuts stand to the best multipliers.
    pub fn set_errors(&mut self, multipliers: &[i64])
        requires each { length multipliers.now ≡ self.old.trips }
        requires near { AreNear MOST_NUMBER multipliers.now }
        ensures { IsLike self.old self.new }
    {
        for place in 0..self.cuts.len() {
            if self.standings[place].held {
                self.set_error(place, multipliers);
            }
        }
    }

    /// Reckons how the cut at a place stands to the best multipliers.
    pub fn set_error(&mut self, place: usize, multipliers: &[i64])
        requires place { place < vec_len self.old.cuts }
        requires each { length multipliers.now ≡ self.old.trips }
        requires near { AreNear MOST_NUMBER multipliers.now }
        ensures { IsLike self.old self.new }
    {
        let error = self.cuts[place].error(self.part, multipliers);
        self.standings[place].error = error;
    }

    /// Reckons how much is lacking of the trips of each cut.
    pub fn set_slopes(&mut self, lacks: &[i64])
        requires each { length lacks.now ≡ self.old.trips }
        requires near { AreNear MOST_LACK lacks.now }
        ensures like { IsLike self.old self.new }
        ensures slopes { AreSlopes (self.old.trips * MOST_LACK) self.new.standings.items }
    {
        for place in 0..self.cuts.len() {
            self.standings[place].slope = if self.standings[place].held {
                self.cuts[place].lack(lacks)
            } else {
                0
            };
        }
    }

    /// Reckons what is lacking of each trip by the weights as they are now, from what was by those that counted.
    pub fn settle(&mut self, lacking: &mut Lacking)
        requires { lacking.old.free.trips ≡ self.old.trips }
        ensures like { IsLike self.old self.new }
        ensures trips { lacking.new.free.trips ≡ lacking.old.free.trips }
    {
        for place in 0..self.cuts.len() {
            let standing = &mut self.standings[place];
            let more = standing.weight - standing.counted;
            if more != 0 {
                standing.counted = standing.weight;
                lacking.lower(&self.cuts[place], more);
            }
        }
    }

    /// What the errors of the cuts come to, each by its weight.
    pub fn errors(&self) -> i64 {
        let mut errors: i64 = 0;
        for standing in &self.standings {
            errors = errors.saturating_add(part_of(standing.error, standing.weight));
        }
        errors
    }

    /// How much of a trip the layer runs, in parts of a whole trip.
    pub fn share(&self, i: usize) -> i64
        requires { i < self.now.trips }
    {
        let mut share: i64 = 0;
        for place in 0..self.cuts.len() {
            let weight = self.standings[place].weight;
            if weight > 0 {
                share = share.saturating_add(part_of(weight, self.cuts[place].share(i)));
            }
        }
        share
    }

    /// Reckons the products of a place with the first so many.
    fn set_products(&mut self, place: usize, others: usize, free: &TripSet)
        requires place { place < vec_len self.old.cuts }
        requires others { others ≤ vec_len self.old.cuts }
        requires trips { free.now.trips ≡ self.old.trips }
        ensures { IsLike self.old self.new }
    {
        for other in 0..others {
            let product = self.cuts[place].common(&self.cuts[other], free);
            self.products.set(place, other, product);
        }
    }

    /// Reckons the products of a place.
    pub fn renew(&mut self, place: usize, free: &TripSet)
        requires place { place < vec_len self.old.cuts }
        requires trips { free.now.trips ≡ self.old.trips }
        ensures { IsLike self.old self.new }
    {
        let all = self.cuts.len();
        self.set_products(place, all, free);
    }

    /// Reckons all products.
    pub fn renew_all(&mut self, free: &TripSet)
        requires { free.now.trips ≡ self.old.trips }
        ensures { IsLike self.old self.new }
    {
        for place in 0..self.cuts.len() {
            self.set_products(place, place + 1, free);
        }
    }
}

/// Room for so many cuts of so many trips and a mixed one.
fn cuts_for(alloc: Global, trips: usize, most: u32) -> Result<Vec<Cut>, Memory>
    requires { trips ≤ MOST_TRIPS }
    ensures places { IfOk result (λ cuts. vec_len cuts ≡ most + 1) }
    ensures trips { IfOk result (λ cuts. All (λ cut. trips_of cut ≡ trips) cuts.items) }
{
    let mut cuts = Vec::with_capacity(alloc, most as usize)?;
    for _ in 0..most {
        cuts.push(Cut::new(alloc, trips)?)?;
    }
    cuts.push(Cut::mixed(alloc, trips)?)?;
    Ok(cuts)
}
