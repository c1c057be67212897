//! Which cuts a layer keeps: past so many the one longest without weight goes, or the lightest go into the mixed one.

ghost use Rattle.std.specs.Prelude.{◌≡◌, ◌+◌, ◌-◌, ◌<◌, IfSome, length, slice_index_or, vec_len};
ghost use Rattle.vs_cuts.specs.Cuts.{HaveTripsOf, trips_of};
ghost use Rattle.vs_weights.specs.Layers.{IsLike};
ghost use Rattle.vs_cuts.specs.Numbers.{AreNear, IsPart};
ghost use Rattle.vs_cuts.specs.declared.cut.Cut.{Cut};
ghost use Rattle.vs_cuts.specs.declared.whole.TheConstants.{MOST_NUMBER};

use crate::layer_cuts::LayerCuts;
use crate::standing::Standing;
use std::mem::swap;
use vs_cuts::{Cut, TripSet, WHOLE, as_part, fitting, part_of};

impl LayerCuts {
    /// Counts the rounds for which each cut has had no weight.
    pub fn age(&mut self)
        ensures { IsLike self.old self.new }
    {
        for place in 0..self.standings.len() {
            self.standings[place].age();
        }
    }

    /// Keeps a further cut, with this weight. What it is exchanged for is of no use.
    pub fn keep(&mut self, cut: &mut Cut, weight: i64, multipliers: &[i64], free: &TripSet)
        requires trips { trips_of cut.old ≡ self.old.trips }
        requires weight { IsPart weight }
        requires each { length multipliers.now ≡ self.old.trips }
        requires near { AreNear MOST_NUMBER multipliers.now }
        requires free { free.now.trips ≡ self.old.trips }
        ensures like { IsLike self.old self.new }
        ensures trips { trips_of cut.new ≡ self.old.trips }
    {
        let place = match self.spare() {
            Some(place) => Some(place),
            None => self.make_room(multipliers),
        };
        if let Some(place) = place {
            self.put(place, cut, weight);
            self.set_error(place, multipliers);
            self.renew(place, free);
        }
    }

    /// Puts a cut at a place.
    fn put(&mut self, place: usize, cut: &mut Cut, weight: i64)
        requires place { place < vec_len self.old.cuts }
        requires trips { trips_of cut.old ≡ self.old.trips }
        requires weight { IsPart weight }
        ensures like { IsLike self.old self.new }
        ensures trips { trips_of cut.new ≡ self.old.trips }
    {
        swap(&mut self.cuts[place], cut);
        self.standings[place] = Standing::new(weight);
    }

    /// The place of the mixed cut.
    fn mixed(&self) -> usize
        ensures { result + 1 ≡ vec_len self.now.cuts }
    {
        self.cuts.len() - 1
    }

    /// A place where there is no cut, or else that of the cut longest without weight, if any.
    fn spare(&self) -> Option<usize>
        ensures { IfSome result (λ place. place < vec_len self.now.cuts) }
    {
        let mut spare = None;
        let mut longest = 0;
        for place in 0..self.mixed() {
            let idle = self.standings[place].idle;
            if idle > longest {
                spare = Some(place);
                longest = idle;
            }
        }
        spare
    }

    /// Makes room by mixing the lightest cut into the mixed one, or the two lightest where there is none. Gives the
    /// place where there was one.
    fn make_room(&mut self, multipliers: &[i64]) -> Option<usize>
        requires each { length multipliers.now ≡ self.old.trips }
        requires near { AreNear MOST_NUMBER multipliers.now }
        ensures like { IsLike self.old self.new }
        ensures place { IfSome result (λ place. place < vec_len self.new.cuts) }
    {
        let mixed = self.mixed();
        if !self.standings[mixed].held {
            let first = self.lightest()?;
            self.mix(first);
        }
        let place = self.lightest()?;
        self.mix(place);
        self.set_error(mixed, multipliers);
        Some(place)
    }

    /// The place of the cut of least weight, but for the mixed one.
    fn lightest(&self) -> Option<usize>
        ensures { IfSome result (λ place. place + 1 < vec_len self.now.cuts) }
    {
        let mut lightest = None;
        let mut least = i64::MAX;
        for place in 0..self.mixed() {
            let standing = self.standings[place];
            if standing.held && standing.weight < least {
                lightest = Some(place);
                least = standing.weight;
            }
        }
        lightest
    }

    /// Mixes the products of a place into those of the mixed cut, of which both together have so many parts of a whole.
    /// That takes far less than to reckon them anew, and differs by what rounding takes.
    fn mix_products(&mut self, place: usize, parts: i64)
        requires place { place < vec_len self.old.cuts }
        requires parts { IsPart parts }
        ensures { IsLike self.old self.new }
    {
        let mixed = self.mixed();
        let both = self.products.of(mixed, place);
        let left = between(self.products.of(mixed, mixed), both, parts);
        let right = between(both, self.products.of(place, place), parts);
        for other in 0..mixed {
            let (left, right) = (
                self.products.of(mixed, other),
                self.products.of(place, other),
            );
            self.products.set(mixed, other, between(left, right, parts));
        }
        self.products.set(mixed, mixed, between(left, right, parts));
    }

    /// Mixes the cut at a place into the mixed one, by their weights. No cut stands there then.
    fn mix(&mut self, place: usize)
        requires { place + 1 < vec_len self.old.cuts }
        ensures { IsLike self.old self.new }
    {
        let mixed = self.mixed();
        let weight = self.standings[place].weight;
        let both = as_part(weight + self.standings[mixed].weight);
        let parts = parts_of(weight, both);
        mix_last(&mut self.cuts, place, parts);
        self.standings[mixed] = Standing::mixed(both);
        self.standings[place] = Standing::none();
        self.mix_products(place, parts);
    }
}

/// So many parts of a whole of the second product, and the other parts of the first one.
fn between(first: i64, second: i64, parts: i64) -> i64
    requires { IsPart parts }
{
    part_of(first, WHOLE - parts).saturating_add(part_of(second, parts))
}

/// Mixes the cut at a place into the last one, of which both together have so many parts of a whole.
fn mix_last(cuts: &mut [Cut], place: usize, parts: i64)
    requires place { place + 1 < length cuts.old }
    requires parts { IsPart parts }
    requires alike { (d : Cut) → trips_of (slice_index_or cuts.old place d)
        ≡ trips_of (slice_index_or cuts.old (length cuts.old - 1) d) }
    ensures { HaveTripsOf cuts.old cuts.new }
{
    let last = cuts.len() - 1;
    let (before, rest) = cuts.split_at_mut(last);
    rest[0].mix_in(&before[place], parts);
}

/// How many parts of a whole one weight is of both, within a whole.
fn parts_of(weight: i64, both: i64) -> i64
    ensures { IsPart result }
{
    let parts = i128::from(weight).saturating_mul(i128::from(WHOLE));
    match parts.checked_div(i128::from(both)) {
        Some(parts) => as_part(fitting(parts)),
        None => WHOLE,
    }
}
