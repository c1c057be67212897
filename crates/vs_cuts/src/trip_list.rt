//! The trips of a circulation.

ghost use Rattle.std.specs.Prelude.{◌≡◌, ℕ, ◌+◌, ◌*◌, ◌<◌, ◌≤◌, All, IfOk, length, vec_len};
ghost use Rattle.vs_cuts.specs.Numbers.{AreNear, IsNear};
ghost use Rattle.vs_cuts.specs.declared.whole.TheConstants.{MOST_LACK, MOST_NUMBER, MOST_TRIPS};
ghost use Rattle.vs_types.specs.declared.numbers.TheConstants.{MAX_LAYERS};

use crate::trip_set::TripSet;
use crate::whole::as_lack;
use std::alloc::Global;
use vs_types::{LayerNo, LayerSet, Memory, TripNo};

/// The trips of a circulation: as a set, and one by one.
#[derive(Drop)]
pub(crate) struct TripList {
    pub set: TripSet,
    /// The trips in order, and behind them what is of no use.
    each: Vec<TripNo>,
    /// How many trips there are.
    count: usize,
    ghost room: { vec_len each ≡ set.trips },
    ghost within: { All (λ trip. trip.0 < set.trips) each.items },
    ghost counted: { count ≤ set.trips },
}

impl TripList {
    /// None of so many trips.
    pub fn new(alloc: Global, trips: usize) -> Result<TripList, Memory>
        requires { trips ≤ MOST_TRIPS }
        ensures { IfOk result (λ list. list.set.trips ≡ trips) }
    {
        Ok(TripList {
            set: TripSet::new(alloc, trips)?,
            each: vec![in alloc; TripNo(0); trips]?,
            count: 0,
        })
    }

    /// Becomes the list of the trips marked true.
    pub fn mark(&mut self, marks: &[bool])
        requires { length marks.now ≡ self.old.set.trips }
        ensures { self.new.set.trips ≡ self.old.set.trips }
    {
        self.set.mark(marks);
        self.count = 0;
        for i in 0..marks.len() {
            if marks[i] {
                self.append(TripNo(i as u32));
            }
        }
    }

    /// Puts a trip at the end.
    fn append(&mut self, trip: TripNo)
        requires trip { trip.0 < self.old.set.trips }
        requires room { self.old.count < self.old.set.trips }
        ensures trips { self.new.set.trips ≡ self.old.set.trips }
        ensures count { self.new.count ≡ self.old.count + 1 }
    {
        self.each[self.count] = trip;
        self.count += 1;
    }

    /// The trips in order.
    fn trips(&self) -> &[TripNo]
        ensures within { All (λ trip. trip.0 < self.now.set.trips) result.now }
        ensures few { length result.now ≤ self.now.set.trips }
        ensures few_at_all { length result.now ≤ MOST_TRIPS }
    {
        &self.each[..self.count]
    }

    /// Whether a trip stands in the list.
    pub fn has(&self, i: usize) -> bool
        requires { i < self.now.set.trips }
    {
        self.set.has(i)
    }

    /// Whether each trip of the list may be run in this layer.
    pub fn is_within(&self, l: LayerNo, sets: &[LayerSet]) -> bool
        requires layer { l.0 < MAX_LAYERS }
        requires each { length sets.now ≡ self.now.set.trips }
    {
        for trip in self.trips() {
            if !sets[trip.0 as usize].has(l) {
                return false;
            }
        }
        true
    }

    /// How many trips stand in this list, in another one and among these.
    pub fn common(&self, other: &TripList, among: &TripSet) -> i64 {
        self.set.common(&other.set, among)
    }

    /// The sum of its trips' numbers.
    pub fn sum(&self, numbers: &[i64]) -> i64
        requires each { length numbers.now ≡ self.now.set.trips }
        requires near { AreNear MOST_NUMBER numbers.now }
        ensures { AreNear MOST_LACK numbers.now → IsNear (length numbers.now * MOST_LACK) result }
    {
        let mut sum: i64 = 0;
        for trip in self.trips() {
            sum += numbers[trip.0 as usize];
        }
        sum
    }

    /// The sum of the shares of those of its trips that stand among these.
    pub fn sum_among(&self, among: &TripSet, shares: &[i64]) -> i64
        requires each { length shares.now ≡ self.now.set.trips }
        requires among { among.now.trips ≡ self.now.set.trips }
        requires near { AreNear MOST_NUMBER shares.now }
    {
        let mut sum: i64 = 0;
        for trip in self.trips() {
            let i = trip.0 as usize;
            if among.has(i) {
                sum += shares[i];
            }
        }
        sum
    }

    /// Takes so much off what is lacking of its trips.
    pub fn lower(&self, amount: i64, lacks: &mut [i64])
        requires each { length lacks.old ≡ self.now.set.trips }
        requires near { AreNear MOST_LACK lacks.old }
        requires amount { IsNear MOST_LACK amount }
        ensures { AreNear MOST_LACK lacks.new }
    {
        for trip in self.trips() {
            let i = trip.0 as usize;
            lacks[i] = as_lack(lacks[i] - amount);
        }
    }
}
