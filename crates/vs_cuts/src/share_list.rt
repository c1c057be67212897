//! How much of each trip several circulations run together.

ghost use Rattle.std.specs.Prelude.{◌≡◌, ℕ, ◌+◌, ◌*◌, ◌<◌, ◌≤◌, IfOk, length, vec_len};
ghost use Rattle.vs_cuts.specs.Numbers.{AllParts, AreNear, IsNear, IsPart};
ghost use Rattle.vs_cuts.specs.declared.whole.TheConstants.{MOST_LACK, MOST_TRIPS};

use crate::trip_set::TripSet;
use crate::whole::{as_lack, as_part, part_of, small_part_of};
use std::alloc::Global;
use vs_types::Memory;

/// By trip: which part several circulations run together, in parts of a whole trip.
#[derive(Drop)]
pub(crate) struct ShareList {
    pub each: Vec<i64>,
    ghost few: { vec_len each ≤ MOST_TRIPS },
    ghost parts: { AllParts each.items },
}

impl ShareList {
    /// Nothing of so many trips.
    pub fn new(alloc: Global, trips: usize) -> Result<ShareList, Memory>
        requires { trips ≤ MOST_TRIPS }
        ensures { IfOk result (λ shares. vec_len shares.each ≡ trips) }
    {
        Ok(ShareList {
            each: vec![in alloc; 0; trips]?,
        })
    }

    /// How much of a trip they run.
    pub fn of(&self, i: usize) -> i64
        requires { i < vec_len self.now.each }
        ensures { IsPart result }
    {
        self.each[i]
    }

    /// They run so much of a trip, or the nearest part of it.
    pub fn set(&mut self, i: usize, share: i64)
        requires { i < vec_len self.old.each }
        ensures { vec_len self.new.each ≡ vec_len self.old.each }
    {
        self.each[i] = as_part(share);
    }

    /// The sum of numbers, each by its trip's share.
    pub fn sum(&self, numbers: &[i64]) -> i64 {
        let mut sum: i64 = 0;
        for (share, number) in self.each.iter().zip(numbers) {
            sum = sum.saturating_add(part_of(*number, *share));
        }
        sum
    }

    /// How much is lacking of all trips, each by its share.
    pub fn lack(&self, lacks: &[i64]) -> i64
        requires each { length lacks.now ≡ vec_len self.now.each }
        requires near { AreNear MOST_LACK lacks.now }
        ensures { IsNear (length lacks.now * MOST_LACK) result }
    {
        let shares = &self.each[..lacks.len()];
        let mut lack: i64 = 0;
        for i in 0..lacks.len() {
            lack += small_part_of(lacks[i], shares[i]);
        }
        lack
    }

    /// Takes so much off what is lacking of each trip, by its share.
    pub fn lower(&self, amount: i64, lacks: &mut [i64])
        requires each { length lacks.old ≡ vec_len self.now.each }
        requires near { AreNear MOST_LACK lacks.old }
        requires amount { IsNear MOST_LACK amount }
        ensures { AreNear MOST_LACK lacks.new }
    {
        let shares = &self.each[..lacks.len()];
        for i in 0..lacks.len() {
            lacks[i] = as_lack(lacks[i] - small_part_of(amount, shares[i]));
        }
    }

    /// How much of these trips both run.
    pub fn common(&self, other: &ShareList, among: &TripSet) -> i64
        requires other { vec_len other.now.each ≡ vec_len self.now.each }
        requires among { among.now.trips ≡ vec_len self.now.each }
    {
        let mut sum: i64 = 0;
        for i in 0..self.each.len() {
            if among.has(i) {
                sum = sum.saturating_add(part_of(self.of(i), other.of(i)));
            }
        }
        sum
    }
}
