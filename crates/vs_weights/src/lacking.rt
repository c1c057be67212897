//! What is lacking of each trip.

ghost use Rattle.std.specs.Prelude.{◌≡◌, ◌<◌, ◌≤◌, IfOk, length, vec_len};
ghost use Rattle.vs_cuts.specs.Numbers.{AreNear, IsNear};
ghost use Rattle.vs_cuts.specs.declared.whole.TheConstants.{MOST_LACK, MOST_TRIPS};

use std::alloc::Global;
use vs_cuts::{Cut, TripSet, WHOLE};
use vs_types::Memory;

/// How much of each trip no layer runs, by the weights of the cuts.
#[derive(Drop)]
pub(crate) struct Lacking {
    /// The trips whose multipliers aren't held at 0.
    pub free: TripSet,
    /// By trip: how much of it no layer runs, in parts of a whole trip; below 0 where several run it.
    of_all: Vec<i64>,
    /// The same of the free trips, and 0 of the others, as it was when it was taken last.
    pub of_free: Vec<i64>,
    /// What was lacking of each trip when that was noted.
    noted: Vec<i64>,
    ghost each: { vec_len of_all ≡ free.trips },
    ghost each_free: { vec_len of_free ≡ free.trips },
    ghost each_noted: { vec_len noted ≡ free.trips },
    ghost near: { AreNear MOST_LACK of_all.items },
    ghost near_free: { AreNear MOST_LACK of_free.items },
    ghost near_noted: { AreNear MOST_LACK noted.items },
}

impl Lacking {
    ghost use Rattle.vs_cuts.specs.Cuts.{trips_of};

    /// Where all of so many trips are free, and none is run.
    pub fn new(alloc: Global, trips: usize) -> Result<Lacking, Memory>
        requires { trips ≤ MOST_TRIPS }
        ensures { IfOk result (λ lacking. lacking.free.trips ≡ trips) }
    {
        Ok(Lacking {
            free: TripSet::all(alloc, trips)?,
            of_all: vec![in alloc; WHOLE; trips]?,
            of_free: vec![in alloc; WHOLE; trips]?,
            noted: vec![in alloc; WHOLE; trips]?,
        })
    }

    /// A cut has so much more weight now.
    pub fn lower(&mut self, cut: &Cut, weight: i64)
        requires trips { trips_of cut.now ≡ self.old.free.trips }
        requires weight { IsNear MOST_LACK weight }
        ensures { self.new.free.trips ≡ self.old.free.trips }
    {
        cut.lower(weight, &mut self.of_all);
    }

    /// No cut has any weight.
    pub fn clear(&mut self)
        ensures { self.new.free.trips ≡ self.old.free.trips }
    {
        for i in 0..self.of_all.len() {
            self.of_all[i] = WHOLE;
        }
    }

    /// Notes what is lacking of each trip.
    pub fn note(&mut self)
        ensures { self.new.free.trips ≡ self.old.free.trips }
    {
        self.noted.copy_from_slice(&self.of_all);
    }

    /// Lets as much be lacking of each trip as was noted last.
    pub fn recall(&mut self)
        ensures { self.new.free.trips ≡ self.old.free.trips }
    {
        self.of_all.copy_from_slice(&self.noted);
    }

    /// Takes what is lacking of the free trips.
    pub fn take_free(&mut self)
        ensures { self.new.free.trips ≡ self.old.free.trips }
    {
        self.free.copy_in(&self.of_all, &mut self.of_free);
    }

    /// How much is lacking of a trip.
    pub fn of(&self, i: usize) -> i64
        requires { i < self.now.free.trips }
    {
        self.of_all[i]
    }

    /// Holds multipliers of 0 there where they would fall, and frees all others. Gives whether that changes something.
    pub fn hold(&mut self, multipliers: &[i64]) -> bool
        requires { length multipliers.now ≡ self.old.free.trips }
        ensures { self.new.free.trips ≡ self.old.free.trips }
    {
        let mut changed = false;
        for i in 0..multipliers.len() {
            let free = self.free.has(i);
            let to_be_free = is_free(multipliers[i], self.of(i), free);
            if to_be_free != free {
                self.free.put(i, to_be_free);
                changed = true;
            }
        }
        changed
    }
}

/// Whether a multiplier isn't held at 0: it is above 0 or would rise, or it was free and would stay.
fn is_free(multiplier: i64, lack: i64, free: bool) -> bool {
    multiplier > 0 || lack > 0 || (lack == 0 && free)
}
