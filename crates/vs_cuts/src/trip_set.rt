//! Sets of trips.

ghost use Rattle.std.specs.Prelude.{◌≡◌, ◌+◌, ◌/◌, ◌<◌, ◌≤◌, IfOk, length, vec_len};
ghost use Rattle.vs_cuts.specs.Numbers.{AreNear};
ghost use Rattle.vs_cuts.specs.declared.trip_set.TheConstants.{BITS};
ghost use Rattle.vs_cuts.specs.declared.whole.TheConstants.{MOST_LACK, MOST_TRIPS};

use std::alloc::Global;
use vs_types::Memory;

/// How many trips a word has a bit for.
const BITS: usize = 64;

/// A set of trips: bit b of word w stands for trip 64 * w + b.
#[derive(Drop)]
pub struct TripSet {
    words: Vec<u64>,
    /// The trips in it are among so many.
    pub trips: usize,
    ghost few: { trips ≤ MOST_TRIPS },
    ghost each: { vec_len words ≡ trips / BITS + 1 },
}

impl TripSet {
    /// None of so many trips.
    pub(crate) fn new(alloc: Global, trips: usize) -> Result<TripSet, Memory>
        requires { trips ≤ MOST_TRIPS }
        ensures { IfOk result (λ set. set.trips ≡ trips) }
    {
        Ok(TripSet {
            words: vec![in alloc; 0; trips / BITS + 1]?,
            trips,
        })
    }

    /// All of so many trips.
    pub fn all(alloc: Global, trips: usize) -> Result<TripSet, Memory>
        requires { trips ≤ MOST_TRIPS }
        ensures { IfOk result (λ set. set.trips ≡ trips) }
    {
        let mut all = TripSet::new(alloc, trips)?;
        for i in 0..trips {
            all.put(i, true);
        }
        Ok(all)
    }

    /// Whether a trip stands in the set.
    pub fn has(&self, i: usize) -> bool
        requires { i < self.now.trips }
    {
        is_set(self.words[i / BITS], i)
    }

    /// Puts a trip into the set, or takes it out.
    pub fn put(&mut self, i: usize, is_in: bool)
        requires { i < self.old.trips }
        ensures { self.new.trips ≡ self.old.trips }
    {
        let word = self.words[i / BITS];
        let bit: u64 = 1 << (i % BITS);
        self.words[i / BITS] = if is_in { word | bit } else { word & !bit };
    }

    /// Becomes the set of the trips marked true.
    pub(crate) fn mark(&mut self, marks: &[bool])
        requires { length marks.now ≡ self.old.trips }
        ensures { self.new.trips ≡ self.old.trips }
    {
        for w in 0..self.words.len() {
            let from = w * BITS;
            let to = (from + BITS).min(marks.len());
            self.words[w] = word_of(&marks[from..to]);
        }
    }

    /// How many trips stand in this set, in another one and among these.
    pub(crate) fn common(&self, other: &TripSet, among: &TripSet) -> i64 {
        let mut count: u32 = 0;
        for ((a, b), c) in self.words.iter().zip(&other.words).zip(&among.words) {
            count = count.saturating_add((*a & *b & *c).count_ones());
        }
        i64::from(count)
    }

    /// Copies what is lacking of its trips, and 0 for the others.
    pub fn copy_in(&self, lacks: &[i64], copies: &mut [i64])
        requires each { length lacks.now ≡ self.now.trips }
        requires each_copy { length copies.old ≡ self.now.trips }
        requires near { AreNear MOST_LACK lacks.now }
        requires near_copies { AreNear MOST_LACK copies.old }
        ensures { AreNear MOST_LACK copies.new }
    {
        for w in 0..self.words.len() {
            let from = w * BITS;
            let to = (from + BITS).min(lacks.len());
            copy_chunk(self.words[w], &lacks[from..to], &mut copies[from..to]);
        }
    }
}

/// Whether the bit of a trip is set.
fn is_set(word: u64, i: usize) -> bool {
    word >> (i % BITS) & 1 == 1
}

/// The word of a chunk of marks.
fn word_of(marks: &[bool]) -> u64 {
    let mut word = 0;
    for (b, mark) in marks.iter().enumerate() {
        if *mark {
            word |= 1 << (b % BITS);
        }
    }
    word
}

/// Copies what is lacking of a chunk's trips whose bits are set, and 0 for the others.
fn copy_chunk(word: u64, lacks: &[i64], copies: &mut [i64])
    requires each { length copies.old ≡ length lacks.now }
    requires near { AreNear MOST_LACK lacks.now }
    requires near_copies { AreNear MOST_LACK copies.old }
    ensures { AreNear MOST_LACK copies.new }
{
    let lacks = &lacks[..copies.len()];
    for b in 0..copies.len() {
        copies[b] = if is_set(word, b) { lacks[b] } else { 0 };
    }
}
