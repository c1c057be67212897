//! The cheapest choices that are known.

ghost use Rattle.std.specs.Prelude.{◌≡◌, ◌≤◌, IfSome, length};
ghost use Rattle.vs_walk.specs.Choices.{AreChoicesOf, IsChoiceOf};

use std::alloc::Global;
use vs_types::{LayerSet, Memory};

/// How many choices are kept: what the cheapest of them share is worth keeping, and more of them would add little.
const MOST_KEPT: usize = 30;

/// A layer for each trip, and what a plan costs by that, in 1/1000 of a cost unit.
#[derive(Drop)]
pub struct Choice {
    pub cost: i64,
    pub layers: Vec<LayerSet>,
}

/// The cheapest choices that are known, of so many trips.
#[derive(Drop)]
pub struct Pool {
    trips: usize,
    /// The cheapest first.
    kept: Vec<Choice>,
    ghost each: { AreChoicesOf trips kept.items },
}

impl Pool {
    /// None yet.
    pub fn new(alloc: Global, trips: usize) -> Pool
        ensures { result.trips ≡ trips }
    {
        Pool {
            trips,
            kept: Vec::new(alloc),
        }
    }

    /// How many are kept.
    pub fn count(&self) -> usize {
        self.kept.len()
    }

    /// What the cheapest one costs, in 1/1000 of a cost unit.
    pub fn cost(&self) -> Option<i64> {
        self.kept.first().map(|choice| choice.cost)
    }

    /// The one that so many are cheaper than.
    pub fn get(&self, place: usize) -> Option<&Choice>
        ensures { IfSome result (λ choice. IsChoiceOf self.now.trips choice.now) }
    {
        self.kept.get(place)
    }

    /// Keeps a choice, if it is among the cheapest and isn't kept already.
    #[tactic(auto, using(crate::proofs::KeptChoices::kept_inserted))]
    pub fn keep(&mut self, alloc: Global, cost: i64, layers: &[LayerSet]) -> Result<(), Memory>
        requires { length layers.now ≡ self.old.trips }
        ensures { self.new.trips ≡ self.old.trips }
    {
        let place = self.place_of(cost);
        if place >= MOST_KEPT || self.is_kept(cost, layers) {
            return Ok(());
        }
        let layers = Vec::from_slice(alloc, layers)?;
        self.kept.insert(place, Choice { cost, layers })?;
        self.kept.truncate(MOST_KEPT);
        Ok(())
    }

    /// Keeps the choices of another pool too.
    pub fn merge(&mut self, alloc: Global, other: &Pool) -> Result<(), Memory>
        requires { other.now.trips ≡ self.old.trips }
        ensures { self.new.trips ≡ self.old.trips }
    {
        for place in 0..other.count() {
            if let Some(choice) = other.get(place) {
                self.keep(alloc, choice.cost, &choice.layers)?;
            }
        }
        Ok(())
    }

    /// Keeps none.
    pub fn clear(&mut self)
        ensures { self.new.trips ≡ self.old.trips }
    {
        self.kept.clear();
    }

    /// The layers that the cheapest so many choices give a trip to.
    pub fn given(&self, i: usize, most: usize) -> LayerSet {
        let mut given = LayerSet(0);
        for choice in self.kept.iter().take(most) {
            if let Some(layers) = choice.layers.get(i) {
                given.0 |= layers.0;
            }
        }
        given
    }

    /// Behind how many choices one of this cost stands.
    fn place_of(&self, cost: i64) -> usize
        ensures { result ≤ length self.now.kept.items }
    {
        let mut place = 0;
        for choice in &self.kept {
            if choice.cost <= cost {
                place += 1;
            }
        }
        place
    }

    /// Whether a choice is kept already.
    fn is_kept(&self, cost: i64, layers: &[LayerSet]) -> bool {
        for choice in &self.kept {
            if choice.cost == cost && choice.layers.as_slice() == layers {
                return true;
            }
        }
        false
    }
}
