//! The names of stops, layers and trips.

ghost use Rattle.std.specs.Prelude.{◌≡◌, ℕ, ◌<◌, ◌++◌, [], ◌∷◌, length, Contains, MatchOption, IfSome, OnOk};
ghost use Rattle.vs_types.specs.declared.numbers.TheConstants.{MAX_LAYERS};
ghost use Rattle.vs_instance.specs.declared.limits.TheConstants.{MAX_STOPS, MAX_TRIPS};
ghost use Rattle.vs_reader.specs.Names.{IsName, Names as Numbered, name_of};
ghost use Rattle.vs_reader.specs.NameRules.{AreNames};

use crate::name_list::NameList;
use crate::salted::Salted;
use std::alloc::Global;
use std::marker::Model;
use vs_types::{LayerNo, Memory, StopNo, TripNo};

/// The names of stops, of layers and of trips, each kind apart, in the order of their numbers.
#[derive(Drop)]
pub struct Names {
    stops: NameList,
    layers: NameList,
    trips: NameList,
}

impl Model for Names {
    ghost use Rattle.vs_reader.specs.Names.{NameLists};
    ghost use Rattle.vs_reader.specs.NameCodes.{coded_names};

    ghost Value = { NameLists };

    ghost coded = { coded_names };

    ghost view = { λ a. record { stops = a.stops; layers = a.layers; trips = a.trips } };
}

impl Names {
    /// No names, which this hasher will find.
    pub(crate) fn new(alloc: Global, hasher: Salted) -> Names
        ensures { result ≡ record { stops = []; layers = []; trips = [] } }
    {
        Names {
            stops: NameList::new(alloc, hasher),
            layers: NameList::new(alloc, hasher),
            trips: NameList::new(alloc, hasher),
        }
    }

    /// How many stops have a name.
    pub fn stops(&self) -> usize
        ensures count { result ≡ length self.now.stops }
        ensures names { AreNames self.now.stops }
    {
        self.stops.len()
    }

    /// How many layers have a name.
    pub fn layers(&self) -> usize
        ensures count { result ≡ length self.now.layers }
        ensures names { AreNames self.now.layers }
    {
        self.layers.len()
    }

    /// How many trips have a name.
    pub fn trips(&self) -> usize
        ensures count { result ≡ length self.now.trips }
        ensures names { AreNames self.now.trips }
    {
        self.trips.len()
    }

    /// The name of a stop, which no other stop has.
    pub fn stop(&self, k: StopNo) -> &str
        requires { k.0 < length self.now.stops }
        ensures name { result.now ≡ name_of self.now.stops k.0 }
        ensures only { (j : ℕ) → Numbered self.now.stops result.now j → j ≡ k.0 }
    {
        self.stops.get(k.0)
    }

    /// The name of a layer, which no other layer has.
    pub fn layer(&self, l: LayerNo) -> &str
        requires { l.0 < length self.now.layers }
        ensures name { result.now ≡ name_of self.now.layers l.0 }
        ensures only { (j : ℕ) → Numbered self.now.layers result.now j → j ≡ l.0 }
    {
        self.layers.get(l.0)
    }

    /// The name of a trip, which no other trip has.
    pub fn trip(&self, i: TripNo) -> &str
        requires { i.0 < length self.now.trips }
        ensures name { result.now ≡ name_of self.now.trips i.0 }
        ensures only { (j : ℕ) → Numbered self.now.trips result.now j → j ≡ i.0 }
    {
        self.trips.get(i.0)
    }

    /// The stop of this name. None where no stop has it.
    pub fn stop_of(&self, name: &str) -> Option<StopNo>
        ensures found { MatchOption result
            (¬ (Contains self.now.stops name.now))
            (λ k. Numbered self.now.stops name.now k.0) }
        ensures within { IfSome result (λ k. k.0 < length self.now.stops) }
        ensures only { IfSome result (λ k. (j : ℕ) → Numbered self.now.stops name.now j → j ≡ k.0) }
    {
        Some(StopNo(self.stops.find(name)?))
    }

    /// The stop of this name, which may well be the one guessed. None where no stop has it.
    pub(crate) fn stop_near(&self, guess: StopNo, name: &str) -> Option<StopNo>
        ensures found { MatchOption result
            (¬ (Contains self.now.stops name.now))
            (λ k. Numbered self.now.stops name.now k.0) }
        ensures within { IfSome result (λ k. k.0 < length self.now.stops) }
        ensures only { IfSome result (λ k. (j : ℕ) → Numbered self.now.stops name.now j → j ≡ k.0) }
    {
        Some(StopNo(self.stops.find_near(guess.0, name)?))
    }

    /// The layer of this name. None where no layer has it.
    pub fn layer_of(&self, name: &str) -> Option<LayerNo>
        ensures found { MatchOption result
            (¬ (Contains self.now.layers name.now))
            (λ l. Numbered self.now.layers name.now l.0) }
        ensures within { IfSome result (λ l. l.0 < length self.now.layers) }
        ensures only { IfSome result (λ l. (j : ℕ) → Numbered self.now.layers name.now j → j ≡ l.0) }
    {
        Some(LayerNo(self.layers.find(name)?))
    }

    /// The trip of this name. None where no trip has it.
    pub fn trip_of(&self, name: &str) -> Option<TripNo>
        ensures found { MatchOption result
            (¬ (Contains self.now.trips name.now))
            (λ i. Numbered self.now.trips name.now i.0) }
        ensures within { IfSome result (λ i. i.0 < length self.now.trips) }
        ensures only { IfSome result (λ i. (j : ℕ) → Numbered self.now.trips name.now j → j ≡ i.0) }
    {
        Some(TripNo(self.trips.find(name)?))
    }

    /// Names the next stop.
    pub fn add_stop(&mut self, name: &[u8]) -> Result<(), Memory>
        requires name { IsName name.now }
        requires new { ¬ (Contains self.old.stops name.now) }
        requires room { length self.old.stops < MAX_STOPS }
        ensures { OnOk result (self.new ≡ record self.old { stops = self.old.stops ++ name.now ∷ [] }) }
    {
        self.stops.add(name)
    }

    /// Names the next layer.
    pub fn add_layer(&mut self, name: &[u8]) -> Result<(), Memory>
        requires name { IsName name.now }
        requires new { ¬ (Contains self.old.layers name.now) }
        requires room { length self.old.layers < MAX_LAYERS }
        ensures { OnOk result (self.new ≡ record self.old { layers = self.old.layers ++ name.now ∷ [] }) }
    {
        self.layers.add(name)
    }

    /// Names the next trip.
    pub fn add_trip(&mut self, name: &[u8]) -> Result<(), Memory>
        requires name { IsName name.now }
        requires new { ¬ (Contains self.old.trips name.now) }
        requires room { length self.old.trips < MAX_TRIPS }
        ensures { OnOk result (self.new ≡ record self.old { trips = self.old.trips ++ name.now ∷ [] }) }
    {
        self.trips.add(name)
    }
}
