//! The spots of a tree of cases, and the layers that each trip has there.

ghost use Rattle.std.specs.Prelude.{◌≡◌, ◌≢◌, ℕ, ◌+◌, ◌<◌, ◌≤◌, ◌++◌, ◌∷◌, [], length, IfOk, All, slice_index_or};
ghost use Rattle.vs_instance.specs.Restriction.{permitted_sets, set_of};
ghost use Rattle.vs_tree.specs.History.{place_at, with_spot};
ghost use Rattle.vs_tree.specs.Cuts.{AreCuts, AreLaid, laid, sets_of, split_at, with_lower};
ghost use Rattle.vs_prices.specs.Tree.{with_set};
ghost use Rattle.vs_tree.specs.declared.spot.Spot.TheVariants.{Free};

use crate::spot::{Cut, Spot};
use std::alloc::Global;
use std::marker::Model;
use vs_instance::Instance;
use vs_prices::permitted_sets;
use vs_types::{LayerSet, Memory, TripNo};

/// The spots of a tree, each with the layers in which every trip may be run there. Of the layers only those are kept
/// that a split gave its trip; the others are found by going up to the root.
#[derive(Drop)]
pub struct Places {
    /// The layers of each trip at the root.
    permitted: Vec<LayerSet>,
    spots: Vec<Spot>,
    /// How each spot after the root came.
    cuts: Vec<Cut>,
    /// How many spots there may be.
    room: u32,
}

impl Model for Places {
    ghost use Rattle.vs_tree.specs.Cuts.{ArePlaces, Places, places_of, sets_of};

    ghost Value = { Places };

    ghost view = { λ a. record {
      places = places_of a.spots.items (sets_of a.permitted.items a.cuts.items);
      room = a.room;
    } };

    ghost invariant = { λ a. ArePlaces a.permitted.items a.spots a.cuts a.room };
}

impl Places {
    /// The root alone, free with table 0, and room for so many spots.
    pub fn new(alloc: Global, instance: &Instance, room: u32) -> Result<Places, Memory>
        requires { 0 < room }
        ensures root { IfOk result (λ places. places.places
            ≡ record { spot = Free 0; sets = permitted_sets instance.now } ∷ []) }
        ensures room { IfOk result (λ places. places.room ≡ room) }
    {
        let permitted = permitted_sets(alloc, instance)?;
        let mut spots = Vec::with_capacity(alloc, room as usize)?;
        spots.push(Spot::Free { table: 0 })?;
        let cuts = Vec::with_capacity(alloc, room as usize)?;
        Ok(Places {
            permitted,
            spots,
            cuts,
            room,
        })
    }

    /// How many spots there are.
    pub fn len(&self) -> usize
        ensures { result ≡ length self.now.places }
    {
        self.spots.len()
    }

    /// The spot of this number.
    pub fn spot(&self, k: u32) -> Spot
        requires { k < length self.now.places }
        ensures { result ≡ (place_at self.now.places k).spot }
    {
        self.spots[k as usize]
    }

    /// Puts another spot in the place of one, with the layers as they are.
    pub fn relabel(&mut self, k: u32, spot: Spot)
        requires { k < length self.old.places }
        ensures places { self.new.places ≡ with_spot self.old.places k spot }
        ensures room { self.new.room ≡ self.old.room }
    {
        self.spots[k as usize] = spot;
    }

    /// Adds a free spot below another, where the trip is run in these layers.
    pub fn add(&mut self, parent: u32, trip: TripNo, layers: LayerSet, table: u32)
        requires parent { parent < length self.old.places }
        requires trip { trip.0 < length (place_at self.old.places 0).sets }
        requires some { layers.0 ≢ 0 }
        requires room { length self.old.places < self.old.room }
        ensures places { self.new.places ≡ self.old.places ++ record {
          spot = Free table;
          sets = with_set (place_at self.old.places parent).sets trip layers;
        } ∷ [] }
        ensures room { self.new.room ≡ self.old.room }
    {
        let cut = Cut {
            parent,
            trip,
            layers,
        };
        match self.spots.push(Spot::Free { table }) {
            Ok(()) => {}
            Err(_) => unreachable!(),
        }
        match self.cuts.push(cut) {
            Ok(()) => {}
            Err(_) => unreachable!(),
        }
    }

    /// Splits a spot: below it come two free ones. The trip is run in the layers on the left in the first, and in those
    /// on the right in the other. Gives the number of the first; the other has the next.
    pub fn split(
        &mut self,
        k: u32,
        trip: TripNo,
        left: LayerSet,
        right: LayerSet,
        table: u32,
    ) -> u32
        requires spot { k < length self.old.places }
        requires trip { trip.0 < length (place_at self.old.places 0).sets }
        requires left { left.0 ≢ 0 }
        requires right { right.0 ≢ 0 }
        requires room { length self.old.places + 2 ≤ self.old.room }
        ensures number { result ≡ length self.old.places }
        ensures places { self.new.places ≡ split_at self.old.places k trip left right table }
        ensures room { self.new.room ≡ self.old.room }
    {
        let lower = self.add_lower(k, trip, left, table);
        self.add(k, trip, right, table);
        lower
    }

    /// Makes a spot an inner one, above two that come next, and adds the lower of them. Gives its number.
    fn add_lower(&mut self, k: u32, trip: TripNo, left: LayerSet, table: u32) -> u32
        requires spot { k < length self.old.places }
        requires trip { trip.0 < length (place_at self.old.places 0).sets }
        requires left { left.0 ≢ 0 }
        requires room { length self.old.places + 2 ≤ self.old.room }
        ensures number { result ≡ length self.old.places }
        ensures places { self.new.places ≡ with_lower self.old.places k trip left table }
        ensures room { self.new.room ≡ self.old.room }
    {
        let lower = self.spots.len() as u32;
        self.relabel(
            k,
            Spot::Inner {
                trip,
                left,
                lower,
                upper: lower + 1,
            },
        );
        self.add(k, trip, left, table);
        lower
    }

    /// Writes the layers of each trip at a spot.
    pub fn sets(&self, k: u32, sets: &mut [LayerSet])
        requires spot { k < length self.now.places }
        requires size { length sets.old ≡ length (place_at self.now.places k).sets }
        ensures { sets.new ≡ (place_at self.now.places k).sets }
    {
        let permitted: &[LayerSet] = &self.permitted;
        let cuts: &[Cut] = &self.cuts;
        sets.fill(LayerSet(0));
        lay_cuts(permitted, cuts, k as usize, sets);
        lay_permitted(permitted, sets);
    }
}

/// Going up from a spot, writes for each trip the layers that the first cut of the trip gives it.
fn lay_cuts(permitted: &[LayerSet], cuts: &[Cut], k: usize, sets: &mut [LayerSet])
    requires cuts { AreCuts (length permitted.now) cuts.now }
    requires spot { k ≤ length cuts.now }
    requires size { length sets.old ≡ length permitted.now }
    requires none { All (λ set. set.0 ≡ 0) sets.old }
    ensures { AreLaid (slice_index_or (sets_of permitted.now cuts.now) k []) permitted.now sets.new }
{
    let mut spot = k;
    while spot > 0 {
        let cut = cuts[spot - 1];
        let i = cut.trip.0 as usize;
        sets[i] = laid(sets[i], cut.layers);
        spot = cut.parent as usize;
    }
}

/// Writes the permitted layers of each trip that has none yet.
fn lay_permitted(permitted: &[LayerSet], sets: &mut [LayerSet])
    requires { length sets.old ≡ length permitted.now }
    ensures { (i : ℕ) → i < length sets.new
        → set_of sets.new i ≡ laid (set_of sets.old i) (set_of permitted.now i) }
{
    for (i, set) in sets.iter_mut().enumerate() {
        *set = laid(*set, permitted[i]);
    }
}

/// The set, or these layers where nothing was laid there yet.
fn laid(set: LayerSet, layers: LayerSet) -> LayerSet
    ensures { result ≡ laid set layers }
{
    if set.0 == 0 { layers } else { set }
}
