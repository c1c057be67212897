//! Numbers in the order in which they first came.

ghost use Rattle.std.specs.Prelude.{◌≡◌, ◌<◌, ◌≤◌, ◌^◌, [], length, slice_get, Some, IfOk, OnOk};
ghost use Rattle.vs_cert.specs.Numbering.{with_number};

use std::alloc::Global;
use std::marker::Model;
use vs_types::Memory;

/// Numbers below a limit in the order in which they first came, each of which is found by its place among them.
#[derive(Drop)]
pub struct Numbering {
    /// The place of each number, None where it didn't come.
    places: Vec<Option<u32>>,
    /// The number at each place.
    numbers: Vec<u32>,
}

impl Model for Numbering {
    ghost use Rattle.std.specs.Prelude.{length};
    ghost use Rattle.vs_cert.specs.Numbering.{ArePlacesOf, Numbered};

    ghost Value = { Numbered };

    ghost view = { λ a. record { limit = length a.places.items; numbers = a.numbers.items } };

    ghost invariant = { λ a. ArePlacesOf a.places.items a.numbers.items };
}

impl Numbering {
    /// No number came yet.
    pub fn new(alloc: Global, limit: u32) -> Result<Numbering, Memory>
        ensures { IfOk result (λ numbering. numbering ≡ record { limit = limit; numbers = [] }) }
    {
        let places = vec![in alloc; None; limit as usize]?;
        Ok(Numbering {
            places,
            numbers: Vec::new(alloc),
        })
    }

    /// The place of a number, which is a new one behind the others where it comes for the first time.
    pub fn place(&mut self, number: u32) -> Result<u32, Memory>
        requires below { number < self.old.limit }
        requires limit { self.old.limit < 2 ^ 32 }
        ensures limit { self.new.limit ≡ self.old.limit }
        ensures numbers { OnOk result (self.new.numbers ≡ with_number self.old.numbers number) }
        ensures named { IfOk result (λ place. slice_get self.new.numbers place ≡ Some number) }
    {
        if let Some(place) = self.places[number as usize] {
            return Ok(place);
        }
        let place = self.numbers.len() as u32;
        match self.numbers.push(number) {
            Ok(()) => {
                self.places[number as usize] = Some(place);
                Ok(place)
            }
            Err(_) => Err(Memory),
        }
    }

    /// The numbers that came.
    pub fn into_numbers(self) -> Vec<u32>
        ensures numbers { result.items ≡ self.numbers }
        ensures few { length self.numbers ≤ self.limit }
    {
        self.numbers
    }
}
