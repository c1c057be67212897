//! The numbers of the records that declare deadheads, layers and trips.

ghost use Rattle.std.specs.Prelude.{◌≡◌, List, [], slice_index_or};
ghost use Rattle.vs_reader.specs.Rows.{Row};
ghost use Rattle.vs_reader.specs.Refusals.{misfit_row};
ghost use Rattle.vs_reader.specs.RecordNumbers.{HasNumbers};

use std::alloc::Global;
use vs_instance::{Misfit, Place};

/// The numbers of the records that declare deadheads, layers and trips, each in order.
#[derive(Drop)]
pub struct RecordNumbers {
    pub deadheads: Vec<u32>,
    pub layers: Vec<u32>,
    pub trips: Vec<u32>,
}

impl RecordNumbers {
    /// Of no records.
    pub fn new(alloc: Global) -> RecordNumbers
        ensures { HasNumbers result [] }
    {
        RecordNumbers {
            deadheads: Vec::new(alloc),
            layers: Vec::new(alloc),
            trips: Vec::new(alloc),
        }
    }

    /// The number of the record at which an error is reported, 0 where it concerns the deadheads of three stops.
    pub fn of_misfit(&self, misfit: Misfit) -> u32
        ensures { (records : List Row) → HasNumbers self.now records → result ≡ misfit_row records misfit }
    {
        match misfit {
            Misfit::Range(_, Place::Layer(l)) | Misfit::TooDear(l) => row_at(&self.layers, l.0),
            Misfit::Range(_, Place::Deadhead(n))
            | Misfit::SelfDeadhead(n)
            | Misfit::DeadheadTwice(n) => row_at(&self.deadheads, n),
            Misfit::Range(_, Place::Trip(i)) | Misfit::EndNotAfterStart(i) => {
                row_at(&self.trips, i.0)
            }
            Misfit::NotClosed(..) | Misfit::LongerMinutes(..) | Misfit::LongerMetres(..) => 0,
        }
    }
}

/// The number at a place, 0 past the end.
fn row_at(rows: &[u32], k: u32) -> u32
    ensures { result ≡ slice_index_or rows.now k 0 }
{
    rows.get(k as usize).copied().unwrap_or(0)
}
