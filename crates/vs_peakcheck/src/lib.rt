//! The judge of a text of peaks, which claims how few vehicles each layer needs.
//!
//! It reads the claims and judges them. The peak of a layer is the least cost of an instance of its own, which counts
//! vehicles.
#![tactic(auto)]

mod checking;
mod claimed;
mod counted;
mod counting_laws;
mod deadheads;
mod flaw;
mod laws;
mod reading;
mod refused;
mod trips;

pub use checking::check;
pub use claimed::{Claimed, MAX_COUNT};
pub use counted::counting;
pub use counting_laws::{each_peak_is_a_least_cost, plans_count_vehicles};
pub use flaw::{PeakFlaw, PeakVerdict};
pub use laws::{
    alike_claims_are_judged_alike, claims_are_not_refused, claims_of_rows_are_alike,
    claims_of_rows_are_judged_alike, holding_claims_prove_peaks, rows_are_refused_once,
};
pub use reading::read;
pub use refused::{PeakError, PeakWhy};
pub use trips::trips_of;
