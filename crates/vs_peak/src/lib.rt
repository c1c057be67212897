//! How few vehicles each layer needs for all that it may run, with what proves it, and the text that claims it.
#![tactic(auto)]

mod answer_laws;
mod answering;
mod claiming;
mod laws;
mod layer_peak;
mod writing;

pub use answer_laws::written_peaks_hold;
pub use answering::answer_peak;
pub use claiming::{claim_of, peaks};
pub use laws::{written_peaks_are_read_back, written_rows_stand_for_their_claims};
pub use layer_peak::{LayerPeak, peak};
pub use vs_peakcheck::{
    Claimed, MAX_COUNT, PeakError, PeakFlaw, PeakVerdict, PeakWhy, alike_claims_are_judged_alike,
    check, claims_are_not_refused, claims_of_rows_are_alike, claims_of_rows_are_judged_alike,
    counting, each_peak_is_a_least_cost, holding_claims_prove_peaks, plans_count_vehicles, read,
    rows_are_refused_once,
};
pub use writing::write;
