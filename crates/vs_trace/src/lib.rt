//! The trace of a search: what it says, how it is written, and how it is read from the rows of a text.
#![tactic(auto)]

mod laws;
mod limits;
mod read_laws;
mod reading;
mod refused;
mod trace;
mod writing;

pub use laws::written_traces_stand;
pub use limits::MAX_SPOTS;
pub use read_laws::{rows_are_refused_once, traces_are_not_refused, traces_of_rows_are_alike};
pub use reading::read;
pub use refused::{TraceError, TraceWhy};
pub use trace::{Full, Trace};
pub use writing::write;
