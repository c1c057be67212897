//! What a run answers: the status and the rows of each command that doesn't search.
//!
//! The rows are those of refusals and flaws, of the sizes of nets, and of the timetables of vehicles.
#![tactic(auto)]

mod answer;
mod case;
mod checking;
mod flaws;
mod making;
mod net_rows;
mod network;
mod peak_flaws;
mod peaks;
mod refusal;
mod status;
mod timetable;
mod vehicle_rows;

pub use answer::Answer;
pub use case::{Case, CaseError, read_case};
pub use checking::answer_check;
pub use flaws::flaw_fields;
pub use making::answer_make;
pub use net_rows::write_nets;
pub use network::answer_network;
pub use peak_flaws::peak_flaw_fields;
pub use peaks::answer_peakcheck;
pub use refusal::{write_document_why, write_peak_why, write_why};
pub use status::Status;
pub use timetable::answer_blocks;
pub use vehicle_rows::write_timetable;
