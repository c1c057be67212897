//! `mdvsp` plans the vehicles of a bus company for one timetable, and judges such plans. `run` does what words ask for,
//! over any source and sink of bytes. The program `mdvsp_main` calls it over its standard streams.
#![tactic(auto)]

mod budget;
mod crew;
mod laws;
mod limits;
mod resuming;
mod running;
mod saying;
mod searchable;
mod solving;
mod tracing;
mod trial;

pub use laws::{
    bounds_never_fall, bounds_never_pass_costs, done_where_shown, enough_nodes_end_what_is_resumed,
    enough_nodes_leave_nothing_open, one_answer, one_input_has_one_instance, one_status,
    resumed_documents_hold, searches_agree, solve_answers_are_stopped_answers,
    solved_documents_hold, written_traces_replay,
};
pub use running::run;
pub use vs_make::make_text;
pub use vs_peak::written_peaks_hold;
pub use vs_reply::Status;
pub use vs_words::words_mean_one_thing;
