//! The replay of a trace: one thread makes its steps again, each where it may come.
//!
//! `replay` answers the document of the search that a trace describes, or the first step that may not come.
#![tactic(auto)]

mod answering;
mod document_laws;
mod finishing;
mod ground;
mod hands;
mod laws;
mod plans;
mod refusing;
mod replaying;
mod room;
mod steps;

pub use answering::answer_replay;
pub use document_laws::{
    documents_come_back, replays_have_one_answer, states_have_one_text, written_traces_replay,
};
pub use laws::told_histories_come_back;
pub use replaying::{Replayed, replay};
pub use room::MAX_ENTRIES;
pub use vs_trace::{Full, Trace, TraceError, TraceWhy, read, write, written_traces_stand};
