//! The document of a search, as it is written, and what it proves.
//!
//! What a document is, and how it is read, stands in `vs_document`.
#![tactic(auto)]

mod answer_laws;
mod laws;
mod numbering;
mod tree_document;
mod tree_rows;

pub use answer_laws::{
    bounds_reach_the_start, documents_of_states_hold, enough_budgets_leave_nothing_open,
    finished_searches_answer, searches_answer_so_far, states_have_documents,
};
pub use laws::written_searches_are_read_back;
pub use numbering::Numbering;
pub use tree_document::write;
pub use tree_rows::{TreeRows, tree_rows as rows_of_tree};
pub use vs_document::{
    DocError, DocWhy, Document, Shape, Text, bound_field, claim_field, cost_field,
    documents_are_not_refused, documents_of_rows_are_alike, read, rows_are_refused_once, text_of,
    written_documents_are_read_back, written_rows_stand_for_their_document,
};
