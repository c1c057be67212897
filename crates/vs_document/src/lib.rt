//! The document of a plan, read from the rows of a text; and what holds of the documents that rows stand for.
#![tactic(auto)]

mod laws;
mod reading;
mod refused;

pub use laws::{
    documents_are_not_refused, documents_of_rows_are_alike, rows_are_refused_once,
    written_documents_are_read_back,
};
pub use reading::read;
pub use refused::{DocError, DocWhy};
pub use vs_rows::{
    Document, MAX_BOUND, MAX_COST, MAX_FINISHED, MAX_NUMBER, MAX_PRINTED_PRICE, Shape, Text,
    bound_field, claim_field, cost_field, text_of, write_blocks, write_head, write_shapes,
    write_table, written_rows_stand_for_their_document,
};
