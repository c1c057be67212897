//! The rows of a document: what each says, how one is read and how all are written; and the text of a whole document.
#![tactic(auto)]

mod document;
mod fields;
pub mod forms;
mod laws;
mod limits;
mod names;
mod numbers;
mod priced;
mod reading;
mod text;
mod writing;
mod wrong;

pub use document::{Document, Shape};
pub use fields::{begins_as, is_of_kind, is_text};
pub use laws::{limits_are_fixed, written_rows_stand_for_their_document};
pub use limits::{MAX_BOUND, MAX_COST, MAX_FINISHED, MAX_NUMBER, MAX_PRINTED_PRICE};
pub use names::{Likely, layer_named, trip_named};
pub use numbers::between;
pub use priced::{Priced, prices_said};
pub use reading::{read_blocks, read_fleet, read_price, read_table};
pub use text::Text;
pub use writing::{
    bound_field, claim_field, cost_field, text_of, write_blocks, write_fleet, write_head,
    write_layer_names, write_price, write_shapes, write_table,
};
pub use wrong::{PriceWhy, TableError};
