//! The writing of a document as the rows of its text.
mod amounts;
mod blocks;
mod document;
mod head;
mod prices;
mod shapes;
mod tables;

pub use amounts::{bound_field, claim_field, cost_field};
pub use blocks::write_blocks;
pub use document::text_of;
pub use head::write_head;
pub use prices::{write_fleet, write_price};
pub use shapes::{write_layer_names, write_shapes};
pub use tables::write_table;
