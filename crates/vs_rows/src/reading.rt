//! The reading of rows that several texts have: those of blocks, those of prices, and those of a whole table.
mod blocks;
mod prices;
mod tables;

pub use blocks::read_blocks;
pub use prices::{read_fleet, read_price};
pub use tables::read_table;
