//! The reading of what is claimed of each layer, from the rows of a text.
mod blocks;
mod counts;
mod layer;
mod prices;
mod said;
mod text;

pub use text::read;
