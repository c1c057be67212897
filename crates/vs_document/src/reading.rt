//! The reading of a document from the rows of its text.
mod blocks;
mod document;
mod head;
mod prices;
mod said;
mod tables;
mod tree;

pub use document::read;
