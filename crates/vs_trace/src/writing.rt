//! The writing of the trace of a search.
mod beginning;
mod fields;
mod steps;
mod whole;

pub use whole::write;
