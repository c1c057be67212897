//! The reading of a trace from the rows of its text.
mod beginning;
mod forms;
mod said;
mod steps;
mod tables;
mod whole;
mod wrong;

pub use whole::read;
