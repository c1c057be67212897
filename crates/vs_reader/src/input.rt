//! An instance as its text gives it, with and without the records behind it.

use crate::names::Names;
use crate::rows::Rows;
use vs_instance::Instance;

/// An instance and the names that its text declares.
#[derive(Drop)]
pub struct Timetable {
    pub instance: Instance,
    pub names: Names,
}

/// An instance as its text gives it.
#[derive(Drop)]
pub struct Input {
    pub instance: Instance,
    /// The names that the text declares.
    pub names: Names,
    /// How many records come before the first `result` record.
    pub before: u64,
    /// The records from the first `result` record on, unjudged.
    pub rest: Rows,
}
