//! The ranges of the numbers in a document.

/// The most that a cost may be, in cost units.
pub const MAX_COST: i128 = 100_000_000_000_000_000;

/// The most that a bound may be in either direction, in cost units.
pub const MAX_BOUND: i128 = 100_000_000_000_000_000_000;

/// The most cases that a search may have finished.
pub const MAX_FINISHED: u64 = 1_000_000_000_000_000_000;

/// The greatest number of a table.
pub const MAX_NUMBER: u32 = 1_000_000_000;

/// The greatest price of 19 digits, in 1/1000 of a cost unit. A row may have it and is then out of the range of prices.
pub const MAX_PRINTED_PRICE: i128 = 9_999_999_999_999_999_999;
