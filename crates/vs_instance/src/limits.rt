//! The limits of an instance and of a search, and of the numbers that several crates compute with.

/// How many stops an instance has at most.
pub const MAX_STOPS: u32 = 500;

/// How many trips an instance has at most.
pub const MAX_TRIPS: u32 = 10_000;

/// How many vehicles a layer has at most.
pub const MAX_FLEET: u64 = 10_000;

/// How many trips an instance has at most whose text is of version 1 or 2, and how many vehicles each of its layers.
pub const USUAL_TRIPS: u32 = 2_000;

/// What as many pieces as there are trips cost at most in cost units, each as dear as the dearest piece can be.
pub const MAX_DEAREST_SUM: u64 = 40_000_000_000_000;

/// What a vehicle costs at most for the day, in cost units.
pub const MAX_FIXED: u64 = 1_000_000_000;

/// What a minute away from the depot costs at most, in cost units.
pub const MAX_PER_MINUTE: u64 = 1_000_000;

/// What a metre costs at most, in cost units.
pub const MAX_PER_METRE: u64 = 10_000;

/// How many minutes the least rest in a depot takes at most.
pub const MAX_STAY: u64 = 600;

/// How many minutes a deadhead takes at most.
pub const MAX_MINUTES: u64 = 1_440;

/// How many metres long a deadhead or a trip is at most.
pub const MAX_METRES: u64 = 1_000_000;

/// The minutes of two days. The times of trips are before their end.
pub const TWO_DAYS: u32 = 2_880;

/// No price is above this or below its negative, in 1/1000 of a cost unit.
pub const MAX_PRICE: i64 = 1_000_000_000_000_000_000;

/// The greatest multiplier of a trip, in 1/1000 of a cost unit: what a trip is paid for at most. Where there are more
/// than 2,000 trips, each is paid for less at most.
pub const MAX_MULTIPLIER: i64 = 100_000_000_000_000;

/// What the greatest multipliers of 2,000 trips or more come to at most, in 1/1000 of a cost unit.
pub const MAX_MULTIPLIER_SUM: i64 = 200_000_000_000_000_000;

/// How many workers share a search at most.
pub const MAX_WORKERS: u32 = 64;

/// How many leaves a search may work on at most.
pub const MAX_BUDGET: u32 = 100_000;
