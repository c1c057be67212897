//! The ranges of the numbers in a trace.

use vs_instance::MAX_BUDGET;

/// How many spots a search can have: the root, and two for each leaf that is worked on.
pub const MAX_SPOTS: u32 = 2 * MAX_BUDGET + 1;
