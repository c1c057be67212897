//! What a text claims of one layer.

use vs_plan::Block;
use vs_prices::Table;

/// The most vehicles that a layer can need: no more than there are trips.
pub const MAX_COUNT: u32 = 10_000;

/// What a text claims of one layer, in the numbers of the instance that counts its vehicles.
#[derive(Debug, Drop)]
pub struct Claimed {
    /// How many vehicles it needs for all that it may run, at most `MAX_COUNT`. None where no number is enough.
    pub count: Option<u32>,
    /// What each of them runs. No blocks where there is no count.
    pub blocks: Vec<Block>,
    /// Prices that show that fewer aren't enough; a ray exactly where there is no count.
    pub table: Table,
}
