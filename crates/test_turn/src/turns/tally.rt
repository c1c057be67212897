//! A value to share: a number to start with, and amounts that were added, each by its maker.
ghost use Rattle.std.specs.Prelude.{◌≡◌, is_ok};
ghost use Rattle.test_turn.specs.Tallies.{amounts_after};

use std::alloc::{AllocFailed, Global};
use vs_turn::Kept;

#[derive(Drop)]
pub struct Tally {
    pub start: u64,
    pub amounts: Vec<(u32, u64)>,
}

impl Kept for Tally {
    ghost use Rattle.std.specs.Prelude.{[], ◌∷◌, map};

    ghost opening = { λ t. t.start ∷ [] };

    ghost entries = { λ t. map (λ a. a.0 ∷ a.1 ∷ []) t.amounts.items };
}

impl Tally {
    pub fn new(alloc: Global, start: u64) -> Tally {
        Tally {
            start,
            amounts: Vec::new(alloc),
        }
    }

    pub fn add(&mut self, maker: u32, amount: u64) -> Result<(), AllocFailed<(u32, u64)>>
        ensures start { self.new.start ≡ self.old.start }
        ensures amounts { self.new.amounts.items
            ≡ amounts_after (is_ok result) self.old.amounts.items (maker, amount) }
    {
        self.amounts.push((maker, amount))
    }

    pub fn count(&self, maker: u32) -> usize {
        self.amounts.iter().filter(|a| a.0 == maker).count()
    }
}
