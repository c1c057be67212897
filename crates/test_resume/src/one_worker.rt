//! A solver that is one worker without threads.

use crate::searching::searched;
use std::alloc::Global;
use vs_instance::Instance;
use vs_resume::Deepen;
use vs_tree::{Stand, Tree};
use vs_types::Memory;

/// One worker, who searches each part alone, leaf after leaf, and begins each search anew.
#[derive(Debug, Drop)]
pub struct OneWorker {
    /// How many parts it was given so far, counted within 32 bits.
    pub parts: u32,
}

impl Deepen for OneWorker {
    // it may always be called
    ghost can_deepen = { λ _. Unit {0} };

    fn deepen(&mut self, alloc: Global, part: Instance, budget: u32) -> Result<Tree, Memory> {
        self.parts = self.parts.wrapping_add(1);
        searched(alloc, &part, budget)
    }

    fn is_over(&mut self, _stand: &Stand) -> bool {
        false
    }
}
