//! What leaves are worked on with.

ghost use Rattle.std.specs.Prelude.{IfOk};

use crate::progress::Progress;
use std::alloc::Global;
use vs_bundle::KeptCuts;
use vs_circ::Work;
use vs_match::LayerNet;
use vs_types::Memory;

/// What leaves are worked on with, one after the other. It decides how soon something is found, and nothing else.
#[derive(Drop)]
pub struct Room {
    /// What is kept for the nets.
    pub work: Work,
    /// What climbs leave for the next one.
    pub cuts: KeptCuts,
    /// What the leaves so far brought.
    pub progress: Progress,
}

impl Room {
    /// Before the first leaf of one of so many workers.
    pub fn new(alloc: Global, nets: &[LayerNet], workers: u32) -> Result<Room, Memory> {
        Ok(Room {
            work: Work::new(alloc, nets)?,
            cuts: KeptCuts::none(),
            progress: Progress::new(workers),
        })
    }
}
