//! Numbers for the nodes of a net that each call writes afresh.

ghost use Rattle.std.specs.Prelude.{◌≡◌, ◌<◌, ◌≤◌, IfOk, IsTrue, length};
ghost use Rattle.vs_path.specs.declared.residual.TheConstants.{MAX_SEARCH_NODES, MAX_SEARCH_PRICE};
ghost use Rattle.vs_path.specs.Residual.{AllWithin};
ghost use Rattle.vs_ship.specs.Gaps.{AreNear};
ghost use Rattle.vs_ship.specs.Works.{IsSpaceFor};

use crate::gaps::bring_near;
use std::alloc::Global;
use vs_types::Memory;

/// Numbers for the nodes of a net that each call writes afresh.
#[derive(Drop)]
pub struct Space {
    /// Prices from which those of the layer are made.
    pub prices: Vec<i64>,
    /// Prices in the net turned round.
    pub turned: Vec<i64>,
    /// The least prices.
    pub low: Vec<i64>,
    /// Leeways for entering trips.
    pub entering: Vec<u64>,
    /// Leeways for leaving trips.
    pub leaving: Vec<u64>,
}

impl Space {
    /// Space for so many nodes.
    pub fn new(alloc: Global, nodes: u32) -> Result<Space, Memory>
        ensures { IfOk result (IsSpaceFor nodes) }
    {
        let nodes = nodes as usize;
        Ok(Space {
            prices: vec![in alloc; 0; nodes]?,
            turned: vec![in alloc; 0; nodes]?,
            low: vec![in alloc; 0; nodes]?,
            entering: vec![in alloc; 0; nodes]?,
            leaving: vec![in alloc; 0; nodes]?,
        })
    }

    /// Whether it has a number for each of so many nodes.
    pub fn is_for(&self, nodes: u32) -> bool
        ensures { IsTrue result → IsSpaceFor nodes self.now }
    {
        let nodes = nodes as usize;
        self.prices.len() == nodes
            && self.turned.len() == nodes
            && self.low.len() == nodes
            && self.entering.len() == nodes
            && self.leaving.len() == nodes
    }

    /// Takes these prices, brought near.
    pub fn take_near(&mut self, prices: &[i64])
        requires space { IsSpaceFor (length prices.now) self.old }
        requires some { 0 < length prices.now }
        requires few { length prices.now ≤ MAX_SEARCH_NODES }
        requires within { AllWithin MAX_SEARCH_PRICE prices.now }
        ensures near { AreNear prices.now self.new.prices.items }
        ensures space { IsSpaceFor (length prices.now) self.new }
    {
        self.prices.copy_from_slice(prices);
        bring_near(&mut self.prices, &mut self.turned, &mut self.low);
    }
}
