//! The blocks so far of the greedy rule, and how it places one more trip.

ghost use Rattle.std.specs.Prelude.{◌≡◌, ◌<◌, ◌↔◌, [], length, All, IfOk, OnOk, IsTrue, MatchBool, MatchOption, slice_index};
ghost use Rattle.vs_plan.specs.Greedy.{AreLeft, CanJoin, CanOpen, IsFirstToJoin, IsLowestToOpen, IsPlaced, IsStuck, JoinsNone, OpensNone, joined, one_fewer, opened};
ghost use Rattle.vs_plan.specs.Blocks.{pair_of, pairs_of};
ghost use Rattle.vs_plan.specs.Blocks.{IsOfInstance};
ghost use Rattle.vs_instance.specs.Instance.{IsInstance};

use crate::block::Block;
use std::alloc::Global;
use vs_connect::{connects, in_cost, out_cost};
use vs_instance::Instance;
use vs_types::{LayerNo, Memory, TripNo};

/// Whether trip i can go to the end of the block.
fn can_join(instance: &Instance, block: &Block, i: TripNo) -> bool
    requires instance { IsInstance instance.now }
    requires block { IsOfInstance instance.now (pair_of block.now) }
    requires trip { i.0 < length instance.now.trips }
    ensures { IsTrue result ↔ CanJoin instance.now i.0 (pair_of block.now) }
{
    let last = block.trips[block.trips.len() - 1];
    instance.trip(i).layers.has(block.layer)
        && connects(instance, last, i)
        && in_cost(instance, block.layer, i).is_some()
}

/// A plan in the making.
#[derive(Drop)]
pub struct Draft {
    /// The blocks in the order in which they were opened.
    pub blocks: Vec<Block>,
    /// How many vehicles each layer has left.
    pub left: Vec<u64>,
}

impl Draft {
    /// No blocks yet, and every vehicle left.
    pub fn new(alloc: Global, instance: &Instance) -> Result<Draft, Memory>
        ensures blocks { IfOk result (λ draft. draft.blocks.items ≡ []) }
        ensures left { IfOk result (λ draft. AreLeft instance.now [] draft.left.items) }
        ensures instance { OnOk result (IsInstance instance.now) }
    {
        let mut left = Vec::new(alloc);
        for l in 0..instance.layers() {
            left.push(instance.layer(LayerNo(l)).fleet)?;
        }
        Ok(Draft {
            blocks: Vec::new(alloc),
            left,
        })
    }

    /// The first block that trip i can join.
    fn first_to_join(&self, instance: &Instance, i: TripNo) -> Option<usize>
        requires instance { IsInstance instance.now }
        requires blocks { All (IsOfInstance instance.now) (pairs_of self.now.blocks.items) }
        requires trip { i.0 < length instance.now.trips }
        ensures { let blocks = pairs_of self.now.blocks.items in
            MatchOption result (JoinsNone instance.now blocks i.0)
            (IsFirstToJoin instance.now blocks i.0) }
    {
        for (k, block) in self.blocks.iter().enumerate() {
            if can_join(instance, block, i) {
                return Some(k);
            }
        }
        None
    }

    /// Whether a vehicle of layer l can be taken for trip i.
    fn can_open(&self, instance: &Instance, i: TripNo, l: LayerNo) -> bool
        requires instance { IsInstance instance.now }
        requires left { AreLeft instance.now (pairs_of self.now.blocks.items) self.now.left.items }
        requires trip { i.0 < length instance.now.trips }
        requires layer { l.0 < length instance.now.layers }
        ensures { IsTrue result ↔ CanOpen instance.now (pairs_of self.now.blocks.items) i.0 l.0 }
    {
        instance.trip(i).layers.has(l)
            && self.left[l.0 as usize] > 0
            && out_cost(instance, l, i).is_some()
            && in_cost(instance, l, i).is_some()
    }

    /// The lowest layer of which a vehicle can be taken for trip i.
    fn lowest_to_open(&self, instance: &Instance, i: TripNo) -> Option<LayerNo>
        requires instance { IsInstance instance.now }
        requires left { AreLeft instance.now (pairs_of self.now.blocks.items) self.now.left.items }
        requires trip { i.0 < length instance.now.trips }
        ensures { let blocks = pairs_of self.now.blocks.items in
            MatchOption result (OpensNone instance.now blocks i.0)
            (λ l. IsLowestToOpen instance.now blocks i.0 l.0) }
    {
        for l in 0..instance.layers() {
            if self.can_open(instance, i, LayerNo(l)) {
                return Some(LayerNo(l));
            }
        }
        None
    }

    /// Puts trip i to the end of block k.
    fn join(&mut self, k: usize, i: TripNo) -> Result<(), Memory>
        requires { k < length self.old.blocks.items }
        ensures blocks { OnOk result
            (pairs_of self.new.blocks.items ≡ joined (pairs_of self.old.blocks.items) k i) }
        ensures left { self.new.left.items ≡ self.old.left.items }
    {
        self.blocks[k].trips.push(i)?;
        Ok(())
    }

    /// Takes a vehicle of layer l for trip i.
    fn open(&mut self, alloc: Global, l: LayerNo, i: TripNo) -> Result<(), Memory>
        requires layer { l.0 < length self.old.left.items }
        requires left { 0 < slice_index self.old.left.items l.0 }
        ensures blocks { OnOk result
            (pairs_of self.new.blocks.items ≡ opened (pairs_of self.old.blocks.items) l i) }
        ensures left { OnOk result (self.new.left.items ≡ one_fewer self.old.left.items l.0) }
    {
        let trips = vec![in alloc; i]?;
        self.blocks.push(Block { layer: l, trips })?;
        self.left[l.0 as usize] -= 1;
        Ok(())
    }

    /// Places trip i: it joins the first block that it can join, else it opens a block in the lowest layer
    /// in which it can. False exactly where it can do neither.
    pub fn place(&mut self, alloc: Global, instance: &Instance, i: TripNo) -> Result<bool, Memory>
        requires instance { IsInstance instance.now }
        requires blocks { All (IsOfInstance instance.now) (pairs_of self.old.blocks.items) }
        requires left { AreLeft instance.now (pairs_of self.old.blocks.items) self.old.left.items }
        requires trip { i.0 < length instance.now.trips }
        ensures placed { let old = pairs_of self.old.blocks.items in
            IfOk result (λ is. MatchBool is
            (IsPlaced instance.now old i (pairs_of self.new.blocks.items))
            (IsStuck instance.now old i.0)) }
        ensures left { OnOk result
            (AreLeft instance.now (pairs_of self.new.blocks.items) self.new.left.items) }
        ensures blocks { OnOk result
            (All (IsOfInstance instance.now) (pairs_of self.new.blocks.items)) }
    {
        if let Some(k) = self.first_to_join(instance, i) {
            self.join(k, i)?;
            return Ok(true);
        }
        let Some(l) = self.lowest_to_open(instance, i) else {
            return Ok(false);
        };
        self.open(alloc, l, i)?;
        Ok(true)
    }
}
