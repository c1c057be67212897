//! What a search keeps of each node, side by side in one record.

ghost use Rattle.std.specs.Prelude.{◌≡◌, ◌<◌, ◌↔◌, IsTrue, length, set, replicate, slice_index_or, IfOk, Some, None};
ghost use Rattle.vs_queue.specs.Keys.{IsBelow, key_at};
ghost use Rattle.vs_queue.specs.NodeLists.{IsFarther, key_of, label_of, settled_of};

use crate::step::Step;
use std::alloc::Global;
use std::marker::Model;
use vs_types::Memory;

/// Past the distance of any node. It stands where a node isn't reached, so that nearly always the distance alone shows
/// whether a step leads to a lesser one. That the node isn't reached is what its mark says.
const UNKNOWN: i64 = i64::MAX;

/// A node whose least distance is known.
#[derive(Clone, Copy, Debug)]
pub struct Settled {
    pub distance: i64,
    /// Its place among the settled nodes, in the order in which they were settled.
    pub place: u32,
}

/// How far a search has come with a node.
#[derive(Clone, Copy)]
pub enum Mark {
    /// The node isn't reached.
    Unknown,
    /// The node is reached, and its distance may still fall.
    Waits,
    /// The node is settled, at this place in the order of settled nodes.
    Placed(u32),
}

/// What is kept of a node.
#[derive(Clone, Copy)]
pub struct NodeRecord {
    /// The least distance found so far, where the node is reached.
    pub distance: i64,
    /// The last step of a path that was found.
    pub step: Step,
    pub mark: Mark,
}

impl NodeRecord {
    /// The distance of a node that waits.
    fn key(self) -> Option<i64>
        ensures { result ≡ key_of self }
    {
        match self.mark {
            Mark::Unknown => None,
            Mark::Waits => Some(self.distance),
            Mark::Placed(_) => None,
        }
    }

    /// The distance and the place of a settled node.
    fn settled(self) -> Option<Settled>
        ensures { result ≡ settled_of self }
    {
        match self.mark {
            Mark::Unknown => None,
            Mark::Waits => None,
            Mark::Placed(place) => Some(Settled {
                distance: self.distance,
                place,
            }),
        }
    }

    /// Whether the node isn't reached, or at a greater distance than this.
    fn is_farther(self, label: i64) -> bool
        ensures { IsTrue result ↔ IsBelow label (label_of (settled_of self) (key_of self)) }
    {
        label < self.distance || matches!(self.mark, Mark::Unknown)
    }

    /// What is left once the node doesn't wait.
    fn without_key(self) -> NodeRecord
        ensures key { key_of result ≡ None }
        ensures settled { settled_of result ≡ settled_of self }
        ensures step { result.step ≡ self.step }
    {
        match self.mark {
            Mark::Unknown => self,
            Mark::Waits => self.forgotten(),
            Mark::Placed(_) => self,
        }
    }

    /// What is left once the node isn't settled.
    fn without_place(self) -> NodeRecord
        ensures settled { settled_of result ≡ None }
        ensures key { key_of result ≡ key_of self }
        ensures step { result.step ≡ self.step }
    {
        match self.mark {
            Mark::Unknown => self,
            Mark::Waits => self,
            Mark::Placed(_) => self.forgotten(),
        }
    }

    /// The same once the node isn't reached.
    fn forgotten(self) -> NodeRecord
        ensures key { key_of result ≡ None }
        ensures settled { settled_of result ≡ None }
        ensures step { result.step ≡ self.step }
    {
        NodeRecord {
            distance: UNKNOWN,
            step: self.step,
            mark: Mark::Unknown,
        }
    }
}

/// By node its distance, its last step, and how far the search has come with it. A step looks at all of these, so they
/// lie in one record.
#[derive(Drop)]
pub struct NodeTable {
    records: Vec<NodeRecord>,
}

impl Model for NodeTable {
    ghost use Rattle.vs_queue.specs.NodeLists.{NodeLists, lists_by_node};

    ghost Value = { NodeLists };

    ghost view = { λ t. lists_by_node t.records.items };
}

impl NodeTable {
    /// Nothing known of so many nodes.
    pub fn new(alloc: Global, count: u32) -> Result<NodeTable, Memory>
        ensures settled { IfOk result (λ table. table.settled ≡ replicate count None) }
        ensures waiting { IfOk result (λ table. table.waiting ≡ replicate count None) }
        ensures steps { IfOk result (λ table. length table.steps ≡ count) }
    {
        let unknown = NodeRecord {
            distance: UNKNOWN,
            step: Step::Forward(0),
            mark: Mark::Unknown,
        };
        let records = vec![in alloc; unknown; count as usize]?;
        Ok(NodeTable { records })
    }

    /// How many nodes there are.
    pub fn len(&self) -> usize
        ensures settled { result ≡ length self.now.settled }
        ensures waiting { result ≡ length self.now.waiting }
    {
        self.records.len()
    }

    /// The key of a node, its distance where it waits.
    pub fn key(&self, node: usize) -> Option<i64>
        requires { node < length self.now.waiting }
        ensures { result ≡ key_at self.now.waiting node }
    {
        self.records[node].key()
    }

    /// Whether a node has this key.
    pub fn has_key(&self, node: u32, key: i64) -> bool
        requires { node < length self.now.waiting }
        ensures { IsTrue result ↔ key_at self.now.waiting node ≡ Some key }
    {
        self.key(node as usize) == Some(key)
    }

    /// The distance and the place of a node, where it is settled.
    pub fn settled(&self, node: usize) -> Option<Settled>
        requires { node < length self.now.settled }
        ensures { result ≡ slice_index_or self.now.settled node None }
    {
        self.records[node].settled()
    }

    /// Whether a node isn't reached, or at a greater distance than this.
    pub fn is_farther(&self, node: usize, label: i64) -> bool
        requires { node < length self.now.waiting }
        ensures { IsTrue result ↔ IsFarther self.now node label }
    {
        self.records[node].is_farther(label)
    }

    /// The last step of a path to a node.
    pub fn step(&self, node: usize) -> Step
        requires { node < length self.now.steps }
        ensures { slice_index_or self.now.steps node None ≡ Some result }
    {
        self.records[node].step
    }

    /// Lets a node wait with this key, reached by this step.
    pub fn wait(&mut self, node: u32, key: i64, step: Step)
        requires node { node < length self.old.waiting }
        requires unsettled { slice_index_or self.old.settled node None ≡ None }
        ensures settled { self.new.settled ≡ self.old.settled }
        ensures waiting { self.new.waiting ≡ set self.old.waiting node (Some key) }
        ensures steps { self.new.steps ≡ set self.old.steps node (Some step) }
    {
        self.records[node as usize] = NodeRecord {
            distance: key,
            step,
            mark: Mark::Waits,
        };
    }

    /// Settles a node that doesn't wait.
    pub fn settle(&mut self, node: u32, settled: Settled)
        requires node { node < length self.old.waiting }
        requires taken { key_at self.old.waiting node ≡ None }
        ensures settled { self.new.settled ≡ set self.old.settled node (Some settled) }
        ensures waiting { self.new.waiting ≡ self.old.waiting }
        ensures steps { self.new.steps ≡ self.old.steps }
    {
        let known = self.records[node as usize];
        self.records[node as usize] = NodeRecord {
            distance: settled.distance,
            step: known.step,
            mark: Mark::Placed(settled.place),
        };
    }

    /// Takes the key of a node.
    pub fn take_key(&mut self, node: u32)
        requires { node < length self.old.waiting }
        ensures settled { self.new.settled ≡ self.old.settled }
        ensures waiting { self.new.waiting ≡ set self.old.waiting node None }
        ensures steps { self.new.steps ≡ self.old.steps }
    {
        let known = self.records[node as usize];
        let left = known.without_key();
        self.records[node as usize] = left;
    }

    /// Forgets that a node is settled.
    pub fn take_place(&mut self, node: u32)
        requires { node < length self.old.waiting }
        ensures settled { self.new.settled ≡ set self.old.settled node None }
        ensures waiting { self.new.waiting ≡ self.old.waiting }
        ensures steps { self.new.steps ≡ self.old.steps }
    {
        let known = self.records[node as usize];
        let left = known.without_place();
        self.records[node as usize] = left;
    }
}
