//! Nodes with keys, of which one with the least key is taken first.

ghost use Rattle.std.specs.Prelude.{◌≡◌, ◌<◌, ◌↔◌, IsTrue, length, set, replicate, slice_index_or, IfOk, IfSome, MatchOption, Some, None};
ghost use Rattle.vs_queue.specs.Keys.{IsBelow, IsEmpty, IsLeast, key_at};
ghost use Rattle.vs_queue.specs.NodeLists.{IsFarther};

use crate::node_table::{NodeTable, Settled};
use crate::queue::Queue;
use crate::step::Step;
use std::alloc::Global;
use std::marker::Model;
use vs_types::Memory;

/// Nodes with keys, of which one with the least key is taken first; each node is in it at most once. Of each node it
/// also keeps the last step of a path to it. Once the node is settled, it keeps its distance and its place too.
#[derive(Drop)]
pub struct NodeHeap {
    table: NodeTable,
    queue: Queue,
}

impl Model for NodeHeap {
    ghost use Rattle.vs_queue.specs.NodeLists.{NodeLists};
    ghost use Rattle.vs_queue.specs.Queues.{IsQueue};

    ghost Value = { NodeLists };

    ghost view = { λ h. h.table };

    ghost invariant = { λ h. IsQueue h.table.waiting h.queue };
}

impl NodeHeap {
    /// An empty heap for so many nodes.
    pub fn new(alloc: Global, count: u32) -> Result<NodeHeap, Memory>
        requires { 0 < count }
        ensures settled { IfOk result (λ heap. heap.settled ≡ replicate count None) }
        ensures waiting { IfOk result (λ heap. heap.waiting ≡ replicate count None) }
        ensures steps { IfOk result (λ heap. length heap.steps ≡ count) }
    {
        let table = NodeTable::new(alloc, count)?;
        let queue = Queue::new(alloc, count)?;
        Ok(NodeHeap { table, queue })
    }

    /// How many nodes there are.
    pub fn len(&self) -> usize
        ensures settled { result ≡ length self.now.settled }
        ensures waiting { result ≡ length self.now.waiting }
    {
        self.table.len()
    }

    /// The key of a node, None where it isn't in the heap.
    pub fn key(&self, node: u32) -> Option<i64>
        requires { node < length self.now.waiting }
        ensures { result ≡ key_at self.now.waiting node }
    {
        self.table.key(node as usize)
    }

    /// The distance and the place of a node, where it is settled.
    pub fn settled(&self, node: usize) -> Option<Settled>
        requires { node < length self.now.settled }
        ensures { result ≡ slice_index_or self.now.settled node None }
    {
        self.table.settled(node)
    }

    /// Whether a node isn't reached, or is settled or waits at a greater distance than this. It takes one look.
    pub fn is_farther(&self, node: u32, label: i64) -> bool
        requires { node < length self.now.waiting }
        ensures { IsTrue result ↔ IsFarther self.now node label }
    {
        self.table.is_farther(node as usize, label)
    }

    /// The last step of a path to a node.
    pub fn step(&self, node: usize) -> Step
        requires { node < length self.now.steps }
        ensures { slice_index_or self.now.steps node None ≡ Some result }
    {
        self.table.step(node)
    }

    /// Puts a node in with this key, or gives it this key, which is less than the one it has. It is reached by this
    /// step.
    #[inline(always)]
    pub fn lower(&mut self, node: u32, key: i64, step: Step)
        requires node { node < length self.old.waiting }
        requires unsettled { slice_index_or self.old.settled node None ≡ None }
        requires lower { IsBelow key (key_at self.old.waiting node) }
        ensures settled { self.new.settled ≡ self.old.settled }
        ensures waiting { self.new.waiting ≡ set self.old.waiting node (Some key) }
        ensures steps { self.new.steps ≡ set self.old.steps node (Some step) }
    {
        self.queue.lower(&self.table, node, key);
        self.table.wait(node, key, step);
    }

    /// Takes out a node with the least key. None where the heap is empty.
    pub fn take(&mut self) -> Option<(u32, i64)>
        ensures taken { MatchOption result (IsEmpty self.old.waiting)
            (λ t. IsLeast self.old.waiting t.0 t.1) }
        ensures left { MatchOption result (self.new.waiting ≡ self.old.waiting)
            (λ t. self.new.waiting ≡ set self.old.waiting t.0 None) }
        ensures node { IfSome result (λ t. t.0 < length self.old.waiting) }
        ensures settled { self.new.settled ≡ self.old.settled }
        ensures steps { self.new.steps ≡ self.old.steps }
    {
        let (node, key) = self.queue.take(&self.table)?;
        self.table.take_key(node);
        Some((node, key))
    }

    /// Settles a node that isn't in the heap.
    pub fn settle(&mut self, node: u32, settled: Settled)
        requires node { node < length self.old.waiting }
        requires taken { key_at self.old.waiting node ≡ None }
        ensures settled { self.new.settled ≡ set self.old.settled node (Some settled) }
        ensures waiting { self.new.waiting ≡ self.old.waiting }
        ensures steps { self.new.steps ≡ self.old.steps }
    {
        self.table.settle(node, settled);
    }

    /// Forgets that a node is settled.
    pub fn unsettle(&mut self, node: u32)
        requires { node < length self.old.waiting }
        ensures settled { self.new.settled ≡ set self.old.settled node None }
        ensures waiting { self.new.waiting ≡ self.old.waiting }
        ensures steps { self.new.steps ≡ self.old.steps }
    {
        self.table.take_place(node);
    }

    /// Takes out all nodes.
    pub fn clear(&mut self)
        ensures waiting { self.new.waiting ≡ replicate (length self.old.waiting) None }
        ensures settled { self.new.settled ≡ self.old.settled }
        ensures steps { self.new.steps ≡ self.old.steps }
    {
        self.queue.clear(&mut self.table);
    }
}
