//! Nodes in the order of their keys, which are kept elsewhere: a stack of the nearest, and a heap.

ghost use Rattle.std.specs.Prelude.{◌≡◌, ℕ, ◌+◌, ◌^◌, ◌<◌, ◌≤ℤ◌, ◌++◌, ◌∷◌, [], All, length, set, replicate, IfOk, IsTrue, ◌↔◌, MatchBool, MatchOption, Some, None, true, false};
ghost use Rattle.vs_queue.specs.Keys.{IsBelow, IsEmpty, IsLeast, key_at};
ghost use Rattle.vs_queue.specs.Queues.{AreForgotten, AreEntriesForgotten, IsLeastUpTo, IsLesser, IsOn, IsPut, IsQueue, IsTaken};

use crate::node_table::NodeTable;
use std::alloc::Global;
use std::cmp::Reverse;
use std::collections::BinaryHeap;
use vs_types::Memory;

/// A key that a node had when it was put into the heap. Of two the one of the lesser key is the greater, so that a heap
/// gives it first.
#[derive(Clone, Copy, Debug, PartialEq, Eq, PartialOrd, Ord)]
pub struct Entry {
    pub key: Reverse<i64>,
    pub node: u32,
}

/// Nodes in the order of their keys, which are kept by node elsewhere. In a search most nodes get the very key that was
/// taken last, so these stand apart, where they needn't be compared. The others stand in a heap (Williams 1964), with
/// what they had as keys before: an entry counts where the node still has that key.
#[derive(Drop)]
pub struct Queue {
    /// A stack of nodes whose key is the floor.
    near: Vec<u32>,
    /// No node has a lesser key.
    floor: i64,
    far: BinaryHeap<Entry>,
    /// Whether each node that isn't on the stack is in the heap, since there was memory for all.
    complete: bool,
}

impl Queue {
    /// An empty queue for so many nodes.
    pub fn new(alloc: Global, count: u32) -> Result<Queue, Memory>
        requires { 0 < count }
        ensures { IfOk result (IsQueue (replicate count None)) }
    {
        Ok(Queue {
            near: Vec::with_capacity(alloc, count as usize)?,
            floor: 0,
            far: BinaryHeap::with_capacity(alloc, count as usize)?,
            complete: true,
        })
    }

    /// Puts in a node, or moves it, before it is given this key, which is less than the one that it may have.
    #[inline(always)]
    pub fn lower(&mut self, table: &NodeTable, node: u32, key: i64)
        requires queue { IsQueue table.now.waiting self.old }
        requires node { node < length table.now.waiting }
        requires lower { IsBelow key (key_at table.now.waiting node) }
        ensures { IsQueue (set table.now.waiting node (Some key)) self.new }
    {
        self.lower_floor(table, key);
        if !self.stack(node, key) {
            self.put(node, key);
        }
    }

    /// Puts a node onto the stack where its key is the floor. Whether it is there.
    fn stack(&mut self, node: u32, key: i64) -> bool
        ensures stacked { MatchBool result
            ((key ≡ self.old.floor) × (self.new.near.items ≡ self.old.near.items ++ node ∷ []))
            (self.new.near.items ≡ self.old.near.items) }
        ensures floor { self.new.floor ≡ self.old.floor }
        ensures far { self.new.far ≡ self.old.far }
        ensures complete { self.new.complete ≡ self.old.complete }
    {
        key == self.floor && self.near.push(node).is_ok()
    }

    /// Puts a node into the heap with this key.
    #[inline(never)]
    fn put(&mut self, node: u32, key: i64)
        ensures put { IsPut self.old self.new node key }
    {
        let entry = Entry {
            key: Reverse(key),
            node,
        };
        let done = self.far.push(entry).is_ok();
        self.complete = self.complete && done;
    }

    /// Takes out a node with the least key, before it is without a key. None where the queue is empty.
    pub fn take(&mut self, table: &NodeTable) -> Option<(u32, i64)>
        requires { IsQueue table.now.waiting self.old }
        ensures taken { MatchOption result (IsEmpty table.now.waiting)
            (λ t. IsTaken table.now.waiting t.0 t.1 self.new) }
        ensures else_same { MatchOption result (IsQueue table.now.waiting self.new)
            (λ t. t.0 < length table.now.waiting) }
    {
        match self.near.pop() {
            Some(node) => Some((node, self.floor)),
            None => self.take_far(table),
        }
    }

    /// Takes out a node with the least key where none is on the stack.
    fn take_far(&mut self, table: &NodeTable) -> Option<(u32, i64)>
        requires queue { IsQueue table.now.waiting self.old }
        requires none_near { self.old.near.items ≡ [] }
        ensures taken { MatchOption result (IsEmpty table.now.waiting)
            (λ t. IsTaken table.now.waiting t.0 t.1 self.new) }
        ensures else_same { MatchOption result (IsQueue table.now.waiting self.new)
            (λ t. t.0 < length table.now.waiting) }
    {
        if self.complete {
            self.pop(table)
        } else {
            self.find(table)
        }
    }

    /// Takes entries out of the heap up to the first that counts.
    fn pop(&mut self, table: &NodeTable) -> Option<(u32, i64)>
        requires queue { IsQueue table.now.waiting self.old }
        requires none_near { self.old.near.items ≡ [] }
        requires complete { self.old.complete ≡ true }
        ensures taken { MatchOption result (IsEmpty table.now.waiting)
            (λ t. IsTaken table.now.waiting t.0 t.1 self.new) }
        ensures else_same { MatchOption result (IsQueue table.now.waiting self.new)
            (λ t. t.0 < length table.now.waiting) }
    {
        while let Some(entry) = self.far.pop() {
            if counts(table, entry) {
                self.floor = entry.key.0;
                return Some((entry.node, entry.key.0));
            }
        }
        None
    }

    /// Takes out a node with the least key where the heap has been short of memory.
    #[cold]
    #[inline(never)]
    fn find(&mut self, table: &NodeTable) -> Option<(u32, i64)>
        requires queue { IsQueue table.now.waiting self.old }
        requires none_near { self.old.near.items ≡ [] }
        requires incomplete { self.old.complete ≡ false }
        ensures taken { MatchOption result (IsEmpty table.now.waiting)
            (λ t. IsTaken table.now.waiting t.0 t.1 self.new) }
        ensures else_same { MatchOption result (IsQueue table.now.waiting self.new)
            (λ t. t.0 < length table.now.waiting) }
    {
        let (node, key) = least(table)?;
        self.floor = key;
        Some((node, key))
    }

    /// Lowers the floor to a key that is less.
    fn lower_floor(&mut self, table: &NodeTable, key: i64)
        requires { IsQueue table.now.waiting self.old }
        ensures queue { IsQueue table.now.waiting self.new }
        ensures floor { self.new.floor ≤ℤ key }
    {
        if key < self.floor {
            self.unstack(table);
            self.floor = key;
        }
    }

    /// Moves the nodes on the stack into the heap. A search never lowers the floor.
    #[cold]
    #[inline(never)]
    fn unstack(&mut self, table: &NodeTable)
        requires { IsQueue table.now.waiting self.old }
        ensures queue { IsQueue table.now.waiting self.new }
        ensures none_near { self.new.near.items ≡ [] }
        ensures floor { self.new.floor ≡ self.old.floor }
    {
        while let Some(node) = self.near.pop() {
            self.put(node, self.floor);
        }
    }

    /// Takes out all nodes, and their keys, at a cost of a few steps for each.
    pub fn clear(&mut self, table: &mut NodeTable)
        requires { IsQueue table.old.waiting self.old }
        ensures queue { IsQueue table.new.waiting self.new }
        ensures none { table.new.waiting ≡ replicate (length table.old.waiting) None }
        ensures settled { table.new.settled ≡ table.old.settled }
        ensures steps { table.new.steps ≡ table.old.steps }
    {
        self.forget(table);
        self.near.clear();
        self.far.clear();
        self.floor = 0;
        self.complete = true;
    }

    /// Takes the keys of all nodes.
    fn forget(&self, table: &mut NodeTable)
        requires { IsQueue table.old.waiting self.now }
        ensures none { (v : ℕ) → key_at table.new.waiting v ≡ None }
        ensures size { length table.new.waiting ≡ length table.old.waiting }
        ensures settled { table.new.settled ≡ table.old.settled }
        ensures steps { table.new.steps ≡ table.old.steps }
    {
        if self.complete {
            forget_nodes(table, &self.near);
            forget_entries(table, self.far.as_slice());
        } else {
            forget_all(table);
        }
    }
}

/// Whether the node of an entry still has its key.
fn counts(table: &NodeTable, entry: Entry) -> bool
    requires { entry.node < length table.now.waiting }
    ensures { IsTrue result ↔ key_at table.now.waiting entry.node ≡ Some entry.key.0 }
{
    table.has_key(entry.node, entry.key.0)
}

/// A node with the least key. None where no node has one.
fn least(table: &NodeTable) -> Option<(u32, i64)>
    requires { length table.now.waiting < 2 ^ 32 }
    ensures { IsLeastUpTo table.now.waiting (length table.now.waiting) result }
{
    let mut least = None;
    for v in 0..table.len() {
        least = lesser(least, v as u32, table.key(v));
    }
    least
}

/// The one of the lesser key, of a node that may be there and of another that may have a key.
fn lesser(least: Option<(u32, i64)>, node: u32, key: Option<i64>) -> Option<(u32, i64)>
    ensures { IsLesser least node key result }
{
    match (least, key) {
        (_, None) => least,
        (None, Some(key)) => Some((node, key)),
        (Some(known), Some(key)) => {
            if key < known.1 {
                Some((node, key))
            } else {
                least
            }
        }
    }
}

/// Takes the keys of all nodes, one by one.
#[cold]
#[inline(never)]
fn forget_all(table: &mut NodeTable)
    requires { length table.old.waiting < 2 ^ 32 }
    ensures none { (v : ℕ) → key_at table.new.waiting v ≡ None }
    ensures size { length table.new.waiting ≡ length table.old.waiting }
    ensures settled { table.new.settled ≡ table.old.settled }
    ensures steps { table.new.steps ≡ table.old.steps }
{
    for v in 0..table.len() {
        table.take_key(v as u32);
    }
}

/// Takes the keys of these nodes.
fn forget_nodes(table: &mut NodeTable, nodes: &[u32])
    requires { (v : ℕ) → IsOn nodes.now v → v < length table.old.waiting }
    ensures forgotten { AreForgotten nodes.now table.old.waiting table.new.waiting }
    ensures size { length table.new.waiting ≡ length table.old.waiting }
    ensures settled { table.new.settled ≡ table.old.settled }
    ensures steps { table.new.steps ≡ table.old.steps }
{
    for node in nodes {
        table.take_key(*node);
    }
}

/// Takes the keys of the nodes of these entries.
fn forget_entries(table: &mut NodeTable, entries: &[Entry])
    requires { All (λ entry. entry.node < length table.old.waiting) entries.now }
    ensures forgotten { AreEntriesForgotten entries.now table.old.waiting table.new.waiting }
    ensures size { length table.new.waiting ≡ length table.old.waiting }
    ensures settled { table.new.settled ≡ table.old.settled }
    ensures steps { table.new.steps ≡ table.old.steps }
{
    for entry in entries {
        table.take_key(entry.node);
    }
}
