//! Arcs that carry units, in lists by the node that they reach.

ghost use Rattle.std.specs.Prelude.{◌≡◌, ℕ, ◌<◌, ◌⊎◌, [], length, IfOk, IfSome, IsTrue, true};
ghost use Rattle.vs_layer.specs.Graph.{IsNet};
ghost use Rattle.vs_path.specs.Loads.{AreByNode, AreLoads, IsIn, IsListed, listed_at, lists_in};

use std::alloc::Global;
use vs_layer::Net;
use vs_types::Memory;

/// Arcs that carry units, in lists by the node that they reach. A step back goes along such an arc alone, and few arcs
/// carry any.
#[derive(Drop)]
pub struct Loads {
    /// By node, arcs that reach it.
    pub(crate) lists: Vec<Vec<u32>>,
    /// Whether all arcs that carry units are listed, since there was memory for them.
    pub(crate) complete: bool,
}

impl Loads {
    /// No arcs, in a net of so many nodes.
    pub fn new(alloc: Global, nodes: u32) -> Result<Loads, Memory>
        ensures { IfOk result (λ loads. length (lists_in loads) ≡ nodes) }
    {
        let mut lists = Vec::with_capacity(alloc, nodes as usize)?;
        for _ in 0..nodes {
            lists.push(Vec::new(alloc))?;
        }
        Ok(Loads {
            lists,
            complete: false,
        })
    }

    /// How many nodes the nets have whose arcs it lists.
    pub fn nodes(&self) -> usize
        ensures { result ≡ length (lists_in self.now) }
    {
        self.lists.len()
    }

    /// Lists the arcs that carry units.
    pub fn read(&mut self, net: &Net, units: &[u32])
        requires nodes { length (lists_in self.old) ≡ net.now.nodes }
        requires units { length units.now ≡ length net.now.arcs }
        ensures { AreLoads net.now units.now self.new }
    {
        self.clear();
        for k in 0..net.arcs() {
            if 0 < units[k as usize] {
                self.add(net, k);
            }
        }
    }

    /// Takes the arcs out of all lists.
    fn clear(&mut self)
        ensures nodes { length (lists_in self.new) ≡ length (lists_in self.old) }
        ensures empty { (v : ℕ) → listed_at (lists_in self.new) v ≡ [] }
        ensures complete { self.new.complete ≡ true }
    {
        for list in self.lists.iter_mut() {
            list.clear();
        }
        self.complete = true;
    }

    /// Lists an arc where it isn't listed yet.
    pub fn add(&mut self, net: &Net, arc: u32)
        requires net { IsNet net.now }
        requires arc { arc < length net.now.arcs }
        requires by_node { AreByNode net.now (lists_in self.old) }
        ensures by_node { AreByNode net.now (lists_in self.new) }
        ensures kept { (k : ℕ) → IsListed net.now (lists_in self.old) k
            → IsListed net.now (lists_in self.new) k }
        ensures complete { self.new.complete ≡ true → self.old.complete ≡ true }
        ensures listed { self.new.complete ≡ true → IsListed net.now (lists_in self.new) arc }
    {
        let node = net.arc(arc).to;
        let done = put(&mut self.lists[node as usize], arc);
        self.complete = self.complete && done;
    }

    /// The arcs that are listed at a node, where all that carry units are listed.
    pub(crate) fn reaching(&self, node: u32) -> Option<&[u32]>
        requires { node < length (lists_in self.now) }
        ensures { IfSome result (λ arcs. (self.now.complete ≡ true)
            × (arcs.now ≡ listed_at (lists_in self.now) node)) }
    {
        if self.complete {
            Some(&self.lists[node as usize])
        } else {
            None
        }
    }
}

/// Puts an arc into a list where it isn't in it. False where there is no memory for it.
fn put(list: &mut Vec<u32>, arc: u32) -> bool
    ensures put { IsTrue result → IsIn list.new.items arc }
    ensures kept { (k : ℕ) → IsIn list.old.items k → IsIn list.new.items k }
    ensures only { (k : ℕ) → IsIn list.new.items k → (k ≡ arc) ⊎ IsIn list.old.items k }
{
    list.contains(&arc) || list.push(arc).is_ok()
}
