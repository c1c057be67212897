//! A net, made of arcs that are judged one by one, and a flow over it.

ghost use Rattle.std.specs.Prelude.{◌≡◌, ◌<◌, ◌≤◌, IfOk, IfErr, MatchOption, length};
ghost use Rattle.vs_layer.specs.Ends.{heads_in};
ghost use Rattle.vs_layer.specs.Graph.{IsNet, IsRightArc, AllRight, arc_of, heads, leaving, reaching};
ghost use Rattle.vs_layer.specs.Faults.{IsFaultOf, IsFirstFault, IfFirstFault};

use crate::arc::{Arc, End, MAX_ARCS};
use crate::net_error::{NetError, NetFault};
use crate::star::Star;
use std::alloc::Global;
use std::marker::Model;
use vs_types::Memory;

/// A net of nodes and arcs, both counted from 0. Only the last arc goes back, from the last node to node 0;
/// the nodes are numbered so that all others go up. The arcs that leave a node, and those that reach it, are
/// kept as a forward and a reverse star. See Ahuja, Magnanti and Orlin, Network Flows, 1993, section 2.3.
#[derive(Drop)]
pub struct Net {
    nodes: u32,
    arcs: Vec<Arc>,
    /// By arc the node that it reaches, once more. A search scans many arcs for where they lead, and these numbers lie
    /// closer together than the arcs.
    heads: Vec<u32>,
    forward: Star,
    reverse: Star,
}

/// How many units each arc of a net carries, in the order of the arcs.
#[derive(Debug, Drop)]
pub struct Flow {
    pub units: Vec<u32>,
}

impl Model for Net {
    ghost use Rattle.vs_layer.specs.Graph.{Graph};
    ghost use Rattle.vs_layer.specs.Stars.{IsKeptNet};

    ghost Value = { Graph };

    ghost view = { λ n. record { nodes = n.nodes; arcs = n.arcs.items } };

    ghost invariant = { λ n. IsKeptNet (record { nodes = n.nodes; arcs = n.arcs.items })
        n.heads.items n.forward n.reverse };
}

impl Net {
    /// The net of so many nodes and these arcs, or the first arc that is wrong.
    pub fn new(alloc: Global, nodes: u32, arcs: Vec<Arc>) -> Result<Net, NetError>
        requires nodes { 2 ≤ nodes }
        requires some_arc { 0 < length arcs.items }
        requires few_arcs { length arcs.items ≤ MAX_ARCS }
        ensures given { IfOk result (λ net. net ≡ record { nodes = nodes; arcs = arcs.items }) }
        ensures net { IfOk result IsNet }
        ensures fault { IfErr result (IfFirstFault nodes arcs.items) }
    {
        if let Some(fault) = first_fault(nodes, &arcs) {
            return Err(NetError::Fault(fault));
        }
        let heads = heads_of(alloc, &arcs)?;
        let forward = Star::new(alloc, nodes, &arcs, End::From)?;
        let reverse = Star::new(alloc, nodes, &arcs, End::To)?;
        Ok(Net {
            nodes,
            arcs,
            heads,
            forward,
            reverse,
        })
    }

    /// How many nodes there are, at least 2.
    pub fn nodes(&self) -> u32
        ensures count { result ≡ self.now.nodes }
        ensures net { IsNet self.now }
    {
        self.nodes
    }

    /// How many arcs there are, at least 1.
    pub fn arcs(&self) -> u32
        ensures count { result ≡ length self.now.arcs }
        ensures net { IsNet self.now }
    {
        self.arcs.len() as u32
    }

    /// An arc.
    pub fn arc(&self, k: u32) -> Arc
        requires { k < length self.now.arcs }
        ensures { result ≡ arc_of self.now k }
    {
        self.arcs[k as usize]
    }

    /// By arc the node that it reaches.
    pub fn heads(&self) -> &[u32]
        ensures heads { result.now ≡ heads self.now }
        ensures net { IsNet self.now }
    {
        &self.heads
    }

    /// The numbers of the arcs that leave a node, in order.
    pub fn leaving(&self, node: u32) -> &[u32]
        requires { node < self.now.nodes }
        ensures { result.now ≡ leaving self.now node }
    {
        self.forward.group(node)
    }

    /// The numbers of the arcs that reach a node, in order.
    pub fn reaching(&self, node: u32) -> &[u32]
        requires { node < self.now.nodes }
        ensures { result.now ≡ reaching self.now node }
    {
        self.reverse.group(node)
    }
}

/// By arc the node that it reaches.
fn heads_of(alloc: Global, arcs: &[Arc]) -> Result<Vec<u32>, Memory>
    ensures { IfOk result (λ heads. heads.items ≡ heads_in arcs.now) }
{
    Ok(arcs.iter().map(|arc| arc.to).collect(alloc)?)
}

/// The first arc that makes these no net.
fn first_fault(nodes: u32, arcs: &[Arc]) -> Option<NetFault>
    requires { length arcs.now ≤ MAX_ARCS }
    ensures { MatchOption result (AllRight nodes arcs.now) (IsFirstFault nodes arcs.now) }
{
    for (k, arc) in arcs.iter().enumerate() {
        if let Some(fault) = fault_of(nodes, arcs.len(), k, arc) {
            return Some(fault);
        }
    }
    None
}

/// What is wrong with arc k of so many.
fn fault_of(nodes: u32, count: usize, k: usize, arc: &Arc) -> Option<NetFault>
    requires of_net { k < count }
    requires few { count ≤ MAX_ARCS }
    ensures { MatchOption result
        (IsRightArc nodes count k arc.now) (IsFaultOf nodes count k arc.now) }
{
    if arc.from >= nodes || arc.to >= nodes {
        return Some(NetFault::NoSuchNode(k as u32));
    }
    let goes_on = if k + 1 == count {
        arc.from == nodes - 1 && arc.to == 0
    } else {
        arc.from < arc.to
    };
    if goes_on {
        None
    } else {
        Some(NetFault::NotForward(k as u32))
    }
}
