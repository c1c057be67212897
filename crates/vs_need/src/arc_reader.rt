//! The nets of some layers, of which one arc after another is read and counted.

ghost use Rattle.std.specs.Prelude.{◌≡◌, ℕ, ◌-◌, ◌^◌, ◌<◌, List, length, min};
ghost use Rattle.vs_layer.specs.Graph.{arc_of};
ghost use Rattle.vs_match.specs.LayerGraph.{LayerGraph, arcs_in, kind_of};
ghost use Rattle.vs_match.specs.TripIndex.{IsTripAt};
ghost use Rattle.vs_match.specs.LayerNets.{net_at};
ghost use Rattle.vs_need.specs.Nets.{one_more};

use vs_layer::Arc;
use vs_match::{ArcKind, LayerNet};
use vs_types::{LayerNo, TripNo};

/// The nets of some layers, whose arcs are read one by one.
///
/// `nets` is what they are, one for each layer, and no call changes them. `reads` is a count of the calls of `arc`, a
/// u64 that stays at its greatest value once it is there.
pub trait ArcReader {
    ghost nets: { Self → List LayerGraph };

    ghost reads: { Self → ℕ };

    /// How many layers there are, as far as a u32 can count them.
    fn layers(&self) -> u32
        ensures { result ≡ min (length (nets self.now)) (2 ^ 32 - 1) };

    /// How many nodes the net of a layer has.
    fn nodes(&self, l: LayerNo) -> u32
        requires { l.0 < length (nets self.now) }
        ensures { result ≡ (net_at (nets self.now) l.0).graph.nodes };

    /// How many arcs it has.
    fn arcs(&self, l: LayerNo) -> u32
        requires { l.0 < length (nets self.now) }
        ensures { result ≡ arcs_in (net_at (nets self.now) l.0) };

    /// The arc of a trip in it. None exactly where no arc is its.
    fn trip_arc(&self, l: LayerNo, i: TripNo) -> Option<u32>
        requires { l.0 < length (nets self.now) }
        ensures { IsTripAt (net_at (nets self.now) l.0).kinds i.0 result };

    /// An arc of it, and what it stands for.
    fn arc(&mut self, l: LayerNo, k: u32) -> (Arc, ArcKind)
        requires layer { l.0 < length (nets self.old) }
        requires arc { k < arcs_in (net_at (nets self.old) l.0) }
        ensures arc { result.0 ≡ arc_of (net_at (nets self.old) l.0).graph k }
        ensures kind { result.1 ≡ kind_of (net_at (nets self.old) l.0) k }
        ensures nets { nets self.new ≡ nets self.old }
        ensures reads { reads self.new ≡ one_more (reads self.old) };
}

/// Nets in memory, with a count of the arcs that were read.
#[derive(Drop)]
pub struct Counted<'a> {
    pub nets: &'a [LayerNet],
    pub reads: u64,
}

impl<'a> Counted<'a> {
    /// These nets, of which no arc was read.
    pub fn new(nets: &'a [LayerNet]) -> Counted<'a>
        ensures nets { result.nets.now ≡ nets.entry.now }
        ensures reads { result.reads ≡ 0 }
    {
        Counted { nets, reads: 0 }
    }

    /// How many arcs were read.
    pub fn reads(&self) -> u64
        ensures { result ≡ self.now.reads }
    {
        self.reads
    }
}

impl<'a> ArcReader for Counted<'a> {
    ghost nets = { λ c. c.nets.now };

    ghost reads = { λ c. c.reads };

    fn layers(&self) -> u32 {
        self.nets.len().min(u32::MAX as usize) as u32
    }

    fn nodes(&self, l: LayerNo) -> u32 {
        self.nets[l.0 as usize].net().nodes()
    }

    fn arcs(&self, l: LayerNo) -> u32 {
        self.nets[l.0 as usize].net().arcs()
    }

    fn trip_arc(&self, l: LayerNo, i: TripNo) -> Option<u32> {
        self.nets[l.0 as usize].trip_arc(i)
    }

    fn arc(&mut self, l: LayerNo, k: u32) -> (Arc, ArcKind) {
        self.reads = self.reads.saturating_add(1);
        let net = &self.nets[l.0 as usize];
        (net.net().arc(k), net.kind(k))
    }
}
