//! What a pass asks for, and in which order it reads the arcs.

ghost use Rattle.std.specs.Prelude.{◌≡◌, ◌<◌};
ghost use Rattle.vs_need.specs.Gains.{far_of, near_of};
ghost use Rattle.vs_need.specs.Reading.{arc_after};

use vs_layer::Arc;
use vs_types::{LayerNo, TripNo};

/// The arcs that a pass asks for: for each node it finds what the best walk is worth that joins the two.
#[derive(Clone, Copy, Debug, PartialEq, Eq)]
pub(crate) enum Aim {
    /// The trips that a walk from the node leads to, each worth its price for entering.
    Next,
    /// The pull-ins that a walk from the node leads to.
    PullIn,
    /// The pull-outs from which a walk leads to the node.
    PullOut,
    /// This trip, from which a walk leads to the node.
    After(TripNo),
}

/// A layer, and what a pass along its net asks for.
#[derive(Clone, Copy, Debug, PartialEq, Eq)]
pub(crate) struct LayerAim {
    pub(crate) l: LayerNo,
    pub(crate) aim: Aim,
}

impl Aim {
    /// The arc that is read after so many others of a net with so many arcs. Walks from a node are found from the last
    /// arc on, since their next arcs come later; walks to a node from the first.
    pub(crate) fn arc_after(self, arcs: u32, read: u32) -> u32
        requires { read < arcs }
        ensures number { result ≡ arc_after self arcs read }
        ensures of_net { result < arcs }
    {
        match self {
            Aim::Next | Aim::PullIn => arcs - (read + 1),
            Aim::PullOut | Aim::After(_) => read,
        }
    }

    /// The node to which the walks so far lead on along an arc.
    pub(crate) fn near(self, arc: &Arc) -> u32
        ensures { result ≡ near_of self arc.now }
    {
        match self {
            Aim::Next | Aim::PullIn => arc.from,
            Aim::PullOut | Aim::After(_) => arc.to,
        }
    }

    /// The node at which those walks are.
    pub(crate) fn far(self, arc: &Arc) -> u32
        ensures { result ≡ far_of self arc.now }
    {
        match self {
            Aim::Next | Aim::PullIn => arc.to,
            Aim::PullOut | Aim::After(_) => arc.from,
        }
    }
}
