//! An arc of a net, its two ends, and how many arcs a net can have.

ghost use Rattle.std.specs.Prelude.{◌≡◌};
ghost use Rattle.vs_layer.specs.Ends.{end_of};

/// How many arcs a net has at most, so that their numbers fit.
pub const MAX_ARCS: usize = 4_294_967_295;

/// A way from one node of a net to another, which so many units may take.
#[derive(Clone, Copy, Debug, PartialEq, Eq)]
pub struct Arc {
    /// The node that is left.
    pub from: u32,
    /// The node that is reached.
    pub to: u32,
    /// What one unit costs, in 1/1000 of a cost unit.
    pub cost: i64,
    /// How many units it takes at most.
    pub room: u32,
}

/// One of the two ends of an arc.
#[derive(Clone, Copy, Debug, PartialEq, Eq)]
pub enum End {
    From,
    To,
}

impl Arc {
    /// The node at an end.
    pub fn end(&self, end: End) -> u32
        ensures { result ≡ end_of end self.now }
    {
        match end {
            End::From => self.from,
            End::To => self.to,
        }
    }
}
