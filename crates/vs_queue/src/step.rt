//! A step along an arc, forward with a unit more or back with a unit less.

/// A unit more on an arc, or one less. The arc is named by its number.
#[derive(Clone, Copy, Debug, PartialEq, Eq)]
pub enum Step {
    /// A unit more: from the node that the arc leaves to the one that it reaches.
    Forward(u32),
    /// A unit less: from the node that the arc reaches to the one that it leaves.
    Back(u32),
}
