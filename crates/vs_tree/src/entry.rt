//! The free leaves in the order in which they are taken.

ghost use Rattle.std.specs.Prelude.{◌↔◌, IsTrue, Some};
ghost use Rattle.vs_tree.specs.Free.{IsFirstOf, IsNotAfter};

use vs_prices::Bound;

/// A free leaf, with what its table is worth there.
#[derive(Clone, Copy)]
pub struct Entry {
    pub worth: Bound,
    pub leaf: u32,
}

impl Entry {
    /// Whether it is taken no later than another: by the lesser worth, and of the same worth by the number.
    pub fn is_not_after(self, other: Entry) -> bool
        ensures { IsTrue result ↔ IsNotAfter (Some self) (Some other) }
    {
        if !other.worth.is_no_less(self.worth) {
            return false;
        }
        !self.worth.is_no_less(other.worth) || self.leaf <= other.leaf
    }
}

/// Of two leaves the one that is taken first, None only where there is none.
pub fn first_of(left: Option<Entry>, right: Option<Entry>) -> Option<Entry>
    ensures { IsFirstOf result left right }
{
    match (left, right) {
        (Some(a), Some(b)) => { if a.is_not_after(b) { left } else { right } }
        (Some(_), None) => left,
        (None, _) => right,
    }
}
