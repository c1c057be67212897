//! Sets of layers: what has, adds, takes away, counts and goes over their members.

ghost use Rattle.std.specs.Prelude.{◌≡◌, ℕ, ◌<◌, ◌≢◌, ◌↔◌, ◌⊎◌, length, IsTrue, MatchOption, IfSome, []};
ghost use Rattle.vs_types.specs.LayerSet.{Has, members};
ghost use Rattle.vs_types.specs.Parts.{IsProperPart, is_proper_part, rest_of};
ghost use Rattle.vs_types.specs.declared.numbers.TheConstants.{MAX_LAYERS};

use crate::numbers::{LayerNo, MAX_LAYERS};

/// A set of layers. Bit l stands for layer l, so a layer that is named has a number below `MAX_LAYERS`.
#[derive(Clone, Copy, Debug, PartialEq, Eq, PartialOrd, Ord, Hash)]
pub struct LayerSet(pub u16);

impl LayerSet {
    /// The set of this layer alone.
    pub fn only(l: LayerNo) -> LayerSet
        requires { l.0 < MAX_LAYERS }
        ensures { (k : ℕ) → Has result k ↔ (k ≡ l.0) }
    {
        LayerSet(1 << l.0)
    }

    /// Whether the layer stands in the set.
    pub fn has(self, l: LayerNo) -> bool
        requires { l.0 < MAX_LAYERS }
        ensures { IsTrue result ↔ Has self l.0 }
    {
        self.0 & (1 << l.0) != 0
    }

    /// The set and this layer.
    pub fn with(self, l: LayerNo) -> LayerSet
        requires { l.0 < MAX_LAYERS }
        ensures { (k : ℕ) → Has result k ↔ (Has self k ⊎ (k ≡ l.0)) }
    {
        LayerSet(self.0 | (1 << l.0))
    }

    /// The set less this layer.
    pub fn without(self, l: LayerNo) -> LayerSet
        requires { l.0 < MAX_LAYERS }
        ensures { (k : ℕ) → Has result k ↔ (Has self k × (k ≢ l.0)) }
    {
        LayerSet(self.0 & !(1 << l.0))
    }

    /// How many layers stand in the set.
    pub fn count(self) -> u32
        ensures { result ≡ length (members self) }
    {
        self.0.count_ones()
    }

    /// The layer of the least number. None exactly where the set is empty.
    pub fn lowest(self) -> Option<LayerNo>
        ensures least { MatchOption result (members self ≡ [])
            (λ l. Has self l.0 × ((k : ℕ) → Has self k → k ≡ l.0 ⊎ l.0 < k)) }
        ensures named { IfSome result (λ l. l.0 < MAX_LAYERS) }
    {
        if self.0 == 0 {
            None
        } else {
            Some(LayerNo(self.0.trailing_zeros()))
        }
    }

    /// What another set leaves of this one.
    pub fn minus(self, other: LayerSet) -> LayerSet
        ensures value { result ≡ rest_of self other }
        ensures layers { (l : ℕ) → l < MAX_LAYERS → Has result l ↔ (Has self l × ¬ (Has other l)) }
    {
        LayerSet(self.0 & !other.0)
    }

    /// Whether the set has some of another's layers, and not all of them.
    pub fn is_proper_part(self, whole: LayerSet) -> bool
        ensures value { result ≡ is_proper_part self whole }
        ensures part { IsTrue result ↔ IsProperPart self whole }
    {
        self.count() > 0 && self.minus(whole).count() == 0 && whole.minus(self).count() > 0
    }
}
