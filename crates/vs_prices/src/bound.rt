//! What a table shows of every plan: that none costs less than a number, or that there is none.

ghost use Rattle.std.specs.Prelude.{◌↔◌, IsTrue};
ghost use Rattle.vs_prices.specs.Bounds.{IsBelow, IsNoLess};

/// What a table shows of every plan within a restriction.
#[derive(Clone, Copy, Debug, PartialEq, Eq)]
pub enum Bound {
    /// Each plan costs at least so many cost units.
    AtLeast(i128),
    /// There is no plan.
    NoPlan,
}

impl Bound {
    /// Whether it leaves room for a plan that costs less than this, or for any plan where no cost is given.
    pub fn is_below(self, cost: Option<i64>) -> bool
        ensures { IsTrue result ↔ IsBelow self cost }
    {
        match (self, cost) {
            (Bound::NoPlan, _) => false,
            (Bound::AtLeast(_), None) => true,
            (Bound::AtLeast(least), Some(cost)) => least < i128::from(cost),
        }
    }

    /// Whether it is no less than another, where no number says that there is no plan.
    pub fn is_no_less(self, other: Bound) -> bool
        ensures { IsTrue result ↔ IsNoLess self other }
    {
        match (self, other) {
            (Bound::NoPlan, _) => true,
            (Bound::AtLeast(_), Bound::NoPlan) => false,
            (Bound::AtLeast(least), Bound::AtLeast(other)) => other <= least,
        }
    }
}
