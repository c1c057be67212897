//! Which leaf comes next, and the bound that all leaves leave.

ghost use Rattle.std.specs.Prelude.{◌≡◌, ◌⊎◌, ◌-◌, ◌<◌, ◌^◌, length, min, All, IfSome, IfNone};
ghost use Rattle.vs_prices.specs.Bounds.{IsBelow, IsNoLess};
ghost use Rattle.vs_tree.specs.Report.{bound_of};
ghost use Rattle.vs_resume.specs.Order.{IsFirstLeast, IsLeastWith, below_in, worths_in};
ghost use Rattle.vs_resume.specs.Turns.{IsNextIn};

use crate::cases::Case;
use vs_prices::Bound;

/// The first leaf of least worth, where that is below the cost.
pub(crate) fn next_case(cases: &[Case], cost: Option<i64>) -> Option<usize>
    ensures next { IfSome result (IsNextIn cost (worths_in cases.now)) }
    ensures none { IfNone result (All (λ found. ¬ (IsBelow found.worth cost)) cases.now) }
{
    if cases.is_empty() {
        return None;
    }
    let k = first_least(cases);
    if cases[k].worth.is_below(cost) {
        Some(k)
    } else {
        None
    }
}

/// The first leaf of least worth.
fn first_least(cases: &[Case]) -> usize
    requires { 0 < length cases.now }
    ensures { IsFirstLeast (worths_in cases.now) (length cases.now) result }
{
    let mut best = 0;
    for k in 1..cases.len() {
        if !cases[k].worth.is_no_less(cases[best].worth) {
            best = k;
        }
    }
    best
}

/// How many leaves are worth less than the cost, or, where there is none, worth a number at all. Where they are more
/// than `u32::MAX`, it is that.
pub(crate) fn count_below(cases: &[Case], cost: Option<i64>) -> u32
    ensures { result ≡ min (below_in cost cases.now) (2 ^ 32 - 1) }
{
    let mut count: u32 = 0;
    for case in cases {
        if case.worth.is_below(cost) {
            count = count.saturating_add(1);
        }
    }
    count
}

/// The lesser of the least worth and the cost, None where neither is a number.
pub(crate) fn bound_with(cases: &[Case], cost: Option<i64>) -> Option<i128>
    ensures { IsLeastWith cost (worths_in cases.now) (bound_of result) }
{
    let mut least = bound_at(cost);
    for case in cases {
        least = lesser(least, case.worth);
    }
    number_in(least)
}

/// A cost as a bound.
fn bound_at(cost: Option<i64>) -> Bound
    ensures { result ≡ bound_of cost }
{
    match cost {
        Some(cost) => Bound::AtLeast(i128::from(cost)),
        None => Bound::NoPlan,
    }
}

/// The number of a bound, None where there is none.
fn number_in(bound: Bound) -> Option<i128>
    ensures { bound_of result ≡ bound }
{
    match bound {
        Bound::AtLeast(number) => Some(number),
        Bound::NoPlan => None,
    }
}

/// The lesser of two bounds.
fn lesser(one: Bound, other: Bound) -> Bound
    ensures choice { (result ≡ one) ⊎ (result ≡ other) }
    ensures one { IsNoLess one result }
    ensures other { IsNoLess other result }
{
    if other.is_no_less(one) { one } else { other }
}
