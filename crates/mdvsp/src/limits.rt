//! The limits of a search: after how many seconds it ends, and at which gap between plan and bound.

ghost use Rattle.std.specs.Prelude.{◌≡◌, ◌↔◌, IsTrue, None, Some};
ghost use Rattle.mdvsp.specs.Limits.{IsCostWithin, IsNear, whole_of};
ghost use Rattle.vs_connect.specs.Cost.{lesser_of};
ghost use Rattle.vs_words.specs.Words.{IsUnlimited};

use vs_connect::lesser;
use vs_crew::{Gate, Stand};
use vs_words::Effort;

/// The gap is told in such parts of the plan's cost.
const PARTS: i128 = 1_000_000;

/// A gate with the limits of an effort. Where it has none, the gate can't end the search.
#[derive(Drop)]
pub struct Limits<'a, G: Gate> {
    gate: &'a G,
    effort: Effort,
    /// How far the whole search had come, where parts of it are searched one after the other.
    before: Option<Stand>,
}

impl<'a, G: Gate> Limits<'a, G> {
    /// The gate of a search with this effort.
    pub fn new(gate: &'a G, effort: Effort) -> Limits<'a, G>
        ensures gate { result.gate.now ≡ gate.now }
        ensures effort { result.effort ≡ effort }
        ensures before { result.before ≡ None }
    {
        Limits {
            gate,
            effort,
            before: None,
        }
    }

    /// The same for a part, where the whole search has come so far.
    pub fn within(&self, before: Stand) -> Limits<'a, G>
        ensures gate { result.gate.now ≡ self.now.gate.now }
        ensures effort { result.effort ≡ self.now.effort }
        ensures before { result.before ≡ Some before }
    {
        Limits {
            gate: self.gate,
            effort: self.effort,
            before: Some(before),
        }
    }

    /// Whether there is a limit.
    pub fn is_given(&self) -> bool
        ensures { IsTrue result ↔ ¬ (IsUnlimited self.now.effort) }
    {
        self.effort.seconds.is_some() || self.effort.gap.is_some()
    }

    /// Whether so many seconds have gone.
    fn is_late(&self) -> bool {
        match self.effort.seconds {
            Some(seconds) => self.gate.seconds() >= u64::from(seconds),
            None => false,
        }
    }

    /// Whether the gap is small enough.
    fn is_near(&self, stand: &Stand) -> bool
        ensures { IsTrue result ↔ IsNear self.now.effort stand.now }
    {
        match self.effort.gap {
            Some(gap) => is_within(gap, stand),
            None => false,
        }
    }
}

impl<G: Gate> Gate for Limits<'_, G> {
    ghost use Rattle.std.specs.Prelude.{◌≡◌, true};
    ghost use Rattle.mdvsp.specs.Limits.{IsNear, stand_with};
    ghost use Rattle.vs_words.specs.Words.{IsUnlimited};

    ghost may_stop = { λ limits. ¬ (IsUnlimited limits.effort) };

    fn before(&self, worker: u32, leaf: u32) {
        self.gate.before(worker, leaf);
    }

    fn seconds(&self) -> u64 {
        self.gate.seconds()
    }

    fn is_over(&self, stand: &Stand) -> bool
        ensures may { result ≡ true → ¬ (IsUnlimited self.now.effort) }
        ensures near { IsNear self.now.effort (stand_with self.now.before stand.now) → result ≡ true }
    {
        let whole = match self.before {
            Some(before) => whole_of(&before, stand),
            None => *stand,
        };
        // It is asked whatever the limits are, so that it can show how far the search has come.
        let is_over = self.gate.is_over(&whole);
        self.is_given() && (is_over || self.is_late() || self.is_near(&whole))
    }
}

/// How far the whole search has come, where it had come so far before, and the search of one of its leaves so far.
fn whole_of(before: &Stand, part: &Stand) -> Stand
    ensures { result ≡ whole_of before.now part.now }
{
    let cost = lesser(before.cost, part.cost);
    Stand {
        finished: before.finished.saturating_add(part.finished),
        open: before.open.saturating_sub(1).saturating_add(part.open),
        cost,
        bound: bound_with(before.bound, cost),
    }
}

/// The lesser of a bound and a cost, where there are both, else the one that there is.
fn bound_with(bound: Option<i128>, cost: Option<i64>) -> Option<i128>
    ensures { result ≡ lesser_of bound cost }
{
    match (bound, cost) {
        (Some(bound), Some(cost)) => Some(bound.min(i128::from(cost))),
        (None, Some(cost)) => Some(i128::from(cost)),
        (bound, None) => bound,
    }
}

/// Whether the cost is no more than so many parts per million of it above the bound.
fn is_within(gap: u32, stand: &Stand) -> bool
    ensures { IsTrue result ↔ IsCostWithin gap stand.now.cost stand.now.bound }
{
    match (stand.cost, stand.bound) {
        (Some(cost), Some(bound)) => {
            let cost = i128::from(cost);
            let above = cost.saturating_sub(bound).saturating_mul(PARTS);
            above <= i128::from(gap).saturating_mul(cost)
        }
        _ => false,
    }
}
