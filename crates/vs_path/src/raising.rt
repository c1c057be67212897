//! Prices raised by the distances from a node.

ghost use Rattle.std.specs.Prelude.{◌≡◌, length};
ghost use Rattle.vs_path.specs.Labels.{lists_of};
ghost use Rattle.vs_path.specs.Raising.{AreRaised, CanRaise, IsGreater, IsGreatest, rise_of};

use crate::labels::Labels;
use vs_queue::Settled;

impl Labels {
    /// The greatest distance at which a node is settled, or `least` where that is more.
    pub fn greatest_distance(&self, least: i64) -> i64
        ensures { IsGreatest (lists_of self.now) least result }
    {
        let mut greatest = least;
        for v in 0..self.nodes.len() {
            greatest = greater(greatest, self.nodes.settled(v));
        }
        greatest
    }

    /// Raises the price of each settled node by its distance, and that of each other node by `rise`.
    pub fn raise_prices(&self, rise: i64, prices: &mut [i64])
        requires settled { length self.now.nodes.settled ≡ length prices.old }
        requires space { CanRaise (lists_of self.now) rise prices.old }
        ensures { AreRaised (lists_of self.now) rise prices.old prices.new }
    {
        for (v, price) in prices.iter_mut().enumerate() {
            *price += rise_of(self.nodes.settled(v), rise);
        }
    }
}

/// The greater of a distance and that of a node, where it is settled.
fn greater(distance: i64, settled: Option<Settled>) -> i64
    ensures { IsGreater distance settled result }
{
    match settled {
        None => distance,
        Some(settled) => distance.max(settled.distance),
    }
}

/// By how much the price of a node rises: by its distance where it is settled.
fn rise_of(settled: Option<Settled>, rise: i64) -> i64
    ensures { result ≡ rise_of settled rise }
{
    match settled {
        None => rise,
        Some(settled) => settled.distance,
    }
}
