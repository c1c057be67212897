//! How long ways are in one measure, in rows that are quick to compare.

ghost use Rattle.std.specs.Prelude.{◌≡◌, ◌<◌, ◌≤◌, IfOk, IsTrue, All, length};
ghost use Rattle.vs_instance.specs.deadheads.Lengths.{measured, length_by, IsRow, AreRows, IsNowhereLonger, IsClosedFrom, AreClosed, IsClosedIn, AreShort};

use crate::way::Way;
use crate::ways::Ways;
use std::alloc::Global;
use vs_types::{Memory, StopNo};

/// What stands for the length to where no deadhead leads: more than any two ways together, in minutes
/// and in metres.
pub const FAR: u32 = 4_000_000;

/// What of a way is compared.
#[derive(Clone, Copy, Debug, PartialEq, Eq)]
pub enum Measure {
    Minutes,
    Metres,
}

impl Measure {
    /// A way in this measure.
    fn of(self, way: Way) -> u32
        ensures { result ≡ measured self way }
    {
        match self {
            Measure::Minutes => way.minutes,
            Measure::Metres => way.metres,
        }
    }
}

/// How long it is from stop k to stop s by this deadhead: nothing to itself, and `FAR` without one.
fn length_of(measure: Measure, k: StopNo, s: StopNo, way: Option<Way>) -> u32
    ensures { result ≡ length_by measure k.0 s.0 way }
{
    if k == s {
        return 0;
    }
    match way {
        Some(way) => measure.of(way),
        None => FAR,
    }
}

/// How long it is from stop k to each stop.
fn row_of(alloc: Global, ways: &Ways, measure: Measure, k: StopNo) -> Result<Vec<u32>, Memory>
    requires { k.0 < ways.now.stops }
    ensures { IfOk result (λ row. IsRow measure ways.now k.0 row.items) }
{
    let given = ways.row(k);
    let mut row = Vec::with_capacity(alloc, given.len())?;
    for s in 0..ways.stops() {
        row.push(length_of(measure, k, StopNo(s), given[s as usize]))?;
    }
    Ok(row)
}

/// How long it is from each stop to each stop.
fn rows_of(alloc: Global, ways: &Ways, measure: Measure) -> Result<Vec<Vec<u32>>, Memory>
    ensures { IfOk result (λ rows. AreRows measure ways.now rows.items) }
{
    let mut rows = Vec::with_capacity(alloc, ways.stops() as usize)?;
    for k in 0..ways.stops() {
        let row = row_of(alloc, ways, measure, StopNo(k))?;
        rows.push(row)?;
    }
    Ok(rows)
}

/// Whether it is nowhere longer directly than first so far and then onward.
fn is_nowhere_longer(first: u32, onward: &[u32], direct: &[u32]) -> bool
    requires same { length onward.now ≡ length direct.now }
    requires first { first ≤ FAR }
    requires onward { All (λ x. x ≤ FAR) onward.now }
    ensures { IsTrue result → IsNowhereLonger first onward.now direct.now }
{
    // No early return, so that several places are compared at once.
    let mut longer = false;
    for t in 0..direct.len() {
        longer = longer | (direct[t] > first + onward[t]);
    }
    !longer
}

/// Whether it is nowhere longer in this row than by another stop, whose rows these are.
fn is_closed_from(rows: &[Vec<u32>], direct: &[u32]) -> bool
    requires rows { All (λ row. length row.items ≡ length direct.now) rows.now }
    requires each { length rows.now ≡ length direct.now }
    requires few { All (λ row. All (λ x. x ≤ FAR) row.items) rows.now }
    requires first { All (λ x. x ≤ FAR) direct.now }
    ensures { IsTrue result → IsClosedFrom rows.now direct.now }
{
    for (s, onward) in rows.iter().enumerate() {
        if !is_nowhere_longer(direct[s], onward, direct) {
            return false;
        }
    }
    true
}

/// Whether it is nowhere longer directly than by another stop.
fn is_closed(rows: &[Vec<u32>]) -> bool
    requires square { All (λ row. length row.items ≡ length rows.now) rows.now }
    requires few { All (λ row. All (λ x. x ≤ FAR) row.items) rows.now }
    ensures { IsTrue result → AreClosed rows.now }
{
    for direct in rows {
        if !is_closed_from(rows, direct) {
            return false;
        }
    }
    true
}

/// Whether from no stop to no other it is longer directly than by a third.
pub fn is_closed_in(alloc: Global, ways: &Ways, measure: Measure) -> Result<bool, Memory>
    requires { AreShort ways.now }
    ensures { IfOk result (λ closed. IsTrue closed → IsClosedIn measure ways.now) }
{
    let rows = rows_of(alloc, ways, measure)?;
    Ok(is_closed(&rows))
}
