//! The forms of a trace's own rows, one by one.

ghost use Rattle.std.specs.Prelude.{◌≡◌, ℕ, ◌+◌, ◌<◌, ◌≤◌, ◌↔◌, ℤ, Option, List, length, drop, IsTrue, IfSome, IfNone, decimal, pos};
ghost use Rattle.std.specs.Fmt.{signed_decimal};
ghost use Rattle.vs_types.specs.declared.layer_set.LayerSet.{LayerSet as SetOf};
ghost use Rattle.vs_types.specs.declared.numbers.TripNo.{TripNo as TripOf};
ghost use Rattle.vs_reader.specs.Rows.{row_of};
ghost use Rattle.vs_rows.specs.DocumentRows.{IsBetween};
ghost use Rattle.vs_rows.specs.RowForms.{IsInput, NameSet};
ghost use Rattle.vs_rows.specs.declared.limits.TheConstants.{MAX_COST};
ghost use Rattle.vs_trace.specs.Forms.{AreInFields, IsSpotRow, NeverTellsTrace, TellsTrace};
ghost use Rattle.vs_trace.specs.TraceRows.{FirstRow, OfferedRow, OpeningRow, SaysTrace, SplitRow, head_row};

use crate::limits::MAX_SPOTS;
use vs_instance::{MAX_BUDGET, MAX_WORKERS};
use vs_reader::{Input, Rows};
use vs_rows::forms::{amount, layers};
use vs_rows::{MAX_COST, between, is_of_kind, is_text, trip_named};
use vs_types::{LayerSet, TripNo};

/// Whether a row is `result`, `1`, `trace`.
pub(crate) fn is_head(rows: &Rows, row: usize) -> bool
    requires { row < length rows.now }
    ensures { IsTrue result ↔ (row_of rows.now row ≡ head_row) }
{
    is_of_kind(rows, row, "result", 3)
        && is_text(rows.field(row, 1), "1")
        && is_text(rows.field(row, 2), "trace")
}

/// The number from `low` to `high` that a field writes.
fn number(field: &[u8], low: u32, high: u32) -> Option<u32>
    ensures found { IfSome result (λ n. (field.now ≡ decimal n) × (low ≤ n) × (n ≤ high)) }
    ensures none { IfNone result ((n : ℕ) → low ≤ n → n ≤ high → ¬ (field.now ≡ decimal n)) }
{
    let number = between(field, i128::from(low), i128::from(high))?;
    Some(number as u32)
}

/// How many leaves may be worked on, and how many workers there are, in a row `opening` and these numbers.
pub(crate) fn opening(rows: &Rows, row: usize) -> Option<(u32, u32)>
    requires { row < length rows.now }
    ensures found { IfSome result (λ r. TellsTrace rows.now row (OpeningRow r.0 r.1)) }
    ensures none { IfNone result ((budget workers : ℕ)
        → NeverTellsTrace rows.now row (OpeningRow budget workers)) }
{
    if !is_of_kind(rows, row, "opening", 3) {
        return None;
    }
    let budget = number(rows.field(row, 1), 0, MAX_BUDGET)?;
    let workers = number(rows.field(row, 2), 1, MAX_WORKERS)?;
    Some((budget, workers))
}

/// The cost of a row `first` and a number or `none`.
pub(crate) fn first(rows: &Rows, row: usize) -> Option<Option<i64>>
    requires { row < length rows.now }
    ensures found { IfSome result (λ cost. TellsTrace rows.now row (FirstRow cost)) }
    ensures none { IfNone result ((cost : Option ℤ) → NeverTellsTrace rows.now row (FirstRow cost)) }
{
    if !is_of_kind(rows, row, "first", 2) {
        return None;
    }
    let amount = amount(rows.field(row, 1), 0, MAX_COST)?;
    Some(amount.map(|cost| cost as i64))
}

/// The cost that a field writes, in cost units.
fn cost(field: &[u8]) -> Option<i64>
    ensures found { IfSome result (λ n. (field.now ≡ signed_decimal n) × IsBetween (pos 0) MAX_COST n) }
    ensures none { IfNone result ((n : ℤ) → IsBetween (pos 0) MAX_COST n → ¬ (field.now ≡ signed_decimal n)) }
{
    let cost = between(field, 0, MAX_COST)?;
    Some(cost as i64)
}

/// The worker and the spot, from 0 on, of a row of this kind that has no more.
pub(crate) fn spot_row(rows: &Rows, row: usize, kind: &str) -> Option<(u32, u32)>
    requires { row < length rows.now }
    ensures found { IfSome result (λ r. IsSpotRow kind.now (row_of rows.now row) r.0 r.1) }
    ensures none { IfNone result ((worker spot : ℕ)
        → ¬ (IsSpotRow kind.now (row_of rows.now row) worker spot)) }
{
    if !is_of_kind(rows, row, kind, 3) {
        return None;
    }
    let (worker, spot) = worker_and_spot(rows, row)?;
    Some((worker, spot))
}

/// The worker and the spot, from 0 on, that the second and the third field write.
fn worker_and_spot(rows: &Rows, row: usize) -> Option<(u32, u32)>
    requires row { row < length rows.now }
    requires fields { 3 ≤ length (row_of rows.now row) }
    ensures found { IfSome result (AreInFields (row_of rows.now row)) }
    ensures none { IfNone result ((r : ℕ × ℕ) → ¬ (AreInFields (row_of rows.now row) r)) }
{
    let worker = number(rows.field(row, 1), 1, MAX_WORKERS)?;
    let spot = number(rows.field(row, 2), 1, MAX_SPOTS)?;
    Some((worker - 1, spot - 1))
}

/// The worker, from 0 on, and the cost of a row `offered`.
pub(crate) fn offered(rows: &Rows, row: usize) -> Option<(u32, i64)>
    requires { row < length rows.now }
    ensures found { IfSome result (λ r. TellsTrace rows.now row (OfferedRow r.0 r.1)) }
    ensures none { IfNone result ((worker : ℕ) (cost : ℤ)
        → NeverTellsTrace rows.now row (OfferedRow worker cost)) }
{
    if !is_of_kind(rows, row, "offered", 3) {
        return None;
    }
    let worker = number(rows.field(row, 1), 1, MAX_WORKERS)?;
    let cost = cost(rows.field(row, 2))?;
    Some((worker - 1, cost))
}

/// A worker and a spot, from 0 on, a trip, and layers on its left.
#[derive(Clone, Copy)]
pub(crate) struct SplitOf {
    pub worker: u32,
    pub spot: u32,
    pub trip: TripNo,
    pub left: LayerSet,
}

/// The worker, the spot, the trip and the layers of a row `split`, a trip and some layers, each once.
pub(crate) fn split(input: &Input, row: usize) -> Option<SplitOf>
    requires input { IsInput input.now }
    requires row { row < length input.now.rest }
    ensures found { IfSome result (λ r. SaysTrace input.now row (SplitRow r.worker r.spot r.trip r.left)) }
    ensures none { IfNone result ((worker spot : ℕ) (trip : TripOf) (left : SetOf)
        → ¬ (SaysTrace input.now row (SplitRow worker spot trip left))) }
{
    // for the proof: the instance is within its limits
    let _layers = input.instance.layers();
    let rows = &input.rest;
    if rows.fields(row) < 5 || !is_text(rows.field(row, 0), "split") {
        return None;
    }
    let (worker, spot) = worker_and_spot(rows, row)?;
    let name = rows.field(row, 3);
    let trip = trip_named(&input.names, name, TripNo(0))?;
    let left = layers(input, row, 4)?;
    Some(SplitOf {
        worker,
        spot,
        trip,
        left,
    })
}
