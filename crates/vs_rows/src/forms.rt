//! The forms of a document's rows, one by one.
ghost use Rattle.std.specs.Prelude.{◌≡◌, ℕ, ◌<◌, ◌≤◌, ◌↔◌, ℤ, Bool, Option, List, length, drop, IsTrue, false, IfSome, IfNone, IfOk, neg_ℤ, ◌≤ℤ◌, decimal};
ghost use Rattle.std.specs.Fmt.{signed_decimal};
ghost use Rattle.vs_types.specs.declared.layer_set.LayerSet.{LayerSet as SetOf};
ghost use Rattle.vs_types.specs.declared.numbers.TripNo.{TripNo as TripOf};
ghost use Rattle.vs_instance.specs.Plan.{LayerBlock};
ghost use Rattle.vs_plan.specs.Blocks.{pair_of};
ghost use Rattle.vs_reader.specs.Rows.{row_of};
ghost use Rattle.vs_prices.specs.declared.claim.Claim.{Claim as ClaimOf};
ghost use Rattle.vs_rows.specs.DocumentRows.{ClaimRow, CostRow, BoundRow, NodesRow, BlockRow, TableRow, FleetRow, PriceRow, SplitRow, LeafRow, EndRow, claim_field, kind_field, number_field, IsWithin, IsBetween};
ghost use Rattle.vs_rows.specs.RowForms.{IsInput, NameSet, NameTrips, NeverTells, SaysThere, Tells};

use crate::fields::{begins_as, is_of_kind, is_text};
use crate::limits::{MAX_BOUND, MAX_COST, MAX_FINISHED, MAX_NUMBER, MAX_PRINTED_PRICE};
use crate::names::{Likely, layer_named, trip_named};
use crate::numbers::between;
use std::alloc::Global;
use vs_plan::Block;
use vs_prices::Claim;
use vs_reader::{Input, Rows};
use vs_types::{LayerNo, LayerSet, Memory, TripNo};

/// The claim of a row `result`, `1` and a claim.
pub fn claim(rows: &Rows, row: usize) -> Option<Claim>
    requires { row < length rows.now }
    ensures found { IfSome result (λ claim. Tells rows.now row (ClaimRow claim)) }
    ensures none { IfNone result ((claim : ClaimOf) → NeverTells rows.now row (ClaimRow claim)) }
{
    if !is_of_kind(rows, row, "result", 3) || !is_text(rows.field(row, 1), "1") {
        return None;
    }
    claim_of(rows.field(row, 2))
}

/// The claim of this name.
fn claim_of(field: &[u8]) -> Option<Claim>
    ensures found { IfSome result (λ claim. field.now ≡ claim_field claim) }
    ensures none { IfNone result ((claim : ClaimOf) → ¬ (field.now ≡ claim_field claim)) }
{
    if is_text(field, "optimal") {
        return Some(Claim::Optimal);
    }
    if is_text(field, "infeasible") {
        return Some(Claim::Infeasible);
    }
    if is_text(field, "open") {
        return Some(Claim::StillOpen);
    }
    None
}

/// The cost of a row `cost` and a number or `none`.
pub fn cost(rows: &Rows, row: usize) -> Option<Option<i64>>
    requires { row < length rows.now }
    ensures found { IfSome result (λ cost. Tells rows.now row (CostRow cost)) }
    ensures none { IfNone result ((cost : Option ℤ) → NeverTells rows.now row (CostRow cost)) }
{
    if !is_of_kind(rows, row, "cost", 2) {
        return None;
    }
    let amount = amount(rows.field(row, 1), 0, MAX_COST)?;
    Some(amount.map(|cost| cost as i64))
}

/// The bound of a row `bound` and a number or `none`.
pub fn bound(rows: &Rows, row: usize) -> Option<Option<i128>>
    requires { row < length rows.now }
    ensures found { IfSome result (λ bound. Tells rows.now row (BoundRow bound)) }
    ensures none { IfNone result ((bound : Option ℤ) → NeverTells rows.now row (BoundRow bound)) }
{
    if !is_of_kind(rows, row, "bound", 2) {
        return None;
    }
    amount(rows.field(row, 1), -MAX_BOUND, MAX_BOUND)
}

/// The number from `low` to `high` that a field writes, or `none`.
pub fn amount(field: &[u8], low: i128, high: i128) -> Option<Option<i128>>
    requires low { neg_ℤ MAX_BOUND ≤ℤ low }
    requires high { high ≤ℤ MAX_BOUND }
    ensures found { IfSome result (λ n. (field.now ≡ number_field n) × IfSome n (IsBetween low high)) }
    ensures none { IfNone result ((n : Option ℤ) → IfSome n (IsBetween low high)
        → ¬ (field.now ≡ number_field n)) }
{
    if is_text(field, "none") {
        return Some(None);
    }
    Some(Some(between(field, low, high)?))
}

/// The count of a row `nodes` and a number.
pub fn nodes(rows: &Rows, row: usize) -> Option<u64>
    requires { row < length rows.now }
    ensures found { IfSome result (λ n. Tells rows.now row (NodesRow n)) }
    ensures none { IfNone result ((n : ℕ) → NeverTells rows.now row (NodesRow n)) }
{
    if !is_of_kind(rows, row, "nodes", 2) {
        return None;
    }
    let nodes = between(rows.field(row, 1), 0, i128::from(MAX_FINISHED))?;
    Some(nodes as u64)
}

/// The block of a row `block`, a layer and some trips.
pub fn block(alloc: Global, input: &Input, row: usize) -> Result<Option<Block>, Memory>
    requires { row < length input.now.rest }
    ensures found { IfOk result (λ r. IfSome r (λ b. SaysThere input.now row (BlockRow (pair_of b)))) }
    ensures none { IfOk result (λ r. IfNone r ((b : LayerBlock) → ¬ (SaysThere input.now row (BlockRow b)))) }
{
    if !begins_as(&input.rest, row, "block") {
        return Ok(None);
    }
    let Some(layer) = layer_named(&input.names, input.rest.field(row, 1), LayerNo(0)) else {
        return Ok(None);
    };
    match trips(alloc, input, row)? {
        Some(trips) => Ok(Some(Block { layer, trips })),
        None => Ok(None),
    }
}

/// The trips that the fields of a row name from the third on. None where one of them names none.
fn trips(alloc: Global, input: &Input, row: usize) -> Result<Option<Vec<TripNo>>, Memory>
    requires row { row < length input.now.rest }
    requires fields { 2 ≤ length (row_of input.now.rest row) }
    ensures found { IfOk result (λ r. IfSome r (λ trips.
        NameTrips input.now.names.trips (drop 2 (row_of input.now.rest row)) trips.items)) }
    ensures none { IfOk result (λ r. IfNone r ((trips : List TripOf) →
        ¬ (NameTrips input.now.names.trips (drop 2 (row_of input.now.rest row)) trips))) }
{
    let fields = input.rest.fields(row);
    let mut trips = Vec::with_capacity(alloc, fields - 2)?;
    for k in 2..fields {
        let Some(trip) = trip_named(&input.names, input.rest.field(row, k), TripNo(0)) else {
            return Ok(None);
        };
        trips.push(trip)?;
    }
    Ok(Some(trips))
}

/// The number and the kind of a row `table`, a number and a kind.
pub fn table(rows: &Rows, row: usize) -> Option<(u32, bool)>
    requires { row < length rows.now }
    ensures found { IfSome result (λ r. Tells rows.now row (TableRow r.0 r.1)) }
    ensures none { IfNone result ((n : ℕ) (ray : Bool) → NeverTells rows.now row (TableRow n ray)) }
{
    if !is_of_kind(rows, row, "table", 3) {
        return None;
    }
    let number = table_number(rows.field(row, 1))?;
    let ray = is_text(rows.field(row, 2), "ray");
    if !ray && !is_text(rows.field(row, 2), "cost") {
        return None;
    }
    Some((number, ray))
}

/// The number of a table that a field writes.
fn table_number(field: &[u8]) -> Option<u32>
    ensures found { IfSome result (λ n. (field.now ≡ decimal n) × (n ≤ MAX_NUMBER)) }
    ensures none { IfNone result ((n : ℕ) → n ≤ MAX_NUMBER → ¬ (field.now ≡ decimal n)) }
{
    let number = between(field, 0, i128::from(MAX_NUMBER))?;
    Some(number as u32)
}

/// The layer and the price of a row `fleet`, a layer and a price.
pub fn fleet(input: &Input, row: usize, likely: Likely) -> Option<(LayerNo, i128)>
    requires { row < length input.now.rest }
    ensures found { IfSome result (λ r. SaysThere input.now row (FleetRow r.0.0 r.1)) }
    ensures none { IfNone result ((l : ℕ) (price : ℤ) → ¬ (SaysThere input.now row (FleetRow l price))) }
{
    let rows = &input.rest;
    if !is_of_kind(rows, row, "fleet", 3) {
        return None;
    }
    let layer = layer_named(&input.names, rows.field(row, 1), likely.layer)?;
    let price = price_of(rows.field(row, 2))?;
    Some((layer, price))
}

/// The layer, the trip, and the prices for entering and for leaving it, of a row `price`.
pub fn price(input: &Input, row: usize, likely: Likely) -> Option<(LayerNo, TripNo, i128, i128)>
    requires { row < length input.now.rest }
    ensures found { IfSome result (λ r. SaysThere input.now row (PriceRow r.0.0 r.1.0 r.2 r.3)) }
    ensures none { IfNone result ((l i : ℕ) (into from : ℤ)
        → ¬ (SaysThere input.now row (PriceRow l i into from))) }
{
    let rows = &input.rest;
    if !is_of_kind(rows, row, "price", 5) {
        return None;
    }
    let layer = layer_named(&input.names, rows.field(row, 1), likely.layer)?;
    let trip = trip_named(&input.names, rows.field(row, 2), likely.trip)?;
    let into = price_of(rows.field(row, 3))?;
    let from = price_of(rows.field(row, 4))?;
    Some((layer, trip, into, from))
}

/// The price of at most 19 digits that a field writes.
fn price_of(field: &[u8]) -> Option<i128>
    ensures found { IfSome result (λ n. (field.now ≡ signed_decimal n) × IsWithin MAX_PRINTED_PRICE n) }
    ensures none { IfNone result ((n : ℤ) → IsWithin MAX_PRINTED_PRICE n → ¬ (field.now ≡ signed_decimal n)) }
{
    between(field, -MAX_PRINTED_PRICE, MAX_PRINTED_PRICE)
}

/// The trip and the layers of a row `split`, a trip and some layers, each once.
pub fn split(input: &Input, row: usize) -> Option<(TripNo, LayerSet)>
    requires input { IsInput input.now }
    requires row { row < length input.now.rest }
    ensures found { IfSome result (λ r. SaysThere input.now row (SplitRow r.0 r.1)) }
    ensures none { IfNone result ((trip : TripOf) (left : SetOf)
        → ¬ (SaysThere input.now row (SplitRow trip left))) }
{
    if !begins_as(&input.rest, row, "split") {
        return None;
    }
    let trip = trip_named(&input.names, input.rest.field(row, 1), TripNo(0))?;
    let _layers = input.instance.layers();
    let left = layers(input, row, 2)?;
    Some((trip, left))
}

/// The layers that the fields of a row name from one on, which is counted from 0. None where one of them names none, or
/// one that was named before.
pub fn layers(input: &Input, row: usize, from: usize) -> Option<LayerSet>
    requires input { IsInput input.now }
    requires row { row < length input.now.rest }
    requires fields { from ≤ length (row_of input.now.rest row) }
    ensures found { IfSome result (NameSet input.now.names.layers (drop from (row_of input.now.rest row))) }
    ensures none { IfNone result ((left : SetOf) →
        ¬ (NameSet input.now.names.layers (drop from (row_of input.now.rest row)) left)) }
{
    let _layers = input.instance.layers();
    let mut left = LayerSet(0);
    for k in from..input.rest.fields(row) {
        let layer = layer_named(&input.names, input.rest.field(row, k), LayerNo(0))?;
        if left.has(layer) {
            return None;
        }
        left = left.with(layer);
    }
    Some(left)
}

/// The number of a row `leaf` and a number.
pub fn leaf(rows: &Rows, row: usize) -> Option<u32>
    requires { row < length rows.now }
    ensures found { IfSome result (λ n. Tells rows.now row (LeafRow n)) }
    ensures none { IfNone result ((n : ℕ) → NeverTells rows.now row (LeafRow n)) }
{
    if !is_of_kind(rows, row, "leaf", 2) {
        return None;
    }
    table_number(rows.field(row, 1))
}

/// Whether a row is `end`.
pub fn is_end(rows: &Rows, row: usize) -> bool
    requires { row < length rows.now }
    ensures found { IsTrue result → Tells rows.now row EndRow }
    ensures none { result ≡ false → NeverTells rows.now row EndRow }
{
    is_of_kind(rows, row, "end", 1)
}
