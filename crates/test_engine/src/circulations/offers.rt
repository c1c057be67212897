//! Offers of the trips of a layer, and trips that have to run.

ghost use Rattle.std.specs.Prelude.{◌≡◌, ℕ, ◌<◌, ◌≤ℤ◌, pos, length, IfOk, IfSome, IsSome, IsTrue};
ghost use Rattle.vs_circ.specs.Offers.{AreMust, AreOffers};
ghost use Rattle.vs_instance.specs.Dearest.{most_multiplier};
ghost use Rattle.vs_instance.specs.Instance.{IsInstance};
ghost use Rattle.vs_instance.specs.Ways.{Permitted};
ghost use Rattle.vs_instance.specs.declared.limits.TheConstants.{MAX_MULTIPLIER};
ghost use Rattle.vs_match.specs.LawfulNets.{IsLawful};

use std::alloc::Global;
use std::test::Fail;
use test_fixtures::texts::{LAYER, STOPS};
use test_fixtures::{input_of, joined};
use vs_instance::{Instance, most_multiplier};
use vs_match::{LayerNet, first_match, latest_first_match};
use vs_types::{LayerNo, TripNo};

/// A trip from a stop and minute to a stop and minute.
pub type Row = (u32, u32, u32, u32);

/// The name of a stop.
fn name(stop: u32) -> &'static str {
    match stop {
        0 => "D",
        1 => "P",
        _ => "Q",
    }
}

/// Two vehicles, and these trips.
pub fn rows_instance(alloc: Global, rows: &[Row]) -> Result<Instance, Fail> {
    let mut text = joined(alloc, &[STOPS, LAYER])?;
    for (n, (from, start, to, end)) in rows.iter().enumerate() {
        let (from, to) = (name(*from), name(*to));
        let (hour, minute) = (start / 60, start % 60);
        let (last, past) = (end / 60, end % 60);
        let row = format!(in alloc;
            "trip,T{n},{from},{hour}:{minute:02},{to},{last}:{past:02},0,L1\n"
        )?;
        text.extend_from_slice(row.as_bytes())?;
    }
    Ok(input_of(alloc, &text)?.instance)
}

/// The net of the first layer, by first match or by latest first match.
pub fn net_of(alloc: Global, instance: &Instance, latest: bool) -> Result<LayerNet, Fail>
    ensures { IfOk result (IsLawful instance.now 0) }
{
    if instance.layers() == 0 {
        return Err(Fail::new("no layer"));
    }
    if latest {
        Ok(latest_first_match(alloc, instance, LayerNo(0))?)
    } else {
        Ok(first_match(alloc, instance, LayerNo(0))?)
    }
}

/// Each trip that the first layer may run, offered for its multiplier.
pub fn offers_of(
    alloc: Global,
    instance: &Instance,
    multipliers: &[i64],
) -> Result<Vec<Option<i64>>, Fail>
    ensures offers { IfOk result (λ offers. AreOffers instance.now 0 offers.items) }
    ensures instance { IsInstance instance.now }
{
    let mut offers = Vec::new(alloc);
    for i in 0..instance.trips() {
        offers.push(offer_of(instance, TripNo(i), multipliers))?;
    }
    Ok(offers)
}

/// What a trip is offered for. None where the first layer may not run it, or the multiplier is out of range.
fn offer_of(instance: &Instance, i: TripNo, multipliers: &[i64]) -> Option<i64>
    requires { i.0 < length instance.now.trips }
    ensures permitted { IsSome result → Permitted instance.now 0 i.0 }
    ensures within { IfSome result (λ m. (pos 0 ≤ℤ m) × (m ≤ℤ MAX_MULTIPLIER)) }
    ensures payable { IfSome result (λ m. m ≤ℤ pos (most_multiplier (length instance.now.trips))) }
{
    let multiplier = *multipliers.get(i.0 as usize)?;
    let most = most_multiplier(instance.trips());
    if !instance.trip(i).layers.has(LayerNo(0)) || multiplier < 0 || most < multiplier {
        return None;
    }
    Some(multiplier)
}

/// The trips marked that the first layer may run.
pub fn must_of(alloc: Global, instance: &Instance, marks: &[bool]) -> Result<Vec<bool>, Fail>
    ensures must { IfOk result (λ must. AreMust instance.now 0 must.items) }
    ensures instance { IsInstance instance.now }
{
    let mut must = Vec::new(alloc);
    for i in 0..instance.trips() {
        must.push(has_to_run(instance, TripNo(i), marks))?;
    }
    Ok(must)
}

/// Whether a trip is marked, and the first layer may run it.
fn has_to_run(instance: &Instance, i: TripNo, marks: &[bool]) -> bool
    requires { i.0 < length instance.now.trips }
    ensures { IsTrue result → Permitted instance.now 0 i.0 }
{
    match marks.get(i.0 as usize) {
        Some(true) => instance.trip(i).layers.has(LayerNo(0)),
        _ => false,
    }
}
