//! The fields that say why a text of peaks doesn't hold.

ghost use Rattle.std.specs.Prelude.{◌≡◌, ℕ, ◌<◌, [], ◌∷◌, ◌++◌, length, All, OnOk};
ghost use Rattle.vs_check.specs.Flaws.{IsBreakWithin, IsFaultWithin};
ghost use Rattle.vs_peakcheck.specs.PeakRows.{count_field};
ghost use Rattle.vs_reader.specs.Rows.{more_fields};
ghost use Rattle.vs_reply.specs.FlawRows.{layer_field};
ghost use Rattle.vs_reply.specs.PeakFlawRows.{IsPeakFlawWithin, own_break, own_fault, own_trip, peak_flaw_fields};

use crate::flaws::{broken_fields, fault_fields, heading};
use vs_peakcheck::PeakFlaw;
use vs_plan::PlanFault;
use vs_prices::BrokenAt;
use vs_reader::Names;
use vs_rows::Text;
use vs_types::{LayerNo, Memory, TripNo};

/// Adds to a row why what is claimed of layer l, which may run these trips, doesn't hold. The fields are the flaw's
/// number and name, the layer, and then the flaw's places by the instance's names, and values.
pub fn peak_flaw_fields(
    text: &mut Text,
    names: &Names,
    l: LayerNo,
    trips: &[TripNo],
    flaw: PeakFlaw,
) -> Result<(), Memory>
    requires layer { l.0 < length names.now.layers }
    requires trips { All (λ i. i.0 < length names.now.trips) trips.now }
    requires flaw { IsPeakFlawWithin (length trips.now) flaw }
    ensures { OnOk result (text.new ≡ text.old
        ++ more_fields (peak_flaw_fields names.now l trips.now flaw)) }
{
    match flaw {
        PeakFlaw::Blocks(fault) => {
            peak_heading(text, names, l, "8", "Blocks")?;
            fault_fields(text, names, own_fault(l, trips, fault))
        }
        PeakFlaw::CountDiffers(claimed, found) => {
            peak_heading(text, names, l, "9", "CountDiffers")?;
            text.number(claimed)?;
            text.number(found)
        }
        PeakFlaw::TableBroken(at) => {
            peak_heading(text, names, l, "10", "TableBroken")?;
            broken_fields(text, names, own_break(l, trips, at))
        }
        PeakFlaw::TooWeak(worth, count) => {
            peak_heading(text, names, l, "11", "TooWeak")?;
            text.number(worth)?;
            count_field(text, count)
        }
    }
}

/// Adds a flaw's number, its name and the layer to a row.
fn peak_heading(
    text: &mut Text,
    names: &Names,
    l: LayerNo,
    number: &str,
    name: &str,
) -> Result<(), Memory>
    requires { l.0 < length names.now.layers }
    ensures { OnOk result (text.new ≡ text.old
        ++ more_fields (number.now ∷ name.now ∷ layer_field names.now l ∷ [])) }
{
    heading(text, number, name)?;
    text.field(names.layer(l))
}

/// Adds a count to a row, or `none`.
fn count_field(text: &mut Text, count: Option<u32>) -> Result<(), Memory>
    ensures { OnOk result (text.new ≡ text.old ++ 44 ∷ count_field count) }
{
    match count {
        Some(count) => text.number(count),
        None => text.field("none"),
    }
}

/// The trip that the layer's instance numbers so.
fn own_trip(trips: &[TripNo], k: TripNo) -> TripNo
    requires { k.0 < length trips.now }
    ensures is { result ≡ own_trip trips.now k }
    ensures within { (n : ℕ) → All (λ i. i.0 < n) trips.now → result.0 < n }
{
    trips[k.0 as usize]
}

/// What is wrong with blocks of the instance that counts the vehicles of layer l, in the numbers of the whole instance.
fn own_fault(l: LayerNo, trips: &[TripNo], fault: PlanFault) -> PlanFault
    requires { IsFaultWithin 1 (length trips.now) fault }
    ensures is { result ≡ own_fault l trips.now fault }
    ensures within { (layers n : ℕ) → l.0 < layers → All (λ i. i.0 < n) trips.now
        → IsFaultWithin layers n result }
{
    match fault {
        PlanFault::Twice(k) => PlanFault::Twice(own_trip(trips, k)),
        PlanFault::Uncovered(k) => PlanFault::Uncovered(own_trip(trips, k)),
        PlanFault::Fleet(_, count) => PlanFault::Fleet(l, count),
        PlanFault::NotPermitted(..)
        | PlanFault::NoPullOut(_)
        | PlanFault::NoConnection(..)
        | PlanFault::NoPullIn(_) => fault,
    }
}

/// Where a table of that instance breaks, in the numbers of the whole one.
fn own_break(l: LayerNo, trips: &[TripNo], at: BrokenAt) -> BrokenAt
    requires { IsBreakWithin 1 (length trips.now) at }
    ensures is { result ≡ own_break l trips.now at }
    ensures within { (layers n : ℕ) → l.0 < layers → All (λ i. i.0 < n) trips.now
        → IsBreakWithin layers n result }
{
    match at {
        BrokenAt::Fleet(_) => BrokenAt::Fleet(l),
        BrokenAt::PullOut(_, i) => BrokenAt::PullOut(l, own_trip(trips, i)),
        BrokenAt::Link(_, i, j) => BrokenAt::Link(l, own_trip(trips, i), own_trip(trips, j)),
        BrokenAt::PullIn(_, i) => BrokenAt::PullIn(l, own_trip(trips, i)),
    }
}
