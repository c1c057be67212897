//! The fields that say why a document doesn't hold.

ghost use Rattle.std.specs.Prelude.{◌≡◌, [], ◌∷◌, ◌++◌, length, OnOk};
ghost use Rattle.vs_check.specs.Flaws.{IsBreakWithin, IsFaultWithin, IsFlawWithin};
ghost use Rattle.vs_reply.specs.FlawRows.{broken_fields, fault_fields, flaw_fields, position_field};
ghost use Rattle.vs_reader.specs.Rows.{more_fields};

use vs_check::Flaw;
use vs_plan::PlanFault;
use vs_prices::BrokenAt;
use vs_reader::Names;
use vs_rows::{Text, bound_field, claim_field};
use vs_types::Memory;

/// Adds a place to a row, which counts from 0 and is written from 1 on.
fn position_field(text: &mut Text, place: u32) -> Result<(), Memory>
    ensures { OnOk result (text.new ≡ text.old ++ 44 ∷ position_field place) }
{
    text.number(u64::from(place) + 1)
}

/// Adds a place of a block to a row, after what is wrong there.
fn place_fields(text: &mut Text, name: &str, block: u32, place: u32) -> Result<(), Memory>
    ensures { OnOk result (text.new ≡ text.old
        ++ more_fields (name.now ∷ position_field block ∷ position_field place ∷ [])) }
{
    text.field(name)?;
    position_field(text, block)?;
    position_field(text, place)
}

/// Adds to a row what is wrong with the blocks.
pub(crate) fn fault_fields(text: &mut Text, names: &Names, fault: PlanFault) -> Result<(), Memory>
    requires { IsFaultWithin (length names.now.layers) (length names.now.trips) fault }
    ensures { OnOk result (text.new ≡ text.old ++ more_fields (fault_fields names.now fault)) }
{
    match fault {
        PlanFault::NotPermitted(b, place) => place_fields(text, "NotPermitted", b, place),
        PlanFault::NoPullOut(b) => {
            text.field("NoPullOut")?;
            position_field(text, b)
        }
        PlanFault::NoConnection(b, place) => place_fields(text, "NoConnection", b, place),
        PlanFault::NoPullIn(b) => {
            text.field("NoPullIn")?;
            position_field(text, b)
        }
        PlanFault::Twice(i) => {
            text.field("Twice")?;
            text.field(names.trip(i))
        }
        PlanFault::Uncovered(i) => {
            text.field("Uncovered")?;
            text.field(names.trip(i))
        }
        PlanFault::Fleet(l, count) => {
            text.field("Fleet")?;
            text.field(names.layer(l))?;
            text.number(count)
        }
    }
}

/// Adds to a row where a table breaks.
pub(crate) fn broken_fields(text: &mut Text, names: &Names, at: BrokenAt) -> Result<(), Memory>
    requires { IsBreakWithin (length names.now.layers) (length names.now.trips) at }
    ensures { OnOk result (text.new ≡ text.old ++ more_fields (broken_fields names.now at)) }
{
    match at {
        BrokenAt::Fleet(l) => {
            text.field("fleet")?;
            text.field(names.layer(l))
        }
        BrokenAt::PullOut(l, i) => {
            text.field("out")?;
            text.field(names.layer(l))?;
            text.field(names.trip(i))
        }
        BrokenAt::Link(l, i, j) => {
            text.field("link")?;
            text.field(names.layer(l))?;
            text.field(names.trip(i))?;
            text.field(names.trip(j))
        }
        BrokenAt::PullIn(l, i) => {
            text.field("in")?;
            text.field(names.layer(l))?;
            text.field(names.trip(i))
        }
    }
}

/// Adds a flaw's number and name to a row.
pub(crate) fn heading(text: &mut Text, number: &str, name: &str) -> Result<(), Memory>
    ensures { OnOk result (text.new ≡ text.old ++ more_fields (number.now ∷ name.now ∷ [])) }
{
    text.field(number)?;
    text.field(name)
}

/// Adds to a row why a document doesn't hold: the flaw's number and name, and then its places by
/// the instance's names, and values.
pub fn flaw_fields(text: &mut Text, names: &Names, flaw: Flaw) -> Result<(), Memory>
    requires { IsFlawWithin (length names.now.layers) (length names.now.trips) flaw }
    ensures { OnOk result (text.new ≡ text.old ++ more_fields (flaw_fields names.now flaw)) }
{
    match flaw {
        Flaw::Plan(fault) => {
            text.field("1")?;
            fault_fields(text, names, fault)
        }
        Flaw::CostDiffers(printed, found) => {
            heading(text, "2", "CostDiffers")?;
            text.number(printed)?;
            text.number(found)
        }
        Flaw::TableBroken(t, at) => {
            heading(text, "3", "TableBroken")?;
            position_field(text, t)?;
            broken_fields(text, names, at)
        }
        Flaw::BadSplit(position) => {
            heading(text, "4", "BadSplit")?;
            position_field(text, position)
        }
        Flaw::LeafTooWeak(position, worth, bound) => {
            heading(text, "5", "LeafTooWeak")?;
            position_field(text, position)?;
            text.number(worth)?;
            bound_field(text, bound)
        }
        Flaw::ClaimDiffers(claimed, found) => {
            heading(text, "6", "ClaimDiffers")?;
            claim_field(text, claimed)?;
            claim_field(text, found)
        }
    }
}
