//! What a refusal of the input is called, and its details.

ghost use Rattle.std.specs.Prelude.{◌≡◌, [], ◌∷◌, ◌++◌, decimal, OnOk};
ghost use Rattle.vs_reader.specs.Rows.{more_fields};
ghost use Rattle.vs_reply.specs.RefusalRows.{document_name, document_number, peak_name, peak_number, misfit_details, misfit_name, range_name, stop_fields, why_details, why_name, why_number};

use vs_document::DocWhy;
use vs_instance::{Field, Misfit};
use vs_peakcheck::PeakWhy;
use vs_reader::Why;
use vs_rows::Text;
use vs_types::{Memory, StopNo};

/// Writes the number of a refusal, its name, and the details of an error of an input.
pub fn write_why(text: &mut Text, why: Why) -> Result<(), Memory>
    ensures { OnOk result (text.new ≡ text.old
        ++ more_fields (decimal (why_number why) ∷ why_name why ∷ why_details why)) }
{
    text.number(why_number(why))?;
    text.field(why_name(why))?;
    match why {
        Why::Misfit(misfit) => write_details(text, misfit),
        _ => Ok(()),
    }
}

/// Writes the details of an error of an input, where it has any.
fn write_details(text: &mut Text, misfit: Misfit) -> Result<(), Memory>
    ensures { OnOk result (text.new ≡ text.old ++ more_fields (misfit_details misfit)) }
{
    match misfit {
        Misfit::Range(field, _) => text.field(range_name(field)),
        Misfit::NotClosed(k, s, t)
        | Misfit::LongerMinutes(k, s, t)
        | Misfit::LongerMetres(k, s, t) => write_stops(text, k, s, t),
        Misfit::TooDear(_)
        | Misfit::SelfDeadhead(_)
        | Misfit::DeadheadTwice(_)
        | Misfit::EndNotAfterStart(_) => Ok(()),
    }
}

/// Writes the numbers of three stops, counted from 1.
fn write_stops(text: &mut Text, k: StopNo, s: StopNo, t: StopNo) -> Result<(), Memory>
    ensures { OnOk result (text.new ≡ text.old ++ more_fields (stop_fields k.0 s.0 t.0)) }
{
    text.number(u64::from(k.0) + 1)?;
    text.number(u64::from(s.0) + 1)?;
    text.number(u64::from(t.0) + 1)
}

/// The number of a refusal.
fn why_number(why: Why) -> u32
    ensures { result ≡ why_number why }
{
    match why {
        Why::NoHeader => 1,
        Why::UnknownKind => 2,
        Why::FieldCount => 3,
        Why::BadName => 4,
        Why::NameTwice => 5,
        Why::UnknownName => 6,
        Why::BadNumber => 7,
        Why::BadTime => 8,
        Why::TooMany => 9,
        Why::Misfit(_) => 10,
    }
}

/// The name of a refusal.
fn why_name(why: Why) -> &'static str
    ensures { result.now ≡ why_name why }
{
    match why {
        Why::NoHeader => "NoHeader",
        Why::UnknownKind => "UnknownKind",
        Why::FieldCount => "FieldCount",
        Why::BadName => "BadName",
        Why::NameTwice => "NameTwice",
        Why::UnknownName => "UnknownName",
        Why::BadNumber => "BadNumber",
        Why::BadTime => "BadTime",
        Why::TooMany => "TooMany",
        Why::Misfit(misfit) => misfit_name(misfit),
    }
}

/// The name of an error of an input.
fn misfit_name(misfit: Misfit) -> &'static str
    ensures { result.now ≡ misfit_name misfit }
{
    match misfit {
        Misfit::Range(..) => "Range",
        Misfit::TooDear(_) => "TooDear",
        Misfit::SelfDeadhead(_) => "SelfDeadhead",
        Misfit::DeadheadTwice(_) => "DeadheadTwice",
        Misfit::EndNotAfterStart(_) => "EndNotAfterStart",
        Misfit::NotClosed(..) => "NotClosed",
        Misfit::LongerMinutes(..) => "LongerMinutes",
        Misfit::LongerMetres(..) => "LongerMetres",
    }
}

/// What a number is called that is out of its range.
fn range_name(field: Field) -> &'static str
    ensures { result.now ≡ range_name field }
{
    match field {
        Field::Fleet => "fleet",
        Field::Fixed => "fixed",
        Field::PerMinute => "per_minute",
        Field::PerMetre => "per_metre",
        Field::Stay => "stay",
        Field::Minutes => "minutes",
        Field::Metres => "metres",
    }
}

/// Writes the number of a refusal of what follows the instance, and its name.
pub fn write_document_why(text: &mut Text, why: DocWhy) -> Result<(), Memory>
    ensures { OnOk result (text.new ≡ text.old
        ++ more_fields (decimal (document_number why) ∷ document_name why ∷ [])) }
{
    text.number(document_number(why))?;
    text.field(document_name(why))
}

/// The number of a refusal of what follows the instance.
fn document_number(why: DocWhy) -> u32
    ensures { result ≡ document_number why }
{
    match why {
        DocWhy::NoResult => 20,
        DocWhy::BadRow => 21,
        DocWhy::OutOfOrder => 22,
        DocWhy::TableNumber => 23,
        DocWhy::EndsEarly => 24,
        DocWhy::RowsAfterEnd => 25,
        DocWhy::PriceRange => 26,
    }
}

/// The name of a refusal of what follows the instance.
fn document_name(why: DocWhy) -> &'static str
    ensures { result.now ≡ document_name why }
{
    match why {
        DocWhy::NoResult => "NoResult",
        DocWhy::BadRow => "BadRow",
        DocWhy::OutOfOrder => "OutOfOrder",
        DocWhy::TableNumber => "TableNumber",
        DocWhy::EndsEarly => "EndsEarly",
        DocWhy::RowsAfterEnd => "RowsAfterEnd",
        DocWhy::PriceRange => "PriceRange",
    }
}

/// Writes the number of a refusal of what follows the instance as a text of peaks, and its name.
pub fn write_peak_why(text: &mut Text, why: PeakWhy) -> Result<(), Memory>
    ensures { OnOk result (text.new ≡ text.old
        ++ more_fields (decimal (peak_number why) ∷ peak_name why ∷ [])) }
{
    text.number(peak_number(why))?;
    text.field(peak_name(why))
}

/// The number of a refusal of what follows the instance as a text of peaks.
fn peak_number(why: PeakWhy) -> u32
    ensures { result ≡ peak_number why }
{
    match why {
        PeakWhy::NoPeak => 60,
        PeakWhy::BadRow => 61,
        PeakWhy::OutOfOrder => 62,
        PeakWhy::EndsEarly => 63,
        PeakWhy::RowsAfterEnd => 64,
        PeakWhy::PriceRange => 65,
    }
}

/// The name of a refusal of what follows the instance as a text of peaks.
fn peak_name(why: PeakWhy) -> &'static str
    ensures { result.now ≡ peak_name why }
{
    match why {
        PeakWhy::NoPeak => "NoPeak",
        PeakWhy::BadRow => "BadRow",
        PeakWhy::OutOfOrder => "OutOfOrder",
        PeakWhy::EndsEarly => "EndsEarly",
        PeakWhy::RowsAfterEnd => "RowsAfterEnd",
        PeakWhy::PriceRange => "PriceRange",
    }
}
