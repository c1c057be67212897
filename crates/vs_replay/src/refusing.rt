//! The row that refuses what follows an instance as a trace.

ghost use Rattle.std.specs.Prelude.{◌≡◌, [], ◌∷◌, ◌++◌, decimal, IfOk, OnOk};
ghost use Rattle.vs_reader.specs.Rows.{more_fields};
ghost use Rattle.vs_reply.specs.Answered.{TellsRow};
ghost use Rattle.vs_replay.specs.ReplayRows.{trace_name, trace_number, trace_refusal_row};

use std::alloc::Global;
use vs_cert::Text;
use vs_reply::{Answer, Status};
use vs_trace::TraceWhy;
use vs_types::Memory;

/// What follows the instance is no trace, first of all at this record.
pub(crate) fn refused_trace(alloc: Global, row: u64, why: TraceWhy) -> Result<Answer, Memory>
    ensures { IfOk result (TellsRow Status.BadInput (trace_refusal_row row why)) }
{
    let mut text = Text::new(alloc);
    text.begin_row("refused")?;
    text.number(row)?;
    write_why(&mut text, why)?;
    text.end_row()?;
    Ok(Answer::of(Status::BadInput, text))
}

/// Writes the number of a refusal of what follows the instance as a trace, and its name.
fn write_why(text: &mut Text, why: TraceWhy) -> Result<(), Memory>
    ensures { OnOk result (text.new ≡ text.old
        ++ more_fields (decimal (trace_number why) ∷ trace_name why ∷ [])) }
{
    text.number(trace_number(why))?;
    text.field(trace_name(why))
}

/// The number of a refusal of what follows the instance as a trace.
fn trace_number(why: TraceWhy) -> u32
    ensures { result ≡ trace_number why }
{
    match why {
        TraceWhy::NoTrace => 50,
        TraceWhy::BadRow => 51,
        TraceWhy::OutOfOrder => 52,
        TraceWhy::TableNumber => 53,
        TraceWhy::EndsEarly => 54,
        TraceWhy::RowsAfterEnd => 55,
        TraceWhy::PriceRange => 56,
    }
}

/// The name of a refusal of what follows the instance as a trace.
fn trace_name(why: TraceWhy) -> &'static str
    ensures { result.now ≡ trace_name why }
{
    match why {
        TraceWhy::NoTrace => "NoTrace",
        TraceWhy::BadRow => "BadRow",
        TraceWhy::OutOfOrder => "OutOfOrder",
        TraceWhy::TableNumber => "TableNumber",
        TraceWhy::EndsEarly => "EndsEarly",
        TraceWhy::RowsAfterEnd => "RowsAfterEnd",
        TraceWhy::PriceRange => "PriceRange",
    }
}
