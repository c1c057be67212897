//! What holds of the traces that rows stand for.

ghost use Rattle.vs_trace.specs.Laws.{RowsAreRefusedOnce, TracesAreNotRefused, TracesOfRowsAreAlike};

/// Rows that stand for a trace aren't refused.
pub fn traces_are_not_refused()
    ensures { TracesAreNotRefused }
{}

/// Rows are refused at one row, and for one reason.
pub fn rows_are_refused_once()
    ensures { RowsAreRefusedOnce }
{}

/// Traces that the same rows stand for say the same.
pub fn traces_of_rows_are_alike()
    ensures { TracesOfRowsAreAlike }
{}
