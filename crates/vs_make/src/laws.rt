//! What holds of every text that is made.

ghost use Rattle.std.specs.Prelude.{ℕ, ◌≤◌};
ghost use Rattle.vs_instance.specs.declared.limits.TheConstants.{MAX_TRIPS};
ghost use Rattle.vs_reader.specs.Rows.{lines};
ghost use Rattle.vs_make.specs.Generator.{make_rows};
ghost use Rattle.vs_make.specs.Made.{IsWholeText, made_names, made_problem};

/// The text that is made for n trips is an instance text. It stands for n trips, as they are drawn, four layers, twelve
/// stops and the deadheads between them, under their names. Behind its records stands nothing, and a line end ends the
/// last of them.
pub fn made_texts_are_instances()
    ensures { (n : ℕ) → n ≤ MAX_TRIPS
        → IsWholeText (lines (make_rows n)) (made_problem n) (made_names n) }
{}
