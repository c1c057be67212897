//! What holds of the part of a case.

ghost use Rattle.vs_resume.specs.PartLaws.{PlansOfParts, WidenedTablesAreWorthTheSame, WidenedTablesHold};

/// The plans of a part are exactly the plans of the instance within the case, and cost the same.
pub fn plans_of_parts()
    ensures { PlansOfParts }
{}

/// A table that holds in a part holds, widened, in the instance.
pub fn widened_tables_hold()
    ensures { WidenedTablesHold }
{}

/// A table of a part is, widened, worth the same within every restriction of the part.
pub fn widened_tables_are_worth_the_same()
    ensures { WidenedTablesAreWorthTheSame }
{}
