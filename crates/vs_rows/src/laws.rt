//! What holds of every document and its rows, and the ranges of a document's numbers.

ghost use Rattle.std.specs.Prelude.{◌≡◌, pos};
ghost use Rattle.vs_rows.specs.Laws.{WrittenRowsStandForTheirDocument};
ghost use Rattle.vs_rows.specs.declared.limits.TheConstants.{
  MAX_BOUND,
  MAX_COST,
  MAX_FINISHED,
  MAX_NUMBER,
  MAX_PRINTED_PRICE,
};

/// The rows as which a document is written stand for it.
pub fn written_rows_stand_for_their_document()
    ensures { WrittenRowsStandForTheirDocument }
{}

/// The ranges that the definitions take from the code. They are those of a cost and a bound in cost units, and of the
/// cases that a search finished. They are also those of the numbers of tables, and of a price of 19 digits in 1/1000
/// of a cost unit.
pub fn limits_are_fixed()
    ensures cost { MAX_COST ≡ pos 100000000000000000 }
    ensures bound { MAX_BOUND ≡ pos 100000000000000000000 }
    ensures finished { MAX_FINISHED ≡ 1000000000000000000 }
    ensures number { MAX_NUMBER ≡ 1000000000 }
    ensures printed { MAX_PRINTED_PRICE ≡ pos 9999999999999999999 }
{}
