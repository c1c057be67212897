//! What holds of all claims of peaks, whoever makes them.

ghost use Rattle.vs_peakcheck.specs.Laws.{AlikeClaimsAreJudgedAlike, ClaimsOfRowsAreAlike, ClaimsOfRowsAreJudgedAlike, ClaimsAreNotRefused, HoldingClaimsProvePeaks, RowsAreRefusedOnce};

/// Claims that the same rows stand for say the same: layer by layer the same count, the same blocks and the same
/// prices.
pub fn claims_of_rows_are_alike()
    ensures { ClaimsOfRowsAreAlike }
{}

/// Claims that say the same have the same flaws, and hold both or neither.
pub fn alike_claims_are_judged_alike()
    ensures { AlikeClaimsAreJudgedAlike }
{}

/// So have claims that the same rows stand for: whoever reads a text of peaks comes to one verdict.
pub fn claims_of_rows_are_judged_alike()
    ensures { ClaimsOfRowsAreJudgedAlike }
{}

/// Claims that hold prove the peaks. Each count is how many vehicles its layer needs for all that it may run. No number
/// is enough where no count is claimed.
pub fn holding_claims_prove_peaks()
    ensures { HoldingClaimsProvePeaks }
{}

/// Rows that stand for claims aren't refused.
pub fn claims_are_not_refused()
    ensures { ClaimsAreNotRefused }
{}

/// Rows are refused at one row, and for one reason.
pub fn rows_are_refused_once()
    ensures { RowsAreRefusedOnce }
{}
