//! What holds of every text of peaks that is written.

ghost use Rattle.vs_peak.specs.Laws.{WrittenPeaksAreReadBack, WrittenRowsStandForTheirClaims};

/// The rows that are written of claims stand for them.
pub fn written_rows_stand_for_their_claims()
    ensures { WrittenRowsStandForTheirClaims }
{}

/// Behind the records of its instance, the last of which is ended by a line end, the text of claims is read as those
/// claims.
pub fn written_peaks_are_read_back()
    ensures { WrittenPeaksAreReadBack }
{}
