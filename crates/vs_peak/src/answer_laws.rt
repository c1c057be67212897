//! What holds of every text of peaks that `peak` has to write.

ghost use Rattle.std.specs.Prelude.{ℕ, List, [], ◌∷◌, ◌++◌, take};
ghost use Rattle.vs_peak.specs.Owed.{OwesPeaks};
ghost use Rattle.vs_reader.specs.Rows.{Row, lines};
ghost use Rattle.vs_reader.specs.Texts.{EndsInLine, HasRows};
ghost use Rattle.vs_reply.specs.Owed.{PeakCheckOwes, peaks_yes_row};
ghost use Rattle.vs_reply.specs.declared.status.Status.TheVariants as status;

/// What `peak` has to write for an instance is true. Where it stands behind the instance's records, the last of which
/// is ended by a line end, `peakcheck` has to answer `yes`.
pub fn written_peaks_hold()
    ensures { (bytes read : List ℕ) (rows : List Row) (owed : OwesPeaks bytes rows)
        → HasRows read (take owed.text.before owed.text.instance.rows) → EndsInLine read
        → PeakCheckOwes (read ++ lines rows) status.Done (peaks_yes_row ∷ []) }
{}
