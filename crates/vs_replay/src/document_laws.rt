//! What holds of every trace that is written, and of every one that replays.

ghost use Rattle.vs_replay.specs.Laws.{DocumentsComeBack, ReplaysHaveOneAnswer, StatesHaveOneText, WrittenTracesReplay};

/// A trace that records a search, but for offers that weren't accepted, comes back to its document. This is so where no
/// leaf of the search is held. The trace then replays, and each document of the state to which it replays is written as
/// one of the search's state.
pub fn documents_come_back()
    ensures { DocumentsComeBack }
{}

/// Take a search that keeps to the limits, and none of whose leaves is held. Its trace text stands behind the records
/// of its instance, the last of which is ended by a line end. For this input `replay` writes a document of the search's
/// state.
pub fn written_traces_replay()
    ensures { WrittenTracesReplay }
{}

/// What `replay` owes for the bytes that it reads is one thing: one status, and one list of rows, whoever reads them.
pub fn replays_have_one_answer()
    ensures { ReplaysHaveOneAnswer }
{}

/// All documents of a state of a search are written as the same rows.
pub fn states_have_one_text()
    ensures { StatesHaveOneText }
{}
