//! What holds of the text of every search.

ghost use Rattle.vs_cert.specs.Laws.{WrittenSearchesAreReadBack};

/// What `write` gives for a search is read as a document behind the records of its instance. The last of these records
/// is ended by a line end. The document has the search's report, its cheapest plan, its tree of cases, and the tables
/// that leaves name.
pub fn written_searches_are_read_back()
    ensures { WrittenSearchesAreReadBack }
{}
