//! What holds of the documents that rows stand for.

ghost use Rattle.vs_document.specs.Laws.{DocumentsAreNotRefused, DocumentsOfRowsAreAlike, RowsAreRefusedOnce};
ghost use Rattle.vs_document.specs.Laws.{WrittenDocumentsAreReadBack};

/// Rows that stand for a document aren't refused.
pub fn documents_are_not_refused()
    ensures { DocumentsAreNotRefused }
{}

/// Rows are refused at one row, and for one reason.
pub fn rows_are_refused_once()
    ensures { RowsAreRefusedOnce }
{}

/// Documents that the same rows stand for say the same.
pub fn documents_of_rows_are_alike()
    ensures { DocumentsOfRowsAreAlike }
{}

/// The text of a document is read as that document, behind the records of its instance. A line end ends the last of
/// those records.
pub fn written_documents_are_read_back()
    ensures { WrittenDocumentsAreReadBack }
{}
