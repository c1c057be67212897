//! What holds of every document that is judged.

ghost use Rattle.vs_check.specs.Laws.{AlikeDocumentsAreJudgedAlike, HoldingDocumentsProveTheirClaims};

/// A document that holds proves what it claims, of every plan of the instance and whoever wrote it.
pub fn holding_documents_prove_their_claims()
    ensures { HoldingDocumentsProveTheirClaims }
{}

/// Two documents for an instance that differ only by tables that agree have the same flaws, and hold
/// both or neither.
pub fn alike_documents_are_judged_alike()
    ensures { AlikeDocumentsAreJudgedAlike }
{}
