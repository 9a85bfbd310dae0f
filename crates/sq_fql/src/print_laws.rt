//! The law of canonical texts. The function does nothing: its contract is the law.

ghost use Rattle.sq_fql.specs.CanonLaw.{CanonReadsBack};

/// The canonical text of a well-formed tree is read as the tree, places aside.
pub fn canonical_texts_read_back()
    ensures { CanonReadsBack }
{}
