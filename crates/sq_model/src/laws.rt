//! Laws of the definitions, for callers above. The functions do nothing.
ghost use Rattle.sq_model.specs.Laws as spec;

/// The texts of a valid corpus are short enough for the slow meanings.
pub fn valid_texts_are_short()
    ensures { spec.ValidTextsAreShort }
{}

/// A value of a schema has a text, which [`crate::shown_text`] gives.
pub fn values_are_shown()
    ensures { spec.ValuesAreShown }
{}
