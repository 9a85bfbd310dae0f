//! Laws of the definitions, for callers above. The functions do nothing.
ghost use Rattle.sq_corpus.specs.Laws as spec;

use sq_schema::{
    dates_lie_in_years, moments_are_written, moments_read_back, names_find_rows, numbers_read_back,
};

/// A corpus that a text spells is valid.
pub fn spelled_corpora_are_valid()
    ensures { spec.SpelledCorporaAreValid }
{
    dates_lie_in_years();
}

/// What [`crate::write_corpus`] writes of a corpus, [`crate::read_corpus`] reads as that corpus, with
/// the values of each item by the rows of their properties.
pub fn written_texts_read_back()
    ensures { spec.WrittenTextsReadBack }
{
    names_find_rows();
    numbers_read_back();
    moments_are_written();
    moments_read_back();
}

/// Of an item, only the values of different properties change places among one another.
pub fn values_are_kept()
    ensures { spec.ValuesAreKept }
{}
