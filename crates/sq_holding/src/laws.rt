//! Laws of the definitions, for callers above. The functions do nothing.
ghost use Rattle.sq_holding.specs.Laws as spec;

use sq_schema::{moments_are_written, moments_read_back, numbers_read_back};
use sq_stored::{stored_urls_stand, stored_values_stand};

/// What is held tells the corpus that is held, or one that no caller can tell from it.
pub fn told_is_alike()
    ensures { spec.ToldIsAlike }
{
    numbers_read_back();
    moments_read_back();
    moments_are_written();
    stored_values_stand();
    stored_urls_stand();
}

/// The corpus that is told has an item for each row of the index.
pub fn told_has_rows()
    ensures { spec.ToldHasRows }
{}
