//! Laws of the definitions, for callers above. The functions do nothing.
ghost use Rattle.sq_stored.specs.Laws as spec;

/// The stored values of a row and a property are the shown values of the row's item.
pub fn stored_values_stand()
    ensures { spec.ValuesStand }
{}

/// The stored url of a row is that of the row's item.
pub fn stored_urls_stand()
    ensures { spec.UrlsStand }
{}
