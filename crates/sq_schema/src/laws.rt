//! Laws of the definitions, for callers that prove more than one call.
ghost use Rattle.sq_schema.specs.Laws as spec;

/// Each row of a schema is found by its name.
pub fn names_find_rows()
    ensures { spec.NamesFindRows }
{}

/// What [`crate::moment_text`] writes is read back by [`crate::day_interval`] as that moment alone.
pub fn moments_read_back()
    ensures { spec.MomentsReadBack }
{}

/// The text that [`crate::moment_text`] writes is the date and the time of the moment.
pub fn moments_are_written()
    ensures { spec.MomentsAreWritten }
{}

/// What `{}` writes of an `i64`, [`crate::number`] reads as that number.
pub fn numbers_read_back()
    ensures { spec.NumbersReadBack }
{}

/// The interval of a date text lies in the years 0001 to 9999.
pub fn dates_lie_in_years()
    ensures { spec.DatesLieInYears }
{}

/// The interval that a name means about a clamped moment lies in the years 0001 to 9999.
pub fn names_lie_in_years()
    ensures { spec.NamesLieInYears }
{}
