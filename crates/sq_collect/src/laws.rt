//! Laws of refiners.
ghost use Rattle.sq_collect.specs.Laws.{ColumnsCountAsNumbers};

/// The counts over the numbers that an index has for rows are those over the numbers of the items there.
pub fn columns_count_as_numbers()
    ensures { ColumnsCountAsNumbers }
{}
