//! The limits of a request.

/// The hits of a page.
pub const MOST_HITS: u32 = 500;

/// The place of a page's first hit and the number of its hits come to at most this.
pub(crate) const GREATEST_PAGE_END: u32 = 10_001;

/// The properties that are shown.
pub(crate) const MOST_PROPERTIES: usize = 64;

pub(crate) const MOST_REFINERS: usize = 16;

/// The bounds of a refiner.
pub(crate) const MOST_BOUNDS: usize = 64;

pub(crate) const MOST_SORTS: usize = 4;
