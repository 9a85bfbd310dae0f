//! Why a request isn't answered, and why a corpus isn't loaded.

use sq_base::QueryFault;
use std::alloc::AllocError;
use thiserror::Error;

/// Why a request isn't answered. The first that holds, in this order; want of memory may come in the place of any.
#[derive(Clone, Copy, Debug, PartialEq, Eq)]
pub enum Refused {
    /// No caller has the name.
    UnknownCaller,
    /// The text's first fault.
    Query(QueryFault),
    /// The first refiner, counted from 0, whose name is no refinable property.
    UnknownRefiner(u32),
    /// The first sort, counted from 0, whose name is neither `Rank` nor a property of whole numbers or of moments.
    UnknownSort(u32),
    NoMemory,
}

impl From<AllocError> for Refused {
    ghost use Rattle.std.specs.Prelude.{◌≡◌};
    ghost use Rattle.sq_engine.specs.declared.refused.Refused.TheVariants.{NoMemory};

    ghost from_gives = { λ _ refused. refused ≡ NoMemory };

    fn from(_error: AllocError) -> Refused {
        Refused::NoMemory
    }
}

/// Why a corpus isn't loaded.
#[derive(Clone, Copy, Debug, PartialEq, Eq, Drop, Error)]
pub enum LoadFault {
    #[error("the corpus can't be read")]
    ReadFault,
    #[error("the corpus has more than 67,108,864 bytes")]
    TooLong,
    /// The first faulty line, counted from 1, and its code.
    #[error("corpus fault {code} line {line}")]
    Corpus { code: u16, line: u32 },
    #[error("out of memory")]
    NoMemory,
}
