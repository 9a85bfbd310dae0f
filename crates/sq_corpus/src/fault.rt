ghost use Rattle.std.specs.Prelude.{◌≡◌};

use std::alloc::AllocError;

/// Why a text is no corpus.
#[derive(Clone, Copy, Debug, PartialEq, Eq, Drop)]
pub enum CorpusFault {
    /// The lowest code, 601 to 608, of the first faulty line, and its number from 1.
    Line { code: u16, line: u32 },
    NoMemory,
}

/// Why a line is not taken.
#[derive(Clone, Copy, Debug, PartialEq, Eq, Drop)]
pub(crate) enum Refusal {
    Code(u16),
    Memory,
}

impl From<AllocError> for Refusal {
    ghost use Rattle.sq_corpus.specs.declared.fault.Refusal.TheVariants.{Memory};

    ghost from_gives = { λ _ e. e ≡ Memory };

    fn from(_: AllocError) -> Self {
        Refusal::Memory
    }
}
