//! Why words give no command.

use std::alloc::AllocError;

/// Why words give no command.
#[derive(Clone, Copy, Debug, PartialEq, Eq)]
pub enum WordsFault {
    /// They ask for none.
    NotTaken,
    /// Want of memory.
    Memory,
}

impl From<AllocError> for WordsFault {
    ghost use Rattle.vss_words.specs.declared.fault.WordsFault.TheVariants.{Memory};
    ghost use Rattle.std.specs.Prelude.{◌≡◌};

    ghost from_gives = { λ _ fault. fault ≡ Memory };

    fn from(_refused: AllocError) -> WordsFault {
        WordsFault::Memory
    }
}
