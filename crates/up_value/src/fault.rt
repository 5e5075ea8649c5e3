//! Why a text is rejected.
ghost use Rattle.std.specs.Prelude.{◌≡◌};
ghost use Rattle.up_value.specs.Fault.{number_of};

use std::alloc::AllocError;
use thiserror::Error;

/// Why a text, a name, an environment or a token is rejected.
#[derive(Clone, Copy, Debug, PartialEq, Eq, Error)]
pub enum TextFault {
    /// A quote is still open at the end of the text.
    #[error("UnterminatedQuote")]
    UnterminatedQuote,
    /// The text ends with a backslash.
    #[error("TrailingBackslash")]
    TrailingBackslash,
    /// A name, a key or a value contains a byte that isn't allowed.
    #[error("BadName")]
    BadName,
    /// An expansion isn't well formed.
    #[error("BadExpansion")]
    BadExpansion,
    /// Out of memory.
    #[error("Memory")]
    Memory,
}

impl From<AllocError> for TextFault {
    ghost use Rattle.std.specs.Prelude.{◌≡◌};
    ghost use Rattle.up_value.specs.declared.fault.TextFault.TheVariants.{Memory};

    ghost from_gives = { λ _ fault. fault ≡ Memory };

    fn from(_: AllocError) -> TextFault {
        TextFault::Memory
    }
}

impl TextFault {
    /// The number of this fault in a report; it is printed by its name.
    pub fn number(self) -> u8
        ensures { result ≡ number_of self }
    {
        match self {
            TextFault::UnterminatedQuote => 5,
            TextFault::TrailingBackslash => 7,
            TextFault::BadName => 12,
            TextFault::BadExpansion => 14,
            TextFault::Memory => 42,
        }
    }
}
