//! Why a file isn't read.
ghost use Rattle.std.specs.Prelude.{◌≡◌, codes};
ghost use Rattle.up_stanza.specs.FaultCodes.{number_of, name_of};

use std::alloc::AllocError;
use thiserror::Error;

/// Why a file isn't read.
#[derive(Clone, Copy, Debug, PartialEq, Eq, Error)]
pub enum FaultCode {
    /// A stanza is unknown.
    #[error("UnknownStanza")]
    UnknownStanza,
    /// A stanza is known but not supported.
    #[error("NotInProfile")]
    NotInProfile,
    /// A token is missing.
    #[error("ExpectedToken")]
    ExpectedToken,
    /// There is a token too many.
    #[error("UnexpectedToken")]
    UnexpectedToken,
    /// A quote is still open at the end of the text.
    #[error("UnterminatedQuote")]
    UnterminatedQuote,
    /// A block is still open at the end of the text.
    #[error("UnterminatedBlock")]
    UnterminatedBlock,
    /// The text ends with a backslash.
    #[error("TrailingBackslash")]
    TrailingBackslash,
    /// An expression of events isn't well formed.
    #[error("BadExpression")]
    BadExpression,
    /// A positional value comes after a keyed one.
    #[error("ValueBeforeKey")]
    ValueBeforeKey,
    /// A number isn't well formed or is out of range.
    #[error("BadNumber")]
    BadNumber,
    /// A signal is unknown.
    #[error("BadSignal")]
    BadSignal,
    /// A name contains a byte that isn't allowed.
    #[error("BadName")]
    BadName,
    /// A pattern isn't well formed.
    #[error("BadPattern")]
    BadPattern,
    /// An expansion isn't well formed.
    #[error("BadExpansion")]
    BadExpansion,
    /// The bytes aren't text.
    #[error("NotText")]
    NotText,
    /// The file is too large.
    #[error("TooLarge")]
    TooLarge,
    /// Out of memory. This isn't a fault of the file.
    #[error("Memory")]
    Memory,
}

impl FaultCode {
    /// The number of this code in a report.
    pub fn number(self) -> u8
        ensures { result ≡ number_of self }
    {
        match self {
            FaultCode::UnknownStanza => 1,
            FaultCode::NotInProfile => 2,
            FaultCode::ExpectedToken => 3,
            FaultCode::UnexpectedToken => 4,
            FaultCode::UnterminatedQuote => 5,
            FaultCode::UnterminatedBlock => 6,
            FaultCode::TrailingBackslash => 7,
            FaultCode::BadExpression => 8,
            FaultCode::ValueBeforeKey => 9,
            FaultCode::BadNumber => 10,
            FaultCode::BadSignal => 11,
            FaultCode::BadName => 12,
            FaultCode::BadPattern => 13,
            FaultCode::BadExpansion => 14,
            FaultCode::NotText => 15,
            FaultCode::TooLarge => 16,
            FaultCode::Memory => 42,
        }
    }

    /// The name that a report prints after the number.
    pub fn name(self) -> &'static str
        ensures { result.now ≡ name_of self }
    {
        match self {
            FaultCode::UnknownStanza => "UnknownStanza",
            FaultCode::NotInProfile => "NotInProfile",
            FaultCode::ExpectedToken => "ExpectedToken",
            FaultCode::UnexpectedToken => "UnexpectedToken",
            FaultCode::UnterminatedQuote => "UnterminatedQuote",
            FaultCode::UnterminatedBlock => "UnterminatedBlock",
            FaultCode::TrailingBackslash => "TrailingBackslash",
            FaultCode::BadExpression => "BadExpression",
            FaultCode::ValueBeforeKey => "ValueBeforeKey",
            FaultCode::BadNumber => "BadNumber",
            FaultCode::BadSignal => "BadSignal",
            FaultCode::BadName => "BadName",
            FaultCode::BadPattern => "BadPattern",
            FaultCode::BadExpansion => "BadExpansion",
            FaultCode::NotText => "NotText",
            FaultCode::TooLarge => "TooLarge",
            FaultCode::Memory => "Memory",
        }
    }
}

/// Why a file isn't read, and the line of the fault, counted from 1.
#[derive(Clone, Copy, Debug, Error)]
#[error("{line}: {code}")]
pub struct ConfFault {
    pub line: u32,
    pub code: FaultCode,
}

impl From<AllocError> for ConfFault {
    ghost use Rattle.std.specs.Prelude.{◌≡◌};
    ghost use Rattle.up_stanza.specs.declared.fault.FaultCode.TheVariants.{Memory};

    ghost from_gives = { λ _ fault. fault.code ≡ Memory };

    fn from(_: AllocError) -> ConfFault {
        ConfFault {
            line: 1,
            code: FaultCode::Memory,
        }
    }
}
