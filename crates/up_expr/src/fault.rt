//! Why an expression is rejected.
ghost use Rattle.std.specs.Prelude.{◌≡◌};
ghost use Rattle.up_expr.specs.Fault.{number_of};

use std::alloc::AllocError;
use thiserror::Error;

/// Why an expression is rejected.
#[derive(Clone, Copy, Debug, PartialEq, Eq, Error)]
pub enum ExprFault {
    /// A name, an operator or a parenthesis is missing, or is where none is allowed.
    #[error("BadExpression")]
    BadExpression,
    /// A positional value comes after a keyed one.
    #[error("ValueBeforeKey")]
    ValueBeforeKey,
    /// An event's name contains a byte that isn't allowed.
    #[error("BadName")]
    BadName,
    /// A value isn't a supported pattern.
    #[error("BadPattern")]
    BadPattern,
    /// An expansion isn't well formed.
    #[error("BadExpansion")]
    BadExpansion,
    /// The expression has more than 4,095 nodes, more than 256 parentheses open at once, or a leaf of more than 65,535 values.
    #[error("TooLarge")]
    TooLarge,
    /// Out of memory.
    #[error("Memory")]
    Memory,
}

impl From<AllocError> for ExprFault {
    ghost use Rattle.std.specs.Prelude.{◌≡◌};
    ghost use Rattle.up_expr.specs.declared.fault.ExprFault.TheVariants.{Memory};

    ghost from_gives = { λ _ fault. fault ≡ Memory };

    fn from(_: AllocError) -> ExprFault {
        ExprFault::Memory
    }
}

impl ExprFault {
    /// The number of this fault in a report; it is printed by its name.
    pub fn number(self) -> u8
        ensures { result ≡ number_of self }
    {
        match self {
            ExprFault::BadExpression => 8,
            ExprFault::ValueBeforeKey => 9,
            ExprFault::BadName => 12,
            ExprFault::BadPattern => 13,
            ExprFault::BadExpansion => 14,
            ExprFault::TooLarge => 16,
            ExprFault::Memory => 42,
        }
    }
}
