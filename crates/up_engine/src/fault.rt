//! Why a step is refused.
ghost use Rattle.std.specs.Prelude.{◌≡◌};
ghost use Rattle.up_engine.specs.Faults.{number_of};

use std::alloc::AllocError;
use thiserror::Error;

/// Why an engine refuses a step or a run.
#[derive(Clone, Copy, Debug, PartialEq, Eq, Error)]
pub enum StepError {
    /// The answer for a process that isn't ordered and unanswered, or the end of one that doesn't live. Nothing changed.
    #[error("NotExpected")]
    NotExpected,
    /// An earlier step ran out of memory midway.
    #[error("Down")]
    Down,
    /// Out of memory.
    #[error("Memory")]
    Memory,
}

impl From<AllocError> for StepError {
    ghost use Rattle.std.specs.Prelude.{◌≡◌};
    ghost use Rattle.up_engine.specs.declared.fault.StepError.TheVariants.{Memory};

    ghost from_gives = { λ _ fault. fault ≡ Memory };

    fn from(_: AllocError) -> StepError {
        StepError::Memory
    }
}

impl StepError {
    /// The number of this refusal; its name is what it is printed as.
    pub fn number(self) -> u8
        ensures { result ≡ number_of self }
    {
        match self {
            StepError::NotExpected => 40,
            StepError::Down => 41,
            StepError::Memory => 42,
        }
    }
}
