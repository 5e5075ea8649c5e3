//! Why a round is refused.
ghost use Rattle.std.specs.Prelude.{◌≡◌};
ghost use Rattle.up_daemon.specs.Refusals.{refusal_number};

use std::alloc::AllocError;
use thiserror::Error;

/// Why a daemon refuses a round.
#[derive(Clone, Copy, Debug, PartialEq, Eq, Error)]
pub enum DaemonError {
    /// The engine was down when the round began, or an earlier round was refused.
    #[error("Down")]
    Down,
    /// Out of memory. What the round did so far remains done.
    #[error("Memory")]
    Memory,
}

impl From<AllocError> for DaemonError {
    ghost use Rattle.std.specs.Prelude.{◌≡◌};
    ghost use Rattle.up_daemon.specs.declared.error.DaemonError.TheVariants.{Memory};

    ghost from_gives = { λ _ error. error ≡ Memory };

    fn from(_: AllocError) -> DaemonError {
        DaemonError::Memory
    }
}

impl DaemonError {
    /// The number of this refusal; its name is what it is printed as.
    pub fn number(self) -> u8
        ensures { result ≡ refusal_number self }
    {
        match self {
            DaemonError::Down => 41,
            DaemonError::Memory => 42,
        }
    }
}
