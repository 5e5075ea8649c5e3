//! Why a frame can't be read or written, and why words aren't a request.
ghost use Rattle.std.specs.Prelude.{◌≡◌};
ghost use Rattle.up_wire.specs.Fault.{number_of, wire_fault};

use std::alloc::{AllocError, AllocFailed};
use thiserror::Error;

/// The fault of a frame, after which a stream can't be read any further.
#[derive(Clone, Copy, Debug, PartialEq, Eq, Error)]
pub enum FrameFault {
    /// Its length exceeds the limit.
    #[error("the frame is too large")]
    TooLarge,
    /// Its payload has no meaning.
    #[error("the frame can't be read")]
    Malformed,
}

/// A fault of this crate.
#[derive(Clone, Copy, Debug, PartialEq, Eq, Error)]
pub enum WireFault {
    #[error("the frame is too large")]
    FrameTooLarge,
    #[error("the frame can't be read")]
    BadFrame,
    #[error("a word is no name or no KEY=VALUE")]
    BadWord,
    #[error("out of memory")]
    Memory,
}

impl WireFault {
    /// The number of the fault in a report.
    pub fn number(self) -> u8
        ensures { result ≡ number_of self }
    {
        match self {
            WireFault::FrameTooLarge => 50,
            WireFault::BadFrame => 51,
            WireFault::BadWord => 52,
            WireFault::Memory => 42,
        }
    }
}

impl From<FrameFault> for WireFault {
    ghost use Rattle.std.specs.Prelude.{◌≡◌};
    ghost use Rattle.up_wire.specs.Fault.{wire_fault};

    ghost from_gives = { λ fault e. e ≡ wire_fault fault };

    fn from(fault: FrameFault) -> Self {
        match fault {
            FrameFault::TooLarge => WireFault::FrameTooLarge,
            FrameFault::Malformed => WireFault::BadFrame,
        }
    }
}

impl From<AllocError> for WireFault {
    ghost use Rattle.std.specs.Prelude.{◌≡◌};
    ghost use Rattle.up_wire.specs.declared.fault.WireFault.TheVariants.{Memory};

    ghost from_gives = { λ _ e. e ≡ Memory };

    fn from(_error: AllocError) -> Self {
        WireFault::Memory
    }
}

impl<T: Drop> From<AllocFailed<T>> for WireFault {
    ghost use Rattle.std.specs.Prelude.{◌≡◌};
    ghost use Rattle.up_wire.specs.declared.fault.WireFault.TheVariants.{Memory};

    ghost from_gives = { λ _ e. e ≡ Memory };

    fn from(_error: AllocFailed<T>) -> Self {
        WireFault::Memory
    }
}
