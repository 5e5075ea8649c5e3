//! Why a call of a door failed.
ghost use Rattle.std.specs.Prelude.{◌≡◌};

use thiserror::Error;

/// The system refused a call of a door, or it ran out of memory. The door counted the fault.
#[derive(Clone, Copy, Debug, PartialEq, Eq, Error)]
#[error("DoorFault")]
pub struct DoorFault;

impl DoorFault {
    /// The number of this refusal. Nothing prints it.
    pub fn number(self) -> u8
        ensures { result ≡ 62 }
    {
        62
    }
}
