//! Why a call of a host failed.
ghost use Rattle.std.specs.Prelude.{◌≡◌};

use thiserror::Error;

/// The system refused a call of a host, or it ran out of memory. The host counted the fault.
#[derive(Clone, Copy, Debug, PartialEq, Eq, Error)]
#[error("HostFault")]
pub struct HostFault;

impl HostFault {
    /// The number of this refusal. Nothing prints it.
    pub fn number(self) -> u8
        ensures { result ≡ 60 }
    {
        60
    }
}
