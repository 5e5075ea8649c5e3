//! Why a call of a source failed.
ghost use Rattle.std.specs.Prelude.{◌≡◌};

use thiserror::Error;

/// The configuration couldn't be read, or it ran out of memory. The source counted the fault.
#[derive(Clone, Copy, Debug, PartialEq, Eq, Error)]
#[error("SourceFault")]
pub struct SourceFault;

impl SourceFault {
    /// The number of this refusal. Nothing prints it.
    pub fn number(self) -> u8
        ensures { result ≡ 63 }
    {
        63
    }
}
