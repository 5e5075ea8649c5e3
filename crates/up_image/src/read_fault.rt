//! Why the content of an image isn't read.

use std::alloc::AllocError;
use thiserror::Error;

/// Why the content of an image isn't read.
#[derive(Clone, Copy, Debug, Error)]
pub(crate) enum ReadFault {
    /// No image has such bytes there.
    #[error("BadTable")]
    BadTable,
    /// Out of memory.
    #[error("Memory")]
    Memory,
}

impl From<AllocError> for ReadFault {
    ghost use Rattle.std.specs.Prelude.{◌≡◌};
    ghost use Rattle.up_image.specs.declared.read_fault.ReadFault.TheVariants.{Memory};

    ghost from_gives = { λ _ read_fault. read_fault ≡ Memory };

    fn from(_: AllocError) -> ReadFault {
        ReadFault::Memory
    }
}
