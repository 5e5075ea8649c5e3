//! Why a folder isn't compiled.
ghost use Rattle.std.specs.Prelude.{◌≡◌, codes};
ghost use Rattle.up_image.specs.Refusals.{number_of, name_of};

use std::alloc::AllocError;
use thiserror::Error;

/// Why a folder isn't compiled.
#[derive(Clone, Copy, Debug, PartialEq, Eq, Error)]
pub enum CompileError {
    /// There are more jobs than a table may have.
    #[error("TooManyJobs")]
    TooManyJobs,
    /// Two files define the same job.
    #[error("SameName")]
    SameName,
    /// The image of the jobs would have more than 16 MiB.
    #[error("ImageTooLarge")]
    ImageTooLarge,
    /// Out of memory.
    #[error("Memory")]
    Memory,
}

impl From<AllocError> for CompileError {
    ghost use Rattle.std.specs.Prelude.{◌≡◌};
    ghost use Rattle.up_image.specs.declared.refusal.CompileError.TheVariants.{Memory};

    ghost from_gives = { λ _ error. error ≡ Memory };

    fn from(_: AllocError) -> CompileError {
        CompileError::Memory
    }
}

impl CompileError {
    /// The number of this refusal in a report.
    pub fn number(self) -> u8
        ensures { result ≡ number_of self }
    {
        match self {
            CompileError::TooManyJobs => 20,
            CompileError::SameName => 21,
            CompileError::ImageTooLarge => 22,
            CompileError::Memory => 42,
        }
    }

    /// The name that a report prints after the number.
    pub fn name(self) -> &'static str
        ensures { result.now ≡ name_of self }
    {
        match self {
            CompileError::TooManyJobs => "TooManyJobs",
            CompileError::SameName => "SameName",
            CompileError::ImageTooLarge => "ImageTooLarge",
            CompileError::Memory => "Memory",
        }
    }
}
