//! Why bytes aren't read as a table, and why a table isn't written.
ghost use Rattle.std.specs.Prelude.{◌≡◌, codes};
ghost use Rattle.up_image.specs.ImageErrors.{number_of, name_of};

use std::alloc::AllocError;
use thiserror::Error;

/// Why bytes aren't read as a table, and why a table isn't written.
#[derive(Clone, Copy, Debug, PartialEq, Eq, Error)]
pub enum ImageError {
    /// The table has too many jobs, items in a list or nodes in an expression, or its image would have more than 16 MiB.
    #[error("ImageTooLarge")]
    ImageTooLarge,
    /// The bytes don't begin like an image.
    #[error("BadMagic")]
    BadMagic,
    /// The image has an unknown version.
    #[error("BadVersion")]
    BadVersion,
    /// Bytes are missing at the end.
    #[error("Truncated")]
    Truncated,
    /// There are more bytes than the length in the image's head.
    #[error("Trailing")]
    Trailing,
    /// The bytes aren't the image of a table, or no files define that table.
    #[error("BadTable")]
    BadTable,
    /// Out of memory.
    #[error("Memory")]
    Memory,
}

impl From<AllocError> for ImageError {
    ghost use Rattle.std.specs.Prelude.{◌≡◌};
    ghost use Rattle.up_image.specs.declared.image_error.ImageError.TheVariants.{Memory};

    ghost from_gives = { λ _ error. error ≡ Memory };

    fn from(_: AllocError) -> ImageError {
        ImageError::Memory
    }
}

impl ImageError {
    /// The number of this refusal in a report.
    pub fn number(self) -> u8
        ensures { result ≡ number_of self }
    {
        match self {
            ImageError::ImageTooLarge => 22,
            ImageError::BadMagic => 30,
            ImageError::BadVersion => 31,
            ImageError::Truncated => 32,
            ImageError::Trailing => 33,
            ImageError::BadTable => 34,
            ImageError::Memory => 42,
        }
    }

    /// The name that a report prints after the number.
    pub fn name(self) -> &'static str
        ensures { result.now ≡ name_of self }
    {
        match self {
            ImageError::ImageTooLarge => "ImageTooLarge",
            ImageError::BadMagic => "BadMagic",
            ImageError::BadVersion => "BadVersion",
            ImageError::Truncated => "Truncated",
            ImageError::Trailing => "Trailing",
            ImageError::BadTable => "BadTable",
            ImageError::Memory => "Memory",
        }
    }
}
