//! The versions of an image.
ghost use Rattle.std.specs.Prelude.{◌≡◌};
ghost use Rattle.up_image.specs.Versions.{version_number, version_of};

/// A version of the format.
#[derive(Clone, Copy, Debug)]
pub enum Version {
    /// Without reload signals: each job has HUP. It is read, and no longer written.
    One,
    /// With the reload signal of each job.
    Two,
}

impl Version {
    pub(crate) fn number(self) -> u16
        ensures { result ≡ version_number self }
    {
        match self {
            Version::One => 1,
            Version::Two => 2,
        }
    }
}

pub(crate) fn version_of(number: u16) -> Option<Version>
    ensures { result ≡ version_of number }
{
    match number {
        1 => Some(Version::One),
        2 => Some(Version::Two),
        _ => None,
    }
}
