//! How a program ends.
ghost use Rattle.std.specs.Prelude.{◌≡◌, ◌≢◌};
ghost use Rattle.std.specs.IoError.{error_kind};
ghost use Rattle.up_model.specs.ExitStatuses.{status_number};

use std::alloc::AllocError;
use std::io;
use std::io::ErrorKind;

/// The exit status of `initd` and `initctl` (initd(8) and initctl(8), EXIT STATUS).
#[derive(Clone, Copy, Debug, PartialEq, Eq)]
pub enum ExitStatus {
    /// Everything was done.
    Done,
    /// A job file is faulty, or a request failed.
    Failed,
    /// The words of the command line are wrong, or a step of a script is.
    Usage,
    /// Something can't be used, or is refused.
    Unusable,
    /// Out of memory.
    Memory,
}

/// The one place where out of memory becomes a status.
impl From<AllocError> for ExitStatus {
    ghost use Rattle.std.specs.Prelude.{◌≡◌};
    ghost use Rattle.up_model.specs.declared.exit_status.ExitStatus.TheVariants.{Memory};

    ghost from_gives = { λ _ status. status ≡ Memory };

    fn from(_: AllocError) -> ExitStatus {
        ExitStatus::Memory
    }
}

impl ExitStatus {
    /// The status of an error of the system: `Memory` if that is out of memory, otherwise `other`.
    pub fn of_error(error: &io::Error, other: ExitStatus) -> Self
        ensures memory { error_kind error.now ≡ ErrorKind.OutOfMemory → result ≡ ExitStatus.Memory }
        ensures other { error_kind error.now ≢ ErrorKind.OutOfMemory → result ≡ other }
    {
        match error.kind() {
            ErrorKind::OutOfMemory => ExitStatus::from(AllocError),
            _ => other,
        }
    }

    /// The number that is passed to the system.
    pub fn number(self) -> u8
        ensures { result ≡ status_number self }
    {
        match self {
            ExitStatus::Done => 0,
            ExitStatus::Failed => 1,
            ExitStatus::Usage => 2,
            ExitStatus::Unusable => 3,
            ExitStatus::Memory => 4,
        }
    }
}
