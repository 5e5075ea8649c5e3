//! Why an instance isn't made.
ghost use Rattle.std.specs.Prelude.{◌≡◌};
ghost use Rattle.up_job.specs.Faults.{number_of};

use std::alloc::AllocError;
use thiserror::Error;

/// Why an instance isn't made.
#[derive(Clone, Copy, Debug, PartialEq, Eq, Error)]
pub enum JobFault {
    /// Out of memory.
    #[error("Memory")]
    Memory,
    /// The job has the most instances that it may have.
    #[error("Full")]
    Full,
}

impl From<AllocError> for JobFault {
    ghost use Rattle.std.specs.Prelude.{◌≡◌};
    ghost use Rattle.up_job.specs.declared.fault.JobFault.TheVariants.{Memory};

    ghost from_gives = { λ _ fault. fault ≡ Memory };

    fn from(_: AllocError) -> JobFault {
        JobFault::Memory
    }
}

impl JobFault {
    /// The number of this refusal, which prints as its name.
    pub fn number(self) -> u8
        ensures { result ≡ number_of self }
    {
        match self {
            JobFault::Memory => 42,
            JobFault::Full => 43,
        }
    }
}
