//! The name of an instance.
ghost use Rattle.std.specs.Prelude.{◌≡◌, IfOk};

use std::alloc::AllocError;
use up_text::{Name, Text};

/// An instance by its job and its instance name, which is empty for a job without an `instance` stanza.
#[derive(Debug, Drop)]
pub struct Who {
    pub job: Name,
    pub instance: Text,
}

impl Who {
    pub fn copy(&self) -> Result<Self, AllocError>
        ensures { IfOk result (λ who. who ≡ self.now) }
    {
        let job = self.job.copy()?;
        let instance = self.instance.copy()?;
        Ok(Who { job, instance })
    }
}
