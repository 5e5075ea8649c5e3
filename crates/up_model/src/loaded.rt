//! The outcome of reading the configuration again.
ghost use Rattle.std.specs.Prelude.{◌≡◌, IfOk};

use std::alloc::{AllocError, Global};
use up_image::Table;

/// The outcome of reading the configuration again (initctl(8), `reload-configuration`).
#[derive(Drop)]
pub enum Loaded {
    /// The jobs that were read.
    Files(Table),
    /// The number of the reason why the jobs are refused.
    Refused(u8),
    /// The jobs couldn't be read.
    Unread,
}

impl Loaded {
    pub fn copy(&self, alloc: Global) -> Result<Self, AllocError>
        ensures { IfOk result (λ loaded. loaded ≡ self.now) }
    {
        match self {
            Loaded::Files(table) => {
                let table = table.copy(alloc)?;
                Ok(Loaded::Files(table))
            }
            Loaded::Refused(number) => Ok(Loaded::Refused(*number)),
            Loaded::Unread => Ok(Loaded::Unread),
        }
    }
}
