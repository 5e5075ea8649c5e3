//! Events.
ghost use Rattle.std.specs.Prelude.{◌≡◌, IfOk};

use std::alloc::AllocError;
use up_text::{Env, Name};

/// An event: a name, and variables in order (init(5), "Event definition").
#[derive(Drop)]
pub struct Event {
    pub name: Name,
    pub vars: Env,
}

impl Event {
    pub fn copy(&self) -> Result<Self, AllocError>
        ensures { IfOk result (λ event. event ≡ self.now) }
    {
        let name = self.name.copy()?;
        let vars = self.vars.copy()?;
        Ok(Event { name, vars })
    }
}
