//! The variables that a job sets in its environment.
ghost use Rattle.std.specs.Prelude.{◌≡◌, IfOk};

use std::alloc::AllocError;
use up_text::Text;

/// A key that a job sets in the environment of its processes (init(5), `env`).
#[derive(Debug, Drop)]
pub struct Setting {
    pub key: Text,
    /// Its value; without one the key keeps init's own value.
    pub value: Option<Text>,
}

fn copy_value(value: &Option<Text>) -> Result<Option<Text>, AllocError>
    ensures { IfOk result (λ copied. copied ≡ value.now) }
{
    match value {
        Some(value) => Ok(Some(value.copy()?)),
        None => Ok(None),
    }
}

impl Setting {
    pub fn copy(&self) -> Result<Self, AllocError>
        ensures { IfOk result (λ copied. copied ≡ self.now) }
    {
        let key = self.key.copy()?;
        let value = copy_value(&self.value)?;
        Ok(Setting { key, value })
    }
}
