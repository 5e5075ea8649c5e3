//! The command or script that a process runs.
ghost use Rattle.std.specs.Prelude.{◌≡◌, IfOk};

use std::alloc::{AllocError, Global};
use up_text::{Items, Text, copy_texts};

/// The command or script that a process runs (init(5), `exec` and `script`).
#[derive(Debug, Drop)]
pub enum Action {
    /// These words, the first of which names the program.
    Words(Items<Text>),
    /// The argument of the shell: `/bin/sh -e -c TEXT`.
    Shell(Text),
}

impl Action {
    pub fn copy(&self, alloc: Global) -> Result<Self, AllocError>
        ensures { IfOk result (λ copied. copied ≡ self.now) }
    {
        match self {
            Action::Words(words) => {
                let words = copy_texts(alloc, words.as_slice())?;
                Ok(Action::Words(words))
            }
            Action::Shell(text) => {
                let text = text.copy()?;
                Ok(Action::Shell(text))
            }
        }
    }
}
