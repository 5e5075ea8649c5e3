//! The inputs that a round fed to the engine, and the engine's outputs.
ghost use Rattle.std.specs.Prelude.{◌≡◌, ◌++◌, ◌∷◌, [], OnOk};

use std::alloc::{AllocError, Global};
use up_model::{Input, Output};
use up_text::Items;

/// The outcome of a round: the inputs that the engine was fed, and the outputs for each, none if the input wasn't expected.
#[derive(Drop)]
pub struct Round {
    pub fed: Items<Input>,
    pub gave: Items<Items<Output>>,
}

/// The log of a round so far.
#[derive(Drop)]
pub(crate) struct Log {
    pub(crate) fed: Vec<Input>,
    pub(crate) gave: Vec<Items<Output>>,
}

impl Log {
    pub(crate) fn new(alloc: Global) -> Self
        ensures fed { result.fed.items ≡ [] }
        ensures gave { result.gave.items ≡ [] }
    {
        Log {
            fed: Vec::new(alloc),
            gave: Vec::new(alloc),
        }
    }

    pub(crate) fn add(&mut self, given: Input, outputs: Vec<Output>) -> Result<(), AllocError>
        ensures fed { OnOk result (self.new.fed.items ≡ self.old.fed.items ++ given ∷ []) }
        ensures gave { OnOk result (self.new.gave.items ≡ self.old.gave.items ++ outputs.items ∷ []) }
    {
        self.fed.push(given)?;
        self.gave.push(Items::new(outputs))?;
        Ok(())
    }

    pub(crate) fn into_round(self) -> Round
        ensures fed { result.fed ≡ self.fed.items }
        ensures gave { result.gave ≡ self.gave.items }
    {
        let Log { fed, gave } = self;
        Round {
            fed: Items::new(fed),
            gave: Items::new(gave),
        }
    }
}
