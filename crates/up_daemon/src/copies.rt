//! Copies of outputs, which are carried out while the round keeps its own.
ghost use Rattle.std.specs.Prelude.{◌≡◌, ◌++◌, IfOk, OnOk, reverse};

use std::alloc::{AllocError, Global};
use up_model::Output;

fn copies(alloc: Global, outputs: &[Output]) -> Result<Vec<Output>, AllocError>
    ensures { IfOk result (λ copied. copied.items ≡ outputs.now) }
{
    let mut copied: Vec<Output> = Vec::new(alloc);
    for output in outputs {
        copied.push(output.copy(alloc)?)?;
    }
    Ok(copied)
}

/// Pushes copies of the outputs on a stack, so that the first is the next to be taken.
#[tactic(auto, using(crate::proofs::Stacks::reverse_pushed))]
pub(crate) fn push_copies(
    alloc: Global,
    outputs: &[Output],
    stack: &mut Vec<Output>,
) -> Result<(), AllocError>
    ensures { OnOk result (reverse stack.new.items ≡ outputs.now ++ reverse stack.old.items) }
{
    let mut copied = copies(alloc, outputs)?;
    copied.reverse();
    stack.append(&mut copied)?;
    Ok(())
}
