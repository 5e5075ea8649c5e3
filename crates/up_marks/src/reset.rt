//! Marks of nodes none of which is true.
ghost use Rattle.std.specs.Prelude.{◌≡◌, IfOk, length, replicate};
ghost use Rattle.up_marks.specs.Marking.{unset};

use crate::mark::Mark;
use std::alloc::{AllocError, Global};

/// `count` marks of nodes that aren't true.
pub(crate) fn unset_marks(alloc: Global, count: usize) -> Result<Vec<Mark>, AllocError>
    ensures { IfOk result (λ marks. marks.items ≡ replicate count unset) }
{
    let mark = Mark {
        holds: false,
        kept: None,
    };
    let marks = vec![in alloc; mark; count]?;
    Ok(marks)
}

fn reset_marks(marks: &mut [Mark])
    ensures { marks.new ≡ replicate (length marks.old) unset }
{
    marks.fill(Mark {
        holds: false,
        kept: None,
    });
}

#[tactic(auto, using(crate::proofs::Markings::written))]
pub(crate) fn reset_all(marks: &mut Vec<Mark>)
    ensures { marks.new.items ≡ replicate (length marks.old.items) unset }
{
    reset_marks(marks.as_mut_slice());
}
