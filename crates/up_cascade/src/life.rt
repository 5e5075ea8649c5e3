//! Which processes a job has.
ghost use Rattle.std.specs.Prelude.{◌≡◌};
ghost use Rattle.up_model.specs.Moves as model;

use up_book::action_of;
use up_model::{JobDef, Process};

pub(crate) fn has_process(job: &JobDef, process: Process) -> bool
    ensures { result ≡ model.has_process job.now process }
{
    action_of(job, process).is_some()
}
