//! The leaves of a table, in the two orders in which they are looked up.
ghost use Rattle.std.specs.Prelude.{◌≡◌, ◌<◌, ℕ, Bool, IfOk, length, map, slice_index_or};
ghost use Rattle.up_conf.specs.declared.job.JobDef.{JobDef as JobDefValue};
ghost use Rattle.up_image.specs.Index.{named};
ghost use Rattle.up_marks.specs.Finding.{Finds};
ghost use Rattle.up_marks.specs.Naming.{naming_in, of_expression, side_of};
ghost use Rattle.up_value.specs.Values.{Bytes};

use crate::finder::Finder;
use crate::index::Index;
use std::alloc::{AllocError, Global};
use up_image::JobFile;

/// The leaves of all jobs: by the events that they name, and by the values that they want of them.
#[derive(Debug, Drop)]
pub struct Leaves {
    pub by_event: Index,
    pub by_value: Finder,
}

impl Leaves {
    /// The leaves of jobs, of which there may be any number.
    pub fn of(alloc: Global, files: &[JobFile]) -> Result<Self, AllocError>
        ensures leaves { IfOk result (λ leaves. (name : Bytes) (k : ℕ) (start : Bool) (job : JobDefValue)
            → k < length files.now → map (λ place. place.node) (of_expression k start (named name leaves.by_event))
            ≡ naming_in (side_of start (slice_index_or files.now k job)) name) }
        ensures finds { IfOk result (λ leaves. Finds leaves.by_value files.now) }
    {
        let by_event = Index::of(alloc, files)?;
        let by_value = Finder::of(alloc, files)?;
        Ok(Leaves { by_event, by_value })
    }
}
