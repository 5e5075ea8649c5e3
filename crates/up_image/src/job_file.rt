//! A job file that several share.
ghost use Rattle.std.specs.Prelude.{◌≡◌, IfOk, false};
ghost use Rattle.up_conf.specs.Order.{in_order};
ghost use Rattle.up_image.specs.Index.{places_in};

use crate::index::{Place, sorted_stops};
use std::alloc::{AllocError, Global};
use std::marker::Model;
use std::rc::Rc;
use up_conf::JobDef;

// A job, and the leaves of its `stop on` in byte order of their events.
#[derive(Drop)]
struct Indexed {
    job: JobDef,
    stops: Vec<Place>,
}

/// A job file, shared by the jobs in force and the instances that were made by it. Contracts see the job.
#[derive(Drop)]
pub struct JobFile {
    shared: Rc<Indexed>,
}

impl Model for JobFile {
    ghost use Rattle.up_conf.specs.declared.job.JobDef.{JobDef};
    ghost use Rattle.up_conf.specs.contracts.job.JobDef as job;

    ghost Value = { JobDef };

    ghost coded = { job.the_row.coded };

    ghost view = { λ file. file.shared.value.job };

    ghost use Rattle.std.specs.Prelude.{◌≡◌, false};
    ghost use Rattle.up_conf.specs.Order.{in_order};
    ghost use Rattle.up_image.specs.Index.{places_in};

    ghost invariant = { λ file. file.shared.value.stops.items ≡ in_order (λ place. place.event) (places_in 0 false file.shared.value.job.stop_on) };
}

impl JobFile {
    pub fn new(alloc: Global, job: JobDef) -> Result<Self, AllocError>
        ensures { IfOk result (λ file. file ≡ job) }
    {
        match sorted_stops(alloc, &job) {
            Ok(stops) => {
                let shared = Rc::new(alloc, Indexed { job, stops })?;
                Ok(JobFile { shared })
            }
            Err(refused) => {
                drop(job);
                Err(refused)
            }
        }
    }

    /// The same file, for one more owner. Allocates nothing, and fails only with more owners than memory has room for.
    pub fn share(&self) -> Result<Self, AllocError>
        ensures { IfOk result (λ file. file ≡ self.now) }
    {
        let shared = self.shared.clone()?;
        Ok(JobFile { shared })
    }

    pub fn job(&self) -> &JobDef
        ensures { result.now ≡ self.now }
    {
        &self.shared.as_ref().job
    }

    /// The leaves of its `stop on` in byte order of their events; those of one event from left to right. Their job is 0.
    pub fn stops(&self) -> &[Place]
        ensures { result.now ≡ in_order (λ place. place.event) (places_in 0 false self.now.stop_on) }
    {
        self.shared.as_ref().stops.as_slice()
    }
}
