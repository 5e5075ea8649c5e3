//! Which events may stop instances.
ghost use Rattle.std.specs.Prelude.{◌≡◌, ◌++◌, IfOk, OnOk};
ghost use Rattle.up_job.specs.JobLists.{stops_of, stop_places};
ghost use Rattle.up_marks.specs.Naming.{Rising};

use crate::instance::Instance;
use crate::instances::{Instances, JobInstances};
use std::alloc::{AllocError, Global};
use up_image::{Place, add_stops};

// Appends the leaves of the `stop on` of these instances, with `number` as their job.
fn add_stops_of(
    places: &mut Vec<Place>,
    number: usize,
    instances: &[Instance],
) -> Result<(), AllocError>
    ensures { OnOk result (places.new.items ≡ places.old.items ++ stops_of number instances.now) }
{
    for instance in instances {
        add_stops(places, number, instance.file.job())?;
    }
    Ok(())
}

fn stop_places(alloc: Global, jobs: &[JobInstances]) -> Result<Vec<Place>, AllocError>
    ensures { IfOk result (λ places. places.items ≡ stop_places 0 jobs.now) }
{
    let mut places = Vec::new(alloc);
    for (number, job) in jobs.iter().enumerate() {
        add_stops_of(&mut places, number, job.instances.as_slice())?;
    }
    Ok(places)
}

impl Instances {
    /// The leaves of the `stop on` of each instance, from its own file, with the index of its job.
    pub fn stop_places(&self, alloc: Global) -> Result<Vec<Place>, AllocError>
        ensures places { IfOk result (λ places. places.items ≡ stop_places 0 self.now) }
        ensures order { IfOk result (λ places. Rising 0 places.items) }
    {
        stop_places(alloc, self.jobs.as_slice())
    }
}
