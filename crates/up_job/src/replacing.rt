//! Instances when other jobs come into force.
ghost use Rattle.std.specs.Prelude.{◌≡◌, [], map, IfOk, OnOk};
ghost use Rattle.up_job.specs.JobLists.{file_name, instances_in, job_of, kept_job, Changes};
ghost use Rattle.up_job.specs.Named as by_name;

use crate::instance_list::InstanceList;
use crate::instances::{Instances, JobInstances, place};
use std::alloc::{AllocError, Global};
use up_image::JobFile;
use up_text::Name;

// Takes out the instances of the job with this name, which is left without any.
fn take_list(alloc: Global, jobs: &mut Vec<JobInstances>, name: &Name) -> InstanceList
    requires { by_name.AreInOrder job_of jobs.old.items }
    ensures order { by_name.AreInOrder job_of jobs.new.items }
    ensures taken { result ≡ instances_in name.now jobs.old.items }
    ensures rest { Changes name.now (λ its. []) jobs.old.items jobs.new.items }
{
    let none = InstanceList::new(alloc);
    match place(jobs.as_slice(), name) {
        Ok(at) => std::mem::replace(&mut jobs[at].instances, none),
        Err(_) => none,
    }
}

// These jobs with the instances of the old ones.
fn taken(
    alloc: Global,
    olds: &mut Vec<JobInstances>,
    jobs: &[JobFile],
) -> Result<Vec<JobInstances>, AllocError>
    requires order { by_name.AreInOrder job_of olds.old.items }
    requires names { by_name.AreInOrder file_name jobs.now }
    ensures order { by_name.AreInOrder job_of olds.new.items }
    ensures all { IfOk result (λ all. all.items ≡ map (kept_job olds.old.items) jobs.now) }
{
    let mut all = Vec::with_capacity(alloc, jobs.len())?;
    for job in jobs {
        let name = job.job().name.copy()?;
        let instances = take_list(alloc, olds, &name);
        all.push(JobInstances { name, instances })?;
    }
    Ok(all)
}

impl Instances {
    /// Puts these jobs, with their instances, in place of those before. Out of memory, some instances may be lost.
    pub fn replace(&mut self, alloc: Global, jobs: &[JobFile]) -> Result<(), AllocError>
        requires { by_name.AreInOrder file_name jobs.now }
        ensures { OnOk result (self.new ≡ map (kept_job self.old) jobs.now) }
    {
        self.alarm = 0;
        self.quiet = 0;
        self.calm = usize::MAX;
        let kept = taken(alloc, &mut self.jobs, jobs)?;
        self.jobs = kept;
        Ok(())
    }
}
