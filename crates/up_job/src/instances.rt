//! The instances of all jobs.
ghost use Rattle.std.specs.Prelude.{◌≡◌, ◌<◌, [], ◌∷◌, length, map, IsSome, IfOk, IfErr, OnOk, OnErr, MatchResult, Some, None};
ghost use Rattle.std.specs.Option.{option_copied};
ghost use Rattle.up_job.specs.Changes.{changed};
ghost use Rattle.up_job.specs.InstanceLists.{max_instances, named, new_instance, refusal, with_change, with_instance, without, IsInstanceList};
ghost use Rattle.up_job.specs.JobLists.{file_name, job_of, new_job, instances_in, Changes};
ghost use Rattle.up_job.specs.Named as by_name;

use crate::change::Change;
use crate::fault::JobFault;
use crate::instance::{Instance, new_instance};
use crate::instance_list::{InstanceList, is_before};
use std::alloc::{AllocError, Global};
use std::marker::Model;
use up_image::JobFile;
use up_marks::Trigger;
use up_text::Name;

/// A job, and its instances in byte order of their names.
#[derive(Drop)]
pub struct JobInstances {
    pub name: Name,
    pub instances: InstanceList,
}

/// The instances of all jobs: for each job a list of them, in byte order of the jobs' names.
#[derive(Drop)]
pub struct Instances {
    pub(crate) jobs: Vec<JobInstances>,
    // The timer kills nobody before the clock reads this. It may be too early.
    pub(crate) alarm: u128,
    // No instance of the jobs before this index waits for an event. It may be too early.
    pub(crate) quiet: usize,
    // No instance of the jobs from this index on waits for an event. It may be too late. So only the jobs between the two are searched.
    pub(crate) calm: usize,
}

impl Model for Instances {
    ghost use Rattle.std.specs.Prelude.{List};
    ghost use Rattle.up_job.specs.declared.instances.JobInstances.{JobInstances};
    ghost use Rattle.up_job.specs.JobLists.{job_of};
    ghost use Rattle.up_job.specs.Alarms.{AllFrom};
    ghost use Rattle.up_job.specs.Named.{AreInOrder};
    ghost use Rattle.up_job.specs.Unblocking.{AreCalm, AreQuiet};
    ghost use Rattle.std.specs.Coded.{codes};
    ghost use Rattle.up_conf.specs.contracts.job.JobDef as job;

    ghost Value = { List JobInstances };

    ghost coded = { Prim.hlevel (codes, job.the_row.coded) };

    ghost view = { λ s. s.jobs.items };

    ghost invariant = { λ s. AreInOrder job_of s.jobs.items × AllFrom s.alarm s.jobs.items
        × AreQuiet s.quiet s.jobs.items × AreCalm s.calm s.jobs.items };
}

// The index at which a job belongs.
fn position(jobs: &[JobInstances], name: &Name) -> usize
    requires { by_name.AreInOrder job_of jobs.now }
    ensures { result ≡ by_name.position job_of name.now jobs.now }
{
    jobs.partition_point(|job| is_before(job.name.as_str(), name.as_str()))
}

/// The index of a job, or as an error the index at which it belongs.
pub(crate) fn place(jobs: &[JobInstances], name: &Name) -> Result<usize, usize>
    requires { by_name.AreInOrder job_of jobs.now }
    ensures place { MatchResult result (λ at. at ≡ by_name.position job_of name.now jobs.now)
        (λ at. at ≡ by_name.position job_of name.now jobs.now) }
    ensures within { IfOk result (λ at. at < length jobs.now) }
    ensures there { OnOk result (IsSome (by_name.named job_of name.now jobs.now)) }
    ensures absent { OnErr result (by_name.named job_of name.now jobs.now ≡ None) }
{
    let at = position(jobs, name);
    if at < jobs.len() && jobs[at].name.is(name) {
        Ok(at)
    } else {
        Err(at)
    }
}

fn empty_job(alloc: Global, name: &Name) -> Result<JobInstances, AllocError>
    ensures { IfOk result (λ job. job ≡ record { name = name.now; instances = [] }) }
{
    let name = name.copy()?;
    Ok(JobInstances {
        name,
        instances: InstanceList::new(alloc),
    })
}

fn empty_jobs(alloc: Global, jobs: &[JobFile]) -> Result<Vec<JobInstances>, AllocError>
    ensures { IfOk result (λ all. all.items ≡ map new_job jobs.now) }
{
    let mut all = Vec::new(alloc);
    for job in jobs {
        all.push(empty_job(alloc, &job.job().name)?)?;
    }
    Ok(all)
}

fn with_first(alloc: Global, name: Name, instance: Instance) -> Result<JobInstances, AllocError>
    ensures { IfOk result (λ job. job ≡ record { name = name; instances = instance ∷ [] }) }
{
    let instances = InstanceList::with(alloc, instance)?;
    Ok(JobInstances { name, instances })
}

fn first_of(
    alloc: Global,
    job: &Name,
    instance: &str,
    file: JobFile,
    stop_on: Trigger,
) -> Result<JobInstances, AllocError>
    ensures { IfOk result (λ its. its
        ≡ record { name = job.now; instances = new_instance instance.now file stop_on ∷ [] }) }
{
    let instance = new_instance(alloc, instance, file, stop_on)?;
    match job.copy() {
        Ok(name) => with_first(alloc, name, instance),
        Err(fault) => {
            drop(instance);
            Err(fault)
        }
    }
}

// Makes the first instance of a job; returns the index of the job.
fn add_first(
    jobs: &mut Vec<JobInstances>,
    job: &Name,
    instance: &str,
    file: JobFile,
    stop_on: Trigger,
) -> Result<usize, AllocError>
    requires order { by_name.AreInOrder job_of jobs.old.items }
    requires absent { by_name.named job_of job.now jobs.old.items ≡ None }
    ensures order { OnOk result (by_name.AreInOrder job_of jobs.new.items) }
    ensures added { OnOk result (Changes job.now
        (with_instance (new_instance instance.now file stop_on)) jobs.old.items jobs.new.items) }
    ensures unchanged { OnErr result (jobs.new.items ≡ jobs.old.items) }
{
    let its = first_of(*jobs.allocator(), job, instance, file, stop_on)?;
    let at = position(jobs.as_slice(), job);
    jobs.insert(at, its)?;
    Ok(at)
}

// Makes an instance of an existing job.
fn add_to(
    jobs: &mut Vec<JobInstances>,
    job: &Name,
    instance: &str,
    file: JobFile,
    stop_on: Trigger,
) -> Result<usize, JobFault>
    requires order { by_name.AreInOrder job_of jobs.old.items }
    requires there { IsSome (by_name.named job_of job.now jobs.old.items) }
    requires absent { named instance.now (instances_in job.now jobs.old.items) ≡ None }
    ensures order { by_name.AreInOrder job_of jobs.new.items }
    ensures added { OnOk result (Changes job.now
        (with_instance (new_instance instance.now file stop_on)) jobs.old.items jobs.new.items) }
    ensures fits { OnOk result (length (instances_in job.now jobs.old.items) < max_instances) }
    ensures refused { IfErr result (λ fault. fault ≡ refusal (instances_in job.now jobs.old.items)) }
    ensures unchanged { OnErr result (jobs.new.items ≡ jobs.old.items) }
{
    let at = position(jobs.as_slice(), job);
    jobs[at].instances.add(instance, file, stop_on)
}

fn take(jobs: &mut Vec<JobInstances>, job: &Name, instance: &str) -> Instance
    requires order { by_name.AreInOrder job_of jobs.old.items }
    requires there { IsSome (named instance.now (instances_in job.now jobs.old.items)) }
    ensures order { by_name.AreInOrder job_of jobs.new.items }
    ensures taken { named instance.now (instances_in job.now jobs.old.items) ≡ Some result }
    ensures rest { Changes job.now (without instance.now) jobs.old.items jobs.new.items }
{
    let at = position(jobs.as_slice(), job);
    jobs[at].instances.remove(instance)
}

fn change(jobs: &mut Vec<JobInstances>, job: &Name, instance: &str, its: Change)
    requires order { by_name.AreInOrder job_of jobs.old.items }
    requires there { IsSome (named instance.now (instances_in job.now jobs.old.items)) }
    ensures order { by_name.AreInOrder job_of jobs.new.items }
    ensures after { Changes job.now (with_change instance.now (changed its)) jobs.old.items jobs.new.items }
{
    let at = position(jobs.as_slice(), job);
    jobs[at].instances.change(instance, its);
}

impl Instances {
    pub fn new(alloc: Global) -> Self
        ensures { result ≡ [] }
    {
        Instances {
            jobs: Vec::new(alloc),
            alarm: u128::MAX,
            quiet: 0,
            calm: 0,
        }
    }

    /// These jobs without instances.
    pub fn of_jobs(alloc: Global, jobs: &[JobFile]) -> Result<Self, AllocError>
        requires { by_name.AreInOrder file_name jobs.now }
        ensures { IfOk result (λ instances. instances ≡ map new_job jobs.now) }
    {
        let jobs = empty_jobs(alloc, jobs)?;
        Ok(Instances {
            jobs,
            alarm: u128::MAX,
            quiet: 0,
            calm: 0,
        })
    }

    pub fn of(&self, job: &Name) -> &[Instance]
        ensures list { result.now ≡ instances_in job.now self.now }
        ensures instance_list { IsInstanceList result.now }
    {
        match place(self.jobs.as_slice(), job) {
            Ok(at) => self.jobs[at].instances.as_slice(),
            Err(_) => &[],
        }
    }

    pub fn find(&self, job: &Name, instance: &str) -> Option<&Instance>
        ensures { option_copied result ≡ named instance.now (instances_in job.now self.now) }
    {
        match place(self.jobs.as_slice(), job) {
            Ok(at) => self.jobs[at].instances.find(instance),
            Err(_) => None,
        }
    }

    /// Makes a new instance. Refused with `Full` if its job has 1,024, however many other jobs have, otherwise only out of memory; a
    /// refusal changes nothing.
    pub fn add(
        &mut self,
        job: &Name,
        instance: &str,
        file: JobFile,
        stop_on: Trigger,
    ) -> Result<(), JobFault>
        requires { named instance.now (instances_in job.now self.old) ≡ None }
        ensures added { OnOk result (Changes job.now
            (with_instance (new_instance instance.now file stop_on)) self.old self.new) }
        ensures fits { OnOk result (length (instances_in job.now self.old) < max_instances) }
        ensures refused { IfErr result (λ fault. fault ≡ refusal (instances_in job.now self.old)) }
        ensures unchanged { OnErr result (self.new ≡ self.old) }
    {
        self.alarm = 0;
        self.quiet = 0;
        self.calm = usize::MAX;
        match place(self.jobs.as_slice(), job) {
            Ok(_) => {
                add_to(&mut self.jobs, job, instance, file, stop_on)?;
                Ok(())
            }
            Err(_) => {
                add_first(&mut self.jobs, job, instance, file, stop_on)?;
                Ok(())
            }
        }
    }

    /// Changes an instance. Its name and all other instances stay.
    pub fn change(&mut self, job: &Name, instance: &str, its: Change)
        requires { IsSome (named instance.now (instances_in job.now self.old)) }
        ensures { Changes job.now (with_change instance.now (changed its)) self.old self.new }
    {
        self.alarm = 0;
        self.quiet = 0;
        self.calm = usize::MAX;
        change(&mut self.jobs, job, instance, its);
    }

    pub fn remove(&mut self, job: &Name, instance: &str) -> Instance
        requires { IsSome (named instance.now (instances_in job.now self.old)) }
        ensures taken { named instance.now (instances_in job.now self.old) ≡ Some result }
        ensures rest { Changes job.now (without instance.now) self.old self.new }
    {
        self.alarm = 0;
        self.quiet = 0;
        self.calm = usize::MAX;
        take(&mut self.jobs, job, instance)
    }
}
