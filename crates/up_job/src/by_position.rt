//! Instances by their keys. Only `add_at` allocates.
ghost use Rattle.std.specs.Prelude.{◌≡◌, ◌<◌, ◌≤◌, length, map, OnOk, OnErr, IfOk, IfErr, option_map, IsSome, Some, None};
ghost use Rattle.std.specs.Option.{option_copied};
ghost use Rattle.std.specs.Borrow.{sem};
ghost use Rattle.up_job.specs.Alarms.{AllFrom};
ghost use Rattle.up_job.specs.Changes.{changed};
ghost use Rattle.up_job.specs.InstanceLists.{max_instances, name_of, named, new_instance, refusal};
ghost use Rattle.up_job.specs.JobLists.{changed_at, changed_in, instance_at, instances_at, job_of, key_of, position_at, removed_at, removed_in, with_made};
ghost use Rattle.up_job.specs.Lending.{stop_on_of, LendsStopOnAt};
ghost use Rattle.up_job.specs.Lists.{nth, with_at, position_in};
ghost use Rattle.up_job.specs.Unblocking.{AreCalm, AreQuiet, IsBlocked, unblocked, unblocked_at};

use crate::alarm::{alarm_after, earliest};
use crate::change::Change;
use crate::fault::JobFault;
use crate::instance::Instance;
use crate::instance_key::InstanceKey;
use crate::instances::{Instances, JobInstances};
use crate::unblocking::{calm_after, quiet_after};
use up_image::JobFile;
use up_marks::Trigger;
use up_model::EventId;
use up_text::Name;

fn at(jobs: &[JobInstances], key: InstanceKey) -> Option<&Instance>
    ensures { option_copied result ≡ instance_at key jobs.now }
{
    match jobs.get(key.job) {
        Some(job) => job.instances.get(key.at),
        None => None,
    }
}

fn change_in(job: &mut JobInstances, at: usize, its: Change)
    ensures { job.new ≡ changed_in at (changed its) job.old }
{
    job.instances.change_at(at, its);
}

#[tactic(auto, using(crate::proofs::Places::set_with_at, crate::proofs::Places::none_with_at))]
fn change_at(jobs: &mut Vec<JobInstances>, key: InstanceKey, its: Change)
    ensures { jobs.new.items ≡ changed_at key (changed its) jobs.old.items }
{
    if key.job < jobs.len() {
        change_in(&mut jobs[key.job], key.at, its);
    } else {
        drop(its);
    }
}

fn remove_in(job: &mut JobInstances, at: usize) -> Option<Instance>
    ensures taken { result ≡ nth at job.old.instances }
    ensures rest { job.new ≡ removed_in at job.old }
{
    job.instances.remove_at(at)
}

#[tactic(auto, using(crate::proofs::Places::set_with_at, crate::proofs::Places::none_with_at))]
fn remove_at(jobs: &mut Vec<JobInstances>, key: InstanceKey) -> Option<Instance>
    ensures taken { result ≡ instance_at key jobs.old.items }
    ensures rest { jobs.new.items ≡ removed_at key jobs.old.items }
{
    if key.job < jobs.len() {
        remove_in(&mut jobs[key.job], key.at)
    } else {
        None
    }
}

fn unblock_in(job: &mut JobInstances, at: usize, id: EventId)
    ensures { job.new ≡ changed_in at (unblocked id) job.old }
{
    job.instances.unblock_at(at, id);
}

#[tactic(auto, using(crate::proofs::Places::set_with_at, crate::proofs::Places::none_with_at))]
fn unblock_at(jobs: &mut Vec<JobInstances>, key: InstanceKey, id: EventId)
    ensures { jobs.new.items ≡ changed_at key (unblocked id) jobs.old.items }
{
    if key.job < jobs.len() {
        unblock_in(&mut jobs[key.job], key.at, id);
    }
}

// The index at which a search among the jobs before `calm` ends.
fn search_end(jobs: &[JobInstances], calm: usize) -> usize
    requires { AreCalm calm jobs.now }
    ensures calm { AreCalm result jobs.now }
    ensures within { result ≤ length jobs.now }
{
    if calm < jobs.len() { calm } else { jobs.len() }
}

// The index of the first job of which an instance may wait for an event. Only the jobs from `quiet` to `calm` are looked at.
fn quiet_from(jobs: &[JobInstances], quiet: usize, calm: usize) -> usize
    requires quiet { AreQuiet quiet jobs.now }
    requires calm { AreCalm calm jobs.now }
    ensures { AreQuiet result jobs.now }
{
    let end = search_end(jobs, calm);
    for job in quiet..end {
        if jobs[job].instances.may_wait() {
            return job;
        }
    }
    jobs.len()
}

// The index from which on no instance waits for an event: the first, if none does before the end either.
fn calm_from(jobs: &[JobInstances], quiet: usize, calm: usize) -> usize
    requires quiet { AreQuiet quiet jobs.now }
    requires calm { AreCalm calm jobs.now }
    ensures { AreCalm result jobs.now }
{
    if quiet < jobs.len() { calm } else { 0 }
}

// The first instance that waits for this event, which is one of the jobs from `quiet` to `calm`.
fn first_blocked(
    jobs: &[JobInstances],
    quiet: usize,
    calm: usize,
    id: EventId,
) -> Option<InstanceKey>
    requires quiet { AreQuiet quiet jobs.now }
    requires calm { AreCalm calm jobs.now }
    ensures { IsBlocked id jobs.now result }
{
    let end = search_end(jobs, calm);
    for job in quiet..end {
        if let Some(at) = jobs[job].instances.first_blocked(id) {
            return Some(InstanceKey { job, at });
        }
    }
    None
}

fn add_in(
    job: &mut JobInstances,
    name: &str,
    file: JobFile,
    stop_on: Trigger,
) -> Result<usize, JobFault>
    requires { named name.now job.old.instances ≡ None }
    ensures added { OnOk result (job.new ≡ with_made (new_instance name.now file stop_on) job.old) }
    ensures position { IfOk result (λ at. at ≡ position_in name.now (map name_of job.old.instances)) }
    ensures fits { OnOk result (length job.old.instances < max_instances) }
    ensures refused { IfErr result (λ fault. fault ≡ refusal job.old.instances) }
    ensures unchanged { OnErr result (job.new ≡ job.old) }
{
    job.instances.add(name, file, stop_on)
}

#[tactic(auto, using(crate::proofs::Places::set_with_at, crate::proofs::Places::nth_get))]
fn add_at(
    jobs: &mut Vec<JobInstances>,
    job: usize,
    name: &str,
    file: JobFile,
    stop_on: Trigger,
) -> Result<usize, JobFault>
    requires { named name.now (instances_at job jobs.old.items) ≡ None }
    ensures added { OnOk result (jobs.new.items
        ≡ with_at job (with_made (new_instance name.now file stop_on)) jobs.old.items) }
    ensures position { IfOk result (λ at. at ≡ position_at name.now job jobs.old.items) }
    ensures fits { OnOk result (length (instances_at job jobs.old.items) < max_instances) }
    ensures refused { IfErr result (λ fault. fault ≡ refusal (instances_at job jobs.old.items)) }
    ensures unchanged { OnErr result (jobs.new.items ≡ jobs.old.items) }
{
    if job < jobs.len() {
        add_in(&mut jobs[job], name, file, stop_on)
    } else {
        drop(stop_on);
        Err(JobFault::Memory)
    }
}

impl Instances {
    pub fn of_job(&self, job: usize) -> &[Instance]
        ensures { result.now ≡ instances_at job self.now }
    {
        match self.jobs.get(job) {
            Some(job) => job.instances.as_slice(),
            None => &[],
        }
    }

    pub fn count(&self, job: usize) -> usize
        ensures { result ≡ length (instances_at job self.now) }
    {
        match self.jobs.get(job) {
            Some(job) => job.instances.len(),
            None => 0,
        }
    }

    pub fn job_name(&self, job: usize) -> Option<&Name>
        ensures { option_copied result ≡ option_map job_of (nth job self.now) }
    {
        match self.jobs.get(job) {
            Some(job) => Some(&job.name),
            None => None,
        }
    }

    pub fn at(&self, key: InstanceKey) -> Option<&Instance>
        ensures { option_copied result ≡ instance_at key self.now }
    {
        at(self.jobs.as_slice(), key)
    }

    pub fn name_at(&self, key: InstanceKey) -> Option<&str>
        ensures { option_copied result ≡ option_map name_of (instance_at key self.now) }
    {
        match self.at(key) {
            Some(instance) => Some(instance.name.as_str()),
            None => None,
        }
    }

    pub fn position(&self, job: usize, name: &str) -> Option<InstanceKey>
        ensures { result ≡ key_of job name.now self.now }
    {
        match self.jobs.get(job) {
            Some(its) => match its.instances.position(name) {
                Some(at) => Some(InstanceKey { job, at }),
                None => None,
            },
            None => None,
        }
    }

    /// Changes an instance; does nothing if there is none.
    pub fn change_at(&mut self, key: InstanceKey, its: Change)
        ensures { self.new ≡ changed_at key (changed its) self.old }
    {
        self.alarm = alarm_after(&its, self.alarm);
        self.quiet = quiet_after(self.quiet, &its, key.job);
        self.calm = calm_after(self.calm, &its, key.job, self.jobs.len());
        change_at(&mut self.jobs, key, its);
    }

    /// A reading of the clock before which the timer kills nobody.
    pub fn alarm(&self) -> u128
        ensures { AllFrom result self.now }
    {
        let alarm = self.alarm;
        alarm
    }

    /// Sets the alarm to the earliest moment at which the timer kills somebody. Looks at each instance.
    pub fn set_alarm(&mut self)
        ensures { self.new ≡ self.old }
    {
        self.alarm = earliest(self.jobs.as_slice());
    }

    pub fn remove_at(&mut self, key: InstanceKey) -> Option<Instance>
        ensures taken { result ≡ instance_at key self.old }
        ensures rest { self.new ≡ removed_at key self.old }
    {
        remove_at(&mut self.jobs, key)
    }

    /// Makes a new instance; returns its index among those of its job. Refused like `add`, and with `Memory` if there is no such job.
    pub fn add_at(
        &mut self,
        job: usize,
        name: &str,
        file: JobFile,
        stop_on: Trigger,
    ) -> Result<usize, JobFault>
        requires { named name.now (instances_at job self.old) ≡ None }
        ensures added { OnOk result (self.new
            ≡ with_at job (with_made (new_instance name.now file stop_on)) self.old) }
        ensures position { IfOk result (λ at. at ≡ position_at name.now job self.old) }
        ensures fits { OnOk result (length (instances_at job self.old) < max_instances) }
        ensures refused { IfErr result (λ fault. fault ≡ refusal (instances_at job self.old)) }
        ensures unchanged { OnErr result (self.new ≡ self.old) }
    {
        add_at(&mut self.jobs, job, name, file, stop_on)
    }

    pub fn stop_on_mut(&mut self, key: InstanceKey) -> &mut Trigger
        requires { IsSome (instance_at key self.old) }
        ensures* writes_back { sem 𝓛 (LendsStopOnAt self.entry key result) }
        ensures value { Some result.now ≡ option_map stop_on_of (instance_at key self.old) }
    {
        let job = &mut self.jobs[key.job];
        job.instances.stop_on_mut(key.at)
    }

    /// Ends the wait of the first instance that waits for this event, and returns it; does nothing if none does.
    pub fn unblock(&mut self, event: EventId) -> Option<InstanceKey>
        ensures after { self.new ≡ unblocked_at event result self.old }
        ensures blocked { IsBlocked event self.old result }
    {
        self.quiet = quiet_from(self.jobs.as_slice(), self.quiet, self.calm);
        self.calm = calm_from(self.jobs.as_slice(), self.quiet, self.calm);
        match first_blocked(self.jobs.as_slice(), self.quiet, self.calm, event) {
            Some(key) => {
                unblock_at(&mut self.jobs, key, event);
                Some(key)
            }
            None => None,
        }
    }
}
