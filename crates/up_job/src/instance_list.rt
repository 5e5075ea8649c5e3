//! The instances of one job.
ghost use Rattle.std.specs.Prelude.{◌≡◌, ◌<◌, [], ◌∷◌, false, length, map, option_map, IsSome, IfOk, IfErr, OnOk, OnErr, MatchResult, Some, None};
ghost use Rattle.std.specs.Option.{option_copied};
ghost use Rattle.up_conf.specs.Order.{is_below};
ghost use Rattle.std.specs.Borrow.{sem};
ghost use Rattle.up_job.specs.Changes.{changed};
ghost use Rattle.up_job.specs.InstanceLists.{max_instances, name_of, named, new_instance, refusal, with_change, with_instance, without, IsInstanceList};
ghost use Rattle.up_job.specs.Lists.{nth, position_in, with_at, without_at};
ghost use Rattle.up_job.specs.Lending.{stop_on_of, LendsStopOn};
ghost use Rattle.up_job.specs.Named as by_name;
ghost use Rattle.up_job.specs.Unblocking.{blocked_from, unblocked};
ghost use Rattle.up_job.specs.Waiting.{any_waits};

use crate::change::{Change, apply};
use crate::fault::JobFault;
use crate::instance::{Instance, new_instance};
use crate::unblocking::{any_waits, first_blocked, may_wait, unblock_at};
use std::alloc::{AllocError, Global};
use std::marker::Model;
use up_image::JobFile;
use up_marks::Trigger;
use up_model::EventId;

/// The most instances that a job has at a time.
pub const MAX_INSTANCES: usize = 1_024;

/// The instances of a job in byte order of their names, which contracts see as their list.
#[derive(Drop)]
pub struct InstanceList {
    instances: Vec<Instance>,
    // Whether one of them may wait for an event. If none does, none is searched.
    may_wait: bool,
}

impl Model for InstanceList {
    ghost use Rattle.std.specs.Prelude.{◌≡◌, false, List};
    ghost use Rattle.up_job.specs.declared.instance.Instance.{Instance};
    ghost use Rattle.up_job.specs.InstanceLists.{IsInstanceList};
    ghost use Rattle.up_job.specs.Waiting.{any_waits};
    ghost use Rattle.std.specs.Coded.{codes};
    ghost use Rattle.up_conf.specs.contracts.job.JobDef as job;

    ghost Value = { List Instance };

    ghost coded = { Prim.hlevel (codes, job.the_row.coded) };

    ghost view = { λ r. r.instances.items };

    ghost invariant = { λ r. IsInstanceList r.instances.items
        × (r.may_wait ≡ false → any_waits r.instances.items ≡ false) };
}

/// Whether a name is before another in byte order.
pub(crate) fn is_before(name: &str, other: &str) -> bool
    ensures { result ≡ is_below name.now other.now }
{
    name.cmp(other).is_lt()
}

// The index at which a name belongs.
fn position(instances: &[Instance], name: &str) -> usize
    requires { by_name.AreInOrder name_of instances.now }
    ensures { result ≡ by_name.position name_of name.now instances.now }
{
    instances.partition_point(|instance| is_before(instance.name.as_str(), name))
}

// The index of the instance with this name, or as an error the index at which it belongs.
fn place(instances: &[Instance], name: &str) -> Result<usize, usize>
    requires { by_name.AreInOrder name_of instances.now }
    ensures place { MatchResult result (λ at. at ≡ by_name.position name_of name.now instances.now)
        (λ at. at ≡ by_name.position name_of name.now instances.now) }
    ensures within { IfOk result (λ at. at < length instances.now) }
    ensures there { OnOk result (IsSome (named name.now instances.now)) }
    ensures absent { OnErr result (named name.now instances.now ≡ None) }
{
    let at = position(instances, name);
    if at < instances.len() && instances[at].name.is(name) {
        Ok(at)
    } else {
        Err(at)
    }
}

fn get(instances: &[Instance], at: usize) -> Option<&Instance>
    ensures { option_copied result ≡ nth at instances.now }
{
    instances.get(at)
}

// Makes room for a first instance. A vector that grows by itself begins with room for four, and most jobs have one.
fn make_room(instances: &mut Vec<Instance>) -> Result<(), AllocError>
    ensures { instances.new.items ≡ instances.old.items }
{
    if instances.is_empty() {
        instances.reserve_exact(1)?;
    }
    Ok(())
}

// Returns the index of the instance.
fn insert(instances: &mut Vec<Instance>, instance: Instance) -> Result<usize, AllocError>
    requires { by_name.AreInOrder name_of instances.old.items }
    ensures added { OnOk result (instances.new.items ≡ with_instance instance instances.old.items) }
    ensures position { IfOk result (λ at. at
        ≡ by_name.position name_of instance.name instances.old.items) }
    ensures unchanged { OnErr result (instances.new.items ≡ instances.old.items) }
{
    let at = position(instances.as_slice(), instance.name.as_str());
    make_room(instances)?;
    instances.insert(at, instance)?;
    Ok(at)
}

#[tactic(auto, using(crate::proofs::Places::removed_at, crate::proofs::Places::none_without_at))]
fn take_at(instances: &mut Vec<Instance>, at: usize) -> Option<Instance>
    ensures taken { result ≡ nth at instances.old.items }
    ensures rest { instances.new.items ≡ without_at at instances.old.items }
{
    if at < instances.len() {
        Some(instances.remove(at))
    } else {
        None
    }
}

fn take(instances: &mut Vec<Instance>, name: &str) -> Instance
    requires order { by_name.AreInOrder name_of instances.old.items }
    requires there { IsSome (named name.now instances.old.items) }
    ensures taken { named name.now instances.old.items ≡ Some result }
    ensures rest { instances.new.items ≡ without name.now instances.old.items }
{
    let at = position(instances.as_slice(), name);
    instances.remove(at)
}

#[tactic(auto, using(crate::proofs::Places::set_with_at, crate::proofs::Places::none_with_at))]
fn change_at(instances: &mut Vec<Instance>, at: usize, its: Change)
    ensures { instances.new.items ≡ with_at at (changed its) instances.old.items }
{
    if at < instances.len() {
        apply(&mut instances[at], its);
    } else {
        drop(its);
    }
}

fn change(instances: &mut Vec<Instance>, name: &str, its: Change)
    requires order { by_name.AreInOrder name_of instances.old.items }
    requires there { IsSome (named name.now instances.old.items) }
    ensures { instances.new.items ≡ with_change name.now (changed its) instances.old.items }
{
    let place = position(instances.as_slice(), name);
    apply(&mut instances[place], its);
}

impl InstanceList {
    pub(crate) fn new(alloc: Global) -> Self
        ensures { result ≡ [] }
    {
        InstanceList {
            instances: Vec::new(alloc),
            may_wait: false,
        }
    }

    pub(crate) fn with(alloc: Global, instance: Instance) -> Result<Self, AllocError>
        ensures { IfOk result (λ instances. instances ≡ instance ∷ []) }
    {
        let mut instances = Vec::new(alloc);
        instances.push(instance)?;
        Ok(InstanceList {
            instances,
            may_wait: true,
        })
    }

    pub(crate) fn len(&self) -> usize
        ensures { result ≡ length self.now }
    {
        self.instances.len()
    }

    pub(crate) fn as_slice(&self) -> &[Instance]
        ensures list { result.now ≡ self.now }
        ensures instance_list { IsInstanceList self.now }
    {
        self.instances.as_slice()
    }

    pub(crate) fn get(&self, at: usize) -> Option<&Instance>
        ensures { option_copied result ≡ nth at self.now }
    {
        get(self.instances.as_slice(), at)
    }

    pub(crate) fn position(&self, name: &str) -> Option<usize>
        ensures { result ≡ by_name.place_of name_of name.now self.now }
    {
        match place(self.instances.as_slice(), name) {
            Ok(at) => Some(at),
            Err(_) => None,
        }
    }

    pub(crate) fn find(&self, name: &str) -> Option<&Instance>
        ensures { option_copied result ≡ named name.now self.now }
    {
        match place(self.instances.as_slice(), name) {
            Ok(at) => Some(&self.instances[at]),
            Err(_) => None,
        }
    }

    /// Returns the index of the new instance.
    pub(crate) fn add(
        &mut self,
        name: &str,
        file: JobFile,
        stop_on: Trigger,
    ) -> Result<usize, JobFault>
        requires { named name.now self.old ≡ None }
        ensures added { OnOk result (self.new
            ≡ with_instance (new_instance name.now file stop_on) self.old) }
        ensures position { IfOk result (λ at. at ≡ position_in name.now (map name_of self.old)) }
        ensures fits { OnOk result (length self.old < max_instances) }
        ensures refused { IfErr result (λ fault. fault ≡ refusal self.old) }
        ensures unchanged { OnErr result (self.new ≡ self.old) }
    {
        if self.instances.len() == MAX_INSTANCES {
            drop(stop_on);
            return Err(JobFault::Full);
        }
        let instance = new_instance(*self.instances.allocator(), name, file, stop_on)?;
        let at = insert(&mut self.instances, instance)?;
        Ok(at)
    }

    pub(crate) fn remove_at(&mut self, at: usize) -> Option<Instance>
        ensures taken { result ≡ nth at self.old }
        ensures rest { self.new ≡ without_at at self.old }
    {
        take_at(&mut self.instances, at)
    }

    pub(crate) fn remove(&mut self, name: &str) -> Instance
        requires { IsSome (named name.now self.old) }
        ensures taken { named name.now self.old ≡ Some result }
        ensures rest { self.new ≡ without name.now self.old }
    {
        take(&mut self.instances, name)
    }

    /// Changes the instance at an index; does nothing if there is none.
    pub(crate) fn change_at(&mut self, at: usize, its: Change)
        ensures { self.new ≡ with_at at (changed its) self.old }
    {
        self.may_wait = may_wait(self.may_wait, &its);
        change_at(&mut self.instances, at, its);
    }

    pub(crate) fn change(&mut self, name: &str, its: Change)
        requires { IsSome (named name.now self.old) }
        ensures { self.new ≡ with_change name.now (changed its) self.old }
    {
        self.may_wait = may_wait(self.may_wait, &its);
        change(&mut self.instances, name, its);
    }

    pub(crate) fn stop_on_mut(&mut self, at: usize) -> &mut Trigger
        requires { at < length self.old }
        ensures* writes_back { sem 𝓛 (LendsStopOn self.entry at result) }
        ensures value { Some result.now ≡ option_map stop_on_of (nth at self.old) }
    {
        let instance = &mut self.instances[at];
        &mut instance.stop_on
    }

    /// Whether one of them may wait for an event.
    pub(crate) fn may_wait(&self) -> bool
        ensures { result ≡ false → any_waits self.now ≡ false }
    {
        self.may_wait
    }

    pub(crate) fn first_blocked(&self, id: EventId) -> Option<usize>
        ensures { result ≡ blocked_from id 0 self.now }
    {
        if !self.may_wait {
            return None;
        }
        first_blocked(self.instances.as_slice(), id)
    }

    /// Ends the wait of the instance at an index for this event, if it waits for it.
    pub(crate) fn unblock_at(&mut self, at: usize, id: EventId)
        ensures { self.new ≡ with_at at (unblocked id) self.old }
    {
        unblock_at(&mut self.instances, at, id);
        self.may_wait = any_waits(self.instances.as_slice());
    }
}
