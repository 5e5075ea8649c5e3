//! What is known of an instance by what is kept of it. None of these calls takes memory.
ghost use Rattle.std.specs.Prelude.{◌≡◌, ℕ, [], Some, is_some, length, option_map, take, IfSome};
ghost use Rattle.std.specs.Option.{option_copied, option_map_or};
ghost use Rattle.up_model.specs.Held as held;
ghost use Rattle.up_model.specs.Instances.{Instance as InstanceValue, instances_of, instance_named};
ghost use Rattle.up_book.specs.Keys.{instance_at, called};
ghost use Rattle.up_book.specs.Views.{bindings_of};
ghost use Rattle.up_conf.specs.declared.job.JobDef.{JobDef as JobValue};
ghost use Rattle.up_job.specs.Alarms.{AllFrom};
ghost use Rattle.up_job.specs.Changes as spec;
ghost use Rattle.up_job.specs.Lists.{nth};
ghost use Rattle.up_job.specs.Moments.{moments_of, room, Falls};
ghost use Rattle.up_model.specs.Chronicle.{Chronicle};
ghost use Rattle.up_model.specs.Clock as clock;
ghost use Rattle.up_model.specs.Configuration.{Configuration};
ghost use Rattle.up_model.specs.Readings as read;

use crate::past::Past;
use up_conf::Process;
use up_image::JobFile;
use up_job::{Instance, InstanceKey, child_of, is_overdue};
use up_model::{Event, EventId, Failure, Goal, State};
use up_text::Env;

fn env_of(kept: &Instance) -> Option<&Env>
    ensures { option_map_or (λ env. env.now) result [] ≡ bindings_of kept.now.env }
{
    kept.env.as_ref()
}

fn name_of(kept: &Instance) -> &str
    ensures { result.now ≡ kept.now.name }
{
    kept.name.as_str()
}

fn may_respawn(kept: &Instance, now: u64) -> bool
    ensures { (i : ℕ) (c : Chronicle) → now ≡ clock.now c
        → kept.now.moments.items ≡ take (room kept.now.file.limit) (moments_of i c) → Falls now (moments_of i c)
        → result ≡ clock.may_respawn kept.now.file.limit i c }
{
    kept.moments.may_respawn(kept.file.job().limit, now)
}

fn is_blocked(kept: &Instance) -> bool
    ensures { result ≡ is_some kept.now.blocker }
{
    kept.blocker.is_some()
}

fn awaits(kept: &Instance, process: Process) -> bool
    ensures { result ≡ (spec.child_of process kept.now.children).awaited }
{
    child_of(&kept.children, process).awaited
}

fn is_alive(kept: &Instance, process: Process) -> bool
    ensures { result ≡ is_some (spec.child_of process kept.now.children).pid }
{
    child_of(&kept.children, process).pid.is_some()
}

impl Past {
    ghost use Rattle.up_ledger.specs.Standing.{Forgets, event_place, instance_place};

    pub(crate) fn goal(&self, key: InstanceKey) -> Goal
        ensures { (config : Configuration) (c : Chronicle) (i : ℕ) → Forgets self.now config c
            → instance_place self.now c key ≡ Some i → result ≡ read.goal i c }
    {
        match self.instances.at(key) {
            Some(kept) => kept.goal,
            None => Goal::Stop,
        }
    }

    pub(crate) fn state_of(&self, key: InstanceKey) -> State
        ensures { (config : Configuration) (c : Chronicle) (i : ℕ) → Forgets self.now config c
            → instance_place self.now c key ≡ Some i → result ≡ read.state_of i c }
    {
        match self.instances.at(key) {
            Some(kept) => kept.state,
            None => State::Waiting,
        }
    }

    /// Whether a restart of an instance was taken since it entered its state.
    pub(crate) fn was_restarted(&self, key: InstanceKey) -> bool
        ensures { (config : Configuration) (c : Chronicle) (i : ℕ) → Forgets self.now config c
            → instance_place self.now c key ≡ Some i → result ≡ read.was_restarted i c }
    {
        match self.instances.at(key) {
            Some(kept) => kept.restarted,
            None => false,
        }
    }

    /// The job file from which an instance was made.
    pub(crate) fn file(&self, key: InstanceKey) -> Option<&JobFile>
        ensures { (config : Configuration) (c : Chronicle) (i : ℕ) → Forgets self.now config c
            → instance_place self.now c key ≡ Some i → option_copied result ≡ read.file_of i c }
    {
        match self.instances.at(key) {
            Some(kept) => Some(&kept.file),
            None => None,
        }
    }

    /// Whether the timer is to kill main of an instance, by its file (init(5), `kill timeout`).
    pub(crate) fn is_overdue(&self, key: InstanceKey) -> bool
        ensures { (config : Configuration) (c : Chronicle) (i : ℕ) (job : JobValue) → Forgets self.now config c
            → instance_place self.now c key ≡ Some i → read.file_of i c ≡ Some job
            → result ≡ clock.kill_due job i c }
    {
        match self.instances.at(key) {
            Some(kept) => is_overdue(kept, self.reading),
            None => false,
        }
    }

    /// A reading of the clock before which the timer kills nobody.
    pub(crate) fn alarm(&self) -> u128
        ensures { AllFrom result self.now.instances }
    {
        self.instances.alarm()
    }

    /// Sets the alarm to the earliest moment at which the timer kills somebody. Takes no memory.
    pub(crate) fn set_alarm(&mut self)
        ensures { self.new ≡ self.old }
    {
        self.instances.set_alarm();
    }

    /// Why an instance failed since it last entered starting.
    pub(crate) fn failure(&self, key: InstanceKey) -> Option<Failure>
        ensures { (config : Configuration) (c : Chronicle) (i : ℕ) → Forgets self.now config c
            → instance_place self.now c key ≡ Some i → result ≡ read.failure i c }
    {
        match self.instances.at(key) {
            Some(kept) => kept.failure,
            None => None,
        }
    }

    /// The environment in force, if the instance has one.
    pub(crate) fn env(&self, key: InstanceKey) -> Option<&Env>
        ensures { (config : Configuration) (c : Chronicle) (i : ℕ) → Forgets self.now config c
            → instance_place self.now c key ≡ Some i
            → option_map_or (λ env. env.now) result [] ≡ read.env i c }
    {
        match self.instances.at(key) {
            Some(kept) => env_of(kept),
            None => None,
        }
    }

    /// Whether an instance waits for its own event.
    pub(crate) fn is_blocked(&self, key: InstanceKey) -> bool
        ensures { (config : Configuration) (c : Chronicle) (i : ℕ) → Forgets self.now config c
            → instance_place self.now c key ≡ Some i → result ≡ is_some (read.blocker i c) }
    {
        match self.instances.at(key) {
            Some(kept) => is_blocked(kept),
            None => false,
        }
    }

    /// Whether a process was ordered and not answered since.
    pub(crate) fn awaits(&self, key: InstanceKey, process: Process) -> bool
        ensures { (config : Configuration) (c : Chronicle) (i : ℕ) → Forgets self.now config c
            → instance_place self.now c key ≡ Some i → result ≡ read.is_awaited i process c }
    {
        match self.instances.at(key) {
            Some(kept) => awaits(kept, process),
            None => false,
        }
    }

    pub(crate) fn lives(&self, key: InstanceKey, process: Process) -> bool
        ensures { (config : Configuration) (c : Chronicle) (i : ℕ) → Forgets self.now config c
            → instance_place self.now c key ≡ Some i → result ≡ read.lives i process c }
    {
        match self.instances.at(key) {
            Some(kept) => is_alive(kept, process),
            None => false,
        }
    }

    /// Whether the limit in its file allows one more respawn of an instance (init(5), `respawn limit`).
    pub(crate) fn may_respawn(&self, key: InstanceKey) -> bool
        ensures { (config : Configuration) (c : Chronicle) (i : ℕ) (job : JobValue) → Forgets self.now config c
            → instance_place self.now c key ≡ Some i → read.file_of i c ≡ Some job
            → result ≡ clock.may_respawn job.limit i c }
    {
        match self.instances.at(key) {
            Some(kept) => may_respawn(kept, self.reading),
            None => false,
        }
    }

    pub(crate) fn count(&self, job: usize) -> usize
        ensures { (config : Configuration) (c : Chronicle) (its : JobValue) → Forgets self.now config c
            → nth job config.jobs ≡ Some its → result ≡ length (instances_of its.name c) }
    {
        self.instances.count(job)
    }

    pub(crate) fn find(&self, job: usize, name: &str) -> Option<InstanceKey>
        ensures place { (config : Configuration) (c : Chronicle) (its : JobValue) → Forgets self.now config c
            → nth job config.jobs ≡ Some its
            → option_map (instance_place self.now c) result ≡ option_map Some (instance_named (called its.name name.now) c) }
        ensures job { IfSome result (λ key. key.job ≡ job) }
    {
        self.instances.position(job, name)
    }

    pub(crate) fn name(&self, key: InstanceKey) -> &str
        ensures { (config : Configuration) (c : Chronicle) (its : InstanceValue) → Forgets self.now config c
            → instance_at config c key ≡ Some its → result.now ≡ its.name }
    {
        match self.instances.at(key) {
            Some(kept) => name_of(kept),
            None => "",
        }
    }

    pub(crate) fn event_at(&self, id: EventId) -> Option<&Event>
        ensures { (config : Configuration) (c : Chronicle) (e : ℕ) → Forgets self.now config c
            → event_place self.now c id ≡ Some e → option_copied result ≡ read.event_at e c }
    {
        match self.events.find(id) {
            Some(live) => Some(&live.event),
            None => None,
        }
    }

    /// Whether an instance that held an event released it as failed.
    pub(crate) fn is_spoilt(&self, id: EventId) -> bool
        ensures { (config : Configuration) (c : Chronicle) (e : ℕ) → Forgets self.now config c
            → event_place self.now c id ≡ Some e → result ≡ held.is_spoilt e c }
    {
        match self.events.find(id) {
            Some(live) => live.spoilt,
            None => false,
        }
    }
}
