//! The texts for clients about an instance.
ghost use Rattle.std.specs.Prelude.{◌≡◌, ◌∷◌, ℕ, Bool, Some, option_map, IfOk};
ghost use Rattle.up_book.specs.Sending.{own_pid, status_by};
ghost use Rattle.up_book.specs.Views.{Places, kept_at, view};
ghost use Rattle.up_conf.specs.declared.job.JobDef.{JobDef as JobValue};
ghost use Rattle.up_job.specs.JobLists.{job_of};
ghost use Rattle.up_job.specs.Lists.{nth};
ghost use Rattle.up_ledger.specs.Holding.{held_by_kept};
ghost use Rattle.up_ledger.specs.Replying.{replies_to};
ghost use Rattle.up_model.specs.declared.state.State.TheVariants as entered;
ghost use Rattle.up_model.specs.Chronicle.{Chronicle};
ghost use Rattle.up_model.specs.Chronicle as entry;
ghost use Rattle.up_model.specs.Configuration.{Configuration};
ghost use Rattle.up_model.specs.Replies as replies;

use crate::past::Past;
use crate::replies::has_client;
use std::alloc::{AllocError, Global};
use up_job::{Children, Instance, InstanceKey, Instances, child_of};
use up_model::{Process, State, Who, status_text};
use up_text::{Name, Text};

// The process that a state orders besides main.
fn own_process(state: State) -> Option<Process>
    ensures { result ≡ replies.own_process state }
{
    match state {
        State::PreStart => Some(Process::PreStart),
        State::PostStart => Some(Process::PostStart),
        State::PreStop => Some(Process::PreStop),
        State::PostStop => Some(Process::PostStop),
        State::Waiting
        | State::Starting
        | State::Spawned
        | State::Running
        | State::Stopping
        | State::Killed => None,
    }
}

fn own_pid(process: Option<Process>, children: &Children) -> Option<u32>
    ensures { result ≡ own_pid process children.now }
{
    match process {
        Some(process) => child_of(children, process).pid,
        None => None,
    }
}

fn who(job: &Name, kept: &Instance) -> Result<Who, AllocError>
    ensures { IfOk result (λ who. who ≡ record { job = job.now; instance = kept.now.name }) }
{
    let job = job.copy()?;
    let instance = kept.name.copy()?;
    Ok(Who { job, instance })
}

// The status text of an instance of a job of this name, as if it were in this state.
fn status_in(alloc: Global, job: &Name, kept: &Instance, state: State) -> Result<Text, AllocError>
    ensures { IfOk result (λ text. (places : Places) (its : JobValue) → its.name ≡ job.now
        → text ≡ status_by its (record (view places kept.now) { state = state })) }
{
    let who = who(job, kept)?;
    let own = own_pid(own_process(state), &kept.children);
    status_text(alloc, &who, kept.goal, state, kept.children.main.pid, own)
}

fn status_at(
    alloc: Global,
    instances: &Instances,
    key: InstanceKey,
    kept: &Instance,
    state: State,
) -> Result<Text, AllocError>
    ensures { IfOk result (λ text. (places : Places) (its : JobValue)
        → option_map job_of (nth key.job instances.now) ≡ Some its.name
        → text ≡ status_by its (record (view places kept.now) { state = state })) }
{
    match instances.job_name(key.job) {
        Some(job) => {
            let text = status_in(alloc, job, kept, state)?;
            Ok(text)
        }
        None => Err(AllocError),
    }
}

impl Past {
    ghost use Rattle.up_ledger.specs.Standing.{Forgets, instance_place};

    /// The status text of an instance (initctl(8), `status`).
    pub(crate) fn status_of(&self, alloc: Global, key: InstanceKey) -> Result<Text, AllocError>
        ensures { IfOk result (λ text. (config : Configuration) (c : Chronicle) (i : ℕ)
            → Forgets self.now config c → instance_place self.now c key ≡ Some i
            → text ≡ replies.status_of i c) }
    {
        match self.instances.at(key) {
            Some(kept) => {
                let text = status_at(alloc, &self.instances, key, kept, kept.state)?;
                Ok(text)
            }
            None => Err(AllocError),
        }
    }

    /// The status text for the clients that hold an instance. If none does it is empty, which takes no memory.
    #[tactic(auto, using(crate::proofs::Replying::nobody_asks))]
    pub(crate) fn told_to_clients(
        &self,
        alloc: Global,
        key: InstanceKey,
    ) -> Result<Text, AllocError>
        ensures { IfOk result (λ text. (config : Configuration) (c : Chronicle) (i : ℕ)
            → Forgets self.now config c → instance_place self.now c key ≡ Some i → (failed : Bool)
            → replies_to (held_by_kept (kept_at key self.now.instances)) failed text
            ≡ replies_to (held_by_kept (kept_at key self.now.instances)) failed (replies.status_of i c)) }
    {
        if has_client(self.instances.at(key)) {
            let text = self.status_of(alloc, key)?;
            Ok(text)
        } else {
            Ok(Text::empty())
        }
    }

    /// The status text that an instance will have once it has entered waiting.
    pub(crate) fn last_status_of(&self, alloc: Global, key: InstanceKey) -> Result<Text, AllocError>
        ensures { IfOk result (λ text. (config : Configuration) (c : Chronicle) (i : ℕ)
            → Forgets self.now config c → instance_place self.now c key ≡ Some i
            → text ≡ replies.status_of i (entry.Entered i entered.Waiting ∷ c)) }
    {
        match self.instances.at(key) {
            Some(kept) => {
                let text = status_at(alloc, &self.instances, key, kept, State::Waiting)?;
                Ok(text)
            }
            None => Err(AllocError),
        }
    }
}
