//! The book of an engine: what is kept of the past, and of the step that isn't over.
ghost use Rattle.std.specs.Prelude.{◌≡◌, ◌++◌, ℕ, [], None, Some, IsOk, IfOk, OnOk};
ghost use Rattle.up_book.specs.Keys.{Resting, Stepping, name_of};
ghost use Rattle.up_ledger.specs.Ledgers.{AreLeaves, Stands};
ghost use Rattle.up_ledger.specs.Requesting.{OnMeans};
ghost use Rattle.up_book.specs.Sending.{IsOrder, IsSignal};
ghost use Rattle.up_book.specs.Views.{kept_at};
ghost use Rattle.up_image.specs.Index.{named};
ghost use Rattle.up_job.specs.JobLists.{stop_places};
ghost use Rattle.up_job.specs.Lists.{nth};
ghost use Rattle.up_model.specs.Chronicle.{Chronicle};
ghost use Rattle.up_model.specs.Configuration.{Configuration, started_with};
ghost use Rattle.up_job.specs.Named.{AreInOrder};
ghost use Rattle.up_model.specs.Due.{telling};
ghost use Rattle.up_model.specs.Replies.{request_instance, status_if};
ghost use Rattle.up_model.specs.Values.{Bindings, Bytes};

use crate::holders::holders_by;
use crate::past::Past;
use crate::replies::{reply, reply_asked, reply_finished, reply_held};
use crate::step::{ActedOn, Step, push_emitted, put};
use std::alloc::{AllocError, Global};
use up_book::{Book, Holders, is_hearer, next_other, order_of, signal_of};
use up_conf::JobDef;
use up_event::TurnKind;
use up_image::JobFile;
use up_job::{InstanceKey, Instances};
use up_marks::{Index, Leaves, lesser_of};
use up_model::{Answer, Event, EventId, Failure, Goal, Input, Output, Process, State};
use up_stanza::KILL;
use up_text::{Env, Items, Text};

/// What is kept of the past, where the leaves of the expressions are, and what the step that isn't over has asked for.
#[derive(Drop)]
pub struct Ledger {
    pub(crate) alloc: Global,
    pub past: Past,
    pub index: Leaves,
    // The leaves of the `stop on` of the instances that a load found, each as one of its job.
    pub others: Index,
    pub step: Step,
}

fn index_of(alloc: Global, files: &[JobFile]) -> Result<Leaves, AllocError>
    ensures { IfOk result (λ index. AreLeaves index files.now) }
{
    let index = Leaves::of(alloc, files)?;
    Ok(index)
}

// An index of the leaves of the instances' `stop on`.
fn others_of(alloc: Global, instances: &Instances) -> Result<Index, AllocError>
    ensures { IfOk result (λ others. (name : Bytes) → named name others ≡ named name (stop_places 0 instances.now)) }
{
    let places = instances.stop_places(alloc)?;
    Index::of_places(places)
}

// The output that starts a process of an instance.
fn order_at(
    alloc: Global,
    instances: &Instances,
    job: &JobDef,
    key: InstanceKey,
    process: Process,
) -> Result<Option<Output>, AllocError>
    ensures { IfOk result (λ output. IsOrder job.now (kept_at key instances.now) process output) }
{
    match instances.at(key) {
        Some(kept) => order_of(alloc, job, kept, process),
        None => Ok(None),
    }
}

// The output that sends a signal to main of an instance.
fn signal_at(
    instances: &Instances,
    key: InstanceKey,
    signal: u8,
) -> Result<Option<Output>, AllocError>
    ensures { IfOk result (λ output. IsSignal (nth key.job instances.now) (kept_at key instances.now) signal output) }
{
    match (instances.job_name(key.job), instances.at(key)) {
        (Some(job), Some(kept)) => {
            let sent = signal_of(job, kept, signal)?;
            Ok(sent)
        }
        _ => Ok(None),
    }
}

impl Ledger {
    /// The ledger of these jobs before the first step.
    pub fn new(alloc: Global, files: &[JobFile]) -> Result<Self, AllocError>
        requires { AreInOrder name_of files.now }
        ensures { IfOk result (λ ledger. (base : Bindings) → Stands ledger Resting (started_with base files.now) []) }
    {
        let index = index_of(alloc, files)?;
        let past = Past::new(alloc, files)?;
        let others = Index::of_places(Vec::new(alloc))?;
        Ok(Ledger {
            alloc,
            past,
            index,
            others,
            step: Step::none(alloc),
        })
    }

    // The text for a client about an instance that its request acted on.
    fn told_of(&self, on: &ActedOn) -> Result<Text, AllocError>
        ensures { IfOk result (λ text. (config : Configuration) (c : Chronicle)
            → Stands self.now Stepping config c → OnMeans config c (Some on.now)
            → text ≡ status_if (request_instance c) c) }
    {
        match on {
            ActedOn::Exists(key) => {
                let text = self.past.status_of(self.alloc, *key)?;
                Ok(text)
            }
            ActedOn::Gone(text) => text.copy(),
        }
    }

    // The text for a client at the end of the step, if it doesn't wait.
    fn told_last(&self) -> Result<Text, AllocError>
        ensures { IfOk result (λ text. (config : Configuration) (c : Chronicle)
            → Stands self.now Stepping config c → text ≡ status_if (request_instance c) c) }
    {
        match &self.step.on {
            Some(on) => {
                let text = self.told_of(on)?;
                Ok(text)
            }
            None => Ok(Text::empty()),
        }
    }

    // Queues an event that reports that another was spoilt, if there is one.
    fn tell_if(&mut self, told: Option<Event>) -> Result<(), AllocError>
        ensures after { OnOk result ((config : Configuration) (c : Chronicle) (spoilt : ℕ)
            → Stands self.old Stepping config c → Stands self.new Stepping config (telling spoilt told ++ c)) }
        ensures free { told ≡ None → IsOk result }
    {
        match told {
            Some(event) => {
                push_emitted(&mut self.step.outputs, &event)?;
                self.past.queue_failure_event(event)?;
            }
            None => {}
        }
        Ok(())
    }
}

impl Book for Ledger {
    ghost use Rattle.up_ledger.specs.Ledgers as ledgers;
    ghost use Rattle.up_ledger.specs.Standing as standing;

    ghost stands = { ledgers.Stands };

    ghost event_place = { λ ledger. standing.event_place ledger.past };

    fn goal(&self, key: InstanceKey) -> Goal {
        self.past.goal(key)
    }

    fn state_of(&self, key: InstanceKey) -> State {
        self.past.state_of(key)
    }

    fn was_restarted(&self, key: InstanceKey) -> bool {
        self.past.was_restarted(key)
    }

    fn status_of(&self, key: InstanceKey) -> Result<Text, AllocError> {
        let text = self.past.status_of(self.alloc, key)?;
        Ok(text)
    }

    fn now(&self) -> u64 {
        self.past.now()
    }

    fn file(&self, key: InstanceKey) -> Option<&JobFile> {
        self.past.file(key)
    }

    fn may_respawn(&self, key: InstanceKey) -> bool {
        self.past.may_respawn(key)
    }

    fn is_overdue(&self, key: InstanceKey) -> bool {
        self.past.is_overdue(key)
    }

    fn alarm(&self) -> u128 {
        self.past.alarm()
    }

    fn set_alarm(&mut self) {
        self.past.set_alarm();
    }

    fn env(&self, key: InstanceKey) -> Option<&Env> {
        self.past.env(key)
    }

    fn failure(&self, key: InstanceKey) -> Option<Failure> {
        self.past.failure(key)
    }

    fn is_blocked(&self, key: InstanceKey) -> bool {
        self.past.is_blocked(key)
    }

    fn awaits(&self, key: InstanceKey, process: Process) -> bool {
        self.past.awaits(key, process)
    }

    fn lives(&self, key: InstanceKey, process: Process) -> bool {
        self.past.lives(key, process)
    }

    fn count(&self, job: usize) -> usize {
        self.past.count(job)
    }

    fn name(&self, key: InstanceKey) -> &str {
        self.past.name(key)
    }

    fn find(&self, job: usize, name: &str) -> Option<InstanceKey> {
        self.past.find(job, name)
    }

    fn event_at(&self, key: EventId) -> Option<&Event> {
        self.past.event_at(key)
    }

    fn is_spoilt(&self, key: EventId) -> bool {
        self.past.is_spoilt(key)
    }

    fn live_events(&self) -> usize {
        self.past.live_events()
    }

    fn turn(&self) -> Option<(EventId, TurnKind)> {
        self.past.turn()
    }

    fn begin_step(&mut self, input: &Input, on: Option<InstanceKey>) {
        self.past.begin_step(input, on);
        self.step = Step::new(self.alloc, input);
    }

    fn emit(&mut self, event: Event) -> Result<(), AllocError> {
        let waiter = self.step.waiter();
        self.past.emit(event, waiter)?;
        Ok(())
    }

    fn reply(&mut self, answer: Answer) -> Result<(), AllocError> {
        reply_asked(&mut self.step.outputs, self.step.asked, answer)?;
        self.step.answer();
        Ok(())
    }

    fn handle(&mut self, key: EventId) {
        self.past.handle(key)
    }

    fn finish(
        &mut self,
        key: EventId,
        told: Option<Event>,
    ) -> Result<Option<InstanceKey>, AllocError> {
        let (finished, on) = self.past.finish(key);
        reply_finished(&mut self.step.outputs, self.alloc, finished)?;
        self.tell_if(told)?;
        Ok(on)
    }

    fn enter(&mut self, key: InstanceKey, state: State) -> Result<(), AllocError> {
        self.past.enter(key, state);
        Ok(())
    }

    fn leave(&mut self, key: InstanceKey, event: Event) -> Result<(), AllocError> {
        let told = self.past.last_status_of(self.alloc, key)?;
        push_emitted(&mut self.step.outputs, &event)?;
        reply_held(
            &mut self.step.outputs,
            self.alloc,
            self.past.instances.at(key),
            false,
            &told,
        )?;
        self.step.leave(key, told);
        self.past.leave(self.alloc, key, event)?;
        Ok(())
    }

    fn order(
        &mut self,
        job: &JobDef,
        key: InstanceKey,
        process: Process,
    ) -> Result<(), AllocError> {
        let order = order_at(self.alloc, &self.past.instances, job, key, process)?;
        put(&mut self.step.outputs, order)?;
        self.past.order(key, process);
        Ok(())
    }

    fn announce(&mut self, key: InstanceKey, state: State, event: Event) -> Result<(), AllocError> {
        push_emitted(&mut self.step.outputs, &event)?;
        self.past.announce(key, state, event)?;
        Ok(())
    }

    fn signal(&mut self, key: InstanceKey, signal: u8) -> Result<(), AllocError> {
        let sent = signal_at(&self.past.instances, key, signal)?;
        put(&mut self.step.outputs, sent)?;
        self.past.signal(key, signal);
        Ok(())
    }

    fn kill(&mut self, key: InstanceKey) -> Result<(), AllocError> {
        let sent = signal_at(&self.past.instances, key, KILL)?;
        put(&mut self.step.outputs, sent)?;
        self.past.kill(key, KILL);
        Ok(())
    }

    fn respawn(&mut self, key: InstanceKey) -> Result<(), AllocError> {
        self.past.respawn(key);
        Ok(())
    }

    fn release(&mut self, key: InstanceKey) -> Result<(), AllocError> {
        let told = self.past.told_to_clients(self.alloc, key)?;
        reply_held(
            &mut self.step.outputs,
            self.alloc,
            self.past.instances.at(key),
            false,
            &told,
        )?;
        self.past.let_go(key, Items::new(Vec::new(self.alloc)));
        Ok(())
    }

    fn aim(
        &mut self,
        key: InstanceKey,
        goal: Goal,
        environment: Env,
        holders: Holders,
    ) -> Result<(), AllocError> {
        let holders = holders_by(self.alloc, holders, self.step.asked)?;
        self.past.aim(key, goal, environment, holders)?;
        self.step.act_on(key);
        Ok(())
    }

    fn restart(&mut self, key: InstanceKey, holders: Holders) -> Result<(), AllocError> {
        let holders = holders_by(self.alloc, holders, self.step.asked)?;
        self.past.restart(key, holders)?;
        self.step.act_on(key);
        Ok(())
    }

    fn end_itself(&mut self, key: InstanceKey) -> Result<(), AllocError> {
        self.past.end_itself(key);
        self.step.act_on(key);
        Ok(())
    }

    fn fail(&mut self, key: InstanceKey, failure: Failure) -> Result<(), AllocError> {
        let told = self.past.told_to_clients(self.alloc, key)?;
        reply_held(
            &mut self.step.outputs,
            self.alloc,
            self.past.instances.at(key),
            true,
            &told,
        )?;
        self.past.fail(key, failure);
        self.past
            .let_go_failed(key, Items::new(Vec::new(self.alloc)));
        Ok(())
    }

    fn make(
        &mut self,
        index: usize,
        file: &JobFile,
        name: &str,
    ) -> Result<InstanceKey, AllocError> {
        let key = self.past.make(self.alloc, index, file, name)?;
        self.step.make(key)?;
        Ok(key)
    }

    fn load(&mut self, files: &[JobFile]) -> Result<(), AllocError> {
        self.past.load(self.alloc, files)?;
        let others = others_of(self.alloc, &self.past.instances)?;
        self.others = others;
        let index = index_of(self.alloc, files)?;
        self.index = index;
        Ok(())
    }

    fn next_hearer(&self, jobs: &[JobFile], event: EventId, from: usize) -> Option<usize> {
        match self.past.event_at(event) {
            Some(event) => lesser_of(
                self.index.by_value.next_job(jobs, event, from),
                next_other(&self.others, &self.past.instances, event, from),
            ),
            None => None,
        }
    }

    fn hears(&self, index: usize, file: &JobFile, event: EventId) -> bool {
        match self.past.event_at(event) {
            Some(event) => {
                let leaves = self.index.by_event.leaves(&event.name, index, true);
                is_hearer(file.job(), leaves, self.past.instances.of_job(index), event)
            }
            None => false,
        }
    }

    fn names_differ(&self) {}

    fn passes_by(&self) {}

    fn offer_stop(
        &mut self,
        file: &JobFile,
        key: InstanceKey,
        event: EventId,
    ) -> Result<bool, AllocError> {
        let holds = self.past.offer_stop(self.alloc, key, file, event)?;
        Ok(holds)
    }

    fn offer_start(
        &mut self,
        index: usize,
        job: &JobDef,
        env: &Env,
        event: EventId,
    ) -> Result<bool, AllocError> {
        let holds = self
            .past
            .offer_start(self.alloc, &self.index.by_event, index, job, env, event)?;
        Ok(holds)
    }

    fn fire_stop(&mut self, job: &JobDef, key: InstanceKey) -> Result<Items<EventId>, AllocError> {
        let taken = self.past.fire_stop(self.alloc, key, job)?;
        Ok(taken)
    }

    fn fire_start(&mut self, index: usize, job: &JobDef) -> Result<Items<EventId>, AllocError> {
        let taken = self.past.fire_start(self.alloc, index, job)?;
        Ok(taken)
    }

    fn reply_last(&mut self) -> Result<bool, AllocError> {
        match self.step.due() {
            Some(id) => {
                let text = self.told_last()?;
                let answer = Answer { ok: true, text };
                reply(&mut self.step.outputs, id, answer)?;
                self.step.answer();
                Ok(true)
            }
            None => Ok(false),
        }
    }

    fn end_step(&mut self) -> Vec<Output> {
        std::mem::replace(&mut self.step.outputs, Vec::new(self.alloc))
    }

    ghost known = { λ ledger mode config c job s none. s.past.regular.known job none };

    ghost distinct = { λ ledger mode config c s. s.past.lives.distinct };
}
