//! A book that forgets.
ghost use Rattle.std.specs.Prelude.{◌≡◌, ℕ, List, ◌∷◌, [], Some, false, true, length, option_map, nat_lt, if◌then◌else◌, IfOk, IfNone, OnSome, OnOk};
ghost use Rattle.up_job.specs.Lists.{nth};
ghost use Rattle.up_conf.specs.declared.job.JobDef.{JobDef as JobValue};
ghost use Rattle.up_model.specs.Due.{turn_event};
ghost use Rattle.up_model.specs.Instances.{instance_named};
ghost use Rattle.up_book.specs.Turning.{turn_at};
ghost use Rattle.up_model.specs.declared.input.Input.{Input as InputValue};
ghost use Rattle.up_model.specs.declared.input.Input.TheVariants as given_as;
ghost use Rattle.up_model.specs.declared.process.How.{How as HowValue};
ghost use Rattle.up_model.specs.declared.who.Who.{Who as WhoValue};
ghost use Rattle.up_model.specs.Chronicle.{Chronicle};
ghost use Rattle.up_model.specs.Chronicle as entry;
ghost use Rattle.up_model.specs.Clock as clock;
ghost use Rattle.up_model.specs.Configuration.{Configuration, started_with};
ghost use Rattle.up_job.specs.Named.{AreInOrder};
ghost use Rattle.up_model.specs.Loads.{with_jobs};
ghost use Rattle.up_model.specs.Queue.{queue};
ghost use Rattle.up_model.specs.Readings as read;
ghost use Rattle.up_event.specs.LiveEvents.{with_change, as_handled, named, without, outcome_of, AreDistinct};
ghost use Rattle.up_event.specs.declared.live.LiveEvent.{LiveEvent as LiveEventValue};
ghost use Rattle.up_model.specs.Held.{is_held};
ghost use Rattle.up_ledger.specs.Eventing.{SamePlaces, finished_at};
ghost use Rattle.up_model.specs.declared.event_id.EventId.{EventId as EventIdValue};
ghost use Rattle.up_model.specs.Predicates.{is_waiting};
ghost use Rattle.up_book.specs.Keys.{SpeaksOf, name_of, called};
ghost use Rattle.up_job.specs.InstanceLists.{new_instance};
ghost use Rattle.up_job.specs.JobLists.{with_made, removed_at, position_at};
ghost use Rattle.up_job.specs.declared.instance.Instance.{Instance as InstanceValue};
ghost use Rattle.up_job.specs.Lists.{with_at};
ghost use Rattle.up_ledger.specs.Histories.{TakesHolders, outside_waiter, with_last, with_outside};
ghost use Rattle.up_job.specs.declared.instance_key.InstanceKey.{InstanceKey as InstanceKeyValue};
ghost use Rattle.up_ledger.specs.Remembering.{StartsRemember};
ghost use Rattle.up_book.specs.Unblocking.{IsBlockedBy};
ghost use Rattle.up_book.specs.Views.{Places, kept_at};
ghost use Rattle.up_model.specs.Values.{Bindings};
ghost use Rattle.up_model.specs.declared.state.Goal.TheVariants as aim;
ghost use Rattle.up_marks.specs.Triggers.{kept_by};
ghost use Rattle.up_ledger.specs.Holding.{freed, all_changed, all_kept, as_holders};

use crate::holding::{free_all_of, free_held, free_ids, hold_all};
use std::alloc::{AllocError, Global};
use up_conf::JobDef;
use up_event::{Events, Finished, TurnKind};
use up_image::JobFile;
use up_job::{Change, Holder, Instance, InstanceKey, Instances};
use up_marks::Trigger;
use up_model::{Event, EventId, Failure, Goal, Input, Process, State};
use up_text::{Env, Items};

/// What can still matter of the past.
#[derive(Drop)]
pub struct Past {
    pub instances: Instances,
    /// What the `start on` of each job remembers.
    pub starts: Vec<Trigger>,
    pub events: Events,
    pub reading: u64,
}

// Notes that a turn took an event up, if it lives.
#[tactic(auto, using(crate::proofs::Whole::absent_change, crate::proofs::Whole::is_live))]
fn take_up(events: &mut Events, id: EventId)
    ensures { events.new ≡ with_change id as_handled events.old }
{
    match events.find(id) {
        Some(_) => events.handled(id),
        None => {}
    }
}

fn is_blocking(state: State) -> bool
    ensures { result ≡ read.is_blocking state }
{
    matches!(state, State::Starting | State::Stopping)
}

fn later_of(now: u64, reading: u64) -> u64
    ensures { result ≡ (if nat_lt now reading then reading else now) }
{
    if now < reading { reading } else { now }
}

// Takes an event out, if it lives and isn't held.
#[tactic(auto, using(crate::proofs::Closing::is_there, crate::proofs::Closing::handled_free, crate::proofs::Closing::without_handled, crate::proofs::Closing::outcome_handled))]
fn take_out(events: &mut Events, id: EventId) -> Option<Finished>
    ensures out { OnSome result (events.new ≡ without id events.old) }
    ensures told { OnSome result (result ≡ option_map outcome_of (named id events.old)) }
    ensures held { IfNone result ((live : LiveEventValue) → named id events.old ≡ Some live → live.holds ≡ 0 → ⊥) }
    ensures distinct { AreDistinct events.old }
{
    let _ = events.len();
    match events.find(id) {
        Some(live) if live.holds == 0 => {
            events.handled(id);
            Some(events.finish(id))
        }
        _ => None,
    }
}

// What the `start on` of each job remembers before anything has happened.
fn triggers_of(alloc: Global, jobs: &[JobFile]) -> Result<Vec<Trigger>, AllocError>
    ensures { IfOk result (λ triggers. (places : Places) (config : Configuration)
        → StartsRemember places config [] triggers.items jobs.now) }
{
    let mut triggers = Vec::new(alloc);
    for file in jobs {
        let trigger = Trigger::new(alloc, &file.job().start_on)?;
        triggers.push(trigger)?;
    }
    Ok(triggers)
}

// Removes the holds on the events that these expressions keep.
fn free_starts(alloc: Global, events: &mut Events, starts: &[Trigger]) -> Result<(), AllocError>
    ensures { OnOk result (events.new ≡ all_changed (freed false) (as_holders (all_kept starts.now)) events.old) }
{
    for start in starts {
        let kept = start.kept(alloc)?;
        free_ids(events, kept.as_slice());
    }
    Ok(())
}

impl Past {
    ghost use Rattle.up_ledger.specs.Standing.{Forgets, event_place, instance_place};

    /// The past of these jobs before the first step.
    pub(crate) fn new(alloc: Global, files: &[JobFile]) -> Result<Self, AllocError>
        requires { AreInOrder name_of files.now }
        ensures { IfOk result (λ past. (base : Bindings) → Forgets past (started_with base files.now) []) }
    {
        let instances = Instances::of_jobs(alloc, files)?;
        let starts = triggers_of(alloc, files)?;
        Ok(Past {
            instances,
            starts,
            events: Events::new(alloc),
            reading: 0,
        })
    }

    /// The reading of the clock, in milliseconds.
    pub(crate) fn now(&self) -> u64
        ensures { (config : Configuration) (c : Chronicle) → Forgets self.now config c
            → result ≡ clock.now c }
    {
        self.reading
    }

    pub(crate) fn live_events(&self) -> usize
        ensures { (config : Configuration) (c : Chronicle) → Forgets self.now config c
            → result ≡ length (queue c) }
    {
        self.events.len()
    }

    /// What the next turn would do. Takes no memory.
    pub(crate) fn turn(&self) -> Option<(EventId, TurnKind)>
        ensures { (config : Configuration) (c : Chronicle) → Forgets self.now config c
            → turn_at (event_place self.now c) result
            ≡ option_map Some (turn_event config (queue c) c) }
    {
        self.events.next_turn()
    }

    /// A turn takes an event up. Takes no memory.
    pub(crate) fn handle(&mut self, id: EventId)
        ensures after { (config : Configuration) (c : Chronicle) (e : ℕ) → Forgets self.old config c
            → event_place self.old c id ≡ Some e → Forgets self.new config (entry.Handled e ∷ c) }
        ensures events { (config : Configuration) (c : Chronicle) (e : ℕ) (k : EventIdValue) (j : ℕ)
            → Forgets self.old config c → event_place self.old c id ≡ Some e → event_place self.old c k ≡ Some j
            → event_place self.new (entry.Handled e ∷ c) k ≡ Some j }
    {
        take_up(&mut self.events, id);
    }

    /// An event that nobody holds leaves the queue; returns its outcome, and the instance that waited for it, if one did. Takes no
    /// memory.
    pub(crate) fn finish(&mut self, id: EventId) -> (Option<Finished>, Option<InstanceKey>)
        ensures after { (config : Configuration) (c : Chronicle) (e : ℕ) → Forgets self.old config c
            → event_place self.old c id ≡ Some e → is_held config e c ≡ false
            → Forgets self.new config (entry.Finished e ∷ c) }
        ensures told { (config : Configuration) (c : Chronicle) (e : ℕ) → Forgets self.old config c
            → event_place self.old c id ≡ Some e → is_held config e c ≡ false
            → result.0 ≡ finished_at e c }
        ensures blocked { (config : Configuration) (c : Chronicle) (e : ℕ) → Forgets self.old config c
            → event_place self.old c id ≡ Some e → is_held config e c ≡ false
            → IsBlockedBy config e c result.1 }
    {
        match take_out(&mut self.events, id) {
            Some(finished) => {
                let on = self.instances.unblock(id);
                (Some(finished), on)
            }
            None => (None, None),
        }
    }

    /// An event from outside goes to the end of the queue.
    pub(crate) fn emit(&mut self, event: Event, waiter: Option<u64>) -> Result<(), AllocError>
        ensures { OnOk result ((config : Configuration) (c : Chronicle) (input : InputValue)
            → Forgets self.old config (entry.Given input ∷ c) → outside_waiter event input c ≡ waiter
            → Forgets self.new config (with_outside event input c)) }
    {
        let _ = self.events.push(event, waiter)?;
        Ok(())
    }

    /// An event that reports that another was spoilt goes to the end of the queue.
    pub(crate) fn queue_failure_event(&mut self, event: Event) -> Result<(), AllocError>
        ensures { OnOk result ((config : Configuration) (c : Chronicle) (spoilt : ℕ)
            → Forgets self.old config c
            → Forgets self.new config (entry.Queued (entry.Spoilt spoilt) event ∷ c)) }
    {
        let _ = self.events.push(event, None)?;
        Ok(())
    }

    /// A step begins with an input; if that is about a process, `on` is its instance, if it exists. Takes no memory.
    pub(crate) fn begin_step(&mut self, input: &Input, on: Option<InstanceKey>)
        ensures after { (config : Configuration) (c : Chronicle) → Forgets self.old config c
            → SpeaksOf config on input.now c → Forgets self.new config (entry.Given input.now ∷ c) }
        ensures events { self.new.events ≡ self.old.events }
    {
        match input {
            Input::Spawned { process, pid, .. } => self.spawned_if(on, *process, *pid),
            Input::Refused { process, .. } => self.refused_if(on, *process),
            Input::Ended { process, .. } => self.ended_if(on, *process),
            Input::Clock(reading) => self.give_reading(*reading),
            Input::Emit(_) => {}
            Input::Request { .. } => {}
            Input::Turn => {}
            Input::Load { .. } => {}
        }
    }

    /// These jobs come into force. The events that the `start on` of those before keep are released; instances continue.
    pub(crate) fn load(&mut self, alloc: Global, files: &[JobFile]) -> Result<(), AllocError>
        requires { AreInOrder name_of files.now }
        ensures { OnOk result ((config : Configuration) (c : Chronicle) (jobs : List JobValue)
            → Forgets self.old config c → files.now ≡ (with_jobs jobs config c).jobs
            → Forgets self.new (with_jobs jobs config c) (entry.Loaded jobs ∷ c)) }
    {
        free_starts(alloc, &mut self.events, self.starts.as_slice())?;
        let starts = triggers_of(alloc, files)?;
        self.starts = starts;
        self.instances.replace(alloc, files)?;
        Ok(())
    }

    fn spawned_if(&mut self, on: Option<InstanceKey>, process: Process, pid: u32)
        ensures after { (config : Configuration) (c : Chronicle) (who : WhoValue) → Forgets self.old config c
            → SpeaksOf config on (given_as.Spawned who process pid) c
            → Forgets self.new config (entry.Given (given_as.Spawned who process pid) ∷ c) }
        ensures events { self.new.events ≡ self.old.events }
    {
        match on {
            Some(key) => self.spawned(key, process, pid),
            None => {}
        }
    }

    fn refused_if(&mut self, on: Option<InstanceKey>, process: Process)
        ensures after { (config : Configuration) (c : Chronicle) (who : WhoValue) → Forgets self.old config c
            → SpeaksOf config on (given_as.Refused who process) c
            → Forgets self.new config (entry.Given (given_as.Refused who process) ∷ c) }
        ensures events { self.new.events ≡ self.old.events }
    {
        match on {
            Some(key) => self.refused(key, process),
            None => {}
        }
    }

    fn ended_if(&mut self, on: Option<InstanceKey>, process: Process)
        ensures after { (config : Configuration) (c : Chronicle) (who : WhoValue) (how : HowValue)
            → Forgets self.old config c
            → SpeaksOf config on (given_as.Ended who process how) c
            → Forgets self.new config (entry.Given (given_as.Ended who process how) ∷ c) }
        ensures events { self.new.events ≡ self.old.events }
    {
        match on {
            Some(key) => self.ended(key, process),
            None => {}
        }
    }

    // Notes a reading of the clock, in milliseconds. Takes no memory.
    fn give_reading(&mut self, reading: u64)
        ensures after { (config : Configuration) (c : Chronicle) → Forgets self.old config c
            → Forgets self.new config (entry.Given (given_as.Clock reading) ∷ c) }
        ensures events { self.new.events ≡ self.old.events }
    {
        self.reading = later_of(self.reading, reading);
    }

    // A process of an instance was spawned. Takes no memory.
    fn spawned(&mut self, key: InstanceKey, process: Process, pid: u32)
        ensures after { (config : Configuration) (c : Chronicle) (i : ℕ) (who : WhoValue) → Forgets self.old config c
            → instance_place self.old c key ≡ Some i → instance_named who c ≡ Some i
            → Forgets self.new config (entry.Given (given_as.Spawned who process pid) ∷ c) }
        ensures events { self.new.events ≡ self.old.events }
    {
        self.instances
            .change_at(key, Change::Answers(process, Some(pid)));
    }

    // The start of a process of an instance was refused. Takes no memory.
    fn refused(&mut self, key: InstanceKey, process: Process)
        ensures after { (config : Configuration) (c : Chronicle) (i : ℕ) (who : WhoValue) → Forgets self.old config c
            → instance_place self.old c key ≡ Some i → instance_named who c ≡ Some i
            → Forgets self.new config (entry.Given (given_as.Refused who process) ∷ c) }
        ensures events { self.new.events ≡ self.old.events }
    {
        self.instances
            .change_at(key, Change::Answers(process, None));
    }

    // A process of an instance has ended. Takes no memory.
    fn ended(&mut self, key: InstanceKey, process: Process)
        ensures after { (config : Configuration) (c : Chronicle) (i : ℕ) (who : WhoValue) (how : HowValue)
            → Forgets self.old config c → instance_place self.old c key ≡ Some i → instance_named who c ≡ Some i
            → Forgets self.new config (entry.Given (given_as.Ended who process how) ∷ c) }
        ensures events { self.new.events ≡ self.old.events }
    {
        self.instances.change_at(key, Change::Loses(process));
    }

    /// An instance enters a state other than waiting. Takes no memory.
    pub(crate) fn enter(&mut self, key: InstanceKey, state: State)
        ensures after { (config : Configuration) (c : Chronicle) (i : ℕ) → Forgets self.old config c
            → instance_place self.old c key ≡ Some i → is_waiting state ≡ false
            → Forgets self.new config (entry.Entered i state ∷ c) }
        ensures instances { (c : Chronicle) (i : ℕ) (k : InstanceKeyValue) → is_waiting state ≡ false
            → instance_place self.old c k ≡ Some i
            → instance_place self.new (entry.Entered i state ∷ c) k ≡ Some i }
        ensures places { SamePlaces self.new.events self.old.events }
    {
        self.instances.change_at(key, Change::Enters(state));
    }

    // The goal of an instance becomes start, with the environment and the holders that go with it.
    fn start(
        &mut self,
        key: InstanceKey,
        environment: Env,
        holders: Items<Holder>,
    ) -> Result<(), AllocError>
        ensures after { OnOk result (TakesHolders self.old self.new key holders (λ i events.
            entry.Aimed i aim.Start environment events)) }
        ensures places { OnOk result (SamePlaces self.new.events self.old.events) }
    {
        hold_all(&mut self.events, holders.as_slice())?;
        free_held(&mut self.events, self.instances.at(key), false);
        self.instances.change_at(
            key,
            Change::Starts {
                environment,
                holders,
            },
        );
        Ok(())
    }

    // The goal of an instance becomes stop, with what that adds to the environment and the holders that go with it.
    fn stop(
        &mut self,
        key: InstanceKey,
        environment: Env,
        holders: Items<Holder>,
    ) -> Result<(), AllocError>
        ensures after { OnOk result (TakesHolders self.old self.new key holders (λ i events.
            entry.Aimed i aim.Stop environment events)) }
        ensures places { OnOk result (SamePlaces self.new.events self.old.events) }
    {
        hold_all(&mut self.events, holders.as_slice())?;
        free_held(&mut self.events, self.instances.at(key), false);
        self.instances.change_at(
            key,
            Change::Stops {
                environment: Some(environment),
                holders,
            },
        );
        Ok(())
    }

    /// The goal of an instance changes, with the environment and the holders that go with it.
    pub(crate) fn aim(
        &mut self,
        key: InstanceKey,
        goal: Goal,
        environment: Env,
        holders: Items<Holder>,
    ) -> Result<(), AllocError>
        ensures after { OnOk result (TakesHolders self.old self.new key holders (λ i events.
            entry.Aimed i goal environment events)) }
        ensures places { OnOk result (SamePlaces self.new.events self.old.events) }
    {
        match goal {
            Goal::Start => self.start(key, environment, holders)?,
            Goal::Stop => self.stop(key, environment, holders)?,
        }
        Ok(())
    }

    /// An instance's goal becomes stop by itself; its holders stay. Takes no memory.
    pub(crate) fn end_itself(&mut self, key: InstanceKey)
        ensures { (config : Configuration) (c : Chronicle) (i : ℕ)
            → Forgets self.old config c → instance_place self.old c key ≡ Some i
            → Forgets self.new config (entry.Aimed i aim.Stop [] (read.holders i c) ∷ c) }
    {
        self.instances.change_at(key, Change::Ends);
    }

    pub(crate) fn restart(
        &mut self,
        key: InstanceKey,
        holders: Items<Holder>,
    ) -> Result<(), AllocError>
        ensures { OnOk result (TakesHolders self.old self.new key holders (λ i events. entry.Restarted i events)) }
    {
        hold_all(&mut self.events, holders.as_slice())?;
        free_held(&mut self.events, self.instances.at(key), false);
        self.instances.change_at(key, Change::Restarts(holders));
        Ok(())
    }

    /// An instance releases its holders. Takes no memory.
    pub(crate) fn let_go(&mut self, key: InstanceKey, none: Items<Holder>)
        ensures after { (config : Configuration) (c : Chronicle) (i : ℕ)
            → Forgets self.old config c → instance_place self.old c key ≡ Some i → none ≡ []
            → Forgets self.new config (entry.Released i false ∷ c) }
        ensures places { SamePlaces self.new.events self.old.events }
    {
        free_held(&mut self.events, self.instances.at(key), false);
        self.instances.change_at(key, Change::Releases(none));
    }

    /// An instance that failed releases its holders, which spoils the events among them. Takes no memory.
    pub(crate) fn let_go_failed(&mut self, key: InstanceKey, none: Items<Holder>)
        ensures { (config : Configuration) (c : Chronicle) (i : ℕ)
            → Forgets self.old config c → instance_place self.old c key ≡ Some i → none ≡ []
            → Forgets self.new config (entry.Released i true ∷ c) }
    {
        let _ = self.events.len();
        free_held(&mut self.events, self.instances.at(key), true);
        self.instances.change_at(key, Change::Releases(none));
    }

    /// An instance fails. Takes no memory.
    pub(crate) fn fail(&mut self, key: InstanceKey, failure: Failure)
        ensures after { (config : Configuration) (c : Chronicle) (i : ℕ)
            → Forgets self.old config c → instance_place self.old c key ≡ Some i
            → Forgets self.new config (entry.Failed i failure ∷ c) }
        ensures instances { (c : Chronicle) (i : ℕ) (k : InstanceKeyValue) → instance_place self.old c k ≡ Some i
            → instance_place self.new (entry.Failed i failure ∷ c) k ≡ Some i }
    {
        self.instances.change_at(key, Change::Fails(failure));
    }

    /// A process of an instance is ordered. Takes no memory.
    pub(crate) fn order(&mut self, key: InstanceKey, process: Process)
        ensures after { (config : Configuration) (c : Chronicle) (i : ℕ)
            → Forgets self.old config c → instance_place self.old c key ≡ Some i
            → Forgets self.new config (entry.Ordered i process ∷ c) }
        ensures instances { (c : Chronicle) (i : ℕ) (k : InstanceKeyValue) → instance_place self.old c k ≡ Some i
            → instance_place self.new (entry.Ordered i process ∷ c) k ≡ Some i }
        ensures places { SamePlaces self.new.events self.old.events }
    {
        self.instances.change_at(key, Change::Orders(process));
    }

    /// Main of an instance is sent a signal on entering killed. Takes no memory.
    pub(crate) fn signal(&mut self, key: InstanceKey, signal: u8)
        ensures after { (config : Configuration) (c : Chronicle) (i : ℕ)
            → Forgets self.old config c → instance_place self.old c key ≡ Some i
            → Forgets self.new config (entry.Signalled i signal false ∷ c) }
        ensures instances { (c : Chronicle) (i : ℕ) (k : InstanceKeyValue) → instance_place self.old c k ≡ Some i
            → instance_place self.new (entry.Signalled i signal false ∷ c) k ≡ Some i }
        ensures places { SamePlaces self.new.events self.old.events }
    {
        self.instances
            .change_at(key, Change::Signals(Some(self.reading)));
    }

    /// Main of an instance is killed by the timer. Takes no memory.
    pub(crate) fn kill(&mut self, key: InstanceKey, signal: u8)
        ensures after { (config : Configuration) (c : Chronicle) (i : ℕ)
            → Forgets self.old config c → instance_place self.old c key ≡ Some i
            → Forgets self.new config (entry.Signalled i signal true ∷ c) }
        ensures instances { (c : Chronicle) (i : ℕ) (k : InstanceKeyValue) → instance_place self.old c k ≡ Some i
            → instance_place self.new (entry.Signalled i signal true ∷ c) k ≡ Some i }
    {
        self.instances.change_at(key, Change::Signals(None));
    }

    /// Main of an instance is respawned. Takes no memory.
    pub(crate) fn respawn(&mut self, key: InstanceKey)
        ensures { (config : Configuration) (c : Chronicle) (i : ℕ)
            → Forgets self.old config c → instance_place self.old c key ≡ Some i
            → Forgets self.new config (entry.Respawned i (clock.now c) ∷ c) }
    {
        self.instances
            .change_at(key, Change::Respawns(self.reading));
    }

    /// An instance emits an event on entering a state, and waits for it if the state is one that does.
    pub(crate) fn announce(
        &mut self,
        key: InstanceKey,
        state: State,
        event: Event,
    ) -> Result<(), AllocError>
        ensures after { OnOk result ((config : Configuration) (c : Chronicle) (i : ℕ)
            → Forgets self.old config c → instance_place self.old c key ≡ Some i
            → Forgets self.new config (entry.Queued (entry.Entering i state) event ∷ c)) }
        ensures instances { OnOk result ((c : Chronicle) (i : ℕ) (k : InstanceKeyValue)
            → instance_place self.old c k ≡ Some i
            → instance_place self.new (entry.Queued (entry.Entering i state) event ∷ c) k ≡ Some i) }
        ensures events { OnOk result ((config : Configuration) (c : Chronicle) (i : ℕ) (k : EventIdValue) (j : ℕ)
            → Forgets self.old config c → event_place self.old c k ≡ Some j
            → event_place self.new (entry.Queued (entry.Entering i state) event ∷ c) k ≡ Some j) }
    {
        let id = self.events.push(event, None)?;
        if is_blocking(state) {
            self.instances.change_at(key, Change::Waits(Some(id)));
        }
        Ok(())
    }

    /// An instance enters waiting with its last event, and is removed.
    pub(crate) fn leave(
        &mut self,
        alloc: Global,
        key: InstanceKey,
        event: Event,
    ) -> Result<(), AllocError>
        ensures after { OnOk result ((config : Configuration) (c : Chronicle) (i : ℕ)
            → Forgets self.old config c → instance_place self.old c key ≡ Some i
            → Forgets self.new config (with_last i event c)) }
        ensures events { OnOk result ((config : Configuration) (c : Chronicle) (i : ℕ) (k : EventIdValue) (j : ℕ)
            → Forgets self.old config c → instance_place self.old c key ≡ Some i
            → event_place self.old c k ≡ Some j
            → event_place self.new (with_last i event c) k ≡ Some j) }
    {
        self.bury(alloc, key)?;
        let _ = self.events.push(event, None)?;
        Ok(())
    }

    // Removes an instance and its holds.
    fn bury(&mut self, alloc: Global, key: InstanceKey) -> Result<(), AllocError>
        ensures { OnOk result ((gone : InstanceValue) → kept_at key self.old.instances ≡ Some gone
            → self.new ≡ record self.old {
              instances = removed_at key self.old.instances;
              events = all_changed (freed false) (as_holders (kept_by gone.stop_on))
                  (all_changed (freed false) gone.holders self.old.events);
            }) }
    {
        match self.instances.remove_at(key) {
            Some(gone) => {
                free_all_of(alloc, &mut self.events, &gone)?;
                Ok(())
            }
            None => Ok(()),
        }
    }

    /// Makes an instance of the job at a place of the table, from this file of the job.
    pub(crate) fn make(
        &mut self,
        alloc: Global,
        place: usize,
        file: &JobFile,
        name: &str,
    ) -> Result<InstanceKey, AllocError>
        ensures after { OnOk result ((config : Configuration) (c : Chronicle)
            → Forgets self.old config c → nth place config.jobs ≡ Some file.now
            → instance_named (called file.now.name name.now) c ≡ None
            → Forgets self.new config (entry.Made file.now name.now ∷ c)) }
        ensures made { IfOk result (λ key. (config : Configuration) (c : Chronicle)
            → Forgets self.old config c → nth place config.jobs ≡ Some file.now
            → instance_place self.new (entry.Made file.now name.now ∷ c) key ≡ Some (length c)) }
        ensures key { IfOk result (λ key. key
            ≡ record { job = place; at = position_at name.now place self.old.instances }) }
        ensures places { OnOk result (SamePlaces self.new.events self.old.events) }
    {
        let stop_on = Trigger::new(alloc, &file.job().stop_on)?;
        let at = self.add(place, name, file.share()?, stop_on)?;
        Ok(InstanceKey { job: place, at })
    }

    fn add(
        &mut self,
        job: usize,
        name: &str,
        file: JobFile,
        stop_on: Trigger,
    ) -> Result<usize, AllocError>
        ensures added { OnOk result (self.new ≡ record self.old {
          instances
              = with_at job (with_made (new_instance name.now file stop_on)) self.old.instances;
        }) }
        ensures position { IfOk result (λ at. at ≡ position_at name.now job self.old.instances) }
    {
        if self.instances.position(job, name).is_some() {
            return Err(AllocError);
        }
        match self.instances.add_at(job, name, file, stop_on) {
            Ok(at) => Ok(at),
            Err(_) => Err(AllocError),
        }
    }
}
