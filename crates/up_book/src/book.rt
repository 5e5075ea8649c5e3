//! What an engine keeps of the past, in whatever form.
ghost use Rattle.std.specs.Prelude.{◌≡◌, ◌≤◌, ◌<◌, ◌||◌, ℕ, true, false, List, ◌∷◌, ◌++◌, [], map, length, Option, None, Some, is_some, option_map, OnOk, IsOk, IfOk, IfSome};
ghost use Rattle.std.specs.Option.{option_copied, option_map_or};
ghost use Rattle.up_book.specs.declared.holders.Holders.{Holders as HoldersValue};
ghost use Rattle.up_book.specs.Hearers.{IsNextHearer, one_hears};
ghost use Rattle.up_book.specs.Histories.{HoldersAt, KeepsPlaces, OfEvent, OfFiled, OfHeld, OfHeldMaking, OfInstance, OfMaking, OfStartOffer, OfStopOffer, OfWhole, PassesBy, after_leaving, after_making, after_release, start_events, stop_events};
ghost use Rattle.up_model.specs.Predicates.{is_waiting};
ghost use Rattle.up_book.specs.Keeps.{AreDistinct};
ghost use Rattle.up_book.specs.Keys.{Mode, Resting, Stepping, SpeaksOf, held_as, request_place, job_at, name_at, instance_place, given_place, called};
ghost use Rattle.up_book.specs.Turning.{turn_at};
ghost use Rattle.up_book.specs.Unblocking.{IsBlockedBy};
ghost use Rattle.up_conf.specs.declared.job.JobDef.{JobDef as JobValue};
ghost use Rattle.up_job.specs.declared.instance_key.InstanceKey.{InstanceKey as KeyValue};
ghost use Rattle.up_model.specs.declared.event_id.EventId.{EventId as EventIdValue};
ghost use Rattle.up_model.specs.declared.input.Input.{Input as InputValue};
ghost use Rattle.up_model.specs.declared.state.Goal.TheVariants.{Stop as goal_stop};
ghost use Rattle.up_model.specs.Chronicle.{Chronicle, Expression as ExpressionValue};
ghost use Rattle.up_model.specs.Chronicle as entry;
ghost use Rattle.up_model.specs.Clock as clock;
ghost use Rattle.up_model.specs.Configuration.{Configuration, job_named};
ghost use Rattle.up_model.specs.Loads.{with_jobs};
ghost use Rattle.up_job.specs.Named.{AreInOrder};
ghost use Rattle.up_marks.specs.Ruling.{may_hear};
ghost use Rattle.up_book.specs.Keys.{name_of};
ghost use Rattle.up_model.specs.Due.{turn_event, telling};
ghost use Rattle.up_model.specs.Files.{names_in_order};
ghost use Rattle.up_model.specs.Held as held;
ghost use Rattle.up_model.specs.Instances.{instances_of, instance_named};
ghost use Rattle.up_model.specs.Outputs.{outputs_of};
ghost use Rattle.up_model.specs.Queue as queue;
ghost use Rattle.up_model.specs.Readings as read;
ghost use Rattle.up_model.specs.Replies as replies;
ghost use Rattle.up_model.specs.Seen as seen;
ghost use Rattle.up_model.specs.Values.{Bytes};
ghost use Rattle.up_model.proofs.NameLaws.{Singles};
ghost use Rattle.up_text.specs.Scripts.{is_filled};

use crate::holders::Holders;
use std::alloc::AllocError;
use up_conf::JobDef;
use up_event::TurnKind;
use up_image::JobFile;
use up_job::InstanceKey;
use up_model::{Answer, Event, EventId, Failure, Goal, Input, Output, Process, State};
use up_text::{Env, Items, Text};

/// What an engine keeps of the past: what it must still know, and the outputs of a step. An engine begins a step by `begin_step`, then
/// reports what follows, entry by entry, and ends the step by `end_step`.
///
/// A job is named by its index in the table, and an instance by its index among those of its job, in byte order of their names: so `make`
/// and `leave` change which instance a key means.
pub trait Book: Drop {
    ghost stands: { Self → Mode → Configuration → Chronicle → Type 0 };

    // where the event of a key was queued
    ghost event_place: { Self → Chronicle → EventIdValue → Option ℕ };

    fn goal(&self, key: InstanceKey) -> Goal
        ensures { (mode : Mode) (config : Configuration) → OfInstance (stands self.now mode) config key (λ c i.
            result ≡ read.goal i c) };

    fn state_of(&self, key: InstanceKey) -> State
        ensures { (mode : Mode) (config : Configuration) → OfInstance (stands self.now mode) config key (λ c i.
            result ≡ read.state_of i c) };

    /// Whether a restart of an instance was taken since it entered its state.
    fn was_restarted(&self, key: InstanceKey) -> bool
        ensures { (mode : Mode) (config : Configuration) → OfInstance (stands self.now mode) config key (λ c i.
            result ≡ read.was_restarted i c) };

    /// The status text of an instance for clients.
    fn status_of(&self, key: InstanceKey) -> Result<Text, AllocError>
        ensures { IfOk result (λ text. (mode : Mode) (config : Configuration)
            → OfInstance (stands self.now mode) config key (λ c i. text ≡ replies.status_of i c)) };

    /// The reading of the clock, in milliseconds.
    fn now(&self) -> u64
        ensures { (mode : Mode) (config : Configuration) (c : Chronicle) → stands self.now mode config c
            → result ≡ clock.now c };

    /// The job file from which an instance was made.
    fn file(&self, key: InstanceKey) -> Option<&JobFile>
        ensures { (mode : Mode) (config : Configuration) → OfInstance (stands self.now mode) config key (λ c i.
            option_copied result ≡ read.file_of i c) };

    /// Whether the limit in its file allows one more respawn of an instance (init(5), `respawn limit`).
    fn may_respawn(&self, key: InstanceKey) -> bool
        ensures { (mode : Mode) (config : Configuration) → OfFiled (stands self.now mode) config key (λ c i job.
            result ≡ clock.may_respawn job.limit i c) };

    /// Whether the timer is to kill main of an instance, by its file (init(5), `kill timeout`).
    fn is_overdue(&self, key: InstanceKey) -> bool
        ensures { (mode : Mode) (config : Configuration) → OfFiled (stands self.now mode) config key (λ c i job.
            result ≡ clock.kill_due job i c) };

    /// A reading of the clock, in milliseconds, before which the timer kills nobody. Takes no memory.
    fn alarm(&self) -> u128
        ensures { (mode : Mode) (config : Configuration) (c : Chronicle) → stands self.now mode config c
            → clock.now c < result → clock.all_overdue (names_in_order config c) c ≡ [] };

    /// Sets the alarm to the earliest reading at which the timer kills somebody. Takes no memory, and looks at each instance.
    fn set_alarm(&mut self)
        ensures { (mode : Mode) (config : Configuration) (c : Chronicle) → stands self.old mode config c
            → stands self.new mode config c };

    /// The environment in force, if the instance has one.
    fn env(&self, key: InstanceKey) -> Option<&Env>
        ensures { (mode : Mode) (config : Configuration) → OfInstance (stands self.now mode) config key (λ c i.
            option_map_or (λ env. env.now) result [] ≡ read.env i c) };

    /// Why an instance failed since it last entered starting.
    fn failure(&self, key: InstanceKey) -> Option<Failure>
        ensures { (mode : Mode) (config : Configuration) → OfInstance (stands self.now mode) config key (λ c i.
            result ≡ read.failure i c) };

    /// Whether an instance waits for its own event.
    fn is_blocked(&self, key: InstanceKey) -> bool
        ensures { (mode : Mode) (config : Configuration) → OfInstance (stands self.now mode) config key (λ c i.
            result ≡ is_some (read.blocker i c)) };

    /// Whether a process was ordered and not answered since.
    fn awaits(&self, key: InstanceKey, process: Process) -> bool
        ensures { (mode : Mode) (config : Configuration) → OfInstance (stands self.now mode) config key (λ c i.
            result ≡ read.is_awaited i process c) };

    fn lives(&self, key: InstanceKey, process: Process) -> bool
        ensures { (mode : Mode) (config : Configuration) → OfInstance (stands self.now mode) config key (λ c i.
            result ≡ read.lives i process c) };

    fn count(&self, job: usize) -> usize
        ensures { (mode : Mode) (config : Configuration) (c : Chronicle) (its : Bytes)
            → stands self.now mode config c
            → name_at config job ≡ Some its → result ≡ length (instances_of its c) };

    fn name(&self, key: InstanceKey) -> &str
        ensures { (mode : Mode) (config : Configuration) → OfWhole (stands self.now mode) config key (λ c its.
            result.now ≡ its.name) };

    fn find(&self, job: usize, name: &str) -> Option<InstanceKey>
        ensures place { (mode : Mode) (config : Configuration) (c : Chronicle) (its : Bytes)
            → stands self.now mode config c → name_at config job ≡ Some its
            → option_map (instance_place config c) result
            ≡ option_map Some (instance_named (called its name.now) c) }
        ensures job { IfSome result (λ key. key.job ≡ job) };

    fn event_at(&self, key: EventId) -> Option<&Event>
        ensures { (mode : Mode) (config : Configuration)
            → OfEvent (stands self.now mode) (event_place self.now) config key (λ c e.
            option_copied result ≡ read.event_at e c) };

    /// Whether an instance that held an event released it as failed.
    fn is_spoilt(&self, key: EventId) -> bool
        ensures { (mode : Mode) (config : Configuration)
            → OfEvent (stands self.now mode) (event_place self.now) config key (λ c e.
            result ≡ held.is_spoilt e c) };

    fn live_events(&self) -> usize
        ensures { (mode : Mode) (config : Configuration) (c : Chronicle) → stands self.now mode config c
            → result ≡ length (queue.queue c) };

    /// What the next turn would do with which event, between two steps.
    fn turn(&self) -> Option<(EventId, TurnKind)>
        ensures { (config : Configuration) (c : Chronicle) → stands self.now Resting config c
            → turn_at (event_place self.now c) result
            ≡ option_map Some (turn_event config (queue.queue c) c) };

    /// A step begins with an input; if that is about a process, `on` is its instance, if it exists. Takes no memory.
    fn begin_step(&mut self, input: &Input, on: Option<InstanceKey>)
        ensures after { (config : Configuration) (c : Chronicle)
            → stands self.old Resting config c → SpeaksOf config on input.now c
            → stands self.new Stepping config (entry.Given input.now ∷ c) }
        ensures events { (config : Configuration) (c : Chronicle) → stands self.old Resting config c
            → KeepsPlaces event_place self.old self.new c (entry.Given input.now ∷ c) };

    /// The input was an event from outside: it goes to the end of the queue.
    fn emit(&mut self, event: Event) -> Result<(), AllocError>
        ensures { OnOk result ((config : Configuration) (c : Chronicle) (input : InputValue)
            → stands self.old Stepping config (entry.Given input ∷ c)
            → stands self.new Stepping config
            (entry.Queued (entry.Outside (length c)) event ∷ entry.Given input ∷ c)) };

    /// The input was a request, or a load: its client is answered.
    fn reply(&mut self, answer: Answer) -> Result<(), AllocError>
        ensures { OnOk result ((config : Configuration) (c : Chronicle) → stands self.old Stepping config c
            → stands self.new Stepping config (entry.Replied (given_place c) answer ∷ c)) };

    /// A turn takes an event up. Takes no memory.
    fn handle(&mut self, key: EventId)
        ensures after { (config : Configuration)
            → OfEvent (stands self.old Stepping) (event_place self.old) config key (λ c e.
            stands self.new Stepping config (entry.Handled e ∷ c)) }
        ensures events { (config : Configuration)
            → OfEvent (stands self.old Stepping) (event_place self.old) config key (λ c e.
            KeepsPlaces event_place self.old self.new c (entry.Handled e ∷ c)) };

    /// An event that nobody holds leaves the queue, and the client that waits for it is answered; `told`, which reports that it was
    /// spoilt, goes to the end, if there is one. Returns the instance that waited for it, if one did. Takes no memory if no client waits
    /// and there is no `told`.
    fn finish(
        &mut self,
        key: EventId,
        told: Option<Event>,
    ) -> Result<Option<InstanceKey>, AllocError>
        ensures after { OnOk result ((config : Configuration)
            → OfEvent (stands self.old Stepping) (event_place self.old) config key (λ c e.
            held.is_held config e c ≡ false → stands self.new Stepping config (telling e told ++
            (replies.answering_waiter (replies.waiter e c) (held.is_spoilt e c) ++ entry.Finished e ∷ c)))) }
        ensures blocked { IfOk result (λ on. (config : Configuration)
            → OfEvent (stands self.old Stepping) (event_place self.old) config key (λ c e.
            held.is_held config e c ≡ false → IsBlockedBy config e c on)) }
        ensures free { (config : Configuration)
            → OfEvent (stands self.old Stepping) (event_place self.old) config key (λ c e.
            held.is_held config e c ≡ false → told ≡ None → replies.waiter e c ≡ None → IsOk result) };

    /// An instance enters a state other than waiting.
    fn enter(&mut self, key: InstanceKey, state: State) -> Result<(), AllocError>
        ensures after { OnOk result ((config : Configuration) → OfInstance (stands self.old Stepping) config key
            (λ c i. is_waiting state ≡ false → stands self.new Stepping config (entry.Entered i state ∷ c))) }
        ensures events { OnOk result ((config : Configuration)
            → OfInstance (stands self.old Stepping) config key (λ c i. is_waiting state ≡ false
            → KeepsPlaces event_place self.old self.new c (entry.Entered i state ∷ c))) };

    /// An instance enters waiting, with its last event, releases its holders, and is removed.
    fn leave(&mut self, key: InstanceKey, event: Event) -> Result<(), AllocError>
        ensures after { OnOk result ((config : Configuration) → OfInstance (stands self.old Stepping) config key (λ c i.
            stands self.new Stepping config (after_leaving i event c))) }
        ensures events { OnOk result ((config : Configuration) → OfInstance (stands self.old Stepping) config key (λ c i.
            KeepsPlaces event_place self.old self.new c (after_leaving i event c))) };

    /// A process of an instance of a job is to be started.
    fn order(&mut self, job: &JobDef, key: InstanceKey, process: Process) -> Result<(), AllocError>
        ensures after { OnOk result ((config : Configuration) → OfInstance (stands self.old Stepping) config key
            (λ c i. read.file_of i c ≡ Some job.now
            → stands self.new Stepping config (entry.Ordered i process ∷ c))) }
        ensures events { OnOk result ((config : Configuration)
            → OfInstance (stands self.old Stepping) config key (λ c i. read.file_of i c ≡ Some job.now
            → KeepsPlaces event_place self.old self.new c (entry.Ordered i process ∷ c))) };

    /// An instance emits an event on entering a state.
    fn announce(&mut self, key: InstanceKey, state: State, event: Event) -> Result<(), AllocError>
        ensures after { OnOk result ((config : Configuration) → OfInstance (stands self.old Stepping) config key
            (λ c i. stands self.new Stepping config (entry.Queued (entry.Entering i state) event ∷ c))) }
        ensures events { OnOk result ((config : Configuration)
            → OfInstance (stands self.old Stepping) config key (λ c i.
            KeepsPlaces event_place self.old self.new c (entry.Queued (entry.Entering i state) event ∷ c))) };

    /// Main of an instance is sent a signal.
    fn signal(&mut self, key: InstanceKey, signal: u8) -> Result<(), AllocError>
        ensures after { OnOk result ((config : Configuration) → OfInstance (stands self.old Stepping) config key
            (λ c i. stands self.new Stepping config (entry.Signalled i signal false ∷ c))) }
        ensures events { OnOk result ((config : Configuration)
            → OfInstance (stands self.old Stepping) config key (λ c i.
            KeepsPlaces event_place self.old self.new c (entry.Signalled i signal false ∷ c))) };

    /// Main of an instance is sent KILL by the timer.
    fn kill(&mut self, key: InstanceKey) -> Result<(), AllocError>
        ensures { OnOk result ((config : Configuration) → OfInstance (stands self.old Stepping) config key
            (λ c i. stands self.new Stepping config (entry.Signalled i clock.kill true ∷ c))) };

    fn respawn(&mut self, key: InstanceKey) -> Result<(), AllocError>
        ensures { OnOk result ((config : Configuration) → OfInstance (stands self.old Stepping) config key
            (λ c i. stands self.new Stepping config (entry.Respawned i (clock.now c) ∷ c))) };

    /// An instance releases its holders; clients among them are answered.
    fn release(&mut self, key: InstanceKey) -> Result<(), AllocError>
        ensures after { OnOk result ((config : Configuration) → OfInstance (stands self.old Stepping) config key (λ c i.
            stands self.new Stepping config (after_release i c))) }
        ensures holders { OnOk result ((config : Configuration) (c : Chronicle) (i : ℕ) (its : HoldersValue) (places : List ℕ)
            → stands self.old Stepping config c → instance_place config c key ≡ Some i
            → HoldersAt (event_place self.old) its places c
            → HoldersAt (event_place self.new) its places (after_release i c)) }
        ensures events { OnOk result ((config : Configuration) → OfInstance (stands self.old Stepping) config key (λ c i.
            KeepsPlaces event_place self.old self.new c (after_release i c))) };

    /// An instance's goal changes, with the environment and the holders that go with it.
    fn aim(
        &mut self,
        key: InstanceKey,
        goal: Goal,
        environment: Env,
        holders: Holders,
    ) -> Result<(), AllocError>
        ensures after { OnOk result ((config : Configuration)
            → OfHeld (stands self.old Stepping) (event_place self.old) config key holders (λ c i places.
            stands self.new Stepping config (entry.Aimed i goal environment places ∷ c))) }
        ensures events { OnOk result ((config : Configuration)
            → OfHeld (stands self.old Stepping) (event_place self.old) config key holders (λ c i places.
            KeepsPlaces event_place self.old self.new c (entry.Aimed i goal environment places ∷ c))) };

    fn restart(&mut self, key: InstanceKey, holders: Holders) -> Result<(), AllocError>
        ensures { OnOk result ((config : Configuration)
            → OfHeld (stands self.old Stepping) (event_place self.old) config key holders (λ c i places.
            stands self.new Stepping config (entry.Restarted i places ∷ c))) };

    /// An instance's goal becomes stop by itself; its holders stay.
    fn end_itself(&mut self, key: InstanceKey) -> Result<(), AllocError>
        ensures { OnOk result ((config : Configuration) → OfInstance (stands self.old Stepping) config key
            (λ c i. stands self.new Stepping config (entry.Aimed i goal_stop [] (read.holders i c) ∷ c))) };

    /// An instance fails: that is kept, and it releases its holders as failed; clients among them are answered.
    fn fail(&mut self, key: InstanceKey, failure: Failure) -> Result<(), AllocError>
        ensures { OnOk result ((config : Configuration) → OfInstance (stands self.old Stepping) config key
            (λ c i. stands self.new Stepping config (replies.releasing i true (entry.Failed i failure ∷ c) ++
            entry.Failed i failure ∷ c))) };

    /// Makes an instance of this name, which the job at an index of the table didn't have, from this file of the job.
    fn make(&mut self, index: usize, file: &JobFile, name: &str) -> Result<InstanceKey, AllocError>
        ensures after { OnOk result ((config : Configuration)
            → OfMaking (stands self.old Stepping) config index file.now name.now (λ c.
            stands self.new Stepping config (after_making file.now name.now c))) }
        ensures made { IfOk result (λ key. (config : Configuration)
            → OfMaking (stands self.old Stepping) config index file.now name.now (λ c.
            instance_place config (after_making file.now name.now c) key ≡ Some (length c))) }
        ensures holders { OnOk result ((config : Configuration)
            → OfHeldMaking (stands self.old Stepping) (event_place self.old) config index file.now name.now (λ c who places.
            held_as (event_place self.new (after_making file.now name.now c)) (request_place c) who ≡ map Some places)) }
        ensures events { OnOk result ((config : Configuration)
            → OfMaking (stands self.old Stepping) config index file.now name.now (λ c.
            KeepsPlaces event_place self.old self.new c (after_making file.now name.now c))) };

    /// These jobs come into force, in byte order of names: by a load, in a step in which no request has acted on an instance. What each
    /// `start on` had seen is forgotten, and instances continue with their own files.
    fn load(&mut self, files: &[JobFile]) -> Result<(), AllocError>
        requires { AreInOrder name_of files.now }
        ensures { OnOk result ((config : Configuration) (c : Chronicle) (jobs : List JobValue)
            → stands self.old Stepping config c → replies.request_instance c ≡ None
            → files.now ≡ (with_jobs jobs config c).jobs
            → stands self.new Stepping (with_jobs jobs config c) (entry.Loaded jobs ∷ c)) };

    /// The first job of the table, at or after `from`, with an expression that names an event, or an instance whose own `stop on` does,
    /// in a leaf without a literal value that rules the event out. Takes no memory.
    fn next_hearer(&self, jobs: &[JobFile], event: EventId, from: usize) -> Option<usize>
        ensures next { (config : Configuration) (c : Chronicle) (e : ℕ) → stands self.now Stepping config c
            → jobs.now ≡ config.jobs
            → event_place self.now c event ≡ Some e → IsNextHearer config (read.event_at e c) c from result }
        ensures later { IfSome result (λ next. from ≤ next) };

    /// Whether an expression in force of the job at an index of the table may match an event: its `start on`, or the `stop on` of one of
    /// its instances. Takes no memory.
    fn hears(&self, index: usize, file: &JobFile, event: EventId) -> bool
        ensures { (config : Configuration) (c : Chronicle) (e : ℕ) → stands self.now Stepping config c
            → job_at config index ≡ Some file.now → event_place self.now c event ≡ Some e
            → result ≡ (may_hear file.now.start_on (read.event_at e c)
            || one_hears (read.event_at e c) (instances_of file.now.name c)) };

    /// No two instances of a job have the same name. Does nothing.
    fn names_differ(&self)
        ensures { (mode : Mode) (config : Configuration) (c : Chronicle) → stands self.now mode config c → Singles c };

    /// An offer to an expression each leaf of which names another event, or rules this one out, leaves a book as it is. Does nothing.
    fn passes_by(&self)
        ensures start { (config : Configuration) (c : Chronicle) (n : ℕ) (job : JobValue) (e : ℕ)
            → stands self.now Stepping config c → job_at config n ≡ Some job
            → PassesBy job.start_on e c
            → stands self.now Stepping config (entry.Offered (entry.StartOn job.name) e ∷ c) }
        ensures stop { (config : Configuration) (c : Chronicle) (key : KeyValue) (job : JobValue) (i e : ℕ)
            → stands self.now Stepping config c → instance_place config c key ≡ Some i
            → read.file_of i c ≡ Some job → PassesBy job.stop_on e c
            → stands self.now Stepping config (entry.Offered (entry.StopOn i) e ∷ c) }
        ensures events { (c : Chronicle) (x : ExpressionValue) (e : ℕ) (k : EventIdValue)
            → event_place self.now (entry.Offered x e ∷ c) k ≡ event_place self.now c k };

    /// Offers an event to the `stop on` of an instance; returns whether that is then true.
    fn offer_stop(
        &mut self,
        file: &JobFile,
        key: InstanceKey,
        event: EventId,
    ) -> Result<bool, AllocError>
        ensures after { OnOk result ((config : Configuration)
            → OfStopOffer (stands self.old Stepping) (event_place self.old) config key file.now event (λ c i e.
            stands self.new Stepping config (entry.Offered (entry.StopOn i) e ∷ c))) }
        ensures holds { IfOk result (λ holds. (config : Configuration)
            → OfStopOffer (stands self.old Stepping) (event_place self.old) config key file.now event (λ c i e.
            holds ≡ seen.holds file.now.stop_on
            (seen.seen config (entry.StopOn i) (entry.Offered (entry.StopOn i) e ∷ c)))) }
        ensures events { OnOk result ((config : Configuration)
            → OfStopOffer (stands self.old Stepping) (event_place self.old) config key file.now event (λ c i e.
            KeepsPlaces event_place self.old self.new c (entry.Offered (entry.StopOn i) e ∷ c))) };

    /// Offers an event to the `start on` of the job at an index of the table, which has this environment; returns whether that is then
    /// true.
    fn offer_start(
        &mut self,
        index: usize,
        job: &JobDef,
        env: &Env,
        event: EventId,
    ) -> Result<bool, AllocError>
        ensures after { OnOk result ((config : Configuration)
            → OfStartOffer (stands self.old Stepping) (event_place self.old) config index job.now env.now event (λ c e.
            stands self.new Stepping config (entry.Offered (entry.StartOn job.now.name) e ∷ c))) }
        ensures holds { IfOk result (λ holds. (config : Configuration)
            → OfStartOffer (stands self.old Stepping) (event_place self.old) config index job.now env.now event (λ c e.
            holds ≡ seen.holds job.now.start_on
            (seen.seen config (entry.StartOn job.now.name) (entry.Offered (entry.StartOn job.now.name) e ∷ c)))) }
        ensures events { OnOk result ((config : Configuration)
            → OfStartOffer (stands self.old Stepping) (event_place self.old) config index job.now env.now event (λ c e.
            KeepsPlaces event_place self.old self.new c (entry.Offered (entry.StartOn job.now.name) e ∷ c))) };

    /// The `stop on` of an instance fires; returns the events that it takes, from left to right.
    fn fire_stop(&mut self, job: &JobDef, key: InstanceKey) -> Result<Items<EventId>, AllocError>
        ensures after { OnOk result ((config : Configuration) → OfInstance (stands self.old Stepping) config key (λ c i.
            read.file_of i c ≡ Some job.now → stands self.new Stepping config
            (entry.Fired (entry.StopOn i) (stop_events config job.now i c) ∷ c))) }
        ensures taken { IfOk result (λ taken. (config : Configuration) → OfInstance (stands self.old Stepping) config key (λ c i.
            read.file_of i c ≡ Some job.now → map (event_place self.new
            (entry.Fired (entry.StopOn i) (stop_events config job.now i c) ∷ c)) taken
            ≡ map Some (stop_events config job.now i c))) }
        ensures events { OnOk result ((config : Configuration) → OfInstance (stands self.old Stepping) config key (λ c i.
            read.file_of i c ≡ Some job.now → KeepsPlaces event_place self.old self.new c
            (entry.Fired (entry.StopOn i) (stop_events config job.now i c) ∷ c))) };

    /// The `start on` of the job at an index of the table fires; returns the events that it takes, from left to right.
    fn fire_start(&mut self, index: usize, job: &JobDef) -> Result<Items<EventId>, AllocError>
        ensures after { OnOk result ((config : Configuration) (c : Chronicle)
            → stands self.old Stepping config c → job_at config index ≡ Some job.now
            → stands self.new Stepping config
            (entry.Fired (entry.StartOn job.now.name) (start_events config job.now c) ∷ c)) }
        ensures taken { IfOk result (λ taken. (config : Configuration) (c : Chronicle)
            → stands self.old Stepping config c → job_at config index ≡ Some job.now
            → map (event_place self.new (entry.Fired (entry.StartOn job.now.name) (start_events config job.now c) ∷ c)) taken
            ≡ map Some (start_events config job.now c)) }
        ensures events { OnOk result ((config : Configuration) (c : Chronicle)
            → stands self.old Stepping config c → job_at config index ≡ Some job.now
            → KeepsPlaces event_place self.old self.new c
            (entry.Fired (entry.StartOn job.now.name) (start_events config job.now c) ∷ c)) };

    /// Answers this step's client, if it doesn't wait and wasn't answered yet; returns whether it did.
    fn reply_last(&mut self) -> Result<bool, AllocError>
        ensures after { OnOk result ((config : Configuration) (c : Chronicle)
            → stands self.old Stepping config c
            → stands self.new Stepping config (replies.answering_last c ++ c)) }
        ensures any { IfOk result (λ replied. (config : Configuration) (c : Chronicle)
            → stands self.old Stepping config c
            → replied ≡ is_filled (replies.answering_last c)) };

    /// Ends the step; returns its outputs, in order. Takes no memory.
    fn end_step(&mut self) -> Vec<Output>
        ensures after { (config : Configuration) (c : Chronicle) → stands self.old Stepping config c
            → stands self.new Resting config c }
        ensures outputs { (config : Configuration) (c : Chronicle) → stands self.old Stepping config c
            → result.items ≡ outputs_of c };

    // no job but those of the table has instances
    ghost known: { (book : Self) (mode : Mode) (config : Configuration) (c : Chronicle) (job : Bytes)
        → stands book mode config c → job_named job config.jobs ≡ None → instances_of job c ≡ [] };

    // no two jobs of the table have the same name
    ghost distinct: { (book : Self) (mode : Mode) (config : Configuration) (c : Chronicle)
        → stands book mode config c → AreDistinct config.jobs };
}
