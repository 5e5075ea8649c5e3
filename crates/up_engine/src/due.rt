//! What is due, the effect of an input, and whether it is expected.
ghost use Rattle.std.specs.Prelude.{◌≡◌, ℕ, true, false, ◌∷◌, ◌++◌, Some, option_map, IsOk, IsOkAnd, IfOk, OnOk};
ghost use Rattle.up_book.specs.Keys.{Mode, Resting, Stepping, instance_place};
ghost use Rattle.up_book.specs.Keeps.{AreDistinct};
ghost use Rattle.up_book.specs.Histories.{OfEvent, adding};
ghost use Rattle.up_engine.specs.Effects.{Concerns, concern_of, unblocked_concern};
ghost use Rattle.up_engine.specs.Free.{ConcernsNone, EndsUnseen, IsFree, IsFreeOf, IsTurnOf, TurnIsFree, after_turn, in_turn};
ghost use Rattle.up_model.specs.declared.input.Input.TheVariants as given_as;
ghost use Rattle.up_book.specs.Turning.{is_finish};
ghost use Rattle.up_model.specs.Answers as answer;
ghost use Rattle.up_model.specs.Chronicle.{Chronicle};
ghost use Rattle.up_model.specs.Chronicle as entry;
ghost use Rattle.up_model.specs.Configuration.{Configuration};
ghost use Rattle.up_model.specs.Due as model;
ghost use Rattle.up_model.specs.Loads.{is_load};
ghost use Rattle.up_model.specs.Held as held;
ghost use Rattle.up_model.specs.Instances.{instance_named};
ghost use Rattle.up_model.specs.Queue as queue;

use crate::judgement::{conclude, verdict_on};
use crate::requests::take_request;
use crate::time::kill_overdue;
use std::alloc::{AllocError, Global};
use up_book::Book;
use up_cascade::{Setup, failure_of_event};
use up_event::TurnKind;
use up_job::InstanceKey;
use up_model::{End, Event, EventId, How, Input, Process, Who};

/// Whom the effect of an input concerns.
pub(crate) enum Concern {
    /// No instance, so that none may move.
    Nobody,
    /// The client of a request alone, who is answered now if it doesn't wait: no instance may move.
    Client,
    /// The instance of this key.
    Instance(InstanceKey),
    /// The jobs that hear of this event.
    Event(EventId),
    /// Any instance that may move.
    Anybody,
}

fn find<B: Book>(setup: &Setup, book: &B, who: &Who) -> Option<InstanceKey>
    ensures { (mode : Mode) (c : Chronicle) → B.stands book.now mode setup.now c
        → option_map (instance_place setup.now c) result ≡ option_map Some (instance_named who.now c) }
{
    match setup.job_named(who.job.as_str()) {
        Some((index, _)) => book.find(index, who.instance.as_str()),
        None => None,
    }
}

fn awaits<B: Book>(setup: &Setup, book: &B, who: &Who, process: Process) -> bool
    ensures { (mode : Mode) (c : Chronicle) → B.stands book.now mode setup.now c
        → result ≡ answer.awaits (instance_named who.now c) process c }
{
    match find(setup, book, who) {
        Some(key) => book.awaits(key, process),
        None => false,
    }
}

fn has_living<B: Book>(setup: &Setup, book: &B, who: &Who, process: Process) -> bool
    ensures { (mode : Mode) (c : Chronicle) → B.stands book.now mode setup.now c
        → result ≡ answer.has_living (instance_named who.now c) process c }
{
    match find(setup, book, who) {
        Some(key) => book.lives(key, process),
        None => false,
    }
}

/// Whether an input is expected: an answer needs a process that is ordered and unanswered, an end one that lives; all others are.
#[tactic(auto, unfolding(up_model::specs::Answers::is_expected))]
pub(crate) fn is_expected<B: Book>(setup: &Setup, book: &B, input: &Input) -> bool
    ensures { (mode : Mode) (c : Chronicle) → B.stands book.now mode setup.now c
        → result ≡ answer.is_expected input.now c }
{
    match input {
        Input::Spawned { who, process, .. } | Input::Refused { who, process } => awaits(
            setup, book, who, *process,
        ),
        Input::Ended { who, process, .. } => has_living(setup, book, who, *process),
        Input::Emit(_)
        | Input::Request { .. }
        | Input::Clock(_)
        | Input::Turn
        | Input::Load { .. } => true,
    }
}

#[tactic(auto, unfolding(up_model::specs::Due::effect))]
fn take_event<B: Book>(book: &mut B, event: Event) -> Result<(), AllocError>
    ensures { OnOk result ((config : Configuration) (c : Chronicle) → B.stands book.old Resting config c
        → B.stands book.new Stepping config (model.effect config (given_as.Emit event) c ++ c)) }
{
    let copy = event.copy()?;
    book.begin_step(&Input::Emit(event), None);
    book.emit(copy)?;
    Ok(())
}

// Whom the answer for a process, or its end, concerns: its instance, if that exists.
fn concern_of(on: Option<InstanceKey>) -> Concern
    ensures { result ≡ concern_of on }
{
    match on {
        Some(key) => Concern::Instance(key),
        None => Concern::Anybody,
    }
}

#[tactic(auto, unfolding(up_model::specs::Due::effect))]
fn take_spawn<B: Book>(setup: &Setup, book: &mut B, who: Who, process: Process, pid: u32) -> Concern
    ensures after { (c : Chronicle) → B.stands book.old Resting setup.now c
        → B.stands book.new Stepping setup.now
        (model.effect setup.now (given_as.Spawned who process pid) c ++ c) }
    ensures concerns { (c : Chronicle) → B.stands book.old Resting setup.now c
        → Concerns (B.event_place book.new) result setup.now (given_as.Spawned who process pid) c }
{
    setup.names_differ();
    book.names_differ();
    let on = find(setup, book, &who);
    book.begin_step(&Input::Spawned { who, process, pid }, on);
    concern_of(on)
}

#[tactic(auto, unfolding(up_model::specs::Due::effect), using(up_cascade::proofs::Entries::one_last))]
fn take_refusal<B: Book>(
    setup: &Setup,
    book: &mut B,
    who: Who,
    process: Process,
) -> Result<Concern, AllocError>
    ensures after { OnOk result ((c : Chronicle) → B.stands book.old Resting setup.now c
        → B.stands book.new Stepping setup.now
        (model.effect setup.now (given_as.Refused who process) c ++ c)) }
    ensures concerns { IfOk result (λ concern. (c : Chronicle) → B.stands book.old Resting setup.now c
        → Concerns (B.event_place book.new) concern setup.now (given_as.Refused who process) c) }
{
    setup.names_differ();
    book.names_differ();
    let its = who.copy()?;
    let on = find(setup, book, &who);
    book.begin_step(&Input::Refused { who, process }, on);
    let verdict_on_end = verdict_on(setup, book, &its, process, End::Refused);
    conclude(book, verdict_on_end)?;
    Ok(concern_of(on))
}

#[tactic(auto, unfolding(up_model::specs::Due::effect), using(up_cascade::proofs::Entries::one_last))]
fn take_end<B: Book>(
    setup: &Setup,
    book: &mut B,
    who: Who,
    process: Process,
    how: How,
) -> Result<Concern, AllocError>
    ensures after { OnOk result ((c : Chronicle) → B.stands book.old Resting setup.now c
        → B.stands book.new Stepping setup.now
        (model.effect setup.now (given_as.Ended who process how) c ++ c)) }
    ensures concerns { IfOk result (λ concern. (c : Chronicle) → B.stands book.old Resting setup.now c
        → Concerns (B.event_place book.new) concern setup.now (given_as.Ended who process how) c) }
{
    setup.names_differ();
    book.names_differ();
    let its = who.copy()?;
    let on = find(setup, book, &who);
    book.begin_step(&Input::Ended { who, process, how }, on);
    let verdict_on_end = verdict_on(setup, book, &its, process, End::Ended(how));
    conclude(book, verdict_on_end)?;
    Ok(concern_of(on))
}

// The event that reports that another was spoilt, if it was.
fn failed_event_of<B: Book>(
    alloc: Global,
    book: &B,
    key: EventId,
) -> Result<Option<Event>, AllocError>
    ensures told { IfOk result (λ told. (mode : Mode) (config : Configuration) (c : Chronicle) (e : ℕ)
        → B.stands book.now mode config c
        → B.event_place book.now c key ≡ Some e → told ≡ model.failed_event_of e c) }
    ensures free { (mode : Mode) (config : Configuration) (c : Chronicle) (e : ℕ)
        → B.stands book.now mode config c
        → B.event_place book.now c key ≡ Some e → held.is_spoilt e c ≡ false → IsOk result }
{
    if !book.is_spoilt(key) {
        return Ok(None);
    }
    let told = failure_of_event(alloc, book.event_at(key))?;
    Ok(told)
}

// Whom a finished event concerns: the instance that waited for it, if any.
fn unblocked_concern(on: Option<InstanceKey>) -> Concern
    ensures { result ≡ unblocked_concern on }
{
    if let Some(key) = on {
        return Concern::Instance(key);
    }
    Concern::Nobody
}

#[tactic(auto, using(up_cascade::proofs::Entries::finishing_last))]
fn finish<B: Book>(alloc: Global, book: &mut B, key: EventId) -> Result<Concern, AllocError>
    ensures after { OnOk result ((config : Configuration)
        → OfEvent (B.stands book.old Resting) (B.event_place book.old) config key (λ c e. held.is_held config e c ≡ false
        → B.stands book.new Stepping config (adding (model.finishing e) (in_turn c)))) }
    ensures concerns { IfOk result (λ concern. (config : Configuration) → AreDistinct config.jobs
        → OfEvent (B.stands book.old Resting) (B.event_place book.old) config key (λ c e. held.is_held config e c ≡ false
        → IsTurnOf config e true c → Concerns (B.event_place book.new) concern config given_as.Turn c)) }
    ensures free { (config : Configuration)
        → OfEvent (B.stands book.old Resting) (B.event_place book.old) config key (λ c e. held.is_held config e c ≡ false
        → EndsUnseen e (in_turn c) → IsOkAnd result (ConcernsNone (B.event_place book.new) config
        (adding (model.finishing e) (in_turn c)))) }
{
    book.begin_step(&Input::Turn, None);
    let told = failed_event_of(alloc, book, key)?;
    let on = book.finish(key, told)?;
    Ok(unblocked_concern(on))
}

fn handle<B: Book>(book: &mut B, key: EventId)
    ensures after { (config : Configuration)
        → OfEvent (B.stands book.old Resting) (B.event_place book.old) config key
        (λ c e. B.stands book.new Stepping config (entry.Handled e ∷ in_turn c)) }
    ensures events { (config : Configuration)
        → OfEvent (B.stands book.old Resting) (B.event_place book.old) config key
        (λ c e. B.event_place book.new (entry.Handled e ∷ in_turn c) key ≡ Some e) }
{
    book.begin_step(&Input::Turn, None);
    book.handle(key)
}

// Takes a turn: handles an unhandled event, or finishes a handled one.
#[tactic(auto, using(up_cascade::proofs::Entries::one_last))]
fn turn_by<B: Book>(
    alloc: Global,
    book: &mut B,
    id: EventId,
    kind: TurnKind,
) -> Result<Concern, AllocError>
    ensures after { OnOk result ((config : Configuration)
        → OfEvent (B.stands book.old Resting) (B.event_place book.old) config id
        (λ c e. IsTurnOf config e (is_finish kind) c → B.stands book.new Stepping config
        (after_turn e (is_finish kind) c))) }
    ensures concerns { IfOk result (λ concern. (config : Configuration) → AreDistinct config.jobs
        → OfEvent (B.stands book.old Resting) (B.event_place book.old) config id (λ c e.
        IsTurnOf config e (is_finish kind) c → Concerns (B.event_place book.new) concern config given_as.Turn c)) }
    ensures free { (config : Configuration)
        → OfEvent (B.stands book.old Resting) (B.event_place book.old) config id
        (λ c e. IsTurnOf config e (is_finish kind) c
        → IsFreeOf config e (is_finish kind) (in_turn c)
        → IsOkAnd result (ConcernsNone (B.event_place book.new) config
        (after_turn e (is_finish kind) c))) }
{
    match kind {
        TurnKind::Finish => {
            let concern = finish(alloc, book, id)?;
            Ok(concern)
        }
        TurnKind::Handle => {
            handle(book, id);
            Ok(Concern::Event(id))
        }
    }
}

#[tactic(auto, unfolding(up_model::specs::Due::effect))]
fn take_turn<B: Book>(alloc: Global, book: &mut B) -> Result<Concern, AllocError>
    ensures after { OnOk result ((config : Configuration) (c : Chronicle) → B.stands book.old Resting config c
        → B.stands book.new Stepping config (model.effect config given_as.Turn c ++ c)) }
    ensures concerns { IfOk result (λ concern. (config : Configuration) (c : Chronicle)
        → AreDistinct config.jobs → B.stands book.old Resting config c
        → Concerns (B.event_place book.new) concern config given_as.Turn c) }
    ensures free { (config : Configuration) (c : Chronicle) → B.stands book.old Resting config c
        → TurnIsFree config (model.turn_event config (queue.queue c) c) (in_turn c)
        → IsOkAnd result (ConcernsNone (B.event_place book.new) config
        (model.effect config given_as.Turn c ++ c)) }
{
    match book.turn() {
        Some((id, kind)) => {
            let concern = turn_by(alloc, book, id, kind)?;
            Ok(concern)
        }
        None => {
            book.begin_step(&Input::Turn, None);
            Ok(Concern::Nobody)
        }
    }
}

#[tactic(auto, unfolding(up_model::specs::Due::effect), using(up_cascade::proofs::Entries::one_last))]
fn take_reading<B: Book>(
    alloc: Global,
    setup: &Setup,
    book: &mut B,
    reading: u64,
) -> Result<(), AllocError>
    ensures after { OnOk result ((c : Chronicle) → B.stands book.old Resting setup.now c
        → B.stands book.new Stepping setup.now (model.effect setup.now (given_as.Clock reading) c ++ c)) }
    ensures free { (c : Chronicle) → B.stands book.old Resting setup.now c
        → IsFree setup.now c (given_as.Clock reading) → IsOk result }
{
    book.begin_step(&Input::Clock(reading), None);
    kill_overdue(alloc, book, setup.jobs())?;
    Ok(())
}

/// Takes an input other than a load, and applies its effect; returns whom that concerns.
#[tactic(auto, unfolding(up_model::specs::Due::effect))]
pub(crate) fn apply_effect<B: Book>(
    alloc: Global,
    setup: &Setup,
    book: &mut B,
    input: Input,
) -> Result<Concern, AllocError>
    requires { is_load input ≡ false }
    ensures after { OnOk result ((c : Chronicle) → B.stands book.old Resting setup.now c
        → B.stands book.new Stepping setup.now (model.effect setup.now input c ++ c)) }
    ensures concerns { IfOk result (λ concern. (c : Chronicle) → B.stands book.old Resting setup.now c
        → Concerns (B.event_place book.new) concern setup.now input c) }
    ensures free { (c : Chronicle) → B.stands book.old Resting setup.now c → IsFree setup.now c input
        → IsOkAnd result (ConcernsNone (B.event_place book.new) setup.now
        (model.effect setup.now input c ++ c)) }
{
    match input {
        Input::Emit(event) => {
            take_event(book, event)?;
            Ok(Concern::Nobody)
        }
        Input::Request { id, request } => {
            let concern = take_request(alloc, setup, book, id, request)?;
            Ok(concern)
        }
        Input::Spawned { who, process, pid } => {
            let concern = take_spawn(setup, book, who, process, pid);
            Ok(concern)
        }
        Input::Refused { who, process } => {
            let concern = take_refusal(setup, book, who, process)?;
            Ok(concern)
        }
        Input::Ended { who, process, how } => {
            let concern = take_end(setup, book, who, process, how)?;
            Ok(concern)
        }
        Input::Clock(reading) => {
            take_reading(alloc, setup, book, reading)?;
            Ok(Concern::Nobody)
        }
        Input::Turn => {
            setup.names_differ();
            let concern = take_turn(alloc, book)?;
            Ok(concern)
        }
        Input::Load { .. } => unreachable!(),
    }
}
