//! The effects of clients' requests (initctl(8)).
ghost use Rattle.std.specs.Prelude.{option_map, ◌≡◌, ◌&&◌, ℕ, true, false, List, length, ◌∷◌, ◌++◌, map, Option, None, Some, if◌then◌else◌, IfOk, OnOk};
ghost use Rattle.up_conf.specs.declared.job.JobDef.{JobDef as JobValue};
ghost use Rattle.up_model.specs.declared.event_id.EventId.{EventId as EventIdValue};
ghost use Rattle.up_book.specs.Keys.{job_at, Mode, Resting, Stepping, held_as, name_at, instance_place, given_place};
ghost use Rattle.up_engine.specs.Effects.{ActsOn, Concerns, IsCalled};
ghost use Rattle.up_book.specs.Histories.{OfInstance};
ghost use Rattle.up_engine.specs.Requests.{target_of as said_of, IsIndexed, Does, DoesBy, DoesTo, DoesToBy, ActsBy, IsClientWaiting, RefusesStart, Tells, outcome_of_start, with_outcome};
ghost use Rattle.up_model.specs.declared.input.Input.{Input as InputValue};
ghost use Rattle.up_model.specs.declared.input.Input.TheVariants as given_as;
ghost use Rattle.up_model.specs.Chronicle.{Chronicle};
ghost use Rattle.up_model.specs.Chronicle as entry;
ghost use Rattle.up_model.specs.Commands as model;
ghost use Rattle.up_model.specs.Configuration.{Configuration};
ghost use Rattle.up_model.specs.Due.{effect};
ghost use Rattle.up_model.specs.Files.{own_file};
ghost use Rattle.up_model.specs.Instances.{instance_named};
ghost use Rattle.up_model.specs.Readings as read;
ghost use Rattle.up_model.specs.Requests.{RequestValue};
ghost use Rattle.up_stanza.specs.declared.process.Process.TheVariants.{Main};

use crate::due::Concern;
use crate::status::{list, status};
use crate::target::{Target, known_target, target_of};
use crate::texts::{
    already_running, already_stopped, not_running, not_supported, too_many_events,
    too_many_instances, unknown_instance, version,
};
use std::alloc::{AllocError, Global};
use up_book::{Book, Holders};
use up_cascade::{Setup, event_of, has_room, start_called, stop_of};
use up_image::JobFile;
use up_job::InstanceKey;
use up_model::{Answer, Command, Input, Process, Request, Who};
use up_text::{Env, Text};

/// The most live events with which one more is accepted.
const MAX_EVENTS: usize = 32_768;

fn refuse<B: Book>(book: &mut B, text: Text) -> Result<(), AllocError>
    ensures { OnOk result ((config : Configuration) (c : Chronicle) (input : InputValue)
        → B.stands book.old Stepping config (entry.Given input ∷ c)
        → B.stands book.new Stepping config (entry.Replied (length c) (record { ok = false; text = text })
        ∷ entry.Given input ∷ c)) }
{
    book.reply(Answer { ok: false, text })?;
    Ok(())
}

fn reply_ok<B: Book>(book: &mut B, text: Text) -> Result<(), AllocError>
    ensures { OnOk result ((config : Configuration) (c : Chronicle) → B.stands book.old Stepping config c
        → B.stands book.new Stepping config (entry.Replied (given_place c) (record { ok = true; text = text })
        ∷ c)) }
{
    book.reply(Answer { ok: true, text })?;
    Ok(())
}

// A client that waits holds the instance that it acts on.
fn holders_of(wait: bool) -> Holders
    ensures { (places : EventIdValue → Option ℕ) (request : Option ℕ) (given : ℕ) → request ≡ (if wait then Some given else None)
        → held_as places request result ≡ map Some (model.holders_of given wait) }
{
    if wait {
        Holders::Client
    } else {
        Holders::Nobody
    }
}

// The reason to refuse the start of an existing instance, if any.
fn running_refusal<B: Book>(
    alloc: Global,
    book: &B,
    who: &Who,
    key: InstanceKey,
) -> Result<Option<Text>, AllocError>
    ensures { IfOk result (λ text. (mode : Mode) (config : Configuration)
        → OfInstance (B.stands book.now mode) config key (λ c i. RefusesStart text who.now (Some i) c)) }
{
    if book.goal(key).is_start() {
        let text = already_running(alloc, who)?;
        return Ok(Some(text));
    }
    Ok(None)
}

// The reason to refuse the start of a new instance, if any.
fn room_refusal<B: Book>(
    alloc: Global,
    book: &B,
    index: usize,
    who: &Who,
) -> Result<Option<Text>, AllocError>
    ensures { IfOk result (λ text. (mode : Mode) (config : Configuration) (c : Chronicle)
        → B.stands book.now mode config c → name_at config index ≡ Some who.now.job
        → RefusesStart text who.now None c) }
{
    if !has_room(book, index) {
        let text = too_many_instances(alloc, who.job.as_str())?;
        return Ok(Some(text));
    }
    Ok(None)
}

// The reason to refuse a start, if any.
fn start_refusal<B: Book>(
    alloc: Global,
    book: &B,
    index: usize,
    who: &Who,
) -> Result<Option<Text>, AllocError>
    ensures { IfOk result (λ text. (mode : Mode) (config : Configuration) (c : Chronicle)
        → B.stands book.now mode config c → name_at config index ≡ Some who.now.job
        → RefusesStart text who.now (instance_named who.now c) c) }
{
    match book.find(index, who.instance.as_str()) {
        Some(key) => {
            let text = running_refusal(alloc, book, who, key)?;
            Ok(text)
        }
        None => {
            let text = room_refusal(alloc, book, index, who)?;
            Ok(text)
        }
    }
}

fn start_who<B: Book>(
    alloc: Global,
    book: &mut B,
    holders: Holders,
    index: usize,
    file: &JobFile,
    who: &Who,
    environment: Env,
) -> Result<(), AllocError>
    ensures { OnOk result ((config : Configuration)
        → name_at config index ≡ Some who.now.job → job_at config index ≡ Some file.now
        → DoesBy holders (B.event_place book.old) (B.stands book.old Stepping) (B.stands book.new Stepping) config
        (outcome_of_start file.now who.now environment)) }
{
    match start_refusal(alloc, book, index, who)? {
        Some(text) => {
            drop(holders);
            drop(environment);
            refuse(book, text)?;
        }
        None => start_called(
            book,
            index,
            file,
            who.instance.as_str(),
            environment,
            holders,
        )?,
    }
    Ok(())
}

// The instance of these names, if it exists after a request; if not, the request was refused.
fn concern_of<B: Book>(book: &B, index: usize, who: &Who) -> Concern
    ensures { (mode : Mode) (config : Configuration) (c : Chronicle) → B.stands book.now mode config c
        → name_at config index ≡ Some who.now.job → IsCalled result config who.now c }
{
    match book.find(index, who.instance.as_str()) {
        Some(key) => Concern::Instance(key),
        None => Concern::Client,
    }
}

fn start<B: Book>(
    alloc: Global,
    book: &mut B,
    holders: Holders,
    target: Target,
) -> Result<Concern, AllocError>
    ensures after { OnOk result ((config : Configuration) → IsIndexed config target.entry
        → DoesBy holders (B.event_place book.old) (B.stands book.old Stepping) (B.stands book.new Stepping) config
        (λ places. model.start places (said_of target.entry))) }
    ensures concerns { IfOk result (λ concern. (config : Configuration) → IsIndexed config target.entry
        → ActsBy holders (B.event_place book.old) (B.stands book.old Stepping) config concern
        (λ places. model.start places (said_of target.entry))) }
{
    match target {
        Target::Nobody(text) => {
            drop(holders);
            refuse(book, text)?;
            Ok(Concern::Nobody)
        }
        Target::Concerns {
            index,
            file,
            who,
            environment,
        } => {
            start_who(alloc, book, holders, index, file, &who, environment)?;
            Ok(concern_of(book, index, &who))
        }
    }
}

// Stops an existing instance; refuses if its goal isn't start.
fn stop_found<B: Book>(
    alloc: Global,
    book: &mut B,
    holders: Holders,
    vars: Env,
    who: &Who,
    key: InstanceKey,
) -> Result<(), AllocError>
    ensures { OnOk result ((config : Configuration) → DoesToBy key holders
        (B.event_place book.old) (B.stands book.old Stepping) (B.stands book.new Stepping) config
        (λ i places. model.stop_at places vars who.now (Some i))) }
{
    if book.goal(key).is_start() {
        stop_of(book, key, vars, holders)?;
    } else {
        drop(holders);
        drop(vars);
        let text = already_stopped(alloc, who)?;
        refuse(book, text)?;
    }
    Ok(())
}

fn stop_who<B: Book>(
    alloc: Global,
    book: &mut B,
    holders: Holders,
    vars: Env,
    index: usize,
    who: &Who,
) -> Result<(), AllocError>
    ensures { OnOk result ((config : Configuration) → name_at config index ≡ Some who.now.job
        → DoesBy holders (B.event_place book.old) (B.stands book.old Stepping) (B.stands book.new Stepping) config
        (λ places d. model.stop_at places vars who.now (instance_named who.now d) d)) }
{
    match book.find(index, who.instance.as_str()) {
        Some(key) => stop_found(alloc, book, holders, vars, who, key)?,
        None => {
            drop(holders);
            drop(vars);
            let text = unknown_instance(alloc, who)?;
            refuse(book, text)?;
        }
    }
    Ok(())
}

fn stop<B: Book>(
    alloc: Global,
    book: &mut B,
    holders: Holders,
    vars: Env,
    target: Target,
) -> Result<Concern, AllocError>
    ensures after { OnOk result ((config : Configuration) → IsIndexed config target.entry
        → DoesBy holders (B.event_place book.old) (B.stands book.old Stepping) (B.stands book.new Stepping) config
        (λ places. model.stop places vars (said_of target.entry))) }
    ensures concerns { IfOk result (λ concern. (config : Configuration) → IsIndexed config target.entry
        → ActsBy holders (B.event_place book.old) (B.stands book.old Stepping) config concern
        (λ places. model.stop places vars (said_of target.entry))) }
{
    match target {
        Target::Nobody(text) => {
            drop(holders);
            drop(vars);
            refuse(book, text)?;
            Ok(Concern::Nobody)
        }
        Target::Concerns {
            index,
            file: _,
            who,
            environment,
        } => {
            drop(environment);
            stop_who(alloc, book, holders, vars, index, &who)?;
            Ok(concern_of(book, index, &who))
        }
    }
}

fn can_reload<B: Book>(book: &B, key: InstanceKey) -> bool
    ensures { (mode : Mode) (config : Configuration) (c : Chronicle) (i : ℕ)
        → B.stands book.now mode config c → instance_place config c key ≡ Some i
        → result ≡ (model.is_running (read.state_of i c) && read.lives i Main c) }
{
    book.state_of(key).is_running() && book.lives(key, Process::Main)
}

fn signal_and_reply<B: Book>(book: &mut B, key: InstanceKey, signal: u8) -> Result<(), AllocError>
    ensures { OnOk result ((config : Configuration) → Tells key (B.stands book.old Stepping) (B.stands book.new Stepping) config
        (λ i given. model.reloading given i signal)) }
{
    let nothing = Text::empty();
    book.signal(key, signal)?;
    reply_ok(book, nothing)?;
    Ok(())
}

// The reload signal of an instance's file (init(5), `reload signal`).
fn reload_signal<B: Book>(book: &B, key: InstanceKey) -> Option<u8>
    ensures { (mode : Mode) (config : Configuration) (c : Chronicle) (i : ℕ)
        → B.stands book.now mode config c → instance_place config c key ≡ Some i
        → result ≡ option_map (λ job. job.reload_signal) (read.file_of i c) }
{
    match book.file(key) {
        Some(file) => Some(file.job().reload_signal.number()),
        None => None,
    }
}

// Sends the main process this reload signal of its file; refuses if it doesn't run.
fn reload_by<B: Book>(
    alloc: Global,
    book: &mut B,
    who: &Who,
    key: InstanceKey,
    signal: u8,
) -> Result<(), AllocError>
    ensures { OnOk result ((config : Configuration) (job : JobValue) → signal ≡ job.reload_signal
        → DoesTo key (B.stands book.old Stepping) (B.stands book.new Stepping) config
        (λ i given. model.reload_at given (Some job) who.now (Some i))) }
{
    if can_reload(book, key) {
        signal_and_reply(book, key, signal)?;
    } else {
        let text = not_running(alloc, who)?;
        refuse(book, text)?;
    }
    Ok(())
}

fn reload_found<B: Book>(
    alloc: Global,
    book: &mut B,
    who: &Who,
    key: InstanceKey,
) -> Result<(), AllocError>
    ensures { OnOk result ((config : Configuration)
        → DoesTo key (B.stands book.old Stepping) (B.stands book.new Stepping) config
        (λ i given d. model.reload_at given (read.file_of i d) who.now (Some i) d)) }
{
    match reload_signal(book, key) {
        Some(signal) => reload_by(alloc, book, who, key, signal)?,
        None => {
            let text = unknown_instance(alloc, who)?;
            refuse(book, text)?;
        }
    }
    Ok(())
}

fn reload_who<B: Book>(
    alloc: Global,
    book: &mut B,
    index: usize,
    who: &Who,
) -> Result<(), AllocError>
    ensures { OnOk result ((config : Configuration) → name_at config index ≡ Some who.now.job
        → Does (B.stands book.old Stepping) (B.stands book.new Stepping) config
        (λ given d. model.reload_at given (own_file who.now d) who.now (instance_named who.now d) d)) }
{
    match book.find(index, who.instance.as_str()) {
        Some(key) => reload_found(alloc, book, who, key)?,
        None => {
            let text = unknown_instance(alloc, who)?;
            refuse(book, text)?;
        }
    }
    Ok(())
}

fn reload<B: Book>(alloc: Global, book: &mut B, target: Target) -> Result<(), AllocError>
    ensures { OnOk result ((config : Configuration) → IsIndexed config target.entry
        → Does (B.stands book.old Stepping) (B.stands book.new Stepping) config
        (λ given. model.reload given (said_of target.entry))) }
{
    match target {
        Target::Nobody(text) => refuse(book, text)?,
        Target::Concerns {
            index,
            file: _,
            who,
            environment,
        } => {
            drop(environment);
            reload_who(alloc, book, index, &who)?;
        }
    }
    Ok(())
}

// Restarts an existing instance; refuses if it isn't running.
fn restart_found<B: Book>(
    alloc: Global,
    book: &mut B,
    holders: Holders,
    who: &Who,
    key: InstanceKey,
) -> Result<(), AllocError>
    ensures { OnOk result ((config : Configuration) → DoesToBy key holders
        (B.event_place book.old) (B.stands book.old Stepping) (B.stands book.new Stepping) config
        (λ i places. model.restart_at places who.now (Some i))) }
{
    if book.state_of(key).is_running() {
        book.release(key)?;
        book.restart(key, holders)?;
    } else {
        drop(holders);
        let text = not_running(alloc, who)?;
        refuse(book, text)?;
    }
    Ok(())
}

fn restart_who<B: Book>(
    alloc: Global,
    book: &mut B,
    holders: Holders,
    index: usize,
    who: &Who,
) -> Result<(), AllocError>
    ensures { OnOk result ((config : Configuration) → name_at config index ≡ Some who.now.job
        → DoesBy holders (B.event_place book.old) (B.stands book.old Stepping) (B.stands book.new Stepping) config
        (λ places d. model.restart_at places who.now (instance_named who.now d) d)) }
{
    match book.find(index, who.instance.as_str()) {
        Some(key) => restart_found(alloc, book, holders, who, key)?,
        None => {
            drop(holders);
            let text = unknown_instance(alloc, who)?;
            refuse(book, text)?;
        }
    }
    Ok(())
}

fn restart<B: Book>(
    alloc: Global,
    book: &mut B,
    holders: Holders,
    target: Target,
) -> Result<Concern, AllocError>
    ensures after { OnOk result ((config : Configuration) → IsIndexed config target.entry
        → DoesBy holders (B.event_place book.old) (B.stands book.old Stepping) (B.stands book.new Stepping) config
        (λ places. model.restart places (said_of target.entry))) }
    ensures concerns { IfOk result (λ concern. (config : Configuration) → IsIndexed config target.entry
        → ActsBy holders (B.event_place book.old) (B.stands book.old Stepping) config concern
        (λ places. model.restart places (said_of target.entry))) }
{
    match target {
        Target::Nobody(text) => {
            drop(holders);
            refuse(book, text)?;
            Ok(Concern::Nobody)
        }
        Target::Concerns {
            index,
            file: _,
            who,
            environment,
        } => {
            drop(environment);
            restart_who(alloc, book, holders, index, &who)?;
            Ok(concern_of(book, index, &who))
        }
    }
}

// The name in an `emit` request is a valid event name.
fn emit<B: Book>(alloc: Global, book: &mut B, name: &str, vars: Env) -> Result<(), AllocError>
    ensures { OnOk result ((config : Configuration) (request : RequestValue)
        → request.name ≡ name.now → request.vars ≡ vars
        → Does (B.stands book.old Stepping) (B.stands book.new Stepping) config (λ given. model.emit given request)) }
{
    if book.live_events() < MAX_EVENTS {
        let event = event_of(alloc, name, vars)?;
        book.emit(event)?;
    } else {
        drop(vars);
        let text = too_many_events(alloc)?;
        refuse(book, text)?;
    }
    Ok(())
}

// Carries out a request's command.
fn change<B: Book>(
    alloc: Global,
    setup: &Setup,
    book: &mut B,
    request: Request,
) -> Result<Concern, AllocError>
    ensures after { OnOk result ((c : Chronicle) (input : InputValue)
        → B.stands book.old Stepping setup.now (entry.Given input ∷ c)
        → IsClientWaiting request.wait input c
        → B.stands book.new Stepping setup.now
        (with_outcome input (λ given. model.outcome_of setup.now given request) c)) }
    ensures concerns { IfOk result (λ concern. (c : Chronicle) (id : ℕ)
        → B.stands book.old Stepping setup.now (entry.Given (given_as.Request id request) ∷ c)
        → ActsOn concern setup.now c
        (with_outcome (given_as.Request id request) (λ given. model.outcome_of setup.now given request) c)) }
{
    let Request {
        command,
        wait,
        name,
        vars,
    } = request;
    match command {
        Command::Start => {
            let target = target_of(alloc, setup, book, name.as_str(), &vars)?;
            let holders = holders_of(wait);
            let concern = start(alloc, book, holders, target)?;
            Ok(concern)
        }
        Command::Stop => {
            let target = known_target(alloc, setup, book, name.as_str(), &vars)?;
            let holders = holders_of(wait);
            let concern = stop(alloc, book, holders, vars, target)?;
            Ok(concern)
        }
        Command::Restart => {
            let target = target_of(alloc, setup, book, name.as_str(), &vars)?;
            let holders = holders_of(wait);
            let concern = restart(alloc, book, holders, target)?;
            Ok(concern)
        }
        Command::Status => {
            let target = known_target(alloc, setup, book, name.as_str(), &vars)?;
            let answer = status(alloc, book, target)?;
            book.reply(answer)?;
            Ok(Concern::Nobody)
        }
        Command::List => {
            let text = list(alloc, setup, book)?;
            reply_ok(book, text)?;
            Ok(Concern::Nobody)
        }
        Command::Emit => {
            emit(alloc, book, name.as_str(), vars)?;
            // The event isn't heard before its turn.
            Ok(Concern::Client)
        }
        Command::Version => {
            let text = version(alloc)?;
            reply_ok(book, text)?;
            Ok(Concern::Nobody)
        }
        Command::Reload => {
            let target = known_target(alloc, setup, book, name.as_str(), &vars)?;
            reload(alloc, book, target)?;
            Ok(Concern::Nobody)
        }
        Command::ReloadConfiguration => {
            let text = not_supported(alloc, command)?;
            refuse(book, text)?;
            Ok(Concern::Nobody)
        }
    }
}

/// Takes a request, and carries it out; returns whom that concerns.
#[tactic(auto, unfolding(up_model::specs::Due::effect), using(up_cascade::proofs::Entries::one_last))]
pub(crate) fn take_request<B: Book>(
    alloc: Global,
    setup: &Setup,
    book: &mut B,
    id: u64,
    request: Request,
) -> Result<Concern, AllocError>
    ensures after { OnOk result ((c : Chronicle) → B.stands book.old Resting setup.now c
        → B.stands book.new Stepping setup.now (effect setup.now (given_as.Request id request) c ++ c)) }
    ensures concerns { IfOk result (λ concern. (c : Chronicle) → B.stands book.old Resting setup.now c
        → Concerns (B.event_place book.new) concern setup.now (given_as.Request id request) c) }
{
    let asked = request.copy()?;
    book.begin_step(&Input::Request { id, request }, None);
    let concern = change(alloc, setup, book, asked)?;
    Ok(concern)
}
