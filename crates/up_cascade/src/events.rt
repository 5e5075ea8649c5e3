//! The events that an instance emits, and the environments of a start and of a stop.
ghost use Rattle.std.specs.Prelude.{◌≡◌, List, ℕ, [], ◌∷◌, ◌++◌, Some, map, IfOk, OnOk, string_bytes, if◌then◌else◌, codes};
ghost use Rattle.std.specs.Fmt.{decimal};
ghost use Rattle.std.specs.Option.{option_copied, option_map_or};
ghost use Rattle.up_text.specs.Bindings.{value_of, set_in, set_all};
ghost use Rattle.up_book.specs.Keys.{Mode, instance_at, instance_place};
ghost use Rattle.up_model.specs.declared.event.Event.{Event as EventValue};
ghost use Rattle.up_model.specs.Chronicle.{Chronicle};
ghost use Rattle.up_model.specs.Configuration.{Configuration};
ghost use Rattle.up_model.specs.Events as model;
ghost use Rattle.up_model.specs.Instances.{Instance};
ghost use Rattle.up_model.specs.Moves as moves;
ghost use Rattle.up_model.specs.Signals.{signal_text};

use std::alloc::{AllocError, Global};
use up_book::Book;
use up_conf::signal_name;
use up_job::InstanceKey;
use up_model::{Cause, Event, EventId, Failure, How, JobDef, JobEvent, process_name};
use up_text::{Env, Name, Text};

// The keys and values here are valid for an environment, so an error means out of memory.
fn put(vars: &mut Env, key: &str, value: &str) -> Result<(), AllocError>
    ensures { OnOk result (vars.new ≡ set_in key.now value.now vars.old) }
{
    match vars.set(key, value) {
        Ok(()) => Ok(()),
        Err(_) => Err(AllocError),
    }
}

fn about(alloc: Global, job: &Name, name: &str) -> Result<Env, AllocError>
    ensures { IfOk result (λ vars. vars ≡ model.about (record { job = job.now; instance = name.now })) }
{
    let mut vars = Env::new(alloc);
    put(&mut vars, "JOB", job.as_str())?;
    put(&mut vars, "INSTANCE", name)?;
    Ok(vars)
}

fn cause_name(cause: Cause) -> &'static str
    ensures { result.now ≡ model.cause_name cause }
{
    match cause {
        Cause::Process(process) => process_name(process),
        Cause::Respawn => "respawn",
    }
}

fn put_number(vars: &mut Env, alloc: Global, key: &str, number: u8) -> Result<(), AllocError>
    ensures { OnOk result (vars.new ≡ set_in key.now (decimal number) vars.old) }
{
    let digits = number.to_string(alloc)?;
    put(vars, key, digits.as_str())
}

fn put_signal(vars: &mut Env, alloc: Global, signal: u8) -> Result<(), AllocError>
    ensures { OnOk result (vars.new ≡ set_in (codes "EXIT_SIGNAL") (signal_text signal) vars.old) }
{
    match signal_name(signal) {
        Some(name) => put(vars, "EXIT_SIGNAL", name),
        None => put_number(vars, alloc, "EXIT_SIGNAL", signal),
    }
}

// How the failed process ended.
fn put_ending(vars: &mut Env, alloc: Global, how: Option<How>) -> Result<(), AllocError>
    ensures { OnOk result (vars.new ≡ set_all vars.old (model.ending how)) }
{
    match how {
        Some(How::Exit(status)) => put_number(vars, alloc, "EXIT_STATUS", status),
        Some(How::Signal(signal)) => put_signal(vars, alloc, signal),
        None => Ok(()),
    }
}

// RESULT, and for a failure PROCESS and how that ended.
fn put_result(vars: &mut Env, alloc: Global, failure: Option<Failure>) -> Result<(), AllocError>
    ensures { OnOk result (vars.new ≡ set_all vars.old (model.result failure)) }
{
    match failure {
        Some(failure) => {
            put(vars, "RESULT", "failed")?;
            put(vars, "PROCESS", cause_name(failure.cause))?;
            put_ending(vars, alloc, failure.how)
        }
        None => put(vars, "RESULT", "ok"),
    }
}

fn about_with_result(
    alloc: Global,
    job: &Name,
    name: &str,
    failure: Option<Failure>,
) -> Result<Env, AllocError>
    ensures { IfOk result (λ vars. vars ≡ model.about (record { job = job.now; instance = name.now })
        ++ model.result failure) }
{
    let mut vars = about(alloc, job, name)?;
    put_result(&mut vars, alloc, failure)?;
    Ok(vars)
}

/// An event of this name, which is a valid name.
pub fn event_of(alloc: Global, name: &str, vars: Env) -> Result<Event, AllocError>
    ensures { IfOk result (λ event. event ≡ record { name = name.now; vars = vars }) }
{
    match Name::new(alloc, name) {
        Ok(name) => Ok(Event { name, vars }),
        Err(_) => Err(AllocError),
    }
}

// An event of an instance's life, without the keys that its job exports.
fn life_event(
    alloc: Global,
    kind: JobEvent,
    job: &Name,
    name: &str,
    failure: Option<Failure>,
) -> Result<Event, AllocError>
    ensures { IfOk result (λ event. event ≡ model.life_event kind
        (record { job = job.now; instance = name.now }) failure) }
{
    match kind {
        JobEvent::Starting => event_of(alloc, "starting", about(alloc, job, name)?),
        JobEvent::Started => event_of(alloc, "started", about(alloc, job, name)?),
        JobEvent::Stopping => {
            let vars = about_with_result(alloc, job, name, failure)?;
            event_of(alloc, "stopping", vars)
        }
        JobEvent::Stopped => {
            let vars = about_with_result(alloc, job, name, failure)?;
            event_of(alloc, "stopped", vars)
        }
    }
}

// Adds an exported key that the environment has, unless a variable has the key.
fn export(vars: &mut Env, key: &str, value: Option<&str>) -> Result<(), AllocError>
    ensures { OnOk result (vars.new ≡ model.with_export key.now (option_copied value.entry) vars.old) }
{
    match value {
        Some(value) => {
            if vars.get(key).is_none() {
                put(vars, key, value)?;
            }
        }
        None => {}
    }
    Ok(())
}

fn value_in<'a>(environment: Option<&'a Env>, key: &str) -> Option<&'a str>
    ensures { option_copied result ≡ value_of key.now (option_map_or (λ env. env.now) environment.entry []) }
{
    match environment {
        Some(environment) => environment.get(key),
        None => None,
    }
}

#[tactic(auto, using(crate::proofs::EventLemmas::exports_left))]
fn export_all(vars: &mut Env, environment: Option<&Env>, keys: &[Text]) -> Result<(), AllocError>
    ensures { OnOk result (vars.new ≡ model.with_exports
        (option_map_or (λ env. env.now) environment.entry []) keys.now vars.old) }
{
    for key in keys {
        let key = key.as_str();
        export(vars, key, value_in(environment, key))?;
    }
    Ok(())
}

// An event of the instance's life, with the keys that its job exports from the environment in force.
fn event_of_life<B: Book>(
    alloc: Global,
    book: &B,
    job: &JobDef,
    key: InstanceKey,
    instance: &str,
    kind: JobEvent,
) -> Result<Event, AllocError>
    ensures { IfOk result (λ event. (mode : Mode) (config : Configuration) (c : Chronicle) (i : ℕ)
        → B.stands book.now mode config c → instance_place config c key ≡ Some i
        → event ≡ moves.job_event job.now (record { job = job.now.name; instance = instance.now }) i kind c) }
{
    let failure = book.failure(key);
    let Event { name, mut vars } = life_event(alloc, kind, &job.name, instance, failure)?;
    export_all(&mut vars, book.env(key), job.export.as_slice())?;
    Ok(Event { name, vars })
}

/// An event of an instance's life (starting(7), started(7), stopping(7), stopped(7)), with the keys that its job exports from the
/// environment in force.
pub(crate) fn job_event<B: Book>(
    alloc: Global,
    book: &B,
    job: &JobDef,
    key: InstanceKey,
    kind: JobEvent,
) -> Result<Event, AllocError>
    ensures { IfOk result (λ event. (mode : Mode) (config : Configuration) (c : Chronicle) (its : Instance)
        → B.stands book.now mode config c → instance_at config c key ≡ Some its
        → event ≡ moves.job_event job.now (moves.who_of job.now its) its.place kind c) }
{
    let event = event_of_life(alloc, book, job, key, book.name(key), kind)?;
    Ok(event)
}

fn tells_failure(event: &Event) -> bool
    ensures { result ≡ model.tells_failure event.now }
{
    event.name.as_str().as_bytes().ends_with(b"/failed")
}

// The event that reports that another was spoilt. Its name is valid, since the other's is.
fn failure_event(alloc: Global, event: &Event) -> Result<Event, AllocError>
    ensures { IfOk result (λ told. told ≡ record {
      name = event.now.name
          ++ codes "/failed";
      vars = event.now.vars;
    }) }
{
    let mut name = String::from_str(alloc, event.name.as_str())?;
    name.push_str("/failed")?;
    let vars = event.vars.copy()?;
    event_of(alloc, name.as_str(), vars)
}

/// The event that reports that another was spoilt, unless that one reports a failure itself.
pub fn failure_of_event(alloc: Global, event: Option<&Event>) -> Result<Option<Event>, AllocError>
    ensures { IfOk result (λ told. told ≡ model.failure_of_event (option_copied event.entry)) }
{
    match event {
        Some(event) if !tells_failure(event) => {
            let told = failure_event(alloc, event)?;
            Ok(Some(told))
        }
        _ => Ok(None),
    }
}

fn push_event<'a>(events: &mut Vec<&'a Event>, found: Option<&'a Event>) -> Result<(), AllocError>
    ensures { OnOk result ((rest : List EventValue) → map (λ event. event.now) events.new.items ++ rest
        ≡ map (λ event. event.now) events.old.items ++ model.with_event (option_copied found.entry) rest) }
{
    match found {
        Some(event) => events.push(event)?,
        None => {}
    }
    Ok(())
}

fn events_of<'a, B: Book>(
    alloc: Global,
    book: &'a B,
    keys: &[EventId],
) -> Result<Vec<&'a Event>, AllocError>
    ensures { IfOk result (λ events. (mode : Mode) (config : Configuration) (c : Chronicle) (places : List ℕ)
        → B.stands book.now mode config c
        → map (B.event_place book.now c) keys.now ≡ map Some places
        → map (λ event. event.now) events.items ≡ model.events_at places c) }
{
    let mut events = Vec::new(alloc);
    for key in keys {
        push_event(&mut events, book.event_at(*key))?;
    }
    Ok(events)
}

#[tactic(auto, using(crate::proofs::EventLemmas::events_left))]
fn collect(env: &mut Env, events: &[&Event]) -> Result<(), AllocError>
    ensures { OnOk result (env.new ≡ model.collected env.old (map (λ event. event.now) events.now)) }
{
    for event in events {
        env.append(&event.vars)?;
    }
    Ok(())
}

// Adds a name, after a space if it isn't the first.
fn push_name(text: &mut String, is_first: bool, event: &Event) -> Result<(), AllocError>
    ensures { OnOk result ((events : List EventValue) → string_bytes text.new ++ model.more_names events
        ≡ string_bytes text.old ++ (if is_first then model.names_of (event.now ∷ events) else model.more_names
        (event.now ∷ events))) }
{
    if !is_first {
        text.push_str(" ")?;
    }
    text.push_str(event.name.as_str())?;
    Ok(())
}

#[tactic(auto, using(crate::proofs::EventLemmas::events_left))]
fn names_of(alloc: Global, events: &[&Event]) -> Result<String, AllocError>
    ensures { IfOk result (λ text. string_bytes text ≡ model.names_of (map (λ event. event.now) events.now)) }
{
    let mut text = String::new(alloc);
    let mut is_first = true;
    for event in events {
        push_name(&mut text, is_first, event)?;
        is_first = false;
    }
    Ok(text)
}

// Adds the variables of these events, and UPSTART_EVENTS.
fn add_start(env: &mut Env, events: &[&Event], names: &str) -> Result<(), AllocError>
    ensures { OnOk result (names.now ≡ model.names_of (map (λ event. event.now) events.now)
        → env.new ≡ model.events_env env.old (map (λ event. event.now) events.now)) }
{
    collect(env, events)?;
    put(env, "UPSTART_EVENTS", names)
}

fn env_by(alloc: Global, base: &Env, events: &[&Event]) -> Result<Env, AllocError>
    ensures { IfOk result (λ env. env ≡ model.events_env base.now (map (λ event. event.now) events.now)) }
{
    let names = names_of(alloc, events)?;
    let mut env = base.copy()?;
    add_start(&mut env, events, names.as_str())?;
    Ok(env)
}

/// The environment of a start by these events, on top of the job's.
pub(crate) fn events_env<B: Book>(
    alloc: Global,
    base: &Env,
    book: &B,
    keys: &[EventId],
) -> Result<Env, AllocError>
    ensures { IfOk result (λ env. (mode : Mode) (config : Configuration) (c : Chronicle) (places : List ℕ)
        → B.stands book.now mode config c
        → map (B.event_place book.now c) keys.now ≡ map Some places
        → env ≡ model.events_env base.now (model.events_at places c)) }
{
    let events = events_of(alloc, book, keys)?;
    env_by(alloc, base, events.as_slice())
}

/// Adds UPSTART_JOB and UPSTART_INSTANCE.
pub(crate) fn add_instance(env: &mut Env, job: &Name, name: &str) -> Result<(), AllocError>
    ensures { OnOk result (env.new ≡ model.with_instance
        (record { job = job.now; instance = name.now }) env.old) }
{
    put(env, "UPSTART_JOB", job.as_str())?;
    put(env, "UPSTART_INSTANCE", name)
}

fn stop_env_by(alloc: Global, events: &[&Event]) -> Result<Env, AllocError>
    ensures { IfOk result (λ env. env ≡ model.stopped_by (map (λ event. event.now) events.now)) }
{
    let names = names_of(alloc, events)?;
    let mut env = Env::new(alloc);
    collect(&mut env, events)?;
    put(&mut env, "UPSTART_STOP_EVENTS", names.as_str())?;
    Ok(env)
}

/// The variables that a stop by these events adds for pre-stop and post-stop.
pub(crate) fn stop_env<B: Book>(
    alloc: Global,
    book: &B,
    keys: &[EventId],
) -> Result<Env, AllocError>
    ensures { IfOk result (λ env. (mode : Mode) (config : Configuration) (c : Chronicle) (places : List ℕ)
        → B.stands book.now mode config c
        → map (B.event_place book.now c) keys.now ≡ map Some places
        → env ≡ model.stopped_by (model.events_at places c)) }
{
    let events = events_of(alloc, book, keys)?;
    stop_env_by(alloc, events.as_slice())
}
