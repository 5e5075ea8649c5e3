//! How the event of a turn is offered to the expressions, and the effect of one that fires.
ghost use Rattle.std.specs.Prelude.{◌≡◌, ℕ, nat_lt, length, List, ◌++◌, map, Some, IfOk, OnOk};
ghost use Rattle.up_book.specs.Histories.{IsUnmade, KeepsPlaces, OfHeld, OfInstance};
ghost use Rattle.up_cascade.specs.Histories.{OfStarted, start_made, start_named};
ghost use Rattle.up_book.specs.Keys.{job_at, Mode, Stepping, name_at, instance_place};
ghost use Rattle.up_model.specs.Chronicle.{Chronicle};
ghost use Rattle.up_model.specs.Configuration.{Configuration};
ghost use Rattle.up_conf.specs.declared.job.JobDef.{JobDef as JobValue};
ghost use Rattle.up_model.specs.declared.who.Who.{Who as WhoValue};
ghost use Rattle.up_model.specs.Environments as environments;
ghost use Rattle.up_model.specs.Instances.{instances_of};
ghost use Rattle.up_cascade.specs.Offering.{after_start_on, after_stop_on};
ghost use Rattle.up_model.specs.Offers as model;
ghost use Rattle.up_model.specs.Readings as read;
ghost use Rattle.up_model.specs.Values.{Bytes};

use crate::environment::start_env;
use crate::events::{add_instance, events_env, stop_env};
use crate::setup::Setup;
use std::alloc::{AllocError, Global};
use up_book::{Book, Holders};
use up_image::JobFile;
use up_job::{InstanceKey, MAX_INSTANCES};
use up_model::{EventId, Goal, JobDef};
use up_text::{Env, Expanded, Items, Text, TextFault, expand};

/// Sets the goal to stop, with this environment and these holders.
pub fn stop_of<B: Book>(
    book: &mut B,
    key: InstanceKey,
    environment: Env,
    holders: Holders,
) -> Result<(), AllocError>
    ensures after { OnOk result ((config : Configuration)
        → OfHeld (B.stands book.old Stepping) (B.event_place book.old) config key holders (λ c i places.
        B.stands book.new Stepping config (model.stop_of i environment places c ++ c))) }
    ensures events { OnOk result ((config : Configuration)
        → OfHeld (B.stands book.old Stepping) (B.event_place book.old) config key holders (λ c i places.
        KeepsPlaces B.event_place book.old book.new c (model.stop_of i environment places c ++ c))) }
{
    book.release(key)?;
    book.aim(key, Goal::Stop, environment, holders)?;
    Ok(())
}

// Sets the goal to stop by these events, if it is start.
fn stop_by<B: Book>(
    alloc: Global,
    book: &mut B,
    key: InstanceKey,
    holders: Items<EventId>,
) -> Result<(), AllocError>
    ensures after { OnOk result ((config : Configuration) (c : Chronicle) (i : ℕ) (events : List ℕ)
        → B.stands book.old Stepping config c
        → instance_place config c key ≡ Some i → map (B.event_place book.old c) holders ≡ map Some events
        → B.stands book.new Stepping config (model.stop_by i events c ++ c)) }
    ensures events { OnOk result ((config : Configuration) (c : Chronicle) (i : ℕ) (events : List ℕ)
        → B.stands book.old Stepping config c → instance_place config c key ≡ Some i
        → map (B.event_place book.old c) holders ≡ map Some events
        → KeepsPlaces B.event_place book.old book.new c (model.stop_by i events c ++ c)) }
{
    if book.goal(key).is_start() {
        let environment = stop_env(alloc, book, holders.as_slice())?;
        stop_of(book, key, environment, Holders::Taken(holders))?;
    }
    Ok(())
}

fn stop_fires<B: Book>(
    alloc: Global,
    setup: &Setup,
    book: &mut B,
    job: &JobDef,
    key: InstanceKey,
) -> Result<(), AllocError>
    ensures after { OnOk result (OfInstance (B.stands book.old Stepping) setup.now key (λ c i.
        read.file_of i c ≡ Some job.now → B.stands book.new Stepping setup.now (after_stop_on setup.now job.now i c))) }
    ensures events { OnOk result (OfInstance (B.stands book.old Stepping) setup.now key (λ c i.
        read.file_of i c ≡ Some job.now → KeepsPlaces B.event_place book.old book.new c
        (after_stop_on setup.now job.now i c))) }
{
    let holders = book.fire_stop(job, key)?;
    stop_by(alloc, book, key, holders)?;
    Ok(())
}

pub(crate) fn offer_stop<B: Book>(
    alloc: Global,
    setup: &Setup,
    book: &mut B,
    file: &JobFile,
    key: InstanceKey,
    event: EventId,
) -> Result<(), AllocError>
    ensures after { OnOk result ((c : Chronicle) (i e : ℕ) → B.stands book.old Stepping setup.now c
        → instance_place setup.now c key ≡ Some i
        → read.file_of i c ≡ Some file.now → B.event_place book.old c event ≡ Some e
        → B.stands book.new Stepping setup.now (model.stop_offer setup.now file.now i e c ++ c)) }
    ensures events { OnOk result ((c : Chronicle) (i e : ℕ) → B.stands book.old Stepping setup.now c
        → instance_place setup.now c key ≡ Some i → read.file_of i c ≡ Some file.now
        → B.event_place book.old c event ≡ Some e
        → KeepsPlaces B.event_place book.old book.new c (model.stop_offer setup.now file.now i e c ++ c)) }
{
    let holds = book.offer_stop(file, key, event)?;
    if holds {
        stop_fires(alloc, setup, book, file.job(), key)?;
    }
    Ok(())
}

// Sets the goal of an existing instance to start, if it is stop.
fn start_old<B: Book>(
    book: &mut B,
    key: InstanceKey,
    environment: Env,
    holders: Holders,
) -> Result<(), AllocError>
    ensures after { OnOk result ((config : Configuration) (job : JobValue) (who : WhoValue)
        → OfHeld (B.stands book.old Stepping) (B.event_place book.old) config key holders (λ c i places.
        B.stands book.new Stepping config (model.start_of job who environment places (Some i) c ++ c))) }
    ensures events { OnOk result ((config : Configuration) (job : JobValue) (who : WhoValue)
        → OfHeld (B.stands book.old Stepping) (B.event_place book.old) config key holders (λ c i places.
        KeepsPlaces B.event_place book.old book.new c (model.start_of job who environment places (Some i) c ++ c))) }
{
    if !book.goal(key).is_start() {
        book.release(key)?;
        book.aim(key, Goal::Start, environment, holders)?;
    }
    Ok(())
}

/// Whether a job may have one more instance.
pub fn has_room<B: Book>(book: &B, job: usize) -> bool
    ensures { (mode : Mode) (config : Configuration) (c : Chronicle) (its : Bytes)
        → B.stands book.now mode config c → name_at config job ≡ Some its
        → result ≡ nat_lt (length (instances_of its c)) model.max_instances }
{
    book.count(job) < MAX_INSTANCES
}

// Makes an instance with goal start, if the job may have one more.
fn start_new<B: Book>(
    book: &mut B,
    index: usize,
    file: &JobFile,
    name: &str,
    environment: Env,
    holders: Holders,
) -> Result<(), AllocError>
    ensures after { OnOk result ((config : Configuration)
        → OfStarted (B.stands book.old Stepping) (B.event_place book.old) config index file.now holders (λ c places.
        IsUnmade file.now name.now c
        → B.stands book.new Stepping config (start_made file.now name.now environment places c ++ c))) }
    ensures events { OnOk result ((config : Configuration)
        → OfStarted (B.stands book.old Stepping) (B.event_place book.old) config index file.now holders (λ c places.
        IsUnmade file.now name.now c
        → KeepsPlaces B.event_place book.old book.new c (start_made file.now name.now environment places c ++ c))) }
{
    if has_room(book, index) {
        let key = book.make(index, file, name)?;
        book.aim(key, Goal::Start, environment, holders)?;
    }
    Ok(())
}

// Sets the goal of an instance to start; makes it if it doesn't exist.
fn start_of<B: Book>(
    book: &mut B,
    index: usize,
    file: &JobFile,
    name: &str,
    environment: Env,
    holders: Holders,
) -> Result<(), AllocError>
    ensures after { OnOk result ((config : Configuration)
        → OfStarted (B.stands book.old Stepping) (B.event_place book.old) config index file.now holders (λ c places.
        B.stands book.new Stepping config (start_named file.now name.now environment places c ++ c))) }
    ensures events { OnOk result ((config : Configuration)
        → OfStarted (B.stands book.old Stepping) (B.event_place book.old) config index file.now holders (λ c places.
        KeepsPlaces B.event_place book.old book.new c (start_named file.now name.now environment places c ++ c))) }
{
    match book.find(index, name) {
        Some(key) => start_old(book, key, environment, holders)?,
        None => start_new(book, index, file, name, environment, holders)?,
    }
    Ok(())
}

/// Sets the goal of an instance to start, with this environment plus UPSTART_JOB and UPSTART_INSTANCE. The job has this index.
pub fn start_called<B: Book>(
    book: &mut B,
    index: usize,
    file: &JobFile,
    name: &str,
    mut environment: Env,
    holders: Holders,
) -> Result<(), AllocError>
    ensures after { OnOk result ((config : Configuration)
        → OfStarted (B.stands book.old Stepping) (B.event_place book.old) config index file.now holders (λ c places.
        B.stands book.new Stepping config (model.start_who file.now environment places
        (model.who_called file.now.name (Some name.now)) c ++ c))) }
    ensures events { OnOk result ((config : Configuration)
        → OfStarted (B.stands book.old Stepping) (B.event_place book.old) config index file.now holders (λ c places.
        KeepsPlaces B.event_place book.old book.new c (model.start_who file.now environment places
        (model.who_called file.now.name (Some name.now)) c ++ c))) }
{
    add_instance(&mut environment, &file.job().name, name)?;
    start_of(book, index, file, name, environment, holders)?;
    Ok(())
}

// The name of the instance that a start or a command concerns, if it expands.
#[tactic(auto, using(crate::proofs::SetupLemmas::gives_text, crate::proofs::SetupLemmas::gives_unset, crate::proofs::SetupLemmas::gives_malformed))]
fn instance_name(alloc: Global, job: &JobDef, environment: &Env) -> Result<Option<Text>, AllocError>
    ensures { IfOk result (λ name. name ≡ environments.instance_name job.now environment.now) }
{
    match expand(alloc, job.instance.as_str(), environment) {
        Ok(Expanded::Text(name)) => Ok(Some(name)),
        Ok(Expanded::Unset(_)) => Ok(None),
        Err(TextFault::BadExpansion) => Ok(None),
        Err(_) => Err(AllocError),
    }
}

// Starts by these events; does nothing if the instance name doesn't expand.
fn start_by<B: Book>(
    alloc: Global,
    setup: &Setup,
    book: &mut B,
    index: usize,
    file: &JobFile,
    holders: Items<EventId>,
) -> Result<(), AllocError>
    ensures after { OnOk result ((c : Chronicle) (events : List ℕ) → B.stands book.old Stepping setup.now c
        → job_at setup.now index ≡ Some file.now
        → map (B.event_place book.old c) holders ≡ map Some events
        → B.stands book.new Stepping setup.now (model.start_by setup.now file.now events c ++ c)) }
    ensures events { OnOk result ((c : Chronicle) (events : List ℕ) → B.stands book.old Stepping setup.now c
        → job_at setup.now index ≡ Some file.now → map (B.event_place book.old c) holders ≡ map Some events
        → KeepsPlaces B.event_place book.old book.new c (model.start_by setup.now file.now events c ++ c)) }
{
    let base = setup.environment_at(index);
    let environment = events_env(alloc, base, book, holders.as_slice())?;
    match instance_name(alloc, file.job(), &environment)? {
        Some(name) => {
            let keys = holders.as_slice();
            let environment = start_env(
                alloc,
                setup,
                book,
                index,
                name.as_str(),
                environment,
                keys,
            )?;
            let holders = Holders::Taken(holders);
            start_called(book, index, file, name.as_str(), environment, holders)?;
        }
        None => {}
    }
    Ok(())
}

fn start_fires<B: Book>(
    alloc: Global,
    setup: &Setup,
    book: &mut B,
    index: usize,
    file: &JobFile,
) -> Result<(), AllocError>
    ensures after { OnOk result ((c : Chronicle) → B.stands book.old Stepping setup.now c
        → job_at setup.now index ≡ Some file.now
        → B.stands book.new Stepping setup.now (after_start_on setup.now file.now c)) }
    ensures events { OnOk result ((c : Chronicle) → B.stands book.old Stepping setup.now c
        → job_at setup.now index ≡ Some file.now → KeepsPlaces B.event_place book.old book.new c
        (after_start_on setup.now file.now c)) }
{
    let holders = book.fire_start(index, file.job())?;
    start_by(alloc, setup, book, index, file, holders)?;
    Ok(())
}

pub(crate) fn offer_start<B: Book>(
    alloc: Global,
    setup: &Setup,
    book: &mut B,
    index: usize,
    file: &JobFile,
    event: EventId,
) -> Result<(), AllocError>
    ensures after { OnOk result ((c : Chronicle) (e : ℕ) → B.stands book.old Stepping setup.now c
        → job_at setup.now index ≡ Some file.now
        → B.event_place book.old c event ≡ Some e
        → B.stands book.new Stepping setup.now (model.start_offer setup.now file.now e c ++ c)) }
    ensures events { OnOk result ((c : Chronicle) (e : ℕ) → B.stands book.old Stepping setup.now c
        → job_at setup.now index ≡ Some file.now → B.event_place book.old c event ≡ Some e
        → KeepsPlaces B.event_place book.old book.new c (model.start_offer setup.now file.now e c ++ c)) }
{
    let holds = book.offer_start(index, file.job(), setup.environment_at(index), event)?;
    if holds {
        start_fires(alloc, setup, book, index, file)?;
    }
    Ok(())
}
