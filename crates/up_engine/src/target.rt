//! The job and the instance that a request names.
ghost use Rattle.std.specs.Prelude.{◌≡◌, ◌&&◌, length, not, Some, IfOk};
ghost use Rattle.up_book.specs.Keys.{Mode, job_at};
ghost use Rattle.up_conf.specs.declared.job.JobDef.{JobDef as JobValue};
ghost use Rattle.up_engine.specs.Requests.{target_of as said_of, IsIndexed};
ghost use Rattle.up_model.specs.Chronicle.{Chronicle};
ghost use Rattle.up_model.specs.Commands as model;
ghost use Rattle.up_model.specs.Configuration.{Configuration, is_removed, job_named};
ghost use Rattle.up_model.specs.Instances.{instances_of};
ghost use Rattle.up_text.specs.Scripts.{is_filled};
ghost use Rattle.up_text.specs.Expansion.{expand as expansion};

use crate::texts::{unknown_job, unknown_parameter};
use std::alloc::{AllocError, Global};
use up_book::Book;
use up_cascade::{Setup, request_start_env};
use up_image::JobFile;
use up_model::{JobDef, Who};
use up_text::{Env, Expanded, Text, TextFault, expand};

/// The job and the instance that a request names.
#[derive(Drop)]
pub(crate) enum Target<'a> {
    /// Nobody, with the text that reports it.
    Nobody(Text),
    /// A possible instance of the job at this index, and the environment of its start.
    Concerns {
        index: usize,
        file: &'a JobFile,
        who: Who,
        environment: Env,
    },
}

fn request_env(setup: &Setup, index: usize, vars: &Env) -> Result<Env, AllocError>
    ensures { IfOk result (λ environment. (job : JobValue) → job_at setup.now index ≡ Some job
        → environment ≡ model.request_env setup.now job vars.now) }
{
    let mut environment = setup.environment_at(index).copy()?;
    environment.append(vars)?;
    Ok(environment)
}

fn who_of(job: &JobDef, instance: Text) -> Result<Who, AllocError>
    ensures { IfOk result (λ who. who ≡ record { job = job.now.name; instance = instance }) }
{
    let job = job.name.copy()?;
    Ok(Who { job, instance })
}

// The instance that this environment names.
fn target_in<'a, B: Book>(
    alloc: Global,
    setup: &Setup,
    book: &B,
    index: usize,
    file: &'a JobFile,
    environment: Env,
    vars: &Env,
) -> Result<Target<'a>, AllocError>
    ensures target { IfOk result (λ target. (mode : Mode) (c : Chronicle)
        → B.stands book.now mode setup.now c → job_at setup.now index ≡ Some file.now
        → environment ≡ model.request_env setup.now file.now vars.now
        → said_of target ≡ model.target_as setup.now file.now vars.now
        (expansion file.now.instance environment) c) }
    ensures index { IfOk result (λ target. (config : Configuration)
        → job_at config index ≡ Some file.now → IsIndexed config target) }
{
    let job = file.job();
    match expand(alloc, job.instance.as_str(), &environment) {
        Ok(Expanded::Text(name)) => {
            let environment = request_start_env(
                setup,
                book,
                index,
                name.as_str(),
                environment,
                vars,
            )?;
            let who = who_of(job, name)?;
            Ok(Target::Concerns {
                index,
                file,
                who,
                environment,
            })
        }
        Ok(Expanded::Unset(key)) => Ok(Target::Nobody(unknown_parameter(alloc, key.as_str())?)),
        Err(TextFault::BadExpansion) => {
            Ok(Target::Nobody(unknown_parameter(alloc, job.instance.as_str())?))
        }
        Err(_) => Err(AllocError),
    }
}

// The job of this name, removed or not, and the instance that these variables name.
fn named_target<'a, B: Book>(
    alloc: Global,
    setup: &'a Setup,
    book: &B,
    name: &str,
    vars: &Env,
) -> Result<Target<'a>, AllocError>
    ensures target { IfOk result (λ target. (mode : Mode) (c : Chronicle) → B.stands book.now mode setup.now c
        → said_of target ≡ model.target_in setup.now name.now (job_named name.now setup.now.jobs) vars.now c) }
    ensures index { IfOk result (λ target. IsIndexed setup.now target) }
{
    match setup.job_named(name) {
        Some((index, file)) => {
            let environment = request_env(setup, index, vars)?;
            let target = target_in(alloc, setup, book, index, file, environment, vars)?;
            Ok(target)
        }
        None => Ok(Target::Nobody(unknown_job(alloc, name)?)),
    }
}

fn count_of<B: Book>(setup: &Setup, book: &B, name: &str) -> usize
    ensures { (mode : Mode) (c : Chronicle) → B.stands book.now mode setup.now c
        → result ≡ length (instances_of name.now c) }
{
    match setup.job_named(name) {
        Some((index, _)) => book.count(index),
        None => 0,
    }
}

// Whether a job was removed, and has no instance left.
fn is_gone<B: Book>(setup: &Setup, book: &B, name: &str) -> bool
    ensures { (mode : Mode) (c : Chronicle) → B.stands book.now mode setup.now c
        → result ≡ (is_removed setup.now name.now && not (is_filled (instances_of name.now c))) }
{
    setup.is_removed(name) && count_of(setup, book, name) == 0
}

/// The job of this name, unless it was removed, and the instance that these variables name.
pub(crate) fn target_of<'a, B: Book>(
    alloc: Global,
    setup: &'a Setup,
    book: &B,
    name: &str,
    vars: &Env,
) -> Result<Target<'a>, AllocError>
    ensures target { IfOk result (λ target. (mode : Mode) (c : Chronicle) → B.stands book.now mode setup.now c
        → said_of target ≡ model.target_of setup.now name.now vars.now c) }
    ensures index { IfOk result (λ target. IsIndexed setup.now target) }
{
    if setup.is_removed(name) {
        return Ok(Target::Nobody(unknown_job(alloc, name)?));
    }
    let target = named_target(alloc, setup, book, name, vars)?;
    Ok(target)
}

/// The same for a request that starts nothing: it knows a removed job as long as that has an instance.
pub(crate) fn known_target<'a, B: Book>(
    alloc: Global,
    setup: &'a Setup,
    book: &B,
    name: &str,
    vars: &Env,
) -> Result<Target<'a>, AllocError>
    ensures target { IfOk result (λ target. (mode : Mode) (c : Chronicle) → B.stands book.now mode setup.now c
        → said_of target ≡ model.known_target setup.now name.now vars.now c) }
    ensures index { IfOk result (λ target. IsIndexed setup.now target) }
{
    if is_gone(setup, book, name) {
        return Ok(Target::Nobody(unknown_job(alloc, name)?));
    }
    let target = named_target(alloc, setup, book, name, vars)?;
    Ok(target)
}
