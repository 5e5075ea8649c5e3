//! The environment of a start: that of the job file its instance was made from, and what the start adds (init(5), "Job environment").
ghost use Rattle.std.specs.Prelude.{◌≡◌, ℕ, Some, IfOk};
ghost use Rattle.up_book.specs.Keys.{Mode, instance_place, job_at};
ghost use Rattle.up_cascade.specs.Histories.{OfEvents, job_env_by, request_env_by, start_env_by};
ghost use Rattle.up_conf.specs.declared.job.JobDef.{JobDef as JobValue};
ghost use Rattle.up_model.specs.Chronicle.{Chronicle};
ghost use Rattle.up_model.specs.Commands as commands;
ghost use Rattle.up_model.specs.Environments as environments;
ghost use Rattle.up_model.specs.Readings as read;

use crate::events::events_env;
use crate::setup::Setup;
use std::alloc::{AllocError, Global};
use up_book::Book;
use up_job::InstanceKey;
use up_model::EventId;
use up_text::Env;

// The environment of the job file that an instance was made from.
fn own_env<B: Book>(setup: &Setup, book: &B, key: InstanceKey) -> Result<Env, AllocError>
    ensures { IfOk result (λ own. (mode : Mode) (c : Chronicle) (i : ℕ)
        → B.stands book.now mode setup.now c → instance_place setup.now c key ≡ Some i
        → own ≡ environments.env_by_job setup.now.base (read.file_of i c)) }
{
    match book.file(key) {
        Some(file) => {
            let own = setup.environment_by(file.job())?;
            Ok(own)
        }
        None => {
            let own = setup.base().copy()?;
            Ok(own)
        }
    }
}

/// The environment for starting this instance by these events. `at_hand` is the job's environment with the events' variables.
pub(crate) fn start_env<B: Book>(
    alloc: Global,
    setup: &Setup,
    book: &B,
    index: usize,
    name: &str,
    at_hand: Env,
    keys: &[EventId],
) -> Result<Env, AllocError>
    ensures { IfOk result (λ environment.
        OfEvents (B.stands book.now) (B.event_place book.now) setup.now index keys.now (λ c job places.
        at_hand ≡ job_env_by setup.now job places c → environment ≡ start_env_by setup.now job name.now places c)) }
{
    match book.find(index, name) {
        Some(key) => {
            drop(at_hand);
            let own = own_env(setup, book, key)?;
            let environment = events_env(alloc, &own, book, keys)?;
            Ok(environment)
        }
        None => Ok(at_hand),
    }
}

/// The environment with which a request would start this instance. `at_hand` is the job's, with the request's variables.
pub fn request_start_env<B: Book>(
    setup: &Setup,
    book: &B,
    index: usize,
    name: &str,
    at_hand: Env,
    vars: &Env,
) -> Result<Env, AllocError>
    ensures { IfOk result (λ environment. (mode : Mode) (c : Chronicle) (job : JobValue)
        → B.stands book.now mode setup.now c → job_at setup.now index ≡ Some job
        → at_hand ≡ commands.request_env setup.now job vars.now
        → environment ≡ request_env_by setup.now job name.now vars.now c) }
{
    match book.find(index, name) {
        Some(key) => {
            drop(at_hand);
            let mut own = own_env(setup, book, key)?;
            own.append(vars)?;
            Ok(own)
        }
        None => Ok(at_hand),
    }
}
