//! The daemon at the start of a run.
ghost use Rattle.std.specs.Prelude.{◌≡◌, IfOk, []};
ghost use Rattle.up_engine.specs.Stands.{Stands};
ghost use Rattle.up_run.specs.Starts.{Begins, first_events, run_base, run_of};

use std::alloc::{AllocError, Global};
use up_daemon::Daemon;
use up_engine::Engine;
use up_image::Table;
use up_model::Event;
use up_text::{Env, Name};

/// The folders that are searched for the programs of jobs.
pub(crate) const SEARCHED: &str = "/usr/sbin:/usr/bin:/sbin:/bin";

// The environment of each process of a run, before that of its job.
fn run_environment(alloc: Global) -> Result<Env, AllocError>
    ensures { IfOk result (λ base. base ≡ run_base) }
{
    let mut base = Env::new(alloc);
    match base.set("PATH", SEARCHED) {
        Ok(()) => Ok(base),
        Err(_) => Err(AllocError),
    }
}

// The events at the start of a run: one (startup(7)).
fn first_events(alloc: Global) -> Result<Vec<Event>, AllocError>
    ensures { IfOk result (λ events. events.items ≡ first_events) }
{
    let Ok(name) = Name::new(alloc, "startup") else {
        return Err(AllocError);
    };
    let vars = Env::new(alloc);
    let mut events: Vec<Event> = Vec::new(alloc);
    events.push(Event { name, vars })?;
    Ok(events)
}

fn engine_over(alloc: Global, table: Table) -> Result<Engine, AllocError>
    ensures { IfOk result (λ engine. Stands engine (run_of table) []) }
{
    match run_environment(alloc) {
        Ok(base) => Engine::new(alloc, table, base),
        Err(refused) => {
            drop(table);
            Err(refused)
        }
    }
}

/// The daemon of a run: over these jobs, with the events that its first round feeds.
pub(crate) fn first_daemon(alloc: Global, table: Table) -> Result<Daemon, AllocError>
    ensures { IfOk result (Begins table) }
{
    let engine = engine_over(alloc, table)?;
    match first_events(alloc) {
        Ok(first) => Ok(Daemon::begin(alloc, engine, first)),
        Err(refused) => {
            drop(engine);
            Err(refused)
        }
    }
}
