//! Daemons between hosts, doors and sources that play scripts.
use crate::parts::{both, push};
use std::alloc::{AllocError, Global};
use std::test::Fail;
use up_conf::Folder;
use up_daemon::Daemon;
use up_edge::{ScriptDoor, ScriptHost, ScriptSource};
use up_engine::Engine;
use up_image::{Table, compile};
use up_model::{Event, Input};
use up_text::{Env, Items, Name, Text};

// A job that an event starts.
const ON_GO: &str = "start on go\nexec /bin/d\n";

// A job with a process before its main one.
const PREPARED: &str = "start on go\nexec /bin/d\npre-start exec /bin/p\n";

fn path_and_bytes(alloc: Global, path: &str, file: &str) -> Result<(Text, Vec<u8>), AllocError> {
    both(
        Text::from_str(alloc, path),
        Vec::from_slice(alloc, file.as_bytes()),
    )
}

/// Adds a job file.
pub(crate) fn add_job(
    alloc: Global,
    folder: &mut Folder,
    path: &str,
    file: &str,
) -> Result<(), Fail> {
    let (path, bytes) = path_and_bytes(alloc, path, file)?;
    folder.add(path, Items::new(bytes))?;
    Ok(())
}

/// The table of a folder.
pub(crate) fn compiled(alloc: Global, folder: &Folder) -> Result<Table, Fail> {
    let (table, report) = compile(alloc, folder)?;
    drop(report);
    Ok(table)
}

/// The table of a folder with this job file alone. The folder is dropped by a call, as are hosts and doors below: the prover would go through
/// each field of what a scope drops.
pub(crate) fn table_of(alloc: Global, file: &str) -> Result<Table, Fail> {
    let mut folder = Folder::new(alloc);
    let table = match add_job(alloc, &mut folder, "a.conf", file) {
        Ok(()) => compiled(alloc, &folder),
        Err(fail) => Err(fail),
    };
    drop(folder);
    table
}

fn engine(alloc: Global, file: &str) -> Result<Engine, Fail> {
    let table = table_of(alloc, file)?;
    Ok(Engine::new(alloc, table, Env::new(alloc))?)
}

// The event `go`.
fn go(alloc: Global) -> Result<Event, Fail> {
    let name = Name::new(alloc, "go")?;
    let vars = Env::new(alloc);
    Ok(Event { name, vars })
}

// The event `go` happens.
fn emit_go(alloc: Global, engine: &mut Engine) -> Result<(), Fail> {
    let event = go(alloc)?;
    let outputs = engine.step(Input::Emit(event))?;
    drop(outputs);
    Ok(())
}

// A daemon of the job, to which the event `go` has happened.
fn going_daemon(alloc: Global) -> Result<Daemon, Fail> {
    let mut engine = engine(alloc, ON_GO)?;
    match emit_go(alloc, &mut engine) {
        Ok(()) => Ok(Daemon::new(alloc, engine)),
        Err(fail) => {
            drop(engine);
            Err(fail)
        }
    }
}

// The event `go` alone.
fn one_go(alloc: Global) -> Result<Vec<Event>, Fail> {
    let event = go(alloc)?;
    let mut events: Vec<Event> = Vec::new(alloc);
    push(&mut events, event)?;
    Ok(events)
}

// A daemon of the job, which begins with the event `go`.
fn beginning_daemon(alloc: Global) -> Result<Daemon, Fail> {
    let engine = engine(alloc, ON_GO)?;
    match one_go(alloc) {
        Ok(first) => Ok(Daemon::begin(alloc, engine, first)),
        Err(fail) => {
            drop(engine);
            Err(fail)
        }
    }
}

// A daemon to whose job, which has a process before its main one, nothing has happened.
fn idle_daemon(alloc: Global) -> Result<Daemon, Fail> {
    Ok(Daemon::new(alloc, engine(alloc, PREPARED)?))
}

/// What happens before the first round.
#[derive(Clone, Copy)]
pub(crate) enum Before {
    /// The event `go`, which starts the job.
    Go,
    /// Nothing, and the daemon begins with the event `go`.
    Begin,
    /// Nothing, and the job has a process before its main one.
    Nothing,
}

fn daemon_of(alloc: Global, before: Before) -> Result<Daemon, Fail> {
    match before {
        Before::Go => going_daemon(alloc),
        Before::Begin => beginning_daemon(alloc),
        Before::Nothing => idle_daemon(alloc),
    }
}

/// A daemon with its host, its door and its source.
#[derive(Drop)]
pub(crate) struct Scene {
    pub(crate) daemon: Daemon,
    pub(crate) host: ScriptHost,
    pub(crate) door: ScriptDoor,
    pub(crate) source: ScriptSource,
}

fn scene_of(
    alloc: Global,
    daemon: Result<Daemon, Fail>,
    host: ScriptHost,
    door: ScriptDoor,
) -> Result<Scene, Fail> {
    match daemon {
        Ok(daemon) => Ok(Scene {
            daemon,
            host,
            door,
            source: ScriptSource::new(alloc, Vec::new(alloc)),
        }),
        Err(fail) => {
            drop(host);
            drop(door);
            Err(fail)
        }
    }
}

/// A daemon of the job with this host and this door.
pub(crate) fn make_scene(
    alloc: Global,
    before: Before,
    host: Result<ScriptHost, AllocError>,
    door: Result<ScriptDoor, AllocError>,
) -> Result<Scene, Fail> {
    match both(host, door) {
        Ok((host, door)) => scene_of(alloc, daemon_of(alloc, before), host, door),
        Err(refused) => Err(Fail::from(refused)),
    }
}
