//! A job under construction, which borrows from its stanzas: a text, a command or an expression that a later stanza replaces is never
//! copied.
ghost use Rattle.std.specs.Prelude.{◌≡◌, ◌∷◌, [], IfOk, option_copied, unwrap_or};
ghost use Rattle.std.specs.List.{list_any};
ghost use Rattle.up_stanza.specs.declared.stanza.Stanza.TheVariants.{NormalExit, Runs};
ghost use Rattle.up_stanza.specs.Exits.{same_exit};
ghost use Rattle.up_conf.specs.Jobs.{with_new_item, with_new_items, is_silent, plain_job};
ghost use Rattle.up_conf.specs.Gathering.{others_after};

use crate::both::both;
use crate::job::JobDef;
use std::alloc::{AllocError, Global};
use std::marker::Model;
use up_expr::Condition;
use up_stanza::{Action, Console, Exit, Limit, Process, Setting, Signal, Stanza};
use up_text::{Items, Name, Text};

/// A job under construction, seen by contracts as a job without a name and without keys.
#[derive(Drop)]
pub(crate) struct Outline<'a> {
    task: bool,
    respawn: bool,
    silent: bool,
    instance: Option<&'a Text>,
    dir: Option<&'a Text>,
    limit: Limit,
    kill_signal: Signal,
    kill_timeout: u32,
    reload_signal: Signal,
    normal: Items<Exit>,
    main: Option<&'a Action>,
    pre_start: Option<&'a Action>,
    post_start: Option<&'a Action>,
    pre_stop: Option<&'a Action>,
    post_stop: Option<&'a Action>,
    start_on: Option<&'a Condition>,
    stop_on: Option<&'a Condition>,
}

impl<'a> Model for Outline<'a> {
    ghost use Rattle.up_conf.specs.declared.job.JobDef.{JobDef};
    ghost use Rattle.up_conf.specs.Gathering.{job_of_outline};
    ghost use Rattle.up_conf.specs.contracts.job.JobDef as job;

    ghost Value = { JobDef };

    ghost coded = { job.the_row.coded };

    ghost view = { job_of_outline };
}

fn is_silent(console: Console) -> bool
    ensures { result ≡ is_silent console }
{
    matches!(console, Console::None)
}

fn has_exit(exits: &[Exit], exit: &Exit) -> bool
    ensures { result ≡ list_any (same_exit exit.now) exits.now }
{
    exits.iter().any(|other| exit.is(*other))
}

// Adds an exit, unless it is present already.
fn add_exit(exits: Items<Exit>, exit: &Exit) -> Result<Items<Exit>, AllocError>
    ensures { IfOk result (λ new. new ≡ with_new_item same_exit exits exit.now) }
{
    if has_exit(exits.as_slice(), exit) {
        return Ok(exits);
    }
    let mut exits = exits.into_vec();
    exits.push(*exit)?;
    Ok(Items::new(exits))
}

fn add_exits(exits: Items<Exit>, others: &[Exit]) -> Result<Items<Exit>, AllocError>
    ensures { IfOk result (λ new. new ≡ with_new_items same_exit exits others.now) }
{
    let mut exits = exits;
    for other in others {
        exits = add_exit(exits, other)?;
    }
    Ok(exits)
}

/// The defaults, before any stanza.
pub(crate) fn plain_outline<'a>(alloc: Global) -> Outline<'a>
    ensures { result ≡ plain_job [] }
{
    Outline {
        task: false,
        respawn: false,
        silent: false,
        instance: None,
        dir: None,
        limit: Limit {
            count: 10,
            interval: 5,
        },
        kill_signal: Signal::term(),
        kill_timeout: 5,
        reload_signal: Signal::hup(),
        normal: Items::new(Vec::new(alloc)),
        main: None,
        pre_start: None,
        post_start: None,
        pre_stop: None,
        post_stop: None,
        start_on: None,
        stop_on: None,
    }
}

fn with_action<'a>(job: Outline<'a>, process: Process, action: &'a Action) -> Outline<'a>
    ensures { result ≡ others_after job.entry (Runs process action.now ∷ []) }
{
    let mut job = job;
    let action = Some(action);
    match process {
        Process::Main => job.main = action,
        Process::PreStart => job.pre_start = action,
        Process::PostStart => job.post_start = action,
        Process::PreStop => job.pre_stop = action,
        Process::PostStop => job.post_stop = action,
    }
    job
}

fn with_normal<'a>(job: Outline<'a>, exits: &[Exit]) -> Result<Outline<'a>, AllocError>
    ensures { IfOk result (λ new. new ≡ others_after job.entry (NormalExit exits.now ∷ [])) }
{
    let mut job = job;
    job.normal = add_exits(job.normal, exits)?;
    Ok(job)
}

// The job after a stanza, except for the keys that it sets and exports.
fn with_stanza<'a>(job: Outline<'a>, stanza: &'a Stanza) -> Result<Outline<'a>, AllocError>
    ensures { IfOk result (λ new. new ≡ others_after job.entry (stanza.now ∷ [])) }
{
    let mut job = job;
    match stanza {
        Stanza::NormalExit(exits) => return with_normal(job, exits.as_slice()),
        Stanza::Runs(process, action) => return Ok(with_action(job, *process, action)),
        Stanza::Task => job.task = true,
        Stanza::Manual => job.start_on = None,
        Stanza::Respawn => job.respawn = true,
        Stanza::RespawnLimit(limit) => job.limit = *limit,
        Stanza::KillTimeout(seconds) => job.kill_timeout = *seconds,
        Stanza::KillSignal(signal) => job.kill_signal = *signal,
        Stanza::ReloadSignal(signal) => job.reload_signal = *signal,
        Stanza::Instance(name) => job.instance = Some(name),
        Stanza::Console(console) => job.silent = is_silent(*console),
        Stanza::Chdir(dir) => job.dir = Some(dir),
        Stanza::StartOn(tree) => job.start_on = Some(tree),
        Stanza::StopOn(tree) => job.stop_on = Some(tree),
        Stanza::About(_) | Stanza::Emits(_) | Stanza::Env(_) | Stanza::Export(_) => {}
    }
    Ok(job)
}

/// The job after stanzas, except for the keys that they set and export.
pub(crate) fn with_stanzas<'a>(
    job: Outline<'a>,
    stanzas: &'a [Stanza],
) -> Result<Outline<'a>, AllocError>
    ensures { IfOk result (λ new. new ≡ others_after job.entry stanzas.now) }
{
    let mut job = job;
    for stanza in stanzas {
        job = with_stanza(job, stanza)?;
    }
    Ok(job)
}

// Empty if there is no text.
fn copy_text(text: Option<&Text>) -> Result<Text, AllocError>
    ensures { IfOk result (λ copied. copied ≡ unwrap_or (option_copied text.entry) []) }
{
    match text {
        Some(text) => text.copy(),
        None => Ok(Text::empty()),
    }
}

fn copy_run(alloc: Global, action: Option<&Action>) -> Result<Option<Action>, AllocError>
    ensures { IfOk result (λ copied. copied ≡ option_copied action.entry) }
{
    match action {
        Some(action) => {
            let action = action.copy(alloc)?;
            Ok(Some(action))
        }
        None => Ok(None),
    }
}

fn copy_tree(alloc: Global, tree: Option<&Condition>) -> Result<Option<Condition>, AllocError>
    ensures { IfOk result (λ copied. copied ≡ option_copied tree.entry) }
{
    match tree {
        Some(tree) => {
            let tree = tree.copy(alloc)?;
            Ok(Some(tree))
        }
        None => Ok(None),
    }
}

impl<'a> Outline<'a> {
    /// The job with this name and these keys, with copies of everything borrowed.
    pub(crate) fn into_job(
        self,
        alloc: Global,
        name: Name,
        env: Items<Setting>,
        export: Items<Text>,
    ) -> Result<JobDef, AllocError>
        ensures { IfOk result (λ job. job ≡ record self.entry { name = name; env = env; export = export }) }
    {
        let texts = both(copy_text(self.instance), copy_text(self.dir));
        let starts = both(
            copy_run(alloc, self.pre_start),
            copy_run(alloc, self.post_start),
        );
        let stops = both(
            copy_run(alloc, self.pre_stop),
            copy_run(alloc, self.post_stop),
        );
        let runs = both(copy_run(alloc, self.main), both(starts, stops));
        let trees = both(
            copy_tree(alloc, self.start_on),
            copy_tree(alloc, self.stop_on),
        );
        match both(texts, both(runs, trees)) {
            Ok((texts, (runs, trees))) => {
                let (instance, dir) = texts;
                let (main, (starts, stops)) = runs;
                let (pre_start, post_start) = starts;
                let (pre_stop, post_stop) = stops;
                let (start_on, stop_on) = trees;
                Ok(JobDef {
                    name,
                    task: self.task,
                    respawn: self.respawn,
                    silent: self.silent,
                    instance,
                    dir,
                    limit: self.limit,
                    kill_signal: self.kill_signal,
                    kill_timeout: self.kill_timeout,
                    reload_signal: self.reload_signal,
                    env,
                    export,
                    normal: self.normal,
                    main,
                    pre_start,
                    post_start,
                    pre_stop,
                    post_stop,
                    start_on,
                    stop_on,
                })
            }
            Err(refused) => {
                drop(name);
                drop(env);
                drop(export);
                Err(refused)
            }
        }
    }
}

/// An existing job, without its name and its keys, and with these exits in place of its own.
pub(crate) fn outline_of<'a>(job: &'a JobDef, normal: Items<Exit>) -> Outline<'a>
    requires { normal ≡ job.now.normal }
    ensures { result ≡ record job.now { name = []; env = []; export = [] } }
{
    Outline {
        task: job.task,
        respawn: job.respawn,
        silent: job.silent,
        instance: Some(&job.instance),
        dir: Some(&job.dir),
        limit: job.limit,
        kill_signal: job.kill_signal,
        kill_timeout: job.kill_timeout,
        reload_signal: job.reload_signal,
        normal,
        main: job.main.as_ref(),
        pre_start: job.pre_start.as_ref(),
        post_start: job.post_start.as_ref(),
        pre_stop: job.pre_stop.as_ref(),
        post_stop: job.post_stop.as_ref(),
        start_on: job.start_on.as_ref(),
        stop_on: job.stop_on.as_ref(),
    }
}
