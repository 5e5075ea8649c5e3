//! The orders and the signals of an instance.
ghost use Rattle.std.specs.Prelude.{◌≡◌, ◌∷◌, [], codes, IfOk, OnOk, Some};
ghost use Rattle.std.specs.Option.{option_copied, option_map_or};
ghost use Rattle.up_book.specs.Sending.{env_by, listed, order_by, signal_by};
ghost use Rattle.up_book.specs.Views.{Places, view};
ghost use Rattle.up_conf.specs.declared.job.JobDef.{JobDef as JobValue};
ghost use Rattle.up_model.specs.declared.output.Output.TheVariants as output;
ghost use Rattle.up_model.specs.Moves.{action_of};
ghost use Rattle.up_model.specs.Outputs as model;
ghost use Rattle.up_model.specs.Readings.{has_stop_env};
ghost use Rattle.up_text.specs.Bindings.{set_all};

use std::alloc::{AllocError, Global};
use up_conf::{Action, JobDef};
use up_job::Instance;
use up_model::{Order, Output, Process, Who};
use up_text::{Env, Items, Name, Text, copy_texts};

// An instance as it is known outside.
fn who_of(job: &Name, kept: &Instance) -> Result<Who, AllocError>
    ensures { IfOk result (λ who. who ≡ record { job = job.now; instance = kept.now.name }) }
{
    let job = job.copy()?;
    let instance = kept.name.copy()?;
    Ok(Who { job, instance })
}

// The words that run a text in the shell.
fn shell_words(alloc: Global, text: &Text) -> Result<Items<Text>, AllocError>
    ensures { IfOk result (λ words. words ≡ codes "/bin/sh" ∷ codes "-e" ∷ codes "-c" ∷ text.now ∷ []) }
{
    let mut words = Vec::with_capacity(alloc, 4)?;
    words.push(Text::from_str(alloc, "/bin/sh")?)?;
    words.push(Text::from_str(alloc, "-e")?)?;
    words.push(Text::from_str(alloc, "-c")?)?;
    words.push(text.copy()?)?;
    Ok(Items::new(words))
}

fn argv_of(alloc: Global, action: &Action) -> Result<Items<Text>, AllocError>
    ensures { IfOk result (λ words. words ≡ model.argv_of action.now) }
{
    match action {
        Action::Words(words) => copy_texts(alloc, words.as_slice()),
        Action::Shell(text) => shell_words(alloc, text),
    }
}

// The folder in which a job's processes run (init(5), `chdir`).
fn dir_of(alloc: Global, dir: &Text) -> Result<Text, AllocError>
    ensures { IfOk result (λ folder. folder ≡ model.dir_of dir.now) }
{
    if dir.as_str().is_empty() {
        return Text::from_str(alloc, "/");
    }
    dir.copy()
}

pub fn action_of(job: &JobDef, process: Process) -> Option<&Action>
    ensures { option_copied result ≡ action_of job.now process }
{
    match process {
        Process::Main => job.main.as_ref(),
        Process::PreStart => job.pre_start.as_ref(),
        Process::PostStart => job.post_start.as_ref(),
        Process::PreStop => job.pre_stop.as_ref(),
        Process::PostStop => job.post_stop.as_ref(),
    }
}

fn has_stop_env(process: Process) -> bool
    ensures { result ≡ has_stop_env process }
{
    matches!(process, Process::PreStop | Process::PostStop)
}

fn env_or_empty(alloc: Global, found: Option<&Env>) -> Result<Env, AllocError>
    ensures { IfOk result (λ env. env ≡ option_map_or (λ env. env.now) found.entry []) }
{
    match found {
        Some(env) => env.copy(),
        None => Ok(Env::new(alloc)),
    }
}

// Sets the variables of another environment, if there is one.
fn append(env: &mut Env, found: Option<&Env>) -> Result<(), AllocError>
    ensures { OnOk result (env.new ≡ set_all env.old (option_map_or (λ env. env.now) found.entry [])) }
{
    match found {
        Some(more) => env.append(more),
        None => Ok(()),
    }
}

// The environment of a process (init(5)): the one in force, and for pre-stop and post-stop what the last stop adds.
fn env_of(alloc: Global, kept: &Instance, process: Process) -> Result<Env, AllocError>
    ensures { IfOk result (λ env. (places : Places) → env ≡ env_by (view places kept.now) process) }
{
    let mut env = env_or_empty(alloc, kept.env.as_ref())?;
    if has_stop_env(process) {
        append(&mut env, kept.stop_env.as_ref())?;
    }
    Ok(env)
}

fn order_for(
    alloc: Global,
    job: &JobDef,
    who: Who,
    process: Process,
    action: &Action,
    env: Env,
) -> Result<Order, AllocError>
    ensures { IfOk result (λ order. output.Spawn order ∷ []
        ≡ model.order_for job.now who process (Some action.now) env) }
{
    let argv = argv_of(alloc, action)?;
    let dir = dir_of(alloc, &job.dir)?;
    Ok(Order {
        who,
        process,
        argv,
        dir,
        silent: job.silent,
        env,
    })
}

fn order_with(
    alloc: Global,
    job: &JobDef,
    kept: &Instance,
    process: Process,
    action: &Action,
) -> Result<Order, AllocError>
    ensures { IfOk result (λ order. (places : Places) → action_of job.now process ≡ Some action.now
        → output.Spawn order ∷ [] ≡ order_by job.now (view places kept.now) process) }
{
    let who = who_of(&job.name, kept)?;
    let env = env_of(alloc, kept, process)?;
    let order = order_for(alloc, job, who, process, action, env)?;
    Ok(order)
}

/// The output that starts a process of an instance, if its job has the process.
pub fn order_of(
    alloc: Global,
    job: &JobDef,
    kept: &Instance,
    process: Process,
) -> Result<Option<Output>, AllocError>
    ensures { IfOk result (λ output. (places : Places)
        → listed output ≡ order_by job.now (view places kept.now) process) }
{
    match action_of(job, process) {
        Some(action) => {
            let order = order_with(alloc, job, kept, process, action)?;
            Ok(Some(Output::Spawn(order)))
        }
        None => Ok(None),
    }
}

/// The output that sends a signal to main of an instance of this job, if it lives.
pub fn signal_of(job: &Name, kept: &Instance, signal: u8) -> Result<Option<Output>, AllocError>
    ensures { IfOk result (λ output. (places : Places) (its : JobValue) → its.name ≡ job.now
        → listed output ≡ signal_by its (view places kept.now) signal) }
{
    match kept.children.main.pid {
        Some(pid) => {
            let who = who_of(job, kept)?;
            Ok(Some(Output::Signal { who, pid, signal }))
        }
        None => Ok(None),
    }
}
