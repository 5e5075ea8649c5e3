//! The texts for clients when a request is refused, and about jobs without instances.
ghost use Rattle.std.specs.Prelude.{[], ◌≡◌, ◌++◌, codes, IfOk};
ghost use Rattle.std.specs.Fmt.{decimal};
ghost use Rattle.up_model.specs.Commands as model;
ghost use Rattle.up_model.specs.Requests as request;
ghost use Rattle.up_model.specs.Status.{who_name};

use std::alloc::{AllocError, Global};
use up_model::{Command, Who, push_who};
use up_text::Text;

fn join_all(alloc: Global, start: &str, end: &str) -> Result<Text, AllocError>
    ensures { IfOk result (λ text. text ≡ start.now ++ end.now) }
{
    let mut text = String::from_str(alloc, start)?;
    text.push_str(end)?;
    Ok(Text::new(text))
}

fn about(alloc: Global, start: &str, who: &Who) -> Result<Text, AllocError>
    ensures { IfOk result (λ text. text ≡ start.now ++ who_name who.now) }
{
    let mut text = String::from_str(alloc, start)?;
    push_who(&mut text, who)?;
    Ok(Text::new(text))
}

pub(crate) fn unknown_job(alloc: Global, name: &str) -> Result<Text, AllocError>
    ensures { IfOk result (λ text. text ≡ codes "Unknown job: " ++ name.now) }
{
    join_all(alloc, "Unknown job: ", name)
}

pub(crate) fn unknown_parameter(alloc: Global, key: &str) -> Result<Text, AllocError>
    ensures { IfOk result (λ text. text ≡ codes "Unknown parameter: " ++ key.now) }
{
    join_all(alloc, "Unknown parameter: ", key)
}

pub(crate) fn unknown_instance(alloc: Global, who: &Who) -> Result<Text, AllocError>
    ensures { IfOk result (λ text. text ≡ codes "Unknown instance: " ++ who_name who.now) }
{
    about(alloc, "Unknown instance: ", who)
}

pub(crate) fn already_running(alloc: Global, who: &Who) -> Result<Text, AllocError>
    ensures { IfOk result (λ text. text ≡ codes "Job is already running: " ++ who_name who.now) }
{
    about(alloc, "Job is already running: ", who)
}

pub(crate) fn already_stopped(alloc: Global, who: &Who) -> Result<Text, AllocError>
    ensures { IfOk result (λ text. text ≡ codes "Job has already been stopped: " ++ who_name who.now) }
{
    about(alloc, "Job has already been stopped: ", who)
}

pub(crate) fn not_running(alloc: Global, who: &Who) -> Result<Text, AllocError>
    ensures { IfOk result (λ text. text ≡ codes "Job is not running: " ++ who_name who.now) }
{
    about(alloc, "Job is not running: ", who)
}

pub(crate) fn too_many_instances(alloc: Global, job: &str) -> Result<Text, AllocError>
    ensures { IfOk result (λ text. text ≡ codes "Too many instances: " ++ job.now) }
{
    join_all(alloc, "Too many instances: ", job)
}

pub(crate) fn too_many_events(alloc: Global) -> Result<Text, AllocError>
    ensures { IfOk result (λ text. text ≡ codes "Too many events") }
{
    Text::from_str(alloc, "Too many events")
}

pub(crate) fn not_supported(alloc: Global, command: Command) -> Result<Text, AllocError>
    ensures { IfOk result (λ text. text ≡ request.not_supported command) }
{
    join_all(alloc, "Not supported: ", command.name())
}

pub(crate) fn configuration_refused(alloc: Global, number: u8) -> Result<Text, AllocError>
    ensures { IfOk result (λ text. text ≡ codes "Configuration refused: " ++ decimal number) }
{
    let mut text = String::from_str(alloc, "Configuration refused: ")?;
    write!(text, "{number}")?;
    Ok(Text::new(text))
}

pub(crate) fn configuration_not_read(alloc: Global) -> Result<Text, AllocError>
    ensures { IfOk result (λ text. text ≡ codes "Configuration not read") }
{
    Text::from_str(alloc, "Configuration not read")
}

pub(crate) fn version(alloc: Global) -> Result<Text, AllocError>
    ensures { IfOk result (λ text. text ≡ model.version_text) }
{
    Text::from_str(alloc, "init (upstart profile 1)")
}

/// The status text of a job without an instance.
pub(crate) fn stopped(alloc: Global, job: &str) -> Result<Text, AllocError>
    ensures { IfOk result (λ text. text ≡ model.stopped_text job.now) }
{
    join_all(alloc, job, " stop/waiting")
}
