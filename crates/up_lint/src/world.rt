//! The names in a folder with which a job is checked, and which events may occur.
ghost use Rattle.std.specs.Prelude.{◌≡◌, ◌++◌, IfOk, OnOk, codes, option_copied};
ghost use Rattle.std.specs.List.{flat_map};
ghost use Rattle.up_conf.specs.Folders.{without_ending};
ghost use Rattle.up_lint.specs.Events.{comes, declared_by, declared_in, declared_of, is_known, scene_of};

use crate::head::Head;
use crate::names::Names;
use crate::sheet::sheet_of;
use std::alloc::{AllocError, Global};
use up_conf::{File, JobDef};
use up_expr::is_job_event;
use up_text::{Items, Text};

/// The names with which a job is checked.
#[derive(Drop)]
pub(crate) struct World<'a> {
    /// The jobs of the folder.
    pub(crate) jobs: Names<'a>,
    /// Those that commands of other jobs start.
    pub(crate) commanded: Names<'a>,
    /// Those that can be started.
    pub(crate) started: Names<'a>,
    /// The events that something other than init emits.
    pub(crate) given: Names<'a>,
    /// The keys that occur in jobs, except for those that they export.
    pub(crate) keys: Names<'a>,
}

fn push_texts(texts: &mut Vec<Text>, others: &[Text]) -> Result<(), AllocError>
    ensures { OnOk result (texts.new.items ≡ texts.old.items ++ others.now) }
{
    for other in others {
        texts.push(other.copy()?)?;
    }
    Ok(())
}

// Appends the events that an `emits` stanza declares.
fn push_declared(events: &mut Vec<Text>, head: &Head) -> Result<(), AllocError>
    ensures { OnOk result (events.new.items ≡ events.old.items ++ declared_by head.now) }
{
    match head.words.as_slice() {
        [first, others @ ..] => {
            if first.is("emits") {
                push_texts(events, others)
            } else {
                Ok(())
            }
        }
        [] => Ok(()),
    }
}

fn push_all_declared(events: &mut Vec<Text>, sheet: &[Head]) -> Result<(), AllocError>
    ensures { OnOk result (events.new.items ≡ events.old.items ++ flat_map declared_by sheet.now) }
{
    for head in sheet {
        push_declared(events, head)?;
    }
    Ok(())
}

fn push_declared_of(events: &mut Vec<Text>, files: &[File], job: &JobDef) -> Result<(), AllocError>
    ensures { OnOk result (events.new.items ≡ events.old.items ++ declared_of files.now job.now) }
{
    let sheet = sheet_of(*events.allocator(), files, job.name.as_str())?;
    push_all_declared(events, sheet.as_slice())
}

/// The events that jobs declare by `emits`.
pub(crate) fn declared_in(
    alloc: Global,
    files: &[File],
    jobs: &[JobDef],
) -> Result<Items<Text>, AllocError>
    ensures { IfOk result (λ events. events ≡ declared_in files.now jobs.now) }
{
    let mut events: Vec<Text> = Vec::new(alloc);
    for job in jobs {
        push_declared_of(&mut events, files, job)?;
    }
    Ok(Items::new(events))
}

// Whether the event may occur: `startup`, a job's event, or one that is emitted.
#[tactic(auto, unfolding(crate::specs::Events::comes))]
fn comes(world: &World<'_>, event: &str) -> bool
    ensures { result ≡ comes (scene_of world.now) event.now }
{
    event == "startup" || is_job_event(event) || world.given.has(event.as_bytes())
}

// The event `EVENT` of `EVENT/failed`.
fn failed_event(event: &str) -> Option<&str>
    ensures { option_copied result ≡ without_ending (codes "/failed") event.now }
{
    event.strip_suffix("/failed")
}

/// Whether an event, or the one whose failure it reports, may occur.
pub(crate) fn is_known(world: &World<'_>, event: &str) -> bool
    ensures { result ≡ is_known (scene_of world.now) event.now }
{
    if comes(world, event) {
        return true;
    }
    match failed_event(event) {
        Some(failed) => comes(world, failed),
        None => false,
    }
}
