//! The status of instances, for clients: `status` and `list`.
ghost use Rattle.std.specs.Prelude.{◌≡◌, ◌==◌, ℕ, List, ◌∷◌, [], ◌++◌, Some, IfOk, OnOk, string_bytes, if◌then◌else◌};
ghost use Rattle.up_book.specs.Keys.{Mode, name_at, instance_place};
ghost use Rattle.up_engine.specs.Requests.{target_of as said_of, IsIndexed, answer_of};
ghost use Rattle.up_model.specs.Chronicle.{Chronicle};
ghost use Rattle.up_model.specs.Commands as model;
ghost use Rattle.up_model.specs.Configuration.{Configuration, is_removed};
ghost use Rattle.up_model.specs.Files.{job_names};
ghost use Rattle.up_model.specs.Instances as model_instances;
ghost use Rattle.up_model.specs.Replies.{status_of};
ghost use Rattle.up_model.specs.Values.{Bytes};

use crate::target::Target;
use crate::texts::{stopped, unknown_instance};
use std::alloc::{AllocError, Global};
use up_book::Book;
use up_cascade::Setup;
use up_job::InstanceKey;
use up_model::{Answer, JobDef, Who};
use up_text::Text;

// The status of an instance that doesn't exist.
fn absent(alloc: Global, job: &JobDef, who: &Who) -> Result<Answer, AllocError>
    ensures { IfOk result (λ answer. (c : Chronicle)
        → answer ≡ answer_of (model.status_at job.now who.now None c)) }
{
    if job.instance.is("") {
        let text = stopped(alloc, job.name.as_str())?;
        return Ok(Answer { ok: true, text });
    }
    let text = unknown_instance(alloc, who)?;
    Ok(Answer { ok: false, text })
}

fn status_at<B: Book>(
    alloc: Global,
    book: &B,
    index: usize,
    job: &JobDef,
    who: &Who,
) -> Result<Answer, AllocError>
    ensures { IfOk result (λ answer. (mode : Mode) (config : Configuration) (c : Chronicle)
        → B.stands book.now mode config c → name_at config index ≡ Some who.now.job
        → answer ≡ answer_of (model.status_at job.now who.now (model_instances.instance_named who.now c) c)) }
{
    match book.find(index, who.instance.as_str()) {
        Some(key) => {
            let text = book.status_of(key)?;
            Ok(Answer { ok: true, text })
        }
        None => {
            let answer = absent(alloc, job, who)?;
            Ok(answer)
        }
    }
}

/// The status of the instance that a request names.
pub(crate) fn status<B: Book>(alloc: Global, book: &B, target: Target) -> Result<Answer, AllocError>
    ensures { IfOk result (λ answer. (mode : Mode) (config : Configuration) (c : Chronicle)
        → B.stands book.now mode config c → IsIndexed config target.entry
        → answer ≡ answer_of (model.status (said_of target.entry) c)) }
{
    match target {
        Target::Nobody(text) => Ok(Answer { ok: false, text }),
        Target::Concerns {
            index,
            file,
            who,
            environment,
        } => {
            drop(environment);
            let answer = status_at(alloc, book, index, file.job(), &who)?;
            Ok(answer)
        }
    }
}

fn push_status<B: Book>(book: &B, key: InstanceKey, lines: &mut Vec<Text>) -> Result<(), AllocError>
    ensures { OnOk result ((mode : Mode) (config : Configuration) (c : Chronicle) (i : ℕ)
        → B.stands book.now mode config c → instance_place config c key ≡ Some i
        → lines.new.items ≡ lines.old.items ++ status_of i c ∷ []) }
{
    let text = book.status_of(key)?;
    lines.push(text)?;
    Ok(())
}

fn add_statuses<B: Book>(book: &B, job: usize, lines: &mut Vec<Text>) -> Result<(), AllocError>
    ensures { OnOk result ((mode : Mode) (config : Configuration) (c : Chronicle) (its : Bytes)
        → B.stands book.now mode config c → name_at config job ≡ Some its
        → lines.new.items ≡ lines.old.items ++ model.statuses (model_instances.instances_of its c) c) }
{
    for at in 0..book.count(job) {
        push_status(book, InstanceKey { job, at }, lines)?;
    }
    Ok(())
}

fn push_stopped(alloc: Global, job: &JobDef, lines: &mut Vec<Text>) -> Result<(), AllocError>
    ensures { OnOk result (lines.new.items ≡ lines.old.items ++ model.stopped_text job.now.name ∷ []) }
{
    let text = stopped(alloc, job.name.as_str())?;
    lines.push(text)?;
    Ok(())
}

fn is_zero(count: usize) -> bool
    ensures { result ≡ (count == 0) }
{
    count == 0
}

// Adds the line of a job without an instance, unless it was removed.
fn add_stopped(
    alloc: Global,
    setup: &Setup,
    job: &JobDef,
    lines: &mut Vec<Text>,
) -> Result<(), AllocError>
    ensures { OnOk result (lines.new.items ≡ lines.old.items
        ++ (if is_removed setup.now job.now.name then [] else model.stopped_text job.now.name ∷ [])) }
{
    if !setup.is_removed(job.name.as_str()) {
        push_stopped(alloc, job, lines)?;
    }
    Ok(())
}

// Adds a line for each instance of a job, or one for a job in force without any.
fn add_job<B: Book>(
    alloc: Global,
    setup: &Setup,
    book: &B,
    index: usize,
    job: &JobDef,
    lines: &mut Vec<Text>,
) -> Result<(), AllocError>
    ensures { OnOk result ((mode : Mode) (c : Chronicle)
        → B.stands book.now mode setup.now c → name_at setup.now index ≡ Some job.now.name
        → lines.new.items ≡ lines.old.items ++ model.job_lines job.now.name (is_removed setup.now job.now.name)
        (model_instances.instances_of job.now.name c) c) }
{
    if is_zero(book.count(index)) {
        add_stopped(alloc, setup, job, lines)?;
    } else {
        add_statuses(book, index, lines)?;
    }
    Ok(())
}

fn lines_of<B: Book>(alloc: Global, setup: &Setup, book: &B) -> Result<Vec<Text>, AllocError>
    ensures { IfOk result (λ lines. (mode : Mode) (c : Chronicle) → B.stands book.now mode setup.now c
        → lines.items ≡ model.list_lines setup.now (job_names setup.now.jobs) c) }
{
    let mut lines = Vec::new(alloc);
    let jobs = setup.jobs();
    for (index, file) in jobs.iter().enumerate() {
        add_job(alloc, setup, book, index, file.job(), &mut lines)?;
    }
    Ok(lines)
}

// Adds a line, after a line end if it isn't the first.
fn push_line(text: &mut String, is_first: bool, line: &Text) -> Result<(), AllocError>
    ensures { OnOk result ((lines : List Bytes) → string_bytes text.new ++ model.more_lines lines
        ≡ string_bytes text.old ++ (if is_first then model.joined_lines
        (line.now ∷ lines) else model.more_lines (line.now ∷ lines))) }
{
    if !is_first {
        text.push_str("\n")?;
    }
    text.push_str(line.as_str())?;
    Ok(())
}

#[tactic(auto, using(crate::proofs::AnswerLemmas::lines_left))]
fn join_all(alloc: Global, lines: &[Text]) -> Result<String, AllocError>
    ensures { IfOk result (λ text. string_bytes text ≡ model.joined_lines lines.now) }
{
    let mut text = String::new(alloc);
    let mut is_first = true;
    for line in lines {
        push_line(&mut text, is_first, line)?;
        is_first = false;
    }
    Ok(text)
}

/// The status texts of all instances, and of the jobs in force without any.
pub(crate) fn list<B: Book>(alloc: Global, setup: &Setup, book: &B) -> Result<Text, AllocError>
    ensures { IfOk result (λ text. (mode : Mode) (c : Chronicle) → B.stands book.now mode setup.now c
        → text ≡ model.listing setup.now c) }
{
    let lines = lines_of(alloc, setup, book)?;
    let text = join_all(alloc, lines.as_slice())?;
    Ok(Text::new(text))
}
