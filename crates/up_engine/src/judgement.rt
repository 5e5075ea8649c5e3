//! The effect of the end or the refusal of a process on its instance.
ghost use Rattle.std.specs.Prelude.{◌≡◌, ℕ, List, ◌++◌, Option, None, Some, OnOk};
ghost use Rattle.up_book.specs.Keys.{Mode, Stepping, name_at, instance_place};
ghost use Rattle.up_engine.specs.Effects.{Judges};
ghost use Rattle.std.specs.List.{list_any};
ghost use Rattle.up_stanza.specs.Exits.{same_exit};
ghost use Rattle.up_model.specs.Chronicle.{Chronicle, Entry as EntryValue};
ghost use Rattle.up_model.specs.Configuration.{Configuration};
ghost use Rattle.up_model.specs.Due.{end_of, end_by};
ghost use Rattle.up_model.specs.Readings as read;
ghost use Rattle.up_model.specs.Judgement as model;

use std::alloc::AllocError;
use up_book::Book;
use up_cascade::Setup;
use up_conf::Exit;
use up_job::{InstanceKey, judge_end};
use up_model::{End, EndRules, Failure, How, JobDef, Process, Verdict, Who};

// The goal of an instance becomes stop of its own accord, if it is start.
fn end_itself<B: Book>(book: &mut B, key: InstanceKey) -> Result<(), AllocError>
    ensures instances { OnOk result ((config : Configuration) (c : Chronicle) (i : ℕ)
        → B.stands book.old Stepping config c
        → instance_place config c key ≡ Some i
        → instance_place config (model.end_itself i c ++ c) key ≡ Some i) }
    ensures after { OnOk result ((config : Configuration) (c : Chronicle) (i : ℕ)
        → B.stands book.old Stepping config c
        → instance_place config c key ≡ Some i
        → B.stands book.new Stepping config (model.end_itself i c ++ c)) }
{
    if book.goal(key).is_start() {
        book.end_itself(key)?;
    }
    Ok(())
}

// An instance fails: its goal becomes stop, and its first failure is kept.
fn fail<B: Book>(book: &mut B, key: InstanceKey, failure: Failure) -> Result<(), AllocError>
    ensures { OnOk result ((config : Configuration) (c : Chronicle) (i : ℕ)
        → B.stands book.old Stepping config c
        → instance_place config c key ≡ Some i
        → B.stands book.new Stepping config (model.fail i failure c ++ c)) }
{
    let is_first = book.failure(key).is_none();
    end_itself(book, key)?;
    if is_first {
        book.fail(key, failure)?;
    }
    Ok(())
}

fn carry_out<B: Book>(book: &mut B, key: InstanceKey, verdict: Verdict) -> Result<(), AllocError>
    ensures { OnOk result ((config : Configuration) (c : Chronicle) (i : ℕ)
        → B.stands book.old Stepping config c
        → instance_place config c key ≡ Some i
        → B.stands book.new Stepping config (model.carry_out i verdict c ++ c)) }
{
    match verdict {
        Verdict::Note => {}
        Verdict::Respawn => book.respawn(key)?,
        Verdict::Stop => end_itself(book, key)?,
        Verdict::Fail(failure) => fail(book, key, failure)?,
    }
    Ok(())
}

fn same_exit(exit: &Exit, how: How) -> bool
    ensures { result ≡ same_exit (model.exit_of how) exit.now }
{
    match (exit, how) {
        (Exit::Status(status), How::Exit(other)) => other == *status,
        (Exit::Signal(signal), How::Signal(other)) => other == signal.number(),
        (Exit::Status(_), How::Signal(_)) => false,
        (Exit::Signal(_), How::Exit(_)) => false,
    }
}

fn is_listed(exits: &[Exit], how: How) -> bool
    ensures { result ≡ list_any (same_exit (model.exit_of how)) exits.now }
{
    exits.iter().any(|exit| same_exit(exit, how))
}

fn is_normal(exits: &[Exit], end: End) -> bool
    ensures { result ≡ model.is_normal exits.now end }
{
    match end {
        End::Refused => false,
        End::Ended(how) => is_listed(exits, how),
    }
}

fn verdict_on_end<B: Book>(
    book: &B,
    job: &JobDef,
    key: InstanceKey,
    process: Process,
    end: End,
) -> Verdict
    ensures { (mode : Mode) (config : Configuration) (c : Chronicle) (i : ℕ) → B.stands book.now mode config c
        → instance_place config c key ≡ Some i → read.file_of i c ≡ Some job.now
        → result ≡ model.verdict_on_end job.now i process end c }
{
    let goal = book.goal(key);
    let state = book.state_of(key);
    let rules = EndRules {
        is_task: job.task,
        respawns: job.respawn,
        is_normal: is_normal(job.normal.as_slice(), end),
        may_respawn: book.may_respawn(key),
    };
    judge_end(goal, state, process, end, rules)
}

// The verdict on an end by the file of its instance, if that exists.
fn verdict_by<B: Book>(
    book: &B,
    key: InstanceKey,
    process: Process,
    end: End,
) -> Option<(InstanceKey, Verdict)>
    ensures { (mode : Mode) (config : Configuration) (c : Chronicle) (i : ℕ) → B.stands book.now mode config c
        → instance_place config c key ≡ Some i
        → Judges config result (end_of (read.file_of i c) (Some i) process end c) c }
{
    match book.file(key) {
        Some(file) => Some((key, verdict_on_end(book, file.job(), key, process, end))),
        None => None,
    }
}

// The verdict on the end of a process, with its instance, if that exists.
fn verdict_in<B: Book>(
    book: &B,
    index: usize,
    who: &Who,
    process: Process,
    end: End,
) -> Option<(InstanceKey, Verdict)>
    ensures { (mode : Mode) (config : Configuration) (c : Chronicle) → B.stands book.now mode config c
        → name_at config index ≡ Some who.now.job → Judges config result (end_by who.now process end c) c }
{
    match book.find(index, who.instance.as_str()) {
        Some(key) => verdict_by(book, key, process, end),
        None => None,
    }
}

/// The verdict on the end of a process, with its instance, if that exists.
pub(crate) fn verdict_on<B: Book>(
    setup: &Setup,
    book: &B,
    who: &Who,
    process: Process,
    end: End,
) -> Option<(InstanceKey, Verdict)>
    ensures { (mode : Mode) (c : Chronicle) → B.stands book.now mode setup.now c
        → Judges setup.now result (end_by who.now process end c) c }
{
    match setup.job_named(who.job.as_str()) {
        Some((index, _)) => verdict_in(book, index, who, process, end),
        None => None,
    }
}

/// Carries out the verdict on the end of a process.
pub(crate) fn conclude<B: Book>(
    book: &mut B,
    verdict_on_end: Option<(InstanceKey, Verdict)>,
) -> Result<(), AllocError>
    ensures { OnOk result ((config : Configuration) (c : Chronicle) (entries : List EntryValue)
        → B.stands book.old Stepping config c
        → Judges config verdict_on_end entries c
        → B.stands book.new Stepping config (entries ++ c)) }
{
    match verdict_on_end {
        Some((key, verdict)) => carry_out(book, key, verdict)?,
        None => {}
    }
    Ok(())
}
