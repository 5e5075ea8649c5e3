//! Reads jobs.
ghost use Rattle.std.specs.Prelude.{◌≡◌, [], option_map};
ghost use Rattle.up_image.specs.Finding.{Reads, events_at, items_at, job_at, job_by, lists_at, number_at, numbers_at, processes_at, reload_at, signals_of, texts_at};

use crate::job_parts::{Events, Lists, Numbers, Processes, Signals, Texts};
use crate::read_fault::ReadFault;
use crate::take::{push, take_byte, take_four, take_name, take_text, take_texts};
use crate::take_lists::{signal_of, take_action, take_exits, take_settings};
use crate::take_nodes::take_condition;
use crate::version::Version;
use std::alloc::Global;
use up_conf::JobDef;
use up_stanza::{Limit, Signal};

#[tactic(auto, unfolding(crate::specs::Finding::texts_at))]
fn take_own_texts(alloc: Global, bytes: &[u8]) -> Result<(Texts, &[u8]), ReadFault>
    ensures { Reads (λ x. (x.0, x.1.now)) result (texts_at bytes.now) }
{
    let (name, rest) = take_name(alloc, bytes)?;
    let (flags, rest) = take_byte(rest)?;
    let (instance, rest) = take_text(alloc, rest)?;
    let (dir, rest) = take_text(alloc, rest)?;
    let texts = Texts {
        name,
        flags,
        instance,
        dir,
    };
    Ok((texts, rest))
}

// The number of the reload signal. In version 1 it is always HUP and has no byte.
fn take_reload(version: Version, bytes: &[u8]) -> Result<(u8, &[u8]), ReadFault>
    ensures { Reads (λ x. (x.0, x.1.now)) result (reload_at version bytes.now) }
{
    match version {
        Version::One => Ok((Signal::hup().number(), bytes)),
        Version::Two => take_byte(bytes),
    }
}

#[tactic(auto, unfolding(crate::specs::Finding::numbers_at))]
fn take_numbers(version: Version, bytes: &[u8]) -> Result<(Numbers, &[u8]), ReadFault>
    ensures { Reads (λ x. (x.0, x.1.now)) result (numbers_at version bytes.now) }
{
    let (count, rest) = take_four(bytes)?;
    let (interval, rest) = take_four(rest)?;
    let (kill_signal, rest) = take_byte(rest)?;
    let (reload_signal, rest) = take_reload(version, rest)?;
    let (kill_timeout, rest) = take_four(rest)?;
    let numbers = Numbers {
        limit: Limit { count, interval },
        kill_signal,
        kill_timeout,
        reload_signal,
    };
    Ok((numbers, rest))
}

#[tactic(auto, unfolding(crate::specs::Finding::lists_at))]
fn take_lists(alloc: Global, bytes: &[u8]) -> Result<(Lists, &[u8]), ReadFault>
    ensures { Reads (λ x. (x.0, x.1.now)) result (lists_at bytes.now) }
{
    let (env, rest) = take_settings(alloc, bytes)?;
    let (export, rest) = take_texts(alloc, rest)?;
    let (normal, rest) = take_exits(alloc, rest)?;
    let lists = Lists {
        env,
        export,
        normal,
    };
    Ok((lists, rest))
}

#[tactic(auto, unfolding(crate::specs::Finding::processes_at))]
fn take_processes(alloc: Global, bytes: &[u8]) -> Result<(Processes, &[u8]), ReadFault>
    ensures { Reads (λ x. (x.0, x.1.now)) result (processes_at bytes.now) }
{
    let (main, rest) = take_action(alloc, bytes)?;
    let (pre_start, rest) = take_action(alloc, rest)?;
    let (post_start, rest) = take_action(alloc, rest)?;
    let (pre_stop, rest) = take_action(alloc, rest)?;
    let (post_stop, rest) = take_action(alloc, rest)?;
    let processes = Processes {
        main,
        pre_start,
        post_start,
        pre_stop,
        post_stop,
    };
    Ok((processes, rest))
}

#[tactic(auto, unfolding(crate::specs::Finding::events_at))]
fn take_events(alloc: Global, bytes: &[u8]) -> Result<(Events, &[u8]), ReadFault>
    ensures { Reads (λ x. (x.0, x.1.now)) result (events_at bytes.now) }
{
    let (start_on, rest) = take_condition(alloc, bytes)?;
    let (stop_on, rest) = take_condition(alloc, rest)?;
    Ok((Events { start_on, stop_on }, rest))
}

fn signals_of(numbers: Numbers) -> Result<Signals, ReadFault>
    ensures { Reads (λ signals. signals) result (signals_of numbers) }
{
    let kill = signal_of(numbers.kill_signal)?;
    let reload = signal_of(numbers.reload_signal)?;
    Ok(Signals { kill, reload })
}

fn job_of(
    texts: Texts,
    numbers: Numbers,
    signals: Signals,
    lists: Lists,
    processes: Processes,
    events: Events,
) -> JobDef
    ensures { result ≡ job_by texts numbers signals lists processes events }
{
    JobDef {
        name: texts.name,
        task: texts.flags & 1 != 0,
        respawn: texts.flags & 2 != 0,
        silent: texts.flags & 4 != 0,
        instance: texts.instance,
        dir: texts.dir,
        limit: numbers.limit,
        kill_signal: signals.kill,
        kill_timeout: numbers.kill_timeout,
        reload_signal: signals.reload,
        env: lists.env,
        export: lists.export,
        normal: lists.normal,
        main: processes.main,
        pre_start: processes.pre_start,
        post_start: processes.post_start,
        pre_stop: processes.pre_stop,
        post_stop: processes.post_stop,
        start_on: events.start_on,
        stop_on: events.stop_on,
    }
}

#[tactic(auto, unfolding(crate::specs::Finding::job_at))]
fn take_job(alloc: Global, version: Version, bytes: &[u8]) -> Result<(JobDef, &[u8]), ReadFault>
    ensures { Reads (λ x. (x.0, x.1.now)) result (job_at version bytes.now) }
{
    let (texts, rest) = take_own_texts(alloc, bytes)?;
    let (numbers, rest) = take_numbers(version, rest)?;
    let signals = signals_of(numbers)?;
    let (lists, rest) = take_lists(alloc, rest)?;
    let (processes, rest) = take_processes(alloc, rest)?;
    let (events, rest) = take_events(alloc, rest)?;
    Ok((
        job_of(texts, numbers, signals, lists, processes, events),
        rest,
    ))
}

/// Reads the first `count` jobs of an image, and returns them and the bytes after them.
#[tactic(auto, using(crate::proofs::Counting::items_left))]
pub(crate) fn take_jobs(
    alloc: Global,
    version: Version,
    bytes: &[u8],
    count: u16,
) -> Result<(Vec<JobDef>, &[u8]), ReadFault>
    ensures { Reads (λ x. (x.0.items, x.1.now)) result (items_at (job_at version) count [] bytes.now) }
{
    let mut rest = bytes;
    let mut jobs = Vec::new(alloc);
    for i in 0..count {
        let (job, after) = take_job(alloc, version, rest)?;
        push(&mut jobs, job)?;
        rest = after;
    }
    Ok((jobs, rest))
}
