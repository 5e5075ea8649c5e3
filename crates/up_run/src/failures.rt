//! Reports on standard error why jobs failed.
use std::fmt::Display;
use std::io;
use std::io::{Eprint, ErrorKind};
use up_daemon::Round;
use up_disk::why::Reason;
use up_edge::Refusal;
use up_model::{Event, Input, Output, Process, Who, process_name};
use up_text::Env;

// Reports something about an instance. One without a name is shown as its job.
fn say_of<R: Eprint>(rt: &R, job: &str, instance: &str, what: &str) {
    if instance.is_empty() {
        let _ = eprintln!(rt; "initd: {job}: {what}");
    } else {
        let _ = eprintln!(rt; "initd: {job} ({instance}): {what}");
    }
}

// Reports the same about one of its processes, with a reason, a number or a name at the end.
fn say_process<R: Eprint, D: Display + Drop>(
    rt: &R,
    (job, instance): (&str, &str),
    process: &str,
    what: &str,
    end: D,
) {
    if instance.is_empty() {
        let _ = eprintln!(rt; "initd: {job}: {process} {what} {end}");
    } else {
        let _ = eprintln!(rt; "initd: {job} ({instance}): {process} {what} {end}");
    }
}

fn is_of(refusal: &Refusal, who: &Who, process: Process) -> bool {
    refusal.process == process
        && refusal.who.job.as_str() == who.job.as_str()
        && refusal.who.instance.as_str() == who.instance.as_str()
}

// Reports that a process couldn't be started, for the reason that the host kept. It keeps one unless out of memory.
fn say_refusal<R: Eprint>(rt: &R, who: &Who, process: Process, refusals: &[Refusal]) {
    let place = (who.job.as_str(), who.instance.as_str());
    let mut error = io::Error::from(ErrorKind::OutOfMemory);
    for refusal in refusals {
        if is_of(refusal, who, process) {
            error = refusal.error;
        }
    }
    let process = process_name(process);
    say_process(rt, place, process, "couldn't be started:", Reason(error));
}

// Reports how a job failed, by an event `stopping` with a failure. A refused start was reported already.
fn say_failed<R: Eprint>(rt: &R, vars: &Env) {
    let job = vars.get("JOB").unwrap_or("");
    let instance = vars.get("INSTANCE").unwrap_or("");
    let process = vars.get("PROCESS").unwrap_or("");
    if process == "respawn" {
        say_of(rt, job, instance, "respawning too fast, stopped");
    } else if let Some(status) = vars.get("EXIT_STATUS") {
        say_process(rt, (job, instance), process, "ended with status", status);
    } else if let Some(signal) = vars.get("EXIT_SIGNAL") {
        say_process(rt, (job, instance), process, "was killed by signal", signal);
    }
}

fn say_event<R: Eprint>(rt: &R, event: &Event) {
    if event.name.as_str() == "stopping" && event.vars.get("RESULT") == Some("failed") {
        say_failed(rt, &event.vars);
    }
}

/// Reports which processes couldn't be started in a round, with the reasons that the host kept, and which jobs failed.
pub(crate) fn say_failures<R: Eprint>(rt: &R, round: &Round, refusals: &[Refusal]) {
    for input in round.fed.as_slice() {
        if let Input::Refused { who, process } = input {
            say_refusal(rt, who, *process, refusals);
        }
    }
    for outputs in round.gave.as_slice() {
        for output in outputs.as_slice() {
            if let Output::Emitted(event) = output {
                say_event(rt, event);
            }
        }
    }
}
