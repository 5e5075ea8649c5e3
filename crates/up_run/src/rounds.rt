//! The rounds of a run, one after another, and its pauses.

use crate::failures::say_failures;
use crate::faults::host_faults;
use crate::pace::{Pace, SHORT_PAUSE, is_idle};
use crate::reporter::Reporter;
use crate::silence::Silences;
use crate::source::PathSource;
use crate::start::first_daemon;
use std::alloc::AllocError;
use std::fs::OpenFile;
use std::io::{Eprint, Read, Write};
use std::process::Processes;
use std::rt::{Clock, Files};
use std::time::Duration;
use std::{io, thread};
use up_daemon::Daemon;
use up_disk::print::print;
use up_disk::why::say_error;
use up_edge::{Door, Host, RealHost, Source, UnixDoor};
use up_image::Table;
use up_model::ExitStatus;
use up_print::cannot_use;

/// The rounds of a run, its pauses, and how long a client may be silent.
#[derive(Clone, Copy, PartialEq, Eq)]
pub struct Rounds {
    /// The number of rounds.
    pub count: u32,
    /// The longest pause after a round that did nothing, in milliseconds; 0 for none.
    pub most_pause: u64,
    /// How long a client that waits for nothing may be silent, in seconds; 0 for ever.
    pub client_timeout: u64,
}

// The state from round to round: how long the run pauses, how long clients have been silent, and whether failed jobs aren't
// reported.
#[derive(Drop)]
struct Going {
    pace: Pace,
    silences: Silences,
    quiet: bool,
}

// The pause after a round, if any. Clients don't end a short one, as a door's pause has whole milliseconds.
fn pause_after<R: Clock>(rt: &R, door: &mut UnixDoor, pace: &Pace) {
    if pace.is_short() {
        thread::sleep(rt, Duration::from_micros(SHORT_PAUSE));
        return;
    }
    let pause = pace.pause();
    if pause > 0 {
        let _ = door.pause(Duration::from_millis(pause));
    }
}

// One round, its reports, and the pause after it if it did nothing. False if it was refused.
fn round<R, W>(
    rt: &R,
    daemon: &mut Daemon,
    (host, door, source): (&mut RealHost<R>, &mut UnixDoor, &mut PathSource<'_, R>),
    going: &mut Going,
    reporter: &mut Reporter<'_, W>,
) -> bool
where
    R: Files<File = W> + Processes + Clock + Print + Eprint + AllocGlobal + Clone + Drop,
    W: Read + Write + OpenFile + Drop,
{
    let faults = host.faults();
    let unread = source.faults();
    let Ok(round) = daemon.round(host, door, source) else {
        return false;
    };
    let idle = is_idle(&round, door.happened());
    reporter.report_round(rt, rt.alloc(), &round, idle);
    let counted = host.faults().saturating_sub(faults);
    let faults = host_faults(round.fed.as_slice(), host.happened(), counted);
    let unread = source.faults().saturating_sub(unread);
    reporter.report_faults(rt, rt.alloc(), &faults, door.failed(), unread);
    if !going.quiet && !idle {
        say_failures(rt, &round, host.refusals());
    }
    drop(round);
    going.silences.note(host.happened(), door.happened());
    door.dismiss(going.silences.silent_client(daemon));
    going.pace.note(idle);
    pause_after(rt, door, &going.pace);
    true
}

// The rounds, until they are over or one is refused, and the status.
fn all_rounds<R, W>(
    rt: &R,
    daemon: &mut Daemon,
    (host, door, source): (&mut RealHost<R>, &mut UnixDoor, &mut PathSource<'_, R>),
    count: u32,
    mut going: Going,
    reporter: &mut Reporter<'_, W>,
) -> ExitStatus
where
    R: Files<File = W> + Processes + Clock + Print + Eprint + AllocGlobal + Clone + Drop,
    W: Read + Write + OpenFile + Drop,
{
    for _ in 0..count {
        if !round(rt, daemon, (host, door, source), &mut going, reporter) {
            return ExitStatus::from(AllocError);
        }
    }
    ExitStatus::Done
}

// The rounds of a daemon with the system's processes, and the status.
fn serve_with<
    R: Files<File = W> + Processes + Clock + Print + Eprint + AllocGlobal + Clone + Drop,
    W: Read + Write + OpenFile + Drop,
>(
    rt: &R,
    daemon: &mut Daemon,
    (door, source): (&mut UnixDoor, &str),
    (rounds, quiet): (Rounds, bool),
    reporter: &mut Reporter<'_, W>,
) -> io::Result<ExitStatus> {
    let mut host = match RealHost::new(rt.alloc(), rt.clone()?) {
        Ok(host) => host,
        Err(error) => {
            say_error(rt, "the clock", &error);
            return print(rt, cannot_use(rt.alloc(), "the clock"));
        }
    };
    let going = Going {
        pace: Pace::new(rounds.most_pause),
        silences: Silences::new(rt.alloc(), rounds.client_timeout),
        quiet,
    };
    let mut source = PathSource::new(rt, rt.alloc(), source);
    let peers = (&mut host, &mut *door, &mut source);
    let status = all_rounds(rt, daemon, peers, rounds.count, going, reporter);
    reporter.finish(
        rt,
        rt.alloc(),
        host.faults(),
        door.faults(),
        source.faults(),
    );
    drop(source);
    drop(host);
    Ok(status)
}

/// The rounds over jobs with the system's processes, and the status.
pub(crate) fn serve<
    R: Files<File = W> + Processes + Clock + Print + Eprint + AllocGlobal + Clone + Drop,
    W: Read + Write + OpenFile + Drop,
>(
    rt: &R,
    table: Table,
    (door, source): (&mut UnixDoor, &str),
    (rounds, quiet): (Rounds, bool),
    reporter: &mut Reporter<'_, W>,
) -> io::Result<ExitStatus> {
    let mut daemon = first_daemon(rt.alloc(), table)?;
    let served = serve_with(rt, &mut daemon, (door, source), (rounds, quiet), reporter);
    drop(daemon);
    served
}
