//! Scripts: in each row a call of a host or of a door and its answer, between which is `|`. The answer of a call that fails is `fault`; a look or a
//! pause, as `alone` and `wait`, has none. A row whose call has no such name fails.
//!
//! The prover goes through each way out of a function, so a test is such a text, and one function goes through its rows.
use crate::edge::orders::{order_in, shell, who};
use std::alloc::{AllocError, Global};
use std::test::Fail;
use std::time::Duration;
use std::{fs, io, thread};
use up_edge::{Door, Host, HostFault};
use up_model::{How, Order, Process};

/// How long an end is waited for, in milliseconds.
const MOST_WAIT: u32 = 20_000;

/// Whether a text is this number.
pub(crate) fn is_number(told: &str, number: u64) -> bool {
    match told.parse::<u64>() {
        Ok(found) => found == number,
        Err(_) => false,
    }
}

// Whether `exit STATUS` or `signal NUMBER` tells of an end.
fn is_how(told: &str, how: How) -> bool {
    let Some((word, number)) = told.split_once(' ') else {
        return false;
    };
    match how {
        How::Exit(status) => word == "exit" && is_number(number, u64::from(status)),
        How::Signal(signal) => word == "signal" && is_number(number, u64::from(signal)),
    }
}

/// How a process ended, by its next end.
pub(crate) fn polled<H: Host>(host: &mut H) -> Result<Option<How>, HostFault> {
    match host.poll()? {
        Some((_, Process::Main, how)) => Ok(Some(how)),
        Some(_) | None => Ok(None),
    }
}

fn is_end(told: &str, end: Result<Option<How>, HostFault>) -> bool {
    match end {
        Ok(Some(how)) => is_how(told, how),
        Ok(None) => told == "nothing",
        Err(_) => told == "fault",
    }
}

pub(crate) fn pause(rt: &HostRuntime, milliseconds: u64) {
    thread::sleep(rt, Duration::from_millis(milliseconds));
}

/// The next end, once it comes.
pub(crate) fn next_end<H: Host>(rt: &HostRuntime, host: &mut H) -> Result<Option<How>, HostFault> {
    for _ in 0..MOST_WAIT {
        if let Some(how) = polled(host)? {
            return Ok(Some(how));
        }
        pause(rt, 1);
    }
    Ok(None)
}

// The processes that this one started and that it has not waited for.
fn children(rt: &HostRuntime) -> io::Result<String> {
    fs::read_to_string(rt, "/proc/thread-self/children")
}

fn is_childless(rt: &HostRuntime) -> io::Result<bool> {
    Ok(children(rt)?.is_empty())
}

fn is_only_child(rt: &HostRuntime, pid: u32) -> io::Result<bool> {
    let children = children(rt)?;
    let is_only = is_number(children.as_str().trim_end(), u64::from(pid));
    drop(children);
    Ok(is_only)
}

// Whether this child lives and no other is left, once the shell that sends it a signal has ended.
fn is_alone<H: Host>(rt: &HostRuntime, host: &mut H, pid: u32) -> Result<bool, Fail> {
    for _ in 0..MOST_WAIT {
        if polled(host)?.is_some() {
            return Ok(false);
        }
        if is_only_child(rt, pid)? {
            return Ok(true);
        }
        pause(rt, 1);
    }
    Ok(false)
}

fn has_line(rt: &HostRuntime, path: &str, line: &str) -> io::Result<bool> {
    let text = fs::read_to_string(rt, path)?;
    let has_line = text.as_str().trim_end() == line;
    drop(text);
    Ok(has_line)
}

// Whether a file comes to have this line.
fn gets_line(rt: &HostRuntime, path: &str, line: &str) -> io::Result<bool> {
    for _ in 0..MOST_WAIT {
        if has_line(rt, path, line)? {
            return Ok(true);
        }
        pause(rt, 1);
    }
    Ok(false)
}

// Whether a child runs the program of this name, once it does.
fn is_running(rt: &HostRuntime, pid: u32, name: &str) -> Result<bool, Fail> {
    let path = format!(in rt.alloc(); "/proc/{pid}/comm")?;
    let is_running = gets_line(rt, path.as_str(), name);
    drop(path);
    Ok(is_running?)
}

// An order of a folder and a program, if there is one.
fn order_of(alloc: Global, words: &str) -> Result<Order, AllocError> {
    match words.split_once(' ') {
        Some((folder, program)) => order_in(alloc, folder, &[program], true),
        None => order_in(alloc, words, &[], true),
    }
}

// Whether a process is started, with this number unless it is one of the system's.
fn is_started<H: Host>(host: &mut H, order: &Order, pid: &mut u32, told: &str) -> bool {
    match host.spawn(order) {
        Ok(number) => {
            *pid = number;
            told == "started" || is_number(told, u64::from(number))
        }
        Err(_) => told == "fault",
    }
}

fn starts<H: Host>(
    host: &mut H,
    order: Result<Order, AllocError>,
    pid: &mut u32,
    told: &str,
) -> Result<bool, Fail> {
    let order = order?;
    let is_started = is_started(host, &order, pid, told);
    drop(order);
    Ok(is_started)
}

fn is_sent<H: Host>(alloc: Global, host: &mut H, pid: u32, signal: u8) -> Result<bool, AllocError> {
    let who = who(alloc)?;
    let is_sent = host.signal(&who, pid, signal).is_ok();
    drop(who);
    Ok(is_sent)
}

// Whether a signal is sent, or isn't.
fn signals<H: Host>(
    alloc: Global,
    host: &mut H,
    pid: u32,
    signal: &str,
    told: &str,
) -> Result<bool, Fail> {
    let is_sent = is_sent(alloc, host, pid, signal.parse::<u8>()?)?;
    Ok(told == if is_sent { "sent" } else { "fault" })
}

fn is_clock<H: Host>(host: &mut H, told: &str) -> bool {
    match host.now() {
        Ok(reading) => is_number(told, reading),
        Err(_) => told == "fault",
    }
}

// A look at the record, or its end.
fn is_recorded<H: Host>(host: &mut H, call: &str, told: &str) -> bool {
    match call {
        "entries" => is_number(told, host.happened().len() as u64),
        "faults" => is_number(told, host.faults()),
        "clear" => {
            host.clear_record();
            told == "cleared"
        }
        _ => false,
    }
}

fn waits(rt: &HostRuntime, milliseconds: &str) -> Result<bool, Fail> {
    pause(rt, milliseconds.parse::<u64>()?);
    Ok(true)
}

// A call of one word.
fn is_told<H: Host>(
    rt: &HostRuntime,
    host: &mut H,
    pid: u32,
    call: &str,
    told: &str,
) -> Result<bool, Fail> {
    match call {
        "poll" => Ok(is_end(told, polled(host))),
        // the next end, once it comes
        "end" => Ok(is_end(told, next_end(rt, host))),
        "clock" => Ok(is_clock(host, told)),
        "alone" => is_alone(rt, host, pid),
        "childless" => Ok(is_childless(rt)?),
        _ => Ok(is_recorded(host, call, told)),
    }
}

// A call of more words. A signal is sent to the process that was started last, or to a stranger.
fn is_done<H: Host>(
    rt: &HostRuntime,
    host: &mut H,
    pid: &mut u32,
    word: &str,
    rest: &str,
    told: &str,
) -> Result<bool, Fail> {
    match word {
        "run" => starts(host, shell(rt.alloc(), rest), pid, told),
        "spawn" => starts(host, order_of(rt.alloc(), rest), pid, told),
        "signal" => signals(rt.alloc(), host, *pid, rest, told),
        "stranger" => signals(rt.alloc(), host, 1, rest, told),
        "runs" => is_running(rt, *pid, rest),
        "wait" => waits(rt, rest),
        _ => Ok(false),
    }
}

fn is_answered<H: Host>(
    rt: &HostRuntime,
    host: &mut H,
    pid: &mut u32,
    row: &str,
) -> Result<bool, Fail> {
    let Some((call, told)) = row.split_once('|') else {
        return Ok(row.starts_with('#'));
    };
    match call.split_once(' ') {
        Some((word, rest)) => is_done(rt, host, pid, word, rest, told),
        None => is_told(rt, host, *pid, call, told),
    }
}

/// Makes calls of a host; fails with the first row whose answer is another.
pub(crate) fn play<H: Host>(
    rt: &HostRuntime,
    host: &mut H,
    script: &'static str,
) -> Result<(), Fail> {
    let mut pid = 0u32;
    for row in script.lines() {
        if !is_answered(rt, host, &mut pid, row)? {
            return Err(Fail::from(row));
        }
    }
    Ok(())
}

fn is_accepted<D: Door>(door: &mut D, told: &str) -> bool {
    match door.accept() {
        Ok(Some(client)) => is_number(told, u64::from(client)),
        Ok(None) => told == "nobody",
        Err(_) => told == "fault",
    }
}

// A call of a door about no client.
fn is_shown<D: Door>(door: &mut D, buffer: &[u8], call: &str, told: &str) -> bool {
    match call {
        "accept" => is_accepted(door, told),
        // what reads have put there
        "buffer" => buffer == told.as_bytes(),
        "entries" => is_number(told, door.happened().len() as u64),
        "faults" => is_number(told, door.faults()),
        "clear" => {
            door.clear_record();
            told == "cleared"
        }
        _ => false,
    }
}

fn is_read<D: Door>(door: &mut D, buffer: &mut [u8], client: u32, told: &str) -> bool {
    match door.read(client, buffer) {
        Ok(Some(count)) => is_number(told, count as u64),
        Ok(None) => told == "nothing",
        Err(_) => told == "fault",
    }
}

fn is_written<D: Door>(door: &mut D, client: u32, text: &str, told: &str) -> bool {
    match door.write(client, text.as_bytes()) {
        Ok(count) => is_number(told, count as u64),
        Err(_) => told == "fault",
    }
}

fn is_closed<D: Door>(door: &mut D, client: u32, told: &str) -> bool {
    door.close(client);
    told == "closed"
}

// A call about a client, whose number it names, and after it what is written.
fn is_served<D: Door>(
    door: &mut D,
    buffer: &mut [u8],
    client: u32,
    call: &str,
    told: &str,
) -> bool {
    match call.split_once(' ') {
        Some((word, text)) => word == "write" && is_written(door, client, text, told),
        None if call == "read" => is_read(door, buffer, client, told),
        None => call == "close" && is_closed(door, client, told),
    }
}

/// Whether a call of a door has this answer. A call about a client begins with its number.
pub(crate) fn gives<D: Door>(
    door: &mut D,
    buffer: &mut [u8],
    call: &str,
    told: &str,
) -> Result<bool, Fail> {
    match call.split_once(' ') {
        Some((client, call)) => {
            let client = client.parse::<u32>()?;
            Ok(is_served(door, buffer, client, call, told))
        }
        None => Ok(is_shown(door, buffer, call, told)),
    }
}

fn holds<D: Door>(door: &mut D, buffer: &mut [u8], row: &str) -> Result<bool, Fail> {
    match row.split_once('|') {
        Some((call, told)) => gives(door, buffer, call, told),
        None => Ok(row.starts_with('#')),
    }
}

/// Makes calls of a door; fails with the first row whose answer is another.
pub(crate) fn play_door<D: Door>(
    door: &mut D,
    buffer: &mut [u8],
    script: &'static str,
) -> Result<(), Fail> {
    for row in script.lines() {
        if !holds(door, buffer, row)? {
            return Err(Fail::from(row));
        }
    }
    Ok(())
}
