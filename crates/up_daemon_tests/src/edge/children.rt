//! Real children.
use crate::edge::calls::{next_end, pause, play, polled};
use crate::edge::orders::{order_in, path_of, shell, who};
use crate::parts::{expect, push};
use std::alloc::Global;
use std::io::ErrorKind;
use std::test::Fail;
use std::time::{Duration, Instant};
use std::{fs, io};
use up_edge::{Happened, Host, HostFault, RealHost, Refusal};
use up_model::{How, Order, Who};

type System = RealHost<HostRuntime>;

fn host_of(rt: &HostRuntime) -> io::Result<System> {
    RealHost::new(rt.alloc(), rt.clone()?)
}

// Plays a script with a host, which is dropped by a call, as other large values here: the prover would go through each field of what a scope
// drops.
fn with_host(rt: &HostRuntime, script: &'static str) -> Result<(), Fail> {
    let mut host = host_of(rt)?;
    let played = play(rt, &mut host, script);
    drop(host);
    played
}

const REFUSED: &str = "\
# A missing program.
spawn / /no/such/program|fault
# A folder that isn't there.
spawn /no/such/folder /bin/true|fault
# A program that can't be executed.
spawn / /etc/passwd|fault
# A folder in a program's place.
spawn / /usr|fault
# No words.
spawn /|fault
";

const NOTHING: &str = "\
entries|0
faults|5
clear|cleared
childless|
";

fn missing_of(refusals: &[Refusal]) -> usize {
    let mut count = 0usize;
    for refusal in refusals {
        if refusal.error.kind() == ErrorKind::NotFound {
            count = count.wrapping_add(1);
        }
    }
    count
}

// The host keeps why each was refused: nothing is there, nothing is there, it may not be executed or is no program, it may not be executed,
// and it names nothing.
fn try_refused(rt: &HostRuntime, host: &mut System) -> Result<(), Fail> {
    play(rt, host, REFUSED)?;
    expect("the reasons are kept", host.refusals().len() == 5)?;
    expect("three are missing", missing_of(host.refusals()) == 3)?;
    play(rt, host, NOTHING)?;
    expect("the reasons go with the record", host.refusals().is_empty())
}

#[test]
fn what_cannot_start_is_refused_and_leaves_no_zombie(rt: HostRuntime) -> Result<(), Fail> {
    let mut host = host_of(&rt)?;
    let tried = try_refused(&rt, &mut host);
    drop(host);
    tried
}

const ENDINGS: &str = "\
run exit 0|started
end|exit 0
run exit 7|started
end|exit 7
run exit 255|started
end|exit 255
run kill -s TERM $$|started
end|signal 15
run kill -s KILL $$|started
end|signal 9
poll|nothing
faults|0
";

#[test]
fn an_end_is_reported_as_it_came(rt: HostRuntime) -> Result<(), Fail> {
    with_host(&rt, ENDINGS)
}

fn spawn_all(
    host: &mut System,
    order: &Order,
    count: u32,
    pids: &mut Vec<u32>,
) -> Result<(), Fail> {
    for _ in 0..count {
        push(pids, host.spawn(order)?)?;
    }
    Ok(())
}

// Starts so many children; the numbers of their processes.
fn start(
    rt: &HostRuntime,
    host: &mut System,
    argv: &[&str],
    count: u32,
    pids: &mut Vec<u32>,
) -> Result<(), Fail> {
    let order = order_in(rt.alloc(), "/", argv, true)?;
    let spawned = spawn_all(host, &order, count, pids);
    drop(order);
    spawned
}

// How many ends of this kind come, of so many.
fn count_ends(rt: &HostRuntime, host: &mut System, how: How, most: usize) -> Result<usize, Fail> {
    for count in 0..most {
        if next_end(rt, host)? != Some(how) {
            return Ok(count);
        }
    }
    Ok(most)
}

// Children that end at once.
fn try_many(rt: &HostRuntime, host: &mut System, pids: &mut Vec<u32>) -> Result<(), Fail> {
    start(rt, host, &["/bin/true"], 600, pids)?;
    expect("ends", count_ends(rt, host, How::Exit(0), 600)? == 600)?;
    play(rt, host, "poll|nothing\nchildless|")
}

#[test]
fn children_that_end_at_once_have_one_end_each(rt: HostRuntime) -> Result<(), Fail> {
    let mut host = host_of(&rt)?;
    let mut pids: Vec<u32> = Vec::new(rt.alloc());
    let tried = try_many(&rt, &mut host, &mut pids);
    drop(pids);
    drop(host);
    tried
}

// How many polls find nothing before one finds an end.
fn empty_polls(host: &mut System, most: u32) -> Result<u32, Fail> {
    for count in 0..most {
        if polled(host)?.is_some() {
            return Ok(count);
        }
    }
    Ok(most)
}

fn kill_all(host: &mut System, who: &Who, pids: &[u32]) -> Result<(), HostFault> {
    for pid in pids {
        host.signal(who, *pid, 9)?;
    }
    Ok(())
}

fn kill(rt: &HostRuntime, host: &mut System, pids: &[u32]) -> Result<(), Fail> {
    let who = who(rt.alloc())?;
    let sent = kill_all(host, &who, pids);
    drop(who);
    Ok(sent?)
}

// Children that sleep.
fn try_last_of_many(rt: &HostRuntime, host: &mut System, pids: &mut Vec<u32>) -> Result<(), Fail> {
    start(rt, host, &["/bin/sleep", "1000"], 200, pids)?;
    let Some(last) = pids.pop() else {
        return Err(Fail::from("no children"));
    };
    kill(rt, host, &[last])?;
    pause(rt, 1000);
    expect("polls before it is found", empty_polls(host, 100)? == 5)?;
    kill(rt, host, pids.as_slice())?;
    let count = count_ends(rt, host, How::Signal(9), pids.len())?;
    expect("ends of the others", count == 199)?;
    play(rt, host, "childless|")
}

#[test]
fn an_end_among_many_is_found_by_the_sixth_poll(rt: HostRuntime) -> Result<(), Fail> {
    let mut host = host_of(&rt)?;
    let mut pids: Vec<u32> = Vec::new(rt.alloc());
    let tried = try_last_of_many(&rt, &mut host, &mut pids);
    drop(pids);
    drop(host);
    tried
}

const KILL: &str = "\
run trap '' TERM; exec sleep 50|started
runs sleep|
signal 15|sent
alone|
wait 100|
poll|nothing
signal 9|sent
end|signal 9
poll|nothing
childless|
faults|0
";

#[test]
fn a_child_that_ignores_term_is_ended_by_kill(rt: HostRuntime) -> Result<(), Fail> {
    with_host(&rt, KILL)
}

const SIGNALS: &str = "\
run exec sleep 50|started
signal 1|sent
end|signal 1
signal 9|fault
stranger 15|fault
faults|2
";

#[test]
fn a_signal_reaches_a_child_and_no_stranger(rt: HostRuntime) -> Result<(), Fail> {
    with_host(&rt, SIGNALS)
}

fn is_quick(rt: &HostRuntime, host: &mut System) -> Result<bool, Fail> {
    let start = Instant::now(rt)?;
    let found = polled(host)?;
    let spent = start.elapsed(rt)?;
    Ok(found.is_none() && spent < Duration::from_secs(5))
}

fn sleeper(rt: &HostRuntime, host: &mut System) -> Result<u32, Fail> {
    let order = shell(rt.alloc(), "exec sleep 20")?;
    let spawned = host.spawn(&order);
    drop(order);
    Ok(spawned?)
}

fn try_poll(rt: &HostRuntime, host: &mut System) -> Result<(), Fail> {
    let pid = sleeper(rt, host)?;
    expect("a poll of a child that lives", is_quick(rt, host)?)?;
    kill(rt, host, &[pid])?;
    expect("an end", next_end(rt, host)? == Some(How::Signal(9)))
}

#[test]
fn a_poll_does_not_wait(rt: HostRuntime) -> Result<(), Fail> {
    let mut host = host_of(&rt)?;
    let tried = try_poll(&rt, &mut host);
    drop(host);
    tried
}

// An order for the shell to run a line whose output is a file. The shell stays, and keeps its own streams.
fn order_to(alloc: Global, path: &str, line: &str, silent: bool) -> Result<Order, Fail> {
    let line = format!(in alloc; "({line}) > {path}; exit 0")?;
    let order = order_in(alloc, "/usr", &["/bin/sh", "-c", line.as_str()], silent);
    drop(line);
    Ok(order?)
}

fn end_of(rt: &HostRuntime, host: &mut System, order: &Order) -> Result<(), HostFault> {
    let _ = host.spawn(order)?;
    let _ = next_end(rt, host)?;
    Ok(())
}

fn run_to_end(rt: &HostRuntime, order: &Order) -> Result<(), Fail> {
    let mut host = host_of(rt)?;
    let ended = end_of(rt, &mut host, order);
    drop(host);
    Ok(ended?)
}

fn write_to(rt: &HostRuntime, path: &str, line: &str, silent: bool) -> Result<(), Fail> {
    let order = order_to(rt.alloc(), path, line, silent)?;
    let ended = run_to_end(rt, &order);
    drop(order);
    ended
}

fn written_to(rt: &HostRuntime, path: &str, line: &str, silent: bool) -> Result<String, Fail> {
    write_to(rt, path, line, silent)?;
    let written = fs::read_to_string(rt, path)?;
    fs::remove_file(rt, path)?;
    Ok(written)
}

// What a line writes to its output.
fn written(rt: &HostRuntime, name: &str, line: &str, silent: bool) -> Result<String, Fail> {
    let path = path_of(rt, name)?;
    let written = written_to(rt, path.as_str(), line, silent);
    drop(path);
    written
}

fn writes(rt: &HostRuntime, name: &str, line: &str, text: &str) -> Result<bool, Fail> {
    let written = written(rt, name, line, true)?;
    let is_text = written.as_str() == text;
    drop(written);
    Ok(is_text)
}

#[test]
fn the_environment_is_the_order_s_pairs_alone(rt: HostRuntime) -> Result<(), Fail> {
    let env = writes(&rt, "env", "/bin/cat /proc/$$/environ", "A=1\0B=2 3\0")?;
    expect("the environment", env)?;
    expect("the folder", writes(&rt, "dir", "/bin/pwd", "/usr\n")?)
}

// Whether the output and the errors of a process that isn't silent are this one's.
fn inherits(rt: &HostRuntime) -> Result<bool, Fail> {
    let own = written(
        rt,
        "own",
        "readlink /proc/$PPID/fd/1 /proc/$PPID/fd/2",
        false,
    )?;
    let inherited = written(rt, "loud", "readlink /proc/$$/fd/1 /proc/$$/fd/2", false)?;
    Ok(own.as_str() == inherited.as_str())
}

#[test]
fn a_silent_process_has_no_output_and_none_has_input(rt: HostRuntime) -> Result<(), Fail> {
    let streams = "readlink /proc/$$/fd/0 /proc/$$/fd/1 /proc/$$/fd/2";
    let none = "/dev/null\n/dev/null\n/dev/null\n";
    expect("a silent process", writes(&rt, "silent", streams, none)?)?;
    expect("one that isn't", inherits(&rt)?)
}

fn are_readings(entries: &[Happened], first: u64, second: u64) -> bool {
    match entries {
        [Happened::Now(a), Happened::Now(b)] => *a == first && *b == second,
        _ => false,
    }
}

fn try_clock(rt: &HostRuntime, host: &mut System) -> Result<(), Fail> {
    let first = host.now()?;
    pause(rt, 20);
    let second = host.now()?;
    expect(
        "two readings",
        first < 5_000 && first + 20 <= second && second < 20_000,
    )?;
    expect("the record", are_readings(host.happened(), first, second))?;
    play(rt, host, "clear|cleared\nentries|0")
}

#[test]
fn the_clock_begins_at_0_and_goes_on(rt: HostRuntime) -> Result<(), Fail> {
    let mut host = host_of(&rt)?;
    let tried = try_clock(&rt, &mut host);
    drop(host);
    tried
}
