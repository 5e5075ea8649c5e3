//! A daemon over real children and a real socket.
use crate::blinking::Blinking;
use crate::edge::orders::path_of;
use crate::parts::expect;
use crate::stage::{add_job, compiled};
use mio::net::UnixStream;
use std::alloc::Global;
use std::fs::{remove_file, write};
use std::io::{ErrorKind, Read, Write};
use std::test::Fail;
use up_conf::Folder;
use up_daemon::Daemon;
use up_edge::{Door, Passed, RealHost, ScriptSource, UnixDoor};
use up_engine::Engine;
use up_image::Table;
use up_text::Env;

/// The most rounds in which both clients are to be answered.
const MOST_ROUNDS: u32 = 20_000_000;

/// The rounds before the second client comes.
const FIRST_ROUNDS: u32 = 100;

/// The most requests of one client that wait: 63, and those of one more read of 4,096 bytes.
const MOST_WAITING: usize = 473;

/// How many lists a client asks for.
const LISTS: usize = 10_000;

/// The frame of the request `list`.
static LIST: [u8; 10] = [0, 0, 0, 6, 5, 0, 0, 0, 0, 0];

const START_W: &[u8] = b"\0\0\0\x07\x01\0\0\x01w\0\0";

const START_M: &[u8] = b"\0\0\0\x07\x01\0\0\x01m\0\0";

const STOPPED_W: &[u8] = b"\0\0\0\x0f\0w stop/waiting";

const STOPPED_M: &[u8] = b"\0\0\0\x0f\0m stop/waiting";

/// A daemon with its host, its door and its source.
#[derive(Drop)]
struct Init {
    daemon: Daemon,
    host: RealHost<Blinking>,
    door: UnixDoor,
    source: ScriptSource,
}

// A client, and what it has read.
#[derive(Drop)]
struct Client {
    stream: UnixStream,
    answer: Vec<u8>,
}

// A task that waits for a file.
fn add_waiting(alloc: Global, folder: &mut Folder, file: &str) -> Result<(), Fail> {
    let job = format!(in alloc;
        "task\nscript\nuntil [ -e {file} ]; do /bin/sleep 0.01; done\nend script\n"
    )?;
    let added = add_job(alloc, folder, "w.conf", job.as_str());
    drop(job);
    added
}

// A task that makes it.
fn add_making(alloc: Global, folder: &mut Folder, file: &str) -> Result<(), Fail> {
    let job = format!(in alloc; "task\nscript\n: > {file}\nend script\n")?;
    let added = add_job(alloc, folder, "m.conf", job.as_str());
    drop(job);
    added
}

fn add_tasks(alloc: Global, folder: &mut Folder, file: &str) -> Result<(), Fail> {
    add_waiting(alloc, folder, file)?;
    add_making(alloc, folder, file)
}

// Like hosts and doors below, the folder is dropped by a call: the prover would go through each field of what a scope drops.
fn table_of(alloc: Global, file: &str) -> Result<Table, Fail> {
    let mut folder = Folder::new(alloc);
    let table = match add_tasks(alloc, &mut folder, file) {
        Ok(()) => compiled(alloc, &folder),
        Err(fail) => Err(fail),
    };
    drop(folder);
    table
}

fn daemon_of(alloc: Global, file: &str) -> Result<Daemon, Fail> {
    let table = table_of(alloc, file)?;
    let engine = Engine::new(alloc, table, Env::new(alloc))?;
    Ok(Daemon::new(alloc, engine))
}

// A host of which the first look at each process may fail.
fn host_of(rt: &HostRuntime, blinks: bool) -> Result<RealHost<Blinking>, Fail> {
    let system = rt.clone()?;
    Ok(RealHost::new(rt.alloc(), Blinking { system, blinks })?)
}

fn door_of(rt: &HostRuntime, socket: &str) -> Result<UnixDoor, Fail> {
    Ok(UnixDoor::bind(rt, rt.alloc(), socket)?)
}

// A daemon over this host and this door.
fn init_over(
    alloc: Global,
    file: &str,
    host: RealHost<Blinking>,
    door: UnixDoor,
) -> Result<Init, Fail> {
    match daemon_of(alloc, file) {
        Ok(daemon) => Ok(Init {
            daemon,
            host,
            door,
            source: ScriptSource::new(alloc, Vec::new(alloc)),
        }),
        Err(fail) => {
            drop(host);
            drop(door);
            Err(fail)
        }
    }
}

fn init_of(rt: &HostRuntime, socket: &str, file: &str, blinks: bool) -> Result<Init, Fail> {
    let host = host_of(rt, blinks)?;
    match door_of(rt, socket) {
        Ok(door) => init_over(rt.alloc(), file, host, door),
        Err(fail) => {
            drop(host);
            Err(fail)
        }
    }
}

fn client_of(rt: &HostRuntime, socket: &str, request: &[u8]) -> Result<Client, Fail> {
    let stream = UnixStream::connect(rt, socket)?;
    let answer = Vec::new(rt.alloc());
    let mut client = Client { stream, answer };
    match client.stream.write_all(request) {
        Ok(()) => Ok(client),
        Err(error) => {
            drop(client);
            Err(Fail::from(error))
        }
    }
}

// Reads what has come.
fn hear(client: &mut Client) -> Result<(), Fail> {
    let mut buffer = [0u8; 64];
    match client.stream.read(&mut buffer) {
        Ok(count) => {
            client.answer.extend_from_slice(&buffer[..count])?;
            Ok(())
        }
        Err(error) if error.kind() == ErrorKind::WouldBlock => Ok(()),
        Err(error) => Err(Fail::from(error)),
    }
}

fn do_round(init: &mut Init) -> Result<(), Fail> {
    let round = init
        .daemon
        .round(&mut init.host, &mut init.door, &mut init.source)?;
    drop(round);
    Ok(())
}

// Whether both clients are answered after some rounds.
fn answer_both(init: &mut Init, first: &mut Client, second: &mut Client) -> Result<bool, Fail> {
    for _ in 0..MOST_ROUNDS {
        do_round(init)?;
        hear(first)?;
        hear(second)?;
        if !first.answer.is_empty() && !second.answer.is_empty() {
            return Ok(true);
        }
    }
    Ok(false)
}

fn try_both(init: &mut Init, first: &mut Client, second: &mut Client) -> Result<(), Fail> {
    expect("both are answered", answer_both(init, first, second)?)?;
    expect("the first", first.answer.as_slice() == STOPPED_W)?;
    expect("the second", second.answer.as_slice() == STOPPED_M)
}

// The second client comes, whose task ends the first one's.
fn try_second(
    rt: &HostRuntime,
    init: &mut Init,
    socket: &str,
    first: &mut Client,
) -> Result<(), Fail> {
    let mut second = client_of(rt, socket, START_M)?;
    let tried = try_both(init, first, &mut second);
    drop(second);
    tried
}

// The first client waits, as its task does.
fn try_first(init: &mut Init, first: &mut Client) -> Result<(), Fail> {
    for _ in 0..FIRST_ROUNDS {
        do_round(init)?;
    }
    hear(first)?;
    expect("nothing is answered", first.answer.is_empty())
}

fn try_in_turn(
    rt: &HostRuntime,
    init: &mut Init,
    socket: &str,
    first: &mut Client,
) -> Result<(), Fail> {
    try_first(init, first)?;
    try_second(rt, init, socket, first)
}

fn try_clients(rt: &HostRuntime, init: &mut Init, socket: &str) -> Result<(), Fail> {
    let mut first = client_of(rt, socket, START_W)?;
    let tried = try_in_turn(rt, init, socket, &mut first);
    drop(first);
    tried
}

fn try_init(rt: &HostRuntime, socket: &str, file: &str, blinks: bool) -> Result<(), Fail> {
    let mut init = init_of(rt, socket, file, blinks)?;
    let tried = try_clients(rt, &mut init, socket);
    drop(init);
    tried
}

// Removes a file, if it is there.
fn remove(rt: &HostRuntime, path: &str) {
    let _ = remove_file(rt, path).is_ok();
}

fn try_files(rt: &HostRuntime, socket: &str, file: &str, blinks: bool) -> Result<(), Fail> {
    let tried = try_init(rt, socket, file, blinks);
    remove(rt, socket);
    remove(rt, file);
    tried
}

fn try_file(rt: &HostRuntime, socket: &str, file: &str, blinks: bool) -> Result<(), Fail> {
    let file = path_of(rt, file)?;
    let tried = try_files(rt, socket, file.as_str(), blinks);
    drop(file);
    tried
}

fn try_at(rt: &HostRuntime, socket: &str, file: &str, blinks: bool) -> Result<(), Fail> {
    let socket = path_of(rt, socket)?;
    let tried = try_file(rt, socket.as_str(), file, blinks);
    drop(socket);
    tried
}

#[test]
fn a_task_that_waits_for_another_keeps_no_client_waiting(rt: HostRuntime) -> Result<(), Fail> {
    try_at(&rt, "init", "made", false)
}

#[test]
fn a_poll_that_fails_keeps_no_client_waiting(rt: HostRuntime) -> Result<(), Fail> {
    try_at(&rt, "blinking", "made-blinking", true)
}

// Writes lists until the socket takes no more; returns how many bytes of them are written in all.
fn send_lists(client: &mut Client, sent: usize) -> Result<usize, Fail> {
    let mut sent = sent;
    for _ in 0..LISTS {
        if sent >= LISTS * 10 {
            return Ok(sent);
        }
        match client.stream.write(&LIST[sent % 10..]) {
            Ok(count) => sent = sent.saturating_add(count),
            Err(error) if error.kind() == ErrorKind::WouldBlock => return Ok(sent),
            Err(error) => return Err(Fail::from(error)),
        }
    }
    Ok(sent)
}

// How many bytes of clients a round read.
fn read_len(passed: &[Passed]) -> usize {
    let mut len: usize = 0;
    for entry in passed {
        if let Passed::Read(_, Some(bytes)) = entry {
            len = len.saturating_add(bytes.as_slice().len());
        }
    }
    len
}

// How many whole lists there are among the first bytes of the client.
fn lists_in(read: usize) -> usize {
    read.saturating_sub(START_W.len()) / 10
}

// None of the lists enters while the task goes on, so those that were read wait.
fn try_lists(init: &mut Init, client: &mut Client) -> Result<(), Fail> {
    let mut sent: usize = 0;
    let mut read: usize = 0;
    for _ in 0..FIRST_ROUNDS {
        sent = send_lists(client, sent)?;
        do_round(init)?;
        read = read.saturating_add(read_len(init.door.happened()));
        expect(
            "no more than the limit wait",
            lists_in(read) <= MOST_WAITING,
        )?;
    }
    expect("a client past the limit isn't read", lists_in(read) >= 64)
}

fn try_client(rt: &HostRuntime, init: &mut Init, socket: &str) -> Result<(), Fail> {
    let mut client = client_of(rt, socket, START_W)?;
    let tried = try_lists(init, &mut client);
    drop(client);
    tried
}

fn try_waiting(rt: &HostRuntime, socket: &str, file: &str) -> Result<(), Fail> {
    let mut init = init_of(rt, socket, file, false)?;
    let tried = try_client(rt, &mut init, socket);
    drop(init);
    // The task ends.
    let ended = write(rt, file, b"".as_slice());
    remove(rt, socket);
    tried?;
    Ok(ended?)
}

fn try_waiting_at(rt: &HostRuntime, socket: &str) -> Result<(), Fail> {
    let file = path_of(rt, "made-crowded")?;
    let tried = try_waiting(rt, socket, file.as_str());
    drop(file);
    tried
}

#[test]
fn requests_of_one_client_wait_up_to_a_limit(rt: HostRuntime) -> Result<(), Fail> {
    let socket = path_of(&rt, "crowded")?;
    let tried = try_waiting_at(&rt, socket.as_str());
    drop(socket);
    tried
}
