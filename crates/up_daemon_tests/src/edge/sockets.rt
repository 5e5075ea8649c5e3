//! Real sockets.
use crate::edge::calls::{gives, is_number};
use crate::edge::orders::path_of;
use crate::parts::{expect, push};
use mio::net::UnixStream;
use std::fs::{DirBuilder, metadata, remove_dir, remove_file};
use std::io::{ErrorKind, Read, Write};
use std::os::unix::fs::{DirBuilderExt, PermissionsExt};
use std::os::unix::net::UnixListener;
use std::test::Fail;
use std::time::{Duration, Instant};
use up_edge::{Door, DoorFault, SocketFault, UnixDoor};

fn bind(rt: &HostRuntime, path: &str) -> Result<UnixDoor, SocketFault> {
    UnixDoor::bind(rt, rt.alloc(), path)
}

fn refusal(rt: &HostRuntime, path: &str) -> Option<SocketFault> {
    bind(rt, path).err()
}

fn is_refused(rt: &HostRuntime, path: &str, fault: SocketFault) -> bool {
    refusal(rt, path) == Some(fault)
}

// A path of 102 bytes.
const LONG: &str =
    "/tmp/aaaaaaaaaaaaaaaaaaaaaaaaaaaaaaaaaaaaaaaaaaaaaaaaaaaaaaaaaaaaaaaaaaaaaaaaaaaaaaaaaaaaaaaaaaaaaaaaa";

#[test]
fn a_path_that_is_empty_or_too_long_or_there_is_refused(rt: HostRuntime) {
    assert!(rt;
        LONG.len() == 102
            && is_refused(&rt, "", SocketFault::Empty)
            && is_refused(&rt, LONG, SocketFault::TooLong)
            && is_refused(&rt, "/tmp", SocketFault::Exists)
            && is_refused(
                &rt,
                "/no/such/folder/s",
                SocketFault::Unusable(ErrorKind::NotFound)
            )
    );
}

// The folder in which the socket of a path is made.
fn folder_of(rt: &HostRuntime, path: &str) -> Result<String, Fail> {
    Ok(format!(in rt.alloc(); "{path}.new")?)
}

fn is_there(rt: &HostRuntime, path: &str) -> bool {
    metadata(rt, path).is_ok()
}

// The mode of a socket, whether it can be made again, and whether the folder in which it was made is left.
fn try_mode(rt: &HostRuntime, path: &str, folder: &str) -> Result<(), Fail> {
    let mode = metadata(rt, path)?.permissions().mode();
    let again = is_refused(rt, path, SocketFault::Exists);
    let is_left = is_there(rt, folder);
    remove_file(rt, path)?;
    expect("the mode", mode % 0o1000 == 0o600)?;
    expect("the path is refused again", again)?;
    expect("the folder is gone", !is_left)
}

// Large values are dropped by a call, here and below: the prover would go through each field of what a scope drops.
fn try_bound(rt: &HostRuntime, path: &str) -> Result<(), Fail> {
    let folder = folder_of(rt, path)?;
    let tried = try_mode(rt, path, folder.as_str());
    drop(folder);
    tried
}

fn try_socket(rt: &HostRuntime, path: &str) -> Result<(), Fail> {
    let door = bind(rt, path)?;
    let tried = try_bound(rt, path);
    drop(door);
    tried
}

#[test]
fn the_socket_is_its_owner_s_alone(rt: HostRuntime) -> Result<(), Fail> {
    let path = path_of(&rt, "mode")?;
    let tried = try_socket(&rt, path.as_str());
    drop(path);
    tried
}

// Clients of the socket at a path, whose name goes then.
fn connect(
    rt: &HostRuntime,
    path: &str,
    streams: &mut Vec<UnixStream>,
    count: &str,
) -> Result<(), Fail> {
    for _ in 0..count.parse::<u32>()? {
        push(streams, UnixStream::connect(rt, path)?)?;
    }
    Ok(remove_file(rt, path)?)
}

// How many bytes a client that never reads takes, in writes of 4,096 bytes.
fn filled(door: &mut UnixDoor, client: u32) -> Result<usize, DoorFault> {
    let bytes = [7u8; 4096];
    let mut sum = 0usize;
    for _ in 0..10_000u32 {
        let count = door.write(client, &bytes)?;
        if count == 0 {
            return Ok(sum);
        }
        sum = sum.saturating_add(count);
    }
    Err(DoorFault)
}

// Reads all that has come.
fn read_all(stream: &mut UnixStream) -> Result<(), Fail> {
    let mut buffer = [0u8; 4096];
    for _ in 0..10_000u32 {
        match stream.read(&mut buffer) {
            Ok(0) => return Err(Fail::from("the door closed its client")),
            Ok(_) => {}
            Err(error) if error.kind() == ErrorKind::WouldBlock => return Ok(()),
            Err(error) => return Err(Fail::from(error)),
        }
    }
    Err(Fail::from("more bytes than were written"))
}

// How long a pause of at most two seconds took, in milliseconds.
fn paused(rt: &HostRuntime, door: &mut UnixDoor) -> Result<u128, Fail> {
    let start = Instant::now(rt)?;
    door.pause(Duration::from_secs(2))?;
    Ok(start.elapsed(rt)?.as_millis())
}

fn is_paused(rt: &HostRuntime, door: &mut UnixDoor, told: &str) -> Result<bool, Fail> {
    let paused = paused(rt, door)?;
    match told {
        "long" => Ok(paused >= 1_900),
        "short" => Ok(paused < 1_000),
        _ => Ok(false),
    }
}

// How many clients wait, whose numbers are 0 and so on.
fn accept_all(door: &mut UnixDoor) -> Result<u32, DoorFault> {
    for count in 0..100 {
        match door.accept()? {
            Some(client) => {
                if client != count {
                    return Err(DoorFault);
                }
            }
            None => return Ok(count),
        }
    }
    Err(DoorFault)
}

// What the client that came last does.
fn does(stream: &mut UnixStream, word: &str, rest: &str) -> Result<bool, Fail> {
    let mut buffer = [0u8; 8];
    match word {
        "says" => stream.write_all(rest.as_bytes())?,
        "reads" => return Ok(is_number(rest, stream.read(&mut buffer)? as u64)),
        _ => read_all(stream)?,
    }
    Ok(true)
}

fn is_so(
    rt: &HostRuntime,
    door: &mut UnixDoor,
    streams: &mut Vec<UnixStream>,
    path: &str,
    call: &str,
    told: &str,
) -> Result<bool, Fail> {
    let mut buffer = [0u8; 8];
    match call {
        "connect" => {
            connect(rt, path, streams, told)?;
            Ok(is_number(told, streams.len() as u64))
        }
        "leaves" => {
            drop(streams.pop());
            Ok(told.is_empty())
        }
        "says" | "reads" | "reads all" => match streams.last_mut() {
            Some(stream) => does(stream, call, told),
            None => Ok(false),
        },
        "fill" => Ok(told == "some" && filled(door, 0)? > 0),
        "pause" => is_paused(rt, door, told),
        "accept all" => Ok(is_number(told, u64::from(accept_all(door)?))),
        _ => gives(door, &mut buffer, call, told),
    }
}

fn play_all(
    rt: &HostRuntime,
    door: &mut UnixDoor,
    streams: &mut Vec<UnixStream>,
    path: &str,
    script: &'static str,
) -> Result<(), Fail> {
    for row in script.lines() {
        let Some((call, told)) = row.split_once('|') else {
            return Err(Fail::from(row));
        };
        if !is_so(rt, door, streams, path, call, told)? {
            return Err(Fail::from(row));
        }
    }
    Ok(())
}

fn play_at(rt: &HostRuntime, path: &str, script: &'static str) -> Result<(), Fail> {
    let mut door = bind(rt, path)?;
    let mut streams: Vec<UnixStream> = Vec::new(rt.alloc());
    let played = play_all(rt, &mut door, &mut streams, path, script);
    drop(streams);
    drop(door);
    played
}

// Plays a script with a door whose path has this name, and with clients that come to it.
fn play(rt: &HostRuntime, name: &str, script: &'static str) -> Result<(), Fail> {
    let path = path_of(rt, name)?;
    let played = play_at(rt, path.as_str(), script);
    drop(path);
    played
}

const HALF: &str = "\
connect|1
accept|0
0 read|nothing
says|\0\0\0
0 read|3
0 read|nothing
entries|4
faults|0
clear|cleared
entries|0
";

#[test]
fn half_a_frame_comes_and_then_nothing(rt: HostRuntime) -> Result<(), Fail> {
    play(&rt, "half", HALF)
}

const GONE: &str = "\
connect|1
accept|0
says|ab
leaves|
0 write xyz|fault
0 read|2
0 read|0
faults|1
0 close|closed
0 read|fault
";

#[test]
fn a_peer_that_closes_leaves_its_bytes_and_the_process_alive(rt: HostRuntime) -> Result<(), Fail> {
    play(&rt, "gone", GONE)
}

const FULL: &str = "\
connect|2
accept|0
accept|1
fill|some
0 write x|0
1 write x|1
reads|1
faults|0
";

#[test]
fn a_client_that_never_reads_fills_its_socket_alone(rt: HostRuntime) -> Result<(), Fail> {
    play(&rt, "full", FULL)
}

const LOST: &str = "\
connect|1
accept|0
fill|some
leaves|
0 write x|fault
0 write x|fault
faults|2
";

#[test]
fn a_peer_that_closes_while_bytes_wait_for_it_is_a_fault(rt: HostRuntime) -> Result<(), Fail> {
    play(&rt, "lost", LOST)
}

const ROOM: &str = "\
connect|1
accept|0
fill|some
pause|long
reads all|
pause|short
0 write x|1
";

#[test]
fn a_pause_ends_when_a_full_socket_takes_bytes_again(rt: HostRuntime) -> Result<(), Fail> {
    play(&rt, "room", ROOM)
}

const MANY: &str = "\
connect|65
accept all|65
entries|66
";

#[test]
fn many_clients_have_numbers_of_their_own(rt: HostRuntime) -> Result<(), Fail> {
    play(&rt, "many", MANY)
}

const PAUSES: &str = "\
pause|long
connect|1
pause|short
accept|0
pause|short
pause|long
says|a
pause|short
";

#[test]
fn a_pause_ends_when_a_client_or_a_byte_comes(rt: HostRuntime) -> Result<(), Fail> {
    play(&rt, "pause", PAUSES)
}

// A folder that a start left which was ended.
fn make_left(rt: &HostRuntime, folder: &str, inner: &str) -> Result<(), Fail> {
    let mut builder = DirBuilder::new();
    builder.mode(0o700);
    builder.create(rt, folder)?;
    drop(UnixListener::bind(rt, inner)?);
    Ok(())
}

// Whether a door is made beside it, and the folder goes.
fn takes_over(rt: &HostRuntime, path: &str, folder: &str, inner: &str) -> Result<bool, Fail> {
    make_left(rt, folder, inner)?;
    let is_made = refusal(rt, path).is_none();
    remove_file(rt, path)?;
    Ok(is_made && !is_there(rt, folder))
}

// Whether somebody else's folder is left as it is.
fn leaves(rt: &HostRuntime, path: &str, folder: &str) -> Result<bool, Fail> {
    DirBuilder::new().create(rt, folder)?;
    let is_refused = is_refused(rt, path, SocketFault::Exists);
    remove_dir(rt, folder)?;
    Ok(is_refused)
}

fn try_left(rt: &HostRuntime, path: &str, folder: &str) -> Result<(), Fail> {
    let inner = format!(in rt.alloc(); "{folder}/s")?;
    let is_taken = takes_over(rt, path, folder, inner.as_str());
    drop(inner);
    expect("it is taken over", is_taken?)?;
    expect("no other is", leaves(rt, path, folder)?)
}

fn try_left_at(rt: &HostRuntime, path: &str) -> Result<(), Fail> {
    let folder = folder_of(rt, path)?;
    let tried = try_left(rt, path, folder.as_str());
    drop(folder);
    tried
}

#[test]
fn what_a_killed_start_left_is_taken_over(rt: HostRuntime) -> Result<(), Fail> {
    let path = path_of(&rt, "left")?;
    let tried = try_left_at(&rt, path.as_str());
    drop(path);
    tried
}
