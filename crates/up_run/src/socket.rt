//! Reports why a run's socket can't be made.
use std::fs::symlink_metadata;
use std::io;
use std::io::{Eprint, ErrorKind};
use std::net::Net;
use std::os::unix::fs::FileTypeExt;
use std::os::unix::net::UnixStream;
use std::rt::Files;
use up_disk::why::{say, say_error};
use up_edge::SocketFault;

// The obstacle at a path where nothing may exist yet.
fn obstacle<R: Files + Net>(rt: &R, path: &str) -> Option<&'static str> {
    let Ok(found) = symlink_metadata(rt, path) else {
        return None;
    };
    if !found.file_type().is_socket() {
        return Some("it exists, and isn't a socket");
    }
    match UnixStream::connect(rt, path) {
        Ok(_) => Some("it exists, and a process listens on it"),
        Err(error) if error.kind() == ErrorKind::ConnectionRefused => {
            Some("it exists, and no process listens on it any more: remove it")
        }
        Err(_) => Some("it exists, and can't be connected to"),
    }
}

// Reports the obstacle to a socket: at its path, or else at that of the folder in which it is made.
fn say_obstacle<R: Files + Net + Eprint>(rt: &R, path: &str) {
    match obstacle(rt, path) {
        Some(why) => say(rt, path, why),
        None => {
            let _ = eprintln!(rt;
                "initd: {path}.new: it exists, and isn't a folder that an init of this user left: remove it"
            );
        }
    }
}

pub(crate) fn say_no_socket<R: Files + Net + Eprint>(rt: &R, path: &str, fault: SocketFault) {
    match fault {
        SocketFault::Empty => say(rt, path, "the path is empty"),
        SocketFault::TooLong => say(rt, path, "the path of a socket has at most 101 bytes"),
        SocketFault::Exists => say_obstacle(rt, path),
        SocketFault::Unusable(ErrorKind::ResourceBusy) => {
            say(rt, path, "another init is starting on it")
        }
        SocketFault::Unusable(kind) => say_error(rt, path, &io::Error::from(kind)),
        SocketFault::Memory => {}
    }
}
