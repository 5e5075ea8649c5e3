//! The socket of a daemon's clients (unix(7)).
ghost use Rattle.std.specs.Prelude.{◌≡◌, IfErr};
ghost use Rattle.up_edge.specs.Sockets.{path_refusal, IsOfSystem};

use mio::net::UnixListener;
use std::alloc::Global;
use std::fs::{
    DirBuilder, File, Files, Permissions, TryLockError, hard_link, metadata, remove_dir,
    remove_file, set_permissions, symlink_metadata,
};
use std::io;
use std::io::ErrorKind;
use std::net::Net;
use std::os::unix::fs::{DirBuilderExt, FileTypeExt, MetadataExt, PermissionsExt};
use std::os::unix::net::UnixStream;
use thiserror::Error;

/// Why a socket can't be made.
#[derive(Clone, Copy, Debug, PartialEq, Eq, Error)]
pub enum SocketFault {
    #[error("the socket's path is empty")]
    Empty,
    #[error("the socket's path is too long")]
    TooLong,
    /// There is something at the path, or at `PATH.new` something that isn't the folder of a start that was ended.
    #[error("the socket exists")]
    Exists,
    #[error("no memory is left")]
    Memory,
    /// The system refused it with an error of this kind.
    #[error("the socket's path can't be used")]
    Unusable(ErrorKind),
}

/// The maximum length of a path in bytes: the system allows 107 (unix(7)), and the socket is made six bytes below it.
const MOST_PATH: usize = 101;

/// How often a folder is made that another start removes before it is locked.
const MOST_TRIES: u32 = 8;

/// The refusal of a path that no socket can have.
pub(crate) fn path_refusal(path: &str) -> Option<SocketFault>
    ensures { result ≡ path_refusal path.now }
{
    if path.is_empty() {
        Some(SocketFault::Empty)
    } else if path.len() > MOST_PATH {
        Some(SocketFault::TooLong)
    } else {
        None
    }
}

fn refusal_of(error: &io::Error) -> SocketFault
    ensures { IsOfSystem result }
{
    match error.kind() {
        ErrorKind::AlreadyExists => SocketFault::Exists,
        ErrorKind::OutOfMemory => SocketFault::Memory,
        kind => SocketFault::Unusable(kind),
    }
}

// Links a socket to `path` once no other user can connect.
fn show(rt: &impl Files, inner: &str, path: &str) -> io::Result<()> {
    set_permissions(rt, inner, Permissions::from_mode(0o600))?;
    hard_link(rt, inner, path)
}

// Makes a socket at the path `inner`, and shows it at `path`.
fn listen_inside<R: Files + Net>(rt: &R, inner: &str, path: &str) -> io::Result<UnixListener> {
    let listener = UnixListener::bind(rt, inner)?;
    match show(rt, inner, path) {
        Ok(()) => Ok(listener),
        Err(error) => {
            drop(listener);
            Err(error)
        }
    }
}

// Whether a path is a folder of this process's user that nobody else can enter.
fn is_own_folder(rt: &impl Files, folder: &str) -> bool {
    match (symlink_metadata(rt, folder), metadata(rt, "/proc/self")) {
        (Ok(found), Ok(own)) => {
            found.is_dir()
                && found.permissions().mode() % 0o1000 == 0o700
                && found.uid() == own.uid()
        }
        _ => false,
    }
}

// Whether nobody listens at a path: there is nothing, or a socket that refuses connections.
fn is_deserted<R: Files + Net>(rt: &R, inner: &str) -> bool {
    match symlink_metadata(rt, inner) {
        Ok(found) if found.file_type().is_socket() => match UnixStream::connect(rt, inner) {
            Ok(_) => false,
            Err(error) => error.kind() == ErrorKind::ConnectionRefused,
        },
        Ok(_) => false,
        Err(error) => error.kind() == ErrorKind::NotFound,
    }
}

// Makes the folder of a socket, if it isn't there. An existing one has to be that of a start of this user.
fn make_folder(rt: &impl Files, folder: &str) -> io::Result<()> {
    let mut builder = DirBuilder::new();
    builder.mode(0o700);
    let Err(error) = builder.create(rt, folder) else {
        return Ok(());
    };
    if error.kind() == ErrorKind::AlreadyExists && is_own_folder(rt, folder) {
        drop(error);
        Ok(())
    } else {
        Err(error)
    }
}

// Whether a path is still that of a folder that was opened.
fn is_still_there(rt: &impl Files, folder: &str, opened: &File) -> bool {
    match (symlink_metadata(rt, folder), opened.metadata()) {
        (Ok(found), Ok(own)) => found.ino() == own.ino() && found.dev() == own.dev(),
        _ => false,
    }
}

// Locks a folder against all other starts, until the file is dropped or the process ends.
fn lock(folder: &File) -> io::Result<()> {
    match folder.try_lock() {
        Ok(()) => Ok(()),
        Err(TryLockError::WouldBlock) => Err(io::Error::from(ErrorKind::ResourceBusy)),
        Err(TryLockError::Error(error)) => Err(error),
    }
}

// The folder of a socket, locked; none if another start removed it meanwhile.
fn locked_folder<R: Files<File = File>>(rt: &R, folder: &str) -> io::Result<Option<File>> {
    make_folder(rt, folder)?;
    let opened = match File::open(rt, folder) {
        Ok(opened) => opened,
        Err(error) if error.kind() == ErrorKind::NotFound => return Ok(None),
        Err(error) => return Err(error),
    };
    lock(&opened)?;
    if is_still_there(rt, folder, &opened) {
        Ok(Some(opened))
    } else {
        Ok(None)
    }
}

// Makes a socket in a folder that this start has locked. Removes the socket of an ended start before, and the folder afterwards.
fn listen_locked<R: Files + Net>(
    rt: &R,
    folder: &str,
    inner: &str,
    path: &str,
) -> io::Result<UnixListener> {
    if !is_deserted(rt, inner) {
        return Err(io::Error::from(ErrorKind::AlreadyExists));
    }
    let _ = remove_file(rt, inner);
    let listener = listen_inside(rt, inner, path);
    let _ = remove_file(rt, inner);
    let _ = remove_dir(rt, folder);
    listener
}

// Makes a socket in a folder that nobody else can enter, which is removed afterwards.
fn listen_through<R: Files<File = File> + Net>(
    rt: &R,
    folder: &str,
    inner: &str,
    path: &str,
) -> io::Result<UnixListener> {
    for _ in 0..MOST_TRIES {
        // This is reported even if the folder can't be made. If something is made at the path later, the link fails.
        if symlink_metadata(rt, path).is_ok() {
            return Err(io::Error::from(ErrorKind::AlreadyExists));
        }
        if let Some(locked) = locked_folder(rt, folder)? {
            let listener = listen_locked(rt, folder, inner, path);
            drop(locked);
            return listener;
        }
    }
    Err(io::Error::from(ErrorKind::ResourceBusy))
}

/// A socket that only its owner can use (mode 0600) from the first moment that it is visible.
pub(crate) fn listen<R: Files<File = File> + Net>(
    rt: &R,
    alloc: Global,
    path: &str,
) -> Result<UnixListener, SocketFault>
    ensures { IfErr result (λ fault. IsOfSystem fault) }
{
    let Ok(folder) = format!(in alloc; "{path}.new") else {
        return Err(SocketFault::Memory);
    };
    let Ok(inner) = format!(in alloc; "{path}.new/s") else {
        return Err(SocketFault::Memory);
    };
    match listen_through(rt, folder.as_str(), inner.as_str(), path) {
        Ok(listener) => Ok(listener),
        Err(error) => Err(refusal_of(&error)),
    }
}
