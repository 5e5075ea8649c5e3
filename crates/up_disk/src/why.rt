//! Reports on standard error why something can't be used. The line for it on standard output only names it.
use std::io::{Eprint, ErrorKind};
use std::{fmt, io};

/// Reports why this path can't be used. If that can't be written nothing else changes.
pub fn say<R: Eprint>(rt: &R, path: &str, why: &str) {
    let _ = eprintln!(rt; "initd: {path}: {why}");
}

// The system's words for an error of this kind (strerror(3)); none for a rare one.
fn words_of(kind: ErrorKind) -> Option<&'static str> {
    match kind {
        ErrorKind::NotFound => Some("No such file or directory"),
        ErrorKind::PermissionDenied => Some("Permission denied"),
        ErrorKind::AlreadyExists => Some("File exists"),
        ErrorKind::NotADirectory => Some("Not a directory"),
        ErrorKind::IsADirectory => Some("Is a directory"),
        ErrorKind::DirectoryNotEmpty => Some("Directory not empty"),
        ErrorKind::ReadOnlyFilesystem => Some("Read-only file system"),
        ErrorKind::FilesystemLoop => Some("Too many levels of symbolic links"),
        ErrorKind::StorageFull => Some("No space left on device"),
        ErrorKind::FileTooLarge => Some("File too large"),
        ErrorKind::InvalidFilename => Some("File name too long"),
        ErrorKind::ArgumentListTooLong => Some("Argument list too long"),
        ErrorKind::ExecutableFileBusy => Some("Text file busy"),
        ErrorKind::OutOfMemory => Some("Cannot allocate memory"),
        _ => None,
    }
}

/// Why the system refused something, in its own words; for a rare error, with its number.
#[derive(Clone, Copy, Drop)]
pub struct Reason(pub io::Error);

impl fmt::Display for Reason {
    fn fmt<W: fmt::Write>(&self, f: &mut fmt::Formatter<W>) -> fmt::Result {
        match words_of(self.0.kind()) {
            Some(words) => f.write_str(words),
            None => fmt::Display::fmt(&self.0, f),
        }
    }
}

pub fn say_error<R: Eprint>(rt: &R, path: &str, error: &io::Error) {
    let reason = Reason(*error);
    let _ = eprintln!(rt; "initd: {path}: {reason}");
}
