//! The files to which a run is reported.
use std::fs::File;
use std::io;
use std::io::{Eprint, ErrorKind};
use std::rt::Files;
use up_disk::why::{say, say_error};

// A new file; with `over` an existing one is emptied.
fn open<R: Files>(rt: &R, path: &str, over: bool) -> io::Result<R::File> {
    if over {
        File::create(rt, path)
    } else {
        File::create_new(rt, path)
    }
}

/// The file of a record, if one is asked for. An existing one is emptied if `over`, and else refused. None if it can't be made; the
/// reason is then reported.
pub(crate) fn open_file<R: Files + Eprint>(
    rt: &R,
    path: Option<&str>,
    over: bool,
) -> Option<Option<R::File>> {
    let Some(path) = path else {
        return Some(None);
    };
    match open(rt, path, over) {
        Ok(file) => Some(Some(file)),
        Err(error) => {
            if error.kind() == ErrorKind::AlreadyExists {
                say(rt, path, "it exists; --record-over overwrites it");
            } else {
                say_error(rt, path, &error);
            }
            None
        }
    }
}
