//! The configuration of a run, which is read again when a client asks for it.
ghost use Rattle.std.specs.Prelude.{◌≡◌, IfOk, IfSome};
ghost use Rattle.up_edge.specs.Calls.{no_calls};
ghost use Rattle.up_edge.specs.Journals.{calls_of};
ghost use Rattle.up_run.specs.Reloads.{LoadsFiles, LoadsImage, LoadsPath};

use std::alloc::{AllocError, Global};
use std::fs;
use std::io::{Eprint, ErrorKind};
use std::rt::Files;
use up_conf::{Fault, Folder};
use up_disk::image::read_bytes;
use up_disk::walk::{WalkError, walk};
use up_disk::why::{say, say_error};
use up_edge::{Journal, Source, SourceFault, report_load};
use up_image::{CompileError, ImageError, Table, compile};
use up_model::Loaded;

// Reports each fault of a folder's files, on standard error, since nobody may read standard output.
fn say_faults<R: Eprint>(rt: &R, report: &[Fault]) {
    for fault in report {
        let path = fault.path.as_str();
        let line = fault.line;
        let number = fault.code.number();
        let name = fault.code.name();
        let _ = eprintln!(rt; "initd: {path}:{line}: {number} {name}");
    }
}

fn say_refused<R: Eprint>(rt: &R, path: &str, number: u8, name: &str) {
    let _ = eprintln!(rt; "initd: {path}: {number} {name}: the configuration is unchanged");
}

// The jobs of a folder's files, whose faults are reported; or the reason for their refusal.
fn load_files<R: Eprint + AllocGlobal>(
    rt: &R,
    dir: &str,
    folder: &Folder,
) -> Result<Loaded, AllocError>
    ensures { IfOk result (LoadsFiles folder.now) }
{
    match compile(rt.alloc(), folder) {
        Ok((table, report)) => {
            say_faults(rt, report.as_slice());
            drop(report);
            Ok(Loaded::Files(table))
        }
        Err(CompileError::Memory) => Err(AllocError),
        Err(error) => {
            say_refused(rt, dir, error.number(), error.name());
            Ok(Loaded::Refused(error.number()))
        }
    }
}

// The jobs of an image, or the reason for its refusal.
#[tactic(auto, using(up_disk::proofs::Stored::read_is))]
fn load_bytes<R: Eprint + AllocGlobal>(
    rt: &R,
    image: &str,
    bytes: &[u8],
) -> Result<Loaded, AllocError>
    ensures { IfOk result (LoadsImage bytes.now) }
{
    match Table::from_bytes(rt.alloc(), bytes) {
        Ok(table) => Ok(Loaded::Files(table)),
        Err(ImageError::Memory) => Err(AllocError),
        Err(error) => {
            say_refused(rt, image, error.number(), error.name());
            Ok(Loaded::Refused(error.number()))
        }
    }
}

fn load_folder<R: Files + Eprint + AllocGlobal + Clone + Drop>(
    rt: &R,
    dir: &str,
) -> Result<Option<Loaded>, AllocError>
    ensures { IfOk result (λ read. IfSome read LoadsPath) }
{
    match walk(rt, dir) {
        Ok(folder) => {
            let loaded = load_files(rt, dir, &folder);
            drop(folder);
            Ok(Some(loaded?))
        }
        Err(WalkError::Unusable(_)) => Ok(None),
        Err(WalkError::Memory) => Err(AllocError),
    }
}

fn load_image<R: Files + Eprint + AllocGlobal>(
    rt: &R,
    image: &str,
) -> Result<Option<Loaded>, AllocError>
    ensures { IfOk result (λ read. IfSome read LoadsPath) }
{
    match read_bytes(rt, image)? {
        Some(bytes) => {
            let loaded = load_bytes(rt, image, bytes.as_slice());
            drop(bytes);
            Ok(Some(loaded?))
        }
        None => Ok(None),
    }
}

// The jobs at the path now: a folder of job files, or an image. None if it can't be read; the reason is then reported.
fn load_path<R: Files + Eprint + AllocGlobal + Clone + Drop>(
    rt: &R,
    path: &str,
) -> Result<Option<Loaded>, AllocError>
    ensures { IfOk result (λ read. IfSome read LoadsPath) }
{
    match fs::metadata(rt, path) {
        Ok(found) if found.is_dir() => load_folder(rt, path),
        Ok(found) if found.is_file() => load_image(rt, path),
        Ok(_) => {
            say(rt, path, "it is neither a folder nor a regular file");
            Ok(None)
        }
        Err(error) => {
            if error.kind() == ErrorKind::OutOfMemory {
                return Err(AllocError);
            }
            say_error(rt, path, &error);
            Ok(None)
        }
    }
}

/// A source that reads a path: a folder of job files, or an image.
#[derive(Drop)]
pub(crate) struct PathSource<'a, R> {
    rt: &'a R,
    alloc: Global,
    path: &'a str,
    journal: Journal<Loaded>,
}

impl<'a, R> PathSource<'a, R> {
    /// A source of this path, which is not read yet.
    pub(crate) fn new(rt: &'a R, alloc: Global, path: &'a str) -> Self
        ensures { calls_of result.journal ≡ no_calls }
    {
        PathSource {
            rt,
            alloc,
            path,
            journal: Journal::new(alloc),
        }
    }
}

impl<R: Files + Eprint + AllocGlobal + Clone + Drop> Source for PathSource<'_, R> {
    ghost use Rattle.up_edge.specs.Journals.{calls_of};

    ghost calls = { λ source. calls_of source.journal };

    fn load(&mut self) -> Result<Loaded, SourceFault> {
        let found = load_path(self.rt, self.path).unwrap_or(None);
        report_load(&mut self.journal, self.alloc, found)
    }

    fn faults(&self) -> u64 {
        self.journal.faults()
    }

    fn happened(&self) -> &[Loaded] {
        self.journal.entries()
    }

    fn clear_record(&mut self) {
        self.journal.clear();
    }
}
