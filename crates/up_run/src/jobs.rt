//! The jobs of a run: those of a folder or of an image.
ghost use Rattle.std.specs.Prelude.{◌≡◌, IfOk, None, Ok};
ghost use Rattle.up_run.specs.Starts.{AreOfBytes, AreOfFiles, ReadsJobs};

use std::alloc::{AllocError, Global};
use std::fs;
use std::io::{Eprint, ErrorKind};
use std::rt::Files;
use up_conf::Folder;
use up_disk::image::read_bytes;
use up_disk::walk::{WalkError, walk};
use up_disk::why::{say, say_error};
use up_image::{ImageError, Table};
use up_model::ExitStatus;
use up_print::check::faults_and_compile;
use up_print::{Printed, cannot_use, image_refused};
use up_text::Items;

/// The jobs of a run, with the output before it; without a table there is no run.
#[derive(Drop)]
pub(crate) struct Jobs {
    pub(crate) printed: Printed,
    pub(crate) table: Option<Table>,
}

// The output in place of a run.
fn no_run(printed: Result<Printed, AllocError>) -> Result<Jobs, AllocError>
    ensures { IfOk result (λ jobs. (jobs.table ≡ None) × (printed ≡ Ok jobs.printed)) }
{
    let printed = printed?;
    Ok(Jobs {
        printed,
        table: None,
    })
}

// The jobs of a folder's files, with the output of its faults, or of the reason for its refusal.
fn folder_jobs(alloc: Global, folder: &Folder) -> Result<Jobs, AllocError>
    ensures { IfOk result (AreOfFiles folder.now) }
{
    let (printed, table) = faults_and_compile(alloc, folder)?;
    Ok(Jobs { printed, table })
}

// The jobs of an image, without output, or the reason for its refusal.
#[tactic(auto, using(up_disk::proofs::Stored::read_is))]
fn image_jobs(alloc: Global, bytes: &[u8]) -> Result<Jobs, AllocError>
    ensures { IfOk result (AreOfBytes bytes.now) }
{
    match Table::from_bytes(alloc, bytes) {
        Ok(table) => {
            let text = Items::new(Vec::new(alloc));
            Ok(Jobs {
                printed: Printed {
                    text,
                    status: ExitStatus::Done,
                },
                table: Some(table),
            })
        }
        Err(ImageError::Memory) => Err(AllocError),
        Err(error) => no_run(image_refused(alloc, error)),
    }
}

fn read_folder<R: Files + Eprint + AllocGlobal + Clone + Drop>(
    rt: &R,
    dir: &str,
) -> Result<Jobs, AllocError>
    ensures { IfOk result (ReadsJobs dir.now) }
{
    match walk(rt, dir) {
        Ok(folder) => {
            let jobs = folder_jobs(rt.alloc(), &folder);
            drop(folder);
            jobs
        }
        Err(WalkError::Unusable(path)) => no_run(cannot_use(rt.alloc(), path.as_str())),
        Err(WalkError::Memory) => Err(AllocError),
    }
}

fn read_image<R: Files + Eprint + AllocGlobal>(rt: &R, image: &str) -> Result<Jobs, AllocError>
    ensures { IfOk result (ReadsJobs image.now) }
{
    match read_bytes(rt, image)? {
        Some(bytes) => image_jobs(rt.alloc(), bytes.as_slice()),
        None => no_run(cannot_use(rt.alloc(), image)),
    }
}

/// Reads the jobs of a run: the path is that of a folder of job files, or of an image.
pub(crate) fn read_jobs<R: Files + Eprint + AllocGlobal + Clone + Drop>(
    rt: &R,
    source: &str,
) -> Result<Jobs, AllocError>
    ensures { IfOk result (ReadsJobs source.now) }
{
    match fs::metadata(rt, source) {
        Ok(found) if found.is_dir() => read_folder(rt, source),
        Ok(found) if found.is_file() => read_image(rt, source),
        Ok(_) => {
            say(rt, source, "it is neither a folder nor a regular file");
            no_run(cannot_use(rt.alloc(), source))
        }
        Err(error) => {
            if error.kind() == ErrorKind::OutOfMemory {
                return Err(AllocError);
            }
            say_error(rt, source, &error);
            no_run(cannot_use(rt.alloc(), source))
        }
    }
}
