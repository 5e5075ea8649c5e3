//! The output of a folder's lint: its faults, and a line for each thing that is allowed but most likely a mistake.
ghost use Rattle.std.specs.Prelude.{◌≡◌, IfOk};
ghost use Rattle.up_tools.specs.Lints.{linted, Lints, LintsDir, status_by, with_warnings};

use std::alloc::{AllocError, Global};
use std::io::Eprint;
use std::rt::Files;
use up_conf::{File, Folder, JobDef};
use up_disk::walk::{cannot_walk, walk};
use up_image::Table;
use up_lint::{Kind, push_lint};
use up_model::ExitStatus;
use up_print::Printed;
use up_print::check::faults_and_compile;
use up_text::{Items, Text};

pub(crate) fn status_by(text: &[u8]) -> ExitStatus
    ensures { result ≡ status_by text.now }
{
    match text {
        [] => ExitStatus::Done,
        _ => ExitStatus::Failed,
    }
}

// The lines of faults, followed by those of the warnings.
fn with_warnings(
    faults: Items<u8>,
    files: &[File],
    jobs: &[JobDef],
    left_out: &[Kind],
    outside: &[Text],
) -> Result<Printed, AllocError>
    ensures { IfOk result (λ made. made
        ≡ with_warnings faults files.now jobs.now left_out.now outside.now) }
{
    let mut text = faults.into_vec();
    push_lint(&mut text, files, jobs, left_out, outside)?;
    let text = Items::new(text);
    let status = status_by(text.as_slice());
    Ok(Printed { text, status })
}

// The output for a folder's jobs, or for a folder that is refused and has none.
fn linted(
    faults: Printed,
    table: Option<Table>,
    files: &[File],
    left_out: &[Kind],
    outside: &[Text],
) -> Result<Printed, AllocError>
    ensures { IfOk result (λ made. made ≡ linted faults files.now table left_out.now outside.now) }
{
    match table {
        Some(table) => {
            let made = with_warnings(faults.text, files, table.as_slice(), left_out, outside);
            drop(table);
            made
        }
        None => Ok(faults),
    }
}

// The output of a folder's lint: the faults of its files, and the warnings of its jobs.
fn lint(
    alloc: Global,
    folder: &Folder,
    left_out: &[Kind],
    outside: &[Text],
) -> Result<Printed, AllocError>
    ensures { IfOk result (Lints folder.now left_out.now outside.now) }
{
    let (faults, table) = faults_and_compile(alloc, folder)?;
    linted(faults, table, folder.as_slice(), left_out, outside)
}

/// The output of a lint of a folder on the disk: the faults of its files, and the warnings of its jobs, except those of the kinds that
/// are left out. `outside` contains the names of the events that come from outside.
pub fn lint_dir<R: Files + Eprint + AllocGlobal + Clone + Drop>(
    rt: &R,
    dir: &str,
    left_out: &[Kind],
    outside: &[Text],
) -> Result<Printed, AllocError>
    ensures { IfOk result (LintsDir dir.now left_out.now outside.now) }
{
    match walk(rt, dir) {
        Ok(folder) => lint(rt.alloc(), &folder, left_out, outside),
        Err(error) => cannot_walk(rt.alloc(), &error),
    }
}
