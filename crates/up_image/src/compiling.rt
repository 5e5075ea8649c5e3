//! Compiles a folder of job files.
ghost use Rattle.std.specs.Prelude.{◌≡◌, IfOk, IfErr, Ok, Err, if◌then◌else◌, true};
ghost use Rattle.up_image.specs.declared.refusal.CompileError.TheVariants.{ImageTooLarge, SameName, TooManyJobs};
ghost use Rattle.up_image.specs.Compiling.{Compiles, MayRefuse};
ghost use Rattle.up_image.specs.Definable.{are_definable};

use crate::image::has_image;
use crate::limits::MAX_JOBS;
use crate::refusal::CompileError;
use crate::table::Table;
use crate::twice::has_same_path;
use std::alloc::Global;
use up_conf::{Folder, FolderIndex, Report, read_folder};

// Refuses a folder in which a path that is read stands twice.
fn check_apart(twice: bool) -> Result<(), CompileError>
    ensures { result ≡ (if twice then Err SameName else Ok tt) }
{
    if twice {
        return Err(CompileError::SameName);
    }
    Ok(())
}

// Refuses more jobs than a table may have.
fn check_few(few: bool) -> Result<(), CompileError>
    ensures { result ≡ (if few then Ok tt else Err TooManyJobs) }
{
    if few {
        return Ok(());
    }
    Err(CompileError::TooManyJobs)
}

// Refuses jobs that have no image.
fn check_small(small: bool) -> Result<(), CompileError>
    ensures { result ≡ (if small then Ok tt else Err ImageTooLarge) }
{
    if small {
        return Ok(());
    }
    Err(CompileError::ImageTooLarge)
}

/// Compiles a folder to the table of its jobs. Files that aren't readable are reported, and define no job.
#[tactic(auto, using(crate::proofs::GivenJobs::table_given))]
pub fn compile(alloc: Global, folder: &Folder) -> Result<(Table, Report), CompileError>
    ensures compiled { IfOk result (λ made. Compiles folder.now made.0 made.1) }
    ensures given { IfOk result (λ made. are_definable made.0 ≡ true) }
    ensures refused { IfErr result (MayRefuse folder.now) }
{
    let index = FolderIndex::new(alloc, folder)?;
    let twice = has_same_path(alloc, &index)?;
    check_apart(twice)?;
    let Ok((jobs, report)) = read_folder(alloc, &index) else {
        return Err(CompileError::Memory);
    };
    check_few(jobs.as_slice().len() <= MAX_JOBS)?;
    let small = has_image(alloc, jobs.as_slice())?;
    check_small(small)?;
    let table = Table::new(jobs);
    Ok((table, report))
}
