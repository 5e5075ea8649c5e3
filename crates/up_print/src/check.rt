//! Checks a folder: prints its faults and the number of its jobs.
ghost use Rattle.std.specs.Prelude.{◌≡◌, ◌++◌, Err, IfOk, OnErr, OnOk};
ghost use Rattle.up_image.specs.declared.refusal.CompileError.TheVariants.{Memory};
ghost use Rattle.up_print.specs.Folders.{check_output, compile_outcome, count_line, faults_output, table_of, Checks, ChecksExplained, ExplainsOutcome, Graphs, graph_output, IsCompiled, IsTable, PrintsFaults};

use crate::graph::graph;
use crate::printed::{Printed, push_explained, push_faults, refused, status_of};
use crate::push::{push, push_decimal};
use std::alloc::{AllocError, Global};
use up_conf::{Folder, Report};
use up_image::{CompileError, Table, compile};
use up_text::Items;

// The compiled table, or the reason for its refusal; out of memory becomes an error.
fn unless_memory(
    made: Result<(Table, Report), CompileError>,
) -> Result<Result<(Table, Report), CompileError>, AllocError>
    ensures kept { IfOk result (λ kept. (kept ≡ made) × (made ≡ Err Memory → ⊥)) }
    ensures memory { OnErr result (made ≡ Err Memory) }
{
    match made {
        Ok(made) => Ok(Ok(made)),
        Err(CompileError::SameName) => Ok(Err(CompileError::SameName)),
        Err(CompileError::TooManyJobs) => Ok(Err(CompileError::TooManyJobs)),
        Err(CompileError::ImageTooLarge) => Ok(Err(CompileError::ImageTooLarge)),
        Err(CompileError::Memory) => Err(AllocError),
    }
}

// The jobs and the faults of a folder, or the reason for its refusal.
fn compile_outcome(
    alloc: Global,
    folder: &Folder,
) -> Result<Result<(Table, Report), CompileError>, AllocError>
    ensures { IfOk result (IsCompiled folder.now) }
{
    let made = compile(alloc, folder);
    let kept = unless_memory(made)?;
    Ok(kept)
}

#[tactic(auto, unfolding(crate::specs::Folders::count_line))]
fn push_counts(text: &mut Vec<u8>, jobs: usize, faults: usize) -> Result<(), AllocError>
    ensures { OnOk result (text.new.items ≡ text.old.items ++ count_line jobs faults) }
{
    push_decimal(text, jobs as u64)?;
    push(text, " jobs, ")?;
    push_decimal(text, faults as u64)?;
    push(text, " faults\n")
}

fn render_made(
    alloc: Global,
    made: &Result<(Table, Report), CompileError>,
) -> Result<Printed, AllocError>
    ensures { IfOk result (λ printed. printed ≡ check_output made.now) }
{
    match made {
        Ok((table, report)) => {
            let mut text: Vec<u8> = Vec::new(alloc);
            push_faults(&mut text, report.as_slice())?;
            push_counts(&mut text, table.len(), report.len())?;
            let text = Items::new(text);
            let status = status_of(report);
            Ok(Printed { text, status })
        }
        Err(error) => refused(alloc, *error),
    }
}

fn table_of(made: Result<(Table, Report), CompileError>) -> Option<Table>
    ensures { result ≡ table_of made }
{
    match made {
        Ok((table, _)) => Some(table),
        Err(_) => None,
    }
}

/// The output of a folder's check, and the table of its jobs, unless the folder is refused.
pub fn check_and_compile(
    alloc: Global,
    folder: &Folder,
) -> Result<(Printed, Option<Table>), AllocError>
    ensures checks { IfOk result (λ made. Checks folder.now made.0) }
    ensures table { IfOk result (λ made. IsTable folder.now made.1) }
{
    let made = compile_outcome(alloc, folder)?;
    let printed = render_made(alloc, &made)?;
    let table = table_of(made);
    Ok((printed, table))
}

fn render_faults(
    alloc: Global,
    made: &Result<(Table, Report), CompileError>,
) -> Result<Printed, AllocError>
    ensures { IfOk result (λ printed. printed ≡ faults_output made.now) }
{
    match made {
        Ok((_, report)) => {
            let mut text: Vec<u8> = Vec::new(alloc);
            let faults = report.as_slice();
            push_faults(&mut text, faults)?;
            let text = Items::new(text);
            let status = status_of(report);
            Ok(Printed { text, status })
        }
        Err(error) => refused(alloc, *error),
    }
}

/// The output for a folder before its jobs run: the faults of its files. And the table of its jobs, unless the folder is refused.
pub fn faults_and_compile(
    alloc: Global,
    folder: &Folder,
) -> Result<(Printed, Option<Table>), AllocError>
    ensures faults { IfOk result (λ made. PrintsFaults folder.now made.0) }
    ensures table { IfOk result (λ made. IsTable folder.now made.1) }
{
    let made = compile_outcome(alloc, folder)?;
    let printed = render_faults(alloc, &made)?;
    let table = table_of(made);
    Ok((printed, table))
}

/// The output of a folder's check: the faults of its files, and the numbers of jobs and faults.
pub fn check(alloc: Global, folder: &Folder) -> Result<Printed, AllocError>
    ensures { IfOk result (Checks folder.now) }
{
    let made = compile_outcome(alloc, folder)?;
    render_made(alloc, &made)
}

// The output for a folder's files that explains their faults.
fn render_explained(
    alloc: Global,
    folder: &Folder,
    made: &Result<(Table, Report), CompileError>,
) -> Result<Printed, AllocError>
    ensures { IfOk result (λ printed. ExplainsOutcome folder.now printed made.now) }
{
    match made {
        Ok((table, report)) => {
            let mut text: Vec<u8> = Vec::new(alloc);
            push_explained(&mut text, folder.as_slice(), report.as_slice())?;
            push_counts(&mut text, table.len(), report.len())?;
            let text = Items::new(text);
            let status = status_of(report);
            Ok(Printed { text, status })
        }
        Err(error) => refused(alloc, *error),
    }
}

/// The output of a folder's check that explains the faults: below each the line at fault, and what to do.
pub fn check_explained(alloc: Global, folder: &Folder) -> Result<Printed, AllocError>
    ensures { IfOk result (ChecksExplained folder.now) }
{
    let made = compile_outcome(alloc, folder)?;
    render_explained(alloc, folder, &made)
}

fn render_graph(
    alloc: Global,
    made: &Result<(Table, Report), CompileError>,
) -> Result<Printed, AllocError>
    ensures { IfOk result (λ printed. printed ≡ graph_output made.now) }
{
    match made {
        Ok((table, report)) => {
            let text = Items::new(graph(alloc, table.as_slice())?);
            let status = status_of(report);
            Ok(Printed { text, status })
        }
        Err(error) => refused(alloc, *error),
    }
}

/// The graph of a folder's jobs and the events that join them, in the language of dot(1).
pub fn graph_folder(alloc: Global, folder: &Folder) -> Result<Printed, AllocError>
    ensures { IfOk result (Graphs folder.now) }
{
    let made = compile_outcome(alloc, folder)?;
    render_graph(alloc, &made)
}
